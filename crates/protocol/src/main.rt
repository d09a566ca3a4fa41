// protocol: takes a board through all that there is to do with one, in the only order that builds. A plan is
// checked and closed, a bare board loaded from it; then jobs arrive and ticks pass, until it is bare again.
// Under must-not-build/ stand uses out of this order.
#![tactic(auto)]

use anyhow::Context;
use board::BareBoard;
use duty::{Header, Letter, Record, Timing};
use fault::Fault;
use gauge::Exact;
use plans::OpenPlan;
use queue::RowQueue;
use std::fmt;

// What the calls answered.
#[derive(Drop)]
struct Answers {
    deadline: u64,
    units: u32,
    first: Option<usize>,
    second: Option<usize>,
}

impl fmt::Display for Answers {
    fn fmt<W: fmt::Write>(&self, f: &mut fmt::Formatter<W>) -> fmt::Result {
        let Answers {
            deadline,
            units,
            first,
            second,
        } = self;
        write!(
            f,
            "due at {deadline}, cost {units}; the ticks went to {first:?} and {second:?}"
        )
    }
}

fn use_board(header: Header, records: &mut [Record]) -> Result<Answers, Fault> {
    let open = OpenPlan::new(header, records);
    open.check(&Exact)?;
    let closed = open.close(Exact);
    let bare = BareBoard::new(RowQueue::new());
    let mut board = bare.load(&closed, 1);
    let (deadline, units) = board.arrive(0)?;
    let first = board.tick()?;
    let second = board.tick()?;
    let bare = board.unload();
    let _ = bare.into_queue();
    Ok(Answers {
        deadline,
        units,
        first,
        second,
    })
}

fn run(rt: &HostRuntime) -> anyhow::Result<()> {
    let mut records = [
        Record::new(*b"GREAT   ", Timing::new(1, 5, 10), 1),
        Record::new(*b"SWELL   ", Timing::new(3, 6, 20), 1),
    ];
    let header = Header::new(Letter::Exact, 1, 2, 20).context("the header keeps its limits")?;
    match use_board(header, &mut records) {
        Ok(answers) => Ok(rt.println(answers)?),
        Err(fault) => Ok(rt.println(fault)?),
    }
}

fn main(rt: HostRuntime) -> anyhow::Result<()> {
    run(&rt)
}
