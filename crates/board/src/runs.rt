// Whole runs: a board is loaded, makes a list of calls, and is bare again.
ghost use Rattle.std.specs.Prelude.{◌≡◌, ◌≤◌, true, length, take, OnOk};
ghost use Rattle.duty.specs.Heads.{head};
ghost use Rattle.gauge.specs.Shortage.{RefusedListsLeaveAJobShort};
ghost use Rattle.model.specs.Steps.{run as run_of};
ghost use Rattle.board_state.specs.BoardOf.{board_of};
ghost use Rattle.board.specs.Loads.{list_of, load_fault};
ghost use Rattle.board.specs.Runs.{calls, listed, run_fault, Ran};

use crate::bare::BareBoard;
use crate::loads::check_load;
use crate::running::RunningBoard;
use duty::{Header, Record};
use fault::Fault;
use gauge::Gauge;
use model::Event;
use plans::{ClosedPlan, OpenPlan};
use queue::ReadyQueue;

impl<Q: ReadyQueue> RunningBoard<Q> {
    // Makes the calls in their order, and writes each answer beside its call.
    fn play(&mut self, events: &mut [Event])
        ensures { events.new ≡ run_of (board_of self.old.state) (calls events.old) }
    {
        for event in events {
            event.answer = self.call(event.call);
        }
    }
}

// Loads the board of this number from the plan, makes the calls, writes each answer beside its call, and gives the
// board back bare. Where there is no such board, nothing is run.
pub fn run<G: Gauge, Q: ReadyQueue>(
    plan: &ClosedPlan<G>,
    number: u8,
    board: BareBoard<Q>,
    events: &mut [Event],
) -> (BareBoard<Q>, Result<(), Fault>)
    ensures answer { result.1 ≡ load_fault number plan.now.header.boards }
    ensures ran { Ran Q.held (list_of plan.now number) events.old events.new board.queue result.0.queue result.1 }
    ensures refused_lists { RefusedListsLeaveAJobShort }
{
    if let Err(fault) = check_load(plan, number) {
        return (board, Err(fault));
    }
    let mut running = board.load(plan, number);
    running.play(events);
    (running.unload(), Ok(()))
}

// Closes the plan under the gauge, and runs its board of this number.
fn run_rows<G: Gauge + Drop, Q: ReadyQueue>(
    header: Header,
    rows: &mut [Record],
    gauge: G,
    number: u8,
    queue: Q,
    events: &mut [Event],
) -> (Q, Result<(), Fault>)
    ensures answer { result.1 ≡ run_fault (G.passed gauge) (head header) rows.old number }
    ensures ran { Ran Q.held (listed (head header) rows.old number) events.old events.new queue result.0 result.1 }
    ensures passing { OnOk result.1 (G.passed gauge (listed (head header) rows.old number) header.cycle ≡ true) }
{
    let plan = OpenPlan::new(header, rows);
    if let Err(fault) = plan.check(&gauge) {
        return (queue, Err(fault));
    }
    let closed = plan.close(gauge);
    let (board, answer) = run(&closed, number, BareBoard::new(queue), events);
    (board.into_queue(), answer)
}

// Copies records to the front of `rows`, as many as there is room for, and answers how many.
fn copy_rows(records: &[Record], rows: &mut [Record]) -> usize
    ensures within { result ≤ length rows.old }
    ensures value { take result rows.new ≡ take (length rows.old) records.now }
{
    let n = records.len().min(rows.len());
    rows[..n].copy_from_slice(&records[..n]);
    n
}

// Closes the plan under the gauge, and runs its board of this number: all that a program needs. The plan is
// closed over a copy of the header's records, so the caller's stay as they are. The queue comes back.
pub fn run_plan<G: Gauge + Drop, Q: ReadyQueue>(
    header: Header,
    records: &[Record],
    gauge: G,
    number: u8,
    queue: Q,
    events: &mut [Event],
) -> (Q, Result<(), Fault>)
    ensures answer { result.1 ≡ run_fault (G.passed gauge) (head header) records.now number }
    ensures ran { Ran Q.held (listed (head header) records.now number) events.old events.new queue result.0 result.1 }
    ensures passing { OnOk result.1 (G.passed gauge (listed (head header) records.now number) header.cycle ≡ true) }
    ensures refused_lists { RefusedListsLeaveAJobShort }
{
    let mut rows = [Record::BLANK; Header::MOST_RECORDS];
    let n = copy_rows(records, &mut rows);
    run_rows(header, &mut rows[..n], gauge, number, queue, events)
}
