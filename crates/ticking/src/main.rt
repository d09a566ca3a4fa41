// ticking: runs a full board of 64 duties for as many ticks as its second argument says, on the queue that the first
// one names (row or heap), and prints a sum over the places that got them.
#![tactic(auto)]

use anyhow::{Context, anyhow, ensure};
use board::{BareBoard, RunningBoard};
use duty::{Header, Letter, Record, Timing};
use heap_queue::{HeapQueue, Timed};
use plans::{ClosedPlan, OpenPlan};
use queue::{PLACES, ReadyQueue, RowQueue};
use std::env;

// Cost 2 in every 128 ticks, 64 times over, fills every tick. The deadlines go from 65 to 128.
const SPACING: u32 = 128;

fn duty(deadline: u32) -> Record {
    Record::new(*b"STOP-8  ", Timing::new(2, deadline, SPACING), 1)
}

// Every other tick the next duty arrives, so that each comes as often as it may.
fn ticks<Q: ReadyQueue>(board: &mut RunningBoard<Q>, count: u64) -> u64 {
    let mut sum = 0u64;
    for clock in 0..count {
        if clock % 2 == 0 {
            let _ = board.arrive((clock / 2 % 64) as usize);
        }
        if let Ok(Some(place)) = board.tick() {
            sum = sum.wrapping_mul(31).wrapping_add(place as u64);
        }
    }
    sum
}

fn run_on<Q: ReadyQueue + Drop>(plan: &ClosedPlan<Letter>, queue: Q, count: u64) -> u64 {
    let mut board = BareBoard::new(queue).load(plan, 1);
    ticks(&mut board, count)
}

// Queues go by name here, as the argument gives it.
fn run_named(
    rt: &HostRuntime,
    plan: &ClosedPlan<Letter>,
    queue: &str,
    count: u64,
) -> anyhow::Result<()> {
    match queue {
        "row" => rt.println(run_on(plan, RowQueue::new(), count))?,
        "heap" => {
            let memory = vec![in rt.alloc(); Timed::UNUSED; PLACES]?;
            ensure!(HeapQueue::check(&memory).is_ok(), "no memory for the queue");
            rt.println(run_on(plan, HeapQueue::new(memory), count))?
        }
        _ => return Err(anyhow!("usage: ticking row|heap N")),
    }
    Ok(())
}

fn run(rt: &HostRuntime) -> anyhow::Result<()> {
    let mut words = env::args(rt)?.skip(1);
    let (Some(queue), Some(count)) = (words.next(), words.next()) else {
        return Err(anyhow!("usage: ticking row|heap N"));
    };
    let count = count.as_str().parse::<u64>()?;
    let mut records = [duty(SPACING); PLACES];
    for (record, deadline) in records.iter_mut().zip(65..=SPACING) {
        record.timing.deadline = deadline;
    }
    let header = Header::new(Letter::Exact, 1, 64, SPACING).context("no header")?;
    let plan = OpenPlan::new(header, &mut records);
    if let Err(fault) = plan.check(&Letter::Exact) {
        rt.println(fault.number())?;
        return Ok(());
    }
    let closed = plan.close(Letter::Exact);
    run_named(rt, &closed, queue.as_str(), count)
}

fn main(rt: HostRuntime) -> anyhow::Result<()> {
    run(&rt)
}
