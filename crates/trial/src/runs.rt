// From the input to the runs.
use crate::options::{Queue, read_options};
use crate::play::Trial;
use crate::rack::Rack;
use duty::{Header, Record};
use heap_queue::{HeapQueue, Timed};
use queue::{PLACES, RowQueue};
use std::io::Read;
use trials::{plan_end, read_script};

// Plays the trial with a heap queue, in memory that the check passed.
fn play_with_heap(rt: &HostRuntime, trial: &Trial) -> anyhow::Result<()> {
    let memory = vec![in rt.alloc(); Timed::UNUSED; PLACES]?;
    match HeapQueue::check(&memory) {
        Ok(()) => {
            let queue = trial.play(rt, HeapQueue::new(memory))?;
            let _ = queue.into_memory();
        }
        Err(fault) => rt.println(fault)?,
    }
    Ok(())
}

// Plays the trial with a row, which has no memory to check and to give back.
fn play_with_row(rt: &HostRuntime, trial: &Trial) -> anyhow::Result<()> {
    let _ = trial.play(rt, RowQueue::new())?;
    Ok(())
}

pub fn run(rt: &HostRuntime) -> anyhow::Result<()> {
    let options = read_options(rt)?;
    let mut text = Vec::new(rt.alloc());
    rt.stdin().read_to_end(&mut text)?;
    let (plan, calls) = text.as_slice().split_at(plan_end(text.as_slice()));
    let mut records = [Record::BLANK; Header::MOST_RECORDS];
    match Rack::read(plan, &mut records) {
        Ok(rack) => {
            let trial = Trial {
                rack,
                script: read_script(rt.alloc(), calls)?,
                chart: options.chart,
            };
            match options.queue {
                Queue::Row => play_with_row(rt, &trial),
                Queue::Heap => play_with_heap(rt, &trial),
            }
        }
        Err(fault) => Ok(rt.println(fault)?),
    }
}
