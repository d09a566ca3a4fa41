// plan_check: reads a plan from standard input and prints OK, or the one line of its refusal.
#![tactic(auto)]

use columns::Form;
use duty::{Header, Record};
use planner::check;
use std::io::Read;

// One byte more than the longest plan is all that can decide.
fn run(rt: &HostRuntime) -> anyhow::Result<()> {
    let heap = rt.alloc();
    let mut text = Vec::new(heap);
    rt.stdin()
        .take(Form::Plan.longest_text() as u64 + 1)
        .read_to_end(&mut text)?;
    let mut records = [Record::BLANK; Header::MOST_RECORDS];
    match check(text.as_slice(), &mut records) {
        Ok(()) => rt.println("OK")?,
        Err(fault) => rt.println(fault)?,
    }
    Ok(())
}

fn main(rt: HostRuntime) -> anyhow::Result<()> {
    run(&rt)
}
