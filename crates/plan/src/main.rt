// plan: reads a table from standard input and prints its plan, or the one line of its refusal.
#![tactic(auto)]

use columns::Form;
use duty::{Header, Record};
use placing::Lined;
use planner::plan;
use std::io::{Read, Write};

// One byte more than the longest table is all that can decide.
fn run(rt: &HostRuntime) -> anyhow::Result<()> {
    let heap = rt.alloc();
    let mut text = Vec::new(heap);
    rt.stdin()
        .take(Form::Table.longest_text() as u64 + 1)
        .read_to_end(&mut text)?;
    let mut records = [Record::BLANK; Header::MOST_RECORDS];
    let mut scratch = [Lined::UNUSED; Header::MOST_RECORDS];
    let mut out = vec![in heap; 0u8; Form::Plan.longest_text()]?;
    match plan(
        text.as_slice(),
        &mut records,
        &mut scratch,
        out.as_mut_slice(),
    ) {
        Ok(count) => rt.stdout().write_all(&out[0..count])?,
        Err(fault) => rt.println(fault)?,
    }
    Ok(())
}

fn main(rt: HostRuntime) -> anyhow::Result<()> {
    run(&rt)
}
