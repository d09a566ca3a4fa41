// replan: makes the plan of a table as many times over as its argument says, and prints it once.
#![tactic(auto)]

ghost use Rattle.std.specs.Prelude.{◌≤◌, length, IfOk};

use anyhow::Context;
use columns::Form;
use duty::{Header, Record};
use fault::Fault;
use placing::Lined;
use planner::plan;
use std::env;
use std::io::{Read, Write};

fn plan_once(text: &[u8], out: &mut [u8]) -> Result<usize, Fault>
    ensures { IfOk result (λ n. n ≤ length out.old) }
{
    let mut records = [Record::BLANK; Header::MOST_RECORDS];
    let mut scratch = [Lined::UNUSED; Header::MOST_RECORDS];
    plan(text, &mut records, &mut scratch, out)
}

fn plan_over_and_over(text: &[u8], out: &mut [u8], times: u32) {
    for _ in 0..times {
        let _ = plan_once(text, out);
    }
}

fn repeats(rt: &HostRuntime) -> anyhow::Result<u32> {
    let word = env::args(rt)?.nth(1).context("usage: replan N")?;
    Ok(word.as_str().parse::<u32>()?)
}

fn run(rt: &HostRuntime) -> anyhow::Result<()> {
    let heap = rt.alloc();
    let times = repeats(rt)?;
    let mut input = Vec::new(heap);
    rt.stdin().read_to_end(&mut input)?;
    let mut out = vec![in heap; 0u8; Form::Plan.longest_text()]?;
    plan_over_and_over(
        input.as_slice(),
        out.as_mut_slice(),
        times.saturating_sub(1),
    );
    match plan_once(input.as_slice(), out.as_mut_slice()) {
        Ok(count) => rt.stdout().write_all(&out[0..count])?,
        Err(fault) => rt.println(fault)?,
    }
    Ok(())
}

fn main(rt: HostRuntime) -> anyhow::Result<()> {
    run(&rt)
}
