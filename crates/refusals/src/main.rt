// Runs a table of cases from the standard input, texts with what the reader and the writer are to say to
// them; prints a line for each that comes out otherwise, and then how many there were.
#![tactic(auto)]

mod calls;
mod cases;
mod changes;
mod errors;
mod escapes;
mod outcomes;
mod tallies;

use cases::Case;
use std::io;
use std::io::{BufRead, BufReader};
use tallies::Tally;

// Runs the case on the line, and says whether it comes out as expected.
fn run_case(rt: &HostRuntime, place: u64, line: &str) -> io::Result<bool> {
    let case = match Case::parse(rt.alloc(), line) {
        Ok(case) => case,
        Err(error) => {
            println!(rt; "line {place}: {error}")?;
            return Ok(false);
        }
    };
    let expected = case.expected;
    let outcome = case.run(rt.alloc())?;
    if outcome == expected {
        return Ok(true);
    }
    println!(rt; "line {place}: expected {expected}, came {outcome}")?;
    Ok(false)
}

fn main(rt: HostRuntime) -> io::Result<()> {
    let mut tally = Tally::default();
    let lines = BufReader::new(rt.alloc(), rt.stdin())?.lines(rt.alloc());
    for (place, line) in (1u64..).zip(lines) {
        let line = line?;
        if !line.is_empty() && !line.starts_with('#') {
            tally.count(run_case(&rt, place, line.as_str())?);
        }
    }
    rt.println(tally)
}
