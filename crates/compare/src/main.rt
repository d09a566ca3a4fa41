// compare: reads cases with the answers of an outside implementation from standard input, asks the
// gauges and placing the same, and prints each answer that differs, and how many agree.
#![tactic(auto)]

mod ask;
mod cases;
mod figures;

use ask::{agrees_on_placing, ask_gauges};
use cases::{Case, GaugeCase, PlacingCase, read_case};
use figures::print_figures;
use std::io::{BufRead, BufReader};
use std::{fmt, io};

// How many answers agree, and how many differ.
#[derive(Clone, Copy, Default)]
struct Tally {
    agree: u64,
    differ: u64,
}

impl Tally {
    fn count(&mut self, same: bool) {
        if same {
            self.agree = self.agree.saturating_add(1);
        } else {
            self.differ = self.differ.saturating_add(1);
        }
    }
}

impl fmt::Display for Tally {
    fn fmt<W: fmt::Write>(&self, f: &mut fmt::Formatter<W>) -> fmt::Result {
        let Tally { agree, differ } = *self;
        write!(f, "{agree} answers agree, {differ} differ")
    }
}

#[derive(Clone, Copy, Default)]
struct Tallies {
    gauges: Tally,
    placings: Tally,
}

impl Tallies {
    // Compares one case, and prints it where an answer differs.
    fn compare(&mut self, rt: &HostRuntime, text: &str) -> anyhow::Result<()> {
        match read_case(rt.alloc(), text)? {
            Case::Remark => {}
            Case::Gauges(case) => self.compare_gauges(rt, text, &case)?,
            Case::Placing(case) => self.compare_placing(rt, text, &case)?,
        }
        Ok(())
    }

    fn compare_gauges(&mut self, rt: &HostRuntime, text: &str, case: &GaugeCase) -> io::Result<()> {
        let ours = ask_gauges(case);
        let theirs = case.verdicts;
        self.gauges.count(ours.density == theirs.density);
        self.gauges.count(ours.slope == theirs.slope);
        self.gauges.count(ours.exact == theirs.exact);
        if ours != theirs {
            println!(rt; "gauges say {ours}, not {theirs}: {text}")?;
        }
        Ok(())
    }

    fn compare_placing(
        &mut self,
        rt: &HostRuntime,
        text: &str,
        case: &PlacingCase,
    ) -> anyhow::Result<()> {
        let same = agrees_on_placing(case)?;
        self.placings.count(same);
        if !same {
            println!(rt; "placing says otherwise: {text}")?;
        }
        Ok(())
    }
}

fn compare_all(rt: &HostRuntime) -> anyhow::Result<Tallies> {
    let mut tallies = Tallies::default();
    for line in BufReader::new(rt.alloc(), rt.stdin())?.lines(rt.alloc()) {
        tallies.compare(rt, line?.as_str())?;
    }
    Ok(tallies)
}

fn run(rt: &HostRuntime) -> anyhow::Result<()> {
    let Tallies { gauges, placings } = compare_all(rt)?;
    println!(rt; "gauges: {gauges}")?;
    println!(rt; "placings: {placings}")?;
    print_figures(rt)?;
    Ok(())
}

fn main(rt: HostRuntime) -> anyhow::Result<()> {
    run(&rt)
}
