// Two lists that only look right: a weaker test would pass them, and the gauge does not.
use duty::Timing;
use gauge::{Density, Exact, Gauge, Slope};
use std::io;

// Densities are counted in millionths.
const WHOLE: u64 = 1_000_000;

fn verdict(passes: bool) -> &'static str {
    if passes { "passes" } else { "is refused" }
}

// The slope gauge's sum at t without the rates: the steps alone.
fn steps_at(duties: &[Timing], cycle: u32, t: u32) -> u64 {
    duties
        .iter()
        .filter(|duty| duty.deadline <= t)
        .map(|duty| u64::from(duty.cost).saturating_mul(u64::from(cycle)))
        .fold(0u64, |sum, step| sum.saturating_add(step))
}

// The sum of the densities, each rounded down to millionths.
fn densities_down(duties: &[Timing]) -> u64 {
    duties
        .iter()
        .filter_map(|duty| {
            let share = u64::from(duty.cost).saturating_mul(WHOLE);
            share.checked_div(u64::from(duty.deadline))
        })
        .fold(0u64, |sum, density| sum.saturating_add(density))
}

// 2/5/10, 3/6/12 and 2/8/20 at 8, the sums times the cycle of 120.
fn print_slope(rt: &HostRuntime) -> io::Result<()> {
    let duties = [
        Timing::new(2, 5, 10),
        Timing::new(3, 6, 12),
        Timing::new(2, 8, 20),
    ];
    let steps = steps_at(&duties, 120, 8);
    let lines = Slope.sum_at(&duties, 120, 8).unwrap_or(0);
    let looks = verdict(steps <= 8 * 120);
    let says = verdict(Slope.passes(&duties, 120));
    println!(rt; "slope at 8: without the rates {steps} of 960 {looks}, with them {lines} {says}")
}

// Three times 1/3/3, and 1/999999/999999.
fn print_density(rt: &HostRuntime) -> io::Result<()> {
    let short = Timing::new(1, 3, 3);
    let duties = [short, short, short, Timing::new(1, 999_999, 999_999)];
    let down = densities_down(&duties);
    let demand = Exact.demand_at(&duties, 999_999, 999_999).unwrap_or(0);
    let looks = verdict(down <= WHOLE);
    let says = verdict(Density.passes(&duties, 999_999));
    print!(rt; "density: rounded down {down} of {WHOLE} {looks}, rounded up it {says}; ")?;
    println!(rt; "the demand up to 999999 is {demand}")
}

// Prints both, the weaker verdict before the gauge's.
pub fn print_figures(rt: &HostRuntime) -> io::Result<()> {
    print_slope(rt)?;
    print_density(rt)
}
