// A duty that keeps its limits.
ghost use Rattle.std.specs.Prelude.{◌≤◌};
ghost use Rattle.duty.specs.Limits.{longest};

use super::timings::Timing;

mod calls;

// A sporadic task: each arrival brings a job of `cost` ticks, due `deadline` ticks later, and two
// arrivals are at least `spacing` ticks apart. Always 1 ≤ cost ≤ deadline ≤ spacing ≤ 1,000,000.
#[derive(Clone, Copy)]
pub struct Duty {
    timing: Timing,
    ghost positive: { 1 ≤ timing.cost },
    ghost feasible: { timing.cost ≤ timing.deadline },
    ghost constrained: { timing.deadline ≤ timing.spacing },
    ghost bounded: { timing.spacing ≤ longest },
}
