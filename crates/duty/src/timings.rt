// The three numbers of a duty, unchecked.
ghost use Rattle.std.specs.Prelude.{◌≡◌};

// The most ticks that a cost, a deadline, a spacing or a cycle may have.
pub const LONGEST: u32 = 1_000_000;

// A plain row of ticks: the cost of each job, its deadline counted from its arrival, and the
// spacing, the least time between two arrivals (minimum inter-arrival separation).
#[derive(Clone, Copy, PartialEq, Eq, Debug)]
pub struct Timing {
    pub cost: u32,
    pub deadline: u32,
    pub spacing: u32,
}

impl Timing {
    pub const fn new(cost: u32, deadline: u32, spacing: u32) -> Timing
        ensures { result ≡ record { cost = cost; deadline = deadline; spacing = spacing } }
    {
        Timing {
            cost,
            deadline,
            spacing,
        }
    }

    // All zero: no duty's timing.
    pub const NONE: Timing = Timing {
        cost: 0,
        deadline: 0,
        spacing: 0,
    };
}
