// How a duty is made and read.
ghost use Rattle.std.specs.Prelude.{◌≡◌};
ghost use Rattle.duty.specs.Timely.{timely};
ghost use Rattle.duty.specs.Records.{duty_of, timings};

use super::Duty;
use crate::records::Record;
use crate::timings::{LONGEST, Timing};

impl Timing {
    // Whether 1 ≤ cost ≤ deadline ≤ spacing ≤ 1,000,000.
    pub fn is_timely(&self) -> bool
        ensures { result ≡ timely self.now }
    {
        1 <= self.cost
            && self.cost <= self.deadline
            && self.deadline <= self.spacing
            && self.spacing <= LONGEST
    }
}

impl Duty {
    // The shortest duty: a tick of work in every tick.
    pub const SHORTEST: Duty = Duty {
        timing: Timing {
            cost: 1,
            deadline: 1,
            spacing: 1,
        },
    };

    pub fn timing(&self) -> Timing
        ensures { result ≡ self.now.timing }
    {
        self.timing
    }
}

impl Record {
    // The duty that this row holds, or none where it is no duty record.
    pub fn duty(&self) -> Option<Duty>
        ensures { timings result ≡ duty_of self.now }
    {
        if !self.is_duty() {
            return None;
        }
        Some(Duty {
            timing: self.timing,
        })
    }
}
