// A plain row in memory, unchecked.
ghost use Rattle.std.specs.Prelude.{◌≡◌, ◌<◌, length, IfSome};
ghost use Rattle.duty.specs.Records.{duty_record, in_cycle, first_misfit};

use super::names::Name;
use super::timings::Timing;

// A row of a table or plan: name, timing, and the number of its board, 0 where it has none, as in a plan's columns.
#[derive(Clone, Copy, PartialEq, Eq, Debug)]
pub struct Record {
    pub name: Name,
    pub timing: Timing,
    pub board: u8,
}

impl Record {
    pub const fn new(name: [u8; 8], timing: Timing, board: u8) -> Record
        ensures { result ≡ record { name = record { bytes = name }; timing = timing; board = board } }
    {
        Record {
            name: Name { bytes: name },
            timing,
            board,
        }
    }

    // A row that holds nothing yet: no duty record.
    pub const BLANK: Record = Record {
        name: Name { bytes: [b' '; 8] },
        timing: Timing::NONE,
        board: 0,
    };

    // The most boards of a rack.
    pub const MOST_BOARDS: u8 = 16;

    // Whether this row is a duty record: a name that a reader takes, a duty's timing, a board of a rack or none.
    pub fn is_duty(&self) -> bool
        ensures { result ≡ duty_record self.now }
    {
        self.name.is_valid() && self.timing.is_timely() && self.board <= Self::MOST_BOARDS
    }

    // Whether this row is a duty record whose spacing divides the cycle.
    pub fn is_duty_of(&self, cycle: u32) -> bool
        ensures { result ≡ in_cycle cycle self.now }
    {
        self.is_duty() && cycle % self.timing.spacing == 0
    }
}

// The first row that is no duty record of the cycle.
#[tactic(auto, unfolding(crate::specs::Firsts::first_failing))]
pub fn first_misfit(records: &[Record], cycle: u32) -> Option<usize>
    ensures answer { result ≡ first_misfit cycle records.now }
    ensures within { IfSome result (λ i. i < length records.now) }
{
    records.iter().position(|record| !record.is_duty_of(cycle))
}
