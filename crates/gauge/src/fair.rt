// Which lists a gauge judges at all.
ghost use Rattle.std.specs.Prelude.{◌≡◌};
ghost use Rattle.gauge.specs.Each.{each};
ghost use Rattle.gauge.specs.Fair.{fair_timing, in_limits, fair};
ghost use Rattle.gauge.specs.Judged.{judged, seen};

use crate::fair_list::FairList;
use duty::{Header, LONGEST, Timing};

// The most duties of a list.
pub(crate) const MOST: usize = Header::MOST_RECORDS;

fn is_fair_timing(duty: &Timing, cycle: u32) -> bool
    ensures { result ≡ fair_timing cycle duty.now }
{
    duty.is_timely() && cycle % duty.spacing == 0
}

fn is_in_limits(count: usize, cycle: u32) -> bool
    ensures { result ≡ in_limits count cycle }
{
    count <= MOST && 1 <= cycle && cycle <= LONGEST
}

fn all_fair(duties: &[Timing], cycle: u32) -> bool
    ensures { result ≡ each (fair_timing cycle) duties.now }
{
    duties.iter().all(|duty| is_fair_timing(duty, cycle))
}

// Whether the list is fair for the cycle: at most 64 duties, a cycle from 1 to 1,000,000, and each
// a duty's timing whose spacing divides the cycle.
pub fn is_fair(duties: &[Timing], cycle: u32) -> bool
    ensures { result ≡ fair duties.now cycle }
{
    is_in_limits(duties.len(), cycle) && all_fair(duties, cycle)
}

impl<'a> FairList<'a> {
    // The list with its cycle, or none where it is not fair.
    pub(crate) fn of(duties: &'a [Timing], cycle: u32) -> Option<FairList<'a>>
        ensures { seen result ≡ judged duties.now cycle }
    {
        if !is_fair(duties, cycle) {
            return None;
        }
        Some(FairList { duties, cycle })
    }
}
