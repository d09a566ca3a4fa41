// The exact gauge (processor demand criterion).
ghost use Rattle.std.specs.Prelude.{◌≡◌, ◌≤◌};
ghost use Rattle.duty.specs.Demand.{demand, demands};
ghost use Rattle.gauge.specs.Each.{each_to};
ghost use Rattle.gauge.specs.Exact.{met_at, exact_passed, CycleDecides, ExactDecides};
ghost use Rattle.gauge.specs.Shortage.{RefusedListsLeaveAJobShort};
ghost use Rattle.gauge.specs.Shown.{shown};
ghost use Rattle.gauge.specs.Cycles.{exact_decides};

use crate::fair_list::FairList;
use crate::gauges::Gauge;
use duty::{LONGEST, Timing};

// Passes where the demand up to t is at most t, for each t from 1 to the cycle.
#[derive(Clone, Copy)]
pub struct Exact;

fn demand_of(duty: &Timing, t: u32) -> u64
    requires { 1 ≤ duty.now.spacing }
    ensures { result ≡ demand duty.now t }
{
    if t < duty.deadline {
        return 0;
    }
    duty.cost as u64 * (1 + ((t - duty.deadline) / duty.spacing) as u64)
}

impl FairList<'_> {
    // The demand up to t.
    fn demand_upto(&self, t: u32) -> u64
        ensures { result ≡ demands self.now.duties.now t }
    {
        // A chain of `map` and `sum` was slower.
        let mut sum = 0;
        for duty in self.duties {
            sum += demand_of(duty, t);
        }
        sum
    }

    // Whether the demand up to t is at most t, for each t from 1 to the cycle. It goes down from the
    // cycle: where the demand up to t is h, it is at most h from h to t, so h - 1 is next.
    fn scan(&self) -> bool
        ensures { result ≡ each_to (met_at self.now.duties.now) self.now.cycle }
    {
        let mut t = self.cycle;
        loop {
            let h = self.demand_upto(t);
            if h > t as u64 {
                return false;
            }
            if h == 0 {
                return true;
            }
            t = h as u32 - 1;
        }
    }
}

impl Exact {
    // What the gauge holds against t, for a fair list and t up to 1,000,000.
    pub fn demand_at(&self, duties: &[Timing], cycle: u32, t: u32) -> Option<u64>
        ensures { result ≡ shown duties.now cycle t (demands duties.now t) }
    {
        match FairList::of(duties, cycle) {
            Some(list) if t <= LONGEST => Some(list.demand_upto(t)),
            _ => None,
        }
    }
}

impl Gauge for Exact {
    ghost passed = { λ _. exact_passed };

    ghost bounded = { λ g. exact_decides.only };

    fn passes(&self, duties: &[Timing], cycle: u32) -> bool
        ensures answer { result ≡ exact_passed duties.now cycle }
        ensures cycles { CycleDecides }
        ensures decides { ExactDecides }
        ensures shortage { RefusedListsLeaveAJobShort }
    {
        FairList::of(duties, cycle).is_some_and(|list| list.scan())
    }
}
