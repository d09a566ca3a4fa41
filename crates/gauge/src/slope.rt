// The slope gauge (linear approximation of the demand).
ghost use Rattle.std.specs.Prelude.{◌≡◌, ◌^◌, ◌<◌, ◌≤◌, length};
ghost use Rattle.gauge.specs.Lines.{line, height_at};
ghost use Rattle.gauge.specs.Shown.{shown};
ghost use Rattle.gauge.specs.Slope.{slope_sum, below_at, all_below, slope_passed, RatesBounded};
ghost use Rattle.gauge.specs.Slopes.{slope_bounded};

use crate::drawing::{Drawing, Line};
use crate::fair::MOST;
use crate::fair_list::FairList;
use crate::gauges::Gauge;
use duty::{LONGEST, Timing};

// Passes where, at each deadline t of the list, the lines above the duties' demand add up to at most t.
#[derive(Clone, Copy)]
pub struct Slope;

// Most lists have no more duties than this: clearing memory for so few lines takes less time.
const FEW: usize = 16;

impl Line {
    const NONE: Line = Line {
        deadline: 0,
        step: 0,
        rate: 0,
    };

    // The line of the duty.
    fn of(duty: &Timing, cycle: u32) -> Line
        requires { 1 ≤ duty.now.spacing }
        ensures { result ≡ line cycle duty.now }
    {
        let cost = duty.cost as u64;
        Line {
            deadline: duty.deadline as u64,
            step: cost * cycle as u64,
            rate: cost * (cycle / duty.spacing) as u64,
        }
    }

    // Its height at t.
    fn height(&self, t: u64) -> u64
        requires { height_at t self.now < 2 ^ 64 }
        ensures { result ≡ height_at t self.now }
    {
        if t < self.deadline {
            return 0;
        }
        self.step + self.rate * (t - self.deadline)
    }
}

impl Drawing<'_, '_> {
    // The heights of the lines at t, added up.
    fn sum_at(&self, t: u32) -> u64
        ensures { result ≡ slope_sum self.now.list.duties.now self.now.list.cycle t }
    {
        let t = t as u64;
        self.lines.iter().map(|above| above.height(t)).sum()
    }

    fn is_below(&self, t: u32) -> bool
        ensures { result ≡ below_at self.now.list.duties.now self.now.list.cycle t }
    {
        self.sum_at(t) <= t as u64 * self.list.cycle as u64
    }

    fn all_below(&self) -> bool
        ensures { result ≡ all_below self.now.list.duties.now self.now.list.cycle }
    {
        self.list
            .duties
            .iter()
            .all(|duty| self.is_below(duty.deadline))
    }
}

impl<'a> FairList<'a> {
    // Writes the line of each duty to its place in memory that has room for them.
    fn draw<'m>(&self, memory: &'m mut [Line]) -> Drawing<'a, 'm>
        requires { length self.now.duties.now ≤ length memory.old }
        ensures duties { result.list.duties.now ≡ self.now.duties.now }
        ensures cycle { result.list.cycle ≡ self.now.cycle }
    {
        // After `memory.iter_mut().zip(..)` no proof knows what was written.
        for (i, duty) in self.duties.iter().enumerate() {
            memory[i] = Line::of(duty, self.cycle);
        }
        Drawing {
            list: *self,
            lines: &memory[0..self.duties.len()],
        }
    }

    fn stays_below(&self) -> bool
        ensures { result ≡ all_below self.now.duties.now self.now.cycle }
    {
        if self.duties.len() <= FEW {
            self.draw(&mut [Line::NONE; FEW]).all_below()
        } else {
            self.draw(&mut [Line::NONE; MOST]).all_below()
        }
    }

    fn slope_sum(&self, t: u32) -> u64
        ensures { result ≡ slope_sum self.now.duties.now self.now.cycle t }
    {
        self.draw(&mut [Line::NONE; MOST]).sum_at(t)
    }
}

impl Slope {
    // What the gauge holds against t × cycle, for a fair list and t up to 1,000,000.
    pub fn sum_at(&self, duties: &[Timing], cycle: u32, t: u32) -> Option<u64>
        ensures { result ≡ shown duties.now cycle t (slope_sum duties.now cycle t) }
    {
        match FairList::of(duties, cycle) {
            Some(list) if t <= LONGEST => Some(list.slope_sum(t)),
            _ => None,
        }
    }
}

impl Gauge for Slope {
    ghost passed = { λ _. slope_passed };

    ghost bounded = { λ g. slope_bounded };

    #[tactic(auto, using(crate::specs::Slopes::rates_bounded))]
    fn passes(&self, duties: &[Timing], cycle: u32) -> bool
        ensures answer { result ≡ slope_passed duties.now cycle }
        ensures rates { RatesBounded }
    {
        FairList::of(duties, cycle).is_some_and(|list| list.stays_below())
    }
}
