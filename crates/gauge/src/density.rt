// The density gauge (density test).
ghost use Rattle.std.specs.Prelude.{◌≡◌, ◌≤◌};
ghost use Rattle.duty.specs.Sums.{total};
ghost use Rattle.gauge.specs.Density.{density, density_passed, DensitiesRoundUp};
ghost use Rattle.gauge.specs.Dense.{density_bounded};

use crate::fair_list::FairList;
use crate::gauges::Gauge;
use duty::Timing;

// Densities are counted in millionths.
const WHOLE: u64 = 1_000_000;

// Passes where the densities, cost ÷ deadline rounded up to millionths, are together at most one.
#[derive(Clone, Copy)]
pub struct Density;

fn density_of(duty: &Timing) -> u64
    requires { 1 ≤ duty.now.deadline }
    ensures { result ≡ density duty.now }
{
    (duty.cost as u64 * WHOLE).div_ceil(duty.deadline as u64)
}

impl FairList<'_> {
    fn density_sum(&self) -> u64
        ensures { result ≡ total density self.now.duties.now }
    {
        // A chain of `map` and `sum` was slower.
        let mut sum = 0;
        for duty in self.duties {
            sum += density_of(duty);
        }
        sum
    }
}

impl Gauge for Density {
    ghost passed = { λ _. density_passed };

    ghost bounded = { λ g. density_bounded };

    #[tactic(auto, using(crate::specs::Dense::densities_round_up))]
    fn passes(&self, duties: &[Timing], cycle: u32) -> bool
        ensures answer { result ≡ density_passed duties.now cycle }
        ensures rounding { DensitiesRoundUp }
    {
        FairList::of(duties, cycle).is_some_and(|list| list.density_sum() <= WHOLE)
    }
}
