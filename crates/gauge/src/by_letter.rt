// The header's letter as a gauge.
ghost use Rattle.std.specs.Prelude.{◌≡◌};
ghost use Rattle.gauge.specs.Letters.{letter_passed, CommonGround};
ghost use Rattle.gauge.specs.LettersLemmas.{letter_bounded};

use crate::density::Density;
use crate::exact::Exact;
use crate::gauges::Gauge;
use crate::slope::Slope;
use duty::{Letter, Timing};

// Passes what the gauge of that letter passes: a match, since a table asks for one of just these three by name.
impl Gauge for Letter {
    ghost passed = { letter_passed };

    ghost bounded = { letter_bounded };

    #[tactic(auto, using(crate::specs::LettersLemmas::common_ground))]
    fn passes(&self, duties: &[Timing], cycle: u32) -> bool
        ensures answer { result ≡ letter_passed self.now duties.now cycle }
        ensures shared { CommonGround }
    {
        match self {
            Letter::Density => Density.passes(duties, cycle),
            Letter::Slope => Slope.passes(duties, cycle),
            Letter::Exact => Exact.passes(duties, cycle),
        }
    }
}
