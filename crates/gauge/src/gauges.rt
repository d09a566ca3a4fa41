// The one interface of gauges.
ghost use Rattle.std.specs.Prelude.{◌≡◌, ℕ, ◌≤◌, Bool, true, List};
ghost use Rattle.duty.specs.Demand.{demands};
ghost use Rattle.duty.specs.declared.timings.Timing.{Timing};

use duty::Timing;

// A schedulability test: yes or no to a list of timings and a cycle. The demand of a list that
// passes never exceeds the time.
pub trait Gauge {
    // Its meaning: which lists pass at which cycle.
    ghost passed: { Self → List Timing → ℕ → Bool };

    fn passes(&self, duties: &[Timing], cycle: u32) -> bool
        ensures { result ≡ passed self.now duties.now cycle };

    ghost bounded: { (g : Self) (ds : List Timing) (cycle : ℕ) → passed g ds cycle ≡ true → (t : ℕ) → demands ds t ≤ t };
}
