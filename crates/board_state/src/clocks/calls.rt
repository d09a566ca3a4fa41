// What a clock is asked for.
ghost use Rattle.std.specs.Prelude.{◌≡◌, ◌+◌, ◌<◌, ◌≤◌, MatchOption};
ghost use Rattle.model.specs.Steps.{clock_limit};

use super::Clock;

impl Clock {
    // The last reading.
    pub(crate) const LIMIT: u64 = 1_000_000_000_000;

    // What it reads so many ticks later, were there no limit.
    pub(crate) fn after(&self, ticks: u32) -> u64
        ensures { result ≡ self.now.ticks + ticks }
    {
        self.ticks + ticks as u64
    }

    // One tick later, or none where it has reached its limit.
    pub(crate) fn next(&self) -> Option<Clock>
        ensures { MatchOption result (clock_limit ≤ self.now.ticks) (λ next. (self.now.ticks < clock_limit) × (next.ticks ≡ self.now.ticks + 1)) }
    {
        if self.ticks >= Self::LIMIT {
            return None;
        }
        Some(Clock {
            ticks: self.ticks + 1,
        })
    }
}
