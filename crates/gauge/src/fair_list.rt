// A list that a gauge judges, with its cycle.
ghost use Rattle.std.specs.Prelude.{◌≡◌, true};
ghost use Rattle.gauge.specs.Fair.{fair};

use duty::Timing;

// Always fair: at most 64 duties, a cycle from 1 to 1,000,000, and each a duty's timing whose
// spacing divides the cycle.
#[derive(Clone, Copy)]
pub(crate) struct FairList<'a> {
    pub(crate) duties: &'a [Timing],
    pub(crate) cycle: u32,
    ghost judged: { fair duties.now cycle ≡ true },
}
