// An open plan.
ghost use Rattle.std.specs.Prelude.{◌≡◌};
ghost use Rattle.duty.specs.Heads.{head};
ghost use Rattle.plans.specs.Closing.{close_fault};
ghost use Rattle.plans.specs.Laws.{Decides};

use crate::checks::check_plan;
use duty::{Header, Record};
use fault::Fault;
use gauge::Gauge;

// A header with records that may still be anything.
#[derive(Drop)]
pub struct OpenPlan<'a> {
    pub(crate) header: Header,
    pub(crate) records: &'a mut [Record],
}

impl<'a> OpenPlan<'a> {
    pub fn new(header: Header, records: &'a mut [Record]) -> OpenPlan<'a>
        ensures header { head result.header ≡ head header }
        ensures records { result.records.now ≡ records.old }
        ensures named { result.records.ghost_name ≡ records.entry.ghost_name }
    {
        OpenPlan { header, records }
    }

    // Why the plan cannot be closed under the gauge, if so: too few records, a record that is no duty of the
    // cycle, a duty on no board of the header, a board whose list does not pass. The plan stays open.
    pub fn check<G: Gauge>(&self, gauge: &G) -> Result<(), Fault>
        ensures answer { result ≡ close_fault (G.passed gauge.now) (head self.now.header) self.now.records.now }
        ensures law { Decides (G.passed gauge.now) (head self.now.header) self.now.records.now result }
    {
        check_plan(gauge, &self.header, self.records)
    }
}
