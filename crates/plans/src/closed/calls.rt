// How a plan is closed, and what a closed plan shows.
ghost use Rattle.std.specs.Prelude.{◌≡◌, Ok};
ghost use Rattle.duty.specs.Heads.{head};
ghost use Rattle.plans.specs.Closing.{close_fault};
ghost use Rattle.plans.specs.Laws.{Closable, Kept};

use super::ClosedPlan;
use crate::open::OpenPlan;
use duty::{Header, Record};
use gauge::Gauge;

impl<'a> OpenPlan<'a> {
    // Closes a plan that its check passed. The move cannot refuse, so what the check's good answer says is asked.
    pub fn close<G: Gauge>(self, gauge: G) -> ClosedPlan<'a, G>
        requires { close_fault (G.passed gauge) (head self.header) self.records.now ≡ Ok tt }
        ensures header { head result.header ≡ head self.entry.header }
        ensures records { result.records.now ≡ self.entry.records.now }
        ensures named { result.records.ghost_name ≡ self.entry.records.ghost_name }
        ensures gauge { result.gauge ≡ gauge }
        ensures closable { Closable (G.passed gauge) (head result.header) result.records.now }
    {
        let OpenPlan { header, records } = self;
        ClosedPlan {
            header,
            gauge,
            records,
        }
    }
}

impl<'a, G: Gauge> ClosedPlan<'a, G> {
    pub fn header(&self) -> Header
        ensures { head result ≡ head self.now.header }
    {
        self.header
    }

    // The records, as they were closed: no board is asked for more than it can give.
    pub fn records(&self) -> &[Record]
        ensures answer { result.now ≡ self.now.records.now }
        ensures kept { Kept self.now.header.boards self.now.header.duties result.now }
    {
        self.records
    }
}
