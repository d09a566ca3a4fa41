// How many cases there were, and how many of them came out otherwise than expected.
use std::fmt;

#[derive(Clone, Copy, Default)]
pub struct Tally {
    cases: u64,
    differing: u64,
}

impl Tally {
    // Counts a case.
    pub fn count(&mut self, as_expected: bool) {
        self.cases = self.cases.saturating_add(1);
        if !as_expected {
            self.differing = self.differing.saturating_add(1);
        }
    }
}

impl fmt::Display for Tally {
    fn fmt<W: fmt::Write>(&self, f: &mut fmt::Formatter<W>) -> fmt::Result {
        let Tally { cases, differing } = *self;
        if differing == 0 {
            write!(f, "{cases} cases, all as expected")
        } else {
            write!(f, "{cases} cases, {differing} differ")
        }
    }
}
