// The lines above the demand of a list's duties.
ghost use Rattle.std.specs.Prelude.{◌≡◌, map};
ghost use Rattle.gauge.specs.Lines.{line};

use crate::fair_list::FairList;

// The line above a duty's demand, times the cycle: `step` at the deadline, and `rate` more a tick.
#[derive(Clone, Copy)]
pub(crate) struct Line {
    pub(crate) deadline: u64,
    pub(crate) step: u64,
    pub(crate) rate: u64,
}

// A fair list with its lines: always one for each duty, in the order of the list.
#[derive(Clone, Copy)]
pub(crate) struct Drawing<'a, 'm> {
    pub(crate) list: FairList<'a>,
    pub(crate) lines: &'m [Line],
    ghost drawn: { lines.now ≡ map (line list.cycle) list.duties.now },
}
