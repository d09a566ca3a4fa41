// The clock of a board.
ghost use Rattle.std.specs.Prelude.{◌≤◌};
ghost use Rattle.model.specs.Steps.{clock_limit};

mod calls;

// How many ticks have passed. Always: it has not passed its limit.
#[derive(Clone, Copy)]
pub(crate) struct Clock {
    pub(crate) ticks: u64,
    ghost limited: { ticks ≤ clock_limit },
}
