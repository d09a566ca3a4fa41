// The clock and the places of a running board.
ghost use Rattle.std.specs.Prelude.{◌≡◌, ◌≤◌, true, length, take};
ghost use Rattle.gauge.specs.Each.{each};
ghost use Rattle.queue.specs.Places.{places as width};
ghost use Rattle.board_state.specs.Past.{past};

use crate::clocks::Clock;
use crate::places::Place;
use queue::PLACES;

mod calls;
mod reads;
mod starts;
#[cfg(test)]
mod tests;

// The first `count` places are the board's. Always: no last arrival lies ahead of the clock. An array and a count
// stand where a vector of fixed capacity might, since a state is `Copy` and `ArrayVec` is not.
#[derive(Clone, Copy)]
pub struct State {
    clock: Clock,
    count: usize,
    places: [Place; PLACES],
    ghost wide: { length places ≡ width },
    ghost few: { count ≤ width },
    ghost arrived: { each (past clock.ticks) (take count places) ≡ true },
}
