// The state of a board just loaded.
ghost use Rattle.std.specs.Prelude.{◌≡◌, map, take};
ghost use Rattle.queue.specs.Places.{places as width};
ghost use Rattle.model.specs.Boards.{loaded};
ghost use Rattle.board_state.specs.BoardOf.{board_of, seating};
ghost use Rattle.board_state.specs.Views.{idle_place, timing_of};

use super::State;
use crate::clocks::Clock;
use crate::places::Place;
use duty::Duty;
use queue::PLACES;

// A place at which nothing has arrived.
pub(super) fn idle_place(duty: Duty) -> Place
    ensures { result ≡ idle_place duty }
{
    Place {
        duty,
        last: None,
        job: None,
    }
}

// The duties that there are places for: the first 64. Those past them cost nothing.
#[tactic(auto, using(crate::proofs::Seating::first_length, crate::proofs::Seating::first_all))]
fn first_duties(duties: &[Duty]) -> &[Duty]
    ensures { result.now ≡ take width duties.now }
{
    if duties.len() > PLACES {
        return &duties[..PLACES];
    }
    duties
}

impl State {
    // The duties at the places from 0 on, in this order, and nothing has arrived; past 64 they are left out.
    pub fn new(duties: &[Duty]) -> State
        ensures { board_of result ≡ loaded (map timing_of (take width duties.now)) }
    {
        let mut state = State {
            clock: Clock { ticks: 0 },
            count: 0,
            places: [idle_place(Duty::SHORTEST); PLACES],
        };
        for duty in first_duties(duties) {
            state.seat(*duty);
        }
        state
    }

    // Gives the next place to a duty, of which nothing has arrived; past 64 it is left out.
    pub fn seat(&mut self, duty: Duty)
        ensures { board_of self.new ≡ seating (board_of self.old) duty.timing }
    {
        if self.count < PLACES {
            self.places[self.count] = idle_place(duty);
            self.count += 1;
        }
    }
}
