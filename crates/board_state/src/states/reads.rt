// What a state is read for.
ghost use Rattle.std.specs.Prelude.{◌≡◌, true, IfSome};
ghost use Rattle.std.specs.List.{slice_get};
ghost use Rattle.std.specs.Option.{option_map};
ghost use Rattle.model.specs.Queues.{due_at};
ghost use Rattle.board_state.specs.BoardOf.{board_of};
ghost use Rattle.board_state.specs.Past.{past};
ghost use Rattle.board_state.specs.Views.{seen};

use super::State;
use crate::places::Place;

impl State {
    // The place, if there is one of this number. That its last arrival lies behind the clock is promised to others too.
    pub fn place(&self, p: usize) -> Option<Place>
        ensures place { option_map seen result ≡ slice_get (board_of self.now).places p }
        ensures arrived { IfSome result (λ x. past self.now.clock.ticks x ≡ true) }
    {
        if p >= self.count {
            return None;
        }
        Some(self.places[p])
    }

    // The deadline of the job that waits at the place.
    pub fn due(&self, p: usize) -> Option<u64>
        ensures { result ≡ due_at (slice_get (board_of self.now).places p) }
    {
        self.place(p)?.job.map(|job| job.deadline)
    }
}
