// The calls, as far as clock and places go.
ghost use Rattle.std.specs.Prelude.{◌≡◌, true, slice_set};
ghost use Rattle.model.specs.declared.calls.Answer.TheVariants.{Cancelled};
ghost use Rattle.model.specs.declared.calls.Call.TheVariants.{Arrive, Finish, GeneralCancel};
ghost use Rattle.model.specs.Answers.{arrival_answer, tick_answer, finish_answer};
ghost use Rattle.model.specs.Steps.{after, served, ticked, step};
ghost use Rattle.board_state.specs.BoardOf.{board_of};
ghost use Rattle.board_state.specs.Past.{past};
ghost use Rattle.board_state.specs.Views.{seen};

use super::State;
use crate::clocks::Clock;
use crate::places::Place;
use crate::turns::{cancel_all, count_jobs, is_too_soon, turned};
use fault::{Cause, Fault};
use model::Call;
use queue::PLACES;

impl State {
    // The last reading of the clock.
    pub const CLOCK_LIMIT: u64 = Clock::LIMIT;

    // Turns the place p, which was found to be `place`, as an accepted call does.
    fn turn(&mut self, p: usize, place: &Place, call: Call)
        requires { past self.old.clock.ticks place.now ≡ true }
        ensures clock { self.new.clock.ticks ≡ self.old.clock.ticks }
        ensures places { (board_of self.new).places ≡ slice_set (board_of self.old).places p (after self.old.clock.ticks call (seen place.now)) }
    {
        let next = turned(place, call, self.clock);
        if p < PLACES {
            self.places[p] = next;
        }
    }

    // Refused where there is no such place, or the spacing has not passed; answers deadline and units.
    pub fn arrive(&mut self, p: usize) -> Result<(u64, u32), Fault>
        ensures answer { arrival_answer result ≡ (step (board_of self.old) (Arrive p)).answer }
        ensures board { board_of self.new ≡ (step (board_of self.old) (Arrive p)).board }
    {
        let place = self.place(p).ok_or(Fault::of_call(Cause::NoSuchPlace))?;
        if is_too_soon(&place, self.clock) {
            return Err(Fault::of_call(Cause::TooSoon));
        }
        self.turn(p, &place, Call::Arrive(p));
        let duty = place.duty.timing();
        Ok((self.clock.after(duty.deadline), duty.cost))
    }

    // Refused where there is no such place, or no job waits there; answers the units that it had.
    pub fn finish(&mut self, p: usize) -> Result<u32, Fault>
        ensures answer { finish_answer result ≡ (step (board_of self.old) (Finish p)).answer }
        ensures board { board_of self.new ≡ (step (board_of self.old) (Finish p)).board }
    {
        let place = self.place(p).ok_or(Fault::of_call(Cause::NoSuchPlace))?;
        let job = place.job.ok_or(Fault::of_call(Cause::NoJob))?;
        self.turn(p, &place, Call::Finish(p));
        Ok(job.units)
    }

    // Ends all jobs and forgets all last arrivals; answers how many jobs ended.
    pub fn general_cancel(&mut self) -> usize
        ensures answer { Cancelled result ≡ (step (board_of self.old) GeneralCancel).answer }
        ensures board { board_of self.new ≡ (step (board_of self.old) GeneralCancel).board }
    {
        let ended = count_jobs(&self.places[..self.count]);
        let clock = self.clock;
        cancel_all(&mut self.places, clock);
        ended
    }

    // Gives one unit of work to the place that was named, if it is there.
    fn serve(&mut self, first: Option<usize>)
        ensures clock { self.new.clock.ticks ≡ self.old.clock.ticks }
        ensures places { (board_of self.new).places ≡ served (board_of self.old) first }
    {
        if let Some(p) = first {
            if let Some(place) = self.place(p) {
                self.turn(p, &place, Call::Tick);
            }
        }
    }

    // A tick that goes to the place told to be first. Refused where the clock has reached its limit; answers that place.
    pub fn tick(&mut self, first: Option<usize>) -> Result<Option<usize>, Fault>
        ensures answer { tick_answer result ≡ (ticked (board_of self.old) first).answer }
        ensures board { board_of self.new ≡ (ticked (board_of self.old) first).board }
    {
        let next = self.clock.next().ok_or(Fault::of_call(Cause::ClockFull))?;
        self.serve(first);
        self.clock = next;
        Ok(first)
    }
}
