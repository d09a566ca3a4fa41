// The calls, which exist on a running board alone.
ghost use Rattle.std.specs.Prelude.{◌≡◌, IfOk, slice_set};
ghost use Rattle.std.specs.List.{slice_get};
ghost use Rattle.queue.specs.First.{Foremost};
ghost use Rattle.queue.specs.Places.{all_empty};
ghost use Rattle.model.specs.declared.calls.Answer.TheVariants.{Cancelled};
ghost use Rattle.model.specs.declared.calls.Call.TheVariants.{Arrive, Tick, Finish, GeneralCancel};
ghost use Rattle.model.specs.Answers.{arrival_answer, tick_answer, finish_answer};
ghost use Rattle.model.specs.Boards.{dues};
ghost use Rattle.model.specs.Queues.{due_at};
ghost use Rattle.board_state.specs.BoardOf.{board_of};
ghost use Rattle.board.specs.Calls.{Called};

use super::RunningBoard;
use crate::bare::BareBoard;
use board_state::State;
use fault::Fault;
use model::{Answer, Call};
use queue::ReadyQueue;

// Has the queue hold what waits at a place. One that it refuses is none of the board's, and changes nothing.
// Inlined, since a call of its own makes a tick on the heap queue a quarter to a third slower.
#[inline(always)]
fn settle<Q: ReadyQueue>(queue: &mut Q, state: &State, place: usize)
    ensures { Q.held queue.new ≡ slice_set (Q.held queue.old) place (due_at (slice_get (board_of state.now).places place)) }
{
    let _ = match state.due(place) {
        Some(deadline) => queue.put(place, deadline),
        None => queue.drop(place),
    };
}

impl<Q: ReadyQueue> RunningBoard<Q> {
    // A job of the place arrives: answers the clock reading by which it is due, and the ticks that it will get.
    pub fn arrive(&mut self, place: usize) -> Result<(u64, u32), Fault>
        ensures { Called (Arrive place) self.old (arrival_answer result) self.new }
    {
        let granted = self.state.arrive(place)?;
        settle(&mut self.queue, &self.state, place);
        Ok(granted)
    }

    // The clock goes on by one, and the first job gets one unit of work: answers its place, or none.
    pub fn tick(&mut self) -> Result<Option<usize>, Fault>
        ensures called { Called Tick self.old (tick_answer result) self.new }
        ensures relation { IfOk result (λ place. Foremost (dues (board_of self.old.state).places) place) }
    {
        let first = self.queue.first();
        let ran = self.state.tick(first)?;
        if let Some(place) = first {
            settle(&mut self.queue, &self.state, place);
        }
        Ok(ran)
    }

    // The job of the place is done early: answers the units that it still had. Its last arrival remains.
    pub fn finish(&mut self, place: usize) -> Result<u32, Fault>
        ensures { Called (Finish place) self.old (finish_answer result) self.new }
    {
        let units = self.state.finish(place)?;
        settle(&mut self.queue, &self.state, place);
        Ok(units)
    }

    // Ends all jobs and forgets all last arrivals: answers how many jobs ended. The clock remains.
    pub fn general_cancel(&mut self) -> usize
        ensures { Called GeneralCancel self.old (Cancelled result) self.new }
    {
        let ended = self.state.general_cancel();
        self.queue.clear();
        ended
    }

    // Makes one call: a match, since calls are the caller's data, of just these kinds.
    pub(crate) fn call(&mut self, call: Call) -> Answer
        ensures { Called call self.old result self.new }
    {
        match call {
            Call::Arrive(place) => self.arrive(place).map_or_else(
                Answer::Refused,
                |(deadline, units)| Answer::Granted { deadline, units },
            ),
            Call::Tick => self.tick().map_or_else(Answer::Refused, Answer::Ran),
            Call::Finish(place) => self
                .finish(place)
                .map_or_else(Answer::Refused, Answer::Finished),
            Call::GeneralCancel => Answer::Cancelled(self.general_cancel()),
        }
    }

    // Makes the board bare again, and clears its queue.
    pub fn unload(self) -> BareBoard<Q>
        ensures { Q.held result.queue ≡ all_empty }
    {
        let mut queue = self.queue;
        queue.clear();
        BareBoard { queue }
    }
}
