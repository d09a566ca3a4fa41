// The calls of a running board, and what they answer.
ghost use Rattle.std.specs.Prelude.{◌≡◌};
ghost use Rattle.model.specs.Unanswered.{unanswered};

use fault::Fault;

// Places count from 0.
#[derive(Clone, Copy, PartialEq, Eq, Debug)]
pub enum Call {
    // A job of the place arrives.
    Arrive(usize),
    // The clock goes on by one, and the first job gets one unit of work.
    Tick,
    // The job of the place is done early.
    Finish(usize),
    // Ends all jobs and forgets all last arrivals.
    GeneralCancel,
}

#[derive(Clone, Copy, PartialEq, Eq, Debug)]
pub enum Answer {
    Refused(Fault),
    // Of an arrival: when the job is due, and how many ticks it will get.
    Granted { deadline: u64, units: u32 },
    // Of a tick: the place that got it, or none.
    Ran(Option<usize>),
    // Of a finish: the units that the job still had.
    Finished(u32),
    // Of a General Cancel: how many jobs it ended.
    Cancelled(usize),
}

// A call, and after the run its answer.
#[derive(Clone, Copy, PartialEq, Eq, Debug)]
pub struct Event {
    pub call: Call,
    pub answer: Answer,
}

impl Event {
    // A call that is still to be made; its answer says nothing yet. An `Option` would say so too, but all that counts
    // over events would have to pass over it.
    pub fn of(call: Call) -> Event
        ensures { result ≡ unanswered call }
    {
        Event {
            call,
            answer: Answer::Ran(None),
        }
    }
}
