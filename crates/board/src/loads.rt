// Loading a board from a closed plan.
ghost use Rattle.std.specs.Prelude.{◌≡◌, ℕ, ◌<◌, true, List, [], length, take, Err, slice_index_or};
ghost use Rattle.fault.specs.declared.Fault.{Fault};
ghost use Rattle.duty.specs.Records.{duty_record};
ghost use Rattle.boards.specs.Lists.{on_board, no_record};
ghost use Rattle.queue.specs.Places.{places as width};
ghost use Rattle.model.specs.declared.calls.Call.{Call};
ghost use Rattle.model.specs.Boards.{loaded};
ghost use Rattle.model.specs.Promises.{Promises};
ghost use Rattle.model.specs.Steps.{run as run_of};
ghost use Rattle.board_state.specs.BoardOf.{board_of};
ghost use Rattle.board.specs.Loads.{list_of, load_fault};

use crate::bare::BareBoard;
use crate::running::RunningBoard;
use board_state::State;
use duty::Record;
use fault::{Cause, Fault};
use gauge::Gauge;
use plans::ClosedPlan;
use queue::ReadyQueue;

// The state of a board with the duties that the records have on it, in the order of their lines; past 64 they are left out.
fn gather(records: &[Record], board: u8) -> State
    requires { (k : ℕ) → k < length records.now → duty_record (slice_index_or records.now k no_record) ≡ true }
    ensures { board_of result ≡ loaded (take width (on_board board records.now)) }
{
    let mut state = State::new(&[]);
    for record in records {
        if record.board == board {
            if let Some(duty) = record.duty() {
                state.seat(duty);
            }
        }
    }
    state
}

// The state that a board of this number starts from.
fn start<G: Gauge>(plan: &ClosedPlan<G>, number: u8) -> State
    ensures { board_of result ≡ loaded (list_of plan.now number) }
{
    gather(&plan.records()[..plan.header().duties() as usize], number)
}

// Whether the plan has a board of this number.
pub fn check_load<G: Gauge>(plan: &ClosedPlan<G>, number: u8) -> Result<(), Fault>
    ensures { result ≡ load_fault number plan.now.header.boards }
{
    if !(1..=plan.header().boards()).contains(&number) {
        return Err(Fault::of_call(Cause::UnknownBoard));
    }
    Ok(())
}

impl<Q: ReadyQueue> BareBoard<Q> {
    // Loads the board with the duties that the plan has on the board of this number: at the places from 0 on, in
    // the order of their lines, nothing arrived, clock 0, the queue empty. A number that the check refuses has no
    // duties. Every list of calls keeps the promises.
    pub fn load<G: Gauge>(self, plan: &ClosedPlan<G>, number: u8) -> RunningBoard<Q>
        ensures start { board_of result.state ≡ loaded (list_of plan.now number) }
        ensures unknown { (f : Fault) → load_fault number plan.now.header.boards ≡ Err f → list_of plan.now number ≡ [] }
        ensures promises { (calls : List Call) → Promises (list_of plan.now number) (run_of (board_of result.state) calls) }
    {
        let mut queue = self.queue;
        queue.clear();
        let state = start(plan, number);
        RunningBoard { state, queue }
    }
}
