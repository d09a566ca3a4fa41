// A board that runs.
ghost use Rattle.model.specs.Queues.{InStep};
ghost use Rattle.board_state.specs.BoardOf.{board_of};

use board_state::State;
use queue::ReadyQueue;

mod calls;

// Always: the queue holds the deadlines of the waiting jobs, and no others.
#[derive(Drop)]
pub struct RunningBoard<Q: ReadyQueue> {
    pub(crate) state: State,
    pub(crate) queue: Q,
    ghost in_step: { InStep (Q.held queue) (board_of state) },
}
