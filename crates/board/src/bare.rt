// A board that nothing is loaded on.
ghost use Rattle.std.specs.Prelude.{◌≡◌};

use queue::ReadyQueue;

// It has a ready queue, and no call but to be loaded.
#[derive(Drop)]
pub struct BareBoard<Q: ReadyQueue> {
    pub(crate) queue: Q,
}

impl<Q: ReadyQueue> BareBoard<Q> {
    pub fn new(queue: Q) -> BareBoard<Q>
        ensures { result.queue ≡ queue }
    {
        BareBoard { queue }
    }

    // Gives the queue back.
    pub fn into_queue(self) -> Q
        ensures { result ≡ self.queue }
    {
        self.queue
    }
}
