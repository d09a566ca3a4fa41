// A heap of deadlines.
ghost use Rattle.std.specs.Prelude.{◌≤◌, length, take};
ghost use Rattle.std.proofs.Props.{props};
ghost use Rattle.queue.specs.Places.{places};
ghost use Rattle.heap_queue.specs.Entries.{Sound};

use crate::timed::Timed;

mod calls;

// The first `len` entries of the memory are a heap. The memory has an entry for every place,
// and in the heap each place stands at most once, and none that there is not.
// The memory is handed in and given back at its own length, so the count of the heap stands beside it.
#[derive(Drop)]
pub struct HeapQueue {
    memory: Vec<Timed>,
    len: usize,
    ghost wide: { places ≤ length memory.items },
    ghost within: { len ≤ length memory.items },
    ghost sound: { Sound (take len memory.items) } by { Prim.hlevel props },
}
