// A binary heap. Heap order does not stand in its type, since `resume` takes memory as it finds it.
ghost use Rattle.std.specs.Prelude.{◌≤◌, length};

use crate::entry::Entry;

mod calls;

// The first `len` slots are held. The slots are lent, and a heap allocates nothing, so the count stands beside them.
#[derive(Drop)]
pub struct Heap<'a, T: Entry> {
    slots: &'a mut [T],
    len: usize,
    ghost within: { len ≤ length slots.now },
}
