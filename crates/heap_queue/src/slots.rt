// The heap in the first slots of the memory. These are functions over the slots, since a proof no longer knows what the queue's `Vec`
// holds once a `Heap` has borrowed from it.
ghost use Rattle.std.specs.Prelude.{◌≡◌, ◌<◌, ◌≤◌, length, take, Some, None, ◌==◌, slice_set};
ghost use Rattle.std.specs.List.{position};
ghost use Rattle.heap.specs.Held.{held};
ghost use Rattle.heap.specs.Calls.{Kept};
ghost use Rattle.queue.specs.Places.{places};
ghost use Rattle.heap_queue.specs.Entries.{row, Sound, Without};

use crate::timed::Timed;
use heap::Heap;

// Where the entry of the place stands, if there is one.
fn find(entries: &[Timed], place: usize) -> Option<usize>
    ensures { result ≡ position (λ e. e.place == place) entries.now }
{
    entries.iter().position(|entry| entry.place == place)
}

// Takes out the entry of the place, if there is one.
fn take_out(heap: &mut Heap<'_, Timed>, place: usize)
    requires { Sound (held heap.old) }
    ensures without { Without place (held heap.old) (held heap.new) }
    ensures kept { Kept (length (held heap.old)) heap.old heap.new }
{
    if let Some(at) = find(heap.entries(), place) {
        heap.remove(at);
    }
}

// Takes the place out of the heap in the first n slots, and answers how many are held then.
pub(crate) fn empty_place(slots: &mut [Timed], n: usize, place: usize) -> usize
    requires { Sound (take n slots.old) }
    ensures within { result ≤ length slots.new }
    ensures sound { Sound (take result slots.new) }
    ensures after { row (take result slots.new) ≡ slice_set (row (take n slots.old)) place None }
{
    let mut heap = Heap::resume(slots, n);
    take_out(&mut heap, place);
    heap.len()
}

// Puts an entry into the heap in the first n slots instead of what its place had, and answers how many are held then.
pub(crate) fn fill_place(slots: &mut [Timed], n: usize, entry: Timed) -> usize
    requires sound { Sound (take n slots.old) }
    requires room { places ≤ length slots.old }
    requires low { entry.place < places }
    ensures within { result ≤ length slots.new }
    ensures sound { Sound (take result slots.new) }
    ensures after { row (take result slots.new) ≡ slice_set (row (take n slots.old)) entry.place (Some entry.deadline) }
{
    let mut heap = Heap::resume(slots, n);
    take_out(&mut heap, entry.place);
    // The others are of other places, one of each at most, so there is room.
    let _ = heap.push(entry);
    heap.len()
}
