// The calls of the heap. What rests on heap order has it as a premise; `new` and `clear` give it, and the other calls keep it.
ghost use Rattle.std.specs.Prelude.{◌≡◌, ◌+◌, ◌≤◌, min, [], length, take, IfSome};
ghost use Rattle.std.specs.List.{slice_get};
ghost use Rattle.heap.specs.Order.{Heaped, Least};
ghost use Rattle.heap.specs.Held.{memory, held, room};
ghost use Rattle.heap.specs.Calls.{Pushed, Removed, Moved, Kept};
ghost use Rattle.heap.specs.Leaving.{Leaves, InOrder};
ghost use Rattle.heap.specs.Sorted.{SortedLaws};

use super::Heap;
use crate::entry::Entry;
use crate::sift::{move_out, sift_up};

impl<'a, T: Entry> Heap<'a, T> {
    // A heap that holds nothing.
    pub fn new(slots: &'a mut [T]) -> Self
        ensures held { held result ≡ [] }
        ensures heaped { Heaped T.upto (held result) }
        ensures slots { result.slots ≡ slots.entry }
    {
        Heap { slots, len: 0 }
    }

    // A heap again, over memory whose first `len` slots hold one; all of them, where there are fewer.
    pub fn resume(slots: &'a mut [T], len: usize) -> Self
        ensures held { held result ≡ take len slots.old }
        ensures count { length (held result) ≡ min len (length slots.old) }
        ensures slots { result.slots ≡ slots.entry }
    {
        let len = len.min(slots.len());
        Heap { slots, len }
    }

    // How many entries there is room for.
    pub fn capacity(&self) -> usize
        ensures { result ≡ room self.now }
    {
        self.slots.len()
    }

    // How many entries it holds, in the first slots.
    pub fn len(&self) -> usize
        ensures count { result ≡ length (held self.now) }
        ensures within { result ≤ room self.now }
        ensures first { take result (memory self.now) ≡ held self.now }
    {
        self.entries().len()
    }

    // The entries that it holds, as they stand in the slots.
    pub fn entries(&self) -> &[T]
        ensures { result.now ≡ held self.now }
    {
        &self.slots[..self.len]
    }

    // Forgets every entry.
    pub fn clear(&mut self)
        ensures held { held self.new ≡ [] }
        ensures heaped { Heaped T.upto (held self.new) }
        ensures slots { self.new.slots ≡ self.old.slots }
    {
        self.len = 0;
    }

    // The entry that `pop` would take out.
    pub fn peek(&self) -> Option<T>
        ensures answer { result ≡ slice_get (held self.now) 0 }
        ensures least { Heaped T.upto (held self.now) → IfSome result (λ x. Least T.upto x (held self.now)) }
    {
        self.entries().first().copied()
    }

    // Takes in one entry more; hands it back, and nothing changed, where there is no room.
    pub fn push(&mut self, x: T) -> Result<(), T>
        ensures pushed { Pushed x self.old result self.new }
        ensures kept { Kept (length (held self.old) + 1) self.old self.new }
    {
        let n = self.len;
        if n == self.capacity() {
            return Err(x);
        }
        self.slots[n] = x;
        sift_up(&mut self.slots[..n + 1], n);
        self.len = n + 1;
        Ok(())
    }

    // Takes out the entry at i, as they stand in the slots; None, and nothing changed, where there is none.
    pub fn remove(&mut self, i: usize) -> Option<T>
        ensures removed { Removed i self.old result self.new }
        ensures kept { Kept (length (held self.old)) self.old self.new }
    {
        let x = self.entries().get(i).copied()?;
        let n = self.len;
        move_out(&mut self.slots[..n], i);
        self.len = n - 1;
        Some(x)
    }

    // Takes out an entry that may leave before all others.
    pub fn pop(&mut self) -> Option<T>
        ensures removed { Removed 0 self.old result self.new }
        ensures leaves { Heaped T.upto (held self.old) → Leaves T.key T.upto (held self.old) result (held self.new) }
        ensures kept { Kept (length (held self.old)) self.old self.new }
    {
        self.remove(0)
    }

    // Takes out entries one after another, into `out` from its start on, until none is left or `out` is full; answers how many.
    pub fn pop_into(&mut self, out: &mut [T]) -> usize
        ensures count { result ≡ min (length (held self.old)) (length out.old) }
        ensures moved { Moved self.old out.old result self.new out.new }
        ensures in_order { Heaped T.upto (held self.old) → InOrder T.key T.upto (held self.old) (take result out.new) (held self.new) }
        ensures sorted { SortedLaws T.key T.upto }
        ensures kept { Kept (length (held self.old)) self.old self.new }
    {
        for (n, slot) in out.iter_mut().enumerate() {
            let Some(x) = self.pop() else {
                return n;
            };
            *slot = x;
        }
        out.len()
    }
}
