// The calls of the heap queue.
ghost use Rattle.std.specs.Prelude.{◌≡◌, length, Some, None, Ok, slice_set};
ghost use Rattle.queue.specs.Places.{all_empty, place_fault};
ghost use Rattle.heap_queue.specs.Memory.{memory_fault};
ghost use Rattle.heap_queue.specs.Views.{held_by, room, entries};
ghost use Rattle.heap_queue.specs.Rows.{length_row};

use super::HeapQueue;
use crate::slots::{empty_place, fill_place};
use crate::timed::Timed;
use fault::{Cause, Fault};
use queue::{PLACES, ReadyQueue, check_place};

impl HeapQueue {
    // Whether the memory has an entry for every place.
    pub fn check(memory: &Vec<Timed>) -> Result<(), Fault>
        ensures { result ≡ memory_fault (length memory.now.items) }
    {
        if memory.len() < PLACES {
            return Err(Fault::of_call(Cause::MemoryShort));
        }
        Ok(())
    }

    // A queue in which no place has a deadline, in memory that the check passed. The move cannot refuse, so
    // what the check's good answer says is asked.
    pub fn new(memory: Vec<Timed>) -> HeapQueue
        requires { memory_fault (length memory.items) ≡ Ok tt }
        ensures held { held_by result ≡ all_empty }
        ensures memory { result.memory ≡ memory }
    {
        HeapQueue { memory, len: 0 }
    }

    // Gives the memory back. What its entries hold is free.
    pub fn into_memory(self) -> Vec<Timed>
        ensures memory { result ≡ self.memory }
        ensures enough { memory_fault (length result.items) ≡ Ok tt }
    {
        let HeapQueue { memory, len: _ } = self;
        memory
    }
}

// Its clauses are the trait's, and that the memory keeps its length.
impl ReadyQueue for HeapQueue {
    ghost held = { held_by };

    ghost wide = { λ q. length_row (entries q) };

    fn put(&mut self, place: usize, deadline: u64) -> Result<(), Fault>
        ensures answer { result ≡ place_fault place }
        ensures after { held_by self.new ≡ slice_set (held_by self.old) place (Some deadline) }
        ensures room { room self.new ≡ room self.old }
    {
        check_place(place)?;
        let n = self.len;
        self.len = fill_place(self.memory.as_mut_slice(), n, Timed { deadline, place });
        Ok(())
    }

    fn drop(&mut self, place: usize) -> Result<(), Fault>
        ensures answer { result ≡ place_fault place }
        ensures after { held_by self.new ≡ slice_set (held_by self.old) place None }
        ensures room { room self.new ≡ room self.old }
    {
        check_place(place)?;
        let n = self.len;
        self.len = empty_place(self.memory.as_mut_slice(), n, place);
        Ok(())
    }

    fn clear(&mut self)
        ensures after { held_by self.new ≡ all_empty }
        ensures room { room self.new ≡ room self.old }
    {
        self.len = 0;
    }

    fn first(&self) -> Option<usize> {
        // By index: of a `map` over the first entry, an edit that tells the same place is refused too, so no refusal says anything.
        if self.len == 0 {
            return None;
        }
        Some(self.memory[0].place)
    }
}
