// The one interface of ready queues.
ghost use Rattle.std.specs.Prelude.{◌≡◌, ℕ, List, length, Some, None, Option, slice_set};
ghost use Rattle.queue.specs.Places.{places, all_empty, place_fault};
ghost use Rattle.queue.specs.First.{earliest, Foremost};

use fault::Fault;

// A queue of deadlines by place. A place has nothing or a deadline, and places go from 0 to 63; a
// place above that is refused, and nothing changes.
pub trait ReadyQueue {
    // Its meaning: what each place has.
    ghost held: { Self → List (Option ℕ) };

    // Gives the place a deadline, instead of what it had.
    fn put(&mut self, place: usize, deadline: u64) -> Result<(), Fault>
        ensures answer { result ≡ place_fault place }
        ensures after { held self.new ≡ slice_set (held self.old) place (Some deadline) };

    // Empties the place.
    fn drop(&mut self, place: usize) -> Result<(), Fault>
        ensures answer { result ≡ place_fault place }
        ensures after { held self.new ≡ slice_set (held self.old) place None };

    // Empties every place.
    fn clear(&mut self)
        ensures { held self.new ≡ all_empty };

    // The place with the smallest deadline, the lower one where equal, or none.
    fn first(&self) -> Option<usize>
        ensures answer { result ≡ earliest (held self.now) }
        ensures relation { Foremost (held self.now) result };

    ghost wide: { (q : Self) → length (held q) ≡ places };
}
