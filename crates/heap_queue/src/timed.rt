// What the queue keeps in its memory.
ghost use Rattle.heap.specs.Pairs.{pair_total, pair_chain, pair_level};
ghost use Rattle.heap_queue.specs.Order.{pair_of, sooner, timed_key};

use heap::Entry;

// A deadline with its place.
#[derive(Clone, Copy)]
pub struct Timed {
    pub deadline: u64,
    pub place: usize,
}

impl Timed {
    // An entry that holds nothing yet.
    pub const UNUSED: Timed = Timed {
        deadline: 0,
        place: 0,
    };
}

// The smaller deadline leaves first, and of equal ones the lower place.
impl Entry for Timed {
    ghost key = { timed_key };

    ghost upto = { sooner };

    ghost total = { λ x y. pair_total (pair_of x) (pair_of y) };

    ghost chain = { λ x y z. pair_chain (pair_of x) (pair_of y) (pair_of z) };

    ghost level = { λ x y. pair_level (pair_of x) (pair_of y) };

    fn precedes(&self, other: &Timed) -> bool {
        // As a comparison of two pairs this makes puts and drops a tenth slower, since both halves are always compared.
        self.deadline < other.deadline
            || (self.deadline == other.deadline && self.place <= other.place)
    }
}
