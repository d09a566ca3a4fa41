// What placing keeps in the scratch memory.
ghost use Rattle.heap.specs.Pairs.{pair_total, pair_chain, pair_level};
ghost use Rattle.placing.specs.Order.{pair_of, sooner, lined_key};

use duty::Record;
use heap::Entry;

// A duty record with its index, which orders as its line does.
#[derive(Clone, Copy, PartialEq, Eq, Debug)]
pub struct Lined {
    pub record: Record,
    pub index: usize,
}

impl Lined {
    // An entry that holds nothing yet.
    pub const UNUSED: Lined = Lined {
        record: Record::BLANK,
        index: 0,
    };
}

// The smaller deadline leaves first, and of equal ones the lower line.
impl Entry for Lined {
    ghost key = { lined_key };

    ghost upto = { sooner };

    ghost total = { λ x y. pair_total (pair_of x) (pair_of y) };

    ghost chain = { λ x y z. pair_chain (pair_of x) (pair_of y) (pair_of z) };

    ghost level = { λ x y. pair_level (pair_of x) (pair_of y) };

    fn precedes(&self, other: &Lined) -> bool {
        (self.record.timing.deadline, self.index) <= (other.record.timing.deadline, other.index)
    }
}
