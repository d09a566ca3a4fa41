// Entries that are plain numbers.
ghost use Rattle.std.specs.Prelude.{[], ◌∷◌, nat_le};
ghost use Rattle.std.proofs.Common.{rules};

use super::*;

impl Entry for u32 {
    ghost key = { λ x. x ∷ [] };

    ghost upto = { nat_le };

    ghost total = { Prim.search rules };

    ghost chain = { Prim.search rules };

    ghost level = { Prim.search rules };

    fn precedes(&self, other: &u32) -> bool {
        self <= other
    }
}

#[test]
fn a_full_heap_refuses(rt: HostRuntime) {
    let mut slots = [0u32; 2];
    let mut heap = Heap::new(&mut slots);
    assert!(rt; heap.push(5).is_ok() && heap.push(3).is_ok());
    assert_eq!(rt; heap.push(1), Err(1));
    assert_eq!(rt; heap.len(), heap.capacity());
    assert_eq!(rt; heap.peek(), Some(3));
}

#[test]
fn entries_leave_in_ascending_order(rt: HostRuntime) {
    let mut slots = [0u32; 8];
    let mut heap = Heap::new(&mut slots);
    for x in [4u32, 2, 7, 2, 9, 1] {
        assert!(rt; heap.push(x).is_ok());
    }
    let mut out = [0u32; 5];
    assert_eq!(rt; heap.pop_into(&mut out), 5);
    assert_eq!(rt; out, [1, 2, 2, 4, 7]);
    assert_eq!(rt; heap.pop(), Some(9));
    assert_eq!(rt; heap.pop(), None);
}

#[test]
fn an_entry_is_removed_from_the_middle(rt: HostRuntime) {
    let mut slots = [1u32, 9, 2, 10, 11, 3, 4];
    let mut heap = Heap::resume(&mut slots, 7);
    assert_eq!(rt; heap.remove(7), None);
    assert_eq!(rt; heap.remove(3), Some(10));
    assert_eq!(rt; heap.entries(), [1, 4, 2, 9, 11, 3].as_slice());
    assert_eq!(rt; heap.len(), 6);
}

#[test]
fn a_heap_is_resumed(rt: HostRuntime) {
    let mut slots = [0u32; 3];
    let mut heap = Heap::new(&mut slots);
    assert!(rt; heap.push(6).is_ok() && heap.push(2).is_ok());
    let held = heap.len();
    let mut again = Heap::resume(&mut slots, held);
    assert!(rt; again.push(4).is_ok());
    assert_eq!(rt; again.pop(), Some(2));
    again.clear();
    assert_eq!(rt; again.pop(), None);
    assert_eq!(rt; Heap::resume(&mut slots, 9).len(), 3);
}
