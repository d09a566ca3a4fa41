// The same calls to both queues.
use crate::memory::{made, of_size};
use fault::{Cause, Fault};
use queue::{ReadyQueue, RowQueue};
use std::process::Abort;
use std::test::Fail;

// Equal deadlines, a deadline put anew, places dropped from the middle, and places that there are not.
fn try_out<Q: ReadyQueue>(rt: &impl Abort, queue: &mut Q) -> Result<(), Fail> {
    let no_such_place = Fault::of_call(Cause::NoSuchPlace);
    assert_eq!(rt; queue.first(), None);
    queue.put(9, 40)?;
    queue.put(63, 70)?;
    queue.put(5, 40)?;
    assert_eq!(rt; queue.first(), Some(5));
    queue.put(5, 80)?;
    assert_eq!(rt; queue.first(), Some(9));
    assert_eq!(rt; queue.put(64, 1), Err(no_such_place));
    assert_eq!(rt; queue.drop(64), Err(no_such_place));
    queue.drop(9)?;
    queue.drop(9)?;
    assert_eq!(rt; queue.first(), Some(63));
    queue.clear();
    assert_eq!(rt; queue.first(), None);
    Ok(())
}

#[test]
fn a_row(rt: HostRuntime) -> Result<(), Fail> {
    try_out(&rt, &mut RowQueue::new())
}

#[test]
fn a_heap(rt: HostRuntime) -> Result<(), Fail> {
    try_out(&rt, &mut made(of_size(rt.alloc(), 64)?)?)
}

// A few thousand puts and drops at mixed places, three puts to a drop.
#[test]
fn both_agree(rt: HostRuntime) -> Result<(), Fail> {
    let mut row = RowQueue::new();
    let mut heap = made(of_size(rt.alloc(), 64)?)?;
    let mut mix = 1u32;
    for _ in 0..4000 {
        mix = mix.wrapping_mul(1664525).wrapping_add(1013904223);
        let place = (mix >> 26) as usize;
        let deadline = u64::from(mix >> 8) % 50;
        if (mix >> 20) % 4 == 0 {
            assert_eq!(rt; row.drop(place), heap.drop(place));
        } else {
            assert_eq!(rt; row.put(place, deadline), heap.put(place, deadline));
        }
        assert_eq!(rt; row.first(), heap.first());
    }
    Ok(())
}
