// The memory of a heap queue: refused where it is short, and given back.
use fault::{Cause, Fault};
use heap_queue::{HeapQueue, Timed};
use queue::ReadyQueue;
use std::alloc::Global;
use std::test::Fail;

pub fn made(memory: Vec<Timed>) -> Result<HeapQueue, Fail> {
    HeapQueue::check(&memory)?;
    Ok(HeapQueue::new(memory))
}

pub fn of_size(heap: Global, size: usize) -> Result<Vec<Timed>, Fail> {
    Ok(vec![in heap; Timed::UNUSED; size]?)
}

#[test]
fn short_by_one(rt: HostRuntime) -> Result<(), Fail> {
    let memory = of_size(rt.alloc(), 63)?;
    let fault = Fault::of_call(Cause::MemoryShort);
    assert_eq!(rt; HeapQueue::check(&memory), Err(fault));
    assert_eq!(rt; fault.number(), 10);
    Ok(())
}

#[test]
fn given_back(rt: HostRuntime) -> Result<(), Fail> {
    let mut queue = made(of_size(rt.alloc(), 65)?)?;
    queue.put(63, 7)?;
    let memory = queue.into_memory();
    assert_eq!(rt; memory.len(), 65);
    assert_eq!(rt; made(memory)?.first(), None);
    Ok(())
}
