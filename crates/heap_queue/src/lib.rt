// A ready queue that is a heap, in memory that is handed in.
#![tactic(auto)]

mod heap_queue;
mod slots;
mod timed;

pub use heap_queue::HeapQueue;
pub use timed::Timed;
