// One binary heap in lent memory, generic over entries that are totally ordered.
#![tactic(auto)]

mod binary;
mod entry;
mod sift;
#[cfg(test)]
mod tests;

pub use binary::Heap;
pub use entry::Entry;
