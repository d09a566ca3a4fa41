// Ready queues: which of the places of a board has the earliest deadline.
#![tactic(auto)]

mod ready;
mod row;

pub use ready::ReadyQueue;
pub use row::{PLACES, RowQueue, check_place};
