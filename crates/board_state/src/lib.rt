// The state of a running board, all but its queue: the clock, and the places with their duties and jobs.
#![tactic(auto)]

mod clocks;
mod places;
mod states;
mod turns;

pub use places::Place;
pub use states::State;
