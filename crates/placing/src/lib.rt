// Placing: each duty gets a board by first-fit, in the order of deadlines, under any gauge.
#![tactic(auto)]

mod first_fit;
mod lined;
mod places;

pub use lined::Lined;
pub use places::place;
