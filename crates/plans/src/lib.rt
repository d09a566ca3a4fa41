// Plans: open, and then closed.
#![tactic(auto)]

mod checks;
mod closed;
mod open;
#[cfg(test)]
mod tests;

pub use closed::ClosedPlan;
pub use open::OpenPlan;
