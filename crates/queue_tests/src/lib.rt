#![tactic(auto)]

// Tests of the ready queues, in a crate of their own so that they cost the queues no second proof.
#[cfg(test)]
mod memory;
#[cfg(test)]
mod turns;
