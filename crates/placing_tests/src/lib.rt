#![tactic(auto)]

// Tests of placing, in a crate of their own so that they cost placing no second proof.
#[cfg(test)]
mod refusals;
#[cfg(test)]
mod rows;
#[cfg(test)]
mod turns;
