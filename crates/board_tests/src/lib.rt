#![tactic(auto)]

// Tests of whole runs: what is refused, and what a run leaves.
#[cfg(test)]
mod tests;
