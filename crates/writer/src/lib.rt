// The texts of tables and plans, written into lent memory.
#![tactic(auto)]

mod cursor;
#[cfg(test)]
mod tests;
mod texts;

pub use texts::write;
