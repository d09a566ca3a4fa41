// Duties, the records they are made from, and the header of a table.
#![tactic(auto)]

mod duties;
mod headers;
mod letters;
mod names;
mod records;
mod timings;

pub use duties::Duty;
pub use headers::Header;
pub use letters::{Letter, NoLetter};
pub use names::{Name, good_prefix};
pub use records::{Record, first_misfit};
pub use timings::{LONGEST, Timing};
