// Readers of table and plan texts: a cursor that moves through the text from its start.
#![tactic(auto)]

mod cursor;
mod fields;
mod lines;
mod prefixes;
mod sheets;

pub use cursor::Reader;
pub use lines::{Due, Line, NamePart};
pub use sheets::read;
