// The columns of table and plan texts: where each field stands, and how numbers are read and written there.
#![tactic(auto)]

mod checks;
mod fields;
mod forms;
mod numbers;

pub use checks::check_records;
pub use fields::{
    BOARD, BOARDS, COST, CYCLE, DEADLINE, DUTIES, Field, HEADER_WIDTH, LETTER_COLUMN, SPACING,
};
pub use forms::Form;
pub use numbers::{Unfit, read_number, write_number};
