// Where the fields of a line stand. Columns count from 1.

use duty::{Header, LONGEST, Record};

// A number field: its first and last column, and the range of its numbers.
#[derive(Clone, Copy)]
pub struct Field {
    pub first: usize,
    pub last: usize,
    pub least: u32,
    pub most: u32,
}

// A header: the text's word in columns 1 to 5, the gauge's letter, and three numbers.
pub const LETTER_COLUMN: usize = 6;

pub const BOARDS: Field = Field {
    first: 7,
    last: 9,
    least: 1,
    most: Record::MOST_BOARDS as u32,
};

pub const DUTIES: Field = Field {
    first: 10,
    last: 12,
    least: 0,
    most: Header::MOST_DUTIES as u32,
};

pub const CYCLE: Field = Field {
    first: 13,
    last: 20,
    least: 1,
    most: LONGEST,
};

pub const HEADER_WIDTH: usize = 20;

// A duty's line: the name in columns 1 to 8, three numbers, and in a plan the board.
pub const COST: Field = Field {
    first: 9,
    last: 16,
    least: 1,
    most: LONGEST,
};

pub const DEADLINE: Field = Field {
    first: 17,
    last: 24,
    least: 1,
    most: LONGEST,
};

pub const SPACING: Field = Field {
    first: 25,
    last: 32,
    least: 1,
    most: LONGEST,
};

pub const BOARD: Field = Field {
    first: 33,
    last: 35,
    least: 0,
    most: Record::MOST_BOARDS as u32,
};
