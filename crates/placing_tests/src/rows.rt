// Rows to place: all with spacing 100, under the density gauge at cycle 100. A duty takes the share
// cost ÷ deadline of its board, and the shares on a board are together at most one.
use duty::{Header, Letter, Record, Timing};
use fault::{Cause, Fault};
use gauge::Density;
use placing::{Lined, place};

pub fn row(cost: u32, deadline: u32, board: u8) -> Record {
    Record::new(*b"STOP-8  ", Timing::new(cost, deadline, 100), board)
}

// Scratch entries that placing did not write: it has no such index.
pub fn unused() -> Lined {
    Lined {
        record: row(1, 1, 1),
        index: 99,
    }
}

// What placing answers for so many boards and duties.
pub fn attempt(
    boards: u8,
    duties: u8,
    records: &mut [Record],
    scratch: &mut [Lined],
) -> Option<Result<(), Fault>> {
    let header = Header::new(Letter::Density, boards, duties, 100)?;
    Some(place(&Density, &header, records, scratch))
}

// One line here, as in other crates' tests, is less than a crate to share it.
pub fn refused(cause: Cause, line: usize, column: usize) -> Option<Result<(), Fault>> {
    Some(Err(Fault::of_call(cause).at(line, column)))
}
