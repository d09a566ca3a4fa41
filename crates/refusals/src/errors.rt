// Why a line of the table cannot be run as a case.
use std::alloc::AllocError;
use std::num::ParseIntError;
use thiserror::Error;

#[derive(Debug, Drop, Error)]
#[error("no case")]
pub enum NoCase {
    // Something else stands where a word, a mark or a byte is due.
    Form,
    Number(#[from] ParseIntError),
    Memory(#[from(alloc)] AllocError),
}
