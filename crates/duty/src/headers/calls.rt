// How a header is made and read.
ghost use Rattle.std.specs.Prelude.{◌≡◌};
ghost use Rattle.duty.specs.Heads.{header_of, heads};

use super::Header;
use crate::letters::Letter;
use crate::records::Record;
use crate::timings::LONGEST;

impl Header {
    // The most duties of a table.
    pub const MOST_DUTIES: u8 = 64;

    // As many records hold the duties of any table.
    pub const MOST_RECORDS: usize = Self::MOST_DUTIES as usize;

    // A header of these numbers, if they keep the limits.
    pub fn new(letter: Letter, boards: u8, duties: u8, cycle: u32) -> Option<Header>
        ensures { heads result ≡ header_of letter boards duties cycle }
    {
        if boards < 1 || boards > Record::MOST_BOARDS {
            return None;
        }
        if duties > Self::MOST_DUTIES || cycle < 1 || cycle > LONGEST {
            return None;
        }
        Some(Header {
            letter,
            boards,
            duties,
            cycle,
        })
    }

    pub fn letter(&self) -> Letter
        ensures { result ≡ self.now.letter }
    {
        self.letter
    }

    pub fn boards(&self) -> u8
        ensures { result ≡ self.now.boards }
    {
        self.boards
    }

    pub fn duties(&self) -> u8
        ensures { result ≡ self.now.duties }
    {
        self.duties
    }

    pub fn cycle(&self) -> u32
        ensures { result ≡ self.now.cycle }
    {
        self.cycle
    }
}
