// Which gauge (schedulability test) a table asks for, by the letter in its header.
ghost use Rattle.duty.specs.Letters.{StandsFor, Reads};

use std::error::Error;
use std::fmt;

#[derive(Clone, Copy, PartialEq, Eq, Debug)]
pub enum Letter {
    Density,
    Slope,
    Exact,
}

// A byte that stands for no gauge.
#[derive(Clone, Copy, PartialEq, Eq, Debug)]
pub struct NoLetter(pub u8);

// The byte that stands for a letter in a header.
impl From<Letter> for u8 {
    ghost from_gives = { StandsFor };

    fn from(letter: Letter) -> u8 {
        match letter {
            Letter::Density => b'D',
            Letter::Slope => b'S',
            Letter::Exact => b'E',
        }
    }
}

// The letter that a byte stands for.
impl TryFrom<u8> for Letter {
    type Error = NoLetter;

    ghost try_from_gives = { Reads };

    fn try_from(byte: u8) -> Result<Letter, NoLetter> {
        match byte {
            b'D' => Ok(Letter::Density),
            b'S' => Ok(Letter::Slope),
            b'E' => Ok(Letter::Exact),
            _ => Err(NoLetter(byte)),
        }
    }
}

impl fmt::Display for NoLetter {
    fn fmt<W: fmt::Write>(&self, f: &mut fmt::Formatter<W>) -> fmt::Result {
        write!(f, "no gauge has the letter of byte {}", self.0)
    }
}

impl Error for NoLetter {}
