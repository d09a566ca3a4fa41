// Refusals: why a call was turned down, where in the text, and which layer found it.
#![tactic(auto)]

ghost use Rattle.std.specs.Prelude.{◌≡◌};
ghost use Rattle.fault.specs.declared.Layer.TheVariants.{Call};
ghost use Rattle.fault.specs.Faults.{fault};
ghost use Rattle.fault.specs.Numbers.{number};

use std::fmt;

// Why a call was turned down.
#[derive(Clone, Copy, PartialEq, Eq, Debug)]
pub enum Cause {
    // The scratch memory has fewer entries than there are duties.
    ScratchShort,
    // The memory of a ready queue has fewer entries than there are places.
    MemoryShort,
    // Fewer records were handed in than there are duties.
    RecordsShort,
    // The output memory is shorter than the text.
    OutputShort,
    // A character that may not stand in this word, letter or name.
    BadCharacter,
    // Not blanks and then digits, or a zero before further digits.
    BadNumeral,
    // A number outside its range.
    OutOfRange,
    // A line of another length, or without its end byte.
    BadLength,
    // A cost above the deadline, or a deadline above the spacing.
    OutOfOrder,
    // A spacing that does not divide the cycle.
    NotADivisor,
    // A record that is no duty of the cycle.
    NotADuty,
    // The text is over, and a line should come.
    MissingLine,
    // Bytes follow the last line.
    TrailingBytes,
    // No board takes this duty.
    NoBoardFits,
    // A board number that is 0 or above the header's.
    NoSuchBoard,
    // A board whose list does not pass the gauge.
    Overfull,
    // The plan has no board of this number.
    UnknownBoard,
    // There is no such place.
    NoSuchPlace,
    // An arrival before the spacing has passed.
    TooSoon,
    // No job waits at the place.
    NoJob,
    // The clock has reached its limit.
    ClockFull,
}

// The layer that found the fault.
#[derive(Clone, Copy, PartialEq, Eq, Debug)]
pub enum Layer {
    Field,
    Line,
    Table,
    Call,
}

// A refusal. Lines and columns count from 1; 0 stands where the cause has none, as it does where a refusal is printed.
#[derive(Clone, Copy, PartialEq, Eq, Debug)]
pub struct Fault {
    pub cause: Cause,
    pub line: usize,
    pub column: usize,
    pub layer: Layer,
}

impl Cause {
    // The number by which users know the cause. Several causes may have one, so it is no discriminant.
    pub fn number(&self) -> u8
        ensures { result ≡ number self.now }
    {
        match self {
            Cause::ScratchShort => 10,
            Cause::MemoryShort => 10,
            Cause::RecordsShort => 11,
            Cause::OutputShort => 12,
            Cause::BadCharacter => 20,
            Cause::BadNumeral => 21,
            Cause::OutOfRange => 22,
            Cause::BadLength => 30,
            Cause::OutOfOrder => 31,
            Cause::NotADivisor => 32,
            Cause::NotADuty => 32,
            Cause::MissingLine => 40,
            Cause::TrailingBytes => 40,
            Cause::NoBoardFits => 50,
            Cause::NoSuchBoard => 51,
            Cause::Overfull => 52,
            Cause::UnknownBoard => 60,
            Cause::NoSuchPlace => 70,
            Cause::TooSoon => 71,
            Cause::NoJob => 72,
            Cause::ClockFull => 73,
        }
    }
}

impl Fault {
    // A refusal that names neither line nor column, by a call on what is in memory.
    pub fn of_call(cause: Cause) -> Fault
        ensures { result ≡ fault cause 0 0 Call }
    {
        Fault {
            cause,
            line: 0,
            column: 0,
            layer: Layer::Call,
        }
    }

    // The same refusal, at this line and column.
    pub fn at(self, line: usize, column: usize) -> Fault
        ensures { result ≡ fault self.cause line column self.layer }
    {
        Fault {
            line,
            column,
            ..self
        }
    }

    // The number of its cause.
    pub fn number(&self) -> u8
        ensures { result ≡ number self.now.cause }
    {
        self.cause.number()
    }
}

// The line that programs print for a refusal: the word, then number, line and column in three columns each.
impl fmt::Display for Fault {
    fn fmt<W: fmt::Write>(&self, f: &mut fmt::Formatter<W>) -> fmt::Result {
        write!(
            f,
            "REFUSED{:>3}{:>3}{:>3}",
            self.number(),
            self.line,
            self.column
        )
    }
}
