// The lines of a trial.
ghost use Rattle.std.specs.Prelude.{◌≡◌, ℕ, ◌++◌, decimal};
ghost use Rattle.trials.specs.Commands.{Reads, Short, ReadsCommand};

use columns::read_number;
use model::Call;
use std::error::Error;
use std::fmt;

// What one line asks for.
#[derive(Clone, Copy, PartialEq, Eq, Debug)]
pub enum Command {
    // Load the board of this number.
    Load(u32),
    // Make a call on the board that is loaded.
    Make(Call),
    Unload,
}

// A line that is no command.
#[derive(Clone, Copy, PartialEq, Eq, Debug)]
pub struct NoCommand;

// The number that these bytes write, with nothing before or after it.
fn number(digits: &[u8]) -> Option<u32>
    ensures { Reads Short decimal digits.now result }
{
    if digits.starts_with(b" ") {
        None
    } else {
        read_number(digits)
    }
}

// The number that follows the word.
fn number_after(word: &[u8], line: &[u8]) -> Option<u32>
    ensures { Reads Short (λ (n : ℕ). word.now ++ decimal n) line.now result }
{
    number(line.strip_prefix(word)?)
}

// The command of a line, which stands without its end byte: the one that has this text, if any.
impl TryFrom<&[u8]> for Command {
    type Error = NoCommand;

    ghost try_from_gives = { λ line read. ReadsCommand line.now read };

    fn try_from(line: &[u8]) -> Result<Command, NoCommand> {
        if let Some(board) = number_after(b"load ", line) {
            return Ok(Command::Load(board));
        }
        if let Some(place) = number_after(b"arrive ", line) {
            return Ok(Command::Make(Call::Arrive(place as usize)));
        }
        if let Some(place) = number_after(b"finish ", line) {
            return Ok(Command::Make(Call::Finish(place as usize)));
        }
        match line {
            b"tick" => Ok(Command::Make(Call::Tick)),
            b"cancel" => Ok(Command::Make(Call::GeneralCancel)),
            b"unload" => Ok(Command::Unload),
            _ => Err(NoCommand),
        }
    }
}

impl fmt::Display for NoCommand {
    fn fmt<W: fmt::Write>(&self, f: &mut fmt::Formatter<W>) -> fmt::Result {
        write!(f, "no call")
    }
}

impl Error for NoCommand {}
