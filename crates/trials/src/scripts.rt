// A trial's input: a plan's text, and then a command a line.
ghost use Rattle.std.specs.Prelude.{◌≡◌, ◌≤◌, length, IfOk};
ghost use Rattle.std.specs.List.{prefix_len};
ghost use Rattle.trials.specs.Commands.{is_call};
ghost use Rattle.trials.specs.Scripts.{IsScript};

use crate::commands::{Command, NoCommand};
use columns::Form;
use reader::Reader;
use std::alloc::{AllocError, Global};

// The commands of a trial, and how they end: with the text, or at a line that is none.
#[derive(Drop)]
pub struct Script {
    pub commands: Vec<Command>,
    pub end: Result<(), NoCommand>,
}

// Where the plan's text ends and the commands begin, by the header. All of the text where there is no such place.
pub fn plan_end(text: &[u8]) -> usize
    ensures within { result ≤ length text.now }
{
    match Reader::new(text).header(Form::Plan) {
        Ok(header) => Form::Plan.text_length(header.duties()).min(text.len()),
        Err(_) => text.len(),
    }
}

// Reads the commands, a line each. The last line may lack its end byte.
pub fn read_script(heap: Global, text: &[u8]) -> Result<Script, AllocError>
    ensures { IfOk result (λ script. IsScript text.now script.commands.items script.end) }
{
    let mut commands = Vec::new(heap);
    for line in text.split_inclusive(|byte| *byte == b'\n') {
        match Command::try_from(line.strip_suffix(b"\n").unwrap_or(line)) {
            Ok(command) => commands.push(command)?,
            Err(error) => {
                return Ok(Script {
                    commands,
                    end: Err(error),
                });
            }
        }
    }
    Ok(Script {
        commands,
        end: Ok(()),
    })
}

// How many calls come before the next command that is none. (Of a chain with a default for none nothing is proved alone.)
pub fn calls_in_front(commands: &[Command]) -> usize
    ensures value { result ≡ prefix_len is_call commands.now }
    ensures within { result ≤ length commands.now }
{
    for (i, command) in commands.iter().enumerate() {
        let Command::Make(_) = command else {
            return i;
        };
    }
    commands.len()
}
