// From a table's text to its plan's text.
#![tactic(auto)]

ghost use Rattle.std.specs.Prelude.{◌≡◌, ◌≤◌, length, IfOk};
ghost use Rattle.columns.specs.declared.forms.Form.TheVariants.{Table};
ghost use Rattle.columns.specs.Tables.{sheet_of};
ghost use Rattle.writer.specs.Written.{length_in, out_in};
ghost use Rattle.planner.specs.Laws.{Plans};
ghost use Rattle.planner.specs.Plans.{plan_text, plan_records, ScratchKept};

use columns::Form;
use duty::{Header, Record};
use fault::Fault;
use placing::{Lined, place};
use reader::read;
use writer::write;

mod checks;
#[cfg(test)]
mod tests;

pub use checks::check;

// Reads the table, places its duties by first-fit under the header's gauge, and writes the plan.
// Answers the length of the plan's text, or the first fault; a fault leaves the output as it was.
pub fn plan(
    text: &[u8],
    records: &mut [Record],
    scratch: &mut [Lined],
    out: &mut [u8],
) -> Result<usize, Fault>
    ensures answer { result ≡ length_in (plan_text text.now records.old (length scratch.old) (length out.old)) }
    ensures out { out.new ≡ out_in (plan_text text.now records.old (length scratch.old) (length out.old)) out.old }
    ensures law { Plans text.now records.old (length scratch.old) out.old result out.new }
    ensures within { IfOk result (λ n. n ≤ length out.old) }
    ensures records { records.new ≡ plan_records text.now records.old (length scratch.old) }
    ensures scratch { ScratchKept (sheet_of Table (length records.old) text.now) scratch.old scratch.new }
{
    let header = read(Form::Table, text, records)?;
    place(&header.letter(), &header, records, scratch)?;
    write(Form::Plan, &header, records, out)
}
