// From a plan's text to whether it can be closed.
ghost use Rattle.std.specs.Prelude.{◌≡◌, length};
ghost use Rattle.duty.specs.Heads.{head};
ghost use Rattle.columns.specs.declared.forms.Form.TheVariants.{Plan};
ghost use Rattle.columns.specs.Tables.{sheet_of, filled};
ghost use Rattle.gauge.specs.Letters.{letter_passed};
ghost use Rattle.plans.specs.Closing.{close_fault};
ghost use Rattle.planner.specs.Checks.{check_fault, Checks};

use columns::Form;
use duty::{Header, Record};
use fault::Fault;
use plans::OpenPlan;
use reader::read;

// Whether what was read can be closed under the header's gauge. The records are as before.
fn check_closing(header: Header, records: &mut [Record]) -> Result<(), Fault>
    ensures answer { result ≡ close_fault (letter_passed header.letter) (head header) records.old }
    ensures same { records.new ≡ records.old }
{
    let letter = header.letter();
    OpenPlan::new(header, records).check(&letter)
}

// Reads the plan, and checks that it can be closed under the header's gauge.
pub fn check(text: &[u8], records: &mut [Record]) -> Result<(), Fault>
    ensures answer { result ≡ check_fault text.now records.old }
    ensures law { Checks text.now records.old result }
    ensures records { records.new ≡ filled (sheet_of Plan (length records.old) text.now) records.old }
{
    let header = read(Form::Plan, text, records)?;
    check_closing(header, records)
}
