// The call that places the duties of a table.
ghost use Rattle.std.specs.Prelude.{◌≡◌, length, take, Ok, Err};
ghost use Rattle.duty.specs.Heads.{head};
ghost use Rattle.fault.specs.declared.Fault.{Fault as Refusal};
ghost use Rattle.placing.specs.Laws.{PlacedLaw, WithinTime};
ghost use Rattle.placing.specs.Outcome.{place_fault, place_answer, place_after};
ghost use Rattle.placing.specs.Scratch.{Past};

use super::first_fit::first_fit;
use super::lined::Lined;
use columns::check_records;
use duty::{Header, Record};
use fault::{Cause, Fault};
use gauge::Gauge;

// Sets every board number of the header's duties to 0, and then places them by first-fit under the
// gauge. What the first scratch entries hold afterwards is free.
pub fn place<G: Gauge>(
    gauge: &G,
    header: &Header,
    records: &mut [Record],
    scratch: &mut [Lined],
) -> Result<(), Fault>
    ensures answer { result ≡ place_answer (G.passed gauge.now) (head header.now) records.old (length scratch.old) }
    ensures after { records.new ≡ place_after (G.passed gauge.now) (head header.now) records.old (length scratch.old) }
    ensures law { place_fault (head header.now) records.old (length scratch.old) ≡ Ok tt → PlacedLaw (G.passed gauge.now) header.now.boards header.now.cycle header.now.duties records.old records.new result }
    ensures bounded { place_fault (head header.now) records.old (length scratch.old) ≡ Ok tt → WithinTime header.now.boards (take header.now.duties records.new) }
    ensures scratch { Past header.now.duties scratch.old scratch.new }
    ensures untouched { (f : Refusal) → place_fault (head header.now) records.old (length scratch.old) ≡ Err f → scratch.new ≡ scratch.old }
{
    check_records(header, records)?;
    let duties = header.duties() as usize;
    if scratch.len() < duties {
        return Err(Fault::of_call(Cause::ScratchShort));
    }
    first_fit(gauge, header, &mut records[..duties], scratch)
}
