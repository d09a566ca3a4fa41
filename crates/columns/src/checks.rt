// What every call over a header and records in memory first asks of them.
ghost use Rattle.std.specs.Prelude.{◌≡◌};
ghost use Rattle.duty.specs.Heads.{head};
ghost use Rattle.columns.specs.Checks.{records_fault};

use super::fields::{DUTIES, SPACING};
use duty::{Header, Record, first_misfit};
use fault::{Cause, Fault};

// Enough records, and each of the header's a duty record of its cycle.
pub fn check_records(header: &Header, records: &[Record]) -> Result<(), Fault>
    ensures { result ≡ records_fault (head header.now) records.now }
{
    let duties = header.duties() as usize;
    if records.len() < duties {
        return Err(Fault::of_call(Cause::RecordsShort).at(1, DUTIES.first));
    }
    match first_misfit(&records[0..duties], header.cycle()) {
        Some(i) => Err(Fault::of_call(Cause::NotADuty).at(i + 2, SPACING.first)),
        None => Ok(()),
    }
}
