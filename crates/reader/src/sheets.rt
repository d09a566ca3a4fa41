// Whole texts: a header, and a line for each duty.
ghost use Rattle.std.specs.Prelude.{◌≡◌, ◌≤◌, length, is_ok};
ghost use Rattle.columns.specs.Forms.{line_width};
ghost use Rattle.columns.specs.Tables.{records_of, sheet_of, head_in, filled};
ghost use Rattle.reader.specs.Sheets.{line_record, answered, Read};
ghost use Rattle.reader.specs.Views.{rest, headers, Moved};

use super::cursor::Reader;
use super::lines::{Due, Line};
use columns::{DUTIES, Form};
use duty::{Header, Name, Record};
use fault::{Cause, Fault, Layer};

impl<'a> Reader<'a> {
    // Reads a duty's line as a record.
    fn duty_record(&mut self, form: Form, cycle: u32) -> Result<Record, Fault>
        ensures answer { result ≡ line_record form cycle self.old.pos self.old.line (rest self.old) }
        ensures moves { Moved (line_width form) (is_ok result) self.old self.new }
    {
        let (name, timing, board) = match self.line(Due::Duty(form, cycle))? {
            Line::Table { name, timing } => (name, timing, 0),
            Line::Plan {
                name,
                timing,
                board,
            } => (name, timing, board),
            Line::Header(_) => unreachable!(),
        };
        Ok(Record {
            name: Name { bytes: *name.bytes },
            timing,
            board,
        })
    }

    // Reads a line for each record, and then no byte more.
    fn records(&mut self, form: Form, cycle: u32, records: &mut [Record]) -> Result<(), Fault>
        ensures { answered result records.new ≡ records_of form (length records.old) cycle self.old.pos self.old.line (rest self.old) }
    {
        for record in records.iter_mut() {
            *record = self.duty_record(form, cycle)?;
        }
        if self.pos < self.text.len() {
            return Err(self.refusal(Cause::TrailingBytes, 1, Layer::Table));
        }
        Ok(())
    }

    // Reads a whole text from its start. The lines go through scratch records, so that a refusal leaves
    // the records as they were.
    fn sheet(&mut self, form: Form, records: &mut [Record]) -> Result<Header, Fault>
        requires start { (self.old.pos ≡ 0) × (self.old.line ≡ 1) }
        ensures answer { headers result ≡ head_in (sheet_of form (length records.old) self.old.text.now) }
        ensures after { records.new ≡ filled (sheet_of form (length records.old) self.old.text.now) records.old }
    {
        let header = self.header(form)?;
        let duties = header.duties() as usize;
        if records.len() < duties {
            // At the header's line, which the cursor has passed.
            return Err(Fault {
                cause: Cause::RecordsShort,
                line: 1,
                column: DUTIES.first,
                layer: Layer::Table,
            });
        }
        let mut scratch = [Record::BLANK; Header::MOST_RECORDS];
        let rows = &mut scratch[..duties];
        self.records(form, header.cycle(), rows)?;
        records[..duties].copy_from_slice(rows);
        Ok(header)
    }
}

// Reads a table or plan: its header, and its duties into the first records, each with its board, in a
// table 0. Refused, every record is as before.
pub fn read(form: Form, text: &[u8], records: &mut [Record]) -> Result<Header, Fault>
    ensures answer { headers result ≡ head_in (sheet_of form (length records.old) text.now) }
    ensures after { records.new ≡ filled (sheet_of form (length records.old) text.now) records.old }
    ensures law { Read form text.now records.old records.new (headers result) }
{
    Reader::new(text).sheet(form, records)
}
