// The texts of a table and of a plan.
ghost use Rattle.std.specs.Prelude.{◌≡◌, ◌≤◌, length, take, IfOk};
ghost use Rattle.std.specs.List.{AllByRecursion};
ghost use Rattle.duty.specs.Heads.{head};
ghost use Rattle.columns.specs.Texts.{text, text_length};
ghost use Rattle.writer.specs.Puts.{put, Fitting, Sized};
ghost use Rattle.writer.specs.Written.{whole, write_of, length_in, out_in, ReadsBack};

use super::cursor::Writer;
use columns::{Form, check_records};
use duty::{Header, Record};
use fault::{Cause, Fault};

// Puts the text into the first bytes of the output, which has room for it.
// This call stands apart from `write`, whose proof can so name what the output holds once the writer is gone.
fn fill(form: Form, header: &Header, records: &[Record], out: &mut [u8])
    requires fits { AllByRecursion Fitting records.now }
    requires room { text_length form (length records.now) ≤ length out.old }
    ensures value { out.new ≡ put 0 (text form (whole (head header.now) records.now)) out.old }
    ensures sized { AllByRecursion Sized records.now }
{
    Writer::new(out).sheet(form, header, records);
}

// Writes the header and its records as a text of this form, and answers the text's length.
// A refusal leaves the output as it was; bytes past the text stay too.
pub fn write(
    form: Form,
    header: &Header,
    records: &[Record],
    out: &mut [u8],
) -> Result<usize, Fault>
    ensures answer { result ≡ length_in (write_of form (head header.now) records.now (length out.old)) }
    ensures after { out.new ≡ out_in (write_of form (head header.now) records.now (length out.old)) out.old }
    ensures within { IfOk result (λ n. n ≤ length out.old) }
    ensures back { IfOk result (λ n. ReadsBack form (head header.now) records.now (take n out.new)) }
{
    check_records(header, records)?;
    let duties = header.duties();
    let length = form.text_length(duties);
    if out.len() < length {
        return Err(Fault::of_call(Cause::OutputShort));
    }
    fill(form, header, &records[..duties as usize], out);
    Ok(length)
}
