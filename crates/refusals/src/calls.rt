// What a case hands in beside its text, and the calls that it makes.
use super::changes::Change;
use super::errors::NoCase;
use super::outcomes::Outcome;
use columns::Form;
use duty::{Header, Record};
use fault::Fault;
use std::str::FromStr;

// How many records the reader is handed, how many of them the writer, and how many bytes of output it
// has; and what is changed in between.
#[derive(Clone, Copy)]
pub struct Call {
    form: Form,
    pub records: usize,
    rows: usize,
    pub room: usize,
    change: Option<Change>,
}

// A text of this name; `Form` is another crate's, so it cannot be parsed by `FromStr` here.
fn parse_form(word: &str) -> Result<Form, NoCase> {
    match word {
        "table" => Ok(Form::Table),
        "plan" => Ok(Form::Plan),
        _ => Err(NoCase::Form),
    }
}

// Reads `table` or `plan`, and then settings.
impl FromStr for Call {
    type Err = NoCase;

    fn from_str(text: &str) -> Result<Call, NoCase> {
        let mut words = text.split_whitespace();
        let form = parse_form(words.next().ok_or(NoCase::Form)?)?;
        let mut call = Call {
            form,
            records: Header::MOST_RECORDS,
            rows: Header::MOST_RECORDS,
            room: form.longest_text(),
            change: None,
        };
        for word in words {
            call.set(word)?;
        }
        Ok(call)
    }
}

impl Call {
    // Reads a setting, `NAME=NUMBER`.
    fn set(&mut self, word: &str) -> Result<(), NoCase> {
        let (name, value) = word.split_once('=').ok_or(NoCase::Form)?;
        let value = value.parse::<u32>()?;
        match name {
            "records" => self.records = value as usize,
            "rows" => self.rows = value as usize,
            "room" => self.room = value as usize,
            _ => self.change = Some(Change::parse(name, value)?),
        }
        Ok(())
    }

    // Reads the text into the records, makes the change, and writes the text into the output.
    pub fn run(
        &self,
        text: &[u8],
        records: &mut Vec<Record>,
        out: &mut Vec<u8>,
    ) -> Result<Outcome, Fault> {
        let header = reader::read(self.form, text, records.as_mut_slice())?;
        if let Some(change) = self.change {
            change.apply(records.as_mut_slice());
        }
        records.truncate(self.rows);
        let length = writer::write(self.form, &header, records.as_slice(), out.as_mut_slice())?;
        out.truncate(length);
        if out.as_slice() == text {
            Ok(Outcome::Same(header.duties() as usize))
        } else {
            Ok(Outcome::Other)
        }
    }
}
