// The fields of the line that the cursor stands at.
ghost use Rattle.std.specs.Prelude.{◌≡◌, ◌+◌, ◌<◌, ◌≤◌, length, IfOk, OnOk};
ghost use Rattle.fault.specs.Faults.{fault};
ghost use Rattle.duty.specs.Limits.{name_width};
ghost use Rattle.columns.specs.Forms.{line_width};
ghost use Rattle.columns.specs.Layout.{letter_column};
ghost use Rattle.columns.specs.Lines.{due, number_at, board_at, word_at, letter_at, name_at};
ghost use Rattle.reader.specs.Views.{rest, parts};

use super::cursor::Reader;
use super::lines::NamePart;
use super::prefixes::{ends_at, word_prefix};
use columns::{BOARD, Field, Form, LETTER_COLUMN, read_number};
use duty::{Letter, good_prefix};
use fault::{Cause, Fault, Layer};

impl<'a> Reader<'a> {
    // A refusal at this column of the line.
    pub(crate) fn refusal(&self, cause: Cause, column: usize, layer: Layer) -> Fault
        ensures { result ≡ fault cause self.now.line column layer }
    {
        Fault {
            cause,
            line: self.line,
            column,
            layer,
        }
    }

    // The text from the cursor on.
    fn rest(&self) -> &'a [u8]
        ensures { result.now ≡ rest self.now }
    {
        &self.text[self.pos..]
    }

    // A line of `width` columns is due.
    pub(crate) fn line_due(&self, width: usize) -> Result<(), Fault>
        ensures answer { result ≡ due width self.now.line (rest self.now) }
        ensures long { OnOk result (width < length (rest self.now)) }
    {
        if self.rest().is_empty() {
            return Err(self.refusal(Cause::MissingLine, 1, Layer::Line));
        }
        if !ends_at(self.rest(), width) {
            return Err(self.refusal(Cause::BadLength, 1, Layer::Line));
        }
        Ok(())
    }

    // The number in a field. Each field asks for its own columns: a type for a line that is due and whole
    // would ask the same, since how many columns there are depends on the line.
    pub(crate) fn number(&self, field: Field) -> Result<u32, Fault>
        requires starts { 1 ≤ field.first }
        requires goes_on { field.first ≤ field.last }
        requires within { field.last ≤ length (rest self.now) }
        ensures range { IfOk result (λ n. (field.least ≤ n) × (n ≤ field.most)) }
        ensures answer { result ≡ number_at field self.now.line (rest self.now) }
    {
        match read_number(&self.rest()[field.first - 1..field.last]) {
            None => Err(self.refusal(Cause::BadNumeral, field.first, Layer::Field)),
            Some(n) if (field.least..=field.most).contains(&n) => Ok(n),
            Some(_) => Err(self.refusal(Cause::OutOfRange, field.first, Layer::Field)),
        }
    }

    // The board of a plan line; a table line has none.
    pub(crate) fn board(&self, form: Form) -> Result<u8, Fault>
        requires { line_width form ≤ length (rest self.now) }
        ensures { result ≡ board_at form self.now.line (rest self.now) }
    {
        match form {
            Form::Table => Ok(0),
            Form::Plan => Ok(self.number(BOARD)? as u8),
        }
    }

    // The word in the first columns.
    pub(crate) fn word(&self, word: &[u8]) -> Result<(), Fault>
        ensures { result ≡ word_at word.now self.now.line (rest self.now) }
    {
        let good = word_prefix(self.rest(), word);
        if good < word.len() {
            return Err(self.refusal(Cause::BadCharacter, good + 1, Layer::Field));
        }
        Ok(())
    }

    // The gauge's letter.
    pub(crate) fn letter(&self) -> Result<Letter, Fault>
        requires { letter_column ≤ length (rest self.now) }
        ensures { result ≡ letter_at self.now.line (rest self.now) }
    {
        // By `map_err` this is one line shorter, but the proof does not see what its closure gives.
        match Letter::try_from(self.rest()[LETTER_COLUMN - 1]) {
            Ok(letter) => Ok(letter),
            Err(_) => Err(self.refusal(Cause::BadCharacter, LETTER_COLUMN, Layer::Field)),
        }
    }

    // The name in the first columns, as the part of the text that it is.
    pub(crate) fn name(&self) -> Result<NamePart<'a>, Fault>
        requires { name_width ≤ length (rest self.now) }
        ensures { parts result ≡ name_at self.now.pos self.now.line (rest self.now) }
    {
        let bytes = self.rest().first_chunk::<8>().unwrap();
        let good = good_prefix(bytes);
        if good < 8 {
            return Err(self.refusal(Cause::BadCharacter, good + 1, Layer::Field));
        }
        Ok(NamePart {
            bytes,
            place: self.pos,
        })
    }
}
