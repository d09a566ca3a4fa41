// A case: a call on a text, and what is to come of it.
use super::calls::Call;
use super::errors::NoCase;
use super::escapes::unescaped;
use super::outcomes::Outcome;
use duty::Record;
use std::alloc::{AllocError, Global};

#[derive(Drop)]
pub struct Case {
    call: Call,
    text: Vec<u8>,
    pub expected: Outcome,
}

impl Case {
    // Reads `CALL |TEXT| OUTCOME`. No `FromStr`, since it allocates.
    pub fn parse(heap: Global, line: &str) -> Result<Case, NoCase> {
        let (call, rest) = line.split_once(" |").ok_or(NoCase::Form)?;
        let (text, outcome) = rest.split_once("| ").ok_or(NoCase::Form)?;
        Ok(Case {
            call: call.parse::<Call>()?,
            text: unescaped(heap, text)?,
            expected: outcome.parse::<Outcome>()?,
        })
    }

    // What the reader and the writer say to the text.
    pub fn run(&self, heap: Global) -> Result<Outcome, AllocError> {
        let mut records = vec![in heap; Record::BLANK; self.call.records]?;
        let mut out = vec![in heap; 0; self.call.room]?;
        let outcome = self.call.run(self.text.as_slice(), &mut records, &mut out);
        Ok(outcome.unwrap_or_else(|fault| Outcome::Refused(fault.into())))
    }
}
