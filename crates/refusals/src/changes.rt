// A record changed after it was read, so that the writer sees what no text holds.
use super::errors::NoCase;
use duty::Record;
use std::str::FromStr;

#[derive(Clone, Copy)]
enum Part {
    // The first byte of the name.
    Initial,
    Cost,
    Deadline,
    Spacing,
    Board,
}

// The record at this index is given this number; a byte at most 255.
#[derive(Clone, Copy)]
pub struct Change {
    index: usize,
    part: Part,
    value: u32,
}

impl FromStr for Part {
    type Err = NoCase;

    fn from_str(name: &str) -> Result<Part, NoCase> {
        match name {
            "initial" => Ok(Part::Initial),
            "cost" => Ok(Part::Cost),
            "deadline" => Ok(Part::Deadline),
            "spacing" => Ok(Part::Spacing),
            "board" => Ok(Part::Board),
            _ => Err(NoCase::Form),
        }
    }
}

impl Change {
    // Reads `LINE.PART`; the first record is that of line 2. No `FromStr`, since the value comes apart from it.
    pub fn parse(name: &str, value: u32) -> Result<Change, NoCase> {
        let (line, part) = name.split_once('.').ok_or(NoCase::Form)?;
        Ok(Change {
            index: line.parse::<usize>()?.checked_sub(2).ok_or(NoCase::Form)?,
            part: part.parse::<Part>()?,
            value,
        })
    }

    pub fn apply(&self, records: &mut [Record]) {
        let Some(record) = records.get_mut(self.index) else {
            return;
        };
        let byte = u8::try_from(self.value).unwrap_or(u8::MAX);
        match self.part {
            Part::Initial => record.name.bytes[0] = byte,
            Part::Cost => record.timing.cost = self.value,
            Part::Deadline => record.timing.deadline = self.value,
            Part::Spacing => record.timing.spacing = self.value,
            Part::Board => record.board = byte,
        }
    }
}
