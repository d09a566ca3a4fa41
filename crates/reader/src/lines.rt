// The lines of a text.
ghost use Rattle.std.specs.Prelude.{◌≡◌, is_ok};
ghost use Rattle.columns.specs.Forms.{line_width};
ghost use Rattle.columns.specs.Layout.{header_width};
ghost use Rattle.columns.specs.Lines.{header_line};
ghost use Rattle.reader.specs.Cases.{cases, line_case, due_width};
ghost use Rattle.reader.specs.Views.{rest, headers, Moved};

use super::cursor::Reader;
use columns::{BOARDS, COST, CYCLE, DEADLINE, DUTIES, Form, HEADER_WIDTH, SPACING};
use duty::{Header, Timing};
use fault::{Cause, Fault, Layer};

// A name, borrowed from where it stands in the text, and the place of its first byte.
#[derive(Clone, Copy)]
pub struct NamePart<'a> {
    pub bytes: &'a [u8; 8],
    pub place: usize,
}

// A line by its case.
#[derive(Clone, Copy)]
pub enum Line<'a> {
    Header(Header),
    Table {
        name: NamePart<'a>,
        timing: Timing,
    },
    Plan {
        name: NamePart<'a>,
        timing: Timing,
        board: u8,
    },
}

// Which line is due: a header, or a duty's line in a text with this cycle.
#[derive(Clone, Copy)]
pub enum Due {
    Header(Form),
    Duty(Form, u32),
}

impl<'a> Reader<'a> {
    // A cursor at the start of the text.
    pub fn new(text: &'a [u8]) -> Reader<'a>
        ensures text { result.text.now ≡ text.now }
        ensures pos { result.pos ≡ 0 }
        ensures line { result.line ≡ 1 }
    {
        Reader {
            text,
            pos: 0,
            line: 1,
        }
    }

    // Reads the line that is due, of just two kinds, and moves past it; where it is refused, stays.
    pub fn line(&mut self, due: Due) -> Result<Line<'a>, Fault>
        ensures answer { cases result ≡ line_case due self.old.pos self.old.line (rest self.old) }
        ensures moves { Moved (due_width due) (is_ok result) self.old self.new }
    {
        match due {
            Due::Header(form) => Ok(Line::Header(self.header(form)?)),
            Due::Duty(form, cycle) => self.duty_line(form, cycle),
        }
    }

    // Reads a header line.
    pub fn header(&mut self, form: Form) -> Result<Header, Fault>
        ensures answer { headers result ≡ header_line form self.old.line (rest self.old) }
        ensures moves { Moved header_width (is_ok result) self.old self.new }
    {
        self.line_due(HEADER_WIDTH)?;
        self.word(&form.word())?;
        let letter = self.letter()?;
        let boards = self.number(BOARDS)? as u8;
        let duties = self.number(DUTIES)? as u8;
        let cycle = self.number(CYCLE)?;
        let header = Header::new(letter, boards, duties, cycle).unwrap();
        self.pos += HEADER_WIDTH + 1;
        self.line += 1;
        Ok(header)
    }

    // Reads a duty's line of a text with this cycle.
    pub(crate) fn duty_line(&mut self, form: Form, cycle: u32) -> Result<Line<'a>, Fault>
        ensures answer { cases result ≡ line_case (Due.Duty form cycle) self.old.pos self.old.line (rest self.old) }
        ensures moves { Moved (line_width form) (is_ok result) self.old self.new }
    {
        let width = form.line_width();
        self.line_due(width)?;
        let name = self.name()?;
        let cost = self.number(COST)?;
        let deadline = self.number(DEADLINE)?;
        let spacing = self.number(SPACING)?;
        let board = self.board(form)?;
        if cost > deadline || deadline > spacing {
            return Err(self.refusal(Cause::OutOfOrder, COST.first, Layer::Line));
        }
        if cycle % spacing != 0 {
            return Err(self.refusal(Cause::NotADivisor, SPACING.first, Layer::Line));
        }
        self.pos += width + 1;
        self.line += 1;
        let timing = Timing {
            cost,
            deadline,
            spacing,
        };
        match form {
            Form::Table => Ok(Line::Table { name, timing }),
            Form::Plan => Ok(Line::Plan {
                name,
                timing,
                board,
            }),
        }
    }
}
