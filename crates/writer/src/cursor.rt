// A writer over lent memory, with methods for a field, a line and a whole text.
ghost use Rattle.std.specs.Prelude.{◌≡◌, ◌+◌, ◌-◌, ◌*◌, ◌^◌, ◌<◌, ◌≤◌, [], ◌∷◌, length};
ghost use Rattle.std.specs.List.{flat_map, AllByRecursion};
ghost use Rattle.duty.specs.Heads.{head};
ghost use Rattle.duty.specs.Limits.{most_boards};
ghost use Rattle.columns.specs.Forms.{line_width};
ghost use Rattle.columns.specs.Layout.{width, header_width, board_field};
ghost use Rattle.columns.specs.Lines.{newline};
ghost use Rattle.columns.specs.Numerals.{widest, justified};
ghost use Rattle.columns.specs.Texts.{header_text, board_text, line_text, text, text_length};
ghost use Rattle.writer.specs.Puts.{Wrote, Placed, Appended, Fitting, Sized};
ghost use Rattle.writer.specs.Written.{whole};

use columns::{
    BOARD, BOARDS, COST, CYCLE, DEADLINE, DUTIES, Field, Form, HEADER_WIDTH, LETTER_COLUMN,
    SPACING, write_number,
};
use duty::{Header, Record};

// Where the next line goes: `pos` is the place of its first byte.
// `out` stays whole, with a place beside it: if a method kept the rest of it alone, a clause would have to say what
// is lent on, and such a clause is proved by hand alone. Each method needs another amount of room: so clauses ask
// for it, and no field of the type. That records fit their columns was checked by who calls these private methods.
#[derive(Drop)]
pub(crate) struct Writer<'a> {
    out: &'a mut [u8],
    pos: usize,
}

impl<'a> Writer<'a> {
    // A writer at the first byte of the memory.
    pub(crate) fn new(out: &'a mut [u8]) -> Writer<'a>
        ensures { result ≡ record { out = out.entry; pos = 0 } }
    {
        Writer { out, pos: 0 }
    }

    // Puts bytes from a column of the line on.
    #[tactic(auto, using(std::proofs::lemmas::Slice::overwrites), unfolding(crate::specs::Puts::put))]
    fn bytes(&mut self, first: usize, bytes: &[u8])
        requires { (1 ≤ first) × (self.old.pos + (first - 1) + length bytes.now ≤ length self.old.out.now) }
        ensures { Placed first bytes.now self.old self.new }
    {
        let at = self.pos + (first - 1);
        self.out[at..at + bytes.len()].copy_from_slice(bytes);
    }

    // Puts a number into its field.
    fn number(&mut self, field: Field, n: u32)
        requires columns { (1 ≤ field.first) × ((field.first ≤ field.last) × (width field ≤ widest)) }
        requires room { self.old.pos + field.last ≤ length self.old.out.now }
        requires fits { n < 10 ^ width field }
        ensures { Placed field.first (justified (width field) n) self.old self.new }
    {
        let at = self.pos + (field.first - 1);
        let width = field.last - (field.first - 1);
        write_number(&mut self.out[at..], width, n).unwrap();
    }

    // Puts the end byte after the line's last column, and moves on to the next line.
    fn end(&mut self, width: usize)
        requires { self.old.pos + (width + 1) ≤ length self.old.out.now }
        ensures { Wrote (self.old.pos + width) (newline ∷ []) (self.old.pos + (width + 1)) self.old self.new }
    {
        self.bytes(width + 1, b"\n");
        self.pos += width + 1;
    }

    // Puts a header's line.
    fn header(&mut self, form: Form, header: &Header)
        requires { self.old.pos + (header_width + 1) ≤ length self.old.out.now }
        ensures { Appended (header_text form (head header.now)) self.old self.new }
    {
        self.bytes(1, &form.word());
        self.bytes(LETTER_COLUMN, &[u8::from(header.letter())]);
        self.number(BOARDS, header.boards() as u32);
        self.number(DUTIES, header.duties() as u32);
        self.number(CYCLE, header.cycle());
        self.end(HEADER_WIDTH);
    }

    // Puts the board of a plan line; a table line has none.
    #[tactic(auto, using(crate::proofs::Parts::put_nothing))]
    fn board(&mut self, form: Form, row: &Record)
        requires fits { row.now.board ≤ most_boards }
        requires room { self.old.pos + (line_width form + 1) ≤ length self.old.out.now }
        ensures { Placed board_field.first (board_text form row.now) self.old self.new }
    {
        match form {
            Form::Table => {}
            Form::Plan => self.number(BOARD, row.board as u32),
        }
    }

    // Puts a duty's line.
    fn line(&mut self, form: Form, row: &Record)
        requires fits { Fitting row.now }
        requires room { self.old.pos + (line_width form + 1) ≤ length self.old.out.now }
        ensures wrote { Appended (line_text form row.now) self.old self.new }
        ensures sized { Sized row.now }
    {
        self.bytes(1, &row.name.bytes);
        self.number(COST, row.timing.cost);
        self.number(DEADLINE, row.timing.deadline);
        self.number(SPACING, row.timing.spacing);
        self.board(form, row);
        self.end(form.line_width());
    }

    // Puts a line for each record.
    fn lines(&mut self, form: Form, records: &[Record])
        requires fits { AllByRecursion Fitting records.now }
        requires room { self.old.pos + (line_width form + 1) * length records.now ≤ length self.old.out.now }
        ensures wrote { Appended (flat_map (line_text form) records.now) self.old self.new }
        ensures sized { AllByRecursion Sized records.now }
    {
        for row in records {
            self.line(form, row);
        }
    }

    // Puts a whole text: the header's line, and a line for each record.
    pub(crate) fn sheet(&mut self, form: Form, header: &Header, records: &[Record])
        requires fits { AllByRecursion Fitting records.now }
        requires room { self.old.pos + text_length form (length records.now) ≤ length self.old.out.now }
        ensures wrote { Appended (text form (whole (head header.now) records.now)) self.old self.new }
        ensures sized { AllByRecursion Sized records.now }
    {
        self.header(form, header);
        self.lines(form, records);
    }
}
