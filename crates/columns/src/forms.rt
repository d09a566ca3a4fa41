// The two texts: a table, and a plan, whose lines have a board.
ghost use Rattle.std.specs.Prelude.{◌≡◌};
ghost use Rattle.columns.specs.Forms.{word, line_width};
ghost use Rattle.columns.specs.Laws.{OneText, RestIsIdle};
ghost use Rattle.columns.specs.Texts.{text_length, longest_text};

use super::fields::HEADER_WIDTH;
use duty::Header;

#[derive(Clone, Copy, PartialEq, Eq, Debug)]
pub enum Form {
    Table,
    Plan,
}

impl Form {
    // The word that its header starts with.
    pub fn word(&self) -> [u8; 5]
        ensures { result ≡ word self.now }
    {
        match self {
            Form::Table => *b"RELAY",
            Form::Plan => *b"PLAN ",
        }
    }

    // How many columns a duty's line has.
    pub fn line_width(&self) -> usize
        ensures { result ≡ line_width self.now }
    {
        match self {
            Form::Table => 32,
            Form::Plan => 35,
        }
    }

    // How long a text with this many duties is.
    pub fn text_length(&self, duties: u8) -> usize
        ensures { result ≡ text_length self.now duties }
    {
        HEADER_WIDTH + 1 + (self.line_width() + 1) * duties as usize
    }

    // How long the longest text is. Who reads one byte more than this of an input knows all that decides.
    pub fn longest_text(&self) -> usize
        ensures answer { result ≡ longest_text self.now }
        ensures law { RestIsIdle }
        ensures texts { OneText }
    {
        self.text_length(Header::MOST_DUTIES)
    }
}
