// The cursor.
ghost use Rattle.std.specs.Prelude.{◌+◌, ◌≤◌, length};

// It stands at the first byte of a line, and knows the line's number, counted from 1. The whole text stays beside
// `pos`, since a name is given out with its place in it.
#[derive(Drop)]
pub struct Reader<'a> {
    pub(crate) text: &'a [u8],
    pub(crate) pos: usize,
    pub(crate) line: usize,
    ghost within: { pos ≤ length text.now },
    ghost counted: { line ≤ pos + 1 },
}
