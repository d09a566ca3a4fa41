// How far the start of a text is as it should be.
ghost use Rattle.std.specs.Prelude.{◌≡◌, ◌<◌, ◌≤◌, length};
ghost use Rattle.std.specs.Bool.{OnTrue};
ghost use Rattle.columns.specs.Lines.{ends, matched};

// Whether the text has its first end byte after just `width` others.
pub(crate) fn ends_at(text: &[u8], width: usize) -> bool
    ensures answer { result ≡ ends width text.now }
    ensures within { OnTrue result (width < length text.now) }
{
    width < text.len() && text[width] == b'\n' && !text[..width].contains(&b'\n')
}

// How many bytes from the start are those of the word.
pub(crate) fn word_prefix(text: &[u8], word: &[u8]) -> usize
    ensures value { result ≡ matched word.now text.now }
    ensures within { result ≤ length word.now }
{
    for (i, byte) in word.iter().enumerate() {
        if i >= text.len() || text[i] != *byte {
            return i;
        }
    }
    word.len()
}
