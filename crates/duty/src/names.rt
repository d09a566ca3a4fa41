// Names: which bytes may stand in the eight columns of one.
ghost use Rattle.std.specs.Prelude.{◌≡◌, ◌≤◌, ◌||◌, length, ◌==◌};
ghost use Rattle.duty.specs.Names.{name_byte, blanks_in, tail_in, name_in, named, NamesAreStems};

// The bytes of a name's columns, unchecked: the name, and then blanks.
#[derive(Clone, Copy, PartialEq, Eq, Debug)]
pub struct Name {
    pub bytes: [u8; 8],
}

fn is_name_byte(byte: u8) -> bool
    ensures { result ≡ name_byte byte }
{
    matches!(byte, b'A'..=b'Z' | b'0'..=b'9')
}

fn is_tail_byte(byte: u8) -> bool
    ensures { result ≡ (name_byte byte || byte == 45) }
{
    is_name_byte(byte) || byte == b'-'
}

fn blank_prefix(bytes: &[u8]) -> usize
    ensures value { result ≡ blanks_in bytes.now }
    ensures within { result ≤ length bytes.now }
{
    for (i, byte) in bytes.iter().enumerate() {
        if *byte != b' ' {
            return i;
        }
    }
    bytes.len()
}

fn tail_prefix(bytes: &[u8]) -> usize
    ensures value { result ≡ tail_in bytes.now }
    ensures within { result ≤ length bytes.now }
{
    for (i, byte) in bytes.iter().enumerate() {
        if !is_tail_byte(*byte) {
            return i + blank_prefix(&bytes[i..]);
        }
    }
    bytes.len()
}

// How many bytes from the start may stand in a name.
pub fn good_prefix(bytes: &[u8]) -> usize
    ensures value { result ≡ name_in bytes.now }
    ensures within { result ≤ length bytes.now }
{
    match bytes {
        [first, tail @ ..] if is_name_byte(*first) => 1 + tail_prefix(tail),
        _ => 0,
    }
}

impl Name {
    // Whether the columns hold a name.
    pub fn is_valid(&self) -> bool
        ensures answer { result ≡ named self.now.bytes }
        ensures law { NamesAreStems }
    {
        good_prefix(&self.bytes) == 8
    }
}
