// Numbers in columns: right-justified, blanks before the digits.
ghost use Rattle.std.specs.Prelude.{◌≡◌, ◌+◌, ◌^◌, ◌<◌, ◌≤◌, ◌++◌, length, drop, if◌then◌else◌, decimal, is_ok};
ghost use Rattle.columns.specs.Numerals.{further, plain, widest, number_in, justified, fits_in, BothWays};

// The most columns of a number.
const WIDEST: usize = 9;

// The number that digits write, or none where some byte is no digit.
fn value(digits: &[u8]) -> Option<u32>
    requires { length digits.now ≤ widest }
    ensures { result ≡ further 0 digits.now }
{
    let mut n: u32 = 0;
    for digit in digits {
        if !digit.is_ascii_digit() {
            return None;
        }
        n = n * 10 + (*digit - b'0') as u32;
    }
    Some(n)
}

// The number that digits write, with no zero before further ones.
fn plain_value(digits: &[u8]) -> Option<u32>
    requires { length digits.now ≤ widest }
    ensures { result ≡ plain digits.now }
{
    match digits {
        [] => None,
        [b'0'] => Some(0),
        [b'0', ..] => None,
        _ => value(digits),
    }
}

// The number in these columns: blanks, and then digits with no zero before further ones.
// None where they hold something else, or are more than nine.
#[tactic(auto, using(crate::proofs::Justified::both_ways))]
pub fn read_number(columns: &[u8]) -> Option<u32>
    ensures answer { result ≡ number_in columns.now }
    ensures law { BothWays }
{
    if columns.len() > WIDEST {
        return None;
    }
    for (i, byte) in columns.iter().enumerate() {
        if *byte != b' ' {
            return plain_value(&columns[i..]);
        }
    }
    None
}

// How many digits a number has.
fn digit_count(n: u32) -> usize
    ensures { result ≡ length (decimal n) }
{
    match n.checked_ilog10() {
        Some(power) => power as usize + 1,
        None => 1,
    }
}

// Fills the columns with the number, from the last column back, and with blanks before it.
fn put_digits(columns: &mut [u8], n: u32)
    requires { length (decimal n) ≤ length columns.old }
    ensures { columns.new ≡ justified (length columns.old) n }
{
    columns.fill(b' ');
    let mut left = n;
    for i in (0..columns.len()).rev() {
        columns[i] = b'0' + (left % 10) as u8;
        left /= 10;
        if left == 0 {
            return;
        }
    }
}

// A number with more digits than it has columns, or columns past the end of the output.
#[derive(Clone, Copy, PartialEq, Eq, Debug)]
pub struct Unfit;

// Writes the number into the first `width` columns; nothing is written where it does not fit.
pub fn write_number(out: &mut [u8], width: usize, n: u32) -> Result<(), Unfit>
    ensures answer { is_ok result ≡ fits_in width n out.old }
    ensures after { out.new ≡ (if is_ok result then justified width n ++ drop width out.old else out.old) }
{
    if width > out.len() || digit_count(n) > width {
        return Err(Unfit);
    }
    put_digits(&mut out[..width], n);
    Ok(())
}
