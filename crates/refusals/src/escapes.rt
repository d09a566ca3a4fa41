// Texts as the table writes them: on one line, with escapes.
use super::errors::NoCase;
use std::alloc::{AllocError, Global};

// The value of a digit. (`char::to_digit` takes small letters too.)
fn digit(byte: u8) -> Result<u8, NoCase> {
    match byte {
        b'0'..=b'9' => Ok(byte - b'0'),
        b'A'..=b'F' => Ok(byte - b'A' + 10),
        _ => Err(NoCase::Form),
    }
}

// The number that two digits write in this base.
fn two_digits(high: u8, low: u8, base: u8) -> Result<u8, NoCase> {
    let (high, low) = (digit(high)?, digit(low)?);
    base.checked_mul(high)
        .and_then(|high| high.checked_add(low))
        .ok_or(NoCase::Form)
}

// The byte that a mark after a backslash stands for.
fn control(mark: u8) -> Result<u8, NoCase> {
    match mark {
        b'n' => Ok(b'\n'),
        b'r' => Ok(b'\r'),
        b't' => Ok(b'\t'),
        b'0' => Ok(0),
        _ => Err(NoCase::Form),
    }
}

// The last line, with its end byte if it has one.
fn last_line(text: &[u8]) -> &[u8] {
    text.split_inclusive(|byte| *byte == b'\n')
        .last()
        .unwrap_or(&[])
}

// Repeats the last line, so that it stands there `times` times.
fn repeat_line(heap: Global, text: &mut Vec<u8>, times: u8) -> Result<(), AllocError> {
    let line = last_line(text.as_slice()).to_vec(heap)?;
    for _ in 1..times {
        text.extend_from_slice(line.as_slice())?;
    }
    Ok(())
}

// Puts what stands after a backslash: an escape, and then plain bytes.
fn put_escape(heap: Global, text: &mut Vec<u8>, piece: &[u8]) -> Result<(), NoCase> {
    let plain = match piece {
        [b'x', high, low, plain @ ..] => {
            text.push(two_digits(*high, *low, 16)?)?;
            plain
        }
        [b'*', tens, units, plain @ ..] => {
            repeat_line(heap, text, two_digits(*tens, *units, 10)?)?;
            plain
        }
        [mark, plain @ ..] => {
            text.push(control(*mark)?)?;
            plain
        }
        [] => return Err(NoCase::Form),
    };
    Ok(text.extend_from_slice(plain)?)
}

// The bytes that an escaped text stands for.
pub fn unescaped(heap: Global, escaped: &str) -> Result<Vec<u8>, NoCase> {
    let mut pieces = escaped.split('\\');
    let mut text = pieces.next().ok_or(NoCase::Form)?.as_bytes().to_vec(heap)?;
    for piece in pieces {
        put_escape(heap, &mut text, piece.as_bytes())?;
    }
    Ok(text)
}
