//! Bytes in hexadecimal, through buffers that are used again.

use std::io::{self, BufRead, Write};
use thiserror::Error;

/// Why a line isn't taken.
#[derive(Clone, Copy, Debug, PartialEq, Eq, Error)]
pub enum LineErr {
    /// No space is between a key and a value.
    #[error("no space")]
    NoSpace,
    /// What should be bytes is not an even number of hexadecimal digits.
    #[error("not hexadecimal")]
    NotHexadecimal,
    /// The row can't come next in a table.
    #[error("a key over 64 bytes, or not above the one before it")]
    NotNext,
    /// Writing the table failed.
    #[error("writing the table failed")]
    WriteFault,
    /// Out of memory.
    #[error("out of memory")]
    NoMemory,
}

/// Reads the next line into `line`, without its line feed. False is the end of the input.
pub fn next_line<R: BufRead>(reader: &mut R, line: &mut Vec<u8>) -> io::Result<bool> {
    line.clear();
    if reader.read_until(b'\n', line)? == 0 {
        return Ok(false);
    }
    if line.last() == Some(&b'\n') {
        line.truncate(line.len() - 1);
    }
    Ok(true)
}

// Which digit comes next can't be predicted, so neither of these branches on it.

/// Whether this is a hexadecimal digit.
fn is_digit(letter: u8) -> bool {
    (letter.wrapping_sub(b'0') < 10) | ((letter | 32).wrapping_sub(b'a') < 6)
}

/// The value of a hexadecimal digit.
fn value_of(digit: u8) -> u8 {
    ((digit & 15) + 9 * (digit >> 6)) & 15
}

/// Makes `bytes` what `text` spells in hexadecimal.
pub fn decode(text: &[u8], bytes: &mut Vec<u8>) -> Result<(), LineErr> {
    let mut spelled = text.len() % 2 == 0;
    for letter in text {
        spelled &= is_digit(*letter);
    }
    if !spelled {
        return Err(LineErr::NotHexadecimal);
    }
    bytes.clear();
    if bytes.reserve(text.len() / 2).is_err() {
        return Err(LineErr::NoMemory);
    }
    for pair in text.chunks_exact(2) {
        if let [high, low] = pair {
            if bytes.push((value_of(*high) << 4) | value_of(*low)).is_err() {
                return Err(LineErr::NoMemory);
            }
        }
    }
    Ok(())
}

/// Writes `bytes` in hexadecimal, by way of `text`.
pub fn put<W: Write>(out: &mut W, bytes: &[u8], text: &mut Vec<u8>) -> io::Result<()> {
    text.resize(2 * bytes.len(), 0)?;
    if hex::encode_to_slice(bytes, text.as_mut_slice()).is_err() {
        return Err(io::ErrorKind::Other.into());
    }
    out.write_all(text.as_slice())
}
