//! Bytes that a line of text can't have, by escapes.

use std::alloc::{AllocError, Global};

/// How far an escape has been read.
#[derive(Clone, Copy)]
enum Escape {
    No,
    Begun,
    Hex,
    High(u8),
}

/// The value of a hexadecimal digit, and 0 of any other byte.
fn hex_value(byte: u8) -> u8 {
    match byte {
        b'0'..=b'9' => byte - b'0',
        b'a'..=b'f' => byte - b'a' + 10,
        _ => 0,
    }
}

/// The byte that a letter stands for after a backslash.
fn escaped(letter: u8) -> u8 {
    match letter {
        b't' => b'\t',
        b'n' => b'\n',
        b'r' => b'\r',
        _ => letter,
    }
}

/// The bytes that the line stands for.
pub fn unescaped(alloc: Global, line: &[u8]) -> Result<Vec<u8>, AllocError> {
    let mut bytes = Vec::new(alloc);
    let mut escape = Escape::No;
    for byte in line {
        escape = match (escape, *byte) {
            (Escape::No, b'\\') => Escape::Begun,
            (Escape::Begun, b'x') => Escape::Hex,
            (Escape::Hex, digit) => Escape::High(hex_value(digit)),
            (Escape::No, plain) => {
                bytes.push(plain)?;
                Escape::No
            }
            (Escape::Begun, letter) => {
                bytes.push(escaped(letter))?;
                Escape::No
            }
            (Escape::High(high), digit) => {
                bytes.push(high.wrapping_mul(16).wrapping_add(hex_value(digit)))?;
                Escape::No
            }
        };
    }
    Ok(bytes)
}
