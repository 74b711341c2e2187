//! Bytes as text: what the escapes of a case file stand for, and how bytes are shown.

use crate::case::Wrong;
use std::alloc::{AllocError, Global};

/// Appends the bytes of a text with escapes. `\=` stands for `with`, and `\#` and `\+` for the count and the number behind it.
pub fn put_bytes(text: &str, with: &[u8], count: u64, out: &mut Vec<u8>) -> Result<(), Wrong> {
    let mut rest = text.as_bytes();
    for _ in 0..text.len() {
        rest = match rest {
            [] => return Ok(()),
            [b'\\', behind @ ..] => put_escape(behind, with, count, out)?,
            [byte, behind @ ..] => {
                out.push(*byte)?;
                behind
            }
        };
    }
    Ok(())
}

/// Appends what the escape in front stands for, and answers what is behind it.
fn put_escape<'a>(
    text: &'a [u8],
    with: &[u8],
    count: u64,
    out: &mut Vec<u8>,
) -> Result<&'a [u8], Wrong> {
    match text {
        [b'x', high, low, rest @ ..] => {
            let high = digit_of(*high)?;
            out.push(high.wrapping_mul(16) | digit_of(*low)?)?;
            Ok(rest)
        }
        [letter, rest @ ..] => {
            put_letter(*letter, with, count, out)?;
            Ok(rest)
        }
        [] => Err(Wrong::Escape),
    }
}

fn put_letter(letter: u8, with: &[u8], count: u64, out: &mut Vec<u8>) -> Result<(), Wrong> {
    match letter {
        b'\\' => out.push(b'\\')?,
        b'n' => out.push(b'\n')?,
        b'r' => out.push(b'\r')?,
        b't' => out.push(b'\t')?,
        b'e' => {}
        b'=' => out.extend_from_slice(with)?,
        b'#' => put_number(count, out)?,
        b'+' => put_number(count.saturating_add(1), out)?,
        _ => return Err(Wrong::Escape),
    }
    Ok(())
}

fn put_number(number: u64, out: &mut Vec<u8>) -> Result<(), AllocError> {
    let mut buffer = itoa::Buffer::new();
    out.extend_from_slice(buffer.format(number).as_bytes())
}

fn digit_of(byte: u8) -> Result<u8, Wrong> {
    match byte {
        b'0'..=b'9' => Ok(byte - b'0'),
        b'A'..=b'F' => Ok(byte - b'A' + 10),
        _ => Err(Wrong::Escape),
    }
}

/// The lines of bytes, each with its end where it has one.
pub fn lines_of(alloc: Global, bytes: &[u8]) -> Result<Vec<&[u8]>, AllocError> {
    bytes.split_inclusive(|byte| *byte == b'\n').collect(alloc)
}

/// The texts of the lines of bytes. What is behind the last line end is a line too.
pub fn texts_of(alloc: Global, bytes: &[u8]) -> Result<Vec<&[u8]>, AllocError> {
    bytes.split(|byte| *byte == b'\n').collect(alloc)
}

/// Appends bytes in lines as a case file has them: `|` before a line, and `+` before what has no line end behind it.
pub fn show_lines(alloc: Global, bytes: &[u8], out: &mut String) -> Result<(), AllocError> {
    for line in lines_of(alloc, bytes)? {
        match line {
            [text @ .., b'\n'] => show_line("|", text, out)?,
            _ => show_line("+", line, out)?,
        }
    }
    Ok(())
}

/// Appends the bytes of a line.
pub fn show_line(mark: &str, text: &[u8], out: &mut String) -> Result<(), AllocError> {
    out.push_str(mark)?;
    show_bytes(text, out)?;
    out.push_str("\n")
}

/// Appends bytes, with escapes for those that are no signs of ASCII.
pub fn show_bytes(bytes: &[u8], out: &mut String) -> Result<(), AllocError> {
    for byte in bytes {
        let byte = *byte;
        match byte {
            b'\\' => out.push_str("\\\\")?,
            b'\n' => out.push_str("\\n")?,
            b'\r' => out.push_str("\\r")?,
            b'\t' => out.push_str("\\t")?,
            b' '..=b'~' => out.push(char::from(byte))?,
            _ => write!(out, "\\x{byte:02X}")?,
        }
    }
    Ok(())
}
