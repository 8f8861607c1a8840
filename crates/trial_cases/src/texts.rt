//! Texts as a case writes them, and the lines of an answer. The escapes are those of the head of
//! the crate.

use crate::fault::CaseFault;
use std::alloc::{AllocError, Global};
use std::fmt::Debug;

/// The byte that an escape denotes, by the character after the `\`.
fn escaped(byte: u8) -> u8 {
    match byte {
        b'n' => b'\n',
        b'r' => b'\r',
        b't' => b'\t',
        b's' => b' ',
        b'i' => 0,
        _ => byte,
    }
}

/// The bytes of a text with escapes.
pub fn unescaped(alloc: Global, text: &str) -> Result<Vec<u8>, AllocError> {
    let mut bytes = Vec::new(alloc);
    let mut behind = false;
    for byte in text.as_bytes() {
        if behind {
            bytes.push(escaped(*byte))?;
            behind = false;
        } else if *byte == b'\\' {
            behind = true;
        } else {
            bytes.push(*byte)?;
        }
    }
    Ok(bytes)
}

/// The number that a word denotes.
pub fn number_of(word: &str) -> Result<usize, CaseFault> {
    word.parse::<usize>().map_err(|_| CaseFault::Bad)
}

/// Appends bytes to a text, with a number in place of each zero byte.
fn put_copy(
    alloc: Global,
    out: &mut Vec<u8>,
    bytes: &[u8],
    number: usize,
) -> Result<(), AllocError> {
    for byte in bytes {
        if *byte == 0 {
            put_number(alloc, out, number)?;
        } else {
            out.push(*byte)?;
        }
    }
    Ok(())
}

/// Appends the bytes of a line `COUNT REST` to a text.
fn put_times(alloc: Global, out: &mut Vec<u8>, line: &str) -> Result<(), CaseFault> {
    let (count, rest) = line.split_once(' ').ok_or(CaseFault::Bad)?;
    let part = unescaped(alloc, rest)?;
    for number in 0..number_of(count)? {
        put_copy(alloc, out, part.as_slice(), number)?;
    }
    Ok(())
}

/// The text of some lines.
pub fn text_of(alloc: Global, lines: &[&str]) -> Result<Vec<u8>, CaseFault> {
    let mut text = Vec::new(alloc);
    for line in lines {
        match line.strip_prefix("*") {
            Some(repeated) => put_times(alloc, &mut text, repeated)?,
            None => text.extend_from_slice(unescaped(alloc, line)?.as_slice())?,
        }
    }
    Ok(text)
}

/// Appends a line to a text.
pub fn put_line(out: &mut Vec<u8>, line: &[u8]) -> Result<(), AllocError> {
    out.extend_from_slice(line)?;
    out.push(b'\n')?;
    Ok(())
}

/// Appends a number to a text.
pub fn put_number(alloc: Global, out: &mut Vec<u8>, number: usize) -> Result<(), AllocError> {
    out.extend_from_slice(format!(in alloc; "{number}")?.as_bytes())
}

/// Appends the debug form of a value to a text, as a line.
pub fn put_shown<T: Debug>(alloc: Global, out: &mut Vec<u8>, value: &T) -> Result<(), AllocError> {
    put_line(out, format!(in alloc; "{value:?}")?.as_bytes())
}
