//! The parts of a case, and the texts in them.
//!
//! A part is a line that begins with `@` and the lines below it, up to the next such line; the
//! lines before the first `@` are a part without a word. `put_bytes` gives the bytes of lines: a
//! text of trial_cases, or after a `%` the bytes as hexadecimal numbers. A name or a number that
//! does not fit is a bad case.

use std::alloc::{AllocError, Global};
use trial_cases::{CaseFault, text_of};

/// A part of a case: its first line after the `@`, and the lines below it.
pub struct Part<'a> {
    pub head: &'a str,
    pub lines: Vec<&'a str>,
}

// Written by hand, so that dropping a part is one call.
impl<'a> Drop for Part<'a> {
    fn drop(self) {
        let Part {
            head: _head,
            lines: _lines,
        } = self;
    }
}

impl<'a> Part<'a> {
    /// The word of an index of the first line; the empty one if there is none.
    pub fn word(&self, place: usize) -> &'a str {
        self.head.split_whitespace().nth(place).unwrap_or("")
    }

    /// The text below the first line.
    pub fn text(&self, alloc: Global) -> Result<Vec<u8>, CaseFault> {
        let mut bytes = Vec::new(alloc);
        put_bytes(alloc, &mut bytes, self.lines.as_slice())?;
        Ok(bytes)
    }

    /// The name of a file, which follows the first word.
    pub fn name(&self, alloc: Global) -> Result<String, CaseFault> {
        let (_file, name) = self.head.split_once(' ').ok_or(CaseFault::Bad)?;
        string_of(text_of(alloc, &[name])?)
    }
}

/// The parts of lines: those before the first `@` are a part without a word.
pub fn parts<'a>(alloc: Global, lines: &[&'a str]) -> Result<Vec<Part<'a>>, AllocError> {
    let mut found = Vec::new(alloc);
    let mut head = "";
    let mut start = 0;
    for (place, line) in lines.iter().enumerate() {
        if let Some(next) = line.strip_prefix("@") {
            put_part(
                alloc,
                &mut found,
                head,
                lines.get(start..place).unwrap_or(&[]),
            )?;
            head = next;
            start = place + 1;
        }
    }
    put_part(alloc, &mut found, head, lines.get(start..).unwrap_or(&[]))?;
    Ok(found)
}

/// Appends a part to others.
fn put_part<'a>(
    alloc: Global,
    found: &mut Vec<Part<'a>>,
    head: &'a str,
    below: &[&'a str],
) -> Result<(), AllocError> {
    let lines = below.to_vec(alloc)?;
    found.push(Part { head, lines })?;
    Ok(())
}

/// Appends the bytes of lines, each of which is a text, or after a `%` its bytes as numbers.
pub fn put_bytes(alloc: Global, bytes: &mut Vec<u8>, lines: &[&str]) -> Result<(), CaseFault> {
    for line in lines {
        match line.strip_prefix("%") {
            None => put_text_of(alloc, bytes, line)?,
            Some(numbers) => put_numbers(bytes, numbers)?,
        }
    }
    Ok(())
}

/// Appends the bytes of a line that is a text.
fn put_text_of(alloc: Global, bytes: &mut Vec<u8>, line: &str) -> Result<(), CaseFault> {
    let text = text_of(alloc, &[line])?;
    bytes.extend_from_slice(text.as_slice())?;
    Ok(())
}

/// Appends the bytes of hexadecimal numbers.
fn put_numbers(bytes: &mut Vec<u8>, numbers: &str) -> Result<(), CaseFault> {
    for number in numbers.split_whitespace() {
        let byte = u8::from_str_radix(number, 16).map_err(|_| CaseFault::Bad)?;
        bytes.push(byte)?;
    }
    Ok(())
}

/// Bytes as a string.
pub fn string_of(bytes: Vec<u8>) -> Result<String, CaseFault> {
    match String::from_utf8(bytes) {
        Ok(text) => Ok(text),
        Err(_) => Err(CaseFault::Bad),
    }
}
