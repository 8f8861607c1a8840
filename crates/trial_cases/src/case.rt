//! The cases of an input, and the answers to them.
//!
//! `cases` splits an input at the lines `==` and drops remarks; lines after the last `==` are no
//! case. `answers` lets a `Trial` answer each case in turn. If the lines of a case do not fit its
//! call, its answer is `bad case`, whatever was written of it so far; want of memory ends all.
//! These functions have no contracts: the expected outputs check them.

use crate::fault::CaseFault;
use crate::texts::put_line;
use std::alloc::{AllocError, Global};

/// A case: the words of its first line, that line, and the lines below it.
pub struct Case<'a> {
    pub head: &'a str,
    pub words: Vec<&'a str>,
    pub lines: Vec<&'a str>,
}

// Written by hand, so that dropping a case is one call.
impl<'a> Drop for Case<'a> {
    fn drop(self) {
        let Case {
            head: _head,
            words: _words,
            lines: _lines,
        } = self;
    }
}

impl<'a> Case<'a> {
    /// The word of an index; the empty one if there is none.
    pub fn word(&self, place: usize) -> &'a str {
        self.words.get(place).copied().unwrap_or("")
    }

    /// The line of an index below the first; an empty one if there is none.
    pub fn line(&self, place: usize) -> &'a str {
        self.lines.get(place).copied().unwrap_or("")
    }
}

/// The case of a first line and the lines below it.
fn case_of<'a>(alloc: Global, head: &'a str, below: &[&'a str]) -> Result<Case<'a>, AllocError> {
    let words = head.split_whitespace().collect(alloc)?;
    let lines = below.to_vec(alloc)?;
    Ok(Case { head, words, lines })
}

/// Appends the case of some lines to others; none if there is no line.
fn put_case<'a>(
    alloc: Global,
    found: &mut Vec<Case<'a>>,
    lines: &[&'a str],
) -> Result<(), AllocError> {
    if let Some((head, below)) = lines.split_first() {
        let case = case_of(alloc, head, below)?;
        found.push(case)?;
    }
    Ok(())
}

/// The cases of an input, in order.
pub fn cases(alloc: Global, input: &str) -> Result<Vec<Case<'_>>, AllocError> {
    let mut found = Vec::new(alloc);
    let mut lines = Vec::new(alloc);
    for line in input.lines() {
        if line == "==" {
            put_case(alloc, &mut found, lines.as_slice())?;
            lines.clear();
        } else if !line.starts_with("//") {
            lines.push(line)?;
        }
    }
    Ok(found)
}

/// Appends the first line of a case to other answers, and returns the position at which its answer
/// begins.
pub fn begin_answer(out: &mut Vec<u8>, head: &str) -> Result<usize, AllocError> {
    out.extend_from_slice(b"> ")?;
    put_line(out, head.as_bytes())?;
    Ok(out.len())
}

/// Ends the answer that begins at a position: if the lines of the case do not fit, `bad case`
/// replaces it.
pub fn end_answer(
    out: &mut Vec<u8>,
    start: usize,
    answered: Result<(), CaseFault>,
) -> Result<(), AllocError> {
    match answered {
        Ok(()) => Ok(()),
        Err(CaseFault::Bad) => {
            out.truncate(start);
            put_line(out, b"bad case")
        }
        Err(CaseFault::Memory) => Err(AllocError),
    }
}

/// A program that answers cases.
pub trait Trial {
    /// Appends the answer to a case to a text.
    fn answer(alloc: Global, out: &mut Vec<u8>, case: &Case<'_>) -> Result<(), CaseFault>;
}

/// The answers to the cases of an input.
pub fn answers<T: Trial>(alloc: Global, input: &str) -> Result<Vec<u8>, AllocError> {
    let mut out = Vec::new(alloc);
    for case in &cases(alloc, input)? {
        let start = begin_answer(&mut out, case.head)?;
        let answered = T::answer(alloc, &mut out, case);
        end_answer(&mut out, start, answered)?;
    }
    Ok(out)
}
