//! Cases of sis_text and sis_script: lines, words, numbers and scripts, each line as its number, a
//! colon and its words.

use crate::puts::{put_text, put_value};
use line_words::put_word;
use sis_script::commands;
use sis_text::{Decimal, Line, bytes_at, logical_lines, script_pieces, texts_at, words};
use std::alloc::Global;
use trial_cases::{Case, CaseFault, put_number};

/// Appends the answer to a case of sis_text or sis_script.
pub fn answer(
    alloc: Global,
    out: &mut Vec<u8>,
    case: &Case<'_>,
    text: &[u8],
) -> Result<(), CaseFault> {
    match case.word(1) {
        "logical_lines" => put_lines(alloc, out, text, logical_lines(alloc, text)?.as_slice()),
        "script_pieces" => put_lines(alloc, out, text, script_pieces(alloc, text)?.as_slice()),
        "words" => put_value(alloc, out, &words(alloc, text)?),
        "decimal" => put_decimal(alloc, out, text),
        "commands" => put_value(alloc, out, &commands(alloc, text)?),
        _ => Err(CaseFault::Bad),
    }
}

/// Appends lines, each as its number, a colon, and its words with a blank before each.
fn put_lines(
    alloc: Global,
    out: &mut Vec<u8>,
    text: &[u8],
    lines: &[Line],
) -> Result<(), CaseFault> {
    for line in lines {
        put_number(alloc, out, line.number)?;
        out.push(b':')?;
        for word in texts_at(alloc, text, line.words.as_slice())?.as_slice() {
            put_word(out, word)?;
        }
        put_text(out, b"")?;
    }
    Ok(())
}

/// Appends the number that the first word of a text denotes; `none` if it denotes none.
fn put_decimal(alloc: Global, out: &mut Vec<u8>, text: &[u8]) -> Result<(), CaseFault> {
    let found = words(alloc, text)?;
    let first = match found.as_slice() {
        [] => b"".as_slice(),
        [span, ..] => bytes_at(text, *span),
    };
    match Decimal::parse(first) {
        None => put_text(out, b"none"),
        Some(number) => put_text(out, number.print(alloc)?.as_slice()),
    }
}
