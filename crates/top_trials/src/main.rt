//! Answers cases about calls of the whole program over files, an input and outputs in memory.
//!
//! A case `call WORD|WORD|..` is a call of the program on these words, as trial_cases writes texts;
//! lines directly below it belong to the last word. Parts follow, each with a line that begins with
//! `@` and the lines of a text: `@file NAME`, `@input` or, for pieces of at most so many bytes,
//! `@input MOST`, and without a text `@fail OBJECT CALL PASSES` and `@want OBJECT CALL`: the call
//! of this number, counted from 0, of `store`, `input`, `out` or `err` fails after so many bytes,
//! or wants memory. The input comes before its failures. A line `%HH HH ..` of a text is the bytes
//! of these hexadecimal numbers. A case `files` has parts for all cases after it, up to the next
//! `files`, and no answer.
//!
//! The answer has the status and its number, the lines written on the output after `out: ` and on
//! the error output after `err: `, those of each file that the call saved after its name, and the
//! name of any other file that changed. A `\` marks a text that ends without a line end. A case
//! `failing` is a series of calls in each of which one call on the outside fails (`failing`). A
//! case `recorded` is a call over objects that record their calls, and prints their lists; a case
//! `sure` is one over objects that never fail, a case `endless` one over an input without an end. A
//! case `session` is calls on a session by itself, a case `laws` calls the laws. What is in `stdin`
//! and `stdout` is worked out by hand from the definitions.
#![tactic(auto)]

mod calls;
mod failing;
mod law_calls;
mod others;
mod outside;
mod parts;
mod sessions;
mod shown;
mod wanting;

use parts::{Part, parts};
use std::alloc::{AllocError, Global};
use std::io;
use std::io::{Read, Write};
use trial_cases::{Case, CaseFault, begin_answer, cases, end_answer};

/// Appends the answer to a case, with the parts that all calls share.
fn answer(
    alloc: Global,
    out: &mut Vec<u8>,
    case: &Case<'_>,
    shared: &[Part<'_>],
) -> Result<(), CaseFault> {
    match case.word(0) {
        "call" => calls::answer(alloc, out, case, shared),
        "failing" => failing::answer(alloc, out, case.head, shared),
        "recorded" => calls::put_recorded(alloc, out),
        "sure" => others::put_sure(alloc, out),
        "endless" => others::put_endless(alloc, out),
        "session" => sessions::answer(alloc, out, case, shared),
        "laws" => law_calls::answer(out),
        _ => Err(CaseFault::Bad),
    }
}

/// Appends a case and its answer.
fn put_case(
    alloc: Global,
    out: &mut Vec<u8>,
    case: &Case<'_>,
    shared: &[Part<'_>],
) -> Result<(), AllocError> {
    let start = begin_answer(out, case.head)?;
    let answered = answer(alloc, out, case, shared);
    end_answer(out, start, answered)
}

/// The answers to the cases of an input.
fn answers(alloc: Global, input: &str) -> Result<Vec<u8>, AllocError> {
    let mut out = Vec::new(alloc);
    let mut shared = Vec::new(alloc);
    for case in &cases(alloc, input)? {
        if case.word(0) == "files" {
            shared = parts(alloc, case.lines.as_slice())?;
        } else {
            put_case(alloc, &mut out, case, shared.as_slice())?;
        }
    }
    Ok(out)
}

fn main(rt: HostRuntime) -> io::Result<()> {
    let mut input = String::new(rt.alloc());
    rt.stdin().read_to_string(&mut input)?;
    let out = answers(rt.alloc(), input.as_str())?;
    rt.stdout().write_all(out.as_slice())
}
