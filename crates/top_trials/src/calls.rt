//! Cases `call`: calls of the whole program on the words of a case.
//!
//! `answer` builds the outside from the parts that all cases share and from the case's own, runs
//! `run_sis` on the words, and prints the status, both outputs, the files that were saved and the
//! other files that changed. `call` is the run alone, for the other kinds of cases. A case
//! `recorded` is here too: a fixed script over objects that record their calls, with the lists of
//! these calls.

use crate::outside::Outside;
use crate::parts::{Part, parts, put_bytes, string_of};
use crate::shown::{put_file, put_text};
use crate::wanting::{TrialStore, is_among};
use sis_outside::{MemSink, MemSource, MemStore, Recording};
use sis_text::Word;
use sis_top::{Status, run_recorded, run_sis};
use std::alloc::{AllocError, Global};
use trial_cases::{Case, CaseFault, put_line, unescaped};

/// Appends the answer to a case of a call.
pub fn answer(
    alloc: Global,
    out: &mut Vec<u8>,
    case: &Case<'_>,
    shared: &[Part<'_>],
) -> Result<(), CaseFault> {
    let own = parts(alloc, case.lines.as_slice())?;
    put_call(alloc, out, case.head, shared, own.as_slice())
}

/// Appends the answer to a call, with the outside that the parts of all cases and its own describe.
fn put_call(
    alloc: Global,
    out: &mut Vec<u8>,
    head: &str,
    shared: &[Part<'_>],
    own: &[Part<'_>],
) -> Result<(), CaseFault> {
    let mut outside = Outside::new(alloc)?;
    put_call_over(alloc, out, head, &mut outside, shared, own)
}

/// Appends the answer to a call over a new outside.
fn put_call_over(
    alloc: Global,
    out: &mut Vec<u8>,
    head: &str,
    outside: &mut Outside,
    shared: &[Part<'_>],
    own: &[Part<'_>],
) -> Result<(), CaseFault> {
    outside.take_parts(alloc, shared)?;
    outside.take_parts(alloc, own)?;
    let status = call(alloc, head, own, outside)?;
    put_told(alloc, out, status, outside)?;
    put_changed(alloc, out, &outside.store, shared)?;
    put_changed(alloc, out, &outside.store, own)
}

/// Calls the program on the words of a case: those of its first line, the last of them with the
/// lines directly below it.
pub fn call(
    alloc: Global,
    head: &str,
    own: &[Part<'_>],
    outside: &mut Outside,
) -> Result<Status, CaseFault> {
    let mut words = Vec::new(alloc);
    if let Some((_call, line)) = head.split_once(' ') {
        put_words(alloc, &mut words, line, own)?;
    }
    Ok(run(alloc, words.as_slice(), outside))
}

/// Appends the words of a line; the lines directly below belong to the last of them.
fn put_words(
    alloc: Global,
    words: &mut Vec<Word>,
    line: &str,
    own: &[Part<'_>],
) -> Result<(), CaseFault> {
    let last = match line.rsplit_once('|') {
        None => line,
        Some((front, last)) => {
            put_front(alloc, words, front)?;
            last
        }
    };
    let mut bytes = unescaped(alloc, last)?;
    put_below(alloc, &mut bytes, own)?;
    put_word(alloc, words, bytes)
}

/// Appends the words before the last one.
fn put_front(alloc: Global, words: &mut Vec<Word>, front: &str) -> Result<(), CaseFault> {
    for text in front.split('|') {
        let bytes = unescaped(alloc, text)?;
        put_word(alloc, words, bytes)?;
    }
    Ok(())
}

/// Appends the lines directly below the first line to a text.
fn put_below(alloc: Global, text: &mut Vec<u8>, own: &[Part<'_>]) -> Result<(), CaseFault> {
    match own.first() {
        Some(below) => put_bytes(alloc, text, below.lines.as_slice()),
        None => Ok(()),
    }
}

/// Appends the word of some bytes.
fn put_word(alloc: Global, words: &mut Vec<Word>, bytes: Vec<u8>) -> Result<(), CaseFault> {
    let text = string_of(bytes)?;
    words.push(Word::new(alloc, text.as_str())?)?;
    Ok(())
}

/// Runs the program on words.
fn run(alloc: Global, words: &[Word], outside: &mut Outside) -> Status {
    run_sis(
        alloc,
        words,
        &mut outside.store,
        &mut outside.input,
        &mut outside.out,
        &mut outside.err,
    )
}

/// Appends the result of a call: its status, what was written on both outputs, and what was saved.
pub fn put_told(
    alloc: Global,
    out: &mut Vec<u8>,
    status: Status,
    outside: &Outside,
) -> Result<(), AllocError> {
    put_status(alloc, out, status)?;
    put_text(out, "out: ", outside.out.object.written())?;
    put_text(out, "err: ", outside.err.object.written())?;
    for name in &outside.store.saved {
        put_saved(alloc, out, &outside.store, name.as_str())?;
    }
    Ok(())
}

/// Appends a status and its number.
pub fn put_status(alloc: Global, out: &mut Vec<u8>, status: Status) -> Result<(), AllocError> {
    let line = format!(in alloc; "{status:?}, {}", status.code())?;
    put_line(out, line.as_bytes())
}

/// Appends the lines of a file that was saved, after its name.
fn put_saved(
    alloc: Global,
    out: &mut Vec<u8>,
    store: &TrialStore,
    name: &str,
) -> Result<(), AllocError> {
    let mark = format!(in alloc; "{name}: ")?;
    put_file(out, mark.as_str(), store.files.file(name))
}

/// Appends a line for each file of some parts that was not to be saved and changed.
pub fn put_changed(
    alloc: Global,
    out: &mut Vec<u8>,
    store: &TrialStore,
    parts: &[Part<'_>],
) -> Result<(), CaseFault> {
    for part in parts {
        if part.word(0) == "file" {
            put_unless_it_stays(alloc, out, store, part)?;
        }
    }
    Ok(())
}

/// Appends a line for the file of a part, unless it was to be saved, or is unchanged.
fn put_unless_it_stays(
    alloc: Global,
    out: &mut Vec<u8>,
    store: &TrialStore,
    part: &Part<'_>,
) -> Result<(), CaseFault> {
    let name = part.name(alloc)?;
    let text = part.text(alloc)?;
    if is_among(store.saved.as_slice(), name.as_str())
        || store.files.file(name.as_str()) == Some(text.as_slice())
    {
        return Ok(());
    }
    put_change(out, name.as_str())
}

/// Appends the line for a file that changed.
fn put_change(out: &mut Vec<u8>, name: &str) -> Result<(), CaseFault> {
    out.extend_from_slice(b"changed: ")?;
    put_line(out, name.as_bytes())?;
    Ok(())
}

/// Runs a script that sources a file, over objects that record their calls, and appends their
/// lists.
pub fn put_recorded(alloc: Global, out: &mut Vec<u8>) -> Result<(), CaseFault> {
    let mut files = MemStore::new(alloc);
    files.put_file("s", b"echo hi".as_slice())?;
    let script = MemSource::new(alloc, b"source s".as_slice())?;
    let mut store = Recording::new(alloc, files);
    let mut input = Recording::new(alloc, script);
    let mut output = Recording::new(alloc, MemSink::new(alloc));
    let mut errors = Recording::new(alloc, MemSink::new(alloc));
    let status = run_recorded(alloc, &[], &mut store, &mut input, &mut output, &mut errors);
    let first = format!(in alloc;
        "{status:?}\nstore: {:?}\ninput: {:?}",
        store.log, input.log
    )?;
    let second = format!(in alloc; "out: {:?}\nerr: {:?}", output.log, errors.log)?;
    put_line(out, first.as_bytes())?;
    put_line(out, second.as_bytes())?;
    Ok(())
}
