//! Cases `session`: calls on a session by itself, which no command of a script makes.
//!
//! A line of a case is `read TEXT`, `stats`, `undo`, `load NAME`, `error LINE TEXT` or
//! `long_script`, up to the first part. The calls of a case share one session and one store; the
//! answer has a line or a text for each call. Any other line is a bad case.

use crate::outside::Outside;
use crate::parts::{Part, parts};
use crate::wanting::TrialStore;
use blif_read::{BlifFault, ReadFault};
use sis_base::Whole;
use sis_session::{Refusal, Session, Stats, StepFault, error_text, load, refusal_text};
use sis_text::Word;
use std::alloc::{AllocError, Global};
use trial_cases::{Case, CaseFault, number_of, put_line, unescaped};

/// Appends the answer to a case of a session.
pub fn answer(
    alloc: Global,
    out: &mut Vec<u8>,
    case: &Case<'_>,
    shared: &[Part<'_>],
) -> Result<(), CaseFault> {
    let mut outside = Outside::new(alloc)?;
    let own = parts(alloc, case.lines.as_slice())?;
    take_both(alloc, &mut outside, shared, own.as_slice())?;
    put_calls(alloc, out, case.lines.as_slice(), &mut outside.store)
}

/// Does what the parts of all cases say, and then those of one.
fn take_both(
    alloc: Global,
    outside: &mut Outside,
    shared: &[Part<'_>],
    own: &[Part<'_>],
) -> Result<(), CaseFault> {
    outside.take_parts(alloc, shared)?;
    outside.take_parts(alloc, own)
}

/// Appends the answers to the calls of lines, up to the first part.
fn put_calls(
    alloc: Global,
    out: &mut Vec<u8>,
    lines: &[&str],
    store: &mut TrialStore,
) -> Result<(), CaseFault> {
    // Wrapped in a `Whole`, so that dropping the session is one call.
    let mut session = Whole { it: Session::new() };
    for line in lines {
        if line.starts_with("@") {
            break;
        }
        put_call(alloc, out, &mut session.it, store, line)?;
    }
    Ok(())
}

/// Appends the answer to the call of a line.
fn put_call(
    alloc: Global,
    out: &mut Vec<u8>,
    session: &mut Session,
    store: &mut TrialStore,
    line: &str,
) -> Result<(), CaseFault> {
    let (word, rest) = line.split_once(' ').unwrap_or((line, ""));
    match word {
        "read" => put_read(alloc, out, session, rest),
        "stats" => put_stats(alloc, out, session.stats()),
        "undo" => put_undo(out, session.undo()),
        "load" => put_load(alloc, out, store, rest),
        "error" => put_error(alloc, out, rest),
        "long_script" => put_refusal(alloc, out, 0, &Refusal::LongScript),
        _ => Err(CaseFault::Bad),
    }
}

/// Appends whether there was something to undo.
fn put_undo(out: &mut Vec<u8>, undone: bool) -> Result<(), CaseFault> {
    put_line(out, if undone { b"true".as_slice() } else { b"false" })?;
    Ok(())
}

/// Appends the numbers of a network, or that there is none.
fn put_stats(alloc: Global, out: &mut Vec<u8>, stats: Option<Stats>) -> Result<(), CaseFault> {
    match stats {
        None => put_line(out, b"no network")?,
        Some(stats) => put_sizes(alloc, out, &stats)?,
    }
    Ok(())
}

/// Appends the numbers of a network.
fn put_sizes(alloc: Global, out: &mut Vec<u8>, stats: &Stats) -> Result<(), AllocError> {
    let sizes = stats.sizes;
    let line = format!(in alloc;
        "inputs {}, outputs {}, tables {}, latches {}, literals {}, don't-cares {}",
        sizes.inputs, sizes.outputs, sizes.tables, sizes.latches, stats.lits, sizes.dont_cares
    )?;
    put_line(out, line.as_bytes())
}

/// Appends the line of an error that is given with a number.
fn put_error(alloc: Global, out: &mut Vec<u8>, rest: &str) -> Result<(), CaseFault> {
    let (number, text) = rest.split_once(' ').ok_or(CaseFault::Bad)?;
    put_fault(alloc, out, number_of(number)?, text)
}

/// Appends the line of an error.
fn put_fault(alloc: Global, out: &mut Vec<u8>, line: usize, text: &str) -> Result<(), CaseFault> {
    let told = error_text(alloc, line, text)?;
    out.extend_from_slice(told.as_slice())?;
    Ok(())
}

/// Appends the line of a refusal.
fn put_refusal(
    alloc: Global,
    out: &mut Vec<u8>,
    line: usize,
    refusal: &Refusal,
) -> Result<(), CaseFault> {
    let told = refusal_text(alloc, line, refusal)?;
    out.extend_from_slice(told.as_slice())?;
    Ok(())
}

/// Reads a text into a session, and appends how that ended.
fn put_read(
    alloc: Global,
    out: &mut Vec<u8>,
    session: &mut Session,
    text: &str,
) -> Result<(), CaseFault> {
    let bytes = unescaped(alloc, text)?;
    match session.read(alloc, bytes.as_slice()) {
        Ok(()) => put_done(out),
        Err(ReadFault::Fault(fault)) => put_bad_file(alloc, out, fault),
        Err(ReadFault::Memory) => Err(CaseFault::Memory),
    }
}

/// Appends that a text was read.
fn put_done(out: &mut Vec<u8>) -> Result<(), CaseFault> {
    put_line(out, b"read")?;
    Ok(())
}

/// Appends what is wrong with a text.
fn put_bad_file(alloc: Global, out: &mut Vec<u8>, fault: BlifFault) -> Result<(), CaseFault> {
    let refusal = Refusal::Blif(Word::new(alloc, "text")?, fault);
    put_refusal(alloc, out, 1, &refusal)
}

/// Appends the bytes of a file, or a line with the reason why it has none.
fn put_load(
    alloc: Global,
    out: &mut Vec<u8>,
    store: &mut TrialStore,
    name: &str,
) -> Result<(), CaseFault> {
    match load(alloc, name, store) {
        Ok(bytes) => put_text(out, bytes.as_slice()),
        Err(StepFault::Refused(refusal)) => put_refusal(alloc, out, 1, &refusal),
        Err(StepFault::StoreFault) => put_fault(alloc, out, 1, "store failed"),
        Err(StepFault::SinkFault) => Err(CaseFault::Bad),
        Err(StepFault::Memory) => Err(CaseFault::Memory),
    }
}

/// Appends a text as it is.
fn put_text(out: &mut Vec<u8>, text: &[u8]) -> Result<(), CaseFault> {
    out.extend_from_slice(text)?;
    Ok(())
}
