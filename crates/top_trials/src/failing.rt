//! Cases `failing`: runs in which one call on the outside fails.
//!
//! The shared parts give the calls of a run, in order: `@load LINE NAME`, `@save LINE NAME`, `@take
//! LINE`, `@out LINE`, `@err LINE`, with the line of the command, and below it the bytes that are
//! saved, taken or written. A case `failing WORD|WORD|..` runs the program anew for each of these
//! calls, which fails after none, half and all of its bytes. It counts the runs that end as they
//! should: with Fault, a last line that says what failed, what the calls before wrote, and the
//! bytes of the failed call that passed. For any other run it prints both ends.

use crate::calls::{call, put_changed, put_told};
use crate::outside::Outside;
use crate::parts::Part;
use crate::shown::put_text;
use sis_outside::{Sink, Source, Store};
use sis_top::Status;
use std::alloc::Global;
use trial_cases::{CaseFault, put_line, put_number};

/// The object of the call that a part describes; the empty word if it describes none.
fn object_of(part: &Part<'_>) -> &'static str {
    match part.word(0) {
        "load" | "save" => "store",
        "take" => "input",
        "out" => "out",
        "err" => "err",
        _ => "",
    }
}

/// What the last line says of an object that failed.
fn failure_text(object: &str) -> &'static str {
    match object {
        "store" => "store failed",
        "input" => "input failed",
        _ => "output failed",
    }
}

/// How many of some calls are on an object.
fn calls_on(parts: &[Part<'_>], object: &str) -> usize {
    let mut count = 0usize;
    for part in parts {
        if object_of(part) == object {
            count = count.saturating_add(1);
        }
    }
    count
}

/// Makes the call that a part describes, whatever it answers.
fn make_call(alloc: Global, outside: &mut Outside, part: &Part<'_>) -> Result<(), CaseFault> {
    let bytes = part.text(alloc)?;
    match part.word(0) {
        "load" => {
            let _loaded = outside.store.load(alloc, part.word(2), bytes.len());
        }
        "save" => {
            let _saved = outside.store.save(part.word(2), bytes.as_slice());
        }
        "take" => {
            let _taken = outside.input.take(alloc, usize::MAX);
        }
        "out" => {
            let _done = outside.out.put(bytes.as_slice());
        }
        "err" => {
            let _done = outside.err.put(bytes.as_slice());
        }
        _ => {}
    }
    Ok(())
}

/// A run whose last call fails: the words of its case, the parts, and the calls.
#[derive(Clone, Copy)]
struct Run<'h, 'p, 'q> {
    head: &'h str,
    parts: &'p [Part<'q>],
    before: &'p [Part<'q>],
    last: &'p Part<'q>,
    passes: usize,
}

impl Run<'_, '_, '_> {
    /// Makes the calls of the run and writes its last line, and returns its status.
    fn play(&self, alloc: Global, outside: &mut Outside) -> Result<Status, CaseFault> {
        for part in self.before {
            make_call(alloc, outside, part)?;
        }
        make_call(alloc, outside, self.last)?;
        let text = failure_text(object_of(self.last));
        let line = format!(in alloc; "sis: line {}: {text}\n", self.last.word(1))?;
        let _done = outside.err.put(line.as_bytes());
        Ok(Status::Fault)
    }

    /// Appends how the run ends over a new outside, as it should or as it does.
    fn put_end_over(
        &self,
        alloc: Global,
        out: &mut Vec<u8>,
        has_to: bool,
        outside: &mut Outside,
    ) -> Result<(), CaseFault> {
        let object = object_of(self.last);
        outside.take_parts(alloc, self.parts)?;
        outside.fail_at(object, calls_on(self.before, object), self.passes)?;
        let status = if has_to {
            self.play(alloc, outside)?
        } else {
            call(alloc, self.head, &[], outside)?
        };
        put_told(alloc, out, status, outside)?;
        put_text(out, "left: ", outside.input.object.left())?;
        put_changed(alloc, out, &outside.store, self.parts)
    }

    /// Appends how the run ends.
    fn put_end(&self, alloc: Global, out: &mut Vec<u8>, has_to: bool) -> Result<(), CaseFault> {
        let mut outside = Outside::new(alloc)?;
        self.put_end_over(alloc, out, has_to, &mut outside)
    }

    /// Whether the run ends as it should; if not, appends both ends.
    fn is_right(&self, alloc: Global, out: &mut Vec<u8>) -> Result<bool, CaseFault> {
        let start = out.len();
        self.put_end(alloc, out, true)?;
        let middle = out.len();
        self.put_end(alloc, out, false)?;
        let same = out.get(start..middle) == out.get(middle..);
        if same {
            out.truncate(start);
        }
        Ok(same)
    }
}

/// The number of bytes of the call of a part.
fn size_of(alloc: Global, part: &Part<'_>) -> Result<usize, CaseFault> {
    let bytes = part.text(alloc)?;
    Ok(bytes.len())
}

/// How many of the three runs whose last call is that of this part end as they should.
fn right_at(
    alloc: Global,
    out: &mut Vec<u8>,
    head: &str,
    parts: &[Part<'_>],
    place: usize,
) -> Result<usize, CaseFault> {
    let last = parts.get(place).ok_or(CaseFault::Bad)?;
    let before = parts.get(..place).unwrap_or(&[]);
    let size = size_of(alloc, last)?;
    let mut count = 0usize;
    for passes in [0, size / 2, size] {
        let run = Run {
            head,
            parts,
            before,
            last,
            passes,
        };
        if run.is_right(alloc, out)? {
            count = count.saturating_add(1);
        }
    }
    Ok(count)
}

/// Appends the answer to a case of failing runs.
pub fn answer(
    alloc: Global,
    out: &mut Vec<u8>,
    head: &str,
    parts: &[Part<'_>],
) -> Result<(), CaseFault> {
    let mut right = 0usize;
    for (place, part) in parts.iter().enumerate() {
        if !object_of(part).is_empty() {
            right = right.saturating_add(right_at(alloc, out, head, parts, place)?);
        }
    }
    put_number(alloc, out, right)?;
    put_line(out, b" runs end as they have to")?;
    Ok(())
}
