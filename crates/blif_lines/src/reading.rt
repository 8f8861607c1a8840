//! Reads the lines of a model as a circuit, or as the head of a machine.
//!
//! Source: BLIF appendix of the SIS report (UCB/ERL M92/41). Lines are taken one by one into a
//! draft, up to the first with a fault; `finish` then checks the whole, which for a circuit is
//! settled between the checks. `read_lines` does both for lines before and after a KISS2 part: it
//! returns the content or the first fault of `read_lines` in `specs/Reader.antt`, or `Memory`;
//! `reading_laws` says that the content is sound if the words of the lines are words.

ghost use Rattle.std.specs.Prelude.{◌++◌, true, false, map, option_copied};
ghost use Rattle.sis_text.specs.Entries.{entry_at};
ghost use Rattle.blif_lines.specs.Reader.{read_as, read_lines, Reads};
ghost use Rattle.blif_lines.specs.Steps.{take_entry, take_entries, told_of, finished, HasApartTables, Takes};

use crate::content::Content;
use crate::draft::Draft;
use crate::fault::ReadFault;
use crate::file_fault::{head_fault, listed_fault, signals_fault};
use crate::settling::{circuit_of, head_of, settle};
use genlib_format::Library;
use sis_base::Whole;
use sis_text::{Line, texts_at};
use std::alloc::Global;

/// Reads one logical line of a text.
pub fn take_line(
    alloc: Global,
    source: &[u8],
    line: &Line,
    library: Option<&Library>,
    draft: &mut Draft,
) -> Result<(), ReadFault>
    ensures { Takes result draft.new (take_entry (option_copied library.entry) draft.old
        (entry_at source.now line.now)) }
{
    let words = texts_at(alloc, source, line.words.as_slice())?;
    draft.take(alloc, library, line.number, words.as_slice())
}

/// Reads the logical lines of a text, up to the first that has a fault.
pub fn take_lines(
    alloc: Global,
    source: &[u8],
    lines: &[Line],
    library: Option<&Library>,
    draft: &mut Draft,
) -> Result<(), ReadFault>
    ensures { Takes result draft.new (take_entries (option_copied library.entry) draft.old
        (map (entry_at source.now) lines.now)) }
{
    for line in lines {
        take_line(alloc, source, line, library, draft)?;
    }
    Ok(())
}

/// Reads two runs of logical lines, one after the other, up to the first line that has a fault.
fn take_runs(
    alloc: Global,
    source: &[u8],
    front: &[Line],
    back: &[Line],
    library: Option<&Library>,
    draft: &mut Draft,
) -> Result<(), ReadFault>
    ensures { Takes result draft.new (take_entries (option_copied library.entry) draft.old
        (map (entry_at source.now) front.now ++ map (entry_at source.now) back.now)) }
{
    take_lines(alloc, source, front, library, draft)?;
    take_lines(alloc, source, back, library, draft)
}

/// The head of a machine, from the draft after the last line, if no port is listed twice.
fn read_head(alloc: Global, draft: Whole<Draft>) -> Result<Content, ReadFault>
    ensures { Reads result (read_as true (told_of draft.it)) }
{
    if let Some(fault) = head_fault(alloc, &draft.it)? {
        return Err(ReadFault::Fault(fault));
    }
    Ok(Content::Head(head_of(draft.into_it())))
}

/// The circuit of the draft after the last line, if nothing is wrong with the whole.
#[tactic(auto, unfolding(crate::specs::Reader::whole_fault, crate::specs::Reader::signals_fault, crate::specs::Steps::settled, crate::specs::Lines::first_of))]
fn read_circuit(alloc: Global, draft: Whole<Draft>) -> Result<Content, ReadFault>
    requires { HasApartTables (told_of draft.it) }
    ensures { Reads result (read_as false (told_of draft.it)) }
{
    let mut draft = draft;
    if let Some(fault) = listed_fault(alloc, &draft.it)? {
        return Err(ReadFault::Fault(fault));
    }
    settle(alloc, &mut draft.it)?;
    if let Some(fault) = signals_fault(alloc, &draft.it)? {
        return Err(ReadFault::Fault(fault));
    }
    Ok(Content::Circuit(circuit_of(alloc, draft)?))
}

/// What is read of a draft after the last line: its circuit or the head of a machine, if nothing is
/// wrong with the whole.
#[tactic(auto, unfolding(crate::specs::Reader::read_told))]
pub fn finish(alloc: Global, draft: Whole<Draft>) -> Result<Content, ReadFault>
    requires { HasApartTables (told_of draft.it) }
    ensures { Reads result (finished draft.it) }
{
    if draft.it.is_machine() {
        read_head(alloc, draft)
    } else {
        read_circuit(alloc, draft)
    }
}

/// Reads logical lines of a text as a model, in two runs: those before a KISS2 part, and those
/// after it. An error is the first fault of a line, in file order, otherwise the first of the
/// whole; or want of memory.
pub fn read_lines(
    alloc: Global,
    source: &[u8],
    front: &[Line],
    back: &[Line],
    library: Option<&Library>,
) -> Result<Content, ReadFault>
    ensures { Reads result (read_lines (option_copied library.entry)
        (map (entry_at source.now) front.now ++ map (entry_at source.now) back.now)) }
{
    let draft = Draft::new(alloc)?;
    // Wrapped in a `Whole`, so that dropping it is one call.
    let mut draft = Whole { it: draft };
    take_runs(alloc, source, front, back, library, &mut draft.it)?;
    finish(alloc, draft)
}
