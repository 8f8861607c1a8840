//! Reads a text as a machine.
//!
//! Source: SIS report (UCB/ERL M92/41), KISS2 tables. The logical lines before the first end are
//! taken one by one into a draft, up to the first with a fault; then the whole is checked. `read`
//! and `read_lines` return exactly the machine or the fault of `read_machine_lines` in
//! `specs/Reader.antt`.
//! Callers rely on the machine being sound; for `read_lines`, if the words of the lines are proper.

ghost use Rattle.std.specs.Prelude.{◌≡◌, [], not, map, length, IfOk};
ghost use Rattle.std.specs.List.{All, take_while};
ghost use Rattle.sis_text.specs.declared.places.Line.{Line};
ghost use Rattle.sis_text.specs.Entries.{entry_at, entries_of};
ghost use Rattle.sis_text.specs.Order.{IsProper, is_plain};
ghost use Rattle.circuit_model.specs.MachineSoundness.{IsSoundMachine};
ghost use Rattle.kiss_format.specs.Keywords.{kind_of, is_end_kind, before_end};
ghost use Rattle.kiss_format.specs.Statements.{said_by};
ghost use Rattle.kiss_format.specs.Steps.{with_said, draft_fault, no_lines, Takes, Ends, Makes};
ghost use Rattle.kiss_format.specs.Reader.{read_all, read_machine_lines, Reads};

use crate::draft::Draft;
use crate::fault::ReadFault;
use crate::keyword::{Keyword, keyword_of};
use crate::statement::statement_of;
use crate::whole::{finish, no_machine};
use circuit_model::Machine;
use sis_base::Whole;
use sis_text::{Line, bytes_at, logical_lines, texts_at};
use std::alloc::Global;

/// Whether a kind is that of an end.
fn is_end_kind(kind: Keyword) -> bool
    ensures { result ≡ is_end_kind kind }
{
    match kind {
        Keyword::End => true,
        _ => false,
    }
}

/// The kind of a logical line of a text.
#[tactic(auto, unfolding(crate::specs::Keywords::kind_of))]
pub fn kind_at(source: &[u8], line: &Line) -> Keyword
    ensures { result ≡ kind_of (entry_at source.now line.now) }
{
    match line.words.as_slice() {
        [] => keyword_of(b"".as_slice()),
        [first, ..] => keyword_of(bytes_at(source, *first)),
    }
}

/// Whether a logical line of a text is an end.
fn is_end(source: &[u8], line: &Line) -> bool
    ensures { result ≡ is_end_kind (kind_of (entry_at source.now line.now)) }
{
    is_end_kind(kind_at(source, line))
}

/// The number of lines before the first end.
fn end_place(source: &[u8], lines: &[Line]) -> usize
    ensures { result ≡ length (take_while (λ (line : Line). not
        (is_end_kind (kind_of (entry_at source.now line)))) lines.now) }
{
    lines
        .iter()
        .take_while(|line| !is_end(source, line))
        .count()
}

/// The lines before the first end.
pub fn before_end<'a>(source: &[u8], lines: &'a [Line]) -> &'a [Line]
    ensures { map (entry_at source.now) result.now ≡ before_end
        (map (entry_at source.now) lines.now) }
{
    &lines[..end_place(source, lines)]
}

/// Reads one logical line of a text.
fn take_line(source: &[u8], line: &Line, draft: &mut Draft, alloc: Global) -> Result<(), ReadFault>
    ensures { Takes result draft.new
        (draft_fault draft.old line.now.number (said_by (entry_at source.now line.now).words))
        (with_said (said_by (entry_at source.now line.now).words) draft.old) }
{
    let words = texts_at(alloc, source, line.words.as_slice())?;
    draft.take(alloc, line.number, statement_of(words.as_slice()))
}

/// Reads the logical lines of a text, up to the first that has a fault.
fn take_lines(
    source: &[u8],
    lines: &[Line],
    draft: &mut Draft,
    alloc: Global,
) -> Result<(), ReadFault>
    requires { draft.old ≡ no_lines }
    ensures { Ends result draft.new (read_all (map (entry_at source.now) lines.now)) }
{
    for line in lines {
        take_line(source, line, draft, alloc)?;
    }
    Ok(())
}

/// Sets a machine to the one that the lines of a text before the first end describe. After an error
/// the machine has no meaning.
#[tactic(auto, unfolding(crate::specs::Reader::read_machine_lines))]
fn take_all(
    source: &[u8],
    lines: &[Line],
    draft: &mut Draft,
    machine: &mut Machine,
    alloc: Global,
) -> Result<(), ReadFault>
    requires { draft.old ≡ no_lines }
    ensures { Makes result machine.new (read_machine_lines (map (entry_at source.now) lines.now)) }
{
    take_lines(source, before_end(source, lines), draft, alloc)?;
    finish(alloc, draft, machine)
}

/// Reads the lines of a text before the first end.
fn read_by_lines(alloc: Global, source: &[u8], lines: &[Line]) -> Result<Machine, ReadFault>
    ensures { Reads result (read_machine_lines (map (entry_at source.now) lines.now)) }
{
    // Each is wrapped in a `Whole`, so that dropping it is one call.
    let mut draft = Whole {
        it: Draft::new(alloc),
    };
    let mut machine = Whole {
        it: no_machine(alloc),
    };
    take_all(source, lines, &mut draft.it, &mut machine.it, alloc)?;
    Ok(machine.into_it())
}

/// Reads logical lines of a text as a machine. An error is the first fault of a line, in file
/// order, otherwise the first of the whole; or want of memory. What is read from lines of words is
/// sound.
pub fn read_lines(alloc: Global, bytes: &[u8], lines: &[Line]) -> Result<Machine, ReadFault>
    ensures value { Reads result (read_machine_lines (map (entry_at bytes.now) lines.now)) }
    ensures sound { All (IsProper is_plain) (map (entry_at bytes.now) lines.now) → IfOk result
        (λ machine. IsSoundMachine machine) }
{
    read_by_lines(alloc, bytes, lines)
}

/// Reads a text as a machine. An error is the first fault of a line, in file order, otherwise the
/// first of the whole; or want of memory. What is read is sound.
pub fn read(alloc: Global, bytes: &[u8]) -> Result<Machine, ReadFault>
    ensures value { Reads result (read_machine_lines (entries_of bytes.now)) }
    ensures sound { IfOk result (λ machine. IsSoundMachine machine) }
{
    let lines = logical_lines(alloc, bytes)?;
    read_lines(alloc, bytes, lines.as_slice())
}
