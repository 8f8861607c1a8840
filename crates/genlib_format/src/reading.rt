//! Reads a file as a library.
//!
//! Source: the genlib format of SIS (UCB/ERL M92/41). The entries are taken one by one, up to the
//! first with a fault. A second gate of a name must have the same output, pins, area and function
//! as the first, and takes its delays. `read` returns exactly the library or the first fault of
//! `library_of` in `specs/Reader.antt`. Callers rely on the library being sound
//! (`specs/Soundness.antt`).

ghost use Rattle.std.specs.Prelude.{◌≡◌, ◌<◌, ◌&&◌, ◌==◌, None, [], ◌∷◌, ◌++◌, length, bytes_eq, option_copied, IfOk, OnOk};
ghost use Rattle.std.specs.Cmp.Lexicographic.{pointwise};
ghost use Rattle.cover_ops.specs.Shannon.{same};
ghost use Rattle.genlib_expr.specs.Formula.{formula_of};
ghost use Rattle.genlib_expr.specs.Functions.{function_of};
ghost use Rattle.genlib_format.specs.declared.entries.Entry.TheVariants.{Gate as TheGate};
ghost use Rattle.genlib_format.specs.Answers.{Leaves, Reads};
ghost use Rattle.genlib_format.specs.Soundness.{IsSoundGates};
ghost use Rattle.genlib_format.specs.Faults.{first_of};
ghost use Rattle.genlib_format.specs.Reader.{gate_named, is_same_cell, twice_fault, settled, one_too_many, entry_fault, gates_with, read_entries, library_of};

use crate::entries::{Entry, entries_of};
use crate::fault::{LibFault, LimitKind, ReadFault};
use crate::gate::{Gate, gate_of};
use crate::gates::GateLines;
use crate::library::Library;
use crate::words::words_of;
use genlib_expr::agree;
use sis_base::limits::MAX_GATES;
use sis_base::{Copied, Name};
use std::alloc::{AllocError, Global};

/// Whether two lists of names are the same.
fn are_same_names(names: &[Name], others: &[Name]) -> bool
    ensures { result ≡ pointwise bytes_eq names.now others.now }
{
    names == others
}

/// Whether two gates have the same output, pins and area.
fn is_same_frame(gate: &Gate, other: &Gate) -> bool
    ensures { result ≡ (bytes_eq gate.now.output other.now.output && pointwise bytes_eq
        gate.now.pins other.now.pins && gate.now.area.0 == other.now.area.0) }
{
    gate.output == other.output
        && are_same_names(gate.pins.as_slice(), other.pins.as_slice())
        && gate.area.0 == other.area.0
}

/// Whether two gates have the same output, pins, area and function.
#[tactic(auto, unfolding(crate::specs::Reader::is_same_cell))]
fn is_same_cell(alloc: Global, gate: &Gate, other: &Gate) -> Result<bool, AllocError>
    ensures { IfOk result (λ same. same ≡ is_same_cell gate.now other.now) }
{
    if !is_same_frame(gate, other) {
        return Ok(false);
    }
    let same = agree(alloc, gate.pins.len(), &gate.expr, &other.expr)?;
    Ok(same)
}

/// What is wrong with a later gate of a name, given the first.
fn twice_fault(
    alloc: Global,
    first: Option<&Gate>,
    gate: &Gate,
) -> Result<Option<LibFault>, AllocError>
    ensures { IfOk result (λ fault. fault ≡ twice_fault (option_copied first.entry) gate.now) }
{
    let Some(first) = first else {
        return Ok(None);
    };
    if is_same_cell(alloc, first, gate)? {
        return Ok(None);
    }
    Ok(Some(LibFault::GateTwice(gate.cell.copy(alloc)?)))
}

/// A later gate of a name, with the delays of the first.
fn settled(alloc: Global, first: Option<&Gate>, gate: Gate) -> Result<Gate, AllocError>
    ensures { IfOk result (λ made. made ≡ settled (option_copied first.entry) gate) }
{
    let Some(first) = first else {
        return Ok(gate);
    };
    let blocks = first.blocks.copy(alloc)?;
    Ok(Gate {
        cell: gate.cell,
        area: gate.area,
        output: gate.output,
        pins: gate.pins,
        expr: gate.expr,
        blocks,
    })
}

/// The fault of one entry too many, after so many.
fn one_too_many(count: usize) -> Option<LibFault>
    ensures value { result ≡ one_too_many count }
    ensures room { result ≡ None → count < MAX_GATES }
{
    if count >= MAX_GATES {
        return Some(LibFault::Limit(LimitKind::Gates, MAX_GATES + 1));
    }
    None
}

/// What is wrong with a gate after so many entries and those of the library.
#[tactic(auto, unfolding(crate::specs::Faults::first_of))]
fn gate_fault(
    alloc: Global,
    count: usize,
    library: &Library,
    gate: &Gate,
) -> Result<Option<LibFault>, AllocError>
    ensures value { IfOk result (λ fault. fault ≡ first_of
        (twice_fault (gate_named library.now gate.now.cell) gate.now ∷ one_too_many count ∷ [])) }
    ensures room { IfOk result (λ fault. fault ≡ None → count < MAX_GATES) }
{
    if let Some(fault) = twice_fault(alloc, library.gate(&gate.cell), gate)? {
        return Ok(Some(fault));
    }
    Ok(one_too_many(count))
}

/// Adds a gate to a library, with the delays of the first of its name.
fn put_gate(alloc: Global, library: &mut Library, gate: Gate) -> Result<(), AllocError>
    ensures { OnOk result (library.new ≡ library.old ++ settled
        (gate_named library.old gate.cell) gate ∷ []) }
{
    let gate = settled(alloc, library.gate(&gate.cell), gate)?;
    library.push(alloc, gate)
}

/// Reads the entry of a gate after so many entries.
#[tactic(auto, using(crate::proofs::ReadSteps::gate_wrong, crate::proofs::ReadSteps::gate_refused, crate::proofs::ReadSteps::gate_accepted, crate::proofs::ReadSteps::gate_put, std::proofs::lemmas::Grind::common_steps))]
fn take_gate(
    alloc: Global,
    count: usize,
    library: &mut Library,
    lines: GateLines,
) -> Result<(), ReadFault>
    ensures value { Leaves result library.new (entry_fault count library.old (TheGate lines))
        (gates_with library.old (TheGate lines)) }
    ensures room { OnOk result (count < MAX_GATES) }
{
    let gate = gate_of(alloc, lines)?;
    match gate_fault(alloc, count, library, &gate)? {
        Some(fault) => Err(ReadFault::Fault(fault)),
        None => {
            put_gate(alloc, library, gate)?;
            Ok(())
        }
    }
}

/// Reads an entry after so many.
#[tactic(auto, unfolding(crate::specs::Reader::entry_fault, crate::specs::Reader::gates_with))]
fn take_entry(
    alloc: Global,
    count: usize,
    library: &mut Library,
    entry: Entry,
) -> Result<(), ReadFault>
    ensures value { Leaves result library.new (entry_fault count library.old entry)
        (gates_with library.old entry) }
    ensures room { OnOk result (count < MAX_GATES) }
{
    match entry {
        Entry::Gate(lines) => take_gate(alloc, count, library, lines),
        Entry::Latch => match one_too_many(count) {
            None => Ok(()),
            Some(fault) => Err(ReadFault::Fault(fault)),
        },
        Entry::Misshapen(line) => Err(ReadFault::Fault(LibFault::BadEntry(line))),
    }
}

/// Reads entries one by one, up to the first that has a fault.
fn read_entries(alloc: Global, entries: Vec<Entry>) -> Result<Library, ReadFault>
    ensures { Reads result (read_entries 0 [] entries.items) }
{
    let mut library = Library::new(alloc);
    let mut count = 0;
    for entry in entries {
        take_entry(alloc, count, &mut library, entry)?;
        count += 1;
    }
    Ok(library)
}

/// Reads a file entry by entry.
#[tactic(auto, unfolding(crate::specs::Reader::library_of))]
fn read_whole(alloc: Global, bytes: &[u8]) -> Result<Library, ReadFault>
    ensures { Reads result (library_of bytes.now) }
{
    let words = words_of(alloc, bytes)?;
    let entries = entries_of(alloc, words)?;
    read_entries(alloc, entries)
}

/// Reads a file as a library. An error is the first fault in the order of the entries, or want of
/// memory.
pub fn read(alloc: Global, bytes: &[u8]) -> Result<Library, ReadFault>
    ensures reads { Reads result (library_of bytes.now) }
    ensures sound { IfOk result IsSoundGates }
{
    read_whole(alloc, bytes)
}
