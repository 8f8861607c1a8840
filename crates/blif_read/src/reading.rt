//! Reads a text as a circuit or as a machine: splits it into logical lines, reads those of the
//! models, and for the head of a machine those of the KISS2 part (`specs/Reader.antt`).

ghost use Rattle.std.specs.Prelude.{◌≡◌, map, option_copied, IfOk};
ghost use Rattle.sis_text.specs.Entries.{entry_at, entries_of};
ghost use Rattle.blif_lines.specs.Libraries.{IsSoundLibrary};
ghost use Rattle.blif_read.specs.Limits.{IsSoundSpec, IsSmallSpec, HasShortSpec};
ghost use Rattle.blif_models.specs.Reader.{read_models};
ghost use Rattle.blif_read.specs.Reader.{spec_with, read_lines, Reads};

use crate::machine::read_machine;
use crate::parts::{lines_before_end, part_last};
use blif_lines::{Content, ReadFault};
use circuit_model::Spec;
use genlib_format::Library;
use sis_text::{Line, logical_lines};
use std::alloc::Global;

/// Reads the lines of the models of a file, and for the head of a machine those of its KISS2 part.
/// An error is the first fault, or want of memory.
fn read_runs(
    alloc: Global,
    source: &[u8],
    models: &[Line],
    part: &[Line],
    library: Option<&Library>,
) -> Result<Spec, ReadFault>
    ensures { Reads result (spec_with (map (entry_at source.now) part.now)
        (read_models (option_copied library.entry) (map (entry_at source.now) models.now))) }
{
    match blif_models::read_lines(alloc, source, models, library) {
        Ok(Content::Circuit(circuit)) => Ok(Spec::Circuit(circuit)),
        Ok(Content::Head(head)) => read_machine(alloc, head, source, part),
        Err(fault) => Err(fault),
    }
}

/// Reads the logical lines of a text. An error is the first fault, or want of memory.
fn read_lines(
    alloc: Global,
    source: &[u8],
    lines: &mut [Line],
    library: Option<&Library>,
) -> Result<Spec, ReadFault>
    ensures { Reads result (read_lines (option_copied library.entry)
        (map (entry_at source.now) lines.old)) }
{
    let beside = part_last(source, lines);
    let (models, behind) = lines.split_at(beside);
    read_runs(
        alloc,
        source,
        models,
        lines_before_end(source, behind),
        library,
    )
}

/// Reads a text. An error is the first fault, or want of memory.
fn read_text(alloc: Global, bytes: &[u8], library: Option<&Library>) -> Result<Spec, ReadFault>
    ensures { Reads result (read_lines (option_copied library.entry) (entries_of bytes.now)) }
{
    let mut lines = logical_lines(alloc, bytes)?.into_vec();
    read_lines(alloc, bytes, lines.as_mut_slice(), library)
}

/// Reads a text as a circuit or as a machine, with a library of gates if there is one. An error is
/// the first fault of a line, in file order, otherwise the first of the models and of the whole,
/// otherwise the first of its KISS2 part; or want of memory.
pub fn read(alloc: Global, bytes: &[u8], library: Option<&Library>) -> Result<Spec, ReadFault>
    ensures reads { Reads result (read_lines (option_copied library.entry) (entries_of bytes.now)) }
    ensures sound { IfOk result IsSoundSpec }
    ensures limits { IsSoundLibrary (option_copied library.entry) → IfOk result IsSmallSpec }
    ensures short { IfOk result HasShortSpec }
{
    read_text(alloc, bytes, library)
}
