//! Checks the lines of the models of a file one by one, in file order.
//!
//! Source: BLIF appendix of the SIS report (UCB/ERL M92/41). Each model is taken into a draft of
//! its own; that a name of a model is used again, and that a KISS2 part begins in a later model, is
//! asked besides. `checked_first` answers the draft of the first model, or the first fault
//! (`file_fault` of `specs/Reader.antt`). It keeps at most one other draft at a time.

ghost use Rattle.std.specs.Prelude.{◌≡◌, ◌≤◌, Ok, [], ◌∷◌, drop, length, slice_index_or, option_copied, IfOk};
ghost use Rattle.sis_text.specs.Entries.{entry_at};
ghost use Rattle.circuit_model.specs.Names.{has};
ghost use Rattle.blif_lines.specs.Keyword.{kind_of};
ghost use Rattle.blif_lines.specs.Lines.{when};
ghost use Rattle.blif_lines.specs.Reader.{model_name};
ghost use Rattle.blif_lines.specs.Steps.{take_entries, no_lines, Takes};
ghost use Rattle.blif_lines.specs.declared.fault.BlifFault.TheVariants as blif_fault;
ghost use Rattle.blif_models.specs.Files.{lines_at};
ghost use Rattle.blif_models.specs.Reader.{later_fault, lines_fault, file_fault};
ghost use Rattle.blif_models.specs.Checking.{names_before, check_entry, check_entries, Checks};

use crate::file::File;
use crate::line_kind::{kind_at, name_on};
use blif_lines::{BlifFault, Draft, Keyword, ReadFault, take_line};
use genlib_format::Library;
use sis_base::Whole;
use sis_text::Line;
use std::alloc::Global;

/// Whether a model before an index has a name.
#[tactic(auto, using(crate::proofs::EarlierModels::earlier_is))]
fn is_earlier(file: &File<'_>, place: usize, name: &[u8]) -> bool
    ensures { result ≡ has (names_before file.now.models place) name.now }
{
    match file.find(name) {
        None => false,
        Some(found) => found < place,
    }
}

/// What is wrong with the name of a model: an earlier one has it.
#[tactic(auto, unfolding(blif_lines::specs::Reader::model_name))]
fn name_fault(file: &File<'_>, place: usize, line: &Line) -> Option<BlifFault>
    ensures { result ≡ when (has (names_before file.now.models place)
        (model_name (entry_at file.now.text line.now ∷ [])))
        (blif_fault.ModelTwice line.now.number) }
{
    if is_earlier(file, place, name_on(file.text(), line)) {
        return Some(BlifFault::ModelTwice(line.number));
    }
    None
}

/// What is wrong with a line of the model at an index besides.
#[tactic(auto, using(crate::proofs::EarlierModels::none_earlier))]
fn later_fault(file: &File<'_>, place: usize, line: &Line) -> Option<BlifFault>
    requires { place ≤ length file.now.models }
    ensures { result ≡ later_fault (names_before file.now.models place)
        (kind_of (entry_at file.now.text line.now)) (entry_at file.now.text line.now) }
{
    match kind_at(file.text(), line) {
        Keyword::Model => name_fault(file, place, line),
        Keyword::StartKiss => {
            if place == 0 {
                return None;
            }
            Some(BlifFault::UnknownWord(line.number))
        }
        _ => None,
    }
}

/// Takes a line of the model at an index, unless something is wrong with it.
#[tactic(auto, unfolding(crate::specs::Checking::check_entry))]
fn check_line(
    alloc: Global,
    file: &File<'_>,
    place: usize,
    line: &Line,
    library: Option<&Library>,
    draft: &mut Draft,
) -> Result<(), ReadFault>
    requires { place ≤ length file.now.models }
    ensures { Takes result draft.new (check_entry (option_copied library.entry)
        (names_before file.now.models place) draft.old (entry_at file.now.text line.now)) }
{
    take_line(alloc, file.text(), line, library, draft)?;
    match later_fault(file, place, line) {
        None => Ok(()),
        Some(fault) => Err(ReadFault::Fault(fault)),
    }
}

/// Takes lines of the model at an index, up to the first with which something is wrong.
fn check_lines(
    alloc: Global,
    file: &File<'_>,
    place: usize,
    lines: &[Line],
    library: Option<&Library>,
    draft: &mut Draft,
) -> Result<(), ReadFault>
    requires { place ≤ length file.now.models }
    ensures { Takes result draft.new (check_entries (option_copied library.entry)
        (names_before file.now.models place) draft.old (lines_at file.now.text lines.now)) }
{
    for line in lines {
        check_line(alloc, file, place, line, library, draft)?;
    }
    Ok(())
}

/// The draft of the model at an index, or the first fault of its lines.
fn checked_model(
    alloc: Global,
    file: &File<'_>,
    place: usize,
    library: Option<&Library>,
) -> Result<Whole<Draft>, ReadFault>
    requires { place ≤ length file.now.models }
    ensures fault { Checks result (lines_fault (option_copied library.entry)
        (names_before file.now.models place) [] (slice_index_or file.now.models place [])) }
    ensures draft { IfOk result (λ draft. take_entries (option_copied library.entry) no_lines
        (slice_index_or file.now.models place []) ≡ Ok draft.it) }
{
    let draft = Draft::new(alloc)?;
    // Wrapped in a `Whole`, so that dropping it is one call.
    let mut draft = Whole { it: draft };
    check_lines(
        alloc,
        file,
        place,
        file.lines(place),
        library,
        &mut draft.it,
    )?;
    Ok(draft)
}

/// Checks the lines of the model at an index.
fn check_model(
    alloc: Global,
    file: &File<'_>,
    place: usize,
    library: Option<&Library>,
) -> Result<(), ReadFault>
    requires { place ≤ length file.now.models }
    ensures { Checks result (lines_fault (option_copied library.entry)
        (names_before file.now.models place) [] (slice_index_or file.now.models place [])) }
{
    let _draft = checked_model(alloc, file, place, library)?;
    Ok(())
}

/// Checks the lines of the models after the first.
fn check_others(alloc: Global, file: &File<'_>, library: Option<&Library>) -> Result<(), ReadFault>
    ensures { Checks result (file_fault (option_copied library.entry)
        (names_before file.now.models 1) (drop 1 file.now.models)) }
{
    for place in 1..file.count() {
        check_model(alloc, file, place, library)?;
    }
    Ok(())
}

/// The draft of the first model, or the first fault of a line of a model.
pub fn checked_first(
    alloc: Global,
    file: &File<'_>,
    library: Option<&Library>,
) -> Result<Whole<Draft>, ReadFault>
    ensures fault { Checks result (file_fault (option_copied library.entry) []
        file.now.models) }
    ensures draft { IfOk result (λ draft. take_entries (option_copied library.entry) no_lines
        (slice_index_or file.now.models 0 []) ≡ Ok draft.it) }
{
    let draft = checked_model(alloc, file, 0, library)?;
    check_others(alloc, file, library)?;
    Ok(draft)
}
