//! Feeds a draft with the first model of a file as one without instances.
//!
//! Source: BLIF appendix of the SIS report (UCB/ERL M92/41), `.subckt`. After the lines of the
//! model with those of its instances come the ports that it does not list, the clocks of the models
//! that are used, and its don't-care part, exactly as `flat_model` of `specs/Flat.antt` defines it.
//! The tables of the ports and the sizes of the models and the marks of those that are used are
//! given.

ghost use Rattle.std.specs.Prelude.{◌≡◌, ◌<◌, ◌+◌, ◌++◌, ◌∷◌, [], codes, flat_map, length, slice_index_or, option_copied, IfOk, OnOk};
ghost use Rattle.sis_text.specs.Entries.{entry_at};
ghost use Rattle.line_words.specs.LineWords.{texts, other_words};
ghost use Rattle.blif_lines.specs.Keyword.{kind_of};
ghost use Rattle.blif_lines.specs.Reader.{model_lines, part_lines, listed_clocks, clocks_in};
ghost use Rattle.blif_lines.specs.Steps.{take_entries, Takes};
ghost use Rattle.blif_models.specs.Files.{lines_at};
ghost use Rattle.blif_models.specs.Models.{used_models};
ghost use Rattle.blif_models.specs.PortTables.{once_ports, table_at};
ghost use Rattle.blif_models.specs.Ports.{ports_at};
ghost use Rattle.blif_models.specs.Flat.{added, port_lines, clock_line, flat_model, flat_lines};
ghost use Rattle.blif_models.specs.Tables.{staying};
ghost use Rattle.blif_models.specs.FirstModel.{MarksUsed, clocks_at, port_line, port_word, side_line};
ghost use Rattle.blif_models.specs.Sides.{ports_on};
ghost use Rattle.blif_models.specs.Contexts.{library_in, models_in, AreRight};
ghost use Rattle.blif_models.specs.declared.limits.TheConstants.{MAX_DEPTH};

use crate::file::File;
use crate::flat::{Models, take_flat};
use crate::line_kind::kind_at;
use crate::owned_line::slices_of;
use crate::ports::{Ports, lists};
use crate::side::Side;
use crate::sizes::part;
use blif_lines::{Draft, Keyword, ReadFault, names_beside, take_lines};
use circuit_model::Names;
use genlib_format::Library;
use line_words::{add_names, other_words};
use sis_base::Sequence;
use sis_text::{Line, texts_at};
use std::alloc::{AllocError, Global};

/// Appends the clocks that a line lists.
fn add_listed(alloc: Global, names: &mut Names, text: &[u8], line: &Line) -> Result<(), AllocError>
    ensures { OnOk result (names.new ≡ names.old ++ listed_clocks
        (kind_of (entry_at text.now line.now)) (other_words (entry_at text.now line.now).words)) }
{
    match kind_at(text, line) {
        Keyword::Clock => {
            let words = texts_at(alloc, text, line.words.as_slice())?;
            add_names(alloc, names, other_words(words.as_slice()))
        }
        _ => Ok(()),
    }
}

/// Appends the clocks that lines list.
#[tactic(auto, unfolding(blif_lines::specs::Reader::clocks_in))]
fn add_clocks(
    alloc: Global,
    names: &mut Names,
    text: &[u8],
    lines: &[Line],
) -> Result<(), AllocError>
    ensures { OnOk result (names.new ≡ names.old ++ clocks_in (lines_at text.now lines.now)) }
{
    for line in lines {
        add_listed(alloc, names, text, line)?;
    }
    Ok(())
}

/// Appends the clocks of a model, if it is used.
fn add_used(
    alloc: Global,
    names: &mut Names,
    file: &File<'_>,
    used: &[bool],
    place: usize,
) -> Result<(), AllocError>
    requires used { MarksUsed file.now.models used.now }
    requires within { place < length file.now.models }
    ensures { OnOk result (names.new ≡ names.old ++ clocks_at file.now.models place) }
{
    let is_used = used[place];
    if is_used {
        return add_clocks(alloc, names, file.text(), file.body(place));
    }
    Ok(())
}

/// The clocks of the models that are used.
fn used_clocks(alloc: Global, file: &File<'_>, used: &[bool]) -> Result<Names, AllocError>
    requires { MarksUsed file.now.models used.now }
    ensures { IfOk result (λ names. names ≡ flat_map
        (λ model. clocks_in (model_lines model)) (used_models file.now.models)) }
{
    let mut names = Sequence::new(alloc);
    for place in 0..file.count() {
        add_used(alloc, &mut names, file, used, place)?;
    }
    Ok(names)
}

/// A word before others.
fn headed<'a>(
    alloc: Global,
    first: &'a [u8],
    words: &[&'a [u8]],
) -> Result<Vec<&'a [u8]>, AllocError>
    ensures { IfOk result (λ all. texts all.items ≡ first.now ∷ texts words.now) }
{
    let mut all = Vec::new(alloc);
    all.push(first)?;
    all.extend_from_slice(words)?;
    Ok(all)
}

/// Feeds a draft with a line that the file does not have.
fn take_added(
    alloc: Global,
    library: Option<&Library>,
    words: &[&[u8]],
    draft: &mut Draft,
) -> Result<(), ReadFault>
    ensures { Takes result draft.new (take_entries (option_copied library.entry) draft.old
        (added (texts words.now) ∷ [])) }
{
    draft.take(alloc, library, 0, words)
}

/// Feeds a draft with a line of ports, unless lines list some.
fn take_ports(
    alloc: Global,
    library: Option<&Library>,
    listed: bool,
    first: &[u8],
    ports: &[&[u8]],
    draft: &mut Draft,
) -> Result<(), ReadFault>
    ensures { Takes result draft.new (take_entries (option_copied library.entry) draft.old
        (port_line listed first.now (texts ports.now))) }
{
    if listed {
        return Ok(());
    }
    let words = headed(alloc, first, ports)?;
    take_added(alloc, library, words.as_slice(), draft)
}

/// The ports of the first model.
#[tactic(auto, using(crate::proofs::FirstLines::first_ports))]
fn first_ports<'t, 'a>(models: &Models<'t, 'a>) -> &'t Ports<'a>
    requires ports { models.now.ports.now ≡ table_at (library_in models.now)
        (models_in models.now) (MAX_DEPTH + 1) }
    requires first { 0 < length (models_in models.now) }
    ensures { result.now ≡ once_ports (ports_at (library_in models.now) (models_in models.now)
        (MAX_DEPTH + 1) (model_lines (slice_index_or (models_in models.now) 0 []))) }
{
    &models.ports[0]
}

/// The word that begins a line of the ports of a side.
fn port_word(side: Side) -> &'static [u8]
    ensures { result.now ≡ port_word side }
{
    match side {
        Side::Inputs => b".inputs".as_slice(),
        Side::Outputs => b".outputs".as_slice(),
    }
}

/// The ports of a side.
fn words_on<'p, 'a>(ports: &'p Ports<'a>, side: Side) -> &'p [&'a [u8]]
    ensures { texts result.now ≡ ports_on side ports.now }
{
    match side {
        Side::Inputs => ports.inputs.words(),
        Side::Outputs => ports.outputs.words(),
    }
}

/// Feeds a draft with the ports of a side of the first model, if it lists none.
fn take_side(
    alloc: Global,
    models: &Models<'_, '_>,
    side: Side,
    draft: &mut Draft,
) -> Result<(), ReadFault>
    requires ports { models.now.ports.now ≡ table_at (library_in models.now)
        (models_in models.now) (MAX_DEPTH + 1) }
    requires first { 0 < length (models_in models.now) }
    ensures { Takes result draft.new (take_entries (library_in models.now) draft.old (side_line
        side (library_in models.now) (models_in models.now)
        (model_lines (slice_index_or (models_in models.now) 0 [])))) }
{
    let names = words_on(first_ports(models), side);
    let word = port_word(side);
    let listed = lists(models.file.text(), side, models.file.body(0));
    take_ports(alloc, models.library, listed, word, names, draft)
}

/// Feeds a draft with the ports that the first model does not list.
fn take_port_lines(
    alloc: Global,
    models: &Models<'_, '_>,
    draft: &mut Draft,
) -> Result<(), ReadFault>
    requires ports { models.now.ports.now ≡ table_at (library_in models.now)
        (models_in models.now) (MAX_DEPTH + 1) }
    requires first { 0 < length (models_in models.now) }
    ensures { Takes result draft.new (take_entries (library_in models.now) draft.old (port_lines
        (library_in models.now) (models_in models.now)
        (model_lines (slice_index_or (models_in models.now) 0 [])))) }
{
    take_side(alloc, models, Side::Inputs, draft)?;
    take_side(alloc, models, Side::Outputs, draft)
}

/// The clocks of the models that are used, beside those of the first.
fn other_clocks(alloc: Global, file: &File<'_>, used: &[bool]) -> Result<Names, AllocError>
    requires { MarksUsed file.now.models used.now }
    ensures { IfOk result (λ names. added (codes ".clock" ∷ names) ≡ clock_line file.now.models
        (model_lines (slice_index_or file.now.models 0 []))) }
{
    let mut own = Sequence::new(alloc);
    add_clocks(alloc, &mut own, file.text(), file.body(0))?;
    let all = used_clocks(alloc, file, used)?;
    let first = own.as_slice();
    let rest = all.as_slice();
    let names = names_beside(alloc, first, rest)?;
    Ok(names)
}

/// Feeds a draft with the clocks of the models that are used.
fn take_clocks(
    alloc: Global,
    models: &Models<'_, '_>,
    used: &[bool],
    draft: &mut Draft,
) -> Result<(), ReadFault>
    requires { MarksUsed (models_in models.now) used.now }
    ensures { Takes result draft.new (take_entries (library_in models.now) draft.old (clock_line
        (models_in models.now) (model_lines (slice_index_or (models_in models.now) 0 [])) ∷ [])) }
{
    let names = other_clocks(alloc, models.file, used)?;
    let clocks = names.as_slice();
    let slices = slices_of(alloc, clocks)?;
    let first = b".clock".as_slice();
    let others = slices.as_slice();
    let words = headed(alloc, first, others)?;
    let all = words.as_slice();
    take_added(alloc, models.library, all, draft)
}

/// Feeds a draft with the don't-care part of the first model.
fn take_part(alloc: Global, models: &Models<'_, '_>, draft: &mut Draft) -> Result<(), ReadFault>
    ensures { Takes result draft.new (take_entries (library_in models.now) draft.old (part_lines
        (slice_index_or (models_in models.now) 0 []))) }
{
    let lines = part(models.file, 0);
    take_lines(alloc, models.file.text(), lines, models.library, draft)
}

/// Feeds a draft with the lines of the first model and the ports that it does not list.
fn take_front(alloc: Global, models: &Models<'_, '_>, draft: &mut Draft) -> Result<(), ReadFault>
    requires tables { AreRight models.now }
    requires ports { models.now.ports.now ≡ table_at (library_in models.now)
        (models_in models.now) (MAX_DEPTH + 1) }
    requires first { 0 < length (models_in models.now) }
    ensures { Takes result draft.new (take_entries (library_in models.now) draft.old (staying
        (flat_lines (library_in models.now) (models_in models.now) (MAX_DEPTH + 1)
        (model_lines (slice_index_or (models_in models.now) 0 [])))
        ++ port_lines (library_in models.now) (models_in models.now)
        (model_lines (slice_index_or (models_in models.now) 0 [])))) }
{
    take_flat(alloc, models, models.file.body(0), draft)?;
    take_port_lines(alloc, models, draft)
}

/// Feeds a draft with the clocks of the models that are used, and the don't-care part of the first.
fn take_back(
    alloc: Global,
    models: &Models<'_, '_>,
    used: &[bool],
    draft: &mut Draft,
) -> Result<(), ReadFault>
    requires { MarksUsed (models_in models.now) used.now }
    ensures { Takes result draft.new (take_entries (library_in models.now) draft.old (clock_line
        (models_in models.now) (model_lines (slice_index_or (models_in models.now) 0 []))
        ∷ part_lines (slice_index_or (models_in models.now) 0 []))) }
{
    take_clocks(alloc, models, used, draft)?;
    take_part(alloc, models, draft)
}

/// Feeds a draft with the first model as one without instances, up to the first line that has a
/// fault.
#[tactic(auto, unfolding(crate::specs::Flat::flat_model))]
pub fn take_first(
    alloc: Global,
    models: &Models<'_, '_>,
    used: &[bool],
    draft: &mut Draft,
) -> Result<(), ReadFault>
    requires tables { AreRight models.now }
    requires ports { models.now.ports.now ≡ table_at (library_in models.now)
        (models_in models.now) (MAX_DEPTH + 1) }
    requires used { MarksUsed (models_in models.now) used.now }
    requires first { 0 < length (models_in models.now) }
    ensures { Takes result draft.new (take_entries (library_in models.now) draft.old (flat_model
        (library_in models.now) (models_in models.now)
        (slice_index_or (models_in models.now) 0 []))) }
{
    take_front(alloc, models, draft)?;
    take_back(alloc, models, used, draft)
}
