//! The lines of the first model with those of its instances in their places.
//!
//! Source: BLIF appendix of the SIS report (UCB/ERL M92/41), `.subckt`: the model's body stands for
//! the line. `flat_lines` puts in the models within first; it goes at most as deep as models nest.
//! `take_flat` feeds a draft with the lines that stay, and keeps the lines of one instance of the
//! first model at a time. Each instance needs all signals that are driven in it before its first
//! line, since a control is named after them. All is exactly as `specs/Flat.antt` defines it.

ghost use Rattle.std.specs.Prelude.{◌≡◌, ◌<◌, ◌+◌, ◌++◌, ◌∷◌, [], option_copied, IfOk, OnOk, if◌then◌else◌};
ghost use Rattle.std.specs.List.{filter};
ghost use Rattle.std.specs.Option.{option_to_list};
ghost use Rattle.circuit_model.specs.Soundness.{outputs_of};
ghost use Rattle.circuit_checks.specs.Sets.{with_name, Alike};
ghost use Rattle.sis_text.specs.Entries.{entry_at};
ghost use Rattle.line_words.specs.LineWords.{texts, other_words};
ghost use Rattle.blif_gates.specs.GateLines.{is_pair};
ghost use Rattle.blif_lines.specs.declared.keyword.Keyword.{Keyword};
ghost use Rattle.blif_lines.specs.Keyword.{kind_of};
ghost use Rattle.blif_lines.specs.Lines.{last_word};
ghost use Rattle.blif_lines.specs.Reader.{driven_by, latch_output, gate_tables, drives_in};
ghost use Rattle.blif_lines.specs.Steps.{take_entry, take_entries, Takes};
ghost use Rattle.blif_models.specs.Files.{lines_at};
ghost use Rattle.blif_models.specs.Models.{model_of, pairs_of};
ghost use Rattle.blif_models.specs.Flat.{path_word, flat_lines, stays};
ghost use Rattle.blif_models.specs.declared.limits.TheConstants.{MAX_DEPTH};
ghost use Rattle.blif_models.specs.Instances.{instance_in};
ghost use Rattle.blif_models.specs.Tables.{Adds, HoldsFor, is_timed, some_timed, IsFilled, IsFilledOrNone, put_lines, item_lines, place_after, staying};
ghost use Rattle.blif_models.specs.Contexts.{library_in, models_in, text_in, AreRight};

use crate::file::File;
use crate::instance::Instance;
use crate::limits::MAX_DEPTH;
use crate::owned_line::{OwnedLine, slices_of};
use crate::pairs::Pairs;
use crate::ports::Ports;
use blif_gates::{is_pair, read_gate};
use blif_lines::{Draft, Keyword, ReadFault, last_word};
use circuit_model::{Name, Table};
use genlib_format::Library;
use indexmap::IndexSet;
use line_words::{first_word, name_of, other_words};
use sis_base::Copied;
use sis_text::{Line, texts_at};
use std::alloc::{AllocError, Global};

/// The models of a file and the library, with the ports and the size of each model by its index; a
/// size is 0 if the model has no table, latch or gate.
#[derive(Drop)]
pub struct Models<'t, 'a> {
    pub file: &'t File<'a>,
    pub library: Option<&'t Library>,
    pub ports: &'t [Ports<'a>],
    pub sizes: &'t [usize],
}

/// The output of a latch, by the words of its line.
fn latch_driven(alloc: Global, words: &[Name]) -> Result<Option<Name>, AllocError>
    ensures { IfOk result (λ driven. option_to_list driven ≡ latch_output words.now) }
{
    match words {
        [_, output, ..] => Ok(Some(output.copy(alloc)?)),
        _ => Ok(None),
    }
}

/// The output of a gate, by the words of its line, if its cell and its pairs are right.
fn gate_driven(
    alloc: Global,
    library: Option<&Library>,
    words: &[Name],
) -> Result<Option<Name>, AllocError>
    ensures { IfOk result (λ driven. option_to_list driven
        ≡ outputs_of (gate_tables (option_copied library.entry) words.now)) }
{
    let Some(library) = library else {
        return Ok(None);
    };
    let slices = slices_of(alloc, words)?;
    let words = slices.as_slice();
    match read_gate(alloc, library, first_word(words), other_words(words))? {
        Ok(table) => {
            let Table {
                inputs: _,
                output,
                rows: _,
                phase: _,
            } = table;
            Ok(Some(output))
        }
        Err(_fault) => Ok(None),
    }
}

/// The output of a table, by the words of its line.
fn table_driven(alloc: Global, words: &[Name]) -> Result<Name, AllocError>
    ensures { IfOk result (λ driven. driven ≡ last_word words.now) }
{
    let slices = slices_of(alloc, words)?;
    name_of(alloc, last_word(slices.as_slice()))
}

/// The signal that a line drives.
fn driven(
    alloc: Global,
    library: Option<&Library>,
    line: &OwnedLine,
) -> Result<Option<Name>, AllocError>
    ensures { IfOk result (λ driven. option_to_list driven ≡ driven_by
        (option_copied library.entry) (kind_of line.now) (other_words line.now.words)) }
{
    match line.kind() {
        Keyword::Names => Ok(Some(table_driven(alloc, line.others())?)),
        Keyword::Latch => latch_driven(alloc, line.others()),
        Keyword::Gate => gate_driven(alloc, library, line.others()),
        _ => Ok(None),
    }
}

/// Adds a name to a set.
fn add_name(set: &mut IndexSet<Name>, name: Name) -> Result<(), AllocError>
    ensures { OnOk result (set.new.keys ≡ with_name set.old.keys name) }
{
    let _added = set.insert(name)?;
    Ok(())
}

/// Adds names to a set.
fn add_inputs(alloc: Global, inputs: &[&[u8]], set: &mut IndexSet<Name>) -> Result<(), AllocError>
    ensures { OnOk result (Adds set.old.keys set.new.keys (texts inputs.now)) }
{
    for word in inputs {
        add_name(set, name_of(alloc, word)?)?;
    }
    Ok(())
}

/// Adds the signal that a line drives to a set.
fn add_driven(
    alloc: Global,
    library: Option<&Library>,
    line: &OwnedLine,
    set: &mut IndexSet<Name>,
) -> Result<(), AllocError>
    ensures { OnOk result (Adds set.old.keys set.new.keys (driven_by
        (option_copied library.entry) (kind_of line.now) (other_words line.now.words))) }
{
    let driven = driven(alloc, library, line)?;
    let Some(name) = driven else {
        return Ok(());
    };
    add_name(set, name)?;
    Ok(())
}

/// Adds the signals that lines drive to a set.
fn add_drives(
    alloc: Global,
    library: Option<&Library>,
    lines: &[OwnedLine],
    set: &mut IndexSet<Name>,
) -> Result<(), AllocError>
    ensures { OnOk result (Adds set.old.keys set.new.keys (drives_in
        (option_copied library.entry) lines.now)) }
{
    for line in lines {
        add_driven(alloc, library, line, set)?;
    }
    Ok(())
}

/// The signals after which a control is named: the inputs of a model, and what its lines drive.
fn controls_of(
    alloc: Global,
    library: Option<&Library>,
    inputs: &[&[u8]],
    lines: &[OwnedLine],
) -> Result<IndexSet<Name>, AllocError>
    ensures { IfOk result (λ set. Alike set.keys (texts inputs.now
        ++ drives_in (option_copied library.entry) lines.now)) }
{
    let mut set = IndexSet::new(alloc);
    add_inputs(alloc, inputs, &mut set)?;
    add_drives(alloc, library, lines, &mut set)?;
    Ok(set)
}

/// Whether a line is that of a latch with a control.
fn is_timed(line: &OwnedLine) -> bool
    ensures { result ≡ is_timed (kind_of line.now) (other_words line.now.words) }
{
    match line.kind() {
        Keyword::Latch => has_control(line.others()),
        _ => false,
    }
}

/// Whether the words of a latch have a control.
fn has_control(words: &[Name]) -> bool
    ensures { result ≡ is_timed Keyword.Latch words.now }
{
    match words {
        [_, _, _, _, ..] => true,
        _ => false,
    }
}

/// Whether the line of a latch with a control is among lines.
#[tactic(auto, unfolding(crate::specs::Tables::some_timed))]
fn some_timed(lines: &[OwnedLine]) -> bool
    ensures { result ≡ some_timed lines.now }
{
    lines.iter().any(|line| is_timed(line))
}

/// The signals after which a control is named, if a line has a control.
fn controls_for(
    alloc: Global,
    library: Option<&Library>,
    inputs: &[&[u8]],
    lines: &[OwnedLine],
) -> Result<IndexSet<Name>, AllocError>
    ensures { IfOk result (λ set. HoldsFor lines.now set.keys (texts inputs.now
        ++ drives_in (option_copied library.entry) lines.now)) }
{
    let is_needed = some_timed(lines);
    if !is_needed {
        return Ok(IndexSet::new(alloc));
    }
    let controls = controls_of(alloc, library, inputs, lines)?;
    Ok(controls)
}

/// Appends a word, if it is a pair.
fn push_pair<'a>(pairs: &mut Vec<&'a [u8]>, word: &'a [u8]) -> Result<(), AllocError>
    ensures { OnOk result (texts pairs.new.items ≡ (if is_pair word.now
        then texts pairs.old.items ++ word.now ∷ [] else texts pairs.old.items)) }
{
    if is_pair(word) {
        pairs.push(word)?;
    }
    Ok(())
}

/// The words that are pairs.
#[tactic(auto, using(std::proofs::lemmas::Grind::common_steps))]
pub fn pairs_among<'a>(alloc: Global, words: &[&'a [u8]]) -> Result<Vec<&'a [u8]>, AllocError>
    ensures { IfOk result (λ pairs. texts pairs.items ≡ filter is_pair (texts words.now)) }
{
    let mut pairs = Vec::new(alloc);
    for word in words {
        push_pair(&mut pairs, *word)?;
    }
    Ok(pairs)
}

/// The pairs of an instance.
fn pairs_on<'a>(alloc: Global, text: &'a [u8], line: &Line) -> Result<Pairs<'a>, AllocError>
    ensures { IfOk result (λ pairs. pairs ≡ pairs_of (entry_at text.now line.now)) }
{
    let words = texts_at(alloc, text, line.words.as_slice())?;
    let pairs = pairs_among(alloc, other_words(other_words(words.as_slice())))?;
    Pairs::new(alloc, pairs)
}

/// The path word of an instance of a model, after so many instances.
fn path_word(alloc: Global, name: &[u8], place: usize) -> Result<Name, AllocError>
    ensures { IfOk result (λ path. path ≡ path_word name.now place) }
{
    let shown = format!(in alloc; "{place}")?;
    let mut path = Vec::new(alloc);
    path.extend_from_slice(name)?;
    path.push(b'[')?;
    path.extend_from_slice(shown.as_bytes())?;
    path.push(b']')?;
    name_of(alloc, path.as_slice())
}

/// The instance of a line with so many instances before it, with the signals after which a control
/// is named.
pub fn instance_with<'a>(
    alloc: Global,
    file: &File<'a>,
    place: usize,
    line: &Line,
    controls: IndexSet<Name>,
) -> Result<Instance<'a>, AllocError>
    ensures { IfOk result (λ made. instance_in made ≡ record {
      path = path_word (model_of (entry_at file.now.text line.now)) place;
      pairs = pairs_of (entry_at file.now.text line.now);
      controls = controls.keys;
    }) }
{
    let path = path_word(alloc, file.model_of(line), place)?;
    let pairs = pairs_on(alloc, file.text(), line)?;
    Ok(Instance {
        path,
        pairs,
        controls,
    })
}

/// The index of the model of an instance, if it has a table, a latch or a gate.
pub fn model_at(models: &Models<'_, '_>, line: &Line) -> Option<usize>
    requires { AreRight models.now }
    ensures { IsFilledOrNone (models_in models.now) (model_of
        (entry_at (text_in models.now) line.now)) result }
{
    match models.file.find(models.file.model_of(line)) {
        None => None,
        Some(place) => {
            if models.sizes[place] == 0 {
                None
            } else {
                Some(place)
            }
        }
    }
}

/// Appends the lines of an instance, by the lines of its model as they are put in.
fn add_instance(
    alloc: Global,
    models: &Models<'_, '_>,
    place: usize,
    line: &Line,
    model: usize,
    inner: &[OwnedLine],
    flat: &mut Vec<OwnedLine>,
) -> Result<(), AllocError>
    requires tables { AreRight models.now }
    requires model { IsFilled (models_in models.now) (model_of
        (entry_at (text_in models.now) line.now)) model }
    ensures { OnOk result (flat.new.items ≡ flat.old.items ++ put_lines (library_in models.now)
        (models_in models.now) place (entry_at (text_in models.now) line.now) inner.now) }
{
    let inputs = models.ports[model].inputs.words();
    let controls = controls_for(alloc, models.library, inputs, inner)?;
    let instance = instance_with(alloc, models.file, place, line, controls)?;
    instance.add_lines(alloc, flat, inner)
}

/// The number of instances after a line.
pub fn place_after(file: &File<'_>, place: usize, line: &Line) -> usize
    requires { place < 9223372036854775808 }
    ensures { result ≡ place_after place (entry_at file.now.text line.now) }
{
    if file.is_instance(line) {
        place + 1
    } else {
        place
    }
}

/// Appends what a line adds, after so many instances: itself, or the lines of its instance.
#[cycle(flat)]
fn add_flat(
    alloc: Global,
    models: &Models<'_, '_>,
    depth: usize,
    place: usize,
    line: &Line,
    flat: &mut Vec<OwnedLine>,
) -> Result<(), AllocError>
    requires { AreRight models.now }
    ensures { OnOk result (flat.new.items ≡ flat.old.items ++ item_lines (library_in models.now)
        (models_in models.now) depth place (entry_at (text_in models.now) line.now)) }
{
    if !models.file.is_instance(line) {
        flat.push(OwnedLine::from_text(alloc, models.file.text(), line)?)?;
        return Ok(());
    }
    match model_at(models, line) {
        None => Ok(()),
        Some(model) => {
            let inner = flat_lines(alloc, models, depth, models.file.body(model))?;
            add_instance(alloc, models, place, line, model, inner.as_slice(), flat)
        }
    }
}

/// The lines of a model with those of its instances in their places, where models nest less deep
/// than `depth`.
#[cycle(flat)]
fn flat_lines(
    alloc: Global,
    models: &Models<'_, '_>,
    depth: usize,
    lines: &[Line],
) -> Result<Vec<OwnedLine>, AllocError>
    requires { AreRight models.now }
    ensures { IfOk result (λ flat. flat.items ≡ flat_lines (library_in models.now)
        (models_in models.now) depth (lines_at (text_in models.now) lines.now)) }
{
    let mut flat = Vec::new(alloc);
    if depth == 0 {
        return Ok(flat);
    }
    let mut place = 0;
    for line in lines {
        add_flat(alloc, models, depth - 1, place, line, &mut flat)?;
        place = place_after(models.file, place, line);
    }
    Ok(flat)
}

/// Whether a line of the first model stays.
fn stays(line: &OwnedLine) -> bool
    ensures { result ≡ stays (kind_of line.now) }
{
    match line.kind() {
        Keyword::End | Keyword::StartKiss => false,
        _ => true,
    }
}

/// Feeds a draft with a line.
fn take_line(
    alloc: Global,
    library: Option<&Library>,
    line: &OwnedLine,
    draft: &mut Draft,
) -> Result<(), ReadFault>
    ensures { Takes result draft.new (take_entry (option_copied library.entry) draft.old
        line.now) }
{
    let words = slices_of(alloc, line.words())?;
    draft.take(alloc, library, line.number(), words.as_slice())
}

/// Feeds a draft with a line, if it stays.
fn take_if(
    alloc: Global,
    library: Option<&Library>,
    line: &OwnedLine,
    draft: &mut Draft,
) -> Result<(), ReadFault>
    ensures { Takes result draft.new (take_entries (option_copied library.entry) draft.old
        (staying (line.now ∷ []))) }
{
    if stays(line) {
        return take_line(alloc, library, line, draft);
    }
    Ok(())
}

/// Feeds a draft with those lines that stay, up to the first that has a fault.
fn take_staying(
    alloc: Global,
    library: Option<&Library>,
    lines: &[OwnedLine],
    draft: &mut Draft,
) -> Result<(), ReadFault>
    ensures { Takes result draft.new (take_entries (option_copied library.entry) draft.old
        (staying lines.now)) }
{
    for line in lines {
        take_if(alloc, library, line, draft)?;
    }
    Ok(())
}

/// Feeds a draft with what a line of the first model adds, as far as it stays.
fn take_item(
    alloc: Global,
    models: &Models<'_, '_>,
    place: usize,
    line: &Line,
    draft: &mut Draft,
) -> Result<(), ReadFault>
    requires { AreRight models.now }
    ensures { Takes result draft.new (take_entries (library_in models.now) draft.old (staying
        (item_lines (library_in models.now) (models_in models.now) MAX_DEPTH place
        (entry_at (text_in models.now) line.now)))) }
{
    let mut flat = Vec::new(alloc);
    add_flat(alloc, models, MAX_DEPTH, place, line, &mut flat)?;
    take_staying(alloc, models.library, flat.as_slice(), draft)
}

/// Feeds a draft with the lines of the first model with those of its instances in their places, as
/// far as they stay, up to the first that has a fault.
pub fn take_flat(
    alloc: Global,
    models: &Models<'_, '_>,
    lines: &[Line],
    draft: &mut Draft,
) -> Result<(), ReadFault>
    requires { AreRight models.now }
    ensures { Takes result draft.new (take_entries (library_in models.now) draft.old (staying
        (flat_lines (library_in models.now) (models_in models.now) (MAX_DEPTH + 1)
        (lines_at (text_in models.now) lines.now)))) }
{
    let mut place = 0;
    for line in lines {
        take_item(alloc, models, place, line, draft)?;
        place = place_after(models.file, place, line);
    }
    Ok(())
}
