//! The names that are made for the signals of instances, and whether one of them clashes.
//!
//! A signal that is no formal of its instance gets a name that is made; no other signal may have
//! it. That, and the order of the names, is the project's own (`specs/Made.antt`): an instance
//! before those within it. `made_names` makes each name as it is outside of all instances around
//! it, those newest last, and stops at the first that is too long, so that no longer one is kept.

ghost use Rattle.std.specs.Prelude.{◌≡◌, ◌+◌, ◌++◌, ◌∷◌, [], map, option_copied, IfOk, OnOk};
ghost use Rattle.sis_text.specs.Entries.{entry_at};
ghost use Rattle.blif_models.specs.Files.{lines_at};
ghost use Rattle.blif_models.specs.Made.{signals_in, made_in, first_clash};
ghost use Rattle.blif_models.specs.declared.limits.TheConstants.{MAX_DEPTH};
ghost use Rattle.blif_models.specs.Instances.{instance_in, frames_in};
ghost use Rattle.blif_models.specs.Makings.{make_one, make_all, Makes, IsMade, outside_all, own_names, bare_instance, item_names};
ghost use Rattle.blif_models.specs.Contexts.{library_in, models_in, text_in, AreRight};

use crate::file::File;
use crate::flat::{Models, instance_with, model_at, place_after};
use crate::instance::{Instance, add_copies};
use crate::limits::MAX_DEPTH;
use crate::mentions::{each_once, signals_in};
use blif_lines::{BlifFault, LimitKind, ReadFault};
use circuit_checks::first_listed_twice;
use circuit_model::{Name, Names};
use indexmap::IndexSet;
use line_words::name_of;
use sis_base::Sequence;
use sis_base::limits::MAX_NAME;
use sis_text::Line;
use std::alloc::{AllocError, Global};

/// What a signal is named outside of all of some instances, the outermost first.
fn outside_all(alloc: Global, frames: &[Instance<'_>], signal: &[u8]) -> Result<Name, AllocError>
    ensures { IfOk result (λ name. name ≡ outside_all (frames_in frames.now) signal.now) }
{
    let mut name = name_of(alloc, signal)?;
    let mut left = frames.len();
    while left > 0 {
        left -= 1;
        let outer = frames[left].outside(alloc, name.as_slice())?;
        name = outer;
    }
    Ok(name)
}

/// Appends a name, unless it is too long.
#[tactic(auto, unfolding(crate::specs::Makings::make_one))]
fn make_one(made: &mut Names, name: Name) -> Result<(), ReadFault>
    ensures { Makes result made.new (make_one made.old name) }
{
    let len = name.len();
    if len > MAX_NAME {
        return Err(ReadFault::Fault(BlifFault::Limit(LimitKind::Name, len)));
    }
    made.push(name)?;
    Ok(())
}

/// Appends the name of an own signal of an instance outside of all instances, unless it is a
/// formal.
fn make_signal(
    alloc: Global,
    frames: &[Instance<'_>],
    instance: &Instance<'_>,
    signal: &Name,
    made: &mut Names,
) -> Result<(), ReadFault>
    ensures { Makes result made.new (make_all made.old (own_names
        (frames_in frames.now) (instance_in instance.now) (signal.now ∷ []))) }
{
    let signal = signal.as_slice();
    if instance.is_formal(signal) {
        return Ok(());
    }
    let own = instance.outside(alloc, signal)?;
    let name = outside_all(alloc, frames, own.as_slice())?;
    make_one(made, name)
}

/// Appends the names of the own signals of an instance outside of all instances.
fn make_own(
    alloc: Global,
    frames: &[Instance<'_>],
    instance: &Instance<'_>,
    signals: &[Name],
    made: &mut Names,
) -> Result<(), ReadFault>
    ensures { Makes result made.new (make_all made.old (own_names
        (frames_in frames.now) (instance_in instance.now) signals.now)) }
{
    for signal in signals {
        make_signal(alloc, frames, instance, signal, made)?;
    }
    Ok(())
}

/// Makes the names of the own signals of an instance, and puts it last of those around.
fn enter<'a>(
    alloc: Global,
    file: &File<'a>,
    place: usize,
    line: &Line,
    body: &[Line],
    frames: &mut Vec<Instance<'a>>,
    made: &mut Names,
) -> Result<(), ReadFault>
    ensures frames { OnOk result (frames_in frames.new.items ≡ frames_in frames.old.items
        ++ bare_instance place (entry_at file.now.text line.now) ∷ []) }
    ensures made { Makes result made.new (make_all made.old (own_names
        (frames_in frames.old.items) (bare_instance place (entry_at file.now.text line.now))
        (signals_in (lines_at file.now.text body.now)))) }
{
    let controls = IndexSet::new(alloc);
    let instance = instance_with(alloc, file, place, line, controls)?;
    let signals = signals_in(alloc, file.text(), body)?;
    let around = frames.as_slice();
    let own = signals.as_slice();
    make_own(alloc, around, &instance, own, made)?;
    frames.push(instance)?;
    Ok(())
}

/// Appends the names that a line adds, after so many instances, outside of all instances around.
#[cycle(made)]
fn make_item<'a>(
    alloc: Global,
    models: &Models<'_, 'a>,
    depth: usize,
    place: usize,
    line: &Line,
    frames: &mut Vec<Instance<'a>>,
    made: &mut Names,
) -> Result<(), ReadFault>
    requires { AreRight models.now }
    ensures frames { OnOk result (frames_in frames.new.items ≡ frames_in frames.old.items) }
    ensures made { Makes result made.new (make_all made.old (map
        (outside_all (frames_in frames.old.items)) (item_names (library_in models.now)
        (models_in models.now) depth place (entry_at (text_in models.now) line.now)))) }
{
    if !models.file.is_instance(line) {
        return Ok(());
    }
    match model_at(models, line) {
        None => Ok(()),
        Some(model) => {
            let body = models.file.body(model);
            let count = frames.len();
            enter(alloc, models.file, place, line, body, frames, made)?;
            make_in(alloc, models, depth, body, frames, made)?;
            frames.truncate(count);
            Ok(())
        }
    }
}

/// Appends the names made within the lines of a model by its instances, outside of all instances
/// around, where models nest less deep than `depth`.
#[cycle(made)]
fn make_in<'a>(
    alloc: Global,
    models: &Models<'_, 'a>,
    depth: usize,
    lines: &[Line],
    frames: &mut Vec<Instance<'a>>,
    made: &mut Names,
) -> Result<(), ReadFault>
    requires { AreRight models.now }
    ensures frames { OnOk result (frames_in frames.new.items ≡ frames_in frames.old.items) }
    ensures made { Makes result made.new (make_all made.old (map
        (outside_all (frames_in frames.old.items)) (made_in (library_in models.now)
        (models_in models.now) depth (lines_at (text_in models.now) lines.now)))) }
{
    if depth == 0 {
        return Ok(());
    }
    let mut place = 0;
    for line in lines {
        make_item(alloc, models, depth - 1, place, line, frames, made)?;
        place = place_after(models.file, place, line);
    }
    Ok(())
}

/// The names made by the instances of a model. An error is the first that is too long, or want of
/// memory.
pub fn made_names(
    alloc: Global,
    models: &Models<'_, '_>,
    lines: &[Line],
) -> Result<Names, ReadFault>
    requires { AreRight models.now }
    ensures { IsMade result (made_in (library_in models.now) (models_in models.now)
        (MAX_DEPTH + 1) (lines_at (text_in models.now) lines.now)) }
{
    let mut made = Sequence::new(alloc);
    let mut frames = Vec::new(alloc);
    make_in(alloc, models, MAX_DEPTH + 1, lines, &mut frames, &mut made)?;
    Ok(made)
}

/// The first made name that was made for another signal too, or that is among the names of the
/// first model.
#[tactic(auto, unfolding(crate::specs::Made::first_clash))]
pub fn first_clash<'m>(
    alloc: Global,
    names: &[Name],
    made: &'m [Name],
) -> Result<Option<&'m Name>, AllocError>
    ensures { IfOk result (λ found. option_copied found ≡ first_clash names.now made.now) }
{
    let mut all = each_once(alloc, names)?;
    add_copies(alloc, &mut all, made)?;
    let found = first_listed_twice(alloc, all.as_slice(), &[], made)?;
    Ok(found)
}
