//! Reads the lines of a file of models as its first model.
//!
//! Source: BLIF appendix of the SIS report (UCB/ERL M92/41). All lines are checked in file order
//! first. A first model without an instance is then read as it was taken into its draft; another is
//! made of the models that are used, once nothing is wrong with them, and taken into a new draft.
//! `read_lines` returns exactly the content or the first fault of `read_models` in
//! `specs/Reader.antt`.

ghost use Rattle.std.specs.Prelude.{◌≡◌, ◌<◌, ◌+◌, Ok, [], ◌∷◌, map, length, option_copied, IfOk};
ghost use Rattle.sis_text.specs.Entries.{entry_at};
ghost use Rattle.circuit_checks.specs.Graphs.{IsGraph};
ghost use Rattle.blif_lines.specs.Lines.{first_of};
ghost use Rattle.blif_lines.specs.Reader.{first_fault, read_lines as read_alone, Reads};
ghost use Rattle.blif_lines.specs.Steps.{take_entries, no_lines};
ghost use Rattle.blif_models.specs.Models.{model_graph};
ghost use Rattle.blif_models.specs.PortFaults.{AreUsed};
ghost use Rattle.blif_models.specs.PortTables.{table_at};
ghost use Rattle.blif_models.specs.Sizes.{sizes_at};
ghost use Rattle.blif_models.specs.Tables.{AreTables};
ghost use Rattle.blif_models.specs.Flat.{flat_model};
ghost use Rattle.blif_models.specs.FirstModel.{MarksUsed};
ghost use Rattle.blif_models.specs.Reader.{file_fault, unknown_model, models_fault, read_first, read_models};
ghost use Rattle.blif_models.specs.Reading.{first_in, sides_fault, made_fault};
ghost use Rattle.blif_models.specs.Contexts.{library_in, models_in, AreRight};
ghost use Rattle.blif_models.specs.declared.limits.TheConstants.{MAX_DEPTH};
ghost use Rattle.blif_models.specs.declared.ports.Ports.{Ports};

use crate::checking::checked_first;
use crate::file::File;
use crate::first_model::take_first;
use crate::flat::Models;
use crate::graph::{graph, unknown_model, used};
use crate::model_tables::{ModelTables, model_tables};
use crate::models_fault::{check_made, nesting_fault, sides_fault};
use blif_lines::{Content, Draft, ReadFault, finish};
use genlib_format::Library;
use sis_base::{Sequence, Whole};
use sis_text::Line;
use std::alloc::{AllocError, Global};

/// The graph of the models of a file, and which of them are used.
#[derive(Drop)]
struct Uses {
    graph: Vec<Sequence<usize>>,
    used: Vec<bool>,
}

/// The graph of the models of a file, and which of them are used.
fn uses_of(alloc: Global, file: &File<'_>) -> Result<Uses, AllocError>
    ensures edges { IfOk result (λ uses. uses.graph.items ≡ model_graph file.now.models) }
    ensures graph { IfOk result (λ uses. IsGraph uses.graph.items) }
    ensures used { IfOk result (λ uses. AreUsed file.now.models uses.used.items) }
{
    let graph = graph(alloc, file)?;
    let used = used(alloc, graph.as_slice())?;
    Ok(Uses { graph, used })
}

/// Reads the first model with each instance in its place, once the names made for their signals are
/// checked.
fn read_made(alloc: Global, models: &Models<'_, '_>, used: &[bool]) -> Result<Content, ReadFault>
    requires tables { AreRight models.now }
    requires ports { models.now.ports.now ≡ table_at (library_in models.now)
        (models_in models.now) (MAX_DEPTH + 1) }
    requires used { MarksUsed (models_in models.now) used.now }
    requires first { 0 < length (models_in models.now) }
    ensures { Reads result (first_fault (made_fault (library_in models.now) (models_in models.now))
        (read_alone (library_in models.now) (flat_model (library_in models.now)
        (models_in models.now) (first_in (models_in models.now))))) }
{
    check_made(alloc, models)?;
    let draft = Draft::new(alloc)?;
    // Wrapped in a `Whole`, so that dropping it is one call.
    let mut draft = Whole { it: draft };
    take_first(alloc, models, used, &mut draft.it)?;
    finish(alloc, draft)
}

/// The tables are right if they are those that are made: a law, which computes nothing.
fn tables_are_right(models: &Models<'_, '_>)
    requires ports { models.now.ports.now ≡ table_at (library_in models.now)
        (models_in models.now) (MAX_DEPTH + 1) }
    requires sizes { models.now.sizes.now ≡ sizes_at (models_in models.now) (MAX_DEPTH + 1) }
    ensures { AreRight models.now }
{}

/// Reads the first model by the tables of the models, once their ports and sizes are checked.
fn read_by_tables(
    alloc: Global,
    library: Option<&Library>,
    file: &File<'_>,
    used: &[bool],
    tables: &ModelTables<'_>,
) -> Result<Content, ReadFault>
    requires used { AreUsed file.now.models used.now }
    requires ports { tables.now.ports.items ≡ table_at (option_copied library) file.now.models
        (MAX_DEPTH + 1) }
    requires sizes { tables.now.sizes.items ≡ sizes_at file.now.models (MAX_DEPTH + 1) }
    requires right { AreTables (option_copied library) file.now.models
        (map (λ (ports : Ports). ports.inputs) tables.now.ports.items) tables.now.sizes.items }
    requires first { 0 < length file.now.models }
    ensures { Reads result (first_fault
        (first_of (sides_fault (option_copied library.entry) file.now.models
        ∷ made_fault (option_copied library.entry) file.now.models ∷ []))
        (read_alone (option_copied library.entry) (flat_model (option_copied library.entry)
        file.now.models (first_in file.now.models)))) }
{
    if let Some(fault) = sides_fault(alloc, library, file, used, tables)? {
        return Err(ReadFault::Fault(fault));
    }
    let models = Models {
        file,
        library,
        ports: tables.ports.as_slice(),
        sizes: tables.sizes.as_slice(),
    };
    tables_are_right(&models);
    read_made(alloc, &models, used)
}

/// Reads the first model by the graph of the models, once it is checked how they nest.
fn read_nested(
    alloc: Global,
    library: Option<&Library>,
    file: &File<'_>,
    uses: &Uses,
) -> Result<Content, ReadFault>
    requires edges { uses.now.graph.items ≡ model_graph file.now.models }
    requires graph { IsGraph uses.now.graph.items }
    requires used { AreUsed file.now.models uses.now.used.items }
    requires first { 0 < length file.now.models }
    ensures { Reads result (first_fault (models_fault (option_copied library.entry)
        file.now.models (first_in file.now.models)) (read_alone (option_copied library.entry)
        (flat_model (option_copied library.entry) file.now.models (first_in file.now.models)))) }
{
    let graph = uses.graph.as_slice();
    let used = uses.used.as_slice();
    if let Some(fault) = nesting_fault(alloc, file, graph, used)? {
        return Err(ReadFault::Fault(fault));
    }
    let tables = model_tables(alloc, library, file, graph)?;
    read_by_tables(alloc, library, file, used, &tables)
}

/// Reads the first model with each instance in its place, if nothing is wrong with the models.
fn read_flat(
    alloc: Global,
    library: Option<&Library>,
    file: &File<'_>,
) -> Result<Content, ReadFault>
    requires { 0 < length file.now.models }
    ensures { Reads result (first_fault (models_fault (option_copied library.entry)
        file.now.models (first_in file.now.models)) (read_alone (option_copied library.entry)
        (flat_model (option_copied library.entry) file.now.models (first_in file.now.models)))) }
{
    let uses = uses_of(alloc, file)?;
    read_nested(alloc, library, file, &uses)
}

/// Reads the first model by the draft of its lines: by itself if it has no instance.
#[tactic(auto, unfolding(crate::specs::Reader::read_first))]
fn read_first(
    alloc: Global,
    library: Option<&Library>,
    file: &File<'_>,
    draft: Whole<Draft>,
) -> Result<Content, ReadFault>
    requires { take_entries (option_copied library) no_lines (first_in file.now.models)
        ≡ Ok draft.it }
    ensures { Reads result (read_first (option_copied library.entry) file.now.models
        (first_in file.now.models)) }
{
    if draft.it.has_instances {
        drop(draft);
        return read_flat(alloc, library, file);
    }
    finish(alloc, draft)
}

/// Reads the models of a file, once their lines are checked.
fn read_file(
    alloc: Global,
    library: Option<&Library>,
    file: &File<'_>,
) -> Result<Content, ReadFault>
    ensures { Reads result (first_fault
        (first_of (file_fault (option_copied library.entry) [] file.now.models
        ∷ unknown_model file.now.models ∷ []))
        (read_first (option_copied library.entry) file.now.models (first_in file.now.models))) }
{
    let draft = checked_first(alloc, file, library)?;
    if let Some(fault) = unknown_model(file) {
        return Err(ReadFault::Fault(fault));
    }
    read_first(alloc, library, file, draft)
}

/// Reads the logical lines of a file as its first model. An error is the first fault of a line, in
/// file order, otherwise the first of the models, otherwise the first of the whole; or want of
/// memory.
#[tactic(auto, unfolding(crate::specs::Reader::read_models))]
pub fn read_lines(
    alloc: Global,
    source: &[u8],
    lines: &[Line],
    library: Option<&Library>,
) -> Result<Content, ReadFault>
    ensures { Reads result (read_models (option_copied library.entry)
        (map (entry_at source.now) lines.now)) }
{
    let file = File::new(alloc, source, lines)?;
    read_file(alloc, library, &file)
}
