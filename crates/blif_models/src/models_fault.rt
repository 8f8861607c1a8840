//! What is wrong with the models of a file and with how the first is made of them.
//!
//! Source: BLIF appendix of the SIS report (UCB/ERL M92/41), `.subckt`. The order of the causes is
//! the project's own (`models_fault` of `specs/Reader.antt`): how models nest, their ports and
//! sizes, the names that are made for signals.

ghost use Rattle.std.specs.Prelude.{◌≡◌, ◌+◌, map, length, option_copied, IfOk};
ghost use Rattle.std.specs.List.{range_with_len};
ghost use Rattle.circuit_checks.specs.Graphs.{IsGraph};
ghost use Rattle.blif_models.specs.Models.{model_graph, is_used};
ghost use Rattle.blif_models.specs.PortFaults.{AreUsed};
ghost use Rattle.blif_models.specs.PortTables.{table_at};
ghost use Rattle.blif_models.specs.Sizes.{sizes_at};
ghost use Rattle.blif_models.specs.Checking.{Checks};
ghost use Rattle.blif_models.specs.Reading.{nesting_fault, sides_fault, clash_fault, made_fault};
ghost use Rattle.blif_models.specs.Contexts.{library_in, models_in, AreRight};
ghost use Rattle.blif_models.specs.declared.limits.TheConstants.{MAX_DEPTH};

use crate::file::File;
use crate::flat::Models;
use crate::graph::{depth_fault, recursion};
use crate::made::{first_clash, made_names};
use crate::mentions::names_in;
use crate::model_tables::ModelTables;
use crate::port_faults::{ports_fault, twice_fault};
use crate::sizes::count_fault;
use blif_lines::{BlifFault, ReadFault};
use circuit_model::Name;
use genlib_format::Library;
use sis_base::{Copied, Sequence};
use std::alloc::{AllocError, Global};

/// What is wrong with how the models nest, by their graph and the marks of those that are used.
#[tactic(auto, unfolding(crate::specs::Reading::nesting_fault, blif_lines::specs::Lines::first_of))]
pub fn nesting_fault(
    alloc: Global,
    file: &File<'_>,
    graph: &[Sequence<usize>],
    used: &[bool],
) -> Result<Option<BlifFault>, AllocError>
    requires graph { IsGraph graph.now }
    requires models { graph.now ≡ model_graph file.now.models }
    requires used { used.now ≡ map (is_used graph.now) (range_with_len 0 (length graph.now)) }
    ensures { IfOk result (λ fault. fault ≡ nesting_fault file.now.models) }
{
    if let Some(fault) = recursion(alloc, file, graph, used)? {
        return Ok(Some(fault));
    }
    let fault = depth_fault(alloc, graph)?;
    Ok(fault)
}

/// What is wrong with the ports of the models that are used, and with the size of the first.
#[tactic(auto, unfolding(crate::specs::Reading::sides_fault, blif_lines::specs::Lines::first_of))]
pub fn sides_fault(
    alloc: Global,
    library: Option<&Library>,
    file: &File<'_>,
    used: &[bool],
    tables: &ModelTables<'_>,
) -> Result<Option<BlifFault>, AllocError>
    requires used { AreUsed file.now.models used.now }
    requires ports { tables.now.ports.items ≡ table_at (option_copied library) file.now.models
        (MAX_DEPTH + 1) }
    requires sizes { tables.now.sizes.items ≡ sizes_at file.now.models (MAX_DEPTH + 1) }
    ensures { IfOk result (λ fault. fault ≡ sides_fault (option_copied library.entry)
        file.now.models) }
{
    if let Some(fault) = twice_fault(alloc, file, used)? {
        return Ok(Some(fault));
    }
    if let Some(fault) = ports_fault(alloc, library, file, used, tables.ports.as_slice())? {
        return Ok(Some(fault));
    }
    Ok(count_fault(file, tables.sizes.as_slice()))
}

/// The first of the names that are made that clashes.
fn clash_fault(
    alloc: Global,
    file: &File<'_>,
    made: &[Name],
) -> Result<Option<BlifFault>, AllocError>
    ensures { IfOk result (λ fault. fault ≡ clash_fault file.now.models made.now) }
{
    let names = names_in(alloc, file, 0)?;
    match first_clash(alloc, names.as_slice(), made)? {
        None => Ok(None),
        Some(name) => Ok(Some(BlifFault::NameClash(name.copy(alloc)?))),
    }
}

/// Checks the names that are made for signals of instances.
#[tactic(auto, unfolding(crate::specs::Reading::made_fault, blif_lines::specs::Lines::first_of))]
pub fn check_made(alloc: Global, models: &Models<'_, '_>) -> Result<(), ReadFault>
    requires { AreRight models.now }
    ensures { Checks result (made_fault (library_in models.now) (models_in models.now)) }
{
    let made = made_names(alloc, models, models.file.body(0))?;
    if let Some(fault) = clash_fault(alloc, models.file, made.as_slice())? {
        return Err(ReadFault::Fault(fault));
    }
    Ok(())
}
