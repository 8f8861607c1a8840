//! The first table that is reached from itself (BLIF appendix of the SIS report, UCB/ERL M92/41:
//! the tables of a model form no cycle).
//!
//! `graph_of` turns tables into a graph over their indices, in which each table has edges to the
//! tables that drive its inputs; `graph_cycle` finds the first cyclic node. A name that several
//! tables drive stands for the first of them. `first_on_cycle` asks that all outputs are different;
//! `cyclic_place` does not, and serves the check of don't-care parts.

ghost use Rattle.std.specs.Prelude.{◌≡◌, ◌++◌, true, map, bytes_eq, option_to_list, IfOk, OnOk};
ghost use Rattle.std.specs.Option.{option_copied};
ghost use Rattle.std.specs.List.{filter_map};
ghost use Rattle.indexmap.specs.IndexMap.{get};
ghost use Rattle.circuit_checks.specs.Graphs.{first_cyclic};
ghost use Rattle.circuit_model.specs.Names.{all_different};
ghost use Rattle.circuit_model.specs.Soundness.{outputs_of};
ghost use Rattle.circuit_model.specs.declared.circuit.Table.{Table};
ghost use Rattle.circuit_checks.specs.Cycles.{first_on_cycle};
ghost use Rattle.circuit_checks.specs.Sets.{place_in, graph_of, output_at};

use crate::first_cyclic;
use circuit_model::{Name, Table};
use indexmap::IndexMap;
use sis_base::{Copied, Sequence};
use std::alloc::{AllocError, Global};

/// The output of the first table that is reached from itself. The tables must have different
/// outputs.
pub fn first_on_cycle<'a>(
    alloc: Global,
    tables: &'a [Table],
) -> Result<Option<&'a Name>, AllocError>
    requires { all_different (outputs_of tables.now) ≡ true }
    ensures { IfOk result (λ found. option_copied found ≡ first_on_cycle tables.now) }
{
    let place = cyclic_place(alloc, tables)?;
    let found = output_at(tables, place);
    Ok(found)
}

/// The index of the first table that is reached from itself. A name leads to the first table that
/// has it as output.
pub(crate) fn cyclic_place(alloc: Global, tables: &[Table]) -> Result<Option<usize>, AllocError>
    ensures { IfOk result (λ place. place ≡ first_cyclic (graph_of tables.now)) }
{
    let graph = graph_of(alloc, tables)?;
    let place = first_cyclic(alloc, graph.as_slice())?;
    Ok(place)
}

/// The output of the table at an index.
#[tactic(auto, unfolding(crate::specs::Sets::output_at))]
fn output_at(tables: &[Table], place: Option<usize>) -> Option<&Name>
    ensures { option_copied result ≡ output_at tables.now place }
{
    let table = tables.get(place?)?;
    Some(&table.output)
}

/// The tables as a graph over their indices.
#[tactic(auto, unfolding(crate::specs::Sets::graph_of))]
fn graph_of(alloc: Global, tables: &[Table]) -> Result<Vec<Sequence<usize>>, AllocError>
    ensures { IfOk result (λ graph. graph.items ≡ graph_of tables.now) }
{
    let firsts = first_places(alloc, tables)?;
    let graph = graph_over(alloc, &firsts, tables)?;
    Ok(graph)
}

/// For each table, the indices of the tables that drive its inputs.
fn graph_over(
    alloc: Global,
    firsts: &IndexMap<Name, usize>,
    tables: &[Table],
) -> Result<Vec<Sequence<usize>>, AllocError>
    ensures { IfOk result (λ graph. graph.items ≡ map
        (λ (table : Table). filter_map (get bytes_eq firsts.now) table.inputs) tables.now) }
{
    let mut graph = Vec::new(alloc);
    for table in tables {
        graph.push(places_of(alloc, firsts, table.inputs.as_slice())?)?;
    }
    Ok(graph)
}

/// Maps each output to the index of its first table: inserts from the last table to the first, so
/// that earlier tables overwrite later ones.
fn first_places(alloc: Global, tables: &[Table]) -> Result<IndexMap<Name, usize>, AllocError>
    ensures { IfOk result (λ firsts. get bytes_eq firsts ≡ place_in (outputs_of tables.now)) }
{
    let mut firsts = IndexMap::new(alloc);
    let mut left = tables.len();
    while left > 0 {
        left -= 1;
        let name = tables[left].output.copy(alloc)?;
        let _later = firsts.insert(name, left)?;
    }
    Ok(firsts)
}

/// The index of a name.
fn place_of(firsts: &IndexMap<Name, usize>, name: &Name) -> Option<usize>
    ensures { result ≡ get bytes_eq firsts.now name.now }
{
    firsts.get(name).copied()
}

/// The indices of those names that have one.
fn places_of(
    alloc: Global,
    firsts: &IndexMap<Name, usize>,
    names: &[Name],
) -> Result<Sequence<usize>, AllocError>
    ensures { IfOk result (λ places. places ≡ filter_map (get bytes_eq firsts.now) names.now) }
{
    let mut places = Sequence::new(alloc);
    for name in names {
        add_place(&mut places, place_of(firsts, name))?;
    }
    Ok(places)
}

/// Appends an index, if there is one.
pub fn add_place(places: &mut Sequence<usize>, place: Option<usize>) -> Result<(), AllocError>
    ensures { OnOk result (places.new ≡ places.old ++ option_to_list place) }
{
    if let Some(place) = place {
        places.push(place)?;
    }
    Ok(())
}
