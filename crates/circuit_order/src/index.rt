//! The index of each table by its output, and the fanouts of each table.
//!
//! `index_of` maps an output to the index of its table, which is the only one of that output;
//! `placed_inputs` counts the inputs of each table that tables drive. `readers_of` lists for each
//! table the indices of the tables that read it, each as often as it does, so that these counts
//! fall to 0 exactly when all that a table reads is listed (Kahn, 1962).

ghost use Rattle.std.specs.Prelude.{◌≡◌, ◌+◌, ◌<◌, ◌==◌, ◌&&◌, ℕ, List, true, length, map, slice_get, slice_index_or, slice_set, replicate, [], ◌∷◌, ◌++◌, bytes_eq, if◌then◌else◌, IfSome, IfOk, OnOk};
ghost use Rattle.indexmap.specs.IndexMap.{get};
ghost use Rattle.circuit_model.specs.Names.{all_different};
ghost use Rattle.circuit_model.specs.Soundness.{outputs_of};
ghost use Rattle.circuit_order.specs.Places.{times, hits, hits_of, is_at, placed_count, IsIndex};

use circuit_model::{Name, Table};
use indexmap::IndexMap;
use sis_base::{Copied, Sequence};
use std::alloc::{AllocError, Global};

/// Indices, in the order in which they were added.
pub type Places = Sequence<usize>;

/// Sets the index of a name.
fn note_place(index: &mut IndexMap<Name, usize>, name: Name, place: usize) -> Result<(), AllocError>
    ensures { OnOk result ((other : List ℕ) → get bytes_eq index.new other
        ≡ (if bytes_eq name other then Some place else get bytes_eq index.old other)) }
{
    let _place = index.insert(name, place)?;
    Ok(())
}

/// Maps each table's output to the table's index.
pub fn index_of(alloc: Global, tables: &[Table]) -> Result<IndexMap<Name, usize>, AllocError>
    requires { all_different (outputs_of tables.now) ≡ true }
    ensures { IfOk result (λ index. IsIndex tables.now (get bytes_eq index)) }
{
    let mut index = IndexMap::new(alloc);
    for (place, table) in tables.iter().enumerate() {
        note_place(&mut index, table.output.copy(alloc)?, place)?;
    }
    Ok(index)
}

/// The index of a name, if it has one.
fn found_place(index: &IndexMap<Name, usize>, name: &Name) -> Option<usize>
    ensures { result ≡ get bytes_eq index.now name.now }
{
    index.get(name).copied()
}

/// The number of names that have an index.
fn count_placed(index: &IndexMap<Name, usize>, names: &[Name]) -> usize
    ensures { result ≡ placed_count (get bytes_eq index.now) names.now }
{
    names
        .iter()
        .filter(|name| found_place(index, name).is_some())
        .count()
}

/// For each table, the number of its inputs that have an index.
pub fn placed_inputs(
    alloc: Global,
    index: &IndexMap<Name, usize>,
    tables: &[Table],
) -> Result<Vec<usize>, AllocError>
    ensures { IfOk result (λ counts. counts.items ≡ map
        (λ table. placed_count (get bytes_eq index.now) table.inputs) tables.now) }
{
    let mut counts = Vec::with_capacity(alloc, tables.len())?;
    for table in tables {
        counts.push(count_placed(index, table.inputs.as_slice()))?;
    }
    Ok(counts)
}

/// The given number of empty lists.
fn no_places(alloc: Global, count: usize) -> Result<Vec<Places>, AllocError>
    ensures { IfOk result (λ lists. lists.items ≡ replicate count []) }
{
    let mut lists = Vec::with_capacity(alloc, count)?;
    for _ in 0..count {
        lists.push(Sequence::new(alloc))?;
    }
    Ok(lists)
}

/// Adds a fanout to the table at an index, if there is one.
fn note_reader(
    readers: &mut Vec<Places>,
    place: Option<usize>,
    reader: usize,
) -> Result<(), AllocError>
    requires { IfSome place (λ i. i < length readers.old.items) }
    ensures length { OnOk result (length readers.new.items ≡ length readers.old.items) }
    ensures counts { OnOk result ((i j : ℕ) → times j (slice_index_or readers.new.items i [])
        ≡ times j (slice_index_or readers.old.items i []) +
        (if reader == j && is_at i place then 1 else 0)) }
{
    if let Some(place) = place {
        readers[place].push(reader)?;
    }
    Ok(())
}

/// Adds a fanout to every table whose output is among the inputs, once for each such input.
fn note_reads(
    readers: &mut Vec<Places>,
    index: &IndexMap<Name, usize>,
    inputs: &[Name],
    reader: usize,
) -> Result<(), AllocError>
    requires { (name : List ℕ) → IfSome (get bytes_eq index.now name)
        (λ i. i < length readers.old.items) }
    ensures length { OnOk result (length readers.new.items ≡ length readers.old.items) }
    ensures counts { OnOk result ((i j : ℕ) → times j (slice_index_or readers.new.items i [])
        ≡ times j (slice_index_or readers.old.items i []) +
        (if reader == j then hits (get bytes_eq index.now) i inputs.now else 0)) }
{
    for input in inputs {
        note_reader(readers, found_place(index, input), reader)?;
    }
    Ok(())
}

/// For each table the indices of its fanouts, each as often as it reads the table.
pub fn readers_of(
    alloc: Global,
    index: &IndexMap<Name, usize>,
    tables: &[Table],
) -> Result<Vec<Places>, AllocError>
    requires { IsIndex tables.now (get bytes_eq index.now) }
    ensures length { IfOk result (λ readers. length readers.items ≡ length tables.now) }
    ensures counts { IfOk result (λ readers. (i j : ℕ) → times j (slice_index_or readers.items i [])
        ≡ hits_of (get bytes_eq index.now) i (slice_get tables.now j)) }
{
    let mut readers = no_places(alloc, tables.len())?;
    for (reader, table) in tables.iter().enumerate() {
        note_reads(&mut readers, index, table.inputs.as_slice(), reader)?;
    }
    Ok(readers)
}
