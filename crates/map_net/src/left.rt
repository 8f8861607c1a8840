//! The tables of a netlist: those of a circuit that no gates implement.
//!
//! A constant table stays as it is. A root whose tree is a leaf becomes a buffer table; all other
//! tables are dropped. The covers of the roots are consumed in step with the tables, as roots are
//! in table order. Callers rely on `left_from` of `specs/Working.antt`.

ghost use Rattle.std.specs.Prelude.{◌≡◌, ◌++◌, ◌∷◌, [], IfOk, OnOk};
ghost use Rattle.circuit_model.specs.declared.circuit.Tri.TheVariants.{One as AtOne};
ghost use Rattle.tree_cover.specs.declared.writing.Signal.TheVariants.{Leaf as AtLeaf};
ghost use Rattle.map_net.specs.Mapping.{buffer};
ghost use Rattle.map_net.specs.Working.{root_left, next_left, behind_next, table_left};
ghost use Rattle.map_net.specs.Working.{covers_behind, left_from};

use crate::covers::TreeCover;
use circuit_model::{Name, Names, Row, Rows, Table, Tables, Tri};
use sis_base::{Copied, Sequence};
use std::alloc::{AllocError, Global};
use subject_tree::{Leaves, Role};
use tree_cover::Signal;

// A single row, with the positive literal of a single input.
fn row_of_one(alloc: Global) -> Result<Rows, AllocError>
    ensures { IfOk result (λ rows. rows ≡ (AtOne ∷ []) ∷ []) }
{
    let mut row = Vec::with_capacity(alloc, 1)?;
    row.push(Tri::One)?;
    let mut rows = Sequence::new(alloc);
    rows.push(Row::from_vec(row))?;
    Ok(rows)
}

// A single input.
fn input_of(alloc: Global, signal: &Name) -> Result<Names, AllocError>
    ensures { IfOk result (λ names. names ≡ signal.now ∷ []) }
{
    let mut inputs = Sequence::new(alloc);
    inputs.push(signal.copy(alloc)?)?;
    Ok(inputs)
}

// The buffer table from a signal to an output.
fn buffer(alloc: Global, signal: &Name, output: &Name) -> Result<Table, AllocError>
    ensures { IfOk result (λ table. table ≡ buffer signal.now output.now) }
{
    let inputs = input_of(alloc, signal)?;
    let rows = row_of_one(alloc)?;
    Ok(Table {
        inputs,
        output: output.copy(alloc)?,
        rows,
        phase: true,
    })
}

// Appends the buffer table from a leaf, if there is such a leaf.
fn put_buffer(
    alloc: Global,
    left: &mut Tables,
    leaves: &Leaves,
    table: &Table,
    place: usize,
) -> Result<(), AllocError>
    ensures { OnOk result (left.new ≡ left.old ++ root_left leaves.now table.now (AtLeaf place)) }
{
    if let Some(signal) = leaves.name(place) {
        left.push(buffer(alloc, signal, &table.output)?)?;
    }
    Ok(())
}

// Appends what is left of the table of a root that a signal drives.
fn put_root(
    alloc: Global,
    left: &mut Tables,
    leaves: &Leaves,
    table: &Table,
    signal: Signal,
) -> Result<(), AllocError>
    ensures { OnOk result (left.new ≡ left.old ++ root_left leaves.now table.now signal) }
{
    match signal {
        Signal::Gate(_) => Ok(()),
        Signal::Leaf(place) => put_buffer(alloc, left, leaves, table, place),
    }
}

// Appends what is left of the table of the next root, and returns the covers after its own.
fn put_next<'a>(
    alloc: Global,
    left: &mut Tables,
    leaves: &Leaves,
    table: &Table,
    covers: &'a [TreeCover],
) -> Result<&'a [TreeCover], AllocError>
    ensures left { OnOk result (left.new ≡ left.old ++ next_left leaves.now table.now
        covers.entry.now) }
    ensures rest { IfOk result (λ rest. rest.now ≡ behind_next covers.entry.now) }
{
    match covers.split_first() {
        None => Ok(covers),
        Some((cover, rest)) => {
            put_root(alloc, left, leaves, table, cover.root)?;
            Ok(rest)
        }
    }
}

// Appends what is left of a table of a fate, and returns the covers of the roots after it.
fn put_left<'a>(
    alloc: Global,
    left: &mut Tables,
    leaves: &Leaves,
    table: &Table,
    fate: Role,
    covers: &'a [TreeCover],
) -> Result<&'a [TreeCover], AllocError>
    ensures left { OnOk result (left.new ≡ left.old ++ table_left leaves.now fate table.now
        covers.entry.now) }
    ensures rest { IfOk result (λ rest. rest.now ≡ covers_behind fate covers.entry.now) }
{
    match fate {
        Role::Constant => {
            left.push(table.copy(alloc)?)?;
            Ok(covers)
        }
        Role::Put => Ok(covers),
        Role::Unused => Ok(covers),
        Role::Root => put_next(alloc, left, leaves, table, covers),
    }
}

/// The tables that no gates implement, in order, by the fate of each table and the covers of the
/// roots.
pub fn tables_left(
    alloc: Global,
    leaves: &Leaves,
    tables: &[Table],
    fates: &[Role],
    covers: &[TreeCover],
) -> Result<Tables, AllocError>
    ensures { IfOk result (λ left. left ≡ left_from leaves.now fates.now tables.now covers.now) }
{
    let mut left = Sequence::new(alloc);
    let mut rest = covers;
    for (fate, table) in fates.iter().zip(tables) {
        rest = put_left(alloc, &mut left, leaves, table, *fate, rest)?;
    }
    Ok(left)
}
