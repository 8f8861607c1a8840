//! The topological order of the tables, by their indices.
//!
//! The order is that of circuit_order, which is by names (Kahn, 1962). It needs only the names of
//! tables, so `bare_table` copies outputs and inputs without rows; then each name is looked up. The
//! result lists the tables exactly in that order.

ghost use Rattle.std.specs.Prelude.{◌≡◌, ℕ, true, Some, List, [], ◌∷◌, ◌++◌, map, is_some, bytes_eq, IfOk, OnOk};
ghost use Rattle.indexmap.specs.IndexMap.{get};
ghost use Rattle.circuit_model.specs.Names.{has};
ghost use Rattle.net_core.specs.Places.{present, written_of};
ghost use Rattle.circuit_order.specs.Order.{order_of};
ghost use Rattle.net_work.specs.Placed.{standing, name_at};
ghost use Rattle.net_work.specs.Slots.{bare};

use crate::work::WorkingNetwork;
use circuit_model::{Name, Table};
use circuit_order::order;
use cube_cover::Row;
use indexmap::IndexMap;
use net_core::{Entry, found_place};
use sis_base::{Copied, Sequence};
use std::alloc::{AllocError, Global};

// The table of an entry as one of a circuit, with its names alone.
#[tactic(auto, unfolding(net_core::specs::Tables::named))]
fn bare_table<R: Row>(alloc: Global, entry: &Entry<R>) -> Result<Table, AllocError>
    ensures { IfOk result (λ table. table ≡ bare (written_of entry.now)) }
{
    Ok(Table {
        inputs: entry.table.inputs.copy(alloc)?,
        output: entry.output.copy(alloc)?,
        rows: Sequence::new(alloc),
        phase: false,
    })
}

// Appends the table of an entry, with its names alone.
#[tactic(auto, unfolding(net_core::specs::Places::present))]
fn push_bare<R: Row>(
    alloc: Global,
    made: &mut Vec<Table>,
    entry: &Option<Entry<R>>,
) -> Result<(), AllocError>
    ensures { OnOk result (made.new.items ≡ made.old.items ++ map bare (present (entry.now ∷ []))) }
{
    if let Some(entry) = entry {
        made.push(bare_table(alloc, entry)?)?;
    }
    Ok(())
}

// The tables of entries as those of a circuit, with their names alone.
fn bare_tables<R: Row>(alloc: Global, slots: &[Option<Entry<R>>]) -> Result<Vec<Table>, AllocError>
    ensures { IfOk result (λ made. made.items ≡ map bare (present slots.now)) }
{
    let mut made = Vec::with_capacity(alloc, slots.len())?;
    for slot in slots {
        push_bare(alloc, &mut made, slot)?;
    }
    Ok(made)
}

// The index of a name, which must have one.
fn known_place(places: &IndexMap<Name, usize>, name: &Name) -> usize
    requires { is_some (get bytes_eq places.now name.now) ≡ true }
    ensures { Some result ≡ get bytes_eq places.now name.now }
{
    match found_place(places, name) {
        Some(place) => place,
        None => unreachable!(),
    }
}

// The indices of names, each of which must have one.
fn known_places(
    alloc: Global,
    places: &IndexMap<Name, usize>,
    names: &[Name],
) -> Result<Vec<usize>, AllocError>
    requires { (name : List ℕ) → has names.now name ≡ true → is_some (get bytes_eq places.now name)
        ≡ true }
    ensures { IfOk result (λ found. map Some found.items ≡ map (get bytes_eq places.now) names.now) }
{
    let mut found = Vec::with_capacity(alloc, names.len())?;
    for name in names {
        found.push(known_place(places, name))?;
    }
    Ok(found)
}

impl<R: Row> WorkingNetwork<R> {
    /// The indices of the tables in topological order: at each step the first table, in slot order,
    /// that reads no table not listed yet.
    pub fn order(&self, alloc: Global) -> Result<Vec<usize>, AllocError>
        ensures { IfOk result (λ places. map (name_at self.now.slots) places.items ≡ map Some
            (order_of (standing self.now.slots))) }
    {
        let tables = bare_tables(alloc, self.slots.as_slice())?;
        let names = order(alloc, tables.as_slice())?;
        known_places(alloc, &self.places, names.as_slice())
    }
}
