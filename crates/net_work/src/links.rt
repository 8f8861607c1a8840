//! The fanouts of each signal and its use counts, maintained together.
//!
//! Source: Brayton, Rudell, Sangiovanni-Vincentelli and Wang, "MIS: A Multiple-Level Logic
//! Optimization System" (1987): fanouts and values of nodes. `add`, `change` and `remove` are the
//! changes of one slot; after each, fanouts and counts are exactly those of the tables in the slots
//! (`AreLinked`). Tables must list each input once.

ghost use Rattle.std.specs.Prelude.{◌≡◌, ℕ, ◌≤◌, true, Option, Some, None, List, [], ◌∷◌, ◌++◌, length, slice_set, bytes_eq, IfOk, OnOk};
ghost use Rattle.std.specs.Option.{option_map};
ghost use Rattle.circuit_model.specs.Names.{all_different};
ghost use Rattle.circuit_model.specs.declared.circuit.Table.{Table};
ghost use Rattle.net_readers.specs.Fanouts.{is_in, told};
ghost use Rattle.net_core.specs.Places.{written_of};
ghost use Rattle.net_core.specs.Reads.{uses_in};
ghost use Rattle.net_core.specs.Tables.{named};
ghost use Rattle.net_work.specs.Uses.{told_uses};
ghost use Rattle.net_work.specs.Placed.{standing, table_at};
ghost use Rattle.net_work.specs.Slots.{written_slots, AreLinked, AreOnce};

use crate::UseCounts;
use circuit_model::Name;
use cube_cover::Row;
use net_core::{CoverTable, Entry};
use net_readers::{Fanouts, Places};
use std::alloc::{AllocError, Global};

/// The fanouts and the uses of all signals.
#[derive(Drop)]
pub struct Links {
    pub(crate) readers: Fanouts,
    pub(crate) uses: UseCounts,
}

impl Links {
    /// Those of no tables; allocates nothing.
    pub fn of_none(alloc: Global) -> Links
        ensures { AreLinked result [] }
    {
        Links {
            readers: Fanouts::of_none(alloc),
            uses: UseCounts::of_none(alloc),
        }
    }

    /// Adds a table in a new last slot.
    pub fn add<R: Row>(
        &mut self,
        alloc: Global,
        place: usize,
        table: &CoverTable<R>,
    ) -> Result<(), AllocError>
        requires once { all_different table.now.inputs ≡ true }
        ensures { OnOk result ((slots : List (Option Table)) (output : List ℕ)
            → AreLinked self.old slots → length slots ≡ place → AreLinked self.new
            (slots ++ Some (named output table.now) ∷ [])) }
    {
        self.readers.add(alloc, place, table.inputs.as_slice())?;
        self.uses.add(alloc, table)
    }

    /// Replaces a table by another one.
    pub fn change<R: Row>(
        &mut self,
        alloc: Global,
        place: usize,
        before: &CoverTable<R>,
        now: &CoverTable<R>,
    ) -> Result<(), AllocError>
        requires before { all_different before.now.inputs ≡ true }
        requires now { all_different now.now.inputs ≡ true }
        requires counted { (name : List ℕ) → uses_in name
            (named [] before.now) ≤ told_uses self.old.uses name }
        ensures { OnOk result ((slots : List (Option Table)) (output : List ℕ)
            → AreLinked self.old slots → table_at slots place ≡ Some (named output before.now)
            → AreLinked self.new (slice_set slots place (Some (named output now.now)))) }
    {
        self.readers.change(
            alloc,
            place,
            before.inputs.as_slice(),
            now.inputs.as_slice(),
        )?;
        self.uses.remove(alloc, before)?;
        self.uses.add(alloc, now)
    }

    /// Removes a table.
    pub fn remove<R: Row>(
        &mut self,
        alloc: Global,
        place: usize,
        before: &CoverTable<R>,
    ) -> Result<(), AllocError>
        requires once { all_different before.now.inputs ≡ true }
        requires counted { (name : List ℕ) → uses_in name
            (named [] before.now) ≤ told_uses self.old.uses name }
        ensures { OnOk result ((slots : List (Option Table)) (output : List ℕ)
            → AreLinked self.old slots → table_at slots place ≡ Some (named output before.now)
            → AreLinked self.new (slice_set slots place None)) }
    {
        let none = Vec::new(alloc);
        self.readers
            .change(alloc, place, before.inputs.as_slice(), none.as_slice())?;
        self.uses.remove(alloc, before)
    }
}

// Adds the table of the next slot, if it has one.
fn link_slot<R: Row>(
    alloc: Global,
    links: &mut Links,
    place: usize,
    slot: &Option<Entry<R>>,
) -> Result<(), AllocError>
    requires { AreOnce (slot.now ∷ []) }
    ensures { OnOk result ((slots : List (Option Table)) → AreLinked links.old slots
        → length slots ≡ place → AreLinked links.new (slots ++ option_map written_of slot.now ∷ [])) }
{
    match slot {
        None => Ok(()),
        Some(entry) => links.add(alloc, place, &entry.table),
    }
}

/// The fanouts and uses of the tables in slots.
pub(crate) fn links_of<R: Row>(
    alloc: Global,
    slots: &[Option<Entry<R>>],
) -> Result<Links, AllocError>
    requires { AreOnce slots.now }
    ensures { IfOk result (λ links. AreLinked links (written_slots slots.now)) }
{
    let mut links = Links::of_none(alloc);
    for (place, slot) in slots.iter().enumerate() {
        link_slot(alloc, &mut links, place, slot)?;
    }
    Ok(links)
}
