//! Tables in order, each in a slot of its own, found by their names.
//!
//! A removed table leaves its slot empty, so that the others keep their indices. A hash map leads
//! from a name to its slot (De Micheli, "Synthesis and Optimization of Digital Circuits", chapter
//! 8: a logic network as a set of nodes known by their names). Invariant: each table's name leads
//! to its slot, and no other name leads anywhere. The functions on slots and the map also serve
//! code that works on `Parts`.

ghost use Rattle.std.specs.Prelude.{◌≡◌, ℕ, ◌<◌, Bool, true, false, Option, Some, None, List, [], ◌∷◌, ◌++◌, length, slice_get, slice_set, bytes_eq, is_some, option_map, if◌then◌else◌, IsSome, IfSome, IfOk, OnOk, OnErr};
ghost use Rattle.indexmap.specs.IndexMap.{get};
ghost use Rattle.circuit_model.specs.Names.{has, all_different};
ghost use Rattle.circuit_model.specs.Soundness.{outputs_of};
ghost use Rattle.circuit_model.specs.declared.circuit.Table.{Table as TheWritten};
ghost use Rattle.circuit_model.specs.Values.{driver};
ghost use Rattle.circuit_laws.specs.Edits.{replaced, without};
ghost use Rattle.net_core.specs.Tables.{named, IsOverInputs};
ghost use Rattle.net_core.specs.Places.{present, written_of, IsIndexed, AreOverInputs};
ghost use Rattle.net_core.specs.declared.places.Entry.{Entry};

use crate::table::CoverTable;
use circuit_model::{Name, Table as Written};
use cube_cover::Row;
use indexmap::IndexMap;
use sis_base::{Copied, Sequence};
use std::alloc::{AllocError, Global};
use std::marker::Model;

/// A table and its name.
#[derive(Drop)]
pub struct Entry<R: Row> {
    pub output: Name,
    pub table: CoverTable<R>,
}

/// Tables in order, found by their names; contracts see them as the tables of a circuit.
#[derive(Drop)]
pub struct NamedTables<R: Row> {
    pub(crate) slots: Vec<Option<Entry<R>>>,
    pub(crate) places: IndexMap<Name, usize>,
}

impl<R: Row> Model for NamedTables<R> {
    ghost use Rattle.std.specs.Prelude.{List, bytes_eq};
    ghost use Rattle.indexmap.specs.IndexMap.{get};
    ghost use Rattle.circuit_model.specs.declared.circuit.Table.{Table as TheWritten};

    ghost Value = { List TheWritten };

    ghost use Rattle.net_core.specs.Places.{present, IsIndexed, AreOverInputs};

    ghost view = { λ t. present t.slots.items };

    ghost invariant = { λ t. IsIndexed t.slots.items (get bytes_eq t.places) × AreOverInputs t.slots.items };
}

/// The index of the slot of a name, if it has a table.
pub fn found_place(places: &IndexMap<Name, usize>, name: &Name) -> Option<usize>
    ensures { result ≡ get bytes_eq places.now name.now }
{
    places.get(name).copied()
}

// The index of the slot of a name, which must have a table.
fn known_place(places: &IndexMap<Name, usize>, name: &Name) -> usize
    requires { IsSome (get bytes_eq places.now name.now) }
    ensures { get bytes_eq places.now name.now ≡ Some result }
{
    match found_place(places, name) {
        Some(place) => place,
        None => unreachable!(),
    }
}

/// Removes a name from the map.
pub fn unplace(places: &mut IndexMap<Name, usize>, name: &Name)
    ensures { (other : List ℕ) → get bytes_eq places.new other
        ≡ (if bytes_eq name.now other then None else get bytes_eq places.old other) }
{
    let _place = places.swap_remove(name);
}

// Sets the index of a name. On an error the map is unchanged.
fn place_at(places: &mut IndexMap<Name, usize>, name: Name, place: usize) -> Result<(), AllocError>
    ensures ok { OnOk result ((other : List ℕ) → get bytes_eq places.new other
        ≡ (if bytes_eq name other then Some place else get bytes_eq places.old other)) }
    ensures err { OnErr result ((other : List ℕ) → get bytes_eq places.new other
        ≡ get bytes_eq places.old other) }
{
    let _place = places.insert(name, place)?;
    Ok(())
}

/// The entry of a slot, which must have one.
pub fn entry_at<R: Row>(slots: &[Option<Entry<R>>], place: usize) -> &Entry<R>
    requires { (entry : Entry R) × (slice_get slots.now place ≡ Some (Some entry)) }
    ensures { slice_get slots.now place ≡ Some (Some result.now) }
{
    match &slots[place] {
        Some(entry) => entry,
        None => unreachable!(),
    }
}

/// Replaces the table of a slot, which must have one; its name stays.
pub fn set_table<R: Row>(slots: &mut Vec<Option<Entry<R>>>, place: usize, table: CoverTable<R>)
    requires { (entry : Entry R) × (slice_get slots.old.items place ≡ Some (Some entry)) }
    ensures { (entry : Entry R) → slice_get slots.old.items place ≡ Some (Some entry)
        → slots.new.items ≡ slice_set slots.old.items place
        (Some (record { output = entry.output; table = table })) }
{
    match &mut slots[place] {
        Some(entry) => entry.table = table,
        None => unreachable!(),
    }
}

/// Appends an entry and sets the index of its name. On an error nothing is changed.
pub fn put_last<R: Row>(
    slots: &mut Vec<Option<Entry<R>>>,
    places: &mut IndexMap<Name, usize>,
    entry: Entry<R>,
    key: Name,
) -> Result<(), AllocError>
    requires { key ≡ entry.output }
    ensures slots_ok { OnOk result (slots.new.items ≡ slots.old.items ++ Some entry ∷ []) }
    ensures places_ok { OnOk result ((other : List ℕ) → get bytes_eq places.new other
        ≡ (if bytes_eq key other then Some (length slots.old.items) else get bytes_eq places.old
        other)) }
    ensures slots_err { OnErr result (slots.new.items ≡ slots.old.items) }
    ensures places_err { OnErr result ((other : List ℕ) → get bytes_eq places.new other
        ≡ get bytes_eq places.old other) }
{
    let place = slots.len();
    slots.push(Some(entry))?;
    match place_at(places, key, place) {
        Ok(()) => Ok(()),
        Err(fault) => {
            slots.truncate(place);
            Err(fault)
        }
    }
}

impl<R: Row> NamedTables<R> {
    /// No tables; allocates nothing.
    pub fn new(alloc: Global) -> NamedTables<R>
        ensures { result ≡ [] }
    {
        NamedTables {
            slots: Vec::new(alloc),
            places: IndexMap::new(alloc),
        }
    }

    /// The slots, in order: each has a table, or is empty because its table was removed. No two
    /// tables have the same name, and each table's cover has a column for each of its inputs.
    pub fn slots(&self) -> &[Option<Entry<R>>]
        ensures items { present result.now ≡ self.now }
        ensures distinct { all_different (outputs_of (present result.now)) ≡ true }
        ensures over { AreOverInputs result.now }
    {
        self.slots.as_slice()
    }

    /// Whether a table has the name.
    pub fn contains(&self, name: &Name) -> bool
        ensures { result ≡ has (outputs_of self.now) name.now }
    {
        found_place(&self.places, name).is_some()
    }

    /// The table of a name, if there is one.
    pub fn get(&self, name: &Name) -> Option<&CoverTable<R>>
        ensures driver { driver self.now name.now ≡ option_map
            (λ table. named name.now table.now) result }
        ensures over { IfSome result (λ table. IsOverInputs table.now) }
    {
        match found_place(&self.places, name) {
            None => None,
            Some(place) => Some(&entry_at(self.slots.as_slice(), place).table),
        }
    }

    /// Appends a table under a name that no table has. On an error nothing is changed.
    pub fn push(
        &mut self,
        alloc: Global,
        name: &Name,
        table: CoverTable<R>,
    ) -> Result<(), AllocError>
        requires new { has (outputs_of self.old) name.now ≡ false }
        requires over { IsOverInputs table }
        ensures ok { OnOk result (self.new ≡ self.old ++ named name.now table ∷ []) }
        ensures err { OnErr result (self.new ≡ self.old) }
    {
        let output = name.copy(alloc)?;
        let key = name.copy(alloc)?;
        put_last(
            &mut self.slots,
            &mut self.places,
            Entry { output, table },
            key,
        )?;
        Ok(())
    }

    /// Replaces the table of a name.
    pub fn replace(&mut self, name: &Name, table: CoverTable<R>)
        requires known { has (outputs_of self.old) name.now ≡ true }
        requires over { IsOverInputs table }
        ensures { self.new ≡ replaced self.old (named name.now table) }
    {
        let place = known_place(&self.places, name);
        set_table(&mut self.slots, place, table);
    }

    /// Removes the table of a name. Returns whether there was one.
    pub fn remove(&mut self, name: &Name) -> bool
        ensures tables { self.new ≡ without self.old name.now }
        ensures found { result ≡ has (outputs_of self.old) name.now }
    {
        match found_place(&self.places, name) {
            None => false,
            Some(place) => {
                self.slots[place] = None;
                unplace(&mut self.places, name);
                true
            }
        }
    }
}
