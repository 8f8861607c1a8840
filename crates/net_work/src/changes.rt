//! The calls that change a working network: `set`, `remove`, `add`.
//!
//! Each passes borrowed parts to `changing`, whose functions own no part of the network, and
//! empties the network if memory runs out; no clause says so. Otherwise it changes one slot and
//! nothing else, and all that is maintained with the tables stays exact (`specs/Slots.antt`). A new
//! table takes the least free name in brackets; `number` is a lower bound on it, which a removal
//! resets to 0.

ghost use Rattle.std.specs.Prelude.{◌≡◌, ℕ, ◌<◌, ◌≤◌, ◌↔◌, true, false, ◌||◌, Option, Some, None, List, is_some, bytes_eq, IfOk, OnOk, IsTrue};
ghost use Rattle.indexmap.specs.IndexMap.{get};
ghost use Rattle.circuit_model.specs.Names.{has, all_different};
ghost use Rattle.circuit_model.specs.Soundness.{outputs_of};
ghost use Rattle.circuit_model.specs.declared.circuit.Table.{Table};
ghost use Rattle.circuit_laws.specs.Edits.{with_tables};
ghost use Rattle.net_core.specs.Fresh.{bracketed, used_names, node_count, IsNewName};
ghost use Rattle.net_core.specs.Tables.{named, IsOverInputs};
ghost use Rattle.net_work.specs.Placed.{standing, circuit_of, table_at, with_slot, with_last, AddsLast};
ghost use Rattle.net_work.specs.Slots.{AreTaken};

use crate::changing::{change_at, clear, put_behind, remove_at};
use crate::frame::Frame;
use crate::work::WorkingNetwork;
use circuit_model::Name;
use cube_cover::Row;
use indexmap::IndexMap;
use net_core::{AddFault, CoverTable, bracketed_name, found_place, is_full};
use sis_base::limits::MAX_NODES;
use std::alloc::{AllocError, Global};

// Whether a name is not free for a new table.
fn is_used(frame: &Frame, places: &IndexMap<Name, usize>, name: &Name) -> bool
    ensures { (tables : List Table) → is_some (get bytes_eq places.now name.now) ≡ has
        (outputs_of tables) name.now → result ≡ has
        (used_names (with_tables frame.now tables)) name.now }
{
    found_place(places, name).is_some() || frame.is_reserved(name)
}

impl<R: Row> WorkingNetwork<R> {
    /// Replaces the table in a slot, which must have one; its name stays. After an error the
    /// network may be any.
    pub fn set(
        &mut self,
        alloc: Global,
        place: usize,
        table: CoverTable<R>,
    ) -> Result<(), AllocError>
        requires there { is_some (table_at self.old.slots place) ≡ true }
        requires over { IsOverInputs table }
        requires once { all_different table.inputs ≡ true }
        ensures { OnOk result ((old : Table) → table_at self.old.slots place ≡ Some old
            → self.new ≡ with_slot self.old place (Some (named old.output table))) }
    {
        match change_at(alloc, &mut self.slots, &mut self.links, place, table) {
            Ok(()) => Ok(()),
            Err(fault) => {
                clear(alloc, &mut self.slots, &mut self.places, &mut self.links);
                self.number = 0;
                Err(fault)
            }
        }
    }

    /// Removes the table of a slot. After an error the network may be any.
    pub fn remove(&mut self, alloc: Global, place: usize) -> Result<(), AllocError>
        requires { is_some (table_at self.old.slots place) ≡ true }
        ensures { OnOk result (self.new ≡ with_slot self.old place None) }
    {
        let removed = remove_at(
            alloc,
            &mut self.slots,
            &mut self.places,
            &mut self.links,
            place,
        );
        self.number = 0;
        match removed {
            Ok(()) => Ok(()),
            Err(fault) => {
                clear(alloc, &mut self.slots, &mut self.places, &mut self.links);
                Err(fault)
            }
        }
    }

    /// Adds a table after the last, under the least number in brackets that is not a name in use.
    /// `NodeLimit` if there are `MAX_NODES` tables and latches already, those of the don't-care
    /// part included. If memory runs out, the network may be any.
    pub fn add(&mut self, alloc: Global, table: CoverTable<R>) -> Result<Name, AddFault>
        requires over { IsOverInputs table }
        requires once { all_different table.inputs ≡ true }
        ensures { AddsLast self.old table self.new result }
    {
        if self.is_at_limit() {
            return Err(AddFault::NodeLimit);
        }
        let number = self.free_number(alloc)?;
        let name = bracketed_name(alloc, number)?;
        self.extend(alloc, &name, table, number)?;
        Ok(name)
    }

    /// The name that the next new table will take: the least number in brackets that is not in use.
    pub fn new_name(&self, alloc: Global) -> Result<Name, AllocError>
        ensures { IfOk result (λ name. IsNewName (circuit_of self.now) name) }
    {
        let free = self.free_number(alloc)?;
        bracketed_name(alloc, free)
    }

    // Appends a table under a new name.
    fn extend(
        &mut self,
        alloc: Global,
        name: &Name,
        table: CoverTable<R>,
        number: u64,
    ) -> Result<(), AllocError>
        requires free { has (used_names (circuit_of self.old)) name.now ≡ false }
        requires taken { AreTaken self.old.frame (standing self.old.slots) number }
        requires over { IsOverInputs table }
        requires once { all_different table.inputs ≡ true }
        ensures { OnOk result (self.new ≡ with_last self.old (named name.now table)) }
    {
        let put = put_behind(
            alloc,
            &mut self.slots,
            &mut self.places,
            &mut self.links,
            name,
            table,
        );
        match put {
            Ok(()) => {
                self.number = number;
                Ok(())
            }
            Err(fault) => {
                clear(alloc, &mut self.slots, &mut self.places, &mut self.links);
                self.number = 0;
                Err(fault)
            }
        }
    }

    // Whether no more table may be added.
    fn is_at_limit(&self) -> bool
        ensures { IsTrue result ↔ (MAX_NODES ≤ node_count (circuit_of self.now)) }
    {
        let circuit = self.frame.circuit();
        is_full(
            self.slots.as_slice(),
            circuit.latches.len(),
            circuit.dont_care.len(),
        )
    }

    // The least number in brackets that is not in use. An error if all are; no machine has memory
    // for so many names.
    fn free_number(&self, alloc: Global) -> Result<u64, AllocError>
        ensures free { IfOk result (λ number. has (used_names (circuit_of self.now))
            (bracketed number) ≡ false) }
        ensures taken { IfOk result (λ number. AreTaken self.now.frame
            (standing self.now.slots) number) }
    {
        for number in self.number..u64::MAX {
            let name = bracketed_name(alloc, number)?;
            if !is_used(&self.frame, &self.places, &name) {
                return Ok(number);
            }
        }
        Err(AllocError)
    }
}
