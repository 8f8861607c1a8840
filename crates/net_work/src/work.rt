//! The working network: a network whose tables are changed by index, with its fanouts, use counts
//! and index by name.
//!
//! Source: De Micheli, "Synthesis and Optimization of Digital Circuits", chapter 8; Brayton,
//! Rudell, Sangiovanni-Vincentelli and Wang, "MIS" (1987). Invariant (`IsKeptUp`): names lead to
//! their slots, each table lists each input once and has a cover over its inputs, fanouts and uses
//! are exact, and all names in brackets below `number` are taken. Contracts see the interface and
//! the tables in their slots; all queries here are exact, except `reader_count`.

ghost use Rattle.std.specs.Prelude.{◌≡◌, ℕ, ◌+◌, ◌<◌, ◌≤◌, ◌↔◌, Bool, true, false, not, ◌||◌, Option, Some, None, List, [], ◌∷◌, ◌++◌, length, is_some, slice_get, slice_set, bytes_eq, IfSome, IfOk, OnOk, IsTrue};
ghost use Rattle.std.specs.List.Sorted.{IsStrictlyIncreasing};
ghost use Rattle.std.specs.Option.{option_map};
ghost use Rattle.indexmap.specs.IndexMap.{get};
ghost use Rattle.circuit_model.specs.Names.{has, all_different};
ghost use Rattle.circuit_model.specs.Soundness.{outputs_of, IsSound};
ghost use Rattle.circuit_model.specs.declared.circuit.Table.{Table};
ghost use Rattle.circuit_laws.specs.Edits.{with_tables, is_root};
ghost use Rattle.net_readers.specs.Fanouts.{is_in};
ghost use Rattle.net_core.specs.Fresh.{bracketed, used_names, node_count};
ghost use Rattle.net_core.specs.Places.{present, written_of};
ghost use Rattle.net_core.specs.Reads.{value_of};
ghost use Rattle.net_core.specs.Tables.{named, IsOverInputs};
ghost use Rattle.net_work.specs.Placed.{standing, circuit_of, table_at, with_slot, with_last, AddsLast};
ghost use Rattle.net_work.specs.Slots.{written_slots, inputs_at, AreLinked, AreTaken};

use crate::frame::Frame;
use crate::links::{Links, links_of};
use crate::{literal_count, worth};
use circuit_model::Name;
use cube_cover::Row;
use indexmap::IndexMap;
use net_core::{Entry, Network, Parts, found_place};
use net_readers::Places;
use sis_base::Whole;
use std::alloc::{AllocError, Global};
use std::marker::Model;

/// A network whose tables are in slots and are changed by index.
pub struct WorkingNetwork<R: Row> {
    pub(crate) frame: Frame,
    pub(crate) slots: Vec<Option<Entry<R>>>,
    pub(crate) places: IndexMap<Name, usize>,
    pub(crate) links: Links,
    pub(crate) number: u64,
}

// Written out, so that functions that own a working network drop it in one call.
impl<R: Row> Drop for WorkingNetwork<R> {
    fn drop(self) {
        let WorkingNetwork {
            frame: _frame,
            slots: _slots,
            places: _places,
            links: _links,
            number: _number,
        } = self;
    }
}

impl<R: Row> Model for WorkingNetwork<R> {
    ghost use Rattle.std.specs.Prelude.{bytes_eq};
    ghost use Rattle.indexmap.specs.IndexMap.{get};
    ghost use Rattle.net_work.specs.Placed.{Placed};

    ghost Value = { Placed };

    ghost use Rattle.net_work.specs.Slots.{written_slots, IsKeptUp};

    ghost view = { λ w. record { frame = w.frame; slots = written_slots w.slots.items } };

    ghost invariant = { λ w. IsKeptUp w.frame w.slots.items
        (get bytes_eq w.places) w.links w.number };
}

impl<R: Row> WorkingNetwork<R> {
    /// The working network of a network, which stays; its parts are copied.
    pub fn of(alloc: Global, network: &Network<R>) -> Result<WorkingNetwork<R>, AllocError>
        ensures circuit { IfOk result (λ work. circuit_of work ≡ network.now) }
        ensures sound { IsSound network.now }
    {
        network.sound();
        let copy = network.copy(alloc)?;
        WorkingNetwork::from_network(alloc, copy)
    }

    /// The working network of a network, whose parts move over.
    pub fn from_network(alloc: Global, network: Network<R>) -> Result<WorkingNetwork<R>, AllocError>
        ensures circuit { IfOk result (λ work. circuit_of work ≡ network) }
        ensures sound { IsSound network }
    {
        network.sound();
        let Parts {
            frame,
            slots,
            places,
        } = network.into_parts(alloc);
        // One value, so that one call drops it.
        let places = Whole { it: places };
        let frame = Frame::of(alloc, frame)?;
        let links = links_of(alloc, slots.as_slice())?;
        Ok(WorkingNetwork {
            frame,
            slots,
            places: places.into_it(),
            links,
            number: 0,
        })
    }

    /// The network of a working network whose circuit is sound; allocates nothing.
    pub fn into_network(self) -> Network<R>
        requires { IsSound (circuit_of self) }
        ensures { result ≡ circuit_of self }
    {
        let WorkingNetwork {
            frame,
            slots,
            places,
            links: _links,
            number: _number,
        } = self;
        Network::from_parts(Parts {
            frame: frame.into_circuit(),
            slots,
            places,
        })
    }

    /// The table of a slot and its name, if it has one. Its cover has a column for each input, and
    /// it lists each input once.
    pub fn entry(&self, place: usize) -> Option<&Entry<R>>
        ensures table { option_map (λ entry. written_of entry.now) result
            ≡ table_at self.now.slots place }
        ensures over { IfSome result (λ entry. IsOverInputs entry.now.table) }
        ensures once { IfSome result (λ entry. all_different entry.now.table.inputs ≡ true) }
    {
        match self.slots.get(place) {
            None => None,
            Some(slot) => slot.as_ref(),
        }
    }

    /// The number of slots, the empty ones included.
    pub fn len(&self) -> usize
        ensures { result ≡ length self.now.slots }
    {
        self.slots.len()
    }

    /// The index of the table that drives a signal, if there is one.
    pub fn place_of(&self, name: &Name) -> Option<usize>
        ensures some { IfSome result (λ place. (table : Table)
            × (table_at self.now.slots place ≡ Some table) × (table.output ≡ name.now)) }
        ensures known { is_some result ≡ has (outputs_of (standing self.now.slots)) name.now }
    {
        found_place(&self.places, name)
    }

    /// Whether a signal is neither an output nor a latch's input.
    pub fn is_inner(&self, name: &Name) -> bool
        ensures { result ≡ not (is_root self.now.frame name.now) }
    {
        !self.frame.is_root(name)
    }

    /// The fanouts of a signal: the indices of the tables that read it, each once, in increasing
    /// order.
    pub fn readers(&self, alloc: Global, name: &Name) -> Result<Places, AllocError>
        ensures exact { IfOk result (λ places. (place : ℕ)
            → is_in places place ≡ has (inputs_at self.now.slots place) name.now) }
        ensures rising { IfOk result IsStrictlyIncreasing }
    {
        self.links.readers.places(alloc, name)
    }

    /// The number of tables that read a name. No clause says so: it is used to choose between
    /// equivalent methods, for speed alone.
    pub fn reader_count(&self, name: &Name) -> usize {
        self.links.readers.count(name)
    }

    /// The elimination value of the table at an index: n * l - n - l for its n uses and its l
    /// literals.
    pub fn value(&self, place: usize) -> Result<i128, AllocError>
        ensures { IfOk result (λ value. (table : Table)
            → table_at self.now.slots place ≡ Some table
            → value ≡ value_of (standing self.now.slots) table.output) }
    {
        match self.entry(place) {
            None => Ok(0),
            Some(entry) => worth(
                self.links.uses.uses(&entry.output) as u128,
                literal_count(&entry.table),
            ),
        }
    }
}
