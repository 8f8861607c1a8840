//! Networks: circuits whose tables are found by their names.
//!
//! Source: De Micheli, "Synthesis and Optimization of Digital Circuits", chapter 8 (logic
//! networks), and the BLIF appendix of the SIS report (UCB/ERL M92/41). Contracts see a network as
//! its circuit, and its invariant is that this circuit is sound; `sound` gives the caller this
//! fact. `replace`, `remove` and `add` change one table or latch and ask for what keeps the circuit
//! sound. `from_circuit` and `to_circuit` convert rows to covers and back; `into_parts` and
//! `from_parts` move the parts, for code that changes tables by index.

ghost use Rattle.std.specs.Prelude.{◌≡◌, ℕ, ◌<◌, Bool, true, false, not, Option, Some, None, List, [], ◌∷◌, ◌++◌, length, filter, bytes_eq, ◌≤◌, ◌↔◌, option_map, IsTrue, IfSome, IfOk, OnOk, OnErr};
ghost use Rattle.std.specs.List.{AllByRecursion};
ghost use Rattle.circuit_model.specs.Names.{has, all_different};
ghost use Rattle.circuit_model.specs.Soundness.{outputs_of, IsSound, IsShaped, IsAcyclic};
ghost use Rattle.circuit_model.specs.declared.circuit.Table.{Table as TheWritten};
ghost use Rattle.circuit_model.specs.Values.{driver};
ghost use Rattle.circuit_laws.specs.Fitting.{IsFitting};
ghost use Rattle.circuit_laws.specs.Kept.{IsClosed};
ghost use Rattle.indexmap.specs.IndexMap.{get};
ghost use Rattle.circuit_laws.specs.Edits.{replaced, with_tables, with_replaced, with_added, with_removed, is_other, latches_kept, timing_with};
ghost use Rattle.net_core.specs.Tables.{named, IsOverInputs};
ghost use Rattle.net_core.specs.Fresh.{used_names, IsNewName, node_count, Adds};
ghost use Rattle.net_core.specs.Places.{present, written_of, IsIndexed, AreOverInputs};
ghost use Rattle.net_core.specs.Reads.{sizes_of};
ghost use Rattle.circuit_order.specs.Order.{order_of};

use crate::adding::{
    AddFault, bracketed_name, drives_latch, is_control, is_full, is_mentioned, table_count,
};
use crate::places::{Entry, NamedTables};
use crate::table::CoverTable;
use circuit_model::{
    Circuit, Latch, Latches, Name, Names, Table as Written, Tables, Timing, has_name, timing_copied,
};
use circuit_order::order;
use cube_cover::Row;
use indexmap::IndexMap;
use sis_base::limits::MAX_NODES;
use sis_base::{Copied, Sequence, Whole};
use std::alloc::{AllocError, Global};
use std::marker::Model;
use std::mem;

/// The numbers of inputs, outputs, tables, latches and tables of the don't-care part.
#[derive(Clone, Copy)]
pub struct Sizes {
    pub inputs: usize,
    pub outputs: usize,
    pub tables: usize,
    pub latches: usize,
    pub dont_cares: usize,
}

/// A sound circuit whose tables are found by their names and changed one at a time.
pub struct Network<R: Row> {
    name: Name,
    inputs: Names,
    outputs: Names,
    clocks: Names,
    timing: Option<Timing>,
    latches: Vec<Latch>,
    tables: NamedTables<R>,
    dont_care: Tables,
}

// By hand, so that functions that own a network drop it in one call.
impl<R: Row> Drop for Network<R> {
    fn drop(self) {
        let Network {
            name: _name,
            inputs: _inputs,
            outputs: _outputs,
            clocks: _clocks,
            timing: _timing,
            latches: _latches,
            tables: _tables,
            dont_care: _dont_care,
        } = self;
    }
}

/// The parts of a network: the circuit without its tables, the tables in their slots, and the index
/// of the slot of each name.
#[derive(Drop)]
pub struct Parts<R: Row> {
    pub frame: Circuit,
    pub slots: Vec<Option<Entry<R>>>,
    pub places: IndexMap<Name, usize>,
}

impl<R: Row> Model for Network<R> {
    ghost use Rattle.circuit_model.specs.declared.circuit.Circuit.{Circuit};

    ghost Value = { Circuit };

    ghost use Rattle.circuit_model.specs.Soundness.{IsSound};

    ghost view = { λ n. record { name = n.name; inputs = n.inputs; outputs = n.outputs; clocks = n.clocks; timing = n.timing; latches = n.latches.items; tables = n.tables; dont_care = n.dont_care } };

    ghost invariant = { λ n. IsSound (record { name = n.name; inputs = n.inputs; outputs = n.outputs; clocks = n.clocks; timing = n.timing; latches = n.latches.items; tables = n.tables; dont_care = n.dont_care }) };
}

// The tables of a circuit, with their rows as covers, found by their names. Each goes as its cover
// is made, so that a large circuit is not held twice.
fn tables_from<R: Row>(alloc: Global, tables: Vec<Written>) -> Result<NamedTables<R>, AllocError>
    requires distinct { all_different (outputs_of tables.items) ≡ true }
    requires shaped { AllByRecursion IsShaped tables.items }
    ensures { IfOk result (λ made. made ≡ tables.items) }
{
    let mut made = NamedTables::new(alloc);
    for written in tables {
        let Written {
            inputs,
            output,
            rows,
            phase,
        } = written;
        let table = CoverTable::over(alloc, inputs, rows.as_slice(), phase)?;
        made.push(alloc, &output, table)?;
    }
    Ok(made)
}

// Appends the circuit's table of an entry, if there is one.
#[tactic(auto, unfolding(crate::specs::Places::present))]
fn push_written<R: Row>(
    alloc: Global,
    made: &mut Vec<Written>,
    entry: &Option<Entry<R>>,
) -> Result<(), AllocError>
    ensures { OnOk result (made.new.items ≡ made.old.items ++ present (entry.now ∷ [])) }
{
    if let Some(entry) = entry {
        made.push(entry.table.to_written(alloc, &entry.output)?)?;
    }
    Ok(())
}

// The circuit's tables of the entries.
fn tables_to<R: Row>(alloc: Global, slots: &[Option<Entry<R>>]) -> Result<Tables, AllocError>
    ensures { IfOk result (λ made. made ≡ present slots.now) }
{
    let mut made = Vec::with_capacity(alloc, slots.len())?;
    for slot in slots {
        push_written(alloc, &mut made, slot)?;
    }
    Ok(Sequence::from_vec(made))
}

// Appends a copy of an entry's table, if there is one.
#[tactic(auto, using(crate::proofs::Indexing::entry_named), unfolding(crate::specs::Places::present))]
fn push_copy<R: Row>(
    alloc: Global,
    made: &mut NamedTables<R>,
    entry: &Option<Entry<R>>,
) -> Result<(), AllocError>
    requires new { (name : List ℕ) → has (outputs_of (present (entry.now ∷ []))) name ≡ true → has
        (outputs_of made.old) name ≡ false }
    requires over { IfSome entry.now (λ stored. IsOverInputs stored.table) }
    ensures { OnOk result (made.new ≡ made.old ++ present (entry.now ∷ [])) }
{
    if let Some(entry) = entry {
        made.push(alloc, &entry.output, entry.table.copy(alloc)?)?;
    }
    Ok(())
}

// Copies tables.
fn tables_copied<R: Row>(
    alloc: Global,
    slots: &[Option<Entry<R>>],
) -> Result<NamedTables<R>, AllocError>
    requires distinct { all_different (outputs_of (present slots.now)) ≡ true }
    requires over { AreOverInputs slots.now }
    ensures { IfOk result (λ made. made ≡ present slots.now) }
{
    let mut made = NamedTables::new(alloc);
    for slot in slots {
        push_copy(alloc, &mut made, slot)?;
    }
    Ok(made)
}

// Copies of latches, in order.
fn latches_copied(alloc: Global, latches: &[Latch]) -> Result<Latches, AllocError>
    ensures { IfOk result (λ made. made ≡ latches.now) }
{
    let mut made = Vec::with_capacity(alloc, latches.len())?;
    for latch in latches {
        made.push(latch.copy(alloc)?)?;
    }
    Ok(Sequence::from_vec(made))
}

// Removes the latch of a name.
#[tactic(auto, unfolding(circuit_laws::specs::Edits::latches_kept))]
fn remove_latch(latches: &mut Vec<Latch>, name: &Name)
    ensures { latches.new.items ≡ latches_kept (is_other name.now) latches.old.items }
{
    latches.retain(|latch| *name != latch.output);
}

// Drops the timing if there is no latch.
fn drop_timing(latches: &[Latch], timing: &mut Option<Timing>)
    ensures { timing.new ≡ timing_with latches.now timing.old }
{
    if latches.is_empty() {
        *timing = None;
    }
}

// The names of a circuit: its own, its ports and its clocks.
struct Ports {
    name: Name,
    inputs: Names,
    outputs: Names,
    clocks: Names,
}

// By hand, so that one call drops them.
impl Drop for Ports {
    fn drop(self) {
        let Ports {
            name: _name,
            inputs: _inputs,
            outputs: _outputs,
            clocks: _clocks,
        } = self;
    }
}

impl Ports {
    // The circuit with these names and no tables.
    fn into_frame(
        self,
        alloc: Global,
        timing: Option<Timing>,
        latches: Latches,
        dont_care: Tables,
    ) -> Circuit
        ensures { result ≡ record {
          name = self.name;
          inputs = self.inputs;
          outputs = self.outputs;
          clocks = self.clocks;
          timing = timing;
          latches = latches;
          tables = [];
          dont_care =
              dont_care;
        } }
    {
        let Ports {
            name,
            inputs,
            outputs,
            clocks,
        } = self;
        Circuit {
            name,
            inputs,
            outputs,
            clocks,
            timing,
            latches,
            tables: Sequence::new(alloc),
            dont_care,
        }
    }
}

// The circuit with other tables; allocates nothing.
fn circuit_with(frame: Circuit, tables: Tables) -> Circuit
    ensures { result ≡ with_tables frame tables }
{
    Circuit {
        name: frame.name,
        inputs: frame.inputs,
        outputs: frame.outputs,
        clocks: frame.clocks,
        timing: frame.timing,
        latches: frame.latches,
        tables,
        dont_care: frame.dont_care,
    }
}

impl<R: Row> Network<R> {
    // The network of a circuit with other tables; allocates nothing.
    fn with(frame: Circuit, tables: NamedTables<R>) -> Network<R>
        requires { IsSound (with_tables frame tables) }
        ensures { result ≡ with_tables frame tables }
    {
        Network {
            name: frame.name,
            inputs: frame.inputs,
            outputs: frame.outputs,
            clocks: frame.clocks,
            timing: frame.timing,
            latches: frame.latches.into_vec(),
            tables,
            dont_care: frame.dont_care,
        }
    }

    // Copies the names of a network.
    fn ports_copied(&self, alloc: Global) -> Result<Ports, AllocError>
        ensures { IfOk result (λ ports. (ports.name ≡ self.now.name)
            × (ports.inputs ≡ self.now.inputs) × (ports.outputs ≡ self.now.outputs)
            × (ports.clocks ≡ self.now.clocks)) }
    {
        Ok(Ports {
            name: self.name.copy(alloc)?,
            inputs: self.inputs.copy(alloc)?,
            outputs: self.outputs.copy(alloc)?,
            clocks: self.clocks.copy(alloc)?,
        })
    }

    // Copies the circuit without its tables.
    fn frame_copied(&self, alloc: Global) -> Result<Circuit, AllocError>
        ensures { IfOk result (λ frame. frame ≡ with_tables self.now []) }
    {
        let ports = self.ports_copied(alloc)?;
        let timing = timing_copied(alloc, &self.timing)?;
        let latches = latches_copied(alloc, self.latches.as_slice())?;
        let dont_care = self.dont_care.copy(alloc)?;
        Ok(ports.into_frame(alloc, timing, latches, dont_care))
    }

    /// The network of a sound circuit, whose parts move over; only the covers of its tables are
    /// built.
    pub fn from_circuit(alloc: Global, circuit: Circuit) -> Result<Network<R>, AllocError>
        requires { IsSound circuit }
        ensures { IfOk result (λ network. network ≡ circuit) }
    {
        // A whole, so that one call drops it.
        let mut frame = Whole { it: circuit };
        let written = mem::replace(&mut frame.it.tables, Sequence::new(alloc));
        let tables = tables_from(alloc, written.into_vec())?;
        Ok(Network::with(frame.into_it(), tables))
    }

    /// Moves the parts out; allocates nothing.
    pub fn into_parts(self, alloc: Global) -> Parts<R>
        ensures circuit { self ≡ with_tables result.frame (present result.slots.items) }
        ensures indexed { IsIndexed result.slots.items (get bytes_eq result.places) }
        ensures over { AreOverInputs result.slots.items }
    {
        self.sound();
        let Network {
            name,
            inputs,
            outputs,
            clocks,
            timing,
            latches,
            tables,
            dont_care,
        } = self;
        let NamedTables { slots, places } = tables;
        let frame = Circuit {
            name,
            inputs,
            outputs,
            clocks,
            timing,
            latches: Sequence::from_vec(latches),
            tables: Sequence::new(alloc),
            dont_care,
        };
        Parts {
            frame,
            slots,
            places,
        }
    }

    /// The network of parts whose circuit is sound; allocates nothing.
    pub fn from_parts(parts: Parts<R>) -> Network<R>
        requires indexed { IsIndexed parts.slots.items (get bytes_eq parts.places) }
        requires over { AreOverInputs parts.slots.items }
        requires sound { IsSound (with_tables parts.frame (present parts.slots.items)) }
        ensures { result ≡ with_tables parts.frame (present parts.slots.items) }
    {
        let Parts {
            frame,
            slots,
            places,
        } = parts;
        Network::with(frame, NamedTables { slots, places })
    }

    /// The circuit of the network, as a copy.
    pub fn to_circuit(&self, alloc: Global) -> Result<Circuit, AllocError>
        ensures { IfOk result (λ circuit. circuit ≡ self.now) }
    {
        // A whole, so that one call drops it.
        let frame = Whole {
            it: self.frame_copied(alloc)?,
        };
        let tables = tables_to(alloc, self.tables.slots())?;
        Ok(circuit_with(frame.into_it(), tables))
    }

    /// Copies the network.
    pub fn copy(&self, alloc: Global) -> Result<Network<R>, AllocError>
        ensures { IfOk result (λ network. network ≡ self.now) }
    {
        // A whole, so that one call drops it.
        let frame = Whole {
            it: self.frame_copied(alloc)?,
        };
        let tables = tables_copied(alloc, self.tables.slots())?;
        Ok(Network::with(frame.into_it(), tables))
    }

    /// The name of the model.
    pub fn name(&self) -> &Name
        ensures { result.now ≡ self.now.name }
    {
        &self.name
    }

    /// The inputs, in order.
    pub fn inputs(&self) -> &[Name]
        ensures { result.now ≡ self.now.inputs }
    {
        self.inputs.as_slice()
    }

    /// The outputs, in order.
    pub fn outputs(&self) -> &[Name]
        ensures { result.now ≡ self.now.outputs }
    {
        self.outputs.as_slice()
    }

    /// The latches, in order.
    pub fn latches(&self) -> &[Latch]
        ensures { result.now ≡ self.now.latches }
    {
        self.latches.as_slice()
    }

    /// The tables of the don't-care part, in order.
    pub fn dont_care(&self) -> &[Written]
        ensures { result.now ≡ self.now.dont_care }
    {
        self.dont_care.as_slice()
    }

    /// The slots, in order: each has a table with its name, or is empty because its table was
    /// removed.
    pub fn entries(&self) -> &[Option<Entry<R>>]
        ensures tables { present result.now ≡ self.now.tables }
        ensures over { AreOverInputs result.now }
    {
        self.tables.slots()
    }

    /// The sizes of the network.
    #[tactic(auto, unfolding(crate::specs::Reads::sizes_of))]
    pub fn sizes(&self) -> Sizes
        ensures { result ≡ sizes_of self.now }
    {
        Sizes {
            inputs: self.inputs.len(),
            outputs: self.outputs.len(),
            tables: table_count(self.slots()),
            latches: self.latches.len(),
            dont_cares: self.dont_care.len(),
        }
    }

    /// The names of the tables in topological order: at each step the first table, in the network's
    /// order, that reads no table not listed yet.
    pub fn order(&self, alloc: Global) -> Result<Names, AllocError>
        ensures { IfOk result (λ names. names ≡ order_of self.now.tables) }
    {
        let tables = tables_to(alloc, self.tables.slots())?;
        order(alloc, tables.as_slice())
    }

    /// The invariant of every network: its circuit is sound. Does nothing, and gives its caller
    /// this fact.
    pub fn sound(&self)
        ensures { IsSound self.now }
    {
        let _name = &self.name;
    }

    /// Replaces the table of a name.
    #[tactic(auto, unfolding(circuit_laws::specs::Edits::with_replaced))]
    pub fn replace(&mut self, name: &Name, table: CoverTable<R>)
        requires known { has (outputs_of self.old.tables) name.now ≡ true }
        requires fitting { IsFitting self.old (named name.now table) }
        requires acyclic { IsAcyclic (replaced self.old.tables (named name.now table)) }
        requires over { IsOverInputs table }
        ensures { self.new ≡ with_replaced self.old (named name.now table) }
    {
        self.tables.replace(name, table);
    }

    /// Removes the table or the latch of a name that nothing else needs; the timing is removed with
    /// the last latch.
    #[tactic(auto, using(crate::proofs::Removals::removed_table, crate::proofs::Removals::removed_latch))]
    pub fn remove(&mut self, name: &Name)
        requires { IsClosed self.old (is_other name.now) }
        ensures { self.new ≡ with_removed self.old name.now }
    {
        if self.tables.remove(name) {
            return;
        }
        remove_latch(&mut self.latches, name);
        drop_timing(self.latches.as_slice(), &mut self.timing);
    }

    /// Adds a table after the last, under the least number in brackets that is not a name in use.
    /// `NodeLimit` if there are `MAX_NODES` tables and latches already, those of the don't-care
    /// part included. An error changes nothing.
    #[tactic(auto, using(crate::proofs::Counting::new_is_no_table), unfolding(circuit_laws::specs::Edits::with_added))]
    pub fn add(&mut self, alloc: Global, table: CoverTable<R>) -> Result<Name, AddFault>
        requires fitting { (name : List ℕ) → IsFitting self.old (named name table) }
        requires over { IsOverInputs table }
        ensures { Adds self.old table self.new result }
    {
        if self.is_at_limit() {
            return Err(AddFault::NodeLimit);
        }
        let name = self.new_name(alloc)?;
        self.tables.push(alloc, &name, table)?;
        Ok(name)
    }

    // Whether a new table may not take the name.
    #[tactic(auto, using(crate::proofs::Counting::used_by_table, crate::proofs::Counting::used_else))]
    fn is_used(&self, name: &Name) -> bool
        ensures { result ≡ has (used_names self.now) name.now }
    {
        if self.tables.contains(name) {
            return true;
        }
        let input = has_name(self.inputs.as_slice(), name);
        let latch = drives_latch(self.latches.as_slice(), name);
        let output = has_name(self.outputs.as_slice(), name);
        let clock = has_name(self.clocks.as_slice(), name);
        let control = is_control(&self.timing, name);
        let part = is_mentioned(self.dont_care.as_slice(), name);
        input || latch || output || clock || control || part
    }

    // The name of the least number in brackets that is not in use. No machine has memory for so
    // many names that all numbers are.
    fn new_name(&self, alloc: Global) -> Result<Name, AllocError>
        ensures { IfOk result (λ name. IsNewName self.now name) }
    {
        for number in 0..u64::MAX {
            let name = bracketed_name(alloc, number)?;
            if !self.is_used(&name) {
                return Ok(name);
            }
        }
        Err(AllocError)
    }

    // Whether no more table may be added.
    fn is_at_limit(&self) -> bool
        ensures { IsTrue result ↔ (MAX_NODES ≤ node_count self.now) }
    {
        is_full(self.slots(), self.latches.len(), self.dont_care.len())
    }

    /// The table of a name, if there is one.
    pub fn table(&self, name: &Name) -> Option<&CoverTable<R>>
        ensures driver { driver self.now.tables name.now ≡ option_map
            (λ table. named name.now table.now) result }
        ensures over { IfSome result (λ table. IsOverInputs table.now) }
    {
        self.tables.get(name)
    }

    // The slots, in order: each has a table, or is empty because its table was removed.
    pub(crate) fn slots(&self) -> &[Option<Entry<R>>]
        ensures { present result.now ≡ self.now.tables }
    {
        self.tables.slots()
    }
}
