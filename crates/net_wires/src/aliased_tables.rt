//! A circuit whose tables are stored over aliases, with the exact fanouts of the aliases.
//!
//! Source: Cormen, Leiserson, Rivest and Stein, "Introduction to Algorithms", third edition,
//! chapter 21; Brace, Rudell and Bryant, "Efficient Implementation of a BDD Package" (1990),
//! complemented edges. Each alias stands for one signal or its complement, and each signal has one
//! alias; a name without an edge stands for itself. Invariant: the two maps are inverse, and the
//! fanouts are those of the stored tables. `exchange_aliases` changes four edges instead of all
//! tables. Contracts see the circuit over the signals.

ghost use Rattle.std.specs.Prelude.{◌≡◌, ◌<◌, ◌++◌, ℕ, Bool, false, Some, None, List, [], ◌∷◌, length, map, slice_get, slice_set, bytes_eq, IfOk, OnOk};
ghost use Rattle.std.specs.List.Sorted.{IsStrictlyIncreasing};
ghost use Rattle.std.specs.Option.{option_map_or};
ghost use Rattle.circuit_model.specs.Names.{has};
ghost use Rattle.circuit_model.specs.Soundness.{table_inputs};
ghost use Rattle.circuit_model.specs.declared.circuit.Table.{Table};
ghost use Rattle.circuit_laws.specs.Edits.{with_tables, with_added, constant_table};
ghost use Rattle.net_wires.specs.Points.{written_bit};
ghost use Rattle.indexmap.specs.IndexMap.{get};
ghost use Rattle.net_readers.specs.Fanouts.{told, is_in, AreReaders};
ghost use Rattle.net_wires.specs.Aliases.{inputs_at, edge_of, table_over as over_edges, with_edge, turned_if, exchanged, HaveExchangedAliases};

use crate::edges::{Edge, edge_from, name_of, set_edge, table_over, tables_over};
use crate::{constant_table, written_bit};
use circuit_model::{Circuit, Name, Table};
use indexmap::IndexMap;
use net_readers::{Fanouts, Places};
use sis_base::{Copied, Sequence, Whole};
use std::alloc::{AllocError, Global};
use std::marker::Model;
use std::mem;

/// A circuit on which the rules of sweep run: two signals are exchanged in all tables at once, and
/// the fanouts of a signal are known. Contracts see it as that circuit. After an error the circuit
/// may be any.
#[derive(Drop)]
pub struct AliasedTables {
    // the circuit with aliases in place of the signals that its tables read
    circuit: Whole<Circuit>,
    // the fanouts of each alias: the indices of the tables that read it
    readers: Fanouts,
    // the signal, or its complement, for which each alias stands
    signal_of: Whole<IndexMap<Name, Edge>>,
    // the alias that stands for each signal
    alias_of: Whole<IndexMap<Name, Edge>>,
}

impl Model for AliasedTables {
    ghost use Rattle.std.specs.Prelude.{map, bytes_eq};
    ghost use Rattle.indexmap.specs.IndexMap.{get};
    ghost use Rattle.circuit_model.specs.declared.circuit.Circuit.{Circuit};
    ghost use Rattle.circuit_laws.specs.Edits.{with_tables};
    ghost use Rattle.net_readers.specs.Fanouts.{told, AreReaders};
    ghost use Rattle.net_wires.specs.Aliases.{inputs_at, edge_of, table_over, ArePaired};

    ghost Value = { Circuit };

    ghost view = { λ over. with_tables over.circuit.it
        (map (table_over (edge_of (get bytes_eq over.signal_of.it))) over.circuit.it.tables) };

    ghost invariant = { λ over. AreReaders (told over.readers) (inputs_at over.circuit.it.tables)
        × ArePaired (edge_of (get bytes_eq over.signal_of.it))
        (edge_of (get bytes_eq over.alias_of.it)) };
}

// The fanouts of each signal in tables.
fn readers_of(alloc: Global, tables: &[Table]) -> Result<Fanouts, AllocError>
    ensures { IfOk result (λ readers. AreReaders (told readers) (inputs_at tables.now)) }
{
    let mut readers = Fanouts::of_none(alloc);
    for (place, table) in tables.iter().enumerate() {
        readers.add(alloc, place, table.inputs.as_slice())?;
    }
    Ok(readers)
}

// Replaces the table at an index of a circuit.
fn put_table(alloc: Global, circuit: &mut Circuit, place: usize, table: Table)
    requires { place < length circuit.old.tables }
    ensures { circuit.new ≡ with_tables circuit.old (slice_set circuit.old.tables place table) }
{
    let mut tables = mem::replace(&mut circuit.tables, Sequence::new(alloc)).into_vec();
    tables[place] = table;
    circuit.tables = Sequence::from_vec(tables);
}

// Appends a table to a circuit.
#[tactic(auto, unfolding(circuit_laws::specs::Edits::with_added))]
fn push_table(circuit: &mut Circuit, table: Table) -> Result<(), AllocError>
    ensures { OnOk result (circuit.new ≡ with_added circuit.old table) }
{
    circuit.tables.push(table)?;
    Ok(())
}

// Replaces the table at an index of a circuit by another one, rewritten over aliases, and updates
// the fanouts.
fn change_table(
    alloc: Global,
    circuit: &mut Circuit,
    readers: &mut Fanouts,
    aliases: &IndexMap<Name, Edge>,
    place: usize,
    table: Table,
) -> Result<(), AllocError>
    requires within { place < length circuit.old.tables }
    requires listed { AreReaders (told readers.old) (inputs_at circuit.old.tables) }
    ensures set { OnOk result (circuit.new
        ≡ with_tables circuit.old (slice_set circuit.old.tables place
        (over_edges (edge_of (get bytes_eq aliases.now)) table))) }
    ensures listed { OnOk result (AreReaders (told readers.new) (inputs_at circuit.new.tables)) }
{
    let kept = table_over(alloc, aliases, table)?;
    let before = circuit.tables.as_slice()[place].inputs.as_slice();
    readers.change(alloc, place, before, kept.inputs.as_slice())?;
    put_table(alloc, circuit, place, kept);
    Ok(())
}

// A bit, complemented if asked.
fn turned_bit(bit: bool, inverts: bool) -> bool
    ensures { result ≡ turned_if inverts bit }
{
    if inverts {
        return !bit;
    }
    bit
}

// Makes an alias stand for a signal or its complement.
fn pair(
    alloc: Global,
    signals: &mut IndexMap<Name, Edge>,
    aliases: &mut IndexMap<Name, Edge>,
    alias: &Name,
    signal: &Name,
    inverts: bool,
) -> Result<(), AllocError>
    ensures signals { OnOk result ((name : List ℕ)
        → edge_of (get bytes_eq signals.new) name
        ≡ with_edge alias.now (record { name = signal.now; is_complemented = inverts })
        (edge_of (get bytes_eq signals.old)) name) }
    ensures aliases { OnOk result ((name : List ℕ)
        → edge_of (get bytes_eq aliases.new) name
        ≡ with_edge signal.now (record { name = alias.now; is_complemented = inverts })
        (edge_of (get bytes_eq aliases.old)) name) }
{
    let to_signal = Edge {
        name: signal.copy(alloc)?,
        is_complemented: inverts,
    };
    let to_alias = Edge {
        name: alias.copy(alloc)?,
        is_complemented: inverts,
    };
    set_edge(signals, alias.copy(alloc)?, to_signal)?;
    set_edge(aliases, signal.copy(alloc)?, to_alias)
}

// Two different signals exchange aliases; the first is complemented if asked.
fn exchange_edges(
    alloc: Global,
    signals: &mut IndexMap<Name, Edge>,
    aliases: &mut IndexMap<Name, Edge>,
    one: &Name,
    other: &Name,
    inverts: bool,
) -> Result<(), AllocError>
    ensures { OnOk result (HaveExchangedAliases (edge_of (get bytes_eq signals.old))
        (edge_of (get bytes_eq aliases.old)) (edge_of (get bytes_eq signals.new))
        (edge_of (get bytes_eq aliases.new)) one.now other.now inverts) }
{
    let first = edge_from(alloc, aliases, one)?;
    let second = edge_from(alloc, aliases, other)?;
    let turned = turned_bit(first.is_complemented, inverts);
    pair(alloc, signals, aliases, &first.name, other, turned)?;
    pair(
        alloc,
        signals,
        aliases,
        &second.name,
        one,
        second.is_complemented,
    )?;
    Ok(())
}

impl AliasedTables {
    // The empty circuit; allocates nothing.
    fn empty(alloc: Global) -> AliasedTables {
        AliasedTables {
            circuit: Whole {
                it: Circuit {
                    name: Name::new(alloc),
                    inputs: Sequence::new(alloc),
                    outputs: Sequence::new(alloc),
                    clocks: Sequence::new(alloc),
                    timing: None,
                    latches: Sequence::new(alloc),
                    tables: Sequence::new(alloc),
                    dont_care: Sequence::new(alloc),
                },
            },
            readers: Fanouts::of_none(alloc),
            signal_of: Whole {
                it: IndexMap::new(alloc),
            },
            alias_of: Whole {
                it: IndexMap::new(alloc),
            },
        }
    }

    /// The aliased tables of a circuit, each signal its own alias.
    pub fn from_circuit(alloc: Global, circuit: Circuit) -> Result<AliasedTables, AllocError>
        ensures { IfOk result (λ made. made ≡ circuit) }
    {
        let readers = readers_of(alloc, circuit.tables.as_slice())?;
        Ok(AliasedTables {
            circuit: Whole { it: circuit },
            readers,
            signal_of: Whole {
                it: IndexMap::new(alloc),
            },
            alias_of: Whole {
                it: IndexMap::new(alloc),
            },
        })
    }

    /// The circuit, with its tables over the signals.
    pub fn into_circuit(self, alloc: Global) -> Result<Circuit, AllocError>
        ensures { IfOk result (λ circuit. circuit ≡ self) }
    {
        let mut circuit = self.circuit.into_it();
        let tables = mem::replace(&mut circuit.tables, Sequence::new(alloc));
        circuit.tables = tables_over(alloc, &self.signal_of.it, tables)?;
        Ok(circuit)
    }

    /// The number of tables.
    pub fn len(&self) -> usize
        ensures { result ≡ length self.now.tables }
    {
        self.circuit.it.tables.len()
    }

    /// A copy of the table at an index, if there is one.
    pub fn table(&self, alloc: Global, place: usize) -> Result<Option<Table>, AllocError>
        ensures { IfOk result (λ table. table ≡ slice_get self.now.tables place) }
    {
        match self.circuit.it.tables.as_slice().get(place) {
            None => Ok(None),
            Some(table) => {
                let made = table_over(alloc, &self.signal_of.it, table.copy(alloc)?)?;
                Ok(Some(made))
            }
        }
    }

    /// The constant as which the table at an index is written, if there is one.
    pub fn bit(&self, place: usize) -> Option<bool>
        ensures { result ≡ option_map_or written_bit (slice_get self.now.tables place) None }
    {
        match self.circuit.it.tables.as_slice().get(place) {
            None => None,
            Some(table) => written_bit(table),
        }
    }

    /// The number of inputs of the table at an index; 0 if there is no table.
    pub fn width(&self, place: usize) -> usize
        ensures { result ≡ option_map_or (λ (table : Table). length table.inputs)
            (slice_get self.now.tables place) 0 }
    {
        match self.circuit.it.tables.as_slice().get(place) {
            None => 0,
            Some(table) => table.inputs.len(),
        }
    }

    /// Whether some table reads a signal.
    pub fn has_readers(&self, name: &Name) -> bool
        ensures { result ≡ has (table_inputs self.now.tables) name.now }
    {
        self.readers.has_readers(name_of(&self.alias_of.it, name))
    }

    /// The fanouts of a signal: the indices of the tables that read it, each once, in increasing
    /// order.
    pub fn places(&self, alloc: Global, name: &Name) -> Result<Places, AllocError>
        ensures exact { IfOk result (λ places. (place : ℕ)
            → is_in places place ≡ has (inputs_at self.now.tables place) name.now) }
        ensures rising { IfOk result IsStrictlyIncreasing }
    {
        self.readers.places(alloc, name_of(&self.alias_of.it, name))
    }

    /// The number of tables that read a signal. No clause says so: it serves to choose between
    /// equivalent methods, for speed alone.
    pub fn count(&self, name: &Name) -> usize {
        self.readers.count(name_of(&self.alias_of.it, name))
    }

    /// Replaces the table at an index, which must have one.
    pub fn set(&mut self, alloc: Global, place: usize, table: Table) -> Result<(), AllocError>
        requires { place < length self.old.tables }
        ensures { OnOk result (self.new ≡ with_tables self.old
            (slice_set self.old.tables place table)) }
    {
        let mut made = mem::replace(self, AliasedTables::empty(alloc));
        change_table(
            alloc,
            &mut made.circuit.it,
            &mut made.readers,
            &made.alias_of.it,
            place,
            table,
        )?;
        *self = made;
        Ok(())
    }

    /// Exchanges two different signals among the inputs of all tables, and complements the literals
    /// of the first if asked; outputs, latches and the don't-care part stay.
    pub fn exchange_aliases(
        &mut self,
        alloc: Global,
        one: &Name,
        other: &Name,
        inverts: bool,
    ) -> Result<(), AllocError>
        requires { bytes_eq one.now other.now ≡ false }
        ensures { OnOk result (self.new ≡ with_tables self.old
            (map (exchanged one.now other.now inverts) self.old.tables)) }
    {
        let mut made = mem::replace(self, AliasedTables::empty(alloc));
        exchange_edges(
            alloc,
            &mut made.signal_of.it,
            &mut made.alias_of.it,
            one,
            other,
            inverts,
        )?;
        *self = made;
        Ok(())
    }

    /// Appends the table of a constant under a name.
    pub fn add_constant(&mut self, alloc: Global, name: Name, bit: bool) -> Result<(), AllocError>
        ensures { OnOk result (self.new ≡ with_added self.old (constant_table name bit)) }
    {
        let table = constant_table(alloc, name, bit)?;
        let mut made = mem::replace(self, AliasedTables::empty(alloc));
        push_table(&mut made.circuit.it, table)?;
        *self = made;
        Ok(())
    }
}
