//! A circuit with its leaves and topological orders, and the functions of its signals that are
//! missing.
//!
//! Invariant (`IsInOrder`): the circuit is sound, `leaves` are its leaves, and both orders are
//! those of its tables and of its don't-care tables. `put_table` keeps the orders, as the new table
//! reads nothing that the old one did not read. The calls `add_part` and `forced_beside` complete
//! partial numbers: callers rely on `AreAll`, that exactly the signals have numbers, each that of
//! its function.

ghost use Rattle.std.specs.Prelude.{◌≡◌, ◌<◌, ℕ, List, Some, length, slice_set, true, false, bytes_eq, IfOk, IfErr, OnOk};
ghost use Rattle.circuit_model.specs.Names.{has};
ghost use Rattle.circuit_model.specs.Soundness.{outputs_of, IsSound, IsAcyclic};
ghost use Rattle.circuit_model.specs.Values.{driver};
ghost use Rattle.circuit_model.specs.declared.circuit.Table.{Table};
ghost use Rattle.circuit_laws.specs.Edits.{replaced, with_replaced};
ghost use Rattle.circuit_laws.specs.Fitting.{IsFitting};
ghost use Rattle.func_core.specs.Numbers.{Stays};
ghost use Rattle.net_func.specs.Numbering.{number_in, IsOrderOf, AreSome, AreAll};
ghost use Rattle.net_func.specs.Parts.{part_tables, part_function, is_part_signal};
ghost use Rattle.net_func.specs.Signals.{own_function, forced_function, IsBigAt, Blames};
ghost use Rattle.net_func.specs.Kept.{is_signal, IsInOrder};

use crate::building::{TableOrder, place_at, table_at, table_order};
use crate::fault::NetFuncFault;
use crate::leaves::{add_constant, add_ordered, leaf_names};
use crate::numbers::Numbers;
use crate::parts::{Part, tables_of};
use crate::unreached::unreached_numbers;
use circuit_model::{Circuit, Name, Names, Table, Tables};
use func_core::Functions;
use sis_base::{Sequence, Whole};
use std::alloc::{AllocError, Global};
use std::mem;

/// A circuit with its leaves, and topological orders of its tables and of its don't-care tables.
pub(crate) struct OrderedCircuit {
    pub circuit: Circuit,
    pub leaves: Names,
    pub tables: TableOrder,
    pub dont_care: TableOrder,
}

// Written out, so that a function that owns a circuit drops it in one call.
impl Drop for OrderedCircuit {
    fn drop(self) {
        let OrderedCircuit {
            circuit: _circuit,
            leaves: _leaves,
            tables: _tables,
            dont_care: _dont_care,
        } = self;
    }
}

/// A circuit with its leaves and its orders.
pub(crate) fn in_order(alloc: Global, circuit: Whole<Circuit>) -> Result<OrderedCircuit, AllocError>
    requires { IsSound circuit.it }
    ensures ready { IfOk result IsInOrder }
    ensures same { IfOk result (λ ordered. ordered.circuit ≡ circuit.it) }
{
    let leaves = leaf_names(alloc, &circuit.it)?;
    let tables = table_order(alloc, circuit.it.tables.as_slice())?;
    let dont_care = table_order(alloc, circuit.it.dont_care.as_slice())?;
    Ok(OrderedCircuit {
        circuit: circuit.into_it(),
        leaves,
        tables,
        dont_care,
    })
}

// Whether two tables with one signal are the same; the clause says so only for true.
fn is_same(one: &Table, other: &Table) -> bool
    requires { one.now.output ≡ other.now.output }
    ensures { result ≡ true → one.now ≡ other.now }
{
    if one.phase != other.phase {
        return false;
    }
    if one.inputs == other.inputs {
        return one.rows == other.rows;
    }
    false
}

/// Whether a table is already that of its signal; the clause says so only for true.
pub(crate) fn stands(ordered: &OrderedCircuit, table: &Table) -> bool
    requires ready { IsInOrder ordered.now }
    requires driven { has (outputs_of ordered.now.circuit.tables) table.now.output ≡ true }
    ensures { result ≡ true
        → with_replaced ordered.now.circuit table.now ≡ ordered.now.circuit }
{
    let tables = ordered.circuit.tables.as_slice();
    let old = table_at(tables, &ordered.tables.places, &table.output);
    is_same(old, table)
}

// Sets the table at an index.
fn set_table(alloc: Global, tables: &mut Tables, place: usize, table: Table)
    requires { place < length tables.old }
    ensures { tables.new ≡ slice_set tables.old place table }
{
    let mut items = mem::replace(tables, Sequence::new(alloc)).into_vec();
    items[place] = table;
    *tables = Sequence::from_vec(items);
}

/// Replaces the table of a signal by one whose inputs are among the old ones; allocates nothing.
pub(crate) fn put_table(alloc: Global, ordered: &mut OrderedCircuit, table: Table)
    requires ready { IsInOrder ordered.old }
    requires driven { has (outputs_of ordered.old.circuit.tables) table.output ≡ true }
    requires fitting { IsFitting ordered.old.circuit table }
    requires acyclic { IsAcyclic (replaced ordered.old.circuit.tables table) }
    requires reads { (old : Table)
        → driver ordered.old.circuit.tables table.output ≡ Some old → (input : List ℕ)
        → has table.inputs input ≡ true → has old.inputs input ≡ true }
    ensures ready { IsInOrder ordered.new }
    ensures replaced { ordered.new.circuit ≡ with_replaced ordered.old.circuit table }
{
    match place_at(&ordered.tables.places, &table.output) {
        None => unreachable!(),
        Some(place) => set_table(alloc, &mut ordered.circuit.tables, place, table),
    }
}

// The order of a part.
fn order_in(ordered: &OrderedCircuit, part: Part) -> &TableOrder
    requires { IsInOrder ordered.now }
    ensures { IsOrderOf (part_tables part ordered.now.circuit) result.now }
{
    match part {
        Part::Tables => &ordered.tables,
        Part::DontCare => &ordered.dont_care,
    }
}

/// Makes the functions of the leaves and of the signals of a part that have no number yet.
pub(crate) fn add_part<F: Functions>(
    alloc: Global,
    functions: &mut F,
    ordered: &OrderedCircuit,
    part: Part,
    numbers: &mut Numbers,
) -> Result<(), NetFuncFault>
    requires ready { IsInOrder ordered.now }
    requires some { AreSome F.holds F.tree F.limit functions.old
        (is_part_signal part ordered.now.circuit) (part_function part ordered.now.circuit)
        (number_in numbers.old) }
    ensures ok { OnOk result (AreAll F.holds F.tree F.limit functions.new
        (is_part_signal part ordered.now.circuit) (part_function part ordered.now.circuit)
        (number_in numbers.new)) }
    ensures big { IfErr result (λ fault. Blames fault (IsBigAt (F.limit functions.old)
        (part_tables part ordered.now.circuit) (part_function part ordered.now.circuit))) }
    ensures stays { Stays F.holds F.tree F.limit functions.old functions.new }
{
    let leaves = ordered.leaves.as_slice();
    let tables = tables_of(&ordered.circuit, part);
    let order = order_in(ordered, part);
    add_ordered(alloc, functions, numbers, leaves, tables, order)
}

/// The numbers of the functions of all signals if one signal, which a table drives, is fixed at a
/// bit. Signals that it does not reach keep their own numbers.
pub(crate) fn forced_beside<F: Functions>(
    alloc: Global,
    functions: &mut F,
    ordered: &OrderedCircuit,
    own: &Numbers,
    name: &Name,
    bit: bool,
) -> Result<Numbers, NetFuncFault>
    requires ready { IsInOrder ordered.now }
    requires driven { has (outputs_of ordered.now.circuit.tables) name.now ≡ true }
    requires own { AreSome F.holds F.tree F.limit functions.old (is_signal ordered.now.circuit)
        (own_function ordered.now.circuit) (number_in own.now) }
    ensures ok { IfOk result (λ numbers. AreAll F.holds F.tree F.limit functions.new
        (is_signal ordered.now.circuit) (forced_function ordered.now.circuit name.now bit)
        (number_in numbers)) }
    ensures big { IfErr result (λ fault. Blames fault (λ blamed. (bytes_eq blamed name.now ≡ false)
        × IsBigAt (F.limit functions.old) ordered.now.circuit.tables
        (forced_function ordered.now.circuit name.now bit) blamed)) }
    ensures stays { Stays F.holds F.tree F.limit functions.old functions.new }
{
    let mut numbers = unreached_numbers(alloc, own, ordered, name)?;
    add_constant(alloc, functions, &mut numbers, name, bit)?;
    let leaves = ordered.leaves.as_slice();
    let tables = ordered.circuit.tables.as_slice();
    add_ordered(
        alloc,
        functions,
        &mut numbers,
        leaves,
        tables,
        &ordered.tables,
    )?;
    Ok(numbers)
}
