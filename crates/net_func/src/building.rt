//! Functions of tables, made one after the other from the functions of what each table reads.
//!
//! `TableOrder` lists the outputs of tables topologically, with the index of each table by its
//! output; `add_all` makes the functions in that order, and skips a signal that has a number
//! already. Invariant: every number is valid in the object, and each earlier number is kept.
//! Callers rely on `Adds`: for any values of the signals that the earlier numbers mean and that
//! solve the equations of the remaining tables, each number means the value of its signal. A signal
//! is blamed only if a part of its table is too big.

ghost use Rattle.std.specs.Prelude.{◌≡◌, ℕ, true, Some, None, Err, List, map, bytes_eq, if◌then◌else◌, IfOk, IfErr, OnOk};
ghost use Rattle.std.specs.List.{list_all};
ghost use Rattle.indexmap.specs.IndexMap.{get};
ghost use Rattle.circuit_model.specs.Names.{has, all_different};
ghost use Rattle.circuit_model.specs.Values.{driver};
ghost use Rattle.circuit_model.specs.Soundness.{outputs_of, IsShaped};
ghost use Rattle.circuit_model.specs.declared.circuit.Table.{Table};
ghost use Rattle.circuit_order.specs.Order.{IsOrdered};
ghost use Rattle.circuit_order.specs.Places.{IsIndex};
ghost use Rattle.func_core.specs.Trees.{BooleanFunction};
ghost use Rattle.func_core.specs.Numbers.{Stays};
ghost use Rattle.net_func.specs.Locals.{local_of, HasBigPart};
ghost use Rattle.net_func.specs.Numbering.{number_in, has_number, NumbersStand, AreRight, Solves, SolvesRest, AreClosed, AreSettled, IsOrderOf, Adds, IsBlamed};
ghost use Rattle.net_func.specs.Signals.{Blames};

use crate::fault::{NetFuncFault, fault_at};
use crate::numbers::Numbers;
use crate::rows::table_function;
use circuit_model::{Name, Names, Table};
use circuit_order::order;
use func_core::{FuncFault, Functions};
use indexmap::IndexMap;
use sis_base::Copied;
use std::alloc::{AllocError, Global};

/// The index of each table, by its output.
pub(crate) type Places = IndexMap<Name, usize>;

/// The index of each table by its output, and the outputs in topological order: each after what its
/// table reads.
pub(crate) struct TableOrder {
    pub places: Places,
    pub names: Names,
}

// Written out, so that a function that owns an order drops it in one call.
impl Drop for TableOrder {
    fn drop(self) {
        let TableOrder {
            places: _places,
            names: _names,
        } = self;
    }
}

// Sets the index of a name.
fn note_place(places: &mut Places, name: Name, place: usize) -> Result<(), AllocError>
    ensures { OnOk result ((other : List ℕ) → get bytes_eq places.new other
        ≡ (if bytes_eq name other then Some place else get bytes_eq places.old other)) }
{
    let _place = places.insert(name, place)?;
    Ok(())
}

/// The index of each table, by its output.
pub(crate) fn places_of(alloc: Global, tables: &[Table]) -> Result<Places, AllocError>
    requires { all_different (outputs_of tables.now) ≡ true }
    ensures { IfOk result (λ places. IsIndex tables.now (get bytes_eq places)) }
{
    let mut places = IndexMap::new(alloc);
    for (place, table) in tables.iter().enumerate() {
        note_place(&mut places, table.output.copy(alloc)?, place)?;
    }
    Ok(places)
}

/// The topological order of tables, with their indices.
pub(crate) fn table_order(alloc: Global, tables: &[Table]) -> Result<TableOrder, AllocError>
    requires { AreSettled tables.now }
    ensures { IfOk result (IsOrderOf tables.now) }
{
    let names = order(alloc, tables)?;
    let places = places_of(alloc, tables)?;
    Ok(TableOrder { places, names })
}

/// The index of a name, if it has one.
pub(crate) fn place_at(places: &Places, name: &Name) -> Option<usize>
    ensures { result ≡ get bytes_eq places.now name.now }
{
    places.get(name).copied()
}

/// The table that drives a signal.
pub(crate) fn table_at<'a>(tables: &'a [Table], places: &Places, name: &Name) -> &'a Table
    requires once { all_different (outputs_of tables.now) ≡ true }
    requires places { IsIndex tables.now (get bytes_eq places.now) }
    requires driven { has (outputs_of tables.now) name.now ≡ true }
    ensures { driver tables.now name.now ≡ Some result.now }
{
    match place_at(places, name) {
        Some(place) => &tables[place],
        None => unreachable!(),
    }
}

// Makes the function of a table from those of its inputs.
fn add_table<F: Functions>(
    alloc: Global,
    functions: &mut F,
    numbers: &mut Numbers,
    table: &Table,
) -> Result<(), FuncFault>
    requires stand { NumbersStand F.holds functions.old (number_in numbers.old) }
    requires known { list_all (has_number (number_in numbers.old)) table.now.inputs ≡ true }
    requires shaped { IsShaped table.now }
    ensures ok { OnOk result (Adds F.holds F.tree F.limit functions.old functions.new
        (number_in numbers.old) (number_in numbers.new) (λ other. bytes_eq other table.now.output)
        (λ value. Solves value table.now.output table.now)) }
    ensures big { result ≡ Err FuncFault.TooBig → (value : List ℕ → BooleanFunction)
        → AreRight F.holds F.tree F.limit functions.old (number_in numbers.old) value
        → HasBigPart (F.limit functions.old) (local_of table.now)
        (λ point. map (λ input. value input point) table.now.inputs) }
    ensures stays { Stays F.holds F.tree F.limit functions.old functions.new }
{
    let inputs = numbers.all_known(alloc, table.inputs.as_slice())?;
    let made = table_function(functions, table, inputs.as_slice())?;
    numbers.insert(alloc, &table.output, made)?;
    Ok(())
}

// Makes the function of a signal from the table that drives it, unless it has a number.
fn add_named<F: Functions>(
    alloc: Global,
    functions: &mut F,
    numbers: &mut Numbers,
    tables: &[Table],
    places: &Places,
    name: &Name,
) -> Result<(), NetFuncFault>
    requires tables { AreSettled tables.now }
    requires places { IsIndex tables.now (get bytes_eq places.now) }
    requires driven { has (outputs_of tables.now) name.now ≡ true }
    requires stand { NumbersStand F.holds functions.old (number_in numbers.old) }
    requires known { (table : Table) → driver tables.now name.now ≡ Some table
        → list_all (has_number (number_in numbers.old)) table.inputs ≡ true }
    ensures ok { OnOk result (Adds F.holds F.tree F.limit functions.old functions.new
        (number_in numbers.old) (number_in numbers.new) (λ other. bytes_eq other name.now)
        (SolvesRest tables.now (number_in numbers.old))) }
    ensures big { IfErr result (λ fault. Blames fault (IsBlamed F.holds F.tree F.limit functions.old
        tables.now (number_in numbers.old) (SolvesRest tables.now (number_in numbers.old)))) }
    ensures stays { Stays F.holds F.tree F.limit functions.old functions.new }
{
    if numbers.get(name).is_some() {
        return Ok(());
    }
    match add_table(alloc, functions, numbers, table_at(tables, places, name)) {
        Ok(()) => Ok(()),
        Err(fault) => Err(fault_at(alloc, fault, name)),
    }
}

// Makes the functions of signals in topological order.
fn add_in_order<F: Functions>(
    alloc: Global,
    functions: &mut F,
    numbers: &mut Numbers,
    tables: &[Table],
    places: &Places,
    order: &[Name],
) -> Result<(), NetFuncFault>
    requires tables { AreSettled tables.now }
    requires places { IsIndex tables.now (get bytes_eq places.now) }
    requires order { IsOrdered tables.now order.now }
    requires stand { NumbersStand F.holds functions.old (number_in numbers.old) }
    requires closed { AreClosed tables.now (number_in numbers.old) }
    ensures ok { OnOk result (Adds F.holds F.tree F.limit functions.old functions.new
        (number_in numbers.old) (number_in numbers.new) (has order.now)
        (SolvesRest tables.now (number_in numbers.old))) }
    ensures big { IfErr result (λ fault. Blames fault (IsBlamed F.holds F.tree F.limit functions.old
        tables.now (number_in numbers.old) (SolvesRest tables.now (number_in numbers.old)))) }
    ensures stays { Stays F.holds F.tree F.limit functions.old functions.new }
{
    for name in order {
        add_named(alloc, functions, numbers, tables, places, name)?;
    }
    Ok(())
}

/// Makes the functions of the outputs of tables that have no number yet, whatever the leaves are.
pub(crate) fn add_all<F: Functions>(
    alloc: Global,
    functions: &mut F,
    numbers: &mut Numbers,
    tables: &[Table],
    order: &TableOrder,
) -> Result<(), NetFuncFault>
    requires tables { AreSettled tables.now }
    requires order { IsOrderOf tables.now order.now }
    requires stand { NumbersStand F.holds functions.old (number_in numbers.old) }
    requires closed { AreClosed tables.now (number_in numbers.old) }
    ensures ok { OnOk result (Adds F.holds F.tree F.limit functions.old functions.new
        (number_in numbers.old) (number_in numbers.new) (has (outputs_of tables.now))
        (SolvesRest tables.now (number_in numbers.old))) }
    ensures big { IfErr result (λ fault. Blames fault (IsBlamed F.holds F.tree F.limit functions.old
        tables.now (number_in numbers.old) (SolvesRest tables.now (number_in numbers.old)))) }
    ensures stays { Stays F.holds F.tree F.limit functions.old functions.new }
{
    let names = order.names.as_slice();
    add_in_order(alloc, functions, numbers, tables, &order.places, names)
}
