//! The numbers of signals outside the transitive fanout of a signal: these functions stay if its
//! table changes or it is fixed.
//!
//! Source: De Micheli, "Synthesis and Optimization of Digital Circuits", chapter 8 (the transitive
//! fanout of a vertex). Leaves and then tables are visited in topological order; a number is copied
//! if all inputs of the signal's table were copied. Callers rely on `IsUnreached`: some of the
//! numbers, not that of the signal, closed under fanin. No clause says how many are copied.

ghost use Rattle.std.specs.Prelude.{◌≡◌, true, None, Some, bytes_eq, IfOk, OnOk};
ghost use Rattle.std.specs.List.{list_all};
ghost use Rattle.indexmap.specs.IndexMap.{get};
ghost use Rattle.circuit_model.specs.Names.{all_different};
ghost use Rattle.circuit_model.specs.Values.{driver};
ghost use Rattle.circuit_model.specs.Soundness.{outputs_of};
ghost use Rattle.circuit_model.specs.declared.circuit.Table.{Table};
ghost use Rattle.circuit_order.specs.Places.{IsIndex};
ghost use Rattle.net_func.specs.Numbering.{number_in, has_number};
ghost use Rattle.net_func.specs.Kept.{IsInOrder, IsUnreached};

use crate::building::{Places, place_at};
use crate::numbers::Numbers;
use crate::ordered::OrderedCircuit;
use circuit_model::{Name, Table};
use std::alloc::{AllocError, Global};

// Whether all inputs of a signal's table have numbers; true if no table drives the signal.
fn reads_known(tables: &[Table], places: &Places, numbers: &Numbers, signal: &Name) -> bool
    requires once { all_different (outputs_of tables.now) ≡ true }
    requires places { IsIndex tables.now (get bytes_eq places.now) }
    ensures { result ≡ true → (table : Table) → driver tables.now signal.now ≡ Some table
        → list_all (has_number (number_in numbers.now)) table.inputs ≡ true }
{
    match place_at(places, signal) {
        None => true,
        Some(place) => numbers.know(tables[place].inputs.as_slice()),
    }
}

// Copies the number of a signal, if it is another one and all inputs of its table were copied.
fn take_over(
    alloc: Global,
    unreached: &mut Numbers,
    numbers: &Numbers,
    tables: &[Table],
    places: &Places,
    name: &Name,
    signal: &Name,
) -> Result<(), AllocError>
    requires once { all_different (outputs_of tables.now) ≡ true }
    requires places { IsIndex tables.now (get bytes_eq places.now) }
    requires unreached { IsUnreached tables.now name.now (number_in numbers.now)
        (number_in unreached.old) }
    ensures { OnOk result (IsUnreached tables.now name.now (number_in numbers.now)
        (number_in unreached.new)) }
{
    if *signal == *name {
        return Ok(());
    }
    if !reads_known(tables, places, unreached, signal) {
        return Ok(());
    }
    match numbers.get(signal) {
        None => Ok(()),
        Some(number) => unreached.insert(alloc, signal, number),
    }
}

// Copies the numbers of signals that a signal does not reach; the inputs of their tables must come
// before them.
fn take_all_over(
    alloc: Global,
    unreached: &mut Numbers,
    numbers: &Numbers,
    tables: &[Table],
    places: &Places,
    name: &Name,
    signals: &[Name],
) -> Result<(), AllocError>
    requires once { all_different (outputs_of tables.now) ≡ true }
    requires places { IsIndex tables.now (get bytes_eq places.now) }
    requires unreached { IsUnreached tables.now name.now (number_in numbers.now)
        (number_in unreached.old) }
    ensures { OnOk result (IsUnreached tables.now name.now (number_in numbers.now)
        (number_in unreached.new)) }
{
    for signal in signals {
        take_over(alloc, unreached, numbers, tables, places, name, signal)?;
    }
    Ok(())
}

/// The numbers, among those of all, of the signals that a signal does not reach.
pub(crate) fn unreached_numbers(
    alloc: Global,
    numbers: &Numbers,
    ordered: &OrderedCircuit,
    name: &Name,
) -> Result<Numbers, AllocError>
    requires ready { IsInOrder ordered.now }
    ensures { IfOk result (λ unreached. IsUnreached ordered.now.circuit.tables name.now
        (number_in numbers.now) (number_in unreached)) }
{
    let tables = ordered.circuit.tables.as_slice();
    let places = &ordered.tables.places;
    let leaves = ordered.leaves.as_slice();
    let names = ordered.tables.names.as_slice();
    let mut unreached = Numbers::new(alloc);
    take_all_over(alloc, &mut unreached, numbers, tables, places, name, leaves)?;
    take_all_over(alloc, &mut unreached, numbers, tables, places, name, names)?;
    Ok(unreached)
}
