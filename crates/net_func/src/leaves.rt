//! Functions of the leaves of a circuit, and of tables over them.
//!
//! The leaves are the inputs and then the latch outputs; the function of the leaf at index i is
//! variable i. If a table drives the name of a leaf, the table gives its function, not the
//! variable. `add_ordered` makes the functions of leaves and tables in an order that the caller
//! has, `add_over` computes the order first. Names that have a number keep it, so a caller fixes a
//! signal by adding a constant for it before (`add_constant`).

ghost use Rattle.std.specs.Prelude.{◌≡◌, ℕ, Bool, true, not, ◌&&◌, ◌||◌, None, ◌++◌, bytes_eq, is_some, IfOk, IfErr, OnOk};
ghost use Rattle.indexmap.specs.IndexMap.{get};
ghost use Rattle.circuit_model.specs.Names.{has, all_different};
ghost use Rattle.circuit_model.specs.Soundness.{outputs_of, leaf_names};
ghost use Rattle.func_core.specs.Numbers.{Stays};
ghost use Rattle.net_func.specs.Numbering.{number_in, no_numbers, NumbersStand, AreSettled, IsOrderOf, AreOver, Adds, IsBlamed, is_free_leaf, FitsLeaves, FitsOver};
ghost use Rattle.net_func.specs.Signals.{Blames};

use crate::building::{Places, TableOrder, add_all, place_at, table_order};
use crate::fault::NetFuncFault;
use crate::numbers::Numbers;
use circuit_model::{Circuit, Name, Names, Table, add_latches};
use func_core::Functions;
use sis_base::{Copied, Sequence};
use std::alloc::{AllocError, Global};

/// Appends copies of names.
pub(crate) fn add_names(
    alloc: Global,
    names: &mut Vec<Name>,
    more: &[Name],
) -> Result<(), AllocError>
    ensures { OnOk result (names.new.items ≡ names.old.items ++ more.now) }
{
    for name in more {
        names.push(name.copy(alloc)?)?;
    }
    Ok(())
}

/// Appends the leaves.
#[tactic(auto, using(std::proofs::lemmas::Grind::common_steps))]
pub(crate) fn add_leaf_names(
    alloc: Global,
    names: &mut Vec<Name>,
    circuit: &Circuit,
) -> Result<(), AllocError>
    ensures { OnOk result (names.new.items ≡ names.old.items ++ leaf_names circuit.now) }
{
    add_names(alloc, names, circuit.inputs.as_slice())?;
    add_latches(alloc, names, circuit.latches.as_slice())
}

/// The leaves: the inputs, then the outputs of latches.
pub(crate) fn leaf_names(alloc: Global, circuit: &Circuit) -> Result<Names, AllocError>
    ensures { IfOk result (λ names. names ≡ leaf_names circuit.now) }
{
    let mut names = Vec::new(alloc);
    add_leaf_names(alloc, &mut names, circuit)?;
    Ok(Sequence::from_vec(names))
}

// Makes the function of a leaf, the variable of its index, unless a table drives its name or it has
// a number.
fn add_leaf<F: Functions>(
    alloc: Global,
    functions: &mut F,
    numbers: &mut Numbers,
    places: &Places,
    name: &Name,
    place: usize,
) -> Result<(), AllocError>
    requires stand { NumbersStand F.holds functions.old (number_in numbers.old) }
    ensures ok { OnOk result (Adds F.holds F.tree F.limit functions.old functions.new
        (number_in numbers.old) (number_in numbers.new)
        (λ other. bytes_eq other name.now && not (is_some (get bytes_eq places.now other)))
        (λ value. get bytes_eq places.now name.now ≡ None
        → (point : ℕ → Bool) → value name.now point ≡ point place)) }
    ensures stays { Stays F.holds F.tree F.limit functions.old functions.new }
{
    if place_at(places, name).is_some() {
        return Ok(());
    }
    if numbers.get(name).is_some() {
        return Ok(());
    }
    match functions.var(place) {
        Ok(number) => numbers.insert(alloc, name, number),
        Err(_fault) => Err(AllocError),
    }
}

// Makes the functions of leaves that no table drives.
fn add_leaves<F: Functions>(
    alloc: Global,
    functions: &mut F,
    numbers: &mut Numbers,
    places: &Places,
    leaves: &[Name],
) -> Result<(), AllocError>
    requires once { all_different leaves.now ≡ true }
    requires stand { NumbersStand F.holds functions.old (number_in numbers.old) }
    ensures ok { OnOk result (Adds F.holds F.tree F.limit functions.old functions.new
        (number_in numbers.old) (number_in numbers.new)
        (is_free_leaf leaves.now (get bytes_eq places.now))
        (FitsLeaves leaves.now (get bytes_eq places.now))) }
    ensures stays { Stays F.holds F.tree F.limit functions.old functions.new }
{
    for (place, name) in leaves.iter().enumerate() {
        add_leaf(alloc, functions, numbers, places, name, place)?;
    }
    Ok(())
}

/// Adds a constant function for a name.
pub(crate) fn add_constant<F: Functions>(
    alloc: Global,
    functions: &mut F,
    numbers: &mut Numbers,
    name: &Name,
    bit: bool,
) -> Result<(), AllocError>
    requires stand { NumbersStand F.holds functions.old (number_in numbers.old) }
    ensures ok { OnOk result (Adds F.holds F.tree F.limit functions.old functions.new
        (number_in numbers.old) (number_in numbers.new) (λ other. bytes_eq other name.now)
        (λ value. (point : ℕ → Bool) → value name.now point ≡ bit)) }
    ensures stays { Stays F.holds F.tree F.limit functions.old functions.new }
{
    match functions.constant(bit) {
        Ok(number) => numbers.insert(alloc, name, number),
        Err(_fault) => Err(AllocError),
    }
}

/// The number of a constant function, for one name.
pub(crate) fn constant_at<F: Functions>(
    alloc: Global,
    functions: &mut F,
    name: &Name,
    bit: bool,
) -> Result<Numbers, AllocError>
    ensures ok { IfOk result (λ numbers. Adds F.holds F.tree F.limit functions.old functions.new
        no_numbers (number_in numbers) (λ other. bytes_eq other name.now)
        (λ value. (point : ℕ → Bool) → value name.now point ≡ bit)) }
    ensures stays { Stays F.holds F.tree F.limit functions.old functions.new }
{
    let mut numbers = Numbers::new(alloc);
    add_constant(alloc, functions, &mut numbers, name, bit)?;
    Ok(numbers)
}

/// Makes the functions of leaves and tables. If a table drives the name of a leaf, its function is
/// used for the leaf, unless the name had a number before.
pub(crate) fn add_ordered<F: Functions>(
    alloc: Global,
    functions: &mut F,
    numbers: &mut Numbers,
    leaves: &[Name],
    tables: &[Table],
    order: &TableOrder,
) -> Result<(), NetFuncFault>
    requires once { all_different leaves.now ≡ true }
    requires tables { AreSettled tables.now }
    requires order { IsOrderOf tables.now order.now }
    requires over { AreOver leaves.now tables.now }
    requires stand { NumbersStand F.holds functions.old (number_in numbers.old) }
    ensures ok { OnOk result (Adds F.holds F.tree F.limit functions.old functions.new
        (number_in numbers.old) (number_in numbers.new)
        (λ name. has leaves.now name || has (outputs_of tables.now) name)
        (FitsOver leaves.now tables.now (number_in numbers.old))) }
    ensures big { IfErr result (λ fault. Blames fault (IsBlamed F.holds F.tree F.limit functions.old
        tables.now (number_in numbers.old)
        (FitsOver leaves.now tables.now (number_in numbers.old)))) }
    ensures stays { Stays F.holds F.tree F.limit functions.old functions.new }
{
    add_leaves(alloc, functions, numbers, &order.places, leaves)?;
    add_all(alloc, functions, numbers, tables, order)
}

/// The same, for tables whose order is not known.
pub(crate) fn add_over<F: Functions>(
    alloc: Global,
    functions: &mut F,
    numbers: &mut Numbers,
    leaves: &[Name],
    tables: &[Table],
) -> Result<(), NetFuncFault>
    requires once { all_different leaves.now ≡ true }
    requires tables { AreSettled tables.now }
    requires over { AreOver leaves.now tables.now }
    requires stand { NumbersStand F.holds functions.old (number_in numbers.old) }
    ensures ok { OnOk result (Adds F.holds F.tree F.limit functions.old functions.new
        (number_in numbers.old) (number_in numbers.new)
        (λ name. has leaves.now name || has (outputs_of tables.now) name)
        (FitsOver leaves.now tables.now (number_in numbers.old))) }
    ensures big { IfErr result (λ fault. Blames fault (IsBlamed F.holds F.tree F.limit functions.old
        tables.now (number_in numbers.old)
        (FitsOver leaves.now tables.now (number_in numbers.old)))) }
    ensures stays { Stays F.holds F.tree F.limit functions.old functions.new }
{
    let order = table_order(alloc, tables)?;
    add_ordered(alloc, functions, numbers, leaves, tables, &order)
}
