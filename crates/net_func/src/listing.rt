//! Functions of signals, listed by name in a fixed order.
//!
//! The signals of a circuit are listed as its leaves and then its tables in topological order;
//! those of its don't-care part as its tables alone, in their topological order. Callers rely on
//! `AreNumbered`: exactly these names, each with the number of its function. An error has the name
//! of a signal only if a part of its table is too big.

ghost use Rattle.std.specs.Prelude.{◌≡◌, ℕ, true, false, ◌||◌, List, ◌++◌, bytes_eq, IfOk, IfErr};
ghost use Rattle.circuit_model.specs.Names.{has};
ghost use Rattle.circuit_model.specs.Soundness.{outputs_of, leaf_names, IsSound};
ghost use Rattle.circuit_order.specs.Order.{order_of};
ghost use Rattle.func_core.specs.Numbers.{Stays};
ghost use Rattle.net_func.specs.Numbering.{number_in, has_number, IsListing};
ghost use Rattle.net_func.specs.Signals.{own_function, free_function, forced_function, AreNumbered, IsBigAt, Blames};

use crate::fault::NetFuncFault;
use crate::leaves::{add_leaf_names, add_names};
use crate::numbers::{Numbered, Numbers};
use crate::parts::Part;
use crate::signals::{forced_numbers, part_numbers};
use circuit_model::{Circuit, Name, Names};
use circuit_order::order;
use func_core::Functions;
use sis_base::Sequence;
use std::alloc::{AllocError, Global};

// The leaves, then the outputs of tables in topological order.
fn signal_names(alloc: Global, circuit: &Circuit) -> Result<Names, AllocError>
    requires sound { IsSound circuit.now }
    ensures { IfOk result (λ names. names ≡ leaf_names circuit.now ++ order_of circuit.now.tables) }
{
    let mut names = Vec::new(alloc);
    add_leaf_names(alloc, &mut names, circuit)?;
    let tables = order(alloc, circuit.tables.as_slice())?;
    add_names(alloc, &mut names, tables.as_slice())?;
    Ok(Sequence::from_vec(names))
}

// The numbers of all signals of a circuit, in order.
fn listed_signals(
    alloc: Global,
    circuit: &Circuit,
    numbers: &Numbers,
) -> Result<Numbered, AllocError>
    requires sound { IsSound circuit.now }
    requires known { (name : List ℕ) → has_number (number_in numbers.now) name
        ≡ (has (leaf_names circuit.now) name || has (outputs_of circuit.now.tables) name) }
    ensures { IfOk result (λ list. IsListing (number_in numbers.now)
        (leaf_names circuit.now ++ order_of circuit.now.tables) list) }
{
    let names = signal_names(alloc, circuit)?;
    numbers.listed(alloc, names.as_slice())
}

/// The functions of all signals of a circuit, in order.
pub(crate) fn own_listed<F: Functions>(
    alloc: Global,
    functions: &mut F,
    circuit: &Circuit,
) -> Result<Numbered, NetFuncFault>
    requires sound { IsSound circuit.now }
    ensures ok { IfOk result (λ list. AreNumbered F.holds F.tree F.limit functions.new
        (leaf_names circuit.now ++ order_of circuit.now.tables) (own_function circuit.now) list) }
    ensures big { IfErr result (λ fault. Blames fault
        (IsBigAt (F.limit functions.old) circuit.now.tables (own_function circuit.now))) }
    ensures stays { Stays F.holds F.tree F.limit functions.old functions.new }
{
    let numbers = part_numbers(alloc, functions, circuit, Part::Tables)?;
    Ok(listed_signals(alloc, circuit, &numbers)?)
}

/// The functions of all signals of a circuit with one signal fixed, in order.
pub(crate) fn forced_listed<F: Functions>(
    alloc: Global,
    functions: &mut F,
    circuit: &Circuit,
    name: &Name,
    bit: bool,
) -> Result<Numbered, NetFuncFault>
    requires sound { IsSound circuit.now }
    requires driven { has (outputs_of circuit.now.tables) name.now ≡ true }
    ensures ok { IfOk result (λ list. AreNumbered F.holds F.tree F.limit functions.new
        (leaf_names circuit.now ++ order_of circuit.now.tables)
        (forced_function circuit.now name.now bit) list) }
    ensures big { IfErr result (λ fault. Blames fault (λ blamed. (bytes_eq blamed name.now ≡ false)
        × IsBigAt (F.limit functions.old) circuit.now.tables
        (forced_function circuit.now name.now bit) blamed)) }
    ensures stays { Stays F.holds F.tree F.limit functions.old functions.new }
{
    let numbers = forced_numbers(alloc, functions, circuit, name, bit)?;
    Ok(listed_signals(alloc, circuit, &numbers)?)
}

/// The functions of the don't-care tables of a circuit, in topological order.
pub(crate) fn free_listed<F: Functions>(
    alloc: Global,
    functions: &mut F,
    circuit: &Circuit,
) -> Result<Numbered, NetFuncFault>
    requires sound { IsSound circuit.now }
    ensures ok { IfOk result (λ list. AreNumbered F.holds F.tree F.limit functions.new
        (order_of circuit.now.dont_care) (free_function circuit.now) list) }
    ensures big { IfErr result (λ fault. Blames fault
        (IsBigAt (F.limit functions.old) circuit.now.dont_care (free_function circuit.now))) }
    ensures stays { Stays F.holds F.tree F.limit functions.old functions.new }
{
    let numbers = part_numbers(alloc, functions, circuit, Part::DontCare)?;
    let names = order(alloc, circuit.dont_care.as_slice())?;
    Ok(numbers.listed(alloc, names.as_slice())?)
}
