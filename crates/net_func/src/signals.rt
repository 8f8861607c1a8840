//! Numbers of the functions of all signals of a circuit, made again over its leaves.
//!
//! `part_numbers` gives those of the signals or of the don't-care part, and `forced_numbers` those
//! of the signals with one of them fixed at a bit: its constant is added first, so its table is not
//! used. Callers rely on `AreAll`: exactly the signals have numbers, each that of its function.

ghost use Rattle.std.specs.Prelude.{◌≡◌, true, false, ◌||◌, bytes_eq, IfOk, IfErr};
ghost use Rattle.circuit_model.specs.Names.{has};
ghost use Rattle.circuit_model.specs.Soundness.{outputs_of, leaf_names, IsSound};
ghost use Rattle.func_core.specs.Numbers.{Stays};
ghost use Rattle.net_func.specs.Numbering.{number_in, AreAll};
ghost use Rattle.net_func.specs.Parts.{part_tables, part_function, is_part_signal};
ghost use Rattle.net_func.specs.Signals.{forced_function, IsBigAt, Blames};

use crate::fault::NetFuncFault;
use crate::leaves::{add_over, constant_at, leaf_names};
use crate::numbers::Numbers;
use crate::parts::{Part, tables_of};
use circuit_model::{Circuit, Name};
use func_core::Functions;
use std::alloc::Global;

/// The numbers of the functions of the leaves of a circuit and of the signals of a part.
pub(crate) fn part_numbers<F: Functions>(
    alloc: Global,
    functions: &mut F,
    circuit: &Circuit,
    part: Part,
) -> Result<Numbers, NetFuncFault>
    requires sound { IsSound circuit.now }
    ensures ok { IfOk result (λ numbers. AreAll F.holds F.tree F.limit functions.new
        (is_part_signal part circuit.now) (part_function part circuit.now) (number_in numbers)) }
    ensures big { IfErr result (λ fault. Blames fault (IsBigAt (F.limit functions.old)
        (part_tables part circuit.now) (part_function part circuit.now))) }
    ensures stays { Stays F.holds F.tree F.limit functions.old functions.new }
{
    let leaves = leaf_names(alloc, circuit)?;
    let mut numbers = Numbers::new(alloc);
    let tables = tables_of(circuit, part);
    add_over(alloc, functions, &mut numbers, leaves.as_slice(), tables)?;
    Ok(numbers)
}

/// The numbers of the functions of all signals of a circuit if one signal, which a table drives, is
/// fixed at a bit.
pub(crate) fn forced_numbers<F: Functions>(
    alloc: Global,
    functions: &mut F,
    circuit: &Circuit,
    name: &Name,
    bit: bool,
) -> Result<Numbers, NetFuncFault>
    requires sound { IsSound circuit.now }
    requires driven { has (outputs_of circuit.now.tables) name.now ≡ true }
    ensures ok { IfOk result (λ numbers. AreAll F.holds F.tree F.limit functions.new
        (λ other. has (leaf_names circuit.now) other || has (outputs_of circuit.now.tables) other)
        (forced_function circuit.now name.now bit) (number_in numbers)) }
    ensures big { IfErr result (λ fault. Blames fault (λ blamed. (bytes_eq blamed name.now ≡ false)
        × IsBigAt (F.limit functions.old) circuit.now.tables
        (forced_function circuit.now name.now bit) blamed)) }
    ensures stays { Stays F.holds F.tree F.limit functions.old functions.new }
{
    let leaves = leaf_names(alloc, circuit)?;
    let mut numbers = constant_at(alloc, functions, name, bit)?;
    let tables = circuit.tables.as_slice();
    add_over(alloc, functions, &mut numbers, leaves.as_slice(), tables)?;
    Ok(numbers)
}
