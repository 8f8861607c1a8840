//! The functions needed to simplify one table: its inputs, its output, and where the output is
//! observable.
//!
//! `turn_of` completes the numbers that the caller keeps and reads the result from them. Callers
//! rely on `AreSome` for the completed numbers, and on `fits`: a result means that no function of a
//! table's signal is above the limit.

ghost use Rattle.std.specs.Prelude.{◌≡◌, ℕ, true, ◌⊎◌, Some, List, map, IfOk, IfErr, OnOk};
ghost use Rattle.circuit_model.specs.Names.{has};
ghost use Rattle.circuit_model.specs.Values.{driver};
ghost use Rattle.circuit_model.specs.Soundness.{outputs_of};
ghost use Rattle.circuit_model.specs.declared.circuit.Table.{Table};
ghost use Rattle.func_core.specs.Numbers.{Means, Stays};
ghost use Rattle.net_func.specs.Numbering.{number_in, has_number, AreSome};
ghost use Rattle.net_func.specs.Signals.{own_function, free_function, is_seen, AreMeant, AreWithin};
ghost use Rattle.net_func.specs.Signals.{IsBigAt, IsBigSeen, Blames};
ghost use Rattle.net_func.specs.Kept.{is_signal, is_free_signal, IsInOrder};

use crate::building::table_at;
use crate::fault::NetFuncFault;
use crate::numbers::Numbers;
use crate::ordered::{OrderedCircuit, add_part};
use crate::parts::Part;
use crate::seen::seen_beside;
use circuit_model::Name;
use func_core::{Func, Functions};
use std::alloc::{AllocError, Global};

/// The functions of a table's inputs in order, that of its output, and that of where its output is
/// observable.
#[derive(Drop)]
pub struct TurnFunctions {
    pub inputs: Vec<Func>,
    pub own: Func,
    pub seen: Func,
}

// The numbers of the inputs of the table that drives a signal.
fn input_numbers(
    alloc: Global,
    ordered: &OrderedCircuit,
    name: &Name,
    numbers: &Numbers,
) -> Result<Vec<Func>, AllocError>
    requires ready { IsInOrder ordered.now }
    requires driven { has (outputs_of ordered.now.circuit.tables) name.now ≡ true }
    requires known { (signal : List ℕ) → has_number (number_in numbers.now) signal
        ≡ is_signal ordered.now.circuit signal }
    ensures { IfOk result (λ inputs. (table : Table)
        → driver ordered.now.circuit.tables name.now ≡ Some table
        → map Some inputs.items ≡ map (number_in numbers.now) table.inputs) }
{
    let tables = ordered.circuit.tables.as_slice();
    let table = table_at(tables, &ordered.tables.places, name);
    numbers.all_known(alloc, table.inputs.as_slice())
}

/// The functions needed to simplify a table of a circuit: those of its inputs and of its output
/// over the leaves, and that of where its output is observable. Functions of signals and of the
/// don't-care part are made if they have no number yet.
pub(crate) fn turn_of<F: Functions>(
    alloc: Global,
    functions: &mut F,
    ordered: &OrderedCircuit,
    own: &mut Numbers,
    free: &mut Numbers,
    name: &Name,
) -> Result<TurnFunctions, NetFuncFault>
    requires ready { IsInOrder ordered.now }
    requires driven { has (outputs_of ordered.now.circuit.tables) name.now ≡ true }
    requires own { AreSome F.holds F.tree F.limit functions.old (is_signal ordered.now.circuit)
        (own_function ordered.now.circuit) (number_in own.old) }
    requires free { AreSome F.holds F.tree F.limit functions.old
        (is_free_signal ordered.now.circuit) (free_function ordered.now.circuit)
        (number_in free.old) }
    ensures inputs { IfOk result (λ turn. (table : Table)
        → driver ordered.now.circuit.tables name.now ≡ Some table
        → AreMeant F.holds F.tree F.limit functions.new table.inputs
        (own_function ordered.now.circuit) turn.inputs.items) }
    ensures own { IfOk result (λ turn. Means F.holds F.tree F.limit functions.new turn.own.0
        (own_function ordered.now.circuit name.now)) }
    ensures seen { IfOk result (λ turn. Means F.holds F.tree F.limit functions.new turn.seen.0
        (is_seen ordered.now.circuit name.now)) }
    ensures fits { OnOk result (AreWithin (F.limit functions.old) ordered.now.circuit) }
    ensures own_kept { OnOk result (AreSome F.holds F.tree F.limit functions.new
        (is_signal ordered.now.circuit) (own_function ordered.now.circuit) (number_in own.new)) }
    ensures free_kept { OnOk result (AreSome F.holds F.tree F.limit functions.new
        (is_free_signal ordered.now.circuit) (free_function ordered.now.circuit)
        (number_in free.new)) }
    ensures big { IfErr result (λ fault. Blames fault (λ blamed.
        ((part : List ℕ) × IsBigAt (F.limit functions.old) ordered.now.circuit.tables
        (own_function ordered.now.circuit) part)
        ⊎ IsBigSeen (F.limit functions.old) ordered.now.circuit name.now)) }
    ensures stays { Stays F.holds F.tree F.limit functions.old functions.new }
{
    add_part(alloc, functions, ordered, Part::Tables, own)?;
    add_part(alloc, functions, ordered, Part::DontCare, free)?;
    let seen = seen_beside(alloc, functions, ordered, name, own, free)?;
    let inputs = input_numbers(alloc, ordered, name, own)?;
    let own = own.known(name);
    Ok(TurnFunctions { inputs, own, seen })
}
