//! Functions of all signals of a network, with or without one signal fixed, and the observability
//! of a signal.
//!
//! Source: De Micheli, "Synthesis and Optimization of Digital Circuits", chapter 8 (observability
//! don't-cares). These are the public calls that keep nothing: each converts the network to a
//! circuit and makes all functions again over its leaves. Callers rely on each number to mean
//! exactly its function, and on earlier numbers and the limit to stay, whatever the result. An
//! error of `signal_functions` has the name of a table a part of which is too big; one of `forced`
//! or `care` always has the name that was asked for.

ghost use Rattle.std.specs.Prelude.{◌≡◌, ℕ, true, ◌⊎◌, List, ◌++◌, IfOk, IfErr};
ghost use Rattle.circuit_model.specs.Names.{has};
ghost use Rattle.circuit_model.specs.Soundness.{outputs_of, leaf_names, IsSound};
ghost use Rattle.circuit_order.specs.Order.{order_of};
ghost use Rattle.func_core.specs.Numbers.{Means, Stays};
ghost use Rattle.net_func.specs.Signals.{own_function, free_function, forced_function, is_seen, AreNumbered, IsBigAt, IsBigForced, IsBigSeen, Blames};

use crate::fault::{NetFuncFault, renamed};
use crate::listing::{forced_listed, free_listed, own_listed};
use crate::numbers::Numbered;
use crate::seen::seen_function;
use circuit_model::{Circuit, Name};
use cube_cover::Row;
use func_core::{Func, Functions};
use net_core::Network;
use sis_base::Whole;
use std::alloc::Global;

/// Functions by the names of their signals: in `own` the leaves and then the tables, in `free` the
/// tables of the don't-care part, both in topological order.
#[derive(Drop)]
pub struct Signals {
    pub own: Numbered,
    pub free: Numbered,
}

// The functions of all signals of a circuit.
fn signals_of<F: Functions>(
    alloc: Global,
    functions: &mut F,
    circuit: &Circuit,
) -> Result<Signals, NetFuncFault>
    requires sound { IsSound circuit.now }
    ensures own { IfOk result (λ signals. AreNumbered F.holds F.tree F.limit functions.new
        (leaf_names circuit.now ++ order_of circuit.now.tables) (own_function circuit.now)
        signals.own) }
    ensures free { IfOk result (λ signals. AreNumbered F.holds F.tree F.limit functions.new
        (order_of circuit.now.dont_care) (free_function circuit.now) signals.free) }
    ensures big { IfErr result (λ fault. Blames fault (λ blamed.
        IsBigAt (F.limit functions.old) circuit.now.tables (own_function circuit.now) blamed
        ⊎ IsBigAt (F.limit functions.old) circuit.now.dont_care (free_function circuit.now)
        blamed)) }
    ensures stays { Stays F.holds F.tree F.limit functions.old functions.new }
{
    let own = own_listed(alloc, functions, circuit)?;
    let free = free_listed(alloc, functions, circuit)?;
    Ok(Signals { own, free })
}

/// The functions of all signals of a network, and of its don't-care tables, over its leaves.
pub fn signal_functions<R: Row, F: Functions>(
    alloc: Global,
    net: &Network<R>,
    functions: &mut F,
) -> Result<Signals, NetFuncFault>
    ensures own { IfOk result (λ signals. AreNumbered F.holds F.tree F.limit functions.new
        (leaf_names net.now ++ order_of net.now.tables) (own_function net.now) signals.own) }
    ensures free { IfOk result (λ signals. AreNumbered F.holds F.tree F.limit functions.new
        (order_of net.now.dont_care) (free_function net.now) signals.free) }
    ensures big { IfErr result (λ fault. Blames fault (λ blamed.
        IsBigAt (F.limit functions.old) net.now.tables (own_function net.now) blamed
        ⊎ IsBigAt (F.limit functions.old) net.now.dont_care (free_function net.now) blamed)) }
    ensures stays { Stays F.holds F.tree F.limit functions.old functions.new }
{
    net.sound();
    // A `Whole`, so that it is dropped in one call.
    let circuit = Whole {
        it: net.to_circuit(alloc)?,
    };
    signals_of(alloc, functions, &circuit.it)
}

// The functions of all signals of a circuit in which one signal is fixed at a bit, whatever its
// table gives.
fn forced_signals_of<F: Functions>(
    alloc: Global,
    functions: &mut F,
    circuit: &Circuit,
    name: &Name,
    value: bool,
) -> Result<Signals, NetFuncFault>
    requires sound { IsSound circuit.now }
    requires driven { has (outputs_of circuit.now.tables) name.now ≡ true }
    ensures own { IfOk result (λ signals. AreNumbered F.holds F.tree F.limit functions.new
        (leaf_names circuit.now ++ order_of circuit.now.tables)
        (forced_function circuit.now name.now value) signals.own) }
    ensures free { IfOk result (λ signals. AreNumbered F.holds F.tree F.limit functions.new
        (order_of circuit.now.dont_care) (free_function circuit.now) signals.free) }
    ensures big { IfErr result (λ fault. Blames fault (λ blamed.
        IsBigForced (F.limit functions.old) circuit.now name.now value
        ⊎ ((part : List ℕ) × IsBigAt (F.limit functions.old) circuit.now.dont_care
        (free_function circuit.now) part))) }
    ensures stays { Stays F.holds F.tree F.limit functions.old functions.new }
{
    let own = forced_listed(alloc, functions, circuit, name, value)?;
    let free = free_listed(alloc, functions, circuit)?;
    Ok(Signals { own, free })
}

/// The functions over its leaves of all signals of a network in which the signal of a table is
/// fixed at a bit, whatever the table gives; and those of the don't-care tables.
pub fn forced<R: Row, F: Functions>(
    alloc: Global,
    net: &Network<R>,
    name: &Name,
    value: bool,
    functions: &mut F,
) -> Result<Signals, NetFuncFault>
    requires driven { has (outputs_of net.now.tables) name.now ≡ true }
    ensures own { IfOk result (λ signals. AreNumbered F.holds F.tree F.limit functions.new
        (leaf_names net.now ++ order_of net.now.tables) (forced_function net.now name.now value)
        signals.own) }
    ensures free { IfOk result (λ signals. AreNumbered F.holds F.tree F.limit functions.new
        (order_of net.now.dont_care) (free_function net.now) signals.free) }
    ensures big { IfErr result (λ fault. Blames fault (λ blamed. (blamed ≡ name.now)
        × (IsBigForced (F.limit functions.old) net.now name.now value
        ⊎ ((part : List ℕ) × IsBigAt (F.limit functions.old) net.now.dont_care
        (free_function net.now) part)))) }
    ensures stays { Stays F.holds F.tree F.limit functions.old functions.new }
{
    net.sound();
    // A `Whole`, so that it is dropped in one call.
    let circuit = Whole {
        it: net.to_circuit(alloc)?,
    };
    match forced_signals_of(alloc, functions, &circuit.it, name, value) {
        Ok(signals) => Ok(signals),
        Err(fault) => Err(renamed(alloc, fault, name)),
    }
}

/// The function of where the signal of a table is observable: where complementing it changes a
/// latch input, or an output that the don't-care part does not leave open.
pub fn care<R: Row, F: Functions>(
    alloc: Global,
    net: &Network<R>,
    name: &Name,
    functions: &mut F,
) -> Result<Func, NetFuncFault>
    requires driven { has (outputs_of net.now.tables) name.now ≡ true }
    ensures ok { IfOk result (λ made. Means F.holds F.tree F.limit functions.new made.0
        (is_seen net.now name.now)) }
    ensures big { IfErr result (λ fault. Blames fault (λ blamed. (blamed ≡ name.now)
        × IsBigSeen (F.limit functions.old) net.now name.now)) }
    ensures stays { Stays F.holds F.tree F.limit functions.old functions.new }
{
    net.sound();
    // A `Whole`, so that it is dropped in one call.
    let circuit = Whole {
        it: net.to_circuit(alloc)?,
    };
    match seen_function(alloc, functions, &circuit.it, name) {
        Ok(seen) => Ok(seen),
        Err(fault) => Err(renamed(alloc, fault, name)),
    }
}
