//! Full simplification of a network: each table in topological order becomes minimal under its
//! don't-cares.
//!
//! Source: the SIS report (UCB/ERL M92/41), `full_simplify`. The order is that of the network at
//! the start; the don't-cares of a table are those of the network at its step. Callers rely on the
//! result to refine the network, and on bounds and the limit to stay.

ghost use Rattle.std.specs.Prelude.{◌≡◌, ℕ, true, List, IfOk, IfErr, OnOk};
ghost use Rattle.circuit_model.specs.Names.{has};
ghost use Rattle.circuit_model.specs.Runs.{Refines};
ghost use Rattle.circuit_model.specs.Soundness.{outputs_of};
ghost use Rattle.net_core.specs.Reads.{HasBounds};
ghost use Rattle.odc_simplify.specs.Full.{IsKept};
ghost use Rattle.odc_simplify.specs.Turns.{AreTurned, IsFaultAlong, HasFullySimplified, Serves};

use crate::fault::FullFault;
use crate::turns::minimize;
use circuit_model::Name;
use cube_cover::Row;
use func_core::Functions;
use net_core::Network;
use net_func::KeptFunctions;
use std::alloc::Global;

// The tables of names become minimal one after the other. After an error the network may be any.
fn minimize_along<R: Row, F: Functions>(
    alloc: Global,
    network: &mut Network<R>,
    functions: &mut F,
    kept: &mut KeptFunctions,
    names: &[Name],
) -> Result<(), FullFault>
    requires driven { (name : List ℕ) → has names.now name ≡ true
        → has (outputs_of network.old.tables) name ≡ true }
    requires serves { Serves F.holds F.tree F.limit functions.old network.old kept.old }
    ensures limit { F.limit functions.new ≡ F.limit functions.old }
    ensures turned { OnOk result
        (AreTurned (F.limit functions.old) network.old names.now network.new) }
    ensures fault { IfErr result (λ fault.
        IsFaultAlong (F.limit functions.old) network.old names.now fault) }
{
    for name in names {
        minimize(alloc, network, functions, kept, name)?;
    }
    Ok(())
}

/// A new network, fully simplified; the given one stays. Each table in topological order becomes
/// minimal under its don't-cares, which are those of the network at that time. `CubeLimit` has the
/// name of the first table, in that order, of phase 0 whose list of the rows where it is 1 then has
/// more than `MAX_ROWS` rows. `TooBig` has the name of the table in whose step a function was above
/// the object's limit; no network is returned if the function of a table's signal is above it at
/// any step. The object keeps its limit. Its numbers may be invalid afterwards: it is cleared when
/// it is full.
pub fn full_simplify<R: Row, F: Functions>(
    alloc: Global,
    network: &Network<R>,
    functions: &mut F,
) -> Result<Network<R>, FullFault>
    ensures simplified { HasFullySimplified (F.limit functions.old) network.now result }
    ensures kept { IfOk result (IsKept network.now) }
    ensures refines { IfOk result (λ made. Refines network.now made) }
    ensures bounds { HasBounds network.now → IfOk result HasBounds }
    ensures limit { F.limit functions.new ≡ F.limit functions.old }
{
    network.sound();
    let order = network.order(alloc)?;
    let mut kept = KeptFunctions::new(alloc, network)?;
    let mut made = network.copy(alloc)?;
    let names = order.as_slice();
    match minimize_along(alloc, &mut made, functions, &mut kept, names) {
        Ok(()) => Ok(made),
        Err(fault) => Err(fault),
    }
}
