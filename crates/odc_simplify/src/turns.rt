//! One step of full simplification: the table of a signal is replaced by its minimum under its
//! don't-cares.
//!
//! Source: De Micheli, "Synthesis and Optimization of Digital Circuits", chapter 8 (simplification
//! of one vertex after the other). First the rows where the table is 1 are listed, then a full
//! object is cleared (and the kept numbers with it), then the functions of the inputs, of the
//! output and of its observability are made, and last the rows are made prime and irredundant.
//! Invariant (`Serves`): the kept functions are those of the network as it is now. Callers rely on
//! `minimized` of `is_dont_care`, or on a fault with its cause (`IsTurnFault`).

ghost use Rattle.std.specs.Prelude.{◌≡◌, ◌⊎◌, true, false, Some, List, length};
ghost use Rattle.std.specs.Prelude.{IfOk, IfErr, IfSome, OnOk};
ghost use Rattle.circuit_model.specs.Names.{has};
ghost use Rattle.circuit_model.specs.Soundness.{outputs_of};
ghost use Rattle.circuit_model.specs.Values.{driver};
ghost use Rattle.circuit_model.specs.declared.circuit.Table.{Table};
ghost use Rattle.circuit_model.specs.declared.circuit.Circuit.{Circuit};
ghost use Rattle.circuit_laws.specs.Edits.{with_replaced};
ghost use Rattle.cover_min.specs.Minimum.{minimum_rows};
ghost use Rattle.func_core.specs.Numbers.{Means, Stays};
ghost use Rattle.net_core.specs.Tables.{named, IsOverInputs};
ghost use Rattle.net_func.specs.Signals.{own_function, is_seen, AreMeant, AreWithin};
ghost use Rattle.net_func.specs.Held.{circuit_of, IsReady, KeepsSome};
ghost use Rattle.sdc_simplify.specs.Minimized.{on_rows, meaning_of, minimized};
ghost use Rattle.sdc_simplify.specs.Simplified.{with_minimum, is_refused};
ghost use Rattle.odc_simplify.specs.Full.{leaf_count, is_dont_care};
ghost use Rattle.odc_simplify.specs.Turns.{Passes, IsTurnFault, Serves, list_fault, turn_fault};

use crate::fault::FullFault;
use crate::tested::least_cover;
use circuit_model::Name;
use cover_min::OracleFault;
use cube_cover::{Cover, Row};
use func_core::Functions;
use net_core::{CoverTable, Network, tidy};
use net_func::{KeptFunctions, NetFuncFault, TurnFunctions};
use sdc_simplify::{SimplifyFault, on_cover};
use sis_base::Copied;
use std::alloc::{AllocError, Global};

// The fault of a list that was not made.
fn fault_of_list(fault: SimplifyFault) -> FullFault
    ensures { result ≡ list_fault fault }
{
    match fault {
        SimplifyFault::CubeLimit(name) => FullFault::CubeLimit(name),
        SimplifyFault::Memory => FullFault::Memory,
    }
}

// The fault of functions of a step that were not made.
fn fault_of_turn(fault: NetFuncFault) -> FullFault
    ensures { result ≡ turn_fault fault }
{
    match fault {
        NetFuncFault::TooBig(name) => FullFault::TooBig(name),
        NetFuncFault::Memory => FullFault::Memory,
    }
}

// The fault of a function that is too big, in the step of the table of a name.
fn too_big(alloc: Global, name: &Name) -> FullFault
    ensures { (result ≡ FullFault.TooBig name.now) ⊎ (result ≡ FullFault.Memory) }
{
    match name.copy(alloc) {
        Ok(name) => FullFault::TooBig(name),
        Err(_failed) => FullFault::Memory,
    }
}

// The number of leaves of a network, if a machine word holds it.
fn leaf_number<R: Row>(network: &Network<R>) -> Option<usize>
    ensures { IfSome result (λ count. count ≡ leaf_count network.now) }
{
    network.inputs().len().checked_add(network.latches().len())
}

// The minimum of the on-list of the table of a name, by the functions of its step.
fn least_by<R: Row, F: Functions>(
    alloc: Global,
    network: &Network<R>,
    functions: &mut F,
    name: &Name,
    table: &CoverTable<R>,
    cover: Cover<R>,
    turn: TurnFunctions,
) -> Result<Cover<R>, FullFault>
    requires driven { driver network.now.tables name.now ≡ Some (named name.now table.now) }
    requires short { is_refused network.now name.now ≡ false }
    requires rows { cover ≡ record {
      width = length table.now.inputs;
      rows = on_rows (named name.now table.now);
    } }
    requires inputs { AreMeant F.holds F.tree F.limit functions.old table.now.inputs
        (own_function network.now) turn.inputs.items }
    requires own { Means F.holds F.tree F.limit functions.old turn.own.0
        (own_function network.now name.now) }
    requires seen { Means F.holds F.tree F.limit functions.old turn.seen.0
        (is_seen network.now name.now) }
    ensures stays { Stays F.holds F.tree F.limit functions.old functions.new }
    ensures minimum { IfOk result (λ least. least ≡ record {
      width = length table.now.inputs;
      rows = minimum_rows (meaning_of (named name.now table.now)
          (is_dont_care network.now (named name.now table.now)))
          (on_rows (named name.now table.now));
    }) }
    ensures fault { IfErr result (λ fault.
        IsTurnFault (F.limit functions.old) network.now name.now fault) }
{
    network.sound();
    let Some(leaves) = leaf_number(network) else {
        return Err(FullFault::Memory);
    };
    let inputs = turn.inputs.as_slice();
    match least_cover(alloc, functions, cover, leaves, turn.own, turn.seen, inputs) {
        Ok(least) => Ok(least),
        Err(OracleFault::Memory) => Err(FullFault::Memory),
        Err(OracleFault::Refused) => Err(too_big(alloc, name)),
    }
}

// Clears the object if it is full, and with it the kept numbers.
fn make_room<F: Functions>(functions: &mut F, kept: &mut KeptFunctions)
    ensures limit { F.limit functions.new ≡ F.limit functions.old }
    ensures serves { (circuit : Circuit)
        → Serves F.holds F.tree F.limit functions.old circuit kept.old
        → Serves F.holds F.tree F.limit functions.new circuit kept.new }
{
    if functions.is_full() {
        functions.clear();
        kept.forget();
    }
}

// The minimum of the on-list of the table of a name under its don't-cares.
fn least_rows<R: Row, F: Functions>(
    alloc: Global,
    network: &Network<R>,
    functions: &mut F,
    kept: &mut KeptFunctions,
    name: &Name,
    table: &CoverTable<R>,
    cover: Cover<R>,
) -> Result<Cover<R>, FullFault>
    requires driven { driver network.now.tables name.now ≡ Some (named name.now table.now) }
    requires short { is_refused network.now name.now ≡ false }
    requires rows { cover ≡ record {
      width = length table.now.inputs;
      rows = on_rows (named name.now table.now);
    } }
    requires serves { Serves F.holds F.tree F.limit functions.old network.now kept.old }
    ensures serves { Serves F.holds F.tree F.limit functions.new network.now kept.new }
    ensures limit { F.limit functions.new ≡ F.limit functions.old }
    ensures minimum { IfOk result (λ least. least ≡ record {
      width = length table.now.inputs;
      rows = minimum_rows (meaning_of (named name.now table.now)
          (is_dont_care network.now (named name.now table.now)))
          (on_rows (named name.now table.now));
    }) }
    ensures within { OnOk result (AreWithin (F.limit functions.old) network.now) }
    ensures fault { IfErr result (λ fault.
        IsTurnFault (F.limit functions.old) network.now name.now fault) }
{
    make_room(functions, kept);
    match kept.turn(alloc, functions, name) {
        Ok(turn) => least_by(alloc, network, functions, name, table, cover, turn),
        Err(fault) => Err(fault_of_turn(fault)),
    }
}

// The minimum of the table of a name under its don't-cares. Its on-list is made first, so that one
// that is too long is reported before any function is made.
fn least_table<R: Row, F: Functions>(
    alloc: Global,
    network: &Network<R>,
    functions: &mut F,
    kept: &mut KeptFunctions,
    name: &Name,
    table: &CoverTable<R>,
) -> Result<CoverTable<R>, FullFault>
    requires driven { driver network.now.tables name.now ≡ Some (named name.now table.now) }
    requires over { IsOverInputs table.now }
    requires serves { Serves F.holds F.tree F.limit functions.old network.now kept.old }
    ensures serves { Serves F.holds F.tree F.limit functions.new network.now kept.new }
    ensures limit { F.limit functions.new ≡ F.limit functions.old }
    ensures minimized { IfOk result (λ made. named name.now made
        ≡ minimized (named name.now table.now)
        (is_dont_care network.now (named name.now table.now))) }
    ensures over { IfOk result IsOverInputs }
    ensures passed { OnOk result (Passes (F.limit functions.old) network.now name.now) }
    ensures fault { IfErr result (λ fault.
        IsTurnFault (F.limit functions.old) network.now name.now fault) }
{
    let cover = match on_cover(alloc, name, table) {
        Ok(cover) => cover,
        Err(fault) => return Err(fault_of_list(fault)),
    };
    let least = CoverTable {
        inputs: table.inputs.copy(alloc)?,
        cover: least_rows(alloc, network, functions, kept, name, table, cover)?,
        phase: true,
    };
    Ok(tidy(alloc, &least)?)
}

// The minimum under its don't-cares of the table that drives a name.
pub(crate) fn least_of<R: Row, F: Functions>(
    alloc: Global,
    network: &Network<R>,
    functions: &mut F,
    kept: &mut KeptFunctions,
    name: &Name,
) -> Result<CoverTable<R>, FullFault>
    requires driven { has (outputs_of network.now.tables) name.now ≡ true }
    requires serves { Serves F.holds F.tree F.limit functions.old network.now kept.old }
    ensures serves { Serves F.holds F.tree F.limit functions.new network.now kept.new }
    ensures limit { F.limit functions.new ≡ F.limit functions.old }
    ensures minimized { IfOk result (λ made. (table : Table)
        → driver network.now.tables name.now ≡ Some table
        → named name.now made ≡ minimized table (is_dont_care network.now table)) }
    ensures over { IfOk result IsOverInputs }
    ensures passed { OnOk result (Passes (F.limit functions.old) network.now name.now) }
    ensures fault { IfErr result (λ fault.
        IsTurnFault (F.limit functions.old) network.now name.now fault) }
{
    match network.table(name) {
        None => unreachable!(),
        Some(table) => least_table(alloc, network, functions, kept, name, table),
    }
}

// Replaces the table of a name in the circuit whose functions are kept.
fn tell<R: Row>(
    alloc: Global,
    kept: &mut KeptFunctions,
    name: &Name,
    table: &CoverTable<R>,
) -> Result<(), AllocError>
    requires ready { IsReady kept.old }
    requires driven { has (outputs_of (circuit_of kept.old).tables) name.now ≡ true }
    requires over { IsOverInputs table.now }
    requires minimized { (old : Table) → driver (circuit_of kept.old).tables name.now ≡ Some old
        → named name.now table.now ≡ minimized old (is_dont_care (circuit_of kept.old) old) }
    ensures ready { IsReady kept.new }
    ensures replaced { OnOk result (circuit_of kept.new
        ≡ with_replaced (circuit_of kept.old) (named name.now table.now)) }
    ensures kept { OnOk result (KeepsSome kept.old kept.new) }
{
    let written = table.to_written(alloc, name)?;
    kept.replace(alloc, written)
}

/// Replaces the table of a name, which a table drives, by its minimum under its don't-cares. An
/// error changes nothing in the network, which no clause says; the limit of the object stays.
pub(crate) fn minimize<R: Row, F: Functions>(
    alloc: Global,
    network: &mut Network<R>,
    functions: &mut F,
    kept: &mut KeptFunctions,
    name: &Name,
) -> Result<(), FullFault>
    requires driven { has (outputs_of network.old.tables) name.now ≡ true }
    requires serves { Serves F.holds F.tree F.limit functions.old network.old kept.old }
    ensures serves { OnOk result
        (Serves F.holds F.tree F.limit functions.new network.new kept.new) }
    ensures limit { F.limit functions.new ≡ F.limit functions.old }
    ensures minimized { OnOk result
        (network.new ≡ with_minimum is_dont_care network.old name.now) }
    ensures signals { OnOk result (outputs_of network.new.tables ≡ outputs_of network.old.tables) }
    ensures passed { OnOk result (Passes (F.limit functions.old) network.old name.now) }
    ensures fault { IfErr result (λ fault.
        IsTurnFault (F.limit functions.old) network.old name.now fault) }
{
    network.sound();
    let table = least_of(alloc, network, functions, kept, name)?;
    tell(alloc, kept, name, &table)?;
    network.replace(name, table);
    Ok(())
}
