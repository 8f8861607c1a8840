//! Observability of a signal: where complementing it changes a latch input or an output that is not
//! don't-care.
//!
//! Source: De Micheli, "Synthesis and Optimization of Digital Circuits", chapter 8 (the Boolean
//! difference of a function with regard to a signal, and observability don't-cares). The functions
//! of all signals are made with the signal fixed at 0 and at 1. Where both have one number nothing
//! changes; else their exclusive or, outside the don't-cares of an output, is added to the sum.
//! Callers rely on `is_seen` exactly, and on a refusal only if a function made on the way is above
//! the limit (`IsBigSeen`).

ghost use Rattle.std.specs.Prelude.{◌≡◌, true, false, not, ◌&&◌, ◌||◌, Option, Some, None, Err, ◌⊎◌, map, bytes_eq, IfOk, IfErr};
ghost use Rattle.std.specs.List.{list_all};
ghost use Rattle.indexmap.specs.IndexMap.{get};
ghost use Rattle.circuit_model.specs.Names.{has};
ghost use Rattle.circuit_model.specs.Soundness.{outputs_of, latch_inputs, IsSound};
ghost use Rattle.circuit_order.specs.Places.{IsIndex};
ghost use Rattle.func_core.specs.Numbers.{Means, IsBig, Stays};
ghost use Rattle.net_func.specs.Numbered.{computed};
ghost use Rattle.net_func.specs.Numbering.{number_in, has_number, no_numbers, AreAll};
ghost use Rattle.net_func.specs.Signals.{own_function, free_function, forced_function, is_seen, seen_among, IsBigSeen, Blames};
ghost use Rattle.net_func.specs.Kept.{is_signal, is_free_signal, IsInOrder};
ghost use Rattle.net_func.specs.Changes.{free_bit, FreeStands, ChangeStands, changed_by, shown_by, ChangesStand, HasBigChange, free_in, AreChanges, AreAllChanges};

use crate::building::{Places, place_at, places_of};
use crate::fault::{NetFuncFault, fault_at};
use crate::numbers::Numbers;
use crate::ordered::{OrderedCircuit, forced_beside};
use crate::parts::Part;
use crate::signals::{forced_numbers, part_numbers};
use circuit_model::{Circuit, Latch, Name};
use func_core::{Func, FuncFault, Functions};
use sis_base::Whole;
use std::alloc::{AllocError, Global};

/// How a signal changes if another one is complemented: its functions with the other one at 0 and
/// at 1, and where the change is don't-care, if there is such a function.
#[derive(Clone, Copy)]
pub(crate) struct Change {
    pub low: Func,
    pub high: Func,
    pub free: Option<Func>,
}

// A change outside its don't-cares.
fn outside<F: Functions>(
    functions: &mut F,
    change: Func,
    free: Option<Func>,
) -> Result<Func, FuncFault>
    requires change { F.holds functions.old change.0 }
    requires free { FreeStands F.holds functions.old free }
    ensures ok { IfOk result (λ made. Means F.holds F.tree F.limit functions.new made.0
        (λ point. not (free_bit F.tree functions.old free point)
        && computed F.tree functions.old change point)) }
    ensures big { result ≡ Err FuncFault.TooBig → IsBig (F.limit functions.old)
        (λ point. not (free_bit F.tree functions.old free point)
        && computed F.tree functions.old change point) }
    ensures stays { Stays F.holds F.tree F.limit functions.old functions.new }
{
    match free {
        None => Ok(change),
        Some(free) => {
            let closed = functions.not(free)?;
            functions.and(closed, change)
        }
    }
}

// The sum of what is observed already and a change outside its don't-cares.
fn add_change<F: Functions>(
    functions: &mut F,
    seen: Func,
    change: Change,
) -> Result<Func, FuncFault>
    requires seen { F.holds functions.old seen.0 }
    requires change { ChangeStands F.holds functions.old change }
    ensures ok { IfOk result (λ made. Means F.holds F.tree F.limit functions.new made.0
        (λ point. computed F.tree functions.old seen point
        || shown_by F.tree functions.old change point)) }
    ensures big { result ≡ Err FuncFault.TooBig
        → IsBig (F.limit functions.old) (changed_by F.tree functions.old change)
        ⊎ (IsBig (F.limit functions.old) (shown_by F.tree functions.old change)
        ⊎ IsBig (F.limit functions.old) (λ point. computed F.tree functions.old seen point
        || shown_by F.tree functions.old change point)) }
    ensures stays { Stays F.holds F.tree F.limit functions.old functions.new }
{
    // Equal numbers are equal functions: nothing changes.
    if change.low.0 == change.high.0 {
        return Ok(seen);
    }
    let changed = functions.xor(change.low, change.high)?;
    let shown = outside(functions, changed, change.free)?;
    functions.or(seen, shown)
}

// Where one of some changes is observed.
fn any_change<F: Functions>(functions: &mut F, changes: &[Change]) -> Result<Func, FuncFault>
    requires stand { ChangesStand F.holds functions.old changes.now }
    ensures ok { IfOk result (λ seen. Means F.holds F.tree F.limit functions.new seen.0
        (seen_among (map (shown_by F.tree functions.old) changes.now))) }
    ensures big { result ≡ Err FuncFault.TooBig → HasBigChange F.tree functions.old
        (F.limit functions.old) changes.now }
    ensures stays { Stays F.holds F.tree F.limit functions.old functions.new }
{
    let mut seen = functions.constant(false)?;
    for change in changes {
        seen = add_change(functions, seen, *change)?;
    }
    Ok(seen)
}

// The change of a signal that has numbers.
fn change_at(low: &Numbers, high: &Numbers, root: &Name, free: Option<Func>) -> Change
    requires low { has_number (number_in low.now) root.now ≡ true }
    requires high { has_number (number_in high.now) root.now ≡ true }
    ensures low { number_in low.now root.now ≡ Some result.low }
    ensures high { number_in high.now root.now ≡ Some result.high }
    ensures free { result.free ≡ free }
{
    Change {
        low: low.known(root),
        high: high.known(root),
        free,
    }
}

// The changes of latch inputs.
fn latch_changes(
    alloc: Global,
    latches: &[Latch],
    low: &Numbers,
    high: &Numbers,
) -> Result<Vec<Change>, AllocError>
    requires low { list_all (has_number (number_in low.now))
        (map (λ latch. latch.input) latches.now) ≡ true }
    requires high { list_all (has_number (number_in high.now))
        (map (λ latch. latch.input) latches.now) ≡ true }
    ensures { IfOk result (λ changes. AreChanges (number_in low.now) (number_in high.now)
        no_numbers (map (λ latch. latch.input) latches.now) changes.items) }
{
    let mut changes = Vec::with_capacity(alloc, latches.len())?;
    for latch in latches {
        changes.push(change_at(low, high, &latch.input, None))?;
    }
    Ok(changes)
}

// The don't-cares of an output, if a table of the don't-care part drives its name.
fn free_at(free: &Numbers, places: &Places, output: &Name) -> Option<Func>
    ensures { result ≡ free_in (number_in free.now) (get bytes_eq places.now) output.now }
{
    match place_at(places, output) {
        Some(_place) => free.get(output),
        None => None,
    }
}

// The changes of outputs.
fn output_changes(
    alloc: Global,
    outputs: &[Name],
    low: &Numbers,
    high: &Numbers,
    free: &Numbers,
    places: &Places,
) -> Result<Vec<Change>, AllocError>
    requires low { list_all (has_number (number_in low.now)) outputs.now ≡ true }
    requires high { list_all (has_number (number_in high.now)) outputs.now ≡ true }
    ensures { IfOk result (λ changes. AreChanges (number_in low.now) (number_in high.now)
        (free_in (number_in free.now) (get bytes_eq places.now)) outputs.now changes.items) }
{
    let mut changes = Vec::with_capacity(alloc, outputs.len())?;
    for output in outputs {
        changes.push(change_at(low, high, output, free_at(free, places, output)))?;
    }
    Ok(changes)
}

// All changes: those of latch inputs, then those of outputs, in order.
fn changes_of(
    alloc: Global,
    circuit: &Circuit,
    low: &Numbers,
    high: &Numbers,
    free: &Numbers,
    places: &Places,
) -> Result<Vec<Change>, AllocError>
    requires low_taken { list_all (has_number (number_in low.now)) (latch_inputs circuit.now)
        ≡ true }
    requires high_taken { list_all (has_number (number_in high.now)) (latch_inputs circuit.now)
        ≡ true }
    requires low_shown { list_all (has_number (number_in low.now)) circuit.now.outputs ≡ true }
    requires high_shown { list_all (has_number (number_in high.now)) circuit.now.outputs ≡ true }
    ensures { IfOk result (λ changes. AreAllChanges (number_in low.now) (number_in high.now)
        (free_in (number_in free.now) (get bytes_eq places.now)) (latch_inputs circuit.now)
        circuit.now.outputs changes.items) }
{
    let mut changes = latch_changes(alloc, circuit.latches.as_slice(), low, high)?;
    let more = output_changes(alloc, circuit.outputs.as_slice(), low, high, free, places)?;
    changes.extend_from_slice(more.as_slice())?;
    Ok(changes)
}

// Where a signal is observable, by the functions of all signals with it at 0 and with it at 1, and
// by those of the don't-care part.
fn seen_by<F: Functions>(
    alloc: Global,
    functions: &mut F,
    circuit: &Circuit,
    name: &Name,
    low: &Numbers,
    high: &Numbers,
    free: &Numbers,
    places: &Places,
) -> Result<Func, NetFuncFault>
    requires sound { IsSound circuit.now }
    requires low { AreAll F.holds F.tree F.limit functions.old (is_signal circuit.now)
        (forced_function circuit.now name.now false) (number_in low.now) }
    requires high { AreAll F.holds F.tree F.limit functions.old (is_signal circuit.now)
        (forced_function circuit.now name.now true) (number_in high.now) }
    requires free { AreAll F.holds F.tree F.limit functions.old (is_free_signal circuit.now)
        (free_function circuit.now) (number_in free.now) }
    requires places { IsIndex circuit.now.dont_care (get bytes_eq places.now) }
    ensures ok { IfOk result (λ seen. Means F.holds F.tree F.limit functions.new seen.0
        (is_seen circuit.now name.now)) }
    ensures big { IfErr result (λ fault. Blames fault
        (λ blamed. IsBigSeen (F.limit functions.old) circuit.now name.now)) }
    ensures stays { Stays F.holds F.tree F.limit functions.old functions.new }
{
    let changes = changes_of(alloc, circuit, low, high, free, places)?;
    match any_change(functions, changes.as_slice()) {
        Ok(seen) => Ok(seen),
        Err(fault) => Err(fault_at(alloc, fault, name)),
    }
}

/// Where a signal that a table drives is observable.
pub(crate) fn seen_function<F: Functions>(
    alloc: Global,
    functions: &mut F,
    circuit: &Circuit,
    name: &Name,
) -> Result<Func, NetFuncFault>
    requires sound { IsSound circuit.now }
    requires driven { has (outputs_of circuit.now.tables) name.now ≡ true }
    ensures ok { IfOk result (λ seen. Means F.holds F.tree F.limit functions.new seen.0
        (is_seen circuit.now name.now)) }
    ensures big { IfErr result (λ fault. Blames fault
        (λ blamed. IsBigSeen (F.limit functions.old) circuit.now name.now)) }
    ensures stays { Stays F.holds F.tree F.limit functions.old functions.new }
{
    let low = forced_numbers(alloc, functions, circuit, name, false)?;
    let high = forced_numbers(alloc, functions, circuit, name, true)?;
    let free = part_numbers(alloc, functions, circuit, Part::DontCare)?;
    // A `Whole`, so that it is dropped in one call.
    let places = Whole {
        it: places_of(alloc, circuit.dont_care.as_slice())?,
    };
    seen_by(
        alloc, functions, circuit, name, &low, &high, &free, &places.it,
    )
}

/// The same, by the functions that signals and the don't-care part have already.
pub(crate) fn seen_beside<F: Functions>(
    alloc: Global,
    functions: &mut F,
    ordered: &OrderedCircuit,
    name: &Name,
    own: &Numbers,
    free: &Numbers,
) -> Result<Func, NetFuncFault>
    requires ready { IsInOrder ordered.now }
    requires driven { has (outputs_of ordered.now.circuit.tables) name.now ≡ true }
    requires own { AreAll F.holds F.tree F.limit functions.old (is_signal ordered.now.circuit)
        (own_function ordered.now.circuit) (number_in own.now) }
    requires free { AreAll F.holds F.tree F.limit functions.old
        (is_free_signal ordered.now.circuit) (free_function ordered.now.circuit)
        (number_in free.now) }
    ensures ok { IfOk result (λ seen. Means F.holds F.tree F.limit functions.new seen.0
        (is_seen ordered.now.circuit name.now)) }
    ensures big { IfErr result (λ fault. Blames fault
        (λ blamed. IsBigSeen (F.limit functions.old) ordered.now.circuit name.now)) }
    ensures stays { Stays F.holds F.tree F.limit functions.old functions.new }
{
    let low = forced_beside(alloc, functions, ordered, own, name, false)?;
    let high = forced_beside(alloc, functions, ordered, own, name, true)?;
    let circuit = &ordered.circuit;
    let places = &ordered.dont_care.places;
    seen_by(alloc, functions, circuit, name, &low, &high, free, places)
}
