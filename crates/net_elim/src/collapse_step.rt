//! One step of collapse: the table at an index is composed into all its fanouts, in the order of
//! their indices.
//!
//! Source: the SIS report (UCB/ERL M92/41), `collapse`. Each fanout is set as soon as it is made,
//! so after an error the network may be any. Callers rely on `IsPutInAll`: every table becomes what
//! it is with the table composed into it, and those that do not read it stay. A refusal names the
//! first fanout whose list of rows, or result, is too large.

ghost use Rattle.std.specs.Prelude.{◌≡◌, ℕ, true, false, Some, None, List, is_some, IfOk, IfErr, OnOk, ◌⊎◌};
ghost use Rattle.std.specs.Option.{option_map};
ghost use Rattle.std.specs.List.Sorted.{IsNonDecreasing};
ghost use Rattle.circuit_model.specs.Names.{has, all_different};
ghost use Rattle.circuit_model.specs.Soundness.{IsSound};
ghost use Rattle.circuit_model.specs.declared.circuit.Table.{Table};
ghost use Rattle.net_elim.specs.Collapsing.{refusal_among};
ghost use Rattle.net_readers.specs.Fanouts.{is_in};
ghost use Rattle.net_core.specs.Places.{written_of};
ghost use Rattle.net_core.specs.Tables.{named, IsOverInputs};
ghost use Rattle.net_work.specs.Placed.{standing, circuit_of, table_at, with_slot};
ghost use Rattle.net_work.specs.Slots.{inputs_at};
ghost use Rattle.alg_tables.specs.Taking.{composed_into, take_refusal};
ghost use Rattle.alg_tables.specs.declared.taking.ComposeFault.{ComposeFault};
ghost use Rattle.alg_tables.specs.declared.taking.ComposeFault.TheVariants.{Memory as NoMemory};
ghost use Rattle.net_elim.specs.Collapse.{IsCause};
ghost use Rattle.net_elim.specs.Phases.{IsPutInAll};

use crate::fault::{CollapseFault, fault_of};
use crate::putting::taken_at;
use alg_tables::ComposeFault;
use cube_cover::Row;
use net_core::CoverTable;
use net_work::WorkingNetwork;
use sis_base::Copied;
use sis_base::limits::MAX_ROWS;
use std::alloc::{AllocError, Global};

// The table at the second index, with that at the first composed into it.
fn taken_from<R: Row>(
    alloc: Global,
    work: &WorkingNetwork<R>,
    place: usize,
    reader: usize,
) -> Result<CoverTable<R>, ComposeFault>
    requires there { is_some (table_at work.now.slots place) ≡ true }
    requires reader { is_some (table_at work.now.slots reader) ≡ true }
    requires apart { (inner : Table) → table_at work.now.slots place ≡ Some inner
        → has inner.inputs inner.output ≡ false }
    ensures ok { IfOk result (λ made. (inner outer : Table)
        → table_at work.now.slots place ≡ Some inner → table_at work.now.slots reader ≡ Some outer
        → named outer.output made ≡ composed_into inner outer) }
    ensures over { IfOk result IsOverInputs }
    ensures once { IfOk result (λ made. all_different made.inputs ≡ true) }
    ensures within { OnOk result ((inner outer : Table)
        → table_at work.now.slots place ≡ Some inner → table_at work.now.slots reader ≡ Some outer
        → take_refusal MAX_ROWS MAX_ROWS inner outer ≡ None) }
    ensures fault { IfErr result (λ fault. (fault ≡ NoMemory)
        ⊎ ((inner outer : Table) → table_at work.now.slots place ≡ Some inner
        → table_at work.now.slots reader ≡ Some outer
        → take_refusal MAX_ROWS MAX_ROWS inner outer ≡ Some fault)) }
{
    match work.entry(place) {
        None => unreachable!(),
        Some(inner) => taken_at(alloc, work, inner, reader, MAX_ROWS),
    }
}

// The fault of a network for that of the table at an index.
fn fault_at<R: Row>(
    alloc: Global,
    work: &WorkingNetwork<R>,
    place: usize,
    fault: ComposeFault,
) -> CollapseFault
    requires { is_some (table_at work.now.slots place) ≡ true }
    ensures { (outer : Table) → table_at work.now.slots place ≡ Some outer
        → IsCause (Some (outer.output, fault)) result }
{
    match work.entry(place) {
        None => unreachable!(),
        Some(outer) => match outer.output.copy(alloc) {
            Ok(name) => fault_of(name, fault),
            Err(_) => CollapseFault::Memory,
        },
    }
}

// Composes the table at the first index into that at the second.
fn put_into<R: Row>(
    alloc: Global,
    work: &mut WorkingNetwork<R>,
    place: usize,
    reader: usize,
) -> Result<(), CollapseFault>
    requires there { is_some (table_at work.old.slots place) ≡ true }
    requires reader { is_some (table_at work.old.slots reader) ≡ true }
    requires apart { (inner : Table) → table_at work.old.slots place ≡ Some inner
        → has inner.inputs inner.output ≡ false }
    ensures put { OnOk result ((inner outer : Table)
        → table_at work.old.slots place ≡ Some inner → table_at work.old.slots reader ≡ Some outer
        → work.new ≡ with_slot work.old reader (Some (composed_into inner outer))) }
    ensures within { OnOk result ((inner outer : Table)
        → table_at work.old.slots place ≡ Some inner → table_at work.old.slots reader ≡ Some outer
        → take_refusal MAX_ROWS MAX_ROWS inner outer ≡ None) }
    ensures fault { IfErr result (λ fault. (inner outer : Table)
        → table_at work.old.slots place ≡ Some inner → table_at work.old.slots reader ≡ Some outer
        → IsCause (option_map (λ (found : ComposeFault). (outer.output, found))
        (take_refusal MAX_ROWS MAX_ROWS inner outer)) fault) }
{
    match taken_from(alloc, work, place, reader) {
        Ok(table) => {
            work.set(alloc, reader, table)?;
            Ok(())
        }
        Err(fault) => Err(fault_at(alloc, work, reader, fault)),
    }
}

// Composes the table at an index into given fanouts, in the order of their indices.
fn put_each<R: Row>(
    alloc: Global,
    work: &mut WorkingNetwork<R>,
    place: usize,
    readers: &[usize],
) -> Result<(), CollapseFault>
    requires sound { IsSound (circuit_of work.old) }
    requires there { is_some (table_at work.old.slots place) ≡ true }
    requires exact { (inner : Table) → table_at work.old.slots place ≡ Some inner → (at : ℕ)
        → is_in readers.now at ≡ has (inputs_at work.old.slots at) inner.output }
    requires rising { IsNonDecreasing readers.now }
    ensures put { OnOk result ((inner : Table) → table_at work.old.slots place ≡ Some inner
        → IsPutInAll inner work.old work.new) }
    ensures within { OnOk result ((inner : Table) → table_at work.old.slots place ≡ Some inner
        → refusal_among inner (standing work.old.slots) ≡ None) }
    ensures fault { IfErr result (λ fault. (inner : Table)
        → table_at work.old.slots place ≡ Some inner
        → IsCause (refusal_among inner (standing work.old.slots)) fault) }
{
    for reader in readers {
        put_into(alloc, work, place, *reader)?;
    }
    Ok(())
}

// The indices of the fanouts of the table at an index, in rising order.
fn readers_of<R: Row>(
    alloc: Global,
    work: &WorkingNetwork<R>,
    place: usize,
) -> Result<Vec<usize>, AllocError>
    requires { is_some (table_at work.now.slots place) ≡ true }
    ensures exact { IfOk result (λ readers. (inner : Table)
        → table_at work.now.slots place ≡ Some inner → (at : ℕ)
        → is_in readers.items at ≡ has (inputs_at work.now.slots at) inner.output) }
    ensures rising { IfOk result (λ readers. IsNonDecreasing readers.items) }
{
    match work.entry(place) {
        None => unreachable!(),
        Some(inner) => {
            let readers = work.readers(alloc, &inner.output)?;
            Ok(readers.into_vec())
        }
    }
}

/// Composes the table at an index into all its fanouts; the table itself stays. Refused if a fanout
/// cannot take it, with the name of the first such fanout. After an error the network may be any.
pub(crate) fn put_at<R: Row>(
    alloc: Global,
    work: &mut WorkingNetwork<R>,
    place: usize,
) -> Result<(), CollapseFault>
    requires sound { IsSound (circuit_of work.old) }
    requires there { is_some (table_at work.old.slots place) ≡ true }
    ensures put { OnOk result ((inner : Table) → table_at work.old.slots place ≡ Some inner
        → IsPutInAll inner work.old work.new) }
    ensures within { OnOk result ((inner : Table) → table_at work.old.slots place ≡ Some inner
        → refusal_among inner (standing work.old.slots) ≡ None) }
    ensures fault { IfErr result (λ fault. (inner : Table)
        → table_at work.old.slots place ≡ Some inner
        → IsCause (refusal_among inner (standing work.old.slots)) fault) }
{
    let readers = readers_of(alloc, work, place)?;
    put_each(alloc, work, place, readers.as_slice())
}
