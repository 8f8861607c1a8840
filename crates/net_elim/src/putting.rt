//! Composes one table into all its fanouts: first all results are made, then each is set at its
//! index.
//!
//! Source: Brayton, Rudell, Sangiovanni-Vincentelli and Wang, "MIS: A Multiple-Level Logic
//! Optimization System" (1987); the SIS report (UCB/ERL M92/41), `eliminate`. As nothing is set
//! before all results are made, a fanout that cannot take the table leaves the network unchanged.
//! Callers rely on `with_put`, or on `Refused` only if a list or a result exceeds its limit. If
//! memory runs out the network may be any.

ghost use Rattle.std.specs.Prelude.{◌≡◌, ℕ, true, false, Some, None, List, [], ◌∷◌, ◌++◌, length, is_some, IfOk, IfErr, OnOk, ◌⊎◌};
ghost use Rattle.std.specs.List.{AllByRecursion};
ghost use Rattle.circuit_model.specs.Names.{has, all_different};
ghost use Rattle.circuit_model.specs.Soundness.{IsSound};
ghost use Rattle.circuit_model.specs.declared.circuit.Table.{Table};
ghost use Rattle.net_elim.specs.Eliminating.{all_take};
ghost use Rattle.net_readers.specs.Fanouts.{is_in};
ghost use Rattle.net_core.specs.Places.{written_of};
ghost use Rattle.net_core.specs.Tables.{named, IsOverInputs};
ghost use Rattle.net_work.specs.Placed.{standing, circuit_of, table_at};
ghost use Rattle.net_work.specs.Slots.{inputs_at};
ghost use Rattle.alg_tables.specs.Taking.{composed_into, take_refusal};
ghost use Rattle.alg_tables.specs.declared.taking.ComposeFault.TheVariants.{Memory as NoMemory};
ghost use Rattle.net_elim.specs.Putting.{with_put, IsMade, IsFit, AreMade, places_made};
ghost use Rattle.net_elim.specs.declared.putting.PutFault.TheVariants.{Refused, Memory};

use alg_tables::{ComposeFault, compose_into};
use cube_cover::Row;
use net_core::{CoverTable, Entry};
use net_work::WorkingNetwork;
use sis_base::limits::MAX_ROWS;
use std::alloc::{AllocError, Global};

/// Why a table is not composed into all its fanouts.
#[derive(Clone, Copy, Debug, PartialEq, Eq, Drop)]
pub(crate) enum PutFault {
    /// Some fanout cannot take it.
    Refused,
    /// There is not enough memory.
    Memory,
}

impl From<AllocError> for PutFault {
    ghost use Rattle.std.specs.Prelude.{◌≡◌};
    ghost use Rattle.net_elim.specs.declared.putting.PutFault.TheVariants.{Memory};

    ghost from_gives = { λ _ fault. fault ≡ Memory };

    fn from(_error: AllocError) -> PutFault {
        PutFault::Memory
    }
}

/// What the table at an index becomes.
#[derive(Drop)]
pub(crate) struct Made<R: Row> {
    pub(crate) place: usize,
    pub(crate) table: CoverTable<R>,
}

/// The table at an index, with another one composed into it.
pub(crate) fn taken_at<R: Row>(
    alloc: Global,
    work: &WorkingNetwork<R>,
    inner: &Entry<R>,
    place: usize,
    rows: usize,
) -> Result<CoverTable<R>, ComposeFault>
    requires there { is_some (table_at work.now.slots place) ≡ true }
    requires over { IsOverInputs inner.now.table }
    requires once { all_different inner.now.table.inputs ≡ true }
    requires apart { has inner.now.table.inputs inner.now.output ≡ false }
    ensures ok { IfOk result (λ made. (outer : Table) → table_at work.now.slots place
        ≡ Some outer → named outer.output made ≡ composed_into (written_of inner.now) outer) }
    ensures over { IfOk result IsOverInputs }
    ensures once { IfOk result (λ made. all_different made.inputs ≡ true) }
    ensures within { OnOk result ((outer : Table) → table_at work.now.slots place ≡ Some outer
        → take_refusal MAX_ROWS rows (written_of inner.now) outer ≡ None) }
    ensures fault { IfErr result (λ fault. (fault ≡ NoMemory)
        ⊎ ((outer : Table) → table_at work.now.slots place ≡ Some outer
        → take_refusal MAX_ROWS rows (written_of inner.now) outer ≡ Some fault)) }
{
    match work.entry(place) {
        None => unreachable!(),
        Some(outer) => compose_into(
            alloc,
            &inner.output,
            &inner.table,
            &outer.table,
            MAX_ROWS,
            rows,
        ),
    }
}

// The fault of a network for that of one fanout.
fn fault_of(fault: ComposeFault) -> PutFault
    ensures memory { fault ≡ ComposeFault.Memory → result ≡ PutFault.Memory }
    ensures refused { result ≡ PutFault.Memory → fault ≡ ComposeFault.Memory }
{
    match fault {
        ComposeFault::CubeLimit => PutFault::Refused,
        ComposeFault::TooWide(_) => PutFault::Refused,
        ComposeFault::Memory => PutFault::Memory,
    }
}

// Appends what was made.
fn put_last<R: Row>(made: &mut Vec<Made<R>>, one: Made<R>) -> Result<(), AllocError>
    ensures { OnOk result (made.new.items ≡ made.old.items ++ one ∷ []) }
{
    made.push(one)?;
    Ok(())
}

// Appends the table at an index, with another one composed into it.
fn push_made<R: Row>(
    alloc: Global,
    work: &WorkingNetwork<R>,
    inner: &Entry<R>,
    place: usize,
    rows: usize,
    made: &mut Vec<Made<R>>,
) -> Result<(), PutFault>
    requires there { is_some (table_at work.now.slots place) ≡ true }
    requires over { IsOverInputs inner.now.table }
    requires once { all_different inner.now.table.inputs ≡ true }
    requires apart { has inner.now.table.inputs inner.now.output ≡ false }
    ensures places { OnOk result (places_made made.new.items
        ≡ places_made made.old.items ++ place ∷ []) }
    ensures made { OnOk result (AllByRecursion (IsMade (written_of inner.now) work.now.slots)
        made.old.items → AllByRecursion (IsMade (written_of inner.now) work.now.slots)
        made.new.items) }
    ensures fit { OnOk result (AllByRecursion IsFit made.old.items
        → AllByRecursion IsFit made.new.items) }
    ensures within { OnOk result ((outer : Table) → table_at work.now.slots place ≡ Some outer
        → take_refusal MAX_ROWS rows (written_of inner.now) outer ≡ None) }
    ensures fault { IfErr result (λ fault. (fault ≡ Memory)
        ⊎ ((fault ≡ Refused) × ((outer : Table) → table_at work.now.slots place ≡ Some outer
        → is_some (take_refusal MAX_ROWS rows (written_of inner.now) outer) ≡ true))) }
{
    match taken_at(alloc, work, inner, place, rows) {
        Ok(table) => {
            put_last(made, Made { place, table })?;
            Ok(())
        }
        Err(fault) => Err(fault_of(fault)),
    }
}

// The tables at some indices, with another one composed into each.
fn all_made<R: Row>(
    alloc: Global,
    work: &WorkingNetwork<R>,
    inner: &Entry<R>,
    readers: &[usize],
    rows: usize,
) -> Result<Vec<Made<R>>, PutFault>
    requires there { (place : ℕ) → is_in readers.now place ≡ true → is_some
        (table_at work.now.slots place) ≡ true }
    requires over { IsOverInputs inner.now.table }
    requires once { all_different inner.now.table.inputs ≡ true }
    requires apart { has inner.now.table.inputs inner.now.output ≡ false }
    ensures places { IfOk result (λ made. places_made made.items ≡ readers.now) }
    ensures made { IfOk result (λ made. AllByRecursion
        (IsMade (written_of inner.now) work.now.slots) made.items) }
    ensures fit { IfOk result (λ made. AllByRecursion IsFit made.items) }
    ensures within { OnOk result ((place : ℕ) (outer : Table) → is_in readers.now place ≡ true
        → table_at work.now.slots place ≡ Some outer → take_refusal MAX_ROWS rows
        (written_of inner.now) outer ≡ None) }
    ensures fault { IfErr result (λ fault. (fault ≡ Memory)
        ⊎ ((fault ≡ Refused) × ((place : ℕ) × ((outer : Table) → table_at work.now.slots place
        ≡ Some outer → is_some (take_refusal MAX_ROWS rows (written_of inner.now) outer) ≡ true)
        × (is_some (table_at work.now.slots place) ≡ true)))) }
{
    let mut made = Vec::with_capacity(alloc, readers.len())?;
    for place in readers {
        push_made(alloc, work, inner, *place, rows, &mut made)?;
    }
    Ok(made)
}

// The fanouts of the table at an index, with it composed into each.
fn made_for<R: Row>(
    alloc: Global,
    work: &WorkingNetwork<R>,
    place: usize,
    rows: usize,
) -> Result<Vec<Made<R>>, PutFault>
    requires sound { IsSound (circuit_of work.now) }
    requires there { is_some (table_at work.now.slots place) ≡ true }
    ensures made { IfOk result (λ made. (inner : Table) → table_at work.now.slots place
        ≡ Some inner → AreMade inner work.now.slots made.items) }
    ensures fit { IfOk result (λ made. AllByRecursion IsFit made.items) }
    ensures within { OnOk result ((inner : Table) → table_at work.now.slots place ≡ Some inner
        → all_take rows (circuit_of work.now) inner ≡ true) }
    ensures fault { IfErr result (λ fault. (fault ≡ Memory)
        ⊎ ((fault ≡ Refused) × ((inner : Table) → table_at work.now.slots place ≡ Some inner
        → all_take rows (circuit_of work.now) inner ≡ false))) }
{
    match work.entry(place) {
        None => unreachable!(),
        Some(inner) => {
            let readers = work.readers(alloc, &inner.output)?;
            all_made(alloc, work, inner, readers.as_slice(), rows)
        }
    }
}

// Sets what was made at its indices, all of which have tables.
fn set_all<R: Row>(
    alloc: Global,
    work: &mut WorkingNetwork<R>,
    made: Vec<Made<R>>,
) -> Result<(), AllocError>
    requires fit { AllByRecursion IsFit made.items }
    requires made { (inner : Table) × AreMade inner work.old.slots made.items }
    ensures { OnOk result ((inner : Table) → AreMade inner work.old.slots made.items → work.new
        ≡ with_put inner work.old) }
{
    let mut left = made;
    while let Some(one) = left.pop() {
        work.set(alloc, one.place, one.table)?;
    }
    Ok(())
}

/// Composes the table at an index into all its fanouts; the table itself stays. Refused if a fanout
/// cannot take it, and then nothing changed. If memory runs out the network may be any.
pub(crate) fn put_at<R: Row>(
    alloc: Global,
    work: &mut WorkingNetwork<R>,
    place: usize,
    rows: usize,
) -> Result<(), PutFault>
    requires sound { IsSound (circuit_of work.old) }
    requires there { is_some (table_at work.old.slots place) ≡ true }
    ensures put { OnOk result ((inner : Table) → table_at work.old.slots place ≡ Some inner
        → work.new ≡ with_put inner work.old) }
    ensures within { OnOk result ((inner : Table) → table_at work.old.slots place ≡ Some inner
        → all_take rows (circuit_of work.old) inner ≡ true) }
    ensures fault { IfErr result (λ fault. (fault ≡ Memory)
        ⊎ ((fault ≡ Refused) × (work.new ≡ work.old)
        × ((inner : Table) → table_at work.old.slots place ≡ Some inner → all_take rows
        (circuit_of work.old) inner ≡ false))) }
{
    let made = made_for(alloc, work, place, rows)?;
    set_all(alloc, work, made)?;
    Ok(())
}
