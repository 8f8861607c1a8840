//! Where an elimination may change values: at its own index, at those of its fanouts, and at those
//! of the tables that drive inputs of any of these.
//!
//! Source: Brayton, Rudell, Sangiovanni-Vincentelli and Wang, "MIS: A Multiple-Level Logic
//! Optimization System" (1987). Callers rely on `AreTouched`: all these indices are listed, some
//! perhaps more than once.

ghost use Rattle.std.specs.Prelude.{◌≡◌, ℕ, true, Some, [], ◌∷◌, is_some, IfOk, OnOk};
ghost use Rattle.circuit_model.specs.Soundness.{IsSound};
ghost use Rattle.circuit_model.specs.declared.circuit.Table.{Table};
ghost use Rattle.net_work.specs.Placed.{circuit_of, table_at};
ghost use Rattle.net_elim.specs.Touching.{IsGrown, IsJoined, AreTouched};

use circuit_model::Name;
use cube_cover::Row;
use net_work::WorkingNetwork;
use std::alloc::{AllocError, Global};

// Appends the index of the table that drives a signal, if a table does.
fn push_driver<R: Row>(
    work: &WorkingNetwork<R>,
    name: &Name,
    places: &mut Vec<usize>,
) -> Result<(), AllocError>
    requires { IsSound (circuit_of work.now) }
    ensures { OnOk result (IsGrown work.now.slots (name.now ∷ []) places.old.items places.new.items) }
{
    match work.place_of(name) {
        None => Ok(()),
        Some(place) => {
            places.push(place)?;
            Ok(())
        }
    }
}

// Appends the indices of the tables that drive some signals.
fn push_drivers<R: Row>(
    work: &WorkingNetwork<R>,
    names: &[Name],
    places: &mut Vec<usize>,
) -> Result<(), AllocError>
    requires { IsSound (circuit_of work.now) }
    ensures { OnOk result (IsGrown work.now.slots names.now places.old.items places.new.items) }
{
    for name in names {
        push_driver(work, name, places)?;
    }
    Ok(())
}

// Appends an index, and the indices of the tables that drive inputs of its table.
fn push_reader<R: Row>(
    work: &WorkingNetwork<R>,
    place: usize,
    places: &mut Vec<usize>,
) -> Result<(), AllocError>
    requires sound { IsSound (circuit_of work.now) }
    requires there { is_some (table_at work.now.slots place) ≡ true }
    ensures { OnOk result (IsJoined work.now.slots place places.old.items places.new.items) }
{
    match work.entry(place) {
        None => unreachable!(),
        Some(entry) => {
            places.push(place)?;
            push_drivers(work, entry.table.inputs.as_slice(), places)
        }
    }
}

/// The indices where an elimination of the table at an index may change values; some may be listed
/// more than once.
pub(crate) fn touched_by<R: Row>(
    alloc: Global,
    work: &WorkingNetwork<R>,
    place: usize,
) -> Result<Vec<usize>, AllocError>
    requires sound { IsSound (circuit_of work.now) }
    requires there { is_some (table_at work.now.slots place) ≡ true }
    ensures { IfOk result (λ places. (inner : Table) → table_at work.now.slots place
        ≡ Some inner → AreTouched work.now.slots inner.output place places.items) }
{
    match work.entry(place) {
        None => unreachable!(),
        Some(inner) => {
            let readers = work.readers(alloc, &inner.output)?;
            let mut places = Vec::new(alloc);
            push_reader(work, place, &mut places)?;
            for reader in readers.as_slice() {
                push_reader(work, *reader, &mut places)?;
            }
            Ok(places)
        }
    }
}
