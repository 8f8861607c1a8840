//! The number of tables that a sweep removed: signals of the old tables that no table drives any
//! more.

ghost use Rattle.std.specs.Prelude.{◌≡◌, ℕ, not, false, Option, List, count_by, IfOk};
ghost use Rattle.std.specs.Option.{option_map_or};
ghost use Rattle.circuit_model.specs.Names.{has};
ghost use Rattle.circuit_model.specs.Soundness.{outputs_of};
ghost use Rattle.net_core.specs.declared.places.Entry.{Entry};

use circuit_model::{Name, Table};
use cube_cover::Row;
use indexmap::IndexSet;
use net_core::{Entry, Network};
use net_wires::{driven_names, is_among};
use std::alloc::{AllocError, Global};

// Whether a slot has a table whose name is not driven.
fn is_undriven<R: Row>(driven: &IndexSet<Name>, slot: &Option<Entry<R>>) -> bool
    ensures { result ≡ option_map_or
        (λ (entry : Entry R). not (has driven.now.keys entry.output)) slot.now false }
{
    match slot {
        None => false,
        Some(entry) => !is_among(driven, &entry.output),
    }
}

// The number of slots with a table whose name is not driven.
fn count_others<R: Row>(driven: &IndexSet<Name>, slots: &[Option<Entry<R>>]) -> usize
    ensures { result ≡ count_by (λ (slot : Option (Entry R)). option_map_or
        (λ (entry : Entry R). not (has driven.now.keys entry.output)) slot false) slots.now }
{
    slots
        .iter()
        .filter(|slot| is_undriven(driven, *slot))
        .count()
}

// The number of a network's tables whose names none of some tables drives.
pub(crate) fn count_undriven<R: Row>(
    alloc: Global,
    network: &Network<R>,
    tables: &[Table],
) -> Result<usize, AllocError>
    ensures { IfOk result (λ count. count ≡ count_by
        (λ name. not (has (outputs_of tables.now) name)) (outputs_of network.now.tables)) }
{
    let driven = driven_names(alloc, tables)?;
    let count = count_others(&driven, network.entries());
    Ok(count)
}
