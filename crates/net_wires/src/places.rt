//! The indices of the table and of the latch of a signal: hash maps from names, built once.
//! Insertion runs from the last item to the first, so that a name leads to the first item that has
//! it.

ghost use Rattle.std.specs.Prelude.{◌≡◌, ℕ, Some, List, bytes_eq, if◌then◌else◌, IfOk, OnOk};
ghost use Rattle.std.specs.Option.{option_copied};
ghost use Rattle.indexmap.specs.IndexMap.{get};
ghost use Rattle.circuit_model.specs.Values.{driver};
ghost use Rattle.net_wires.specs.Places.{holder, LeadsToTables, LeadsToLatches};

use circuit_model::{Latch, Name, Table};
use indexmap::IndexMap;
use sis_base::Copied;
use std::alloc::{AllocError, Global};

/// Sets the index of a name; an earlier one is overwritten.
pub fn note_place(
    places: &mut IndexMap<Name, usize>,
    name: Name,
    place: usize,
) -> Result<(), AllocError>
    ensures { OnOk result ((other : List ℕ) → get bytes_eq places.new other
        ≡ (if bytes_eq name other then Some place else get bytes_eq places.old other)) }
{
    let _place = places.insert(name, place)?;
    Ok(())
}

// The index of the table of each signal.
pub(crate) fn table_places(
    alloc: Global,
    tables: &[Table],
) -> Result<IndexMap<Name, usize>, AllocError>
    ensures { IfOk result (λ places. LeadsToTables (get bytes_eq places) tables.now) }
{
    let mut places = IndexMap::new(alloc);
    let mut left = tables.len();
    while left > 0 {
        left -= 1;
        let output = tables[left].output.copy(alloc)?;
        note_place(&mut places, output, left)?;
    }
    Ok(places)
}

// The index of the latch of each signal.
pub(crate) fn latch_places(
    alloc: Global,
    latches: &[Latch],
) -> Result<IndexMap<Name, usize>, AllocError>
    ensures { IfOk result (λ places. LeadsToLatches (get bytes_eq places) latches.now) }
{
    let mut places = IndexMap::new(alloc);
    let mut left = latches.len();
    while left > 0 {
        left -= 1;
        let output = latches[left].output.copy(alloc)?;
        note_place(&mut places, output, left)?;
    }
    Ok(places)
}

// The index of a name.
fn noted_place(places: &IndexMap<Name, usize>, name: &Name) -> Option<usize>
    ensures { result ≡ get bytes_eq places.now name.now }
{
    places.get(name).copied()
}

/// The table of a signal.
pub(crate) fn table_of<'a>(
    places: &IndexMap<Name, usize>,
    tables: &'a [Table],
    name: &Name,
) -> Option<&'a Table>
    requires { LeadsToTables (get bytes_eq places.now) tables.now }
    ensures { option_copied result ≡ driver tables.now name.now }
{
    tables.get(noted_place(places, name)?)
}

// The latch of a signal.
pub(crate) fn latch_of<'a>(
    places: &IndexMap<Name, usize>,
    latches: &'a [Latch],
    name: &Name,
) -> Option<&'a Latch>
    requires { LeadsToLatches (get bytes_eq places.now) latches.now }
    ensures { option_copied result ≡ holder latches.now name.now }
{
    latches.get(noted_place(places, name)?)
}
