//! The leaves that the don't-care part reads: what its tables read and none of them drives.
//!
//! Source: BLIF appendix of the SIS report (UCB/ERL M92/41), `.exdc`.

ghost use Rattle.std.specs.Prelude.{◌≡◌, ℕ, ◌&&◌, ◌||◌, not, List, bytes_eq, IfOk, OnOk};
ghost use Rattle.circuit_model.specs.Names.{has};
ghost use Rattle.circuit_model.specs.Soundness.{outputs_of, table_inputs};
ghost use Rattle.net_wires.specs.Needed.{dont_care_reads};

use circuit_model::{Circuit, Name, Table};
use indexmap::IndexSet;
use sis_base::{Copied, Whole};
use std::alloc::{AllocError, Global};

/// Whether a name is among names.
pub fn is_among(names: &IndexSet<Name>, name: &Name) -> bool
    ensures { result ≡ has names.now.keys name.now }
{
    names.contains(name)
}

// Adds a name, if it is wanted.
fn add_wanted(
    alloc: Global,
    names: &mut IndexSet<Name>,
    is_wanted: bool,
    name: &Name,
) -> Result<(), AllocError>
    ensures { OnOk result ((other : List ℕ) → has names.new.keys other
        ≡ (has names.old.keys other || (is_wanted && bytes_eq other name.now))) }
{
    if is_wanted {
        names.insert_full(name.copy(alloc)?)?;
    }
    Ok(())
}

/// The signals that tables drive.
pub fn driven_names(alloc: Global, tables: &[Table]) -> Result<IndexSet<Name>, AllocError>
    ensures { IfOk result (λ names. (name : List ℕ) → has names.keys name ≡ has
        (outputs_of tables.now) name) }
{
    let mut names = IndexSet::new(alloc);
    for table in tables {
        add_wanted(alloc, &mut names, true, &table.output)?;
    }
    Ok(names)
}

// Adds the names that are not driven.
fn add_undriven(
    alloc: Global,
    names: &mut IndexSet<Name>,
    driven: &IndexSet<Name>,
    more: &[Name],
) -> Result<(), AllocError>
    ensures { OnOk result ((name : List ℕ) → has names.new.keys name
        ≡ (has names.old.keys name || (not (has driven.now.keys name) && has more.now name))) }
{
    for name in more {
        add_wanted(alloc, names, !is_among(driven, name), name)?;
    }
    Ok(())
}

// The names that tables read and that are not driven.
fn undriven_inputs(
    alloc: Global,
    tables: &[Table],
    driven: &IndexSet<Name>,
) -> Result<IndexSet<Name>, AllocError>
    ensures { IfOk result (λ names. (name : List ℕ) → has names.keys name
        ≡ (not (has driven.now.keys name) && has (table_inputs tables.now) name)) }
{
    // A whole, so that one call drops it.
    let mut names = Whole {
        it: IndexSet::new(alloc),
    };
    for table in tables {
        add_undriven(alloc, &mut names.it, driven, table.inputs.as_slice())?;
    }
    Ok(names.into_it())
}

/// The leaves that the don't-care part reads.
#[tactic(auto, unfolding(crate::specs::Needed::dont_care_reads))]
pub fn leaves_read(alloc: Global, circuit: &Circuit) -> Result<IndexSet<Name>, AllocError>
    ensures { IfOk result (λ names. (name : List ℕ) → has names.keys name
        ≡ dont_care_reads circuit.now name) }
{
    let driven = driven_names(alloc, circuit.dont_care.as_slice())?;
    // A whole, so that one call drops it.
    let driven = Whole { it: driven };
    let names = undriven_inputs(alloc, circuit.dont_care.as_slice(), &driven.it)?;
    Ok(names)
}
