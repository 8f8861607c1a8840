//! Names for new signals: the least numbers in brackets that no signal of the circuit uses.
//!
//! Source: the names `[n]` are those of SIS's own new nodes (UCB/ERL M92/41); that the least free
//! numbers are taken, in order, is the project's own. Names of inputs, outputs, latches, tables,
//! clocks and the control, and all names of the don't-care part, count as used. Callers rely on
//! `AreNewTo`: new names are unused, differ, and come in rising order.

ghost use Rattle.std.specs.Prelude.{◌≡◌, ℕ, ◌-◌, ◌^◌, ◌<◌, ◌≤◌, true, false, ◌||◌, List, [], ◌∷◌};
ghost use Rattle.std.specs.Prelude.{length, IfOk, OnOk};
ghost use Rattle.circuit_model.specs.Names.{has};
ghost use Rattle.circuit_model.specs.Soundness.{outputs_of};
ghost use Rattle.net_core.specs.Fresh.{bracketed, used_names};
ghost use Rattle.map_net.specs.Naming.{AreNewTo};

use circuit_model::{Circuit, Name, Table};
use indexmap::IndexSet;
use net_core::{bracketed_name, note, reserved_names};
use std::alloc::{AllocError, Global};

// Puts the outputs of tables among names.
fn note_outputs(
    alloc: Global,
    names: &mut IndexSet<Name>,
    tables: &[Table],
) -> Result<(), AllocError>
    ensures { OnOk result ((other : List ℕ)
        → has names.new.keys other ≡ (has names.old.keys other || has (outputs_of tables.now)
        other)) }
{
    for table in tables {
        note(alloc, names, &table.output)?;
    }
    Ok(())
}

/// The names that no new signal of a circuit may take.
pub fn names_used(alloc: Global, circuit: &Circuit) -> Result<IndexSet<Name>, AllocError>
    ensures { IfOk result (λ names. (name : List ℕ)
        → has names.keys name ≡ has (used_names circuit.now) name) }
{
    let mut names = reserved_names(alloc, circuit)?;
    note_outputs(alloc, &mut names, circuit.tables.as_slice())?;
    Ok(names)
}

// Whether a name is in a set.
fn is_among(names: &IndexSet<Name>, name: &Name) -> bool
    ensures { result ≡ has names.now.keys name.now }
{
    names.contains(name)
}

// The first number from a given one on whose name in brackets is not used; no machine has memory
// for so many names that there is none.
fn first_free(alloc: Global, used: &IndexSet<Name>, start: u64) -> Result<u64, AllocError>
    ensures small { IfOk result (λ number. number < 2 ^ 64 - 1) }
    ensures from { IfOk result (λ number. start ≤ number) }
    ensures free { IfOk result (λ number. has used.now.keys (bracketed number) ≡ false) }
    ensures taken { IfOk result (λ number. (other : ℕ) → start ≤ other → other < number
        → has used.now.keys (bracketed other) ≡ true) }
{
    for number in start..u64::MAX {
        let name = bracketed_name(alloc, number)?;
        if !is_among(used, &name) {
            return Ok(number);
        }
    }
    Err(AllocError)
}

// The first unused name from a number on, and the number after it.
fn next_name(alloc: Global, used: &IndexSet<Name>, start: &mut u64) -> Result<Name, AllocError>
    ensures { IfOk result (λ name. AreNewTo used.now.keys start.old (name ∷ []) start.new) }
{
    let number = first_free(alloc, used, *start)?;
    let name = bracketed_name(alloc, number)?;
    *start = number + 1;
    Ok(name)
}

/// The first unused names from a number on, so many of them, and the number after the last.
pub fn next_names(
    alloc: Global,
    used: &IndexSet<Name>,
    start: &mut u64,
    count: usize,
) -> Result<Vec<Name>, AllocError>
    ensures names { IfOk result (λ names. AreNewTo used.now.keys start.old names.items start.new) }
    ensures count { IfOk result (λ names. length names.items ≡ count) }
{
    let mut names = Vec::with_capacity(alloc, count)?;
    for _place in 0..count {
        let name = next_name(alloc, used, start)?;
        names.push(name)?;
    }
    Ok(names)
}
