//! The names that no new table of a circuit may take, in a hash set.

ghost use Rattle.std.specs.Prelude.{◌≡◌, ℕ, ◌||◌, List, [], ◌∷◌, map, bytes_eq, IfOk, OnOk};
ghost use Rattle.circuit_model.specs.Names.{has};
ghost use Rattle.circuit_model.specs.Soundness.{control_of, names_of};
ghost use Rattle.circuit_model.specs.declared.circuit.Latch.{Latch};
ghost use Rattle.net_core.specs.Fresh.{reserved_by};

use circuit_model::{Circuit, Latch, Name, Table, Timing};
use indexmap::IndexSet;
use sis_base::Copied;
use std::alloc::{AllocError, Global};

/// Puts a name among names.
pub fn note(alloc: Global, names: &mut IndexSet<Name>, name: &Name) -> Result<(), AllocError>
    ensures { OnOk result ((other : List ℕ) → has names.new.keys other
        ≡ (has names.old.keys other || bytes_eq other name.now)) }
{
    names.insert_full(name.copy(alloc)?)?;
    Ok(())
}

/// Puts some names among names.
pub fn note_all(alloc: Global, names: &mut IndexSet<Name>, more: &[Name]) -> Result<(), AllocError>
    ensures { OnOk result ((other : List ℕ) → has names.new.keys other
        ≡ (has names.old.keys other || has more.now other)) }
{
    for name in more {
        note(alloc, names, name)?;
    }
    Ok(())
}

// Puts the outputs of latches among names.
fn note_latch_outputs(
    alloc: Global,
    names: &mut IndexSet<Name>,
    latches: &[Latch],
) -> Result<(), AllocError>
    ensures { OnOk result ((other : List ℕ) → has names.new.keys other
        ≡ (has names.old.keys other || has (map (λ (latch : Latch). latch.output) latches.now)
        other)) }
{
    for latch in latches {
        note(alloc, names, &latch.output)?;
    }
    Ok(())
}

// Puts the control, where there is one, among names.
fn note_control(
    alloc: Global,
    names: &mut IndexSet<Name>,
    timing: &Option<Timing>,
) -> Result<(), AllocError>
    ensures { OnOk result ((other : List ℕ) → has names.new.keys other
        ≡ (has names.old.keys other || has (control_of timing.now) other)) }
{
    match timing {
        None => Ok(()),
        Some(timing) => match &timing.control {
            None => Ok(()),
            Some(control) => note(alloc, names, control),
        },
    }
}

// Puts what a table has and reads among names.
fn note_table(alloc: Global, names: &mut IndexSet<Name>, table: &Table) -> Result<(), AllocError>
    ensures { OnOk result ((other : List ℕ) → has names.new.keys other
        ≡ (has names.old.keys other || has (names_of (table.now ∷ [])) other)) }
{
    note(alloc, names, &table.output)?;
    note_all(alloc, names, table.inputs.as_slice())
}

// Puts what tables have and read among names.
fn note_tables(
    alloc: Global,
    names: &mut IndexSet<Name>,
    tables: &[Table],
) -> Result<(), AllocError>
    ensures { OnOk result ((other : List ℕ) → has names.new.keys other
        ≡ (has names.old.keys other || has (names_of tables.now) other)) }
{
    for table in tables {
        note_table(alloc, names, table)?;
    }
    Ok(())
}

// Puts the names that no new table may take, those of tables aside, where no name is yet.
fn note_reserved(
    alloc: Global,
    names: &mut IndexSet<Name>,
    circuit: &Circuit,
) -> Result<(), AllocError>
    requires { names.old.keys ≡ [] }
    ensures { OnOk result ((name : List ℕ) → has names.new.keys name ≡ has
        (reserved_by circuit.now) name) }
{
    note_all(alloc, names, circuit.inputs.as_slice())?;
    note_latch_outputs(alloc, names, circuit.latches.as_slice())?;
    note_all(alloc, names, circuit.outputs.as_slice())?;
    note_all(alloc, names, circuit.clocks.as_slice())?;
    note_control(alloc, names, &circuit.timing)?;
    note_tables(alloc, names, circuit.dont_care.as_slice())?;
    Ok(())
}

/// The names that no new table may take, those of tables aside.
pub fn reserved_names(alloc: Global, circuit: &Circuit) -> Result<IndexSet<Name>, AllocError>
    ensures { IfOk result (λ names. (name : List ℕ) → has names.keys name ≡ has
        (reserved_by circuit.now) name) }
{
    let mut names = IndexSet::new(alloc);
    note_reserved(alloc, &mut names, circuit)?;
    Ok(names)
}
