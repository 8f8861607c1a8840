//! Whether a circuit reads a name. The answer `false` is proved to mean that nothing reads it, the
//! don't-care part included (`IsClosed`), as the calls that remove a table require.

ghost use Rattle.std.specs.Prelude.{◌≡◌, false, map};
ghost use Rattle.circuit_model.specs.Names.{has};
ghost use Rattle.circuit_model.specs.Soundness.{table_inputs};
ghost use Rattle.circuit_model.specs.declared.circuit.Latch.{Latch};
ghost use Rattle.circuit_laws.specs.Edits.{is_other};
ghost use Rattle.circuit_laws.specs.Kept.{IsClosed};

use circuit_model::{Circuit, Latch, Name, Names, Table};

/// Whether a name is among names.
fn is_among(names: &Names, name: &Name) -> bool
    ensures { result ≡ has names.now name.now }
{
    names.as_slice().iter().any(|other| *name == *other)
}

/// Whether a table reads a name.
fn is_table_input(tables: &[Table], name: &Name) -> bool
    ensures { result ≡ has (table_inputs tables.now) name.now }
{
    for table in tables {
        if is_among(&table.inputs, name) {
            return true;
        }
    }
    false
}

/// Whether a name is the input of a latch.
fn is_latched(latches: &[Latch], name: &Name) -> bool
    ensures { result ≡ has (map (λ (latch : Latch). latch.input) latches.now) name.now }
{
    for latch in latches {
        if *name == latch.input {
            return true;
        }
    }
    false
}

/// Whether a circuit reads a name, its don't-care part included.
pub fn is_needed(circuit: &Circuit, name: &Name) -> bool
    ensures { result ≡ false → IsClosed circuit.now (is_other name.now) }
{
    if is_table_input(circuit.tables.as_slice(), name) {
        return true;
    }
    if is_table_input(circuit.dont_care.as_slice(), name) {
        return true;
    }
    if is_latched(circuit.latches.as_slice(), name) {
        return true;
    }
    is_among(&circuit.outputs, name)
}
