//! Why a circuit stays sound if a table is replaced or added, tables and latches are removed, or a
//! latch becomes a constant. A new table must fit, that is, read driven signals, each once, and
//! have the shape of a table; `unused_names_are_free` gives the conditions on a new name.

ghost use Rattle.std.specs.Prelude.{◌≡◌, ℕ, Bool, true, false, List};
ghost use Rattle.sis_base.specs.Written.{is_word};
ghost use Rattle.circuit_model.specs.Names.{has};
ghost use Rattle.circuit_model.specs.Soundness.{outputs_of, control_of, all_names, given, taken, IsAcyclic, IsSound};
ghost use Rattle.circuit_model.specs.declared.circuit.Table.{Table};
ghost use Rattle.circuit_model.specs.declared.circuit.Circuit.{Circuit};
ghost use Rattle.circuit_laws.specs.Edits.{replaced, with_replaced, with_added, with_kept, with_fixed, with_removed, is_read, is_root};
ghost use Rattle.circuit_laws.specs.Fitting.{IsFitting};
ghost use Rattle.circuit_laws.specs.Fixed.{IsFixed};
ghost use Rattle.circuit_laws.specs.Kept.{IsClosed};

/// Replaces a table by one that fits.
pub fn replacing_is_sound()
    ensures { (circuit : Circuit) (new : Table) → IsSound circuit → has
        (outputs_of circuit.tables) new.output ≡ true → IsFitting circuit new
        → IsAcyclic (replaced circuit.tables new) → IsSound (with_replaced circuit new) }
{}

/// Adds a table that fits, whose signal is a word that nothing drives, and not the control.
pub fn adding_is_sound()
    ensures { (circuit : Circuit) (new : Table) → IsSound circuit → is_word new.output ≡ true
        → has (given circuit) new.output ≡ false
        → has (control_of circuit.timing) new.output ≡ false → IsFitting circuit new → IsSound (with_added circuit new) }
{}

/// A name that occurs nowhere in a circuit is not driven, not read and not the control. A table
/// that fits does not read its own signal, if nothing drives that signal yet.
pub fn unused_names_are_free()
    ensures given { (circuit : Circuit) (name : List ℕ) → has (all_names circuit) name ≡ false
        → has (given circuit) name ≡ false }
    ensures control { (circuit : Circuit) (name : List ℕ) → has (all_names circuit) name ≡ false
        → has (control_of circuit.timing) name ≡ false }
    ensures taken { (circuit : Circuit) → IsSound circuit → (name : List ℕ) → has
        (given circuit) name ≡ false → has (taken circuit) name ≡ false }
    ensures inputs { (circuit : Circuit) (new : Table) → IsFitting circuit new → has
        (given circuit) new.output ≡ false → has new.inputs new.output ≡ false }
{}

/// Removes tables and latches that nothing needs.
pub fn dropping_is_sound()
    ensures { (circuit : Circuit) (test : List ℕ → Bool) → IsSound circuit
        → IsClosed circuit test → IsSound (with_kept circuit test) }
{}

/// Removes a signal that nothing reads and that is no output and no latch's input.
pub fn removing_is_sound()
    ensures { (circuit : Circuit) (name : List ℕ) → IsSound circuit → is_read circuit name
        ≡ false → is_root circuit name ≡ false → IsSound (with_removed circuit name) }
{}

/// Replaces a latch that always holds one bit by the constant table of its name.
pub fn fixing_is_sound()
    ensures { (circuit : Circuit) (name : List ℕ) (bit : Bool) → IsSound circuit
        → IsFixed circuit name bit → IsSound (with_fixed circuit name bit) }
{}
