//! Circuits in which a table is split off others.

ghost use Rattle.std.specs.Prelude.{◌≡◌, true, false};
ghost use Rattle.sis_base.specs.Written.{is_word};
ghost use Rattle.circuit_model.specs.Names.{has};
ghost use Rattle.circuit_model.specs.Soundness.{control_of, given, IsSound};
ghost use Rattle.circuit_model.specs.declared.circuit.Table.{Table};
ghost use Rattle.circuit_model.specs.declared.circuit.Circuit.{Circuit};
ghost use Rattle.circuit_laws.specs.Fitting.{IsFitting};
ghost use Rattle.circuit_laws.specs.Changes.{IsExtended};
ghost use Rattle.circuit_laws.specs.Splits.{IsSplit, with_split};

/// Adds a table that fits, under a word that nothing drives and that is not the control, and
/// rewrites the other tables over it: the circuit stays sound, no signal is removed, and each keeps
/// its value.
pub fn splitting_keeps()
    ensures { (circuit : Circuit) (new : Table) (turn : Table → Table) → IsSound circuit
        → is_word new.output ≡ true
        → has (given circuit) new.output ≡ false → has (control_of circuit.timing) new.output ≡ false → IsFitting circuit new
        → IsSplit circuit new turn → IsExtended circuit (with_split circuit turn new) }
{}
