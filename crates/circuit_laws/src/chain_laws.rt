//! Laws of changes of tables, and of chains of such changes.
//!
//! An `IsChanged` circuit is sound, differs from the old one in its tables alone, and keeps the
//! value of each signal that both drive. `IsReduced` adds no signal and `IsExtended` removes none.
//! Both are transitive, and hold of a sound circuit and itself, so a chain of steps of one kind is
//! a change of that kind. Commands rely on these laws to repeat a step until none applies.

ghost use Rattle.std.specs.Prelude.{◌≡◌, ℕ, Bool, true, false, Option, Some, List};
ghost use Rattle.std.specs.List.{AllByRecursion};
ghost use Rattle.sis_base.specs.Written.{is_word};
ghost use Rattle.circuit_model.specs.Names.{has};
ghost use Rattle.circuit_model.specs.Runs.{latch_outputs, Refines};
ghost use Rattle.circuit_model.specs.Soundness.{outputs_of, control_of, given, IsSound};
ghost use Rattle.circuit_model.specs.declared.circuit.Table.{Table};
ghost use Rattle.circuit_model.specs.declared.circuit.Latch.{Latch};
ghost use Rattle.circuit_model.specs.declared.circuit.Circuit.{Circuit};
ghost use Rattle.circuit_laws.specs.Chains.{Chain};
ghost use Rattle.circuit_laws.specs.Edits.{with_tables, with_kept, with_removed, with_added, is_read, is_root};
ghost use Rattle.circuit_laws.specs.Fitting.{IsFitting};
ghost use Rattle.circuit_laws.specs.Kept.{IsClosed};
ghost use Rattle.circuit_laws.specs.Same.{IsSame, KeepsEach};
ghost use Rattle.circuit_laws.specs.Changes.{IsChanged, IsReduced, IsExtended};

/// A change of a sound circuit's tables that keeps the values of signals leaves the circuit the
/// same, so that the new circuit refines the old one.
pub fn changes_are_same()
    ensures same { (old new : Circuit) → IsSound old → IsChanged old new → IsSame old new }
    ensures refines { (old new : Circuit) → IsSound old → IsChanged old new → Refines old new }
{}

/// Other tables for the same signals, where the new circuit is sound and each signal keeps its
/// value: a change that neither adds nor removes a signal.
pub fn changing_values_keeps()
    ensures reduced { (old : Circuit) (tables : List Table) → IsSound (with_tables old tables)
        → outputs_of tables ≡ outputs_of old.tables
        → KeepsEach old (with_tables old tables) → IsReduced old (with_tables old tables) }
    ensures extended { (old : Circuit) (tables : List Table) → IsSound
        (with_tables old tables) → outputs_of tables ≡ outputs_of old.tables
        → KeepsEach old (with_tables old tables) → IsExtended old (with_tables old tables) }
{}

/// Changes that add no signal: no change; one such change after another; a chain of such steps; the
/// removal of tables that nothing needs; and the removal of a table that nothing reads, whose
/// signal is no output, no latch's input and no latch.
pub fn reducing_keeps()
    ensures itself { (circuit : Circuit) → IsSound circuit → IsReduced circuit circuit }
    ensures through { (first second third : Circuit) → IsReduced first second
        → IsReduced second third → IsReduced first third }
    ensures removed { (circuit : Circuit) (name : List ℕ) → IsSound circuit
        → is_read circuit name ≡ false → is_root circuit name ≡ false
        → has (latch_outputs circuit) name ≡ false → IsReduced circuit (with_removed circuit name) }
    ensures kept { (circuit : Circuit) (test : List ℕ → Bool) → IsSound circuit
        → IsClosed circuit test
        → AllByRecursion (λ (latch : Latch). test latch.output ≡ true) circuit.latches → IsReduced circuit (with_kept circuit test) }
    ensures chain { (step : Circuit → Option Circuit)
        → ((circuit new : Circuit) → IsSound circuit → step circuit ≡ Some new
        → IsReduced circuit new)
        → (circuit new : Circuit) → IsSound circuit → Chain step circuit new → IsReduced circuit new }
{}

/// Changes that remove no signal: no change at all; one such change after another; the addition of
/// a table that fits, under a word that nothing drives and that is not the control; and a chain of
/// such steps.
pub fn extending_keeps()
    ensures itself { (circuit : Circuit) → IsSound circuit → IsExtended circuit circuit }
    ensures through { (first second third : Circuit) → IsExtended first second
        → IsExtended second third → IsExtended first third }
    ensures added { (circuit : Circuit) (new : Table) → IsSound circuit → is_word new.output
        ≡ true → has (given circuit) new.output ≡ false
        → has (control_of circuit.timing) new.output ≡ false → IsFitting circuit new → IsExtended circuit (with_added circuit new) }
    ensures chain { (step : Circuit → Option Circuit)
        → ((circuit new : Circuit) → IsSound circuit → step circuit ≡ Some new
        → IsExtended circuit new)
        → (circuit new : Circuit) → IsSound circuit → Chain step circuit new → IsExtended circuit new }
{}
