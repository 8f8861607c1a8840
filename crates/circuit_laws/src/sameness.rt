//! Sameness of circuits, and signals that keep their values. `IsSame` is an equivalence and implies
//! that each circuit refines the other; `KeepsEach` is sameness in which every signal has its
//! value.

ghost use Rattle.std.specs.Prelude.{◌≡◌, ℕ, true, List};
ghost use Rattle.circuit_model.specs.Names.{has};
ghost use Rattle.circuit_model.specs.Runs.{Refines};
ghost use Rattle.circuit_model.specs.Soundness.{given, IsSound};
ghost use Rattle.circuit_model.specs.declared.circuit.Circuit.{Circuit};
ghost use Rattle.circuit_laws.specs.Same.{IsSame, KeepsValues, KeepsEach, IsSettled};

/// Every circuit is the same as itself.
pub fn same_is_reflexive()
    ensures { (circuit : Circuit) → IsSame circuit circuit }
{}

/// Sameness is symmetric.
pub fn same_is_symmetric()
    ensures { (old new : Circuit) → IsSame old new → IsSame new old }
{}

/// Sameness is transitive.
pub fn same_is_transitive()
    ensures { (first second third : Circuit) → IsSame first second → IsSame second third
        → IsSame first third }
{}

/// Circuits that are the same refine one another.
pub fn same_refines()
    ensures forth { (old new : Circuit) → IsSame old new → Refines old new }
    ensures back { (old new : Circuit) → IsSame old new → Refines new old }
{}

/// In a circuit compared with itself each signal keeps its value.
pub fn keeping_is_reflexive()
    ensures { (circuit : Circuit) → KeepsValues circuit circuit }
{}

/// Values are kept from edit to edit, if a signal of the first and the last circuit is also one of
/// the circuit between.
pub fn keeping_is_transitive()
    ensures { (first second third : Circuit) → first.inputs ≡ second.inputs → first.latches
        ≡ second.latches
        → ((signal : List ℕ) → has (given first) signal ≡ true → has (given third) signal ≡ true → has (given second) signal ≡ true)
        → KeepsValues first second → KeepsValues second third → KeepsValues first third }
{}

/// `KeepsEach` is reflexive and transitive, and implies `KeepsValues`.
pub fn keeping_each()
    ensures itself { (circuit : Circuit) → KeepsEach circuit circuit }
    ensures through { (first second third : Circuit) → KeepsEach first second
        → KeepsEach second third → KeepsEach first third }
    ensures keeps { (old new : Circuit) → KeepsEach old new → KeepsValues old new }
{}

/// A sound circuit meets the conditions of the laws of edits.
pub fn sound_circuits_are_settled()
    ensures { (circuit : Circuit) → IsSound circuit → IsSettled circuit }
{}
