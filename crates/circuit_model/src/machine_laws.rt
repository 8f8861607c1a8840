//! Laws over the definitions of machines and behaviors, each the contract of a call that does
//! nothing.

ghost use Rattle.std.specs.Prelude.{◌≡◌, ℕ, List, None, Some, slice_get, false, ◌<◌};
ghost use Rattle.circuit_model.specs.Behaviors.{RefinesAs};
ghost use Rattle.circuit_model.specs.declared.machine.MachineRow.{MachineRow};
ghost use Rattle.circuit_model.specs.declared.machine.Spec.{Spec};
ghost use Rattle.circuit_model.specs.MachineBehaviors.{of_spec};
ghost use Rattle.circuit_model.specs.Clashes.{clash, first_clash};

/// Every circuit and every machine refines itself.
pub fn refines_is_reflexive()
    ensures { (spec : Spec) → RefinesAs (of_spec spec) (of_spec spec) }
{}

/// Refinement of circuits and machines is transitive.
pub fn refines_is_transitive()
    ensures { (first second third : Spec) → RefinesAs (of_spec first) (of_spec second)
        → RefinesAs (of_spec second) (of_spec third) → RefinesAs (of_spec first) (of_spec third) }
{}

/// If no clash is found, no two rows clash.
pub fn no_clash_is_missed()
    ensures { (rows : List MachineRow) → first_clash rows ≡ None → (i j : ℕ) (row later : MachineRow)
        → i < j → slice_get rows i ≡ Some row → slice_get rows j ≡ Some later → clash row later
        ≡ false }
{}
