//! Laws over generated circuits, each the contract of a call that does nothing.

ghost use Rattle.std.specs.Prelude.{ℕ, ◌+◌, ◌^◌, ◌<◌, ◌≤◌};
ghost use Rattle.sis_base.specs.declared.limits.TheConstants.{MAX_NODES};
ghost use Rattle.circuit_model.specs.Counts.{IsWithinLimits};
ghost use Rattle.circuit_model.specs.Soundness.{IsSound};
ghost use Rattle.circuit_gen.specs.Generated.{generated};

/// A generated circuit is sound.
pub fn generated_circuits_are_sound()
    ensures { (seed tables : ℕ) → tables < 2 ^ 32 → IsSound (generated seed tables) }
{}

/// A generated circuit is within the limits of circuits that are read, as long as there is room for
/// its latches.
pub fn generated_circuits_are_within_limits()
    ensures { (seed tables : ℕ) → tables + 8 ≤ MAX_NODES → IsWithinLimits (generated seed tables) }
{}
