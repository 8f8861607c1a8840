//! Laws of the steps of sweep: what a step and a chain of steps keep, that the end has the finished
//! form, that the needed signals are the least closed set, and that a table without fanout may be
//! emptied first.

ghost use Rattle.std.specs.Prelude.{◌≡◌, ℕ, ◌<◌, Bool, true, Some, None, List};
ghost use Rattle.circuit_model.specs.Soundness.{IsSound};
ghost use Rattle.circuit_model.specs.declared.circuit.Circuit.{Circuit};
ghost use Rattle.circuit_laws.specs.Chains.{Chain};
ghost use Rattle.circuit_laws.specs.Kept.{IsClosed};
ghost use Rattle.net_wires.specs.Idle.{IsIdle, with_emptied};
ghost use Rattle.net_wires.specs.Keeping.{IsKept, KeepsFrame, IsNoLarger};
ghost use Rattle.net_wires.specs.Needed.{is_needed};
ghost use Rattle.net_wires.specs.Rules.{sweep_step};
ghost use Rattle.net_wires.specs.Sweeping.{IsSwept};

/// A step from a sound circuit yields a sound circuit that refines it; signals that remain keep
/// their values, and all but the tables and the latches stays. It makes no circuit larger. If no
/// step applies, the circuit has the finished form.
pub fn steps_keep()
    ensures kept { (circuit new : Circuit) → IsSound circuit → sweep_step circuit ≡ Some new
        → IsKept circuit new }
    ensures frame { (circuit new : Circuit) → IsSound circuit → sweep_step circuit ≡ Some new
        → KeepsFrame circuit new }
    ensures sizes { (circuit new : Circuit) → sweep_step circuit ≡ Some new
        → IsNoLarger circuit new }
    ensures finished { (circuit : Circuit) → sweep_step circuit ≡ None → IsSwept circuit }
{}

/// A chain of steps does the same, and it ends at the finished form.
pub fn chains_keep()
    ensures kept { (circuit new : Circuit) → IsSound circuit → Chain sweep_step circuit new
        → IsKept circuit new }
    ensures frame { (circuit new : Circuit) → IsSound circuit → Chain sweep_step circuit new
        → KeepsFrame circuit new }
    ensures sizes { (circuit new : Circuit) → Chain sweep_step circuit new
        → IsNoLarger circuit new }
    ensures finished { (circuit new : Circuit) → Chain sweep_step circuit new → IsSwept new }
{}

/// What is needed is closed: it contains all that it reads, since as many steps as there are tables
/// and latches suffice. It is least: each test that passes the outputs, what the don't-care part
/// reads, and all that what it passes reads, passes it.
pub fn needed_is_closed()
    ensures closed { (circuit : Circuit) → IsClosed circuit (is_needed circuit) }
    ensures least { (circuit : Circuit) (test : List ℕ → Bool) → IsClosed circuit test
        → (name : List ℕ)
        → is_needed circuit name ≡ true → test name ≡ true }
{}

/// A table of a sound circuit whose signal nothing reads may be emptied before any step: the
/// circuit stays sound, and each end of a chain from there is an end of a chain from the circuit.
pub fn idle_tables_may_be_emptied()
    ensures sound { (circuit : Circuit) (name : List ℕ) → IsSound circuit → IsIdle circuit name
        → IsSound (with_emptied circuit name) }
    ensures ends { (circuit end : Circuit) (name : List ℕ) → IsSound circuit
        → IsIdle circuit name → Chain sweep_step (with_emptied circuit name) end
        → Chain sweep_step circuit end }
{}
