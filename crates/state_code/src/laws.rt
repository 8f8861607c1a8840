//! Laws of state codes, each the contract of a call that does nothing: codes differ, new names are
//! free, and the circuit is sound and refines the machine.

ghost use Rattle.std.specs.Prelude.{◌≡◌, ℕ, ◌+◌, ◌^◌, ◌<◌, ◌≤◌, true, false, List, length};
ghost use Rattle.circuit_model.specs.Behaviors.{RefinesAs};
ghost use Rattle.circuit_model.specs.MachineBehaviors.{of_machine};
ghost use Rattle.circuit_model.specs.MachineSoundness.{IsSoundMachine};
ghost use Rattle.circuit_model.specs.Names.{has, all_different};
ghost use Rattle.circuit_model.specs.Runs.{of_circuit};
ghost use Rattle.circuit_model.specs.Soundness.{IsSound};
ghost use Rattle.circuit_model.specs.declared.machine.Machine.{Machine};
ghost use Rattle.sis_base.specs.declared.limits.TheConstants.{MAX_INPUTS};
ghost use Rattle.state_code.specs.Codes.{code_of, code_width, leaf_count, least_bits};
ghost use Rattle.state_code.specs.Encoded.{encoded};
ghost use Rattle.state_code.specs.Naming.{free_names};
ghost use Rattle.state_code.specs.declared.codes.Style.{Style};

/// The least number of bits gives so many different codes, and fewer do not.
pub fn least_bits_are_enough()
    ensures enough { (count : ℕ) → count ≤ 2 ^ least_bits count }
    ensures least { (count bits : ℕ) → bits < least_bits count → 2 ^ bits < count }
{}

/// The free names of a prefix are as many as are asked for, as long as their numbers fit a machine
/// word: all different, and none of them among the used ones.
pub fn free_names_are_free()
    ensures enough { (prefix : List ℕ) (used : List (List ℕ)) (count : ℕ)
        → count + length used ≤ 2 ^ 64 → length (free_names prefix used count) ≡ count }
    ensures differ { (prefix : List ℕ) (used : List (List ℕ)) (count : ℕ)
        → count + length used ≤ 2 ^ 64 → all_different (free_names prefix used count) ≡ true }
    ensures unused { (prefix : List ℕ) (used : List (List ℕ)) (count : ℕ)
        → count + length used ≤ 2 ^ 64 → (name : List ℕ)
        → has (free_names prefix used count) name ≡ true → has used name ≡ false }
{}

/// Two different states have different codes.
pub fn codes_differ()
    ensures { (style : Style) (states one other : ℕ) → one < states → other < states
        → code_of style (code_width style states) one
        ≡ code_of style (code_width style states) other → one ≡ other }
{}

/// The circuit of a sound machine that is not too wide is sound.
pub fn encoded_circuits_are_sound()
    ensures { (machine : Machine) (style : Style) → IsSoundMachine machine
        → leaf_count style machine ≤ MAX_INPUTS → IsSound (encoded style machine) }
{}

/// The circuit of a sound machine that is not too wide does what the machine specifies: for every
/// list of input rows, wherever the machine specifies an output, the circuit shows it.
pub fn encoded_circuits_refine()
    ensures { (machine : Machine) (style : Style) → IsSoundMachine machine
        → leaf_count style machine ≤ MAX_INPUTS
        → RefinesAs (of_machine machine) (of_circuit (encoded style machine)) }
{}
