//! Laws of the tables of `.gate` lines, each the contract of a call that does nothing: shape,
//! number of inputs, names and values.

ghost use Rattle.std.specs.Prelude.{◌≡◌, ◌≤◌, ◌↔◌, ℕ, Bool, true, List, ◌∷◌, length, Ok};
ghost use Rattle.std.specs.List.{AllByRecursion};
ghost use Rattle.sis_base.specs.Written.{is_word};
ghost use Rattle.circuit_model.specs.Names.{has};
ghost use Rattle.circuit_model.specs.Values.{table_value};
ghost use Rattle.circuit_model.specs.Soundness.{IsShaped};
ghost use Rattle.circuit_model.specs.declared.circuit.Table.{Table};
ghost use Rattle.genlib_expr.specs.Formula.{formula_of};
ghost use Rattle.genlib_expr.specs.Functions.{function_of};
ghost use Rattle.genlib_format.specs.declared.gate.Gate.{Gate};
ghost use Rattle.genlib_format.specs.Soundness.{IsSoundGates, IsSoundGate};
ghost use Rattle.blif_gates.specs.GateLines.{signals_of, is_pairing, gate_table, read_gate};
ghost use Rattle.blif_gates.specs.Pairings.{NamesEachOnce};

use sis_base::limits::MAX_PINS;

/// The rows of a table are as long as its list of inputs.
pub fn tables_are_shaped()
    ensures { (library : List Gate) (cell : List ℕ) (words : List (List ℕ)) (table : Table)
        → read_gate library cell words ≡ Ok table → IsShaped table }
{}

/// With a sound library a table has at most `MAX_PINS` inputs.
pub fn tables_have_few_inputs()
    ensures { (library : List Gate) (cell : List ℕ) (words : List (List ℕ)) (table : Table)
        → IsSoundGates library → read_gate library cell words ≡ Ok table
        → length table.inputs ≤ MAX_PINS }
{}

/// The names of a table are words if the words of the line are.
pub fn names_are_words()
    ensures { (library : List Gate) (cell : List ℕ) (words : List (List ℕ)) (table : Table)
        → AllByRecursion (λ word. is_word word ≡ true) words → read_gate library cell words
        ≡ Ok table
        → AllByRecursion (λ name. is_word name ≡ true) (table.output ∷ table.inputs) }
{}

/// The names of a table are signals that the line mentions.
pub fn names_are_signals()
    ensures { (library : List Gate) (cell : List ℕ) (words : List (List ℕ)) (table : Table)
        → read_gate library cell words ≡ Ok table
        → AllByRecursion (λ name. has (signals_of words) name ≡ true) (table.output ∷ table.inputs) }
{}

/// The value of a gate's table is that of the gate's function at the bits of its pins.
pub fn tables_have_the_functions_of_gates()
    ensures { (gate : Gate) (words : List (List ℕ)) (point : List Bool) → length point
        ≡ length gate.pins → table_value (gate_table gate words) point ≡ function_of
        (formula_of gate.expr) point }
{}

/// Words pair with a sound gate exactly if they are pairs that name each of its pins and its output
/// once.
pub fn pairs_name_each_once()
    ensures { (gate : Gate) (words : List (List ℕ)) → IsSoundGate gate
        → (is_pairing gate words ≡ true) ↔ NamesEachOnce gate words }
{}
