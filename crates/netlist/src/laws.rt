//! Laws of placed gates, each the contract of a call that does nothing: their tables and values,
//! and the netlist without gates.

ghost use Rattle.std.specs.Prelude.{◌≡◌, ℕ, ◌+◌, ◌≤◌, Bool, Some, List, [], map, take, length};
ghost use Rattle.circuit_model.specs.Values.{table_value};
ghost use Rattle.circuit_model.specs.Soundness.{IsShaped};
ghost use Rattle.circuit_model.specs.Text.{text_of};
ghost use Rattle.circuit_tables.specs.Folding.{folded};
ghost use Rattle.genlib_expr.specs.Formula.{formula_of};
ghost use Rattle.genlib_expr.specs.Functions.{function_of};
ghost use Rattle.genlib_format.specs.declared.gate.Gate.{Gate};
ghost use Rattle.netlist.specs.Netlists.{signals_of, cell_table, placed_table, circuit_of, IsPlaced};
ghost use Rattle.netlist.specs.Figures.{driven_by};
ghost use Rattle.netlist.specs.Lines.{netlist_text_of};
ghost use Rattle.netlist.specs.declared.mapped.Placed.{Placed};
ghost use Rattle.netlist.specs.declared.mapped.Mapped.{Mapped};

/// A cell between signals, at least one for each of its pins, is a shaped table; with repeated
/// inputs merged, it has the value of the cell's function at the values of the signals at its pins.
pub fn cells_have_tables()
    ensures shaped { (gate : Gate) (signals : List (List ℕ)) → length gate.pins ≤ length signals
        → IsShaped (cell_table gate signals) }
    ensures value { (gate : Gate) (signals : List (List ℕ)) (value : List ℕ → Bool)
        → length gate.pins ≤ length signals
        → table_value (folded (cell_table gate signals))
        (map value (folded (cell_table gate signals)).inputs)
        ≡ function_of (formula_of gate.expr) (map value (take (length gate.pins) signals)) }
{}

/// A placed gate has the table of its cell between its signals, one more than the cell has pins; it
/// drives the last.
pub fn placed_gates_have_tables()
    ensures table { (library : List Gate) (placed : Placed) (by : IsPlaced library placed)
        → placed_table library placed ≡ Some (folded (cell_table by.gate (signals_of placed))) }
    ensures signals { (library : List Gate) (placed : Placed) (by : IsPlaced library placed)
        → length (signals_of placed) ≡ length by.gate.pins + 1 }
    ensures driven { (library : List Gate) (placed : Placed) (by : IsPlaced library placed)
        → (folded (cell_table by.gate (signals_of placed))).output ≡ driven_by placed }
{}

/// A netlist without gates is its circuit, and is written as that.
pub fn netlists_without_gates_are_circuits()
    ensures circuit { (library : List Gate) (mapped : Mapped) → mapped.gates ≡ []
        → circuit_of library mapped ≡ mapped.base }
    ensures text { (mapped : Mapped) → mapped.gates ≡ []
        → netlist_text_of mapped ≡ text_of mapped.base }
{}
