//! Laws of patterns: each has its formula's value, and its pins.

ghost use Rattle.std.specs.Prelude.{◌≡◌, ℕ, Bool, ◌↔◌};
ghost use Rattle.subject_tree.specs.Trees.{Tree, value_at};
ghost use Rattle.genlib_expr.specs.Formula.{Formula};
ghost use Rattle.genlib_expr.specs.Values.{formula_value};
ghost use Rattle.pattern_set.specs.Patterns.{IsPattern};
ghost use Rattle.pattern_set.specs.Values.{HasPin, HasLeaf};

/// A pattern of a formula has the formula's value.
pub fn patterns_have_values()
    ensures { (value : ℕ → Bool) (e : Formula) (t : Tree ℕ) → IsPattern e t → value_at value t
        ≡ formula_value value e }
{}

/// The leaves of a pattern are the pins of its formula.
pub fn patterns_have_pins()
    ensures { (place : ℕ) (e : Formula) (t : Tree ℕ) → IsPattern e t → HasLeaf place t
        ↔ HasPin place e }
{}
