//! Laws of matching gates and of least-cost covers, each the contract of a call that does nothing.
//!
//! A gate that matches has the tree's value, a least cost is unique, and the choice that is taken
//! has it.

ghost use Rattle.std.specs.Prelude.{◌≡◌, ℕ, Bool, List};
ghost use Rattle.std.specs.List.{AllByRecursion};
ghost use Rattle.std.specs.declared.cmp.Ordering.{Ordering};
ghost use Rattle.subject_tree.specs.Trees.{Tree, Leaf, value_at};
ghost use Rattle.subject_tree.specs.Arenas.{tree_in};
ghost use Rattle.genlib_expr.specs.Formula.{Formula};
ghost use Rattle.genlib_expr.specs.Values.{formula_value};
ghost use Rattle.pattern_set.specs.Patterns.{IsPattern};
ghost use Rattle.subject_tree.specs.declared.arena.Vertex.{Vertex};
ghost use Rattle.pattern_set.specs.Cells.{AreGatesOf};
ghost use Rattle.pattern_set.specs.declared.cells.Cell.{Cell};
ghost use Rattle.pattern_set.specs.declared.cells.PatternGate.{PatternGate};
ghost use Rattle.tree_cover.specs.Candidates.{IsUsable, IsWellFormed};
ghost use Rattle.tree_cover.specs.Covers.{Tile, Matches, Least, LeastOfAll, HaveLeast, IsGiven};

/// If a pattern of a gate matches a tree, the gate's function at the values of the trees at its
/// pins is the tree's value.
pub fn gates_have_values()
    ensures { (value : ℕ → Bool) (e : Formula) (pattern t : Tree ℕ) (bound : List (Tree ℕ))
        → IsPattern e pattern → Matches pattern t bound → formula_value
        (λ pin. value_at value (tree_in bound pin)) e ≡ value_at value t }
{}

/// The least cost of a tree is unique, and so is that of a list of trees.
pub fn least_costs_are_the_only_ones()
    ensures tree { (library : List Tile) (t : Tree ℕ) (one other : ℕ) → Least library t one
        → Least library t other → one ≡ other }
    ensures trees { (library : List Tile) (ts : List (Tree ℕ)) (one other : ℕ)
        → LeastOfAll library ts one → LeastOfAll library ts other → one ≡ other }
{}

/// The choice that is taken at a tree that is no leaf has the least cost of all covers of that
/// tree, if the trees at the pins of the gates that fit have least costs.
pub fn given_choices_cost_least()
    ensures { (cmp : Tree ℕ → Tree ℕ → Ordering) (library : List Tile) (t : Tree ℕ)
        (cost place : ℕ) (bound : List (Tree ℕ)) → ((leaf : ℕ) → t ≡ Leaf leaf → ⊥)
        → HaveLeast library t → IsGiven cmp library t cost place bound → Least library t cost }
{}

/// The gates that `patterns` makes of well-formed cells are usable.
pub fn gates_of_cells_are_usable()
    ensures { (vertices : List Vertex) (cells : List Cell) (gates : List PatternGate)
        → AreGatesOf vertices cells gates → AllByRecursion IsWellFormed cells → AllByRecursion
        (IsUsable vertices) gates }
{}
