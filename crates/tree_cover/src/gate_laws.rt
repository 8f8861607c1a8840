//! Laws of the gates of a cover, each the contract of a call that does nothing.
//!
//! They say that each pin is wired to a leaf or to an earlier gate, and that what drives the root
//! has the tree's value if each gate has the value of its function.

ghost use Rattle.std.specs.Prelude.{◌≡◌, ◌+◌, ℕ, Bool, List, length};
ghost use Rattle.std.specs.List.{AllByRecursion};
ghost use Rattle.std.specs.declared.cmp.Ordering.{Ordering};
ghost use Rattle.subject_tree.specs.Trees.{Tree, value_at};
ghost use Rattle.subject_tree.specs.declared.arena.Vertex.{Vertex};
ghost use Rattle.genlib_expr.specs.Formula.{Formula};
ghost use Rattle.pattern_set.specs.Cells.{AreGatesOf};
ghost use Rattle.pattern_set.specs.declared.cells.Cell.{Cell};
ghost use Rattle.pattern_set.specs.declared.cells.PatternGate.{PatternGate};
ghost use Rattle.pattern_set.specs.Values.{HasLeaf};
ghost use Rattle.tree_cover.specs.Covers.{Tile, tiles};
ghost use Rattle.tree_cover.specs.Candidates.{IsUsable};
ghost use Rattle.tree_cover.specs.declared.writing.Signal.{Signal};
ghost use Rattle.tree_cover.specs.declared.writing.CoverGate.{CoverGate};
ghost use Rattle.tree_cover.specs.Written.{IsWritten, signal_value, Obeys, Describes, function_at, UsesPins, StandsBefore, AreWired};

/// If each gate of a cover has the value of its function at the values of what its pins are bound
/// to, what drives the root has the value of the tree.
pub fn covers_have_values()
    ensures { (cmp : Tree ℕ → Tree ℕ → Ordering) (library : List Tile) (functions : ℕ → Formula)
        (value driven : ℕ → Bool) (t : Tree ℕ) (start : ℕ) (signal : Signal)
        (gates : List CoverGate)
        → Describes functions library → IsWritten cmp library t start signal gates → Obeys functions value driven start gates → signal_value value driven signal ≡ value_at value t }
{}

/// If each pin of a gate occurs in each of its patterns, each gate of a cover is of the library and
/// has a signal at each of its pins: a leaf of the tree or an earlier gate. So is what drives the
/// root.
pub fn covers_are_wired()
    ensures { (cmp : Tree ℕ → Tree ℕ → Ordering) (library : List Tile) (t : Tree ℕ) (start : ℕ)
        (signal : Signal) (gates : List CoverGate)
        → UsesPins library → IsWritten cmp library t start signal gates → AreWired library (λ place. HasLeaf place t) start gates × StandsBefore (λ place. HasLeaf place t) (start + length gates) signal }
{}

/// Each pin of a usable gate occurs in each of its patterns.
pub fn usable_gates_use_their_pins()
    ensures { (shapes : List Vertex) (gates : List PatternGate) → AllByRecursion
        (IsUsable shapes) gates → UsesPins (tiles shapes gates) }
{}

/// The patterns that `patterns` gives of cells are patterns of the cells' functions.
pub fn libraries_are_described()
    ensures { (vertices : List Vertex) (cells : List Cell) (gates : List PatternGate)
        → AreGatesOf vertices cells gates → Describes (function_at cells) (tiles vertices gates) }
{}
