//! Laws of trees, of their order and of their values, each the contract of a call that does
//! nothing.
//!
//! The order is total and distinguishes different trees; the tree of a table has the table's value;
//! and the trees of a forest exist, are unique, and have the values of the tables they are built
//! from.

ghost use Rattle.std.specs.Prelude.{◌≡◌, ◌<◌, ℕ, Bool, true, false, not, ◌&&◌, ◌||◌, Some, List, map, length, slice_get};
ghost use Rattle.std.specs.List.{AllByRecursion};
ghost use Rattle.std.specs.Cmp.{IsTotalOrder};
ghost use Rattle.std.specs.declared.cmp.Ordering.TheVariants.{Equal};
ghost use Rattle.circuit_model.specs.Names.{all_different};
ghost use Rattle.circuit_model.specs.Values.{driver, table_value};
ghost use Rattle.circuit_model.specs.Soundness.{IsAcyclic, IsShaped, outputs_of};
ghost use Rattle.circuit_model.specs.declared.circuit.Circuit.{Circuit};
ghost use Rattle.circuit_model.specs.declared.circuit.Tri.{Tri};
ghost use Rattle.circuit_model.specs.declared.circuit.Table.{Table};
ghost use Rattle.subject_tree.specs.Trees.{Tree, complement_of, product_of, sum_of, value_at, renamed};
ghost use Rattle.subject_tree.specs.Arenas.{tree_at};
ghost use Rattle.subject_tree.specs.Roots.{roots_of, IsForest};
ghost use Rattle.subject_tree.specs.declared.arena.Vertex.{Vertex};
ghost use Rattle.subject_tree.specs.declared.forest.Root.{Root};
ghost use Rattle.subject_tree.specs.Order.{tree_cmp, place_cmp, name_cmp, name_at, LeavesBelow};
ghost use Rattle.subject_tree.specs.Tables.{table_tree, is_constant};
ghost use Rattle.subject_tree.specs.Forest.{AreTrees, PutObey};

/// The order of trees by the names of their leaves is total, and it distinguishes different trees.
pub fn trees_are_ordered()
    ensures total { (names : List (List ℕ)) → IsTotalOrder (tree_cmp (place_cmp names)) }
    ensures exact { (names : List (List ℕ)) (t u : Tree ℕ) → tree_cmp (place_cmp names) t u ≡ Equal
        → t ≡ u }
{}

/// If names are all different, trees whose leaves are indices into them compare as the trees of
/// those names do.
pub fn leaves_compare_by_name()
    ensures { (names : List (List ℕ)) (t u : Tree ℕ) → all_different names ≡ true → LeavesBelow
        (length names) t → LeavesBelow (length names) u → tree_cmp (place_cmp names) t u
        ≡ tree_cmp name_cmp (renamed (name_at names) t) (renamed (name_at names) u) }
{}

/// A complement, a product and a sum of trees have the values that their names say.
pub fn trees_have_values()
    ensures complement { (value : ℕ → Bool) (t : Tree ℕ) → value_at value (complement_of t) ≡ not
        (value_at value t) }
    ensures product { (value : ℕ → Bool) (t u : Tree ℕ) → value_at value (product_of t u)
        ≡ (value_at value t && value_at value u) }
    ensures sum { (value : ℕ → Bool) (t u : Tree ℕ) → value_at value (sum_of t u)
        ≡ (value_at value t || value_at value u) }
{}

/// The tree of a table that is not constant has the table's value, at the values of its inputs'
/// trees.
pub fn table_trees_have_values()
    ensures { (value : ℕ → Bool) (inputs : List (Tree ℕ)) (table : Table) (t : Tree ℕ)
        → AllByRecursion (λ (row : List Tri). length row ≡ length inputs) table.rows
        → is_constant table ≡ false → table_tree inputs table ≡ Some t → value_at value t
        ≡ table_value table (map (value_at value) inputs) }
{}

/// If the tables have no cycle, there is only one choice of the trees of signals.
pub fn forest_trees_are_the_only_ones()
    ensures { (circuit : Circuit) (first second : List ℕ → Tree (List ℕ))
        → IsAcyclic circuit.tables → AreTrees circuit first → AreTrees circuit second
        → (signal : List ℕ) → first signal ≡ second signal }
{}

/// Over the trees of signals, the tree of a table that is not constant has the table's value, at
/// every valuation in which the inlined tables have theirs.
pub fn forest_trees_have_values()
    ensures { (circuit : Circuit) (tree : List ℕ → Tree (List ℕ)) (value : List ℕ → Bool)
        → IsAcyclic circuit.tables → AllByRecursion IsShaped circuit.tables → AreTrees circuit tree
        → PutObey circuit value
        → (signal : List ℕ) (table : Table) → driver circuit.tables signal ≡ Some table → is_constant table ≡ false → (t : Tree (List ℕ)) → table_tree (map tree table.inputs) table ≡ Some t
        → value_at value t ≡ table_value table (map value table.inputs) }
{}

/// If the tables have no cycle and all are shaped, there are trees of signals.
pub fn forest_trees_are_there()
    ensures { (circuit : Circuit) → IsAcyclic circuit.tables
        → AllByRecursion IsShaped circuit.tables → (tree : List ℕ → Tree (List ℕ))
        × AreTrees circuit tree }
{}

/// The tree of a root of a forest has its table's value, at every valuation of names in which the
/// inlined tables have theirs, and each of its leaves has a name.
pub fn forest_roots_have_values()
    ensures values { (circuit : Circuit) (vertices : List Vertex) (names : List (List ℕ))
        (roots : List Root) (value : List ℕ → Bool) → IsAcyclic circuit.tables → all_different
        (outputs_of circuit.tables) ≡ true → AllByRecursion IsShaped circuit.tables
        → IsForest circuit vertices names roots → PutObey circuit value
        → (place : ℕ) (root : Root) (table : Table) → slice_get roots place ≡ Some root → slice_get (roots_of circuit) place ≡ Some table
        → value_at (λ leaf. value (name_at names leaf)) (tree_at vertices root.number) ≡ table_value table (map value table.inputs) }
    ensures leaves { (circuit : Circuit) (vertices : List Vertex) (names : List (List ℕ))
        (roots : List Root) → IsForest circuit vertices names roots
        → (place : ℕ) (root : Root) → slice_get roots place ≡ Some root → LeavesBelow (length names) (tree_at vertices root.number) }
{}
