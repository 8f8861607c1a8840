//! Laws of netlists and of the trees that they are made of, each the contract of a call that does
//! nothing.
//!
//! A netlist's gates are those of its library, its figures those of its gates, and its circuit
//! refines the one it was made from.

ghost use Rattle.std.specs.Prelude.{◌≡◌, ℕ, Some, List};
ghost use Rattle.std.specs.List.{AllByRecursion};
ghost use Rattle.circuit_model.specs.Values.{driver};
ghost use Rattle.circuit_model.specs.Runs.{Refines};
ghost use Rattle.circuit_model.specs.Soundness.{IsAcyclic, IsSound};
ghost use Rattle.circuit_model.specs.declared.circuit.Table.{Table};
ghost use Rattle.circuit_model.specs.declared.circuit.Circuit.{Circuit};
ghost use Rattle.subject_tree.specs.Trees.{Tree};
ghost use Rattle.subject_tree.specs.Forest.{AreTrees};
ghost use Rattle.subject_tree.specs.Roots.{tree_over};
ghost use Rattle.genlib_format.specs.Soundness.{IsSoundGates};
ghost use Rattle.genlib_format.specs.declared.gate.Gate.{Gate};
ghost use Rattle.circuit_laws.specs.Edits.{with_tables};
ghost use Rattle.netlist.specs.Netlists.{circuit_of, IsPlaced, IsSoundNetlist};
ghost use Rattle.netlist.specs.Figures.{ArePartedBy};
ghost use Rattle.netlist.specs.declared.mapped.Mapped.{Mapped};
ghost use Rattle.map_net.specs.Mapping.{IsMapped};
ghost use Rattle.map_net.specs.Standing.{IsLeafOf, IsTakenAsLeaf};

/// Each leaf of the tree of a table is a signal that tables read with a literal, and whose own
/// table, if it has one, is not inlined.
pub fn leaves_of_trees_stand()
    ensures { (circuit : Circuit) (tree : List ℕ → Tree (List ℕ)) → IsAcyclic circuit.tables
        → AreTrees circuit tree
        → (signal : List ℕ) (table : Table) (t : Tree (List ℕ)) (leaf : List ℕ)
        → driver circuit.tables signal ≡ Some table → tree_over tree table ≡ Some t
        → IsLeafOf leaf t → IsTakenAsLeaf circuit leaf }
{}

/// Each gate of a netlist by a sound library is placed by that library, and the figures of the
/// netlist are those of its gates, tree by tree.
pub fn netlists_are_of_their_library()
    ensures gates { (circuit : Circuit) (library : List Gate) (mapped : Mapped)
        → IsSoundGates library → IsMapped circuit library mapped
        → AllByRecursion (IsPlaced library) mapped.gates }
    ensures figures { (circuit : Circuit) (library : List Gate) (mapped : Mapped)
        → IsSoundGates library → IsMapped circuit library mapped
        → ArePartedBy library mapped.trees mapped.gates }
{}

/// The netlist of a sound circuit by a sound library is sound; its circuit is the given one except
/// for the tables, and refines it.
pub fn netlists_stand_for_circuits()
    ensures sound { (circuit : Circuit) (library : List Gate) (mapped : Mapped)
        → IsSound circuit → IsSoundGates library → IsMapped circuit library mapped
        → IsSoundNetlist library mapped }
    ensures kept { (circuit : Circuit) (library : List Gate) (mapped : Mapped)
        → IsMapped circuit library mapped
        → circuit_of library mapped ≡ with_tables circuit (circuit_of library mapped).tables }
    ensures refines { (circuit : Circuit) (library : List Gate) (mapped : Mapped)
        → IsSound circuit → IsSoundGates library → IsMapped circuit library mapped
        → Refines circuit (circuit_of library mapped) }
{}
