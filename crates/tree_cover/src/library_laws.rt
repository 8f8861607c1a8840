//! Laws of a sound library's cells and patterns, each the contract of a call that does nothing.
//!
//! They give the conditions of `best` for a sound library: its gates are usable and, if it lacks
//! neither an inverter nor a two-input NAND, it covers every tree.

ghost use Rattle.std.specs.Prelude.{◌≡◌, List};
ghost use Rattle.std.specs.List.{AllByRecursion};
ghost use Rattle.std.specs.declared.result.Result.TheVariants.{Ok};
ghost use Rattle.subject_tree.specs.declared.arena.Vertex.{Vertex};
ghost use Rattle.genlib_format.specs.declared.gate.Gate.{Gate};
ghost use Rattle.genlib_format.specs.Soundness.{IsSoundGates};
ghost use Rattle.pattern_set.specs.declared.cells.Cell.{Cell};
ghost use Rattle.pattern_set.specs.declared.cells.PatternGate.{PatternGate};
ghost use Rattle.pattern_set.specs.Cells.{is_inverter, is_nand, has_some, lack_of};
ghost use Rattle.tree_cover.specs.Covers.{tiles};
ghost use Rattle.tree_cover.specs.Candidates.{IsUsable, IsWellFormed, IsLibrary};
ghost use Rattle.tree_cover.specs.Written.{Describes, UsesPins};
ghost use Rattle.tree_cover.specs.Listed.{AreCellsOf, HavePatterns, function_in};

/// The cells of a sound library are well-formed: areas are below 2^50, and the pins of a cell are
/// exactly those of its formula.
pub fn cells_of_sound_libraries_are_well_formed()
    ensures { (gates : List Gate) (cells : List Cell) → AreCellsOf gates cells
        → IsSoundGates gates → AllByRecursion IsWellFormed cells }
{}

/// The gates of a sound library are usable in covers.
pub fn gates_of_sound_libraries_are_usable()
    ensures { (vertices : List Vertex) (gates : List Gate) (made : List PatternGate)
        → HavePatterns vertices gates made → IsSoundGates gates → AllByRecursion
        (IsUsable vertices) made }
{}

/// Each pin of a gate of a sound library occurs in each of its patterns.
pub fn gates_of_sound_libraries_use_their_pins()
    ensures { (vertices : List Vertex) (gates : List Gate) (made : List PatternGate)
        → HavePatterns vertices gates made → IsSoundGates gates → UsesPins (tiles vertices made) }
{}

/// A sound library that lacks neither an inverter nor a NAND of two pins covers any tree.
pub fn sound_libraries_cover_trees()
    ensures { (vertices : List Vertex) (gates : List Gate) (made : List PatternGate)
        → HavePatterns vertices gates made → IsSoundGates gates
        → lack_of (has_some is_inverter vertices made) (has_some is_nand vertices made) ≡ Ok tt → IsLibrary vertices made }
{}

/// The patterns of a library's gates are patterns of their functions.
pub fn libraries_describe_their_patterns()
    ensures { (vertices : List Vertex) (gates : List Gate) (made : List PatternGate)
        → HavePatterns vertices gates made → Describes (function_in gates) (tiles vertices made) }
{}
