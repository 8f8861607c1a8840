//! Cases of technology mapping: the subject trees of circuits, the patterns of libraries, and
//! covers of the trees by the patterns.
//!
//! A case has a library, a circuit, or a library, a line `and` and a circuit. The answer has the
//! number of patterns of each gate, the roots with the sizes of their trees, or the covers with
//! their area and number of gates. The calls are those of pattern_set, subject_tree and tree_cover;
//! `cover_trees` is called only if the library covers all trees.

ghost use Rattle.std.specs.Prelude.{◌≡◌, ◌<◌, ◌≤◌, ℕ, length, IfOk};
ghost use Rattle.circuit_model.specs.Soundness.{IsSound};
ghost use Rattle.genlib_format.specs.Soundness.{IsSoundGates};
ghost use Rattle.subject_tree.specs.Trees.{size_of};
ghost use Rattle.subject_tree.specs.Arenas.{tree_at};
ghost use Rattle.tree_cover.specs.Candidates.{IsLibrary};
ghost use Rattle.tree_cover.specs.Postorder.{AreBelow};

use crate::puts::put_value;
use crate::reads::{circuit, library, parted};
use crate::tiles::{put_tiles, put_totals};
use circuit_model::Circuit;
use genlib_format::Library;
use pattern_set::{Patterns, covers_all, patterns};
use sis_base::limits::MAX_VERTICES;
use std::alloc::Global;
use subject_tree::{Arena, Forest, ForestFault, forest_of};
use tree_cover::library_laws::sound_libraries_cover_trees;
use tree_cover::{Choices, best, cells, library_patterns, matches, write_cover};
use trial_cases::{Case, CaseFault, text_of};

/// Appends the answer to a case of a library, of a circuit, or of a library followed by a circuit.
pub fn answer(alloc: Global, out: &mut Vec<u8>, case: &Case<'_>) -> Result<(), CaseFault> {
    let lines = case.lines.as_slice();
    match case.word(0) {
        "patterns" => put_patterns(alloc, out, lines),
        "matches" => put_matches(alloc, out),
        "forest" => put_forest(alloc, out, lines, true),
        "vertices" => put_forest(alloc, out, lines, false),
        "cover" => put_cover(alloc, out, lines, true),
        _ => put_cover(alloc, out, lines, false),
    }
}

/// Appends for each gate of a library its name and how many patterns it has, and whether the
/// library covers all trees.
fn put_patterns(alloc: Global, out: &mut Vec<u8>, lines: &[&str]) -> Result<(), CaseFault> {
    let library = library(alloc, text_of(alloc, lines)?.as_slice())?;
    let cells = cells(alloc, &library)?;
    put_counts(alloc, out, &library, &patterns(alloc, cells.as_slice())?)
}

/// Appends for each gate its name and how many patterns it has, and whether all trees are covered.
fn put_counts(
    alloc: Global,
    out: &mut Vec<u8>,
    library: &Library,
    patterns: &Patterns,
) -> Result<(), CaseFault> {
    for (cell, gate) in library.gates().iter().zip(patterns.gates.as_slice()) {
        put_counted(alloc, out, cell.cell.as_slice(), gate.patterns.len())?;
    }
    put_value(alloc, out, &covers_all(patterns))
}

/// Appends a word and a number.
fn put_counted(
    alloc: Global,
    out: &mut Vec<u8>,
    word: &[u8],
    number: usize,
) -> Result<(), CaseFault> {
    out.extend_from_slice(word)?;
    out.push(b' ')?;
    put_value(alloc, out, &number)
}

/// Appends the trees to which the first two pins are bound when a pin matches a leaf.
#[tactic(auto, using(crate::proofs::Changes::pin_is_below))]
fn put_matches(alloc: Global, out: &mut Vec<u8>) -> Result<(), CaseFault> {
    let mut arena = Arena::new(alloc);
    let leaf = arena.leaf(0)?;
    for binding in matches(alloc, &arena, &arena, leaf, leaf)?.as_slice() {
        put_value(alloc, out, &(binding.pins[0], binding.pins[1]))?;
    }
    Ok(())
}

/// The forest of a circuit.
fn forest(alloc: Global, circuit: &Circuit) -> Result<Forest, ForestFault>
    requires { IsSound circuit.now }
    ensures { IfOk result (λ forest. (n : ℕ) → n < length forest.arena → size_of
        (tree_at forest.arena n) ≤ MAX_VERTICES) }
{
    forest_of(alloc, circuit)
}

/// Appends each root of a circuit's forest with the size of its tree, or how many vertices there
/// are.
fn put_forest(
    alloc: Global,
    out: &mut Vec<u8>,
    lines: &[&str],
    is_whole: bool,
) -> Result<(), CaseFault> {
    let circuit = circuit(alloc, text_of(alloc, lines)?.as_slice())?;
    match &forest(alloc, &circuit) {
        Ok(forest) if is_whole => put_roots(alloc, out, forest),
        Ok(forest) => put_value(alloc, out, &forest.arena.len()),
        Err(fault) => put_value(alloc, out, fault),
    }
}

/// Appends each root of a forest with the size of its tree.
fn put_roots(alloc: Global, out: &mut Vec<u8>, forest: &Forest) -> Result<(), CaseFault> {
    let sizes = forest.arena.sizes(alloc)?;
    for root in &forest.roots {
        let size = sizes.as_slice().get(root.number).copied().unwrap_or(0);
        put_counted(alloc, out, root.name.as_slice(), size as usize)?;
    }
    Ok(())
}

/// Appends the covers of a circuit's trees by the gates of a library, each gate on a line if
/// `is_whole`, and their total area and number; or why there are none.
fn put_cover(
    alloc: Global,
    out: &mut Vec<u8>,
    lines: &[&str],
    is_whole: bool,
) -> Result<(), CaseFault> {
    let (first, rest) = parted(lines);
    let library = library(alloc, text_of(alloc, first)?.as_slice())?;
    let circuit = circuit(
        alloc,
        text_of(alloc, rest.get(1..).unwrap_or(&[]))?.as_slice(),
    )?;
    cover_circuit(alloc, out, &library, &circuit, is_whole)
}

/// Appends the covers of a circuit's trees.
fn cover_circuit(
    alloc: Global,
    out: &mut Vec<u8>,
    library: &Library,
    circuit: &Circuit,
    is_whole: bool,
) -> Result<(), CaseFault>
    requires library { IsSoundGates library.now }
    requires circuit { IsSound circuit.now }
{
    sound_libraries_cover_trees();
    let patterns = library_patterns(alloc, library)?;
    match covers_all(&patterns) {
        Ok(()) => cover_trees(alloc, out, library, &patterns, circuit, is_whole),
        Err(fault) => put_value(alloc, out, &fault),
    }
}

/// Appends the covers of the trees of a circuit, if the library covers all trees.
fn cover_trees(
    alloc: Global,
    out: &mut Vec<u8>,
    library: &Library,
    patterns: &Patterns,
    circuit: &Circuit,
    is_whole: bool,
) -> Result<(), CaseFault>
    requires patterns { IsLibrary patterns.now.arena patterns.now.gates }
    requires circuit { IsSound circuit.now }
{
    match forest(alloc, circuit) {
        Ok(forest) => cover_forest(alloc, out, library, patterns, &forest, is_whole),
        Err(fault) => put_value(alloc, out, &fault),
    }
}

/// Appends the covers of the trees of a forest.
fn cover_forest(
    alloc: Global,
    out: &mut Vec<u8>,
    library: &Library,
    patterns: &Patterns,
    forest: &Forest,
    is_whole: bool,
) -> Result<(), CaseFault>
    requires patterns { IsLibrary patterns.now.arena patterns.now.gates }
    requires sizes { (n : ℕ) → n < length forest.now.arena → size_of
        (tree_at forest.now.arena n) ≤ MAX_VERTICES }
{
    let choices = best(alloc, &forest.leaves, &forest.arena, patterns)?;
    put_covers(alloc, out, library, forest, &choices, is_whole)
}

/// Appends the covers of some choices.
fn put_covers(
    alloc: Global,
    out: &mut Vec<u8>,
    library: &Library,
    forest: &Forest,
    choices: &Choices,
    is_whole: bool,
) -> Result<(), CaseFault>
    requires count { length choices.now ≡ length forest.now.arena }
    requires below { AreBelow choices.now }
{
    let mut area: u128 = 0;
    let mut gates: usize = 0;
    for root in &forest.roots {
        if root.number < forest.arena.len() {
            let cover = write_cover(alloc, &forest.arena, choices, root.number)?;
            area = area.saturating_add(choices.cost(root.number));
            gates = gates.saturating_add(cover.gates.len());
            if is_whole {
                put_counted(alloc, out, root.name.as_slice(), cover.gates.len())?;
                put_tiles(alloc, out, library, &forest.leaves, &cover)?;
            }
        }
    }
    put_totals(alloc, out, area, gates)
}
