//! Technology mapping of a network by a library of gates.
//!
//! Source: Keutzer, "DAGON: Technology binding and local optimization by DAG matching" (24th Design
//! Automation Conference, 1987). The network is cut into trees, each tree is covered at least cost,
//! and the gates of the covers are placed between named signals. Failures are found in this order:
//! no inverter, no two-input NAND, trees too large together, too many nodes. Callers rely on
//! `Maps`: the netlist, or the first reason against it; the netlist is sound, and its circuit
//! refines the network.

ghost use Rattle.std.specs.Prelude.{◌≡◌, ◌↔◌, ◌+◌, ◌^◌, ◌≤◌, ◌<◌, ℕ, List, map, length, IfOk, IfErr};
ghost use Rattle.std.specs.Prelude.{IsTrue, sum_by};
ghost use Rattle.std.specs.List.{AllByRecursion};
ghost use Rattle.circuit_model.specs.Soundness.{IsSound};
ghost use Rattle.circuit_model.specs.Runs.{Refines};
ghost use Rattle.circuit_laws.specs.Edits.{with_tables};
ghost use Rattle.genlib_format.specs.Soundness.{IsSoundGates};
ghost use Rattle.genlib_format.specs.declared.gate.Gate.{Gate};
ghost use Rattle.net_core.specs.Fresh.{used_names};
ghost use Rattle.netlist.specs.Netlists.{circuit_of, IsSoundNetlist};
ghost use Rattle.netlist.specs.Figures.{ArePartedBy};
ghost use Rattle.netlist.specs.declared.mapped.TreeFigure.{TreeFigure};
ghost use Rattle.subject_tree.specs.Trees.{size_of};
ghost use Rattle.subject_tree.specs.Arenas.{tree_at};
ghost use Rattle.subject_tree.specs.Forest.{fate_of};
ghost use Rattle.subject_tree.specs.declared.forest.Root.{Root};
ghost use Rattle.tree_cover.specs.Candidates.{IsLibrary};
ghost use Rattle.tree_cover.specs.Listed.{HavePatterns};
ghost use Rattle.map_net.specs.Covering.{AreTaken};
ghost use Rattle.map_net.specs.Covering.{Covering as TheCovering};
ghost use Rattle.map_net.specs.Naming.{AreNew};
ghost use Rattle.map_net.specs.Mapping.{ArePlaced, figure_of, figures_of, Maps};
ghost use Rattle.map_net.specs.Working.{IsReady, left_from};
ghost use Rattle.map_net.specs.Parts.{IsOver, IsCovered, IsForestFault, Covers, HasParts};
ghost use Rattle.map_net.specs.Parts.{MapsParts, mapped_of};

use crate::covers::{TreeCover, covers_of, gate_count};
use crate::left::tables_left;
use crate::naming::names_used;
use crate::placing::place_all;
use circuit_model::{Circuit, Tables};
use cube_cover::Row;
use genlib_format::Library;
use net_core::Network;
use netlist::{Gates, Mapped, TreeFigure, TreeFigures};
use pattern_set::{PatternFault, Patterns, covers_all};
use sis_base::limits::{MAX_NODES, MAX_VERTICES};
use sis_base::{Copied, Sequence, Whole};
use std::alloc::{AllocError, Global};
use subject_tree::{Forest, ForestFault, Root, fates, forest_of};
use tree_cover::{best, library_patterns};

/// Why there is no netlist: the library has no inverter, or no NAND of two pins; the trees have too
/// many vertices together; the netlist would have too many gates, tables and latches; or memory ran
/// out.
#[derive(Clone, Copy, Debug, PartialEq, Eq, Drop)]
pub enum MapFault {
    NoInverter,
    NoNand,
    TreeLimit,
    NodeLimit,
    Memory,
}

impl From<AllocError> for MapFault {
    ghost use Rattle.std.specs.Prelude.{◌≡◌};
    ghost use Rattle.map_net.specs.declared.mapping.MapFault.TheVariants.{Memory};

    ghost from_gives = { λ _ fault. fault ≡ Memory };

    fn from(_error: AllocError) -> MapFault {
        MapFault::Memory
    }
}

impl From<PatternFault> for MapFault {
    ghost use Rattle.std.specs.Prelude.{◌≡◌};
    ghost use Rattle.map_net.specs.Mapping.{fault_of_patterns};

    ghost from_gives = { λ fault made. made ≡ fault_of_patterns fault };

    fn from(fault: PatternFault) -> MapFault {
        match fault {
            PatternFault::NoInverter => MapFault::NoInverter,
            PatternFault::NoNand => MapFault::NoNand,
        }
    }
}

impl From<ForestFault> for MapFault {
    ghost use Rattle.std.specs.Prelude.{◌≡◌};
    ghost use Rattle.map_net.specs.Mapping.{fault_of_forest};

    ghost from_gives = { λ fault made. made ≡ fault_of_forest fault };

    fn from(fault: ForestFault) -> MapFault {
        match fault {
            ForestFault::TreeLimit => MapFault::TreeLimit,
            ForestFault::Memory => MapFault::Memory,
        }
    }
}

// A forest, and the cover that is taken of each of its trees.
#[derive(Drop)]
struct Covered {
    forest: Forest,
    covers: Vec<TreeCover>,
}

// What is made of a netlist: the tables of its base, its gates, and the figures of its trees.
#[derive(Drop)]
struct Parts {
    left: Tables,
    gates: Gates,
    trees: TreeFigures,
}

// The figure of a tree.
fn figure(alloc: Global, root: &Root, cover: &TreeCover) -> Result<TreeFigure, AllocError>
    ensures { IfOk result (λ figure. figure ≡ figure_of root.now cover.now) }
{
    Ok(TreeFigure {
        name: root.name.copy(alloc)?,
        figure: cover.cost,
        gates: cover.gates.len(),
    })
}

// The figures of all trees, in order.
fn figures(alloc: Global, roots: &[Root], covers: &[TreeCover]) -> Result<TreeFigures, AllocError>
    ensures { IfOk result (λ figures. figures ≡ figures_of roots.now covers.now) }
{
    let mut made = Sequence::new(alloc);
    for (root, cover) in roots.iter().zip(covers) {
        made.push(figure(alloc, root, cover)?)?;
    }
    Ok(made)
}

// Whether there are too many gates, tables and latches, the tables of the don't-care part included.
fn is_over(gates: usize, left: usize, circuit: &Circuit) -> bool
    ensures { IsTrue result ↔ (MAX_NODES < gates + left + length circuit.now.latches + length
        circuit.now.dont_care) }
{
    MAX_NODES
        < gates
            .saturating_add(left)
            .saturating_add(circuit.latches.len())
            .saturating_add(circuit.dont_care.len())
}

// The covers of a forest, by the patterns of a library.
fn cover_forest(
    alloc: Global,
    forest: &Forest,
    patterns: &Patterns,
) -> Result<Vec<TreeCover>, AllocError>
    requires library { IsLibrary patterns.now.arena patterns.now.gates }
    requires sizes { (n : ℕ) → n < length forest.now.arena
        → size_of (tree_at forest.now.arena n) ≤ MAX_VERTICES }
    requires roots { AllByRecursion (λ (root : Root). root.number < length forest.now.arena)
        forest.now.roots.items }
    ensures { IfOk result (λ covers. (covering : TheCovering)
        → IsOver covering forest.now patterns.now
        → AreTaken covering forest.now.roots.items covers.items) }
{
    let choices = best(alloc, &forest.leaves, &forest.arena, patterns)?;
    covers_of(alloc, &forest.arena, &choices, forest.roots.as_slice())
}

// The forest of a circuit with its covers, by the patterns of a library that has all that covers
// need.
fn covered_by(alloc: Global, circuit: &Circuit, patterns: &Patterns) -> Result<Covered, MapFault>
    requires circuit { IsSound circuit.now }
    requires library { IsLibrary patterns.now.arena patterns.now.gates }
    ensures ok { IfOk result (λ covered. (library : List Gate)
        → HavePatterns patterns.now.arena library patterns.now.gates
        → IsCovered circuit.now library covered) }
    ensures err { IfErr result (λ fault. IsForestFault circuit.now fault) }
{
    let forest = forest_of(alloc, circuit)?;
    forest.leaves.sound();
    let covers = cover_forest(alloc, &forest, patterns)?;
    Ok(Covered { forest, covers })
}

// The forest of a circuit with its covers, or why there is none.
fn covered_of(alloc: Global, circuit: &Circuit, library: &Library) -> Result<Covered, MapFault>
    requires circuit { IsSound circuit.now }
    requires library { IsSoundGates library.now }
    ensures { Covers circuit.now library.now result }
{
    let patterns = Whole {
        it: library_patterns(alloc, library)?,
    };
    covers_all(&patterns.it)?;
    covered_by(alloc, circuit, &patterns.it)
}

// The tables that no gates implement.
fn left_of(alloc: Global, circuit: &Circuit, covered: &Covered) -> Result<Tables, AllocError>
    requires { IsSound circuit.now }
    ensures { IfOk result (λ left. left ≡ left_from covered.now.forest.leaves
        (map (fate_of circuit.now) circuit.now.tables) circuit.now.tables
        covered.now.covers.items) }
{
    let fates = fates(alloc, circuit)?;
    tables_left(
        alloc,
        &covered.forest.leaves,
        circuit.tables.as_slice(),
        fates.as_slice(),
        covered.covers.as_slice(),
    )
}

// The gates of covers.
fn gates_of(
    alloc: Global,
    circuit: &Circuit,
    library: &Library,
    covered: &Covered,
) -> Result<Gates, AllocError>
    requires ready { AllByRecursion (IsReady (length library.now)) covered.now.covers.items }
    requires count { length covered.now.forest.roots.items ≡ length covered.now.covers.items }
    ensures { IfOk result (λ gates. (fresh : List (List ℕ)) × AreNew (used_names circuit.now) fresh
        × ArePlaced library.now covered.now.forest.leaves covered.now.forest.roots.items
        covered.now.covers.items fresh gates) }
{
    let used = names_used(alloc, circuit)?;
    let forest = &covered.forest;
    let roots = forest.roots.as_slice();
    let covers = covered.covers.as_slice();
    place_all(alloc, library, &forest.leaves, &used, roots, covers)
}

// The parts of the netlist of covers, unless there are too many.
fn parts_of(
    alloc: Global,
    circuit: &Circuit,
    library: &Library,
    covered: &Covered,
) -> Result<Parts, MapFault>
    requires circuit { IsSound circuit.now }
    requires library { IsSoundGates library.now }
    requires covered { IsCovered circuit.now library.now covered.now }
    ensures { HasParts circuit.now library.now result }
{
    let left = left_of(alloc, circuit, covered)?;
    if is_over(gate_count(covered.covers.as_slice()), left.len(), circuit) {
        return Err(MapFault::NodeLimit);
    }
    let gates = gates_of(alloc, circuit, library, covered)?;
    let roots = covered.forest.roots.as_slice();
    let trees = figures(alloc, roots, covered.covers.as_slice())?;
    Ok(Parts { left, gates, trees })
}

// The parts of the netlist of a circuit, or why there is none.
fn map_circuit(alloc: Global, circuit: &Circuit, library: &Library) -> Result<Parts, MapFault>
    requires circuit { IsSound circuit.now }
    requires library { IsSoundGates library.now }
    ensures { MapsParts circuit.now library.now result }
{
    let covered = Whole {
        it: covered_of(alloc, circuit, library)?,
    };
    parts_of(alloc, circuit, library, &covered.it)
}

// The netlist of parts, with the ports, latches and don't-care part of a circuit.
fn assembled(circuit: Circuit, parts: Parts) -> Mapped
    ensures { result ≡ mapped_of circuit parts }
{
    let Circuit {
        name,
        inputs,
        outputs,
        clocks,
        timing,
        latches,
        tables: _tables,
        dont_care,
    } = circuit;
    let Parts { left, gates, trees } = parts;
    let base = Circuit {
        name,
        inputs,
        outputs,
        clocks,
        timing,
        latches,
        tables: left,
        dont_care,
    };
    Mapped { base, gates, trees }
}

/// The netlist of a network by a library, or the first of the reasons why there is none. The
/// circuit of the netlist is sound, and it refines the network; the areas of all trees, in
/// millionths, have a sum below 2^128.
pub fn map<R: Row>(
    alloc: Global,
    network: &Network<R>,
    library: &Library,
) -> Result<Mapped, MapFault>
    requires { IsSoundGates library.now }
    ensures maps { Maps network.now library.now result }
    ensures sound { IfOk result (λ mapped. IsSoundNetlist library.now mapped) }
    ensures kept { IfOk result (λ mapped. circuit_of library.now mapped ≡ with_tables network.now
        (circuit_of library.now mapped).tables) }
    ensures refines { IfOk result (λ mapped. Refines network.now (circuit_of library.now mapped)) }
    ensures figures { IfOk result (λ mapped. ArePartedBy library.now mapped.trees mapped.gates) }
    ensures total { IfOk result (λ mapped.
        sum_by (λ (tree : TreeFigure). tree.figure) mapped.trees < 2 ^ 128) }
{
    network.sound();
    let circuit = Whole {
        it: network.to_circuit(alloc)?,
    };
    let parts = map_circuit(alloc, &circuit.it, library)?;
    Ok(assembled(circuit.into_it(), parts))
}
