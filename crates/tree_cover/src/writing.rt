//! The gates of a cover, listed in postorder over a stack of its own, without recursion.
//!
//! Source: Knuth, "The Art of Computer Programming", volume 1, section 2.3.1. The gates at the pins
//! of a gate, in the order of the pins, are written before the gate; a tree that occurs several
//! times is written each time. Invariant: the signals on the stack are those of the operands not
//! yet used, the newest last. Callers rely on `IsWritten`, and on the areas of the gates to have
//! the cost of the choice at the root as their sum.

ghost use Rattle.std.specs.Prelude.{◌≡◌, ◌<◌, ◌+◌, ◌-◌, ◌++◌, ◌∷◌, ℕ, List, Some, [], length, take, drop, slice_get, slice_index_or, sum_by, IfOk, OnOk};
ghost use Rattle.std.specs.List.{AllByRecursion};
ghost use Rattle.std.specs.declared.cmp.Ordering.{Ordering};
ghost use Rattle.subject_tree.specs.Trees.{Tree};
ghost use Rattle.subject_tree.specs.Arenas.{tree_at, vertex_at};
ghost use Rattle.tree_cover.specs.Covers.{Tile};
ghost use Rattle.tree_cover.specs.Candidates.{AreMade, choice_at, cost_at};
ghost use Rattle.tree_cover.specs.declared.writing.Signal.TheVariants.{Gate as AtGate};
ghost use Rattle.tree_cover.specs.declared.writing.CoverGate.{CoverGate};
ghost use Rattle.tree_cover.specs.declared.writing.Step.TheVariants.{Write as ToWrite};
ghost use Rattle.tree_cover.specs.Written.{IsWritten, area_at};
ghost use Rattle.tree_cover.specs.Postorder.{AreBelow, after, visits, planned, to_come, turns_of, StepBelow, leaf_signals, first_steps};

use crate::Choices;
use sis_base::Sequence;
use std::alloc::{AllocError, Global};
use subject_tree::{Arena, Vertex};

/// What drives a pin or the root of a tree: a leaf, by its index, or a gate, by its index in the
/// list of the cover's gates.
#[derive(Clone, Copy, Debug, PartialEq, Eq)]
pub enum Signal {
    Leaf(usize),
    Gate(usize),
}

/// A gate of a cover: its index in the library, and what each of its pins is bound to.
#[derive(Drop)]
pub struct CoverGate {
    pub place: usize,
    pub pins: Sequence<Signal>,
}

/// The gates of a cover, each after those that drive its pins, and what drives the root of the
/// tree.
#[derive(Drop)]
pub struct WrittenCover {
    pub gates: Vec<CoverGate>,
    pub root: Signal,
}

// A pending step: a vertex is visited, or the gate at a vertex is written, after those at its pins.
#[derive(Clone, Copy)]
enum Step {
    Visit(usize),
    Write(usize),
}

// Pushes the visits of numbers, the first one on top.
fn wait_for(numbers: &[u32], waiting: &mut Vec<Step>) -> Result<(), AllocError>
    ensures { OnOk result (waiting.new.items ≡ waiting.old.items ++ visits numbers.now) }
{
    let mut place = numbers.len();
    while place > 0 {
        place -= 1;
        let number = numbers[place] as usize;
        waiting.push(Step::Visit(number))?;
    }
    Ok(())
}

// Pushes the writing of the gate at a number, and the visits of its pins on top of it.
fn open_gate(choices: &Choices, number: usize, waiting: &mut Vec<Step>) -> Result<(), AllocError>
    ensures { OnOk result (waiting.new.items ≡ waiting.old.items ++
        (ToWrite number ∷ visits (choice_at choices.now number).pins)) }
{
    waiting.push(Step::Write(number))?;
    wait_for(choices.pins(number), waiting)
}

// Visits a vertex: a leaf is a signal by itself, and a gate is written after those at its pins.
fn visit(
    nodes: &Arena,
    choices: &Choices,
    number: usize,
    waiting: &mut Vec<Step>,
    signals: &mut Vec<Signal>,
) -> Result<(), AllocError>
    ensures waiting { OnOk result (waiting.new.items ≡ waiting.old.items ++ first_steps
        (vertex_at nodes.now number) number (choice_at choices.now number).pins) }
    ensures signals { OnOk result (signals.new.items ≡ signals.old.items ++ leaf_signals
        (vertex_at nodes.now number)) }
{
    match nodes.vertex(number) {
        Vertex::Leaf(place) => {
            signals.push(Signal::Leaf(place))?;
            Ok(())
        }
        Vertex::Inv(_) => open_gate(choices, number, waiting),
        Vertex::Nand(_, _) => open_gate(choices, number, waiting),
    }
}

// Writes the gate at a number: the newest signals go to its pins, and it drives a signal of its
// own.
fn write(
    choices: &Choices,
    number: usize,
    signals: &mut Vec<Signal>,
    gates: &mut Vec<CoverGate>,
) -> Result<(), AllocError>
    ensures signals { OnOk result (signals.new.items ≡ take
        (length signals.old.items - length (choice_at choices.now number).pins) signals.old.items ++
        AtGate (length gates.old.items) ∷ []) }
    ensures gates { OnOk result (gates.new.items ≡ gates.old.items ++ record {
      place = (choice_at choices.now number).place;
      pins = drop
          (length signals.old.items - length (choice_at choices.now number).pins) signals.old.items;
    }
        ∷ []) }
{
    let kept = signals.len().saturating_sub(choices.pins(number).len());
    let pins = Sequence::from_vec(signals.split_off(kept)?);
    signals.push(Signal::Gate(gates.len()))?;
    gates.push(CoverGate {
        place: choices.place(number),
        pins,
    })?;
    Ok(())
}

// Does a step.
fn advance(
    nodes: &Arena,
    choices: &Choices,
    step: Step,
    waiting: &mut Vec<Step>,
    signals: &mut Vec<Signal>,
    gates: &mut Vec<CoverGate>,
) -> Result<(), AllocError>
    requires choices { AreBelow choices.now }
    requires step { StepBelow (length choices.now) step }
    ensures events { OnOk result (after choices.now
        (record { signals = signals.new.items; gates = gates.new.items })
        (to_come nodes.now choices.now (length choices.now) waiting.new.items)
        ≡ after choices.now (record { signals = signals.old.items; gates = gates.old.items }) (planned nodes.now choices.now (length choices.now) step ++ to_come nodes.now choices.now (length choices.now) waiting.old.items)) }
    ensures fewer { OnOk result (sum_by (turns_of nodes.now choices.now (length choices.now))
        waiting.new.items < sum_by (turns_of nodes.now choices.now (length choices.now))
        waiting.old.items + turns_of nodes.now choices.now (length choices.now) step) }
    ensures below { OnOk result (AllByRecursion (StepBelow (length choices.now)) waiting.old.items
        → AllByRecursion (StepBelow (length choices.now)) waiting.new.items) }
{
    match step {
        Step::Visit(number) => {
            visit(nodes, choices, number, waiting, signals)?;
            Ok(())
        }
        Step::Write(number) => {
            write(choices, number, signals, gates)?;
            Ok(())
        }
    }
}

// Does the pending steps, until none is left.
fn write_all(
    nodes: &Arena,
    choices: &Choices,
    waiting: &mut Vec<Step>,
    signals: &mut Vec<Signal>,
    gates: &mut Vec<CoverGate>,
) -> Result<(), AllocError>
    requires choices { AreBelow choices.now }
    requires steps { AllByRecursion (StepBelow (length choices.now)) waiting.old.items }
    ensures { OnOk result (record { signals = signals.new.items; gates = gates.new.items }
        ≡ after choices.now (record { signals = signals.old.items; gates = gates.old.items }) (to_come nodes.now choices.now (length choices.now) waiting.old.items)) }
{
    while let Some(step) = waiting.pop() {
        advance(nodes, choices, step, waiting, signals, gates)?;
    }
    Ok(())
}

/// The gates of the cover of the tree of a number, by the choices at all numbers, and what drives
/// the root. The gates of the trees at the pins, in the order of the pins, come before the gate
/// itself, each time a tree occurs. The sum of their areas in millionths is the cost of the choice.
pub fn write_cover(
    alloc: Global,
    nodes: &Arena,
    choices: &Choices,
    root: usize,
) -> Result<WrittenCover, AllocError>
    requires root { root < length nodes.now }
    requires count { length choices.now ≡ length nodes.now }
    requires below { AreBelow choices.now }
    ensures gates { IfOk result (λ cover. (cmp : Tree ℕ → Tree ℕ → Ordering)
        (library : List Tile) → AreMade cmp nodes.now library choices.now (length nodes.now)
        → IsWritten cmp library (tree_at nodes.now root) 0 cover.root cover.gates.items) }
    ensures areas { IfOk result (λ cover. (cmp : Tree ℕ → Tree ℕ → Ordering)
        (library : List Tile) → AreMade cmp nodes.now library choices.now (length nodes.now)
        → sum_by (λ (gate : CoverGate). area_at library gate.place) cover.gates.items ≡ cost_at choices.now root) }
{
    nodes.sound();
    let mut signals = Vec::new(alloc);
    let mut gates = Vec::new(alloc);
    let mut waiting = Vec::new(alloc);
    waiting.push(Step::Visit(root))?;
    write_all(nodes, choices, &mut waiting, &mut signals, &mut gates)?;
    match signals.pop() {
        Some(root) => Ok(WrittenCover { gates, root }),
        None => unreachable!(),
    }
}
