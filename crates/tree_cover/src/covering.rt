//! Least-cost covers of subject trees by dynamic programming: the choice of a gate at each vertex.
//!
//! Source: Aho, Ganapathi and Tjiang, "Code generation using tree matching and dynamic programming"
//! (ACM Transactions on Programming Languages and Systems 11, 1989); Keutzer, "DAGON: Technology
//! binding and local optimization by DAG matching" (24th Design Automation Conference, 1987).
//! Vertices are visited in the order of their numbers, so the choices below a vertex are known. At
//! each, all matches of all patterns are compared, except those whose outline does not fit.
//! Invariant (`AreMade`): each choice so far has the least cost of its tree and is the first among
//! those. Callers rely on `best` for the same of all vertices, for trees of at most 2^20 vertices
//! and areas below 2^50.

ghost use Rattle.std.specs.Prelude.{◌≡◌, ◌≤◌, ◌<◌, ◌*◌, ◌^◌, ℕ, List, Some, None, length, IfOk};
ghost use Rattle.std.specs.List.{AllByRecursion, sum_by};
ghost use Rattle.subject_tree.specs.Order.{tree_cmp, place_cmp};
ghost use Rattle.subject_tree.specs.Trees.{size_of};
ghost use Rattle.subject_tree.specs.Arenas.{tree_at};
ghost use Rattle.tree_cover.specs.declared.choice.Choice.{Choice};
ghost use Rattle.tree_cover.specs.Covers.{tiles};
ghost use Rattle.tree_cover.specs.Bindings.{PinsBelow};
ghost use Rattle.tree_cover.specs.Held.{choice_of, held};
ghost use Rattle.tree_cover.specs.Outlines.{AreOutlines, TellMisfits};
ghost use Rattle.tree_cover.specs.Candidates.{order_of, better_of, bound_at, BestOf, Binds, IsSmall, IsUsable, cost_at, IsFrom, Below, FromBindings, FromPattern, FromPatterns, FromGates, IsLibrary, IsChoice, AreMade};

use crate::binding::Binding;
use crate::choice::{Candidate, compare_candidates};
use crate::choices::{Choices, small};
use crate::fitting::may_fit;
use crate::matching::matches;
use crate::outlines::{Outlines, is_open, marks_of, outlines_of};
use pattern_set::{PatternGate, Patterns};
use sis_base::Short;
use sis_base::limits::MAX_PINS;
use std::alloc::{AllocError, Global};
use std::cmp::Ordering;
use subject_tree::{Arena, Leaves, Vertex};

// The better of two choices, if there are two.
fn better(
    leaves: &Leaves,
    nodes: &Arena,
    one: Option<Candidate>,
    other: Option<Candidate>,
) -> Option<Candidate>
    ensures { held result ≡ better_of (order_of (tree_cmp (place_cmp leaves.now)) nodes.now)
        (held one) (held other) }
{
    match (one, other) {
        (None, other) => other,
        (Some(one), None) => Some(one),
        (Some(one), Some(other)) => {
            if compare_candidates(leaves, nodes, &one, &other) == Ordering::Greater {
                return Some(other);
            }
            Some(one)
        }
    }
}

// The number that a pin is bound to, if it is bound.
fn bound_at(binding: &Binding, pin: usize) -> Option<usize>
    ensures { result ≡ bound_at binding.now pin }
{
    match binding.pins.get(pin) {
        None => None,
        Some(number) => *number,
    }
}

// The numbers that the first pins are bound to; none if one of them is not bound.
fn pins_of(
    alloc: Global,
    binding: &Binding,
    count: usize,
) -> Result<Option<Short<u32, 6>>, AllocError>
    ensures some { IfOk result (λ made. (numbers : List ℕ) → made ≡ Some numbers
        → (length numbers ≡ count) × Binds binding.now numbers) }
    ensures none { IfOk result (λ made. (numbers : List ℕ) → made ≡ None → length numbers ≡ count
        → Binds binding.now numbers → ⊥) }
{
    let mut made = Short::new(alloc);
    for pin in 0..count {
        match bound_at(binding, pin) {
            None => return Ok(None),
            Some(number) => made.push(small(number)?)?,
        }
    }
    Ok(Some(made))
}

// The cost of the tree of a number, by the choices made.
fn cost_at(choices: &Choices, number: usize) -> u128
    requires { AllByRecursion IsSmall choices.now }
    ensures cost { result ≡ cost_at choices.now number }
    ensures small { result ≤ 2 ^ 70 }
{
    choices.cost(number)
}

// The sum of the costs of the trees at pins.
fn costs_of(choices: &Choices, pins: &[u32]) -> u128
    requires choices { AllByRecursion IsSmall choices.now }
    requires pins { length pins.now ≤ MAX_PINS }
    ensures sum { result ≡ sum_by (cost_at choices.now) pins.now }
    ensures small { result ≤ 15 * 2 ^ 70 }
{
    let mut total: u128 = 0;
    for pin in pins {
        total += cost_at(choices, *pin as usize);
    }
    total
}

// The choice that a binding gives; none if a pin is not bound.
fn candidate(
    alloc: Global,
    choices: &Choices,
    gate: &PatternGate,
    place: usize,
    binding: &Binding,
) -> Result<Option<Candidate>, AllocError>
    requires choices { AllByRecursion IsSmall choices.now }
    requires area { gate.now.area < 2 ^ 50 }
    requires pins { gate.now.pins ≤ MAX_PINS }
    ensures some { IfOk result (λ made. (choice : Choice) → held made ≡ Some choice
        → IsFrom choices.now gate.now place binding.now choice) }
    ensures none { IfOk result (λ made. (choice : Choice) → held made ≡ None
        → IsFrom choices.now gate.now place binding.now choice → ⊥) }
{
    match pins_of(alloc, binding, gate.pins)? {
        None => Ok(None),
        Some(pins) => {
            let cost = gate.area + costs_of(choices, pins.as_slice());
            Ok(Some(Candidate { cost, place, pins }))
        }
    }
}

// The best choice from some bindings of a gate's pins.
fn best_bound(
    alloc: Global,
    leaves: &Leaves,
    nodes: &Arena,
    choices: &Choices,
    gate: &PatternGate,
    place: usize,
    bindings: &[Binding],
) -> Result<Option<Candidate>, AllocError>
    requires choices { AllByRecursion IsSmall choices.now }
    requires area { gate.now.area < 2 ^ 50 }
    requires pins { gate.now.pins ≤ MAX_PINS }
    ensures { IfOk result (λ best. BestOf (order_of (tree_cmp (place_cmp leaves.now)) nodes.now)
        (Below (length bindings.now) (FromBindings choices.now gate.now place bindings.now))
        (held best)) }
{
    let mut best = None;
    for binding in bindings {
        let made = candidate(alloc, choices, gate, place, binding)?;
        best = better(leaves, nodes, best, made);
    }
    Ok(best)
}

// The best choice from the matches of a gate's pattern at the tree of a number; none if their top
// two levels do not fit.
fn best_pattern(
    alloc: Global,
    leaves: &Leaves,
    nodes: &Arena,
    shapes: &Arena,
    choices: &Choices,
    gate: &PatternGate,
    place: usize,
    number: usize,
    pattern: usize,
) -> Result<Option<Candidate>, AllocError>
    requires number { number < length nodes.now }
    requires below { PinsBelow MAX_PINS (tree_at shapes.now pattern) }
    requires choices { AllByRecursion IsSmall choices.now }
    requires area { gate.now.area < 2 ^ 50 }
    requires pins { gate.now.pins ≤ MAX_PINS }
    ensures { IfOk result (λ best. BestOf (order_of (tree_cmp (place_cmp leaves.now)) nodes.now)
        (FromPattern nodes.now choices.now gate.now place number (tree_at shapes.now pattern))
        (held best)) }
{
    nodes.sound();
    if !may_fit(shapes, nodes, pattern, number) {
        return Ok(None);
    }
    let bindings = matches(alloc, nodes, shapes, pattern, number)?;
    let best = best_bound(
        alloc,
        leaves,
        nodes,
        choices,
        gate,
        place,
        bindings.as_slice(),
    )?;
    Ok(best)
}

// The best choice from a gate at the tree of a number; patterns marked as misfits are not tried.
fn best_gate(
    alloc: Global,
    leaves: &Leaves,
    nodes: &Arena,
    shapes: &Arena,
    choices: &Choices,
    gate: &PatternGate,
    place: usize,
    number: usize,
    numbers: &[usize],
    marks: &[bool],
) -> Result<Option<Candidate>, AllocError>
    requires number { number < length nodes.now }
    requires marks { TellMisfits shapes.now nodes.now number numbers.now marks.now }
    requires choices { AllByRecursion IsSmall choices.now }
    requires gate { IsUsable shapes.now gate.now }
    ensures { IfOk result (λ best. BestOf (order_of (tree_cmp (place_cmp leaves.now)) nodes.now)
        (Below (length gate.now.patterns) (FromPatterns nodes.now shapes.now choices.now gate.now
        place number)) (held best)) }
{
    nodes.sound();
    let mut best = None;
    for pattern in gate.patterns.as_slice() {
        if !is_open(numbers, marks, *pattern) {
            continue;
        }
        let made = best_pattern(
            alloc, leaves, nodes, shapes, choices, gate, place, number, *pattern,
        )?;
        best = better(leaves, nodes, best, made);
    }
    Ok(best)
}

// The best choice from the gates of a library at the tree of a number.
fn best_choice(
    alloc: Global,
    leaves: &Leaves,
    nodes: &Arena,
    shapes: &Arena,
    choices: &Choices,
    gates: &[PatternGate],
    number: usize,
    numbers: &[usize],
    marks: &[bool],
) -> Result<Option<Candidate>, AllocError>
    requires number { number < length nodes.now }
    requires marks { TellMisfits shapes.now nodes.now number numbers.now marks.now }
    requires choices { AllByRecursion IsSmall choices.now }
    requires gates { AllByRecursion (IsUsable shapes.now) gates.now }
    ensures { IfOk result (λ best. BestOf (order_of (tree_cmp (place_cmp leaves.now)) nodes.now)
        (Below (length gates.now) (FromGates nodes.now shapes.now choices.now gates.now number))
        (held best)) }
{
    let mut best = None;
    for place in 0..gates.len() {
        let made = best_gate(
            alloc,
            leaves,
            nodes,
            shapes,
            choices,
            &gates[place],
            place,
            number,
            numbers,
            marks,
        )?;
        best = better(leaves, nodes, best, made);
    }
    Ok(best)
}

// The choice at a vertex, from those at the vertices before it.
fn choose(
    alloc: Global,
    leaves: &Leaves,
    nodes: &Arena,
    shapes: &Arena,
    choices: &Choices,
    gates: &[PatternGate],
    lines: &Outlines,
    number: usize,
) -> Result<Candidate, AllocError>
    requires number { number < length nodes.now }
    requires lines { AreOutlines lines.now.arena shapes.now lines.now.numbers.items }
    requires library { IsLibrary shapes.now gates.now }
    requires small { AllByRecursion IsSmall choices.now }
    requires made { AreMade (tree_cmp (place_cmp leaves.now)) nodes.now
        (tiles shapes.now gates.now) choices.now number }
    ensures { IfOk result (λ choice. IsChoice (tree_cmp (place_cmp leaves.now)) nodes.now
        (tiles shapes.now gates.now) number (choice_of choice)) }
{
    nodes.sound();
    if let Vertex::Leaf(_) = nodes.vertex(number) {
        return Ok(Candidate {
            cost: 0,
            place: 0,
            pins: Short::new(alloc),
        });
    }
    let marks = marks_of(alloc, &lines.arena, nodes, number)?;
    let best = best_choice(
        alloc,
        leaves,
        nodes,
        shapes,
        choices,
        gates,
        number,
        lines.numbers.as_slice(),
        marks.as_slice(),
    )?;
    match best {
        Some(candidate) => Ok(candidate),
        None => unreachable!(),
    }
}

/// The choice at each vertex, in the order of their numbers: a cover of least cost; of such covers
/// the first gate of the library, then the least trees at its pins.
pub fn best(
    alloc: Global,
    leaves: &Leaves,
    nodes: &Arena,
    patterns: &Patterns,
) -> Result<Choices, AllocError>
    requires library { IsLibrary patterns.now.arena patterns.now.gates }
    requires sizes { (n : ℕ) → n < length nodes.now → size_of (tree_at nodes.now n) ≤ 2 ^ 20 }
    ensures { IfOk result (λ choices. AreMade (tree_cmp (place_cmp leaves.now)) nodes.now
        (tiles patterns.now.arena patterns.now.gates) choices (length nodes.now)) }
{
    let lines = outlines_of(alloc, &patterns.arena)?;
    let mut choices = Choices::with_capacity(alloc, nodes.len())?;
    for number in 0..nodes.len() {
        let choice = choose(
            alloc,
            leaves,
            nodes,
            &patterns.arena,
            &choices,
            patterns.gates.as_slice(),
            &lines,
            number,
        )?;
        choices.push(choice.cost, choice.place, choice.pins.as_slice())?;
    }
    Ok(choices)
}
