//! The patterns of a formula, computed from its nodes in postfix order.
//!
//! Source: Rudell, "Logic Synthesis for VLSI Design" (thesis, University of California, Berkeley,
//! 1989), the chapter on technology mapping. A stack holds one entry for each subformula that is
//! still an operand: nested products, or nested sums, are kept flat as the list of their operands,
//! each with its own patterns. They are joined in all ways only where another operation, or the
//! end, needs their patterns. Callers rely on `patterns_of`: all patterns of the formula, perhaps
//! some of them more than once.

ghost use Rattle.std.specs.Prelude.{◌≡◌, ◌++◌, ◌∷◌, ◌≤◌, None, [], fold, length, map, IfOk, IfSome, OnOk};
ghost use Rattle.std.specs.List.{range_with_len};
ghost use Rattle.subject_tree.specs.Arenas.{KeepsTrees};
ghost use Rattle.subject_tree.specs.Tables.{trees_of, AreTaken};
ghost use Rattle.subject_tree.specs.Trees.{Leaf, complement_of};
ghost use Rattle.genlib_expr.specs.Formula.{formula_of};
ghost use Rattle.pattern_set.specs.Lists.{one, settled, operands_as, complemented, combined, complemented_newest, combined_newest, gathered_more, newest, patterns_of};
ghost use Rattle.pattern_set.specs.Numbers.{AreNumbers, AreSets, SetsTaken, AllTaken, gathered_at, Gathers, GatherAll};

use crate::joining::join_all;
use crate::kind::{Kind, is_same};
use genlib_expr::{Expr, Node, take_two};
use sis_base::Sequence;
use std::alloc::{AllocError, Global};
use std::collections::VecDeque;
use subject_tree::Arena;

/// The operands of a product or of a sum, each by the numbers of its patterns; one operand is its
/// own product, and its own sum.
#[derive(Drop)]
pub struct Operands {
    pub kind: Kind,
    pub sets: Sequence<Sequence<usize>>,
}

// The numbers below a count, in order.
fn places_below(alloc: Global, count: usize) -> Result<Vec<usize>, AllocError>
    ensures { IfOk result (λ made. made.items ≡ range_with_len 0 count) }
{
    let mut made = Vec::with_capacity(alloc, count)?;
    for place in 0..count {
        made.push(place)?;
    }
    Ok(made)
}

// The patterns of gathered operands.
#[tactic(auto, unfolding(crate::specs::Lists::settled))]
fn settle(
    alloc: Global,
    arena: &mut Arena,
    operands: &Operands,
) -> Result<Sequence<usize>, AllocError>
    requires { SetsTaken arena.old operands.now.sets }
    ensures ok { IfOk result (λ made. AreNumbers arena.new made
        (settled (gathered_at arena.old operands.now))) }
    ensures kept { KeepsTrees arena.old arena.new }
{
    let count = operands.sets.len();
    let places = places_below(alloc, count)?;
    let made = join_all(
        alloc,
        arena,
        operands.kind,
        operands.sets.as_slice(),
        count,
        places.as_slice(),
    )?;
    Ok(Sequence::from_vec(made))
}

// A single operand.
fn one(alloc: Global, set: Sequence<usize>) -> Result<Operands, AllocError>
    ensures { IfOk result (λ made. made ≡ record { kind = Kind.Product; sets = set ∷ [] }) }
{
    let mut sets = Sequence::new(alloc);
    sets.push(set)?;
    Ok(Operands {
        kind: Kind::Product,
        sets,
    })
}

// Gathered operands as operands of a kind: they are joined to one operand if they are of the other
// kind.
#[tactic(auto, unfolding(crate::specs::Lists::operands_as))]
fn operands_as(
    alloc: Global,
    arena: &mut Arena,
    kind: Kind,
    operands: Operands,
) -> Result<Sequence<Sequence<usize>>, AllocError>
    requires { SetsTaken arena.old operands.sets }
    ensures ok { IfOk result (λ made. AreSets arena.new made
        (operands_as kind (gathered_at arena.old operands))) }
    ensures kept { KeepsTrees arena.old arena.new }
{
    if is_same(kind, operands.kind) {
        return Ok(operands.sets);
    }
    let set = settle(alloc, arena, &operands)?;
    let mut made = Sequence::new(alloc);
    made.push(set)?;
    Ok(made)
}

// One list of sets after the other.
fn append(
    left: Sequence<Sequence<usize>>,
    right: Sequence<Sequence<usize>>,
) -> Result<Sequence<Sequence<usize>>, AllocError>
    ensures { IfOk result (λ made. made ≡ left ++ right) }
{
    let mut made = left.into_vec();
    let mut behind = right.into_vec();
    made.append(&mut behind)?;
    Ok(Sequence::from_vec(made))
}

// The operands of the product or of the sum of two.
fn combine(
    alloc: Global,
    arena: &mut Arena,
    kind: Kind,
    left: Operands,
    right: Operands,
) -> Result<Operands, AllocError>
    requires left { SetsTaken arena.old left.sets }
    requires right { SetsTaken arena.old right.sets }
    ensures ok { IfOk result (λ made. Gathers arena.new made
        (combined kind (gathered_at arena.old left) (gathered_at arena.old right))) }
    ensures kept { KeepsTrees arena.old arena.new }
{
    let lefts = operands_as(alloc, arena, kind, left)?;
    let rights = operands_as(alloc, arena, kind, right)?;
    let sets = append(lefts, rights)?;
    Ok(Operands { kind, sets })
}

// The complement of each of some trees.
fn complement_each(
    alloc: Global,
    arena: &mut Arena,
    numbers: &[usize],
) -> Result<Sequence<usize>, AllocError>
    requires { AreTaken arena.old numbers.now }
    ensures ok { IfOk result (λ made. AreNumbers arena.new made
        (map complement_of (trees_of arena.old numbers.now))) }
    ensures kept { KeepsTrees arena.old arena.new }
{
    let mut made = Vec::with_capacity(alloc, numbers.len())?;
    for number in numbers {
        made.push(arena.complement(*number)?)?;
    }
    Ok(Sequence::from_vec(made))
}

// The complement of gathered operands, as one operand.
fn complement(alloc: Global, arena: &mut Arena, operands: Operands) -> Result<Operands, AllocError>
    requires { SetsTaken arena.old operands.sets }
    ensures ok { IfOk result (λ made. Gathers arena.new made
        (complemented (gathered_at arena.old operands))) }
    ensures kept { KeepsTrees arena.old arena.new }
{
    let set = settle(alloc, arena, &operands)?;
    let set = complement_each(alloc, arena, set.as_slice())?;
    one(alloc, set)
}

// The leaf of a pin, as one operand.
fn leaf(alloc: Global, arena: &mut Arena, place: usize) -> Result<Operands, AllocError>
    ensures ok { IfOk result (λ made. Gathers arena.new made (one (Leaf place ∷ []))) }
    ensures kept { KeepsTrees arena.old arena.new }
{
    let number = arena.leaf(place)?;
    let mut set = Sequence::new(alloc);
    set.push(number)?;
    one(alloc, set)
}

// Combines the two newest entries, if there are two; otherwise none is left.
fn combine_newest(
    alloc: Global,
    arena: &mut Arena,
    kind: Kind,
    waiting: &mut VecDeque<Operands>,
) -> Result<(), AllocError>
    requires { AllTaken arena.old waiting.old.items }
    ensures ok { OnOk result (GatherAll arena.new waiting.new.items
        (combined_newest kind (map (gathered_at arena.old) waiting.old.items))) }
    ensures kept { KeepsTrees arena.old arena.new }
{
    match take_two(waiting) {
        None => {
            waiting.clear();
            Ok(())
        }
        Some(two) => {
            let made = combine(alloc, arena, kind, two.left, two.right)?;
            waiting.push_front(made)?;
            Ok(())
        }
    }
}

// Complements the newest entry, if there is one.
fn complement_newest(
    alloc: Global,
    arena: &mut Arena,
    waiting: &mut VecDeque<Operands>,
) -> Result<(), AllocError>
    requires { AllTaken arena.old waiting.old.items }
    ensures ok { OnOk result (GatherAll arena.new waiting.new.items
        (complemented_newest (map (gathered_at arena.old) waiting.old.items))) }
    ensures kept { KeepsTrees arena.old arena.new }
{
    match waiting.pop_front() {
        None => Ok(()),
        Some(operands) => {
            let made = complement(alloc, arena, operands)?;
            waiting.push_front(made)?;
            Ok(())
        }
    }
}

// Pushes the leaf of a pin.
fn put_leaf(
    alloc: Global,
    arena: &mut Arena,
    waiting: &mut VecDeque<Operands>,
    place: usize,
) -> Result<(), AllocError>
    requires { AllTaken arena.old waiting.old.items }
    ensures ok { OnOk result (GatherAll arena.new waiting.new.items
        (one (Leaf place ∷ []) ∷ map (gathered_at arena.old) waiting.old.items)) }
    ensures kept { KeepsTrees arena.old arena.new }
{
    let made = leaf(alloc, arena, place)?;
    waiting.push_front(made)?;
    Ok(())
}

// Pushes a constant, which has no pattern.
fn put_constant(
    alloc: Global,
    arena: &Arena,
    waiting: &mut VecDeque<Operands>,
) -> Result<(), AllocError>
    requires { AllTaken arena.now waiting.old.items }
    ensures { OnOk result (GatherAll arena.now waiting.new.items
        (one [] ∷ map (gathered_at arena.now) waiting.old.items)) }
{
    let _arena = arena;
    let made = one(alloc, Sequence::new(alloc))?;
    waiting.push_front(made)?;
    Ok(())
}

// Processes one more node.
#[tactic(auto, unfolding(crate::specs::Lists::gathered_more))]
fn take_node(
    alloc: Global,
    arena: &mut Arena,
    waiting: &mut VecDeque<Operands>,
    node: Node,
) -> Result<(), AllocError>
    requires { AllTaken arena.old waiting.old.items }
    ensures ok { OnOk result (GatherAll arena.new waiting.new.items
        (gathered_more (map (gathered_at arena.old) waiting.old.items) node)) }
    ensures kept { KeepsTrees arena.old arena.new }
{
    match node {
        Node::Constant(_) => put_constant(alloc, arena, waiting),
        Node::Pin(place) => put_leaf(alloc, arena, waiting, place),
        Node::Not => complement_newest(alloc, arena, waiting),
        Node::And => combine_newest(alloc, arena, Kind::Product, waiting),
        Node::Or => combine_newest(alloc, arena, Kind::Sum, waiting),
    }
}

// The stack after all nodes, the newest entry first.
fn gather(
    alloc: Global,
    arena: &mut Arena,
    nodes: &[Node],
) -> Result<VecDeque<Operands>, AllocError>
    ensures ok { IfOk result (λ waiting. GatherAll arena.new waiting.items
        (fold gathered_more [] nodes.now)) }
    ensures kept { KeepsTrees arena.old arena.new }
{
    let mut waiting = VecDeque::new(alloc);
    for node in nodes {
        take_node(alloc, arena, &mut waiting, *node)?;
    }
    Ok(waiting)
}

// The patterns of the newest entry of the stack.
fn settle_newest(
    alloc: Global,
    arena: &mut Arena,
    waiting: VecDeque<Operands>,
) -> Result<Sequence<usize>, AllocError>
    requires { AllTaken arena.old waiting.items }
    ensures ok { IfOk result (λ made. AreNumbers arena.new made
        (settled (newest (map (gathered_at arena.old) waiting.items)))) }
    ensures kept { KeepsTrees arena.old arena.new }
{
    let mut waiting = waiting;
    match waiting.pop_front() {
        Some(operands) => {
            let made = settle(alloc, arena, &operands)?;
            Ok(made)
        }
        None => Ok(Sequence::new(alloc)),
    }
}

/// The numbers of all patterns of a formula; one may occur more than once.
pub fn all_patterns(
    alloc: Global,
    arena: &mut Arena,
    expr: &Expr,
) -> Result<Sequence<usize>, AllocError>
    ensures ok { IfOk result (λ made. AreNumbers arena.new made (patterns_of (formula_of expr.now))) }
    ensures kept { KeepsTrees arena.old arena.new }
{
    let waiting = gather(alloc, arena, expr.nodes())?;
    let made = settle_newest(alloc, arena, waiting)?;
    Ok(made)
}
