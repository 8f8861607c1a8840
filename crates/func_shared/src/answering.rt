//! The operation on two numbers of a table, with an explicit stack instead of recursion.
//!
//! Source: R. E. Bryant (1986), "apply": the operation is applied to the halves of both trees at
//! the higher of their variables, and the answers are joined by a node. Each frame of the stack
//! waits for the answer of its low or high halves; answers are looked up in and added to the
//! computed table (K. S. Brace, R. L. Rudell and R. E. Bryant, 1990). `answer` returns the number
//! of exactly the tree that `specs/Merging.antt` defines. All new vertices are inner subtrees of
//! it, so `TooBig` is returned only if it is above the limit; a result may be above it, too.

ghost use Rattle.std.specs.Prelude.{◌≡◌, ℕ, ◌+◌, ◌<◌, ◌≤◌, List, None, reverse, IfOk, IfSome};
ghost use Rattle.func_core.specs.Trees.{Tree};
ghost use Rattle.func_core.specs.Sizes.{size};
ghost use Rattle.func_shared.specs.declared.vertex.Vertex.{Vertex};
ghost use Rattle.func_shared.specs.Vertices.{tree_at, IsNumber, Has, IsTable, Grows, AddsWithin};
ghost use Rattle.func_shared.specs.Merging.{merged, SplitsAt};
ghost use Rattle.func_shared.specs.Answers.{made, AreNumbers, AreAnswers, IsOpened, pair_of, IsFrame, IsStack, turn_tree, IsTurn, turn_cost, frame_cost, stack_cost};

use crate::cache::{Answers, Pair};
use crate::table::Table;
use crate::vertex::Vertex;
use func_core::{FuncFault, Operation};
use std::alloc::{AllocError, Global};

/// The halves of two numbers at the higher of their variables.
#[derive(Clone, Copy)]
struct Halves {
    place: u32,
    low: Pair,
    high: Pair,
}

/// A pair that waits for an answer.
#[derive(Clone, Copy)]
enum Frame {
    /// A pair that waits for the answer of its low halves, with its variable and its high halves.
    Low(Pair, u32, Pair),
    /// A pair that waits for the answer of its high halves, with its variable and the answer of its
    /// low halves.
    High(Pair, u32, u32),
}

/// The next step.
#[derive(Clone, Copy)]
enum Turn {
    /// The answer of two numbers is needed.
    Asks(Pair),
    /// The number is the answer.
    Gives(u32),
}

/// The answer for equal numbers, or for a constant and a number that is not lower, if these
/// determine it.
fn shortcut(operation: Operation, pair: Pair) -> Option<u32>
    requires { pair.left ≤ pair.right }
    ensures right { IfSome result (λ number. (vertices : List Vertex) → IsTable vertices
        → AreNumbers vertices pair → Has vertices number (made vertices operation pair)) }
    ensures none { result ≡ None → 2 ≤ pair.right }
{
    if pair.left == pair.right {
        return Some(match operation {
            Operation::Xor => 0,
            _ => pair.left,
        });
    }
    match (pair.left, operation) {
        (0, Operation::And) => Some(0),
        (0, Operation::Or) => Some(pair.right),
        (0, Operation::Xor) => Some(pair.right),
        (1, Operation::And) => Some(pair.right),
        (1, Operation::Or) => Some(1),
        _ => None,
    }
}

/// The vertex of a number. For a constant it is a vertex below all others, with the constant as
/// both halves.
fn opened(table: &Table, number: u32) -> Vertex
    requires { IsNumber table.now number }
    ensures { IsOpened table.now number result }
{
    table.sound();
    match table.vertex(number) {
        Some(vertex) => vertex,
        None => Vertex {
            place: u32::MAX,
            low: number,
            high: number,
        },
    }
}

/// The halves of two numbers. If the vertex of one is lower, both its halves are the number itself.
fn halves_of(table: &Table, pair: Pair) -> Halves
    requires numbers { AreNumbers table.now pair }
    requires order { pair.left ≤ pair.right }
    requires branch { 2 ≤ pair.right }
    ensures low { AreNumbers table.now result.low }
    ensures high { AreNumbers table.now result.high }
    ensures left_splits { SplitsAt result.place (tree_at table.now pair.left)
        (tree_at table.now result.low.left) (tree_at table.now result.high.left) }
    ensures right_splits { SplitsAt result.place (tree_at table.now pair.right)
        (tree_at table.now result.low.right) (tree_at table.now result.high.right) }
    ensures low_falls { result.low.left + result.low.right < pair.left + pair.right }
    ensures high_falls { result.high.left + result.high.right < pair.left + pair.right }
{
    let left = opened(table, pair.left);
    let right = opened(table, pair.right);
    if left.place < right.place {
        return Halves {
            place: left.place,
            low: Pair::new(left.low, pair.right),
            high: Pair::new(left.high, pair.right),
        };
    }
    if right.place < left.place {
        return Halves {
            place: right.place,
            low: Pair::new(pair.left, right.low),
            high: Pair::new(pair.left, right.high),
        };
    }
    Halves {
        place: left.place,
        low: Pair::new(left.low, right.low),
        high: Pair::new(left.high, right.high),
    }
}

/// Answers at once if the answer is known. Otherwise pushes the pair, and asks for its low halves.
fn ask(
    table: &Table,
    answers: &Answers,
    operation: Operation,
    frames: &mut Vec<Frame>,
    asked: Pair,
) -> Result<Turn, AllocError>
    requires numbers { AreNumbers table.now asked }
    requires answers { AreAnswers table.now answers.now }
    ensures turn { IfOk result (λ turn. IsTurn table.now turn) }
    ensures stack { IfOk result (λ turn. (goal : Tree)
        → IsStack table.now operation goal (reverse frames.old.items)
        (made table.now operation asked)
        → IsStack table.now operation goal (reverse frames.new.items)
        (turn_tree table.now operation turn)) }
    ensures falls { IfOk result (λ turn. turn_cost turn + stack_cost (reverse frames.new.items)
        < turn_cost (Turn.Asks asked) + stack_cost (reverse frames.old.items)) }
{
    table.sound();
    let pair = asked.ordered();
    if let Some(number) = shortcut(operation, pair) {
        return Ok(Turn::Gives(number));
    }
    if let Some(number) = answers.get(operation, pair) {
        return Ok(Turn::Gives(number));
    }
    let halves = halves_of(table, pair);
    frames.push(Frame::Low(pair, halves.place, halves.high))?;
    Ok(Turn::Asks(halves.low))
}

/// Passes an answer to the frame that waits for it.
fn resume(
    table: &mut Table,
    answers: &mut Answers,
    operation: Operation,
    frames: &mut Vec<Frame>,
    frame: Frame,
    number: u32,
) -> Result<Turn, AllocError>
    requires number { IsNumber table.old number }
    requires frame { IsFrame table.old operation frame (tree_at table.old number) }
    requires answers { AreAnswers table.old answers.old }
    ensures grows { Grows table.old table.new }
    ensures added { AddsWithin table.old table.new (made table.old operation (pair_of frame)) }
    ensures answers { AreAnswers table.new answers.new }
    ensures turn { IfOk result (λ turn. IsTurn table.new turn) }
    ensures stack { IfOk result (λ turn. (goal : Tree)
        → IsStack table.old operation goal (reverse frames.old.items)
        (made table.old operation (pair_of frame))
        → IsStack table.new operation goal (reverse frames.new.items)
        (turn_tree table.new operation turn)) }
    ensures falls { IfOk result (λ turn. turn_cost turn + stack_cost (reverse frames.new.items)
        < frame_cost frame + stack_cost (reverse frames.old.items)) }
{
    match frame {
        Frame::Low(pair, place, high) => {
            frames.push(Frame::High(pair, place, number))?;
            Ok(Turn::Asks(high))
        }
        Frame::High(pair, place, low) => {
            let joined = table.join(place, low, number)?;
            answers.put(operation, pair, joined);
            Ok(Turn::Gives(joined))
        }
    }
}

/// The number of the result of an operation on two numbers. `TooBig` only if more vertices than the
/// limit were added to the table, each of which belongs to the result.
pub(crate) fn answer(
    alloc: Global,
    table: &mut Table,
    answers: &mut Answers,
    operation: Operation,
    goal: Pair,
    limit: usize,
) -> Result<u32, FuncFault>
    requires left { IsNumber table.old goal.left }
    requires right { IsNumber table.old goal.right }
    requires answers { AreAnswers table.old answers.old }
    ensures ok { IfOk result (λ number. Has table.new number (made table.old operation goal)) }
    ensures big { result ≡ Err FuncFault.TooBig → limit < size (made table.old operation goal) }
    ensures grows { Grows table.old table.new }
    ensures added { AddsWithin table.old table.new (made table.old operation goal) }
    ensures answers { AreAnswers table.new answers.new }
{
    let start = table.len();
    let mut frames = Vec::new(alloc);
    let mut turn = Turn::Asks(goal);
    'turns: loop {
        turn = match turn {
            Turn::Asks(pair) => ask(table, answers, operation, &mut frames, pair)?,
            Turn::Gives(number) => match frames.pop() {
                None => return Ok(number),
                Some(frame) => resume(table, answers, operation, &mut frames, frame, number)?,
            },
        };
        if table.len() - start > limit {
            table.sound();
            return Err(FuncFault::TooBig);
        }
    }
}
