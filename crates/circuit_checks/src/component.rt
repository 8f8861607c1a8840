//! Labels of the nodes of a graph: the numbers of their strong components.
//!
//! Tarjan, "Depth-first search and linear graph algorithms" (SIAM J. Computing 1, 1972), with a
//! stack of steps instead of recursion. Components are numbered in the order in which the algorithm
//! closes them, so that each edge leads to a lesser label or stays in its component. Nothing is
//! proved of the labels: `graph_cycle` checks them before it uses them, and a wrong label can only
//! cost time.

ghost use Rattle.std.specs.Prelude.{◌≡◌};
ghost use Rattle.circuit_checks.specs.Searching.{label_of};

use crate::search::reads_at;
use sis_base::Sequence;
use std::alloc::{AllocError, Global};

/// A step of the depth-first walk.
#[derive(Clone, Copy)]
enum Step {
    Enter(usize),
    Leave(usize),
}

/// The state of the walk. By node: the count at which it was entered (0 for not yet), the least
/// count that it reaches through open nodes, and its label (0 while its component is open). And the
/// open nodes in the order in which they were entered.
#[derive(Drop)]
struct Components {
    entered: Vec<usize>,
    lowest: Vec<usize>,
    labels: Vec<usize>,
    path: Vec<usize>,
    count: usize,
    closed: usize,
}

/// A label for each node.
pub fn labels(alloc: Global, graph: &[Sequence<usize>]) -> Result<Vec<usize>, AllocError> {
    let mut components = Components {
        entered: zeros(alloc, graph.len())?,
        lowest: zeros(alloc, graph.len())?,
        labels: zeros(alloc, graph.len())?,
        path: Vec::new(alloc),
        count: 0,
        closed: 0,
    };
    let mut steps = Vec::new(alloc);
    for root in 0..graph.len() {
        steps.push(Step::Enter(root))?;
        components.walk(graph, &mut steps)?;
    }
    Ok(components.labels)
}

/// The given number of zeros.
fn zeros(alloc: Global, count: usize) -> Result<Vec<usize>, AllocError> {
    vec![in alloc; 0; count]
}

/// The mark of a node, 0 if it has none.
#[tactic(auto, unfolding(crate::specs::Searching::label_of))]
pub fn mark_of(marks: &[usize], place: usize) -> usize
    ensures { result ≡ label_of marks.now place }
{
    marks.get(place).copied().unwrap_or(0)
}

/// Sets the mark of a node.
fn put_mark(marks: &mut Vec<usize>, place: usize, mark: usize) {
    if place < marks.len() {
        marks[place] = mark;
    }
}

/// Pops the open nodes down to the given one, and labels them.
fn close(path: &mut Vec<usize>, labels: &mut Vec<usize>, place: usize, label: usize) {
    while let Some(last) = path.pop() {
        put_mark(labels, last, label);
        if last == place {
            break;
        }
    }
}

impl Components {
    /// Takes steps until none is left.
    fn walk(&mut self, graph: &[Sequence<usize>], steps: &mut Vec<Step>) -> Result<(), AllocError> {
        for _ in 0..u64::MAX {
            match steps.pop() {
                Some(Step::Enter(place)) => self.enter(reads_at(graph, place), place, steps)?,
                Some(Step::Leave(place)) => self.leave(reads_at(graph, place), place),
                None => break,
            }
        }
        Ok(())
    }

    /// Opens a node that is new: pushes the step that leaves it, then those that enter its
    /// successors.
    fn enter(
        &mut self,
        reads: &[usize],
        place: usize,
        steps: &mut Vec<Step>,
    ) -> Result<(), AllocError> {
        if mark_of(self.entered.as_slice(), place) != 0 {
            return Ok(());
        }
        self.count = self.count.saturating_add(1);
        put_mark(&mut self.entered, place, self.count);
        put_mark(&mut self.lowest, place, self.count);
        self.path.push(place)?;
        steps.push(Step::Leave(place))?;
        for read in reads {
            steps.push(Step::Enter(*read))?;
        }
        Ok(())
    }

    /// Takes the least count that the successors reach; if it is the node's own, closes its
    /// component.
    fn leave(&mut self, reads: &[usize], place: usize) {
        let lowest = self.lowest_through(reads, mark_of(self.lowest.as_slice(), place));
        put_mark(&mut self.lowest, place, lowest);
        if lowest == mark_of(self.entered.as_slice(), place) {
            self.closed = self.closed.saturating_add(1);
            close(&mut self.path, &mut self.labels, place, self.closed);
        }
    }

    /// The least of a count and those that the open successors reach.
    fn lowest_through(&self, reads: &[usize], count: usize) -> usize {
        let mut lowest = count;
        for read in reads {
            if mark_of(self.labels.as_slice(), *read) == 0 {
                lowest = lowest.min(mark_of(self.lowest.as_slice(), *read));
            }
        }
        lowest
    }
}
