//! The covers of all trees of a forest, each with its cost.
//!
//! Callers rely on `AreTaken`: for the choices of a covering there is one cover for each root, in
//! order, the one that tree_cover takes of its tree.

ghost use Rattle.std.specs.Prelude.{◌≡◌, ◌<◌, ℕ, List, length, sum_by, IfOk};
ghost use Rattle.std.specs.List.{AllByRecursion};
ghost use Rattle.subject_tree.specs.Sizes.{word_count};
ghost use Rattle.subject_tree.specs.declared.forest.Root.{Root};
ghost use Rattle.tree_cover.specs.Postorder.{AreBelow};
ghost use Rattle.subject_tree.specs.Arenas.{tree_at};
ghost use Rattle.map_net.specs.Covering.{IsTaken, AreTaken};
ghost use Rattle.map_net.specs.Covering.{Covering as TheCovering};
ghost use Rattle.map_net.specs.Choosing.{IsChosen};
ghost use Rattle.map_net.specs.declared.covers.TreeCover.{TreeCover};

use sis_base::Sequence;
use std::alloc::{AllocError, Global};
use subject_tree::{Arena, Root};
use tree_cover::{Choices, CoverGate, Signal, WrittenCover, write_cover};

/// A cover of a tree: what drives its root, its gates, each after those that drive its pins, and
/// its cost in millionths.
#[derive(Drop)]
pub struct TreeCover {
    pub root: Signal,
    pub gates: Sequence<CoverGate>,
    pub cost: u128,
}

// A cover with its cost.
fn settled(cover: WrittenCover, cost: u128) -> TreeCover
    ensures { result ≡ record { root = cover.root; gates = cover.gates.items; cost = cost } }
{
    let WrittenCover { gates, root } = cover;
    TreeCover {
        root,
        gates: Sequence::from_vec(gates),
        cost,
    }
}

// The cover of the tree of a number, by the choices at all numbers.
fn cover_at(
    alloc: Global,
    nodes: &Arena,
    choices: &Choices,
    root: usize,
) -> Result<TreeCover, AllocError>
    requires root { root < length nodes.now }
    requires count { length choices.now ≡ length nodes.now }
    requires below { AreBelow choices.now }
    ensures { IfOk result (λ cover. (covering : TheCovering)
        → IsChosen covering nodes.now choices.now
        → IsTaken covering (tree_at nodes.now root) cover) }
{
    let cover = write_cover(alloc, nodes, choices, root)?;
    Ok(settled(cover, choices.cost(root)))
}

/// The covers of the trees of roots, in their order.
pub fn covers_of(
    alloc: Global,
    nodes: &Arena,
    choices: &Choices,
    roots: &[Root],
) -> Result<Vec<TreeCover>, AllocError>
    requires roots { AllByRecursion (λ (root : Root). root.number < length nodes.now) roots.now }
    requires count { length choices.now ≡ length nodes.now }
    requires below { AreBelow choices.now }
    ensures { IfOk result (λ covers. (covering : TheCovering)
        → IsChosen covering nodes.now choices.now → AreTaken covering roots.now covers.items) }
{
    let mut covers = Vec::with_capacity(alloc, roots.len())?;
    for root in roots {
        covers.push(cover_at(alloc, nodes, choices, root.number)?)?;
    }
    Ok(covers)
}

/// The number of gates of covers together; `usize::MAX` if there are that many or more.
pub fn gate_count(covers: &[TreeCover]) -> usize
    ensures { result
        ≡ word_count (sum_by (λ (cover : TreeCover). length cover.gates) covers.now) }
{
    let mut count: usize = 0;
    for cover in covers {
        count = count.saturating_add(cover.gates.len());
    }
    count
}
