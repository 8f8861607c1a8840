//! Subject trees: the trees of two-input NANDs and inverters that gates are matched with.
//!
//! Source: Keutzer, "DAGON: Technology binding and local optimization by DAG matching" (24th Design
//! Automation Conference, 1987); Rudell, "Logic Synthesis for VLSI Design" (thesis, University of
//! California, Berkeley, 1989). `specs/Trees.antt` says what a tree is. An `Arena` keeps trees as
//! numbered vertices in which equal trees share one number, so that no tree is walked to find
//! whether it equals another, to copy it or to drop it; `Leaves` numbers the signals at their
//! leaves. `table_number` makes the tree of a table, `fates` tells which tables of a circuit are
//! constant, inlined, left out, or roots of trees, and `forest_of` makes the trees of the roots
//! (`specs/Roots.antt`). `laws` says what values trees have. Each error but TreeLimit is want of
//! memory; numbers of leaves or trees past 2^32 - 2 count as that.
#![tactic(auto)]

mod arena;
mod forest;
mod judging;
pub mod laws;
mod leaves;
mod order;
mod packing;
mod pruning;
mod sizes;
mod tables;

pub use arena::{Arena, Vertex};
pub use forest::{Forest, ForestFault, Root, forest_of};
pub use judging::{Role, fates};
pub use leaves::Leaves;
pub use tables::table_number;
