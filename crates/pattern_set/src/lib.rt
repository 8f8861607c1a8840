//! The patterns of gates: the trees of NANDs and inverters as which gates of a library occur in a
//! subject tree.
//!
//! Source: Keutzer, "DAGON: Technology binding and local optimization by DAG matching" (24th Design
//! Automation Conference, 1987); Rudell, "Logic Synthesis for VLSI Design" (thesis, University of
//! California, Berkeley, 1989), the chapter on technology mapping. `specs/Patterns.antt` says when
//! a tree is a pattern of a formula. Promised: `patterns` lists for each gate that is used all its
//! patterns, no other, and each once; `covers_all` says exactly whether a library has the two
//! patterns that suffice to cover any tree, or which is the first that it lacks. Formulas are read
//! as their nodes in postfix order, so that only the at most six operands of one product or sum
//! need a recursion.
#![tactic(auto)]

mod cells;
mod gathering;
mod joining;
mod kind;
pub mod laws;
mod listing;
mod parting;
mod usage;

pub use cells::{Cell, PatternFault, PatternGate, Patterns};
pub use listing::{covers_all, patterns, vertex_of};
