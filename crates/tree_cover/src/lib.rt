//! Covers of subject trees by gates.
//!
//! Source: Keutzer, "DAGON: Technology binding and local optimization by DAG matching" (24th Design
//! Automation Conference, 1987); Aho, Ganapathi and Tjiang, "Code generation using tree matching
//! and dynamic programming" (ACM Transactions on Programming Languages and Systems 11, 1989);
//! Hoffmann and O'Donnell, "Pattern matching in trees" (Journal of the ACM 29, 1982).
//! `specs/Covers.antt` says what a cover is, what it costs, and which choice of a gate is taken.
//! Promised: `best` gives for each vertex the choice that is taken there, and no cover of its tree
//! costs less; `matches` gives exactly the bindings with which a pattern matches a tree, where a
//! pin that occurs more than once is bound to one tree; a gate that matches has the tree's value
//! (`laws`). A pattern is tried only where its outline fits (`specs/Outlines.antt`), which at a
//! vertex is tested once for all patterns that have it. Choices are kept in flat lists (`Choices`),
//! which contracts see as the list of the choices. Conditions of the caller: the library has an
//! inverter and a NAND of two pins, areas are below 2^50, and trees have at most 2^20 vertices. A
//! recursion is only as deep as a pattern.
//!
//! `write_cover` gives exactly the gates of the cover that is taken, in postorder (Knuth, "The Art
//! of Computer Programming", volume 1, section 2.3.1; `specs/Written.antt`): the sum of their areas
//! is the cost of the choice at the root, and if each has the value of its function, what drives
//! the root has the tree's value (`gate_laws`). Only a stack of its own grows with the depth of a
//! tree.
//!
//! `cells` and `library_patterns` give one cell, and one gate with its patterns, for each gate of a
//! genlib library, in the order of its file (`specs/Listed.antt`); for a sound library that has all
//! that covers need they meet the conditions of `best` (`library_laws`). Each error is want of
//! memory; a number past 2^32 - 1, of a tree, of a gate or of all pins together, would count as
//! that.
#![tactic(auto)]

mod binding;
mod choice;
mod choices;
mod covering;
mod fitting;
pub mod gate_laws;
pub mod laws;
pub mod library_laws;
mod listing;
mod matching;
mod outlines;
mod writing;

pub use binding::Binding;
pub use choice::Choice;
pub use choices::Choices;
pub use covering::best;
pub use listing::{cells, library_patterns};
pub use matching::matches;
pub use writing::{CoverGate, Signal, WrittenCover, write_cover};
