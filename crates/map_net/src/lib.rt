//! Technology mapping: the netlist of a network by a library of gates.
//!
//! Source: Keutzer, "DAGON: Technology binding and local optimization by DAG matching" (24th Design
//! Automation Conference, 1987); Rudell, "Logic Synthesis for VLSI Design" (thesis, University of
//! California, Berkeley, 1989). The network is cut into trees (subject_tree), each tree has its
//! cover of least cost (tree_cover), and the gates of the covers are the netlist (netlist).
//! `specs/Covering.antt` says what a covering of a circuit is, `specs/Naming.antt` which names new
//! signals have, and `specs/Mapping.antt` what the netlist of a covering is. Promised: `map` gives
//! that netlist, or the first of the reasons why there is none; each error but those is want of
//! memory. `laws` has what holds of netlists, and `one` says that a circuit has one netlist by a
//! library.
#![tactic(auto)]

mod covers;
pub mod laws;
mod left;
mod mapping;
mod naming;
pub mod one;
mod placing;

pub use covers::TreeCover;
pub use mapping::{MapFault, map};
