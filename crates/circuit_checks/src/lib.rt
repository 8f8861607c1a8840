//! Checks of a whole circuit: names that are repeated, missing or listed twice, tables that are
//! reached from themselves, and all of these for the tables of a don't-care part.
//!
//! Each check finds the first offender in the order in which it looks (SIS report, UCB/ERL M92/41,
//! appendix on BLIF: each signal has one driver, tables form no cycle). It uses hash sets and takes
//! linear time; no clause says so. `laws` states what a check that finds nothing says of the
//! circuit.
//!
//! The search for a cycle works on a graph, a slice of sequences: node i has edges to the nodes
//! listed at index i. `first_cyclic` finds the first node that is reached from itself in one or
//! more steps. Every node gets the number of its strong component (Tarjan, 1972), and one pass
//! checks that no edge leads to a greater number; then a search starts only at a node with an edge
//! to a number that is not less. The answer is proved exact for any numbers; only the time depends
//! on Tarjan's being right. `graph_laws` says that the definition means walks of any length, and
//! that a graph without cycles has a rank.
#![tactic(auto)]

mod component;
mod cycle;
mod graph_cycle;
pub mod graph_laws;
pub mod laws;
mod name_check;
mod name_set;
mod part_check;
mod search;

pub use cycle::{add_place, first_on_cycle};
pub use graph_cycle::first_cyclic;
pub use name_check::{first_again, first_listed_twice, first_missing};
pub use part_check::first_bad_part_name;
pub use search::{is_seen, note_all, reached, unmarked};
