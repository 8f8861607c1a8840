//! A topological order of a circuit's tables: each table after the tables that it reads.
//!
//! Source: Kahn, "Topological sorting of large networks" (Communications of the ACM 5, 1962); De
//! Micheli, "Synthesis and Optimization of Digital Circuits", chapter 8 (logic networks). `specs/`
//! defines the next table and when names are in order. `order` keeps for each table the count of
//! its inputs that are not listed yet, so it takes near linear time; no clause says so. `laws` has
//! the law that tables which form no cycle are all listed.
#![tactic(auto)]

mod counts;
mod index;
pub mod laws;
mod listing;

pub use listing::order;
