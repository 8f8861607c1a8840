//! Decomposition of a network: tables are decomposed until none shares a literal among its rows, or
//! until each is a product or a sum of bounded size.
//!
//! Source: the SIS report (UCB/ERL M92/41), `decomp` and `tech_decomp`; De Micheli, "Synthesis and
//! Optimization of Digital Circuits", chapter 8. `specs/Partings.antt` has what becomes of a
//! circuit when a table is decomposed, `specs/Rules.antt` the two rules, `specs/Decomposed.antt`
//! the steps and the end; `laws` says what both rules keep. Promised (`specs/Decompose.antt`): the
//! end of the chain of steps, or `NodeLimit` only if a step of it has no room. Each table is
//! decomposed at its index until it is done, and no table is visited again; no clause says so.
#![tactic(auto)]

mod decomposing;
mod gates;
pub mod laws;
mod parting;
mod rows;
mod rule;
mod stepping;
mod sums;

pub use decomposing::decompose;
pub use rule::Rule;
