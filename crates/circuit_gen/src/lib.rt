//! Circuits from a seed, for trials: the same seed and the same number of tables give the same
//! circuit on every machine.
//!
//! Source: Knuth, "The Art of Computer Programming", volume 2, section 3.2.1, for the draws
//! (`specs/Draws.antt`); the circuit that they make is the project's own (`specs/Generated.antt`).
//! `generate` returns exactly that circuit, and `laws` says that it is sound and within the limits
//! of circuits that are read.
#![tactic(auto)]

mod draws;
mod gates;
mod generating;
pub mod laws;
mod naming;

pub use generating::generate;
