//! Elimination and collapse of a network: a table is composed into its fanouts, and removed.
//!
//! Source: Brayton, Rudell, Sangiovanni-Vincentelli and Wang, "MIS: A Multiple-Level Logic
//! Optimization System" (1987); the SIS report (UCB/ERL M92/41), `eliminate` and `collapse`; De
//! Micheli, "Synthesis and Optimization of Digital Circuits", chapter 8. `specs/Eliminating.antt`
//! has the step of elimination and its finished form, `specs/Collapsing.antt` what collapse makes
//! and why it refuses; `laws` says what both keep, and that they end in their finished forms.
//!
//! Both make a new network; the given one stays. Promised of `eliminate`
//! (`specs/Eliminating.antt`): exactly the end of the chain of steps, so no inner table is left
//! whose value is not above the threshold and that all its fanouts can take. The results for all
//! fanouts are made before one is set. Values are kept from step to step in a priority queue
//! (`waiting`), and recomputed only where a step may have changed them: at the eliminated table, at
//! its fanouts, and at the tables that drive inputs of any of these. No clause says how much work
//! that saves.
//!
//! Promised of `collapse` (`specs/Collapse.antt`): exactly the collapsed network, which reads
//! inputs and latches alone, or exactly the refusal with the fanout's name.
#![tactic(auto)]

mod collapse_step;
mod collapsing;
mod cutting;
mod eliminating;
mod fault;
pub mod laws;
mod putting;
mod touching;
mod waiting;

pub use collapsing::collapse;
pub use eliminating::eliminate;
pub use fault::CollapseFault;
