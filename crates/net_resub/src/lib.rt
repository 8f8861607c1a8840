//! Resubstitution on a network: tables are divided by others, as long as that saves literals.
//!
//! Source: Brayton, Rudell, Sangiovanni-Vincentelli and Wang, "MIS: A Multiple-Level Logic
//! Optimization System" (1987); the SIS report (UCB/ERL M92/41), `resub`. `specs/Resubbed.antt` has
//! the candidates, the steps and the end; `laws` says what they keep. Promised: the end of the
//! steps, as a new network; the given one stays.
//!
//! `pairs` says what one division makes and saves, `reaching` whether a table depends on another
//! one, `divisions` in which order divisions are made, `listed` keeps the indices of tables under
//! one name of each, `candidates` says which tables may divide which, `kept` keeps the divisions
//! that save while tables change, `best` finds the best of them that may be made, and `resubbing`
//! makes one after the other. A step looks only at pairs with the table that changed, and there
//! only at those divisors whose name it reads; no clause says how much work that saves.
#![tactic(auto)]

mod best;
mod candidates;
mod divisions;
mod kept;
pub mod laws;
mod listed;
mod pairs;
mod reaching;
mod resubbing;

pub use resubbing::resubstitute;
