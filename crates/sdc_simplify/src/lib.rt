//! Simplification of a network: each table in its turn becomes minimal under its local don't-cares.
//!
//! Source: the SIS report (UCB/ERL M92/41), `simplify`; De Micheli, "Synthesis and Optimization of
//! Digital Circuits", chapters 7 and 8. `specs/Local.antt` has local don't-cares,
//! `specs/Minimized.antt` the minimum of one table under any don't-cares, `specs/Simplified.antt`
//! the steps and their refusal; `laws` says what each keeps. Promised (`specs/Simplify.antt`):
//! exactly the simplified network, or exactly the refusal with the table's name. The tables that
//! make points impossible are found in the working network's index, with one look-up for each
//! input; no clause says so.
#![tactic(auto)]

mod fault;
pub mod laws;
mod simplifying;
mod ties;
mod turns;

pub use fault::SimplifyFault;
pub use simplifying::simplify;
pub use turns::on_cover;
