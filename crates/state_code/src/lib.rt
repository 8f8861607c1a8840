//! State codes: the network of a finite-state machine whose states are coded in latches.
//!
//! Source: De Micheli, "Synthesis and Optimization of Digital Circuits", chapter 9 (state
//! encoding); KISS2 tables and BLIF latches of the SIS report (UCB/ERL M92/41). `specs/Codes.antt`
//! says which code each state has, in each of the two styles; `specs/Naming.antt` which names the
//! state bits have; `specs/Encoded.antt` which circuit it is, and `specs/Assigned.antt` what
//! `assign` may answer. `laws` says that no two states have the same code, that the circuit is
//! sound, and that it does whatever the machine specifies.
#![tactic(auto)]

mod assigning;
mod codes;
mod encoding;
pub mod laws;
mod naming;
mod tables;

pub use assigning::{CodeFault, assign};
pub use codes::{Code, Codes, Style};
