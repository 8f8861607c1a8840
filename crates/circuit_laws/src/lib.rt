//! Laws of circuits, on which every command that changes a network rests.
//!
//! Source: De Micheli, "Synthesis and Optimization of Digital Circuits", chapters 8 and 9: logic
//! networks and their transformations, and registers that hold a constant. `specs/` defines the
//! edits of a circuit (`Edits`), ranks (`Ranks`), valuations that agree with tables (`Valuations`),
//! when two circuits are the same and which signals keep their values (`Same`, `Left`), what is
//! kept when tables and latches are removed (`Kept`), which table may be part of a circuit
//! (`Fitting`), latches that always hold one bit (`Fixed`), chains of steps and the best of several
//! choices (`Greedy`), chains of a step function (`Chains`), what commands keep that change tables
//! alone (`Changes`), and tables that are rewritten over a new one (`Splits`).
//!
//! Each law is the contract of a call that does nothing: a caller has it by calling it.
//! `valuations` has the laws of ranks and values, `sameness` those of sameness, `edits` what each
//! edit keeps, `order` why tables form no cycle after it, and `soundness` why the circuit stays
//! sound. `chain_laws`: what the two kinds of change keep, every chain of them keeps. `split_laws`:
//! where a table is split off others, the circuit stays sound, no signal is removed, and each keeps
//! its value.
#![tactic(auto)]

pub mod chain_laws;
pub mod edits;
pub mod order;
pub mod sameness;
pub mod soundness;
pub mod split_laws;
pub mod valuations;
