//! Sweep: constants are propagated, tables of one input are collapsed into their fanouts, latches
//! that always hold one bit become constants, and what is not needed is removed.
//!
//! Source: the SIS manual (UCB/ERL M92/41), `sweep`. The steps are defined in net_wires. Here steps
//! are taken until none applies: those of the first four rules at tables that wait in ordered
//! worklists (`queues`, `applying`), those of the fifth at latches that wait likewise (`latches`,
//! `fixing`; `tracking` copies latches out and puts the remaining ones back). All of them run on a
//! circuit over aliases (net_wires), in which two signals are exchanged in all tables at once: a
//! table of one input with at least as many fanouts as that input is collapsed in this way. After a
//! step the table at which it was taken is emptied if it has no fanout (`idle`). The last rule is
//! one pass over the circuit, by `dangling_step`, after which the first five are tried again.
//! Promised: the chain of steps, to its end; the given network stays (`sweep`).
#![tactic(auto)]

mod applying;
mod constants;
mod counting;
mod fixing;
mod idle;
mod latches;
mod queues;
mod rows;
mod steps;
mod sweeping;
mod tracking;

pub use sweeping::{SweepFault, Swept, sweep};
