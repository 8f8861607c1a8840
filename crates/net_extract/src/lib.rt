//! Extraction from a network: divisors that save literals become tables.
//!
//! Source: Brayton, Rudell, Sangiovanni-Vincentelli and Wang, "MIS: A Multiple-Level Logic
//! Optimization System" (1987); the SIS report (UCB/ERL M92/41), `fx`, `gkx` and `gcx`. What a
//! candidate is, which one is next and what extraction keeps is defined by net_candidates. For `fx`
//! the gains of divisors are kept while tables change (`counted`, `counting`), as long as no table
//! has a row twice and each input has a number; else, and for `gkx` and `gcx`, what candidates save
//! is kept (crate net_savings). Promised here (`specs/Extract.antt`): the end of the chain of
//! steps; `KernelLimit` with the first table that has more kernels than are listed; or `NodeLimit`
//! only if a step has no room.
#![tactic(auto)]

mod counted;
mod counting;
mod extracting;
mod fault;
mod finding;
mod known;
mod stepping;

pub use extracting::extract;
pub use fault::ExtractFault;
