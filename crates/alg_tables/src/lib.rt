//! Algebra of tables with named inputs: the elimination of a table into one that reads it, and the
//! division of a table by a cover of literals by name.
//!
//! Source: Brayton, Rudell, Sangiovanni-Vincentelli and Wang, "MIS: A Multiple-Level Logic
//! Optimization System" (1987), and the SIS report (UCB/ERL M92/41) on `eliminate` and `collapse`;
//! De Micheli, "Synthesis and Optimization of Digital Circuits", chapter 8 (elimination: the local
//! function of a vertex replaces its variable). Division is that of alg_div over the table's
//! inputs.
//!
//! `specs/Taking.antt` defines the table that a fanout becomes, and when it is refused. Promised:
//! exactly that table, in normal form; a refusal other than a lack of memory only if a list of rows
//! or the result is too long, or has too many inputs, and no table then; and that the new table has
//! the old one's value wherever the inner table's signal has its table's value (`laws`).
//! `specs/Dividing.antt` defines the divided table and the table of a cover. Promised: exactly
//! these tables; that the divided table has the old one's value wherever the signal's literal has
//! the cover's value; and that the cover's table is split off the tables that are divided by it
//! (`laws`), which is what circuit_laws asks of a step that keeps the values of signals.
#![tactic(auto)]

mod dividing;
mod inputs;
pub mod laws;
mod taking;

pub use dividing::{Division, cover_table, divided_table, division_of};
pub use inputs::{place_among, places_of};
pub use taking::{ComposeFault, compose_into};
