//! Weak (algebraic) division of covers: the quotient and the remainder of one sum of cubes by
//! another, as defined by Brayton, Rudell, Sangiovanni-Vincentelli and Wang ("MIS: A Multiple-Level
//! Logic Optimization System", 1987); De Micheli, "Synthesis and Optimization of Digital Circuits",
//! chapter 8.
//!
//! Promised: `divide` returns all cubes of the quotient and no others, each once, in order, and the
//! remainder in order. `quotient_parts` states that quotient, divisor and remainder make up the
//! dividend, and `quotient_one` that the quotient is unique.

#![tactic(auto)]

mod literals;
mod steps;
mod weak;

pub use literals::{all_literals_of, copy_of, cover_of, literals_of, row_of};
pub use steps::strip_row;
pub use weak::{divide, quotient_one, quotient_parts};
