//! Factored forms of covers: a sum of rows written with fewer literals, as sums and products of
//! sums.
//!
//! Source: literal factoring as in Brayton, Rudell, Sangiovanni-Vincentelli, Wang, "MIS: A
//! Multiple-Level Logic Optimization System" (1987), and De Micheli, "Synthesis and Optimization of
//! Digital Circuits", chapter 8. The literal that occurs in most rows is factored out of them,
//! again and again, until no literal occurs in two rows. Promised: the form is the one that this
//! rule gives (`specs/Forms.antt`), multiplied out it is the cover's rows in some order, and it has
//! fewer literals exactly if some literal occurs in two rows; the count, the expansion and the text
//! (`specs/Texts.antt`) are exact. Other crates also use `best_literal` and `part_rows`, which
//! factor out one literal. Conditions of the caller: one name for each input, and fewer than 2^64
//! literals where they are counted.
#![tactic(auto)]

mod choice;
mod expansion;
mod factoring;
mod form;
mod literals;
mod text;

pub use choice::{Best, Parts, best_literal, part_rows};
pub use factoring::factor;
pub use form::Factored;
pub use text::sum_text;
