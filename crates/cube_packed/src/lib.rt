//! Rows of literals in two bits a column, for covers whose tests and products go word by word.
//!
//! Source: Brayton, Hachtel, McMullen, Sangiovanni-Vincentelli, "Logic Minimization Algorithms for
//! VLSI Synthesis", 1984 (cubes in positional notation, and their operations by words). A
//! `PackedRow` has a plane of positive and a plane of negative literals, in 64-bit words of which
//! the first eight need no allocation. Promised: each clause of the trait `Row` of cube_cover, at
//! every width. Bits past the width are zero and never change an answer.
#![tactic(auto)]

mod row;
mod words;

pub use row::PackedRow;
