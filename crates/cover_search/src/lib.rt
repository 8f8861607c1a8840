//! An oracle for minimization that searches covers: is there a point of a row at which each of
//! several covers has a wanted bit?
//!
//! Source: Davis, Logemann and Loveland, "A machine program for theorem-proving" (Communications of
//! the ACM 5, 1962: split on a literal, unit rows first), and De Micheli, "Synthesis and
//! Optimization of Digital Circuits", chapter 7 (recursion on cofactors) and chapter 8
//! (satisfiability don't-cares). `TiedCover` is a cover with node constraints, called ties: a tie
//! says that the bit in a column is the value of another cover, and a point that violates one is
//! free (`specs/Ties.antt`). Promised: each answer is exact, and no question is refused. No clause
//! says how long it takes: the search goes no deeper than there are inputs, makes no list of the
//! points at which a cover is 0, and chooses columns by weights of literals, so that short rows
//! come first.
#![tactic(auto)]

mod constraint;
mod narrow;
mod search;
mod tied;
mod weights;

pub use tied::{NodeConstraint, TiedCover};
