//! Lists of rows by Shannon expansion, and the composition of one table's cover into another's.
//!
//! Source: Brayton, Hachtel, McMullen, Sangiovanni-Vincentelli, "Logic Minimization Algorithms for
//! VLSI Synthesis" (Shannon expansion), and De Micheli, "Synthesis and Optimization of Digital
//! Circuits", chapter 7. A list is defined by the function's value alone, so equal functions have
//! equal lists. Promised: the exact list, and `CubeLimit` exactly if it has more rows than the
//! limit; for a composition its rows in order, and that its value is that of the outer cover with
//! the inner value for x.
#![tactic(auto)]

mod composing;
mod list;

pub use composing::{compose, place_rows};
pub use list::{ListFault, off_list, on_list};
