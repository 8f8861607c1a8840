//! Prime and irredundant covers of an incompletely specified function, by an oracle that knows the
//! function.
//!
//! Source: Brayton, Hachtel, McMullen, Sangiovanni-Vincentelli, "Logic Minimization Algorithms for
//! VLSI Synthesis" (expand and irredundant), and De Micheli, "Synthesis and Optimization of Digital
//! Circuits", chapter 7. An `Oracle` answers two questions only: whether a row has a point at which
//! the function must be 0, and whether a row has a point at which it must be 1 that no row of some
//! others has.
//!
//! Promised by `prime_irredundant`: exactly the minimum of `specs/Minimum.antt`, whose choices are
//! greedy and in order, for any oracle that keeps to its trait's clauses; and `Refused` exactly if
//! it makes a test that is refused (`specs/Refusals.antt`). The oracle keeps what its `Stays` says,
//! so that a borrowed object behind it stays sound. `laws` states what the textbook says
//! (`specs/Primes.antt`). If the rows agree with the function wherever that is not free, so does
//! their minimum, and each row of it is a prime implicant. Each row has a point of its own at which
//! the function must be 1.
#![tactic(auto)]

pub mod laws;
mod minimum;
mod oracle;

pub use minimum::prime_irredundant;
pub use oracle::{Oracle, OracleFault};
