//! Tables made minimal under their combinational don't-cares.
//!
//! Source: De Micheli, "Synthesis and Optimization of Digital Circuits", chapter 8 (observability
//! and satisfiability don't-care conditions), and R. E. Bryant, "Graph-Based Algorithms for Boolean
//! Function Manipulation", IEEE Transactions on Computers C-35 (1986), for functions by numbers.
//! `specs/Full.antt` has the don't-cares of a table and a circuit whose tables became minimal under
//! them, one after the other; `laws` says that it is sound and the same to whoever watches it.
//! `full_simplify` makes exactly that circuit (`specs/Turns.antt`), or returns the fault of the
//! first step that has one: a list that is too long, or a function made in that step that is too
//! big (`specs/Tested.antt`), and never a circuit if the function of a table's signal is. Inside,
//! an oracle answers the tests of `cover_min` on a table by functions of leaves: where its signal
//! must be 1, where it must be 0, and those of its inputs (`specs/Seen.antt`). It refuses a test
//! only if a function that the test builds is too big (`specs/Products.antt`), and never answers
//! one then.
#![tactic(auto)]

mod fault;
pub mod laws;
mod oracle;
mod products;
mod simplifying;
mod tested;
mod turns;

pub use fault::FullFault;
pub use simplifying::full_simplify;
