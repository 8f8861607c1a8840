//! Extraction: what may be extracted from a network, and which candidate is next.
//!
//! Source: Rajski and Vasudevamurthy, "The testability-preserving concurrent decomposition and
//! factorization of Boolean expressions" (IEEE Transactions on CAD 11, 1992), for `fx`; Brayton and
//! McMullen, "The Decomposition and Factorization of Boolean Expressions" (1982), and the SIS
//! report (UCB/ERL M92/41), for `gkx` and `gcx`; De Micheli, "Synthesis and Optimization of Digital
//! Circuits", chapter 8. `specs/Candidates.antt` has the candidates of the three rules: sums of two
//! cubes and products of two literals, kernels, and cubes that rows share. `specs/Extracting.antt`
//! has the steps and the end; `laws` says what they keep.
//!
//! Promised of the lists (`specs/Listed.antt`): exactly the candidates of a table; `ManyKernels`
//! only if the table has more kernels than are listed, and no list then; exactly the cubes that
//! some cubes share with one another or with others; and whether two share exactly a given one.
//! `parts` has what two cubes or two literals make (`specs/Parts.antt`). Any other error is a lack
//! of memory.
#![tactic(auto)]

mod cubes;
mod fault;
pub mod laws;
mod others;
mod own;
mod pairs;
mod partners;
mod parts;
mod rule;
mod shared;
mod sharers;
mod spots;

pub use cubes::cubes_of;
pub use fault::ListFault;
pub use others::shared_with;
pub use own::own_candidates;
pub use parts::has_literal;
pub use rule::Rule;
pub use sharers::is_shared;
