//! Kernels of covers: the cube-free quotients by a cube that have more than one cube, as defined by
//! Brayton and McMullen ("The Decomposition and Factorization of Boolean Expressions", 1982); De
//! Micheli, "Synthesis and Optimization of Digital Circuits", chapter 8.
//!
//! Promised: `kernels` returns each kernel once and nothing else, in increasing order, its rows in
//! increasing order, if there are at most `MAX_KERNELS`. It fails with `KernelLimit` exactly if
//! there are more.

#![tactic(auto)]

mod list;
mod rows;
mod search;

pub use list::kernels;
pub use search::KernelFault;
