//! Boolean functions of numbered variables, each known by a number that an object gave it.
//!
//! A function is described by its reduced ordered decision tree (R. E. Bryant, "Graph-Based
//! Algorithms for Boolean Function Manipulation", IEEE Transactions on Computers C-35, 1986):
//! variables increase on each path, no node has equal halves, and so there is one tree for each
//! function. Every implementation of the trait `Functions` promises that the number it returns
//! denotes the tree of the function asked for, and that it answers `TooBig` exactly if that tree
//! has more different inner subtrees than its limit. Earlier numbers denote the same trees after
//! every answer, and no call changes the limit. No clause compares two numbers, so an
//! implementation may give equal functions one number or several. No clause says when memory runs
//! out.
//!
//! The laws of functions and trees that callers use are the contracts of `laws`. Equal functions
//! have one tree, a function that fits is not too big, and a complement has the size of its
//! function. A function other than Zero is true somewhere, and a returned point makes its function
//! true.
//!
//! `PlainFunctions` is the simplest implementation: a tree of its own for each number.
#![tactic(auto)]

mod diagram;
mod functions;
pub mod laws;
mod operation;
mod plain;

pub use functions::{Func, FuncFault, Functions};
pub use operation::Operation;
pub use plain::PlainFunctions;
