//! Boolean functions of numbered variables, as numbers of one table of different decision nodes (a
//! BDD package).
//!
//! Equal functions are one node (R. E. Bryant, "Graph-Based Algorithms for Boolean Function
//! Manipulation", IEEE Transactions on Computers C-35, 1986; K. S. Brace, R. L. Rudell and R. E.
//! Bryant, "Efficient Implementation of a BDD Package", 27th Design Automation Conference, 1990).
//! `SharedFunctions` promises what its trait, `Functions` of func_core, does. A number denotes the
//! reduced tree of the function asked for, whose size is within the limit, and `TooBig` is returned
//! only if the size of that tree is above the limit. Each earlier number denotes the same tree
//! after results and errors. By `laws` equal functions have one number.
#![tactic(auto)]

mod answering;
mod cache;
pub mod laws;
mod nodes;
mod shared;
mod table;
mod vertex;
mod walking;

pub use shared::SharedFunctions;
