//! Functions of the signals of a network over its leaves.
//!
//! Source: De Micheli, "Synthesis and Optimization of Digital Circuits", chapter 8 (logic networks,
//! observability don't-cares); R. E. Bryant, "Graph-Based Algorithms for Boolean Function
//! Manipulation", IEEE Transactions on Computers C-35 (1986). For any object of func_core's trait
//! `Functions`: `table_function` makes the function of a table over functions of its inputs,
//! `signal_functions` those of all signals of a network and of its don't-care part, `forced` those
//! with one signal fixed, `care` that of where a signal is observable, and `KeptFunctions` all that
//! are needed to simplify one table: it keeps functions from one table to the next, and if a table
//! changes only its transitive fanout is recomputed; no clause says so. Promised: each number means
//! exactly its function (`specs/Signals.antt`, `specs/Locals.antt`), one is refused only if a part
//! that is built for it is too big, and earlier numbers and the limit stay, whatever the result.
#![tactic(auto)]

mod building;
mod fault;
mod kept;
mod leaves;
mod listing;
mod local;
mod network;
mod numbers;
mod ordered;
mod parts;
mod rows;
mod seen;
mod signals;
mod turn;
mod unreached;

pub use fault::NetFuncFault;
pub use kept::KeptFunctions;
pub use local::Local;
pub use network::{Signals, care, forced, signal_functions};
pub use numbers::Numbered;
pub use rows::table_function;
pub use turn::TurnFunctions;
