//! The base of the workspace: the owned lists of which all list types of circuits are made, and
//! exact copies.
//!
//! Contracts see a `Sequence<T>` as the plain list of its items, also inside another sequence or a
//! field of a struct, and compare such values by `≡`. A `Short<T, N>` is seen in the same way and
//! keeps up to `N` items without an allocation. Names are of this kind (`Name`), since most of them
//! have at most 22 bytes. `Copied` promises a copy that equals its source. A `Whole<T>` is dropped
//! in one call.
//!
//! Two files of definitions are here because several crates share them: rows as lists of optional
//! bits (`specs/Rows.antt`, used by circuits and covers), and words and lines as a program writes
//! them (`specs/Written.antt`, used by readers and writers, after the Berkeley Logic Interchange
//! Format, appendix of the SIS report, UCB/ERL M92/41). `limits` names each limit.
#![tactic(auto)]

pub mod limits;
mod sequence;
mod short;
mod whole;

pub use sequence::{Copied, Sequence};
pub use short::{Name, Short};
pub use whole::Whole;
