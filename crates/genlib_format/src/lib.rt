//! Library files of the mapper: the gates of a file, or its first fault.
//!
//! Source: the genlib format of SIS (UCB/ERL M92/41). `specs/Words.antt` to `specs/Entries.antt`
//! say which entries a file has, `specs/Faults.antt` and `specs/Reader.antt` what is wrong with
//! them and which gates they describe; the formula of a gate is the one that its text spells by the
//! grammar of genlib_expr (`specs/Spelling.antt`). `read` returns exactly the library of the file,
//! or exactly the first fault in the order of the entries, and the library is sound.
//! `Library::gate` is the first gate of a name, and `Gate::rows` the rows of its function.
#![tactic(auto)]

mod checks;
mod entries;
mod fault;
mod gate;
mod gates;
pub mod laws;
mod library;
mod pins;
mod reading;
mod rest;
mod words;

pub use fault::{LibFault, LimitKind, ReadFault};
pub use gate::{Block, Blocks, Gate};
pub use library::Library;
pub use reading::read;
