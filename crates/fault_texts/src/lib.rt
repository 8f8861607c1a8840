//! What is wrong with a file, as a text.
//!
//! Source: the wording is the project's own; the faults are those of the readers of BLIF, KISS2
//! and genlib. Promised (`specs/Texts.antt`): one text for each fault, appended byte for byte; if
//! memory runs out, the output stays as it was. Modules: `blif`, `kiss` and `library`, a kind of
//! file each; `putting`, texts appended to one another.
#![tactic(auto)]

mod blif;
mod kiss;
mod library;
mod putting;

pub use blif::put_blif_fault;
pub use kiss::put_kiss_fault;
pub use library::put_library_fault;
pub use putting::{cut_on_error, put_three, put_two};
