//! Reads a text in the Berkeley Logic Interchange Format (appendix of the SIS report, UCB/ERL
//! M92/41) as a circuit or as a machine.
//!
//! A KISS2 part is between `.start_kiss` and `.end_kiss` (`specs/Parts.antt`); the lines outside it
//! are those of the models of the file, of which `blif_models` reads the first, with each instance
//! of another in its place, and those in it those of a table, which `kiss_format` reads. A first
//! model with a part and without a table, a latch, a gate or a `.subckt` line is that machine, under
//! the model's names of ports; any other one is its circuit, and the part is skipped
//! (`specs/Reader.antt`). `read` returns exactly what the text describes, or the first fault. What it
//! returns is sound, and keeps the limits if the library is sound (`specs/Limits.antt`).
//! `reading_laws` has the same for lists of lines.
#![tactic(auto)]

mod machine;
mod parts;
mod reading;
pub mod reading_laws;

pub use blif_lines::{BlifFault, LimitKind, ReadFault};
pub use reading::read;
