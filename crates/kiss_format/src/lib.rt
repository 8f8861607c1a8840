//! KISS2 tables (SIS report, UCB/ERL M92/41): read as machines, and written.
//!
//! Each line is a statement (`specs/Statements.antt`). `specs/Lines.antt` says what statements tell,
//! and what is wrong with a line after others; `specs/Reader.antt` says what must hold of the whole
//! table, and which machine the lines describe. `read` returns exactly that machine or the first
//! fault. What is read is sound. `laws` says that what is written is read again: a table has no
//! names of ports, so these are made (`specs/Trips.antt`).
//!
//! `machine_text` appends exactly the definition's text (`text_of` of `circuit_model`,
//! `specs/MachineText.antt`): header lines, a line for each row, an end. Rows are compared for
//! clashes (De Micheli, "Synthesis and Optimization of Digital Circuits", chapter 9) in groups by
//! their current states (`specs/Groups.antt`): a row of one state with those of its own group and
//! with those of every state. The rows found are those of the definition, the first later one and
//! the first one before it that it clashes with.
#![tactic(auto)]

mod draft;
mod fault;
mod finding;
mod groups;
mod headers;
mod keyword;
pub mod laws;
mod line_fault;
mod number;
mod reading;
mod statement;
mod states;
mod whole;
mod writing;

pub use fault::{KissFault, LimitKind, ReadFault};
pub use headers::{inputs_line, outputs_line};
pub use keyword::Keyword;
pub use reading::{read, read_lines};
pub use writing::machine_text;
