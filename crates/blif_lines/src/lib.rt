//! Reads the logical lines of a model in the Berkeley Logic Interchange Format (appendix of the SIS
//! report, UCB/ERL M92/41): ports, clocks, latches, tables and gates in any order, and a don't-care
//! part, as a circuit; or, if a KISS2 part begins and the model itself has no table, latch, gate or
//! `.subckt` line, the head of a machine.
//!
//! `specs/Lines.antt` says what is wrong with a line, given the lines before it;
//! `specs/Reader.antt` what must hold of the whole, and what the lines describe. `read_lines`
//! returns exactly that or the first fault; `reading_laws` has the laws of what is read. A gate is
//! read as its table, by the given library. A `.subckt` line is checked by itself and says nothing
//! more of the model: in a file of several models the lines of an instance stand in its place. The
//! lines inside a KISS2 part are not lines of the model. The code takes line after line into a
//! draft (`specs/Steps.antt`); a proof for all lists of lines says that its steps agree with the
//! definition.
#![tactic(auto)]

mod content;
mod draft;
mod fault;
mod file_fault;
mod gate_words;
mod keyword;
mod latch_words;
mod line_fault;
mod part;
mod ports;
mod reading;
pub mod reading_laws;
mod row;
mod settling;
mod subckt_words;
mod word_list;

pub use content::{Content, Head};
pub use draft::Draft;
pub use fault::{BlifFault, LimitKind, ReadFault};
pub use keyword::Keyword;
pub use ports::names_beside;
pub use reading::{finish, read_lines, take_line, take_lines};
pub use word_list::{first_words, front_words, keyword_of, last_word, latch_output};
