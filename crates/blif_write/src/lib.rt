//! The text of a circuit and of a netlist, and that they are read again.
//!
//! The form is that of the Berkeley Logic Interchange Format (appendix of the SIS report, UCB/ERL
//! M92/41): lines of words with one blank between, in a fixed order. `circuit_text` appends exactly
//! the definition's text (`text_of` of `circuit_model`), and `netlist_text` that of a netlist
//! (`netlist_text_of` of `netlist`), which has a line for each gate between latches and tables;
//! `table_text`, `tables_text` and `latches_text` return the lines that these have in that text.
//! `trip`: what is written is read back as the circuit that it was, or that the netlist denotes.
#![tactic(auto)]

pub mod trip;
mod writing;

pub use writing::{circuit_text, latches_text, netlist_text, table_text, tables_text};
