//! The commands of a script.
//!
//! The command language is that of SIS (UCB/ERL M92/41) without quoting: `;` and line ends separate
//! commands, blanks separate words, and `#` begins a comment. `specs/Script.antt` lists the
//! commands, each with its options and the slots for its other words. `commands` returns exactly
//! the commands of that definition, each with its line.
#![tactic(auto)]

mod command;
mod forms;
mod grammar;
mod kinds;
mod laws;
mod script;

pub use command::{Change, Command, Commands, Op, RawWord, RawWords, ScriptFault, Style};
pub use forms::MOST_TABLES;
pub use laws::{bad_stays_bad, options_come_once, words_fit_slots};
pub use script::commands;
