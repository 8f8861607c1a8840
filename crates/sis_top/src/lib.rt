//! The top call of the program: the words of a command line, the script that they give, its run
//! over files and outputs, and the status.
//!
//! The commands are those of SIS (UCB/ERL M92/41) that are implemented so far. `run_sis` promises
//! that a call is a list of turns of the command machine (`specs/Machine.antt`), that each object
//! of the outside went by exactly the calls of these turns, whether it shows its contents or not,
//! and that all that is written refines what was read last (`specs/Call.antt`). It follows what is
//! counted under each status, and that all is done if files and input are shown and every turn is
//! served (`specs/Laws.antt`).
//!
//! The words are `-k`, and the script by `-f FILE`, `-c TEXT` or neither. The crate `clap` parses
//! them, and its result is its own stated function (`specs/Shell.antt`). `read_words` promises the
//! options that this function gives (`specs/Asked.antt`), and Usage exactly if clap refuses the
//! words or both `-f` and `-c` are given. `word_laws` says that words that spell options ask for
//! exactly those, and which other words are refused (`specs/Usual.antt`).
//!
//! Modules: `shell`, `options` and `reading` (the words), `beginning` and `input` (the script that
//! they ask for), `halt` (why a work was not done), `running` (all turns of a run), `status`, `top`
//! (the words, the run and the last line), `laws`.
#![tactic(auto)]

mod beginning;
mod halt;
mod input;
mod laws;
mod options;
mod reading;
mod running;
mod shell;
mod status;
mod top;
mod word_laws;

pub use laws::{
    copies_are_served, runs_are_one, runs_keep_refinement, served_runs_refuse_nothing,
    told_runs_are_one,
};
pub use options::{Options, ScriptFrom, WordsFault};
pub use reading::read_words;
pub use sis_text::Word;
pub use status::Status;
pub use top::{run_recorded, run_sis};
pub use word_laws::{options_are_asked_for, other_words_are_refused};
