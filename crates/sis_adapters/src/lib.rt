//! The real files and streams as the store, the source and the sinks of the program, and its
//! arguments as words.
//!
//! The clauses of `Store`, `Source` and `Sink` (sis_outside) promise the form of each answer, and
//! that each call that fails or misses is counted. The adapters show no contents: what a real file
//! or stream contains is trusted and not proved. Neither is how a save preserves the old file
//! (`replacing`).
#![tactic(auto)]

mod arguments;
mod files;
mod replacing;
mod streams;

pub use arguments::{behind_name, words_of};
pub use files::RealStore;
pub use streams::{StdSink, StdSource};
