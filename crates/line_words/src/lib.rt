//! The words of a line, as readers take them and writers write them.
//!
//! This is what the readers and the writers of the line formats of SIS (report UCB/ERL M92/41: BLIF
//! and KISS2) share: the first word of a line and the others, names and cube characters of words,
//! and how a line of words is written. The results are exactly those of `specs/LineWords.antt` and
//! of the base crate's `specs/Written.antt`. If memory runs out, what was borrowed stays as it was.
#![tactic(auto)]

mod putting;
mod taking;

pub use putting::{end_line, put_characters, put_word};
pub use taking::{
    add_names, are_characters, characters, first_word, long_name, name_of, other_words,
};
