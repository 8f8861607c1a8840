//! Lines and words of a text, each word as a span of it, the pieces of a script, and owned words.
//!
//! `logical_lines` follows the Berkeley Logic Interchange Format (appendix of the SIS report,
//! UCB/ERL M92/41): a `#` hides the rest of its physical line, carriage returns that are then last
//! are dropped, and a line whose last byte is then `\` is joined with the next. Spaces, tabs and
//! carriage returns separate words, and so does such a joint. `script_pieces` splits the physical
//! lines of a command script at `;` and joins nothing. Lines and pieces without words are left out.
//!
//! The spans are exactly those of the definitions (`specs/Lines.antt`, `specs/Pieces.antt`), in
//! order and inside the text, and each is a word; `specs/Entries.antt` has their bytes instead.
//! Lines of words, written as the base crate says (its `specs/Written.antt`), are read back
//! unchanged. `ReadFault` says why a reader of a text fails.
#![tactic(auto)]

mod decimal;
mod joining;
mod laws;
mod parting;
mod places;
mod read_fault;
mod scripts;
mod word;

pub use decimal::{Decimal, are_digits, number_of};
pub use joining::{ends_open, logical_lines};
pub use laws::{entries_are_proper, written_lines_are_read};
pub use parting::words;
pub use places::{Line, Lines, Span, Spans, bytes_at, texts_at};
pub use read_fault::ReadFault;
pub use scripts::script_pieces;
pub use word::Word;
