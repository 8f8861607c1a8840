//! What a line of a text is, by its first word, and the names of models that lines have.
//!
//! Source: BLIF appendix of the SIS report (UCB/ERL M92/41): `.model NAME` begins a model,
//! `.subckt MODEL` puts one in, `.exdc` begins a don't-care part. All results are slices of the
//! text.

ghost use Rattle.std.specs.Prelude.{◌≡◌, map, drop};
ghost use Rattle.sis_text.specs.Entries.{entry_at};
ghost use Rattle.sis_text.specs.Words.{bytes_at};
ghost use Rattle.line_words.specs.LineWords.{first_word, other_words};
ghost use Rattle.blif_lines.specs.Keyword.{kind_of};
ghost use Rattle.blif_lines.specs.Lines.{begins_part, is_node_kind};
ghost use Rattle.blif_lines.specs.Reader.{named_by};
ghost use Rattle.blif_lines.specs.declared.keyword.Keyword.TheVariants as keyword;
ghost use Rattle.blif_models.specs.Models.{begins_model, is_instance, model_of};

use blif_lines::{Keyword, keyword_of};
use sis_text::{Line, Span, bytes_at};

/// The first of some words; no bytes if there is none.
pub fn first_of<'a>(text: &'a [u8], words: &[Span]) -> &'a [u8]
    ensures { result.now ≡ first_word (map (bytes_at text.now) words.now) }
{
    match words {
        [] => b"".as_slice(),
        [first, ..] => bytes_at(text, *first),
    }
}

/// The kind of a line.
#[tactic(auto, unfolding(blif_lines::specs::Keyword::kind_of))]
pub fn kind_at(text: &[u8], line: &Line) -> Keyword
    ensures { result ≡ kind_of (entry_at text.now line.now) }
{
    keyword_of(first_of(text, line.words.as_slice()))
}

/// Whether a line is that of a table, a latch or a gate.
pub fn is_node(text: &[u8], line: &Line) -> bool
    ensures { result ≡ is_node_kind (kind_of (entry_at text.now line.now)) }
{
    match kind_at(text, line) {
        Keyword::Names | Keyword::Latch | Keyword::Gate => true,
        _ => false,
    }
}

/// Whether a line begins a model.
pub fn begins_model(text: &[u8], line: &Line) -> bool
    ensures { result ≡ begins_model (entry_at text.now line.now) }
{
    match kind_at(text, line) {
        Keyword::Model => true,
        _ => false,
    }
}

/// Whether a line puts in an instance of a model.
pub fn is_instance(text: &[u8], line: &Line) -> bool
    ensures { result ≡ is_instance (entry_at text.now line.now) }
{
    match kind_at(text, line) {
        Keyword::Subckt => true,
        _ => false,
    }
}

/// Whether a line begins a don't-care part.
pub fn begins_part(text: &[u8], line: &Line) -> bool
    ensures { result ≡ begins_part (kind_of (entry_at text.now line.now)) }
{
    match kind_at(text, line) {
        Keyword::DontCare => true,
        _ => false,
    }
}

/// The items after the first.
pub fn behind<T>(items: &[T]) -> &[T]
    ensures { result.now ≡ drop 1 items.now }
{
    match items {
        [] => items,
        [_, others @ ..] => others,
    }
}

/// The name of the model of an instance.
#[tactic(auto, using(crate::proofs::FirstWords::words_behind))]
pub fn model_of<'a>(text: &'a [u8], line: &Line) -> &'a [u8]
    ensures { result.now ≡ model_of (entry_at text.now line.now) }
{
    first_of(text, behind(line.words.as_slice()))
}

/// The name in the words after `.model`; `top` if there is none.
fn name_in<'a>(text: &'a [u8], words: &[Span]) -> &'a [u8]
    ensures { result.now ≡ named_by keyword.Model (map (bytes_at text.now) words.now) }
{
    match words {
        [] => b"top".as_slice(),
        [name, ..] => bytes_at(text, *name),
    }
}

/// The name of a model, by its first line.
#[tactic(auto, using(crate::proofs::FirstWords::words_behind, crate::proofs::FirstWords::named_beside, crate::proofs::FirstWords::named_model))]
pub fn name_on<'a>(text: &'a [u8], line: &Line) -> &'a [u8]
    ensures { result.now ≡ named_by (kind_of (entry_at text.now line.now))
        (other_words (entry_at text.now line.now).words) }
{
    if !begins_model(text, line) {
        return b"top".as_slice();
    }
    name_in(text, behind(line.words.as_slice()))
}
