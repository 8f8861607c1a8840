//! Spans of a text and lines of spans. A span is a position and a length; it borrows nothing, and
//! `bytes_at` and `texts_at` look up its bytes in the text, without any past the end.

ghost use Rattle.std.specs.Prelude.{◌≡◌, length, take, drop, map, IfOk};
ghost use Rattle.sis_text.specs.Words.{bytes_at};

use sis_base::{Copied, Sequence};
use std::alloc::{AllocError, Global};

/// A part of a text: `len` bytes from position `place` on.
#[derive(Clone, Copy, PartialEq, Eq, Debug)]
pub struct Span {
    pub place: usize,
    pub len: usize,
}

impl Copied for Span {
    fn copy(&self, _alloc: Global) -> Result<Self, AllocError> {
        Ok(*self)
    }
}

/// Spans in order.
pub type Spans = Sequence<Span>;

/// The words of a line, with the number of its first physical line.
#[derive(PartialEq, Debug, Drop)]
pub struct Line {
    pub number: usize,
    pub words: Spans,
}

/// Lines in order.
pub type Lines = Sequence<Line>;

/// The bytes of `source` in `span`; those past its end are left out.
#[tactic(auto, using(std::proofs::lemmas::List::take_min, std::proofs::lemmas::List::drop_min, std::proofs::lemmas::Grind::common_steps))]
pub fn bytes_at(source: &[u8], span: Span) -> &[u8]
    ensures { result.now ≡ take span.len (drop span.place source.now) }
{
    let rest = &source[span.place.min(source.len())..];
    &rest[..span.len.min(rest.len())]
}

/// The bytes of `source` in each of `spans`, in order.
pub fn texts_at<'a>(
    alloc: Global,
    source: &'a [u8],
    spans: &[Span],
) -> Result<Vec<&'a [u8]>, AllocError>
    ensures { IfOk result (λ texts. map (λ text. text.now) texts.items ≡ map
        (bytes_at source.now) spans.now) }
{
    let mut texts = Vec::with_capacity(alloc, spans.len())?;
    for span in spans {
        texts.push(bytes_at(source, *span))?;
    }
    Ok(texts)
}
