//! The words of a line, and the parts of a text between marks, as spans of the text.
//!
//! Source: the BLIF appendix of the SIS report (UCB/ERL M92/41): tabs, carriage returns and spaces
//! separate words. `words` returns the longest runs of other bytes, in order and without overlap.
//! `parts` splits a text at a mark; there is no part after a mark at the very end. Both results are
//! exactly those of `specs/Words.antt`.

ghost use Rattle.std.specs.Prelude.{◌≡◌, ◌==◌, ◌+◌, ◌*◌, ◌^◌, ◌<◌, ◌++◌, not, true, length, IfOk, OnOk};
ghost use Rattle.sis_base.specs.Written.{is_blank};
ghost use Rattle.sis_text.specs.Words.{word_len, words_from, words_of, part_len, parts_from};
ghost use Rattle.sis_text.specs.Order.{AreInOrder, AreWordsOf, is_solid};

use crate::places::{Span, Spans};
use sis_base::Sequence;
use std::alloc::{AllocError, AllocFailed, Global};

/// Whether a byte is a tab, a carriage return or a space.
fn is_blank(byte: u8) -> bool
    ensures { result ≡ is_blank byte }
{
    byte == b'\t' || byte == b'\r' || byte == b' '
}

/// The number of bytes before the first blank.
#[tactic(auto, unfolding(crate::specs::Words::word_len))]
fn word_len(bytes: &[u8]) -> usize
    ensures { result ≡ word_len bytes.now }
{
    bytes.iter().take_while(|byte| !is_blank(**byte)).count()
}

/// The number of bytes before the first mark.
#[tactic(auto, unfolding(crate::specs::Words::part_len))]
fn part_len(mark: u8, bytes: &[u8]) -> usize
    ensures { result ≡ part_len mark bytes.now }
{
    bytes.iter().take_while(|byte| **byte != mark).count()
}

/// Appends the words of `line`, whose bytes begin at position `place`, to `found`.
#[tactic(auto, using(crate::proofs::Steps::words_more, crate::proofs::Steps::words_done, std::proofs::lemmas::Grind::common_steps))]
pub(crate) fn add_words(
    found: &mut Spans,
    place: usize,
    line: &[u8],
) -> Result<(), AllocFailed<Span>>
    requires { place + length line.now < 2 ^ 64 }
    ensures { OnOk result (found.new ≡ found.old ++ words_from place true line.now) }
{
    let mut after_blank = true;
    for i in 0..line.len() {
        let blank = is_blank(line[i]);
        if after_blank && !blank {
            found.push(Span {
                place: place + i,
                len: word_len(&line[i..]),
            })?;
        }
        after_blank = blank;
    }
    Ok(())
}

/// Appends the parts of `text` between marks, whose bytes begin at position `place`, to `found`.
#[tactic(auto, using(crate::proofs::Steps::parts_more, crate::proofs::Steps::parts_done, std::proofs::lemmas::Grind::common_steps))]
pub(crate) fn add_parts(
    found: &mut Spans,
    mark: u8,
    place: usize,
    text: &[u8],
) -> Result<(), AllocFailed<Span>>
    requires { place + length text.now < 2 ^ 64 }
    ensures { OnOk result (found.new ≡ found.old ++ parts_from mark place true text.now) }
{
    let mut after_mark = true;
    for i in 0..text.len() {
        if after_mark {
            found.push(Span {
                place: place + i,
                len: part_len(mark, &text[i..]),
            })?;
        }
        after_mark = text[i] == mark;
    }
    Ok(())
}

/// The words of one line, exactly.
fn found_words(alloc: Global, line: &[u8]) -> Result<Spans, AllocError>
    ensures { IfOk result (λ found. found ≡ words_of line.now) }
{
    let mut found = Sequence::new(alloc);
    add_words(&mut found, 0, line)?;
    Ok(found)
}

/// The words of one line, as spans of it: the longest runs of bytes other than tab, carriage return
/// and space. They are in order and do not overlap, and each is such a run.
pub fn words(alloc: Global, line: &[u8]) -> Result<Spans, AllocError>
    ensures value { IfOk result (λ found. found ≡ words_of line.now) }
    ensures in_order { IfOk result (λ found. AreInOrder 0 (length line.now) found) }
    ensures solid { IfOk result (λ found. AreWordsOf is_solid line.now found) }
{
    found_words(alloc, line)
}

/// The parts of a text between marks, as spans of it.
pub(crate) fn parts(alloc: Global, mark: u8, text: &[u8]) -> Result<Spans, AllocError>
    ensures { IfOk result (λ found. found ≡ parts_from mark 0 true text.now) }
{
    let mut found = Sequence::new(alloc);
    add_parts(&mut found, mark, 0, text)?;
    Ok(found)
}
