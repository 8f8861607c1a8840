//! The logical lines of a text: comments are cut, lines joined and lines without words skipped.
//!
//! Source: "Berkeley Logic Interchange Format (BLIF)", appendix of the SIS report (UCB/ERL M92/41).
//! `logical_lines` splits the text at byte 10, cuts each physical line before its first `#`, drops
//! carriage returns at its end and joins the next line to one that ends in `\`. The result is
//! exactly `lines_of` of `specs/Lines.antt`. Callers rely on its words: spans of the text, in
//! order, without overlap, none empty, and each line has at least one.

ghost use Rattle.std.specs.Prelude.{◌≡◌, List, map, ◌==◌, ◌+◌, ◌^◌, ◌<◌, ◌≤◌, ◌++◌, ◌∷◌, [], not, true, length, IfOk, OnOk};
ghost use Rattle.std.specs.List.{take_while, suffix_len, filter};
ghost use Rattle.sis_text.specs.declared.places.Span.{Span};
ghost use Rattle.sis_text.specs.Words.{bytes_at, parts_from};
ghost use Rattle.sis_base.specs.Written.{ends_open};
ghost use Rattle.sis_text.specs.Lines.{cut_comment, trim_returns, content, cut_joint, words_at, join_lines, has_words, lines_of};
ghost use Rattle.sis_text.specs.Joining.{current_line, resume};
ghost use Rattle.sis_text.specs.Entries.{entry_at, entries_of};
ghost use Rattle.sis_text.specs.Order.{AreInOrder, AreWordsOf, HaveWords, words_in, is_plain};

use crate::parting::{add_words, parts};
use crate::places::{Line, Lines, Span, Spans, bytes_at};
use sis_base::{Copied, Sequence};
use std::alloc::{AllocError, AllocFailed, Global};

/// The number of bytes before the first `#`.
fn front_len(line: &[u8]) -> usize
    ensures { result ≡ length (take_while (λ byte. not (byte == 35)) line.now) }
{
    line.iter().take_while(|byte| **byte != b'#').count()
}

/// The bytes before the first `#`.
#[tactic(auto, unfolding(crate::specs::Lines::cut_comment), using(crate::proofs::Steps::front_taken, std::proofs::lemmas::Grind::common_steps))]
pub(crate) fn cut_comment(line: &[u8]) -> &[u8]
    ensures value { result.now ≡ cut_comment line.now }
    ensures shorter { length result.now ≤ length line.now }
{
    &line[..front_len(line)]
}

/// The number of carriage returns at the end.
fn returns_len(text: &[u8]) -> usize
    ensures value { result ≡ suffix_len (λ byte. byte == 13) text.now }
    ensures within { result ≤ length text.now }
{
    text.iter().rev().take_while(|byte| **byte == b'\r').count()
}

/// `text` without the carriage returns at its end.
#[tactic(auto, unfolding(crate::specs::Lines::trim_returns))]
fn trim_returns(text: &[u8]) -> &[u8]
    ensures value { result.now ≡ trim_returns text.now }
    ensures shorter { length result.now ≤ length text.now }
{
    &text[..text.len() - returns_len(text)]
}

/// Whether the last byte is a `\`.
#[tactic(auto, using(crate::proofs::Steps::open_tested, crate::proofs::Steps::none_open))]
pub fn ends_open(text: &[u8]) -> bool
    ensures value { result ≡ ends_open text.now }
    ensures some { result ≡ true → 1 ≤ length text.now }
{
    !text.is_empty() && text[text.len() - 1] == b'\\'
}

/// `text` without a `\` at its end.
#[tactic(auto, unfolding(crate::specs::Lines::cut_joint))]
fn cut_joint(text: &[u8]) -> &[u8]
    ensures value { result.now ≡ cut_joint text.now }
    ensures shorter { length result.now ≤ length text.now }
{
    if ends_open(text) {
        &text[..text.len() - 1]
    } else {
        text
    }
}

/// What is kept of the physical line at `line`.
fn content_at(source: &[u8], line: Span) -> &[u8]
    ensures value { result.now ≡ content (bytes_at source.now line) }
    ensures within { line.place + length result.now < 2 ^ 64 }
{
    trim_returns(cut_comment(bytes_at(source, line)))
}

/// The open line, or a new one with this number.
#[tactic(auto, unfolding(crate::specs::Joining::current_line))]
fn current_line(alloc: Global, begun: Option<Line>, number: usize) -> Line
    ensures { result ≡ current_line begun number }
{
    match begun {
        Some(line) => line,
        None => Line {
            number,
            words: Sequence::new(alloc),
        },
    }
}

/// Appends `line` to `lines`, unless it has no words.
#[tactic(auto, unfolding(crate::specs::Lines::has_words), using(crate::proofs::Steps::empty_tested))]
pub(crate) fn finish(lines: &mut Lines, line: Line) -> Result<(), AllocFailed<Line>>
    ensures { OnOk result (lines.new ≡ lines.old ++ filter has_words (line ∷ [])) }
{
    if line.words.is_empty() {
        Ok(())
    } else {
        lines.push(line)
    }
}

/// The same line; its words are in memory of just their size.
fn fitted(alloc: Global, line: Line) -> Result<Line, AllocError>
    ensures { IfOk result (λ made. made ≡ line) }
{
    Ok(Line {
        number: line.number,
        words: line.words.copy(alloc)?,
    })
}

/// Adds one physical line to the open line, or to a new one, and returns the line that is open
/// after it.
fn take_line(
    lines: &mut Lines,
    alloc: Global,
    begun: Option<Line>,
    number: usize,
    source: &[u8],
    line: Span,
) -> Result<Option<Line>, AllocError>
    ensures { IfOk result (λ next. (rest : List Span) → lines.new ++ filter has_words
        (resume next (join_lines source.now (number + 1) rest)) ≡ lines.old ++ filter has_words
        (resume begun (join_lines source.now number (line ∷ rest)))) }
{
    let text = content_at(source, line);
    let mut taken = current_line(alloc, begun, number);
    add_words(&mut taken.words, line.place, cut_joint(text))?;
    if ends_open(text) {
        return Ok(Some(taken));
    }
    finish(lines, fitted(alloc, taken)?)?;
    Ok(None)
}

/// Appends the open line, if there is one, to `lines`.
#[tactic(auto, unfolding(crate::specs::Joining::resume, crate::specs::Lines::prepend))]
fn finish_last(lines: &mut Lines, begun: Option<Line>) -> Result<(), AllocFailed<Line>>
    ensures { OnOk result (lines.new ≡ lines.old ++ filter has_words (resume begun [])) }
{
    match begun {
        Some(line) => finish(lines, line),
        None => Ok(()),
    }
}

/// The logical lines of these physical lines.
#[tactic(auto, unfolding(crate::specs::Joining::resume), using(crate::proofs::Steps::join_lines_done, std::proofs::lemmas::Grind::common_steps))]
fn join(alloc: Global, source: &[u8], physical: &[Span]) -> Result<Lines, AllocError>
    ensures { IfOk result (λ lines. lines ≡ filter has_words (join_lines source.now 1 physical.now)) }
{
    let mut lines = Sequence::new(alloc);
    let mut begun = None;
    for i in 0..physical.len() {
        begun = take_line(&mut lines, alloc, begun, i + 1, source, physical[i])?;
    }
    finish_last(&mut lines, begun)?;
    Ok(lines)
}

/// The logical lines of a text, exactly.
#[tactic(auto, unfolding(crate::specs::Lines::lines_of))]
fn found_lines(alloc: Global, source: &[u8]) -> Result<Lines, AllocError>
    ensures { IfOk result (λ lines. lines ≡ lines_of source.now) }
{
    let physical = parts(alloc, b'\n', source)?;
    join(alloc, source, physical.as_slice())
}

/// The logical lines of a text: comments are cut, lines joined by `\` at their end, and lines
/// without words skipped. Spans are positions in `source`; physical lines are numbered from 1. The
/// words of all lines are in order and do not overlap; none is empty or has a blank, a line end or
/// a `#`.
pub fn logical_lines(alloc: Global, source: &[u8]) -> Result<Lines, AllocError>
    ensures value { IfOk result (λ lines. lines ≡ lines_of source.now) }
    ensures entries { IfOk result (λ lines. map (entry_at source.now) lines ≡ entries_of source.now) }
    ensures in_order { IfOk result (λ lines. AreInOrder 0 (length source.now) (words_in lines)) }
    ensures plain { IfOk result (λ lines. AreWordsOf is_plain source.now (words_in lines)) }
    ensures have_words { IfOk result (λ lines. HaveWords lines) }
{
    found_lines(alloc, source)
}
