//! The lines of a KISS2 part and those beside it, as slices of the lines of a text.
//!
//! Source: BLIF appendix of the SIS report (UCB/ERL M92/41): a state table is between `.start_kiss`
//! and `.end_kiss`; without `.end_kiss` the part goes to the end of the file. The line that begins
//! the part belongs to the model, the one that ends it to neither. `part_last` moves the part's lines
//! behind all others, so that these are one slice; it gives exactly the lines of `specs/Parts.antt`.

ghost use Rattle.std.specs.Prelude.{◌≡◌, ◌≤◌, ◌+◌, not, map, length, take, drop, take_while};
ghost use Rattle.sis_text.specs.declared.places.Line.{Line};
ghost use Rattle.sis_text.specs.Entries.{entry_at};
ghost use Rattle.line_words.specs.LineWords.{first_word};
ghost use Rattle.blif_lines.specs.Keyword.{kind_of};
ghost use Rattle.blif_lines.specs.Lines.{begins_kiss};
ghost use Rattle.blif_read.specs.Parts.{ends_kiss, front_count, front_lines, ended_lines, rest_lines, lines_beside};

use sis_text::{Line, bytes_at};

/// The first word of a logical line of a text.
fn first_word<'a>(source: &'a [u8], line: &Line) -> &'a [u8]
    ensures { result.now ≡ first_word (entry_at source.now line.now).words }
{
    match line.words.as_slice() {
        [] => b"".as_slice(),
        [first, ..] => bytes_at(source, *first),
    }
}

/// Whether a logical line of a text begins a KISS2 part.
#[tactic(auto, using(crate::proofs::PartLines::begins_by_word), unfolding(blif_lines::specs::Keyword::kind_of))]
fn begins_kiss(source: &[u8], line: &Line) -> bool
    ensures { result ≡ begins_kiss (kind_of (entry_at source.now line.now)) }
{
    first_word(source, line) == b".start_kiss".as_slice()
}

/// Whether a logical line of a text ends a KISS2 part.
fn ends_kiss(source: &[u8], line: &Line) -> bool
    ensures { result ≡ ends_kiss (entry_at source.now line.now) }
{
    first_word(source, line) == b".end_kiss".as_slice()
}

/// The number of lines before the first that begins a KISS2 part.
fn begin_place(source: &[u8], lines: &[Line]) -> usize
    ensures { result ≡ length (take_while (λ (line : Line). not
        (begins_kiss (kind_of (entry_at source.now line)))) lines.now) }
{
    lines
        .iter()
        .take_while(|line| !begins_kiss(source, line))
        .count()
}

/// The number of lines before the first that ends a KISS2 part.
fn end_place(source: &[u8], lines: &[Line]) -> usize
    ensures { result ≡ length (take_while (λ (line : Line). not
        (ends_kiss (entry_at source.now line))) lines.now) }
{
    lines
        .iter()
        .take_while(|line| !ends_kiss(source, line))
        .count()
}

/// The lines up to and including that of an index.
#[tactic(auto, using(crate::proofs::PartLines::all_to))]
fn lines_to(lines: &[Line], place: usize) -> &[Line]
    ensures { result.now ≡ take (place + 1) lines.now }
{
    if place < lines.len() {
        &lines[..place + 1]
    } else {
        lines
    }
}

/// The lines after that of an index.
#[tactic(auto, using(crate::proofs::PartLines::none_behind))]
fn lines_behind(lines: &[Line], place: usize) -> &[Line]
    ensures { result.now ≡ drop (place + 1) lines.now }
{
    if place < lines.len() {
        &lines[place + 1..]
    } else {
        &[]
    }
}

/// The lines after the first that begins a KISS2 part; none if no line does.
fn lines_behind_begin<'a>(source: &[u8], lines: &'a [Line]) -> &'a [Line]
    ensures { map (entry_at source.now) result.now ≡ drop
        (front_count (map (entry_at source.now) lines.now)) (map (entry_at source.now) lines.now) }
{
    lines_behind(lines, begin_place(source, lines))
}

/// The lines up to and including the first that begins a KISS2 part; all lines if none begins one.
fn front_lines<'a>(source: &[u8], lines: &'a [Line]) -> &'a [Line]
    ensures { map (entry_at source.now) result.now ≡ front_lines
        (map (entry_at source.now) lines.now) }
{
    lines_to(lines, begin_place(source, lines))
}

/// The lines before the first that ends a KISS2 part; all lines if none ends one.
pub fn lines_before_end<'a>(source: &[u8], lines: &'a [Line]) -> &'a [Line]
    ensures { map (entry_at source.now) result.now ≡ take_while (λ line. not (ends_kiss line))
        (map (entry_at source.now) lines.now) }
{
    &lines[..end_place(source, lines)]
}

/// The lines after the one that ends the KISS2 part.
fn rest_lines<'a>(source: &[u8], lines: &'a [Line]) -> &'a [Line]
    ensures { map (entry_at source.now) result.now ≡ rest_lines
        (map (entry_at source.now) lines.now) }
{
    let rest = lines_behind_begin(source, lines);
    lines_behind(rest, end_place(source, rest))
}

/// Moves the lines of the KISS2 part, with the one that ends it, behind all others, and returns the
/// number of the others.
pub fn part_last(source: &[u8], lines: &mut [Line]) -> usize
    ensures within { result ≤ length lines.new }
    ensures beside { map (entry_at source.now) (take result lines.new) ≡ lines_beside
        (map (entry_at source.now) lines.old) }
    ensures part { map (entry_at source.now) (drop result lines.new) ≡ ended_lines
        (map (entry_at source.now) lines.old) }
{
    let front = front_lines(source, lines).len();
    let rest = rest_lines(source, lines).len();
    let moved = lines.len() - front - rest;
    lines[front..].rotate_left(moved);
    lines.len() - moved
}
