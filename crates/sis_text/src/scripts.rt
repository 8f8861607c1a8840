//! The pieces of a command script: physical lines without comments, split at `;`.
//!
//! Source: the command scripts of the SIS report (UCB/ERL M92/41). No lines are joined, and pieces
//! without words are skipped. The result is exactly `pieces_of` of `specs/Pieces.antt`: each piece
//! has the number of its physical line, from 1 on. Callers rely on the words: spans in order,
//! without overlap, each nonempty and without a blank, a line end, a `#` or a `;`.

ghost use Rattle.std.specs.Prelude.{◌≡◌, ◌+◌, ◌++◌, ◌∷◌, [], length, map, IfOk, OnOk};
ghost use Rattle.std.specs.List.{filter};
ghost use Rattle.sis_text.specs.Lines.{has_words};
ghost use Rattle.sis_text.specs.Pieces.{piece_at, line_pieces, pieces_from, pieces_of};
ghost use Rattle.sis_text.specs.Entries.{entry_at, script_entries_of};
ghost use Rattle.sis_text.specs.Order.{AreInOrder, AreWordsOf, HaveWords, words_in, is_script_plain};

use crate::joining::{cut_comment, finish};
use crate::parting::{add_parts, add_words, parts};
use crate::places::{Line, Lines, Span, bytes_at};
use sis_base::Sequence;
use std::alloc::{AllocError, Global};

/// Appends one piece to `lines`, unless it has no words.
#[tactic(auto, unfolding(crate::specs::Pieces::piece_at))]
fn add_piece(
    lines: &mut Lines,
    alloc: Global,
    number: usize,
    source: &[u8],
    part: Span,
) -> Result<(), AllocError>
    ensures { OnOk result (lines.new ≡ lines.old ++ filter has_words
        (piece_at source.now number part ∷ [])) }
{
    let mut words = Sequence::new(alloc);
    add_words(&mut words, part.place, bytes_at(source, part))?;
    finish(lines, Line { number, words })?;
    Ok(())
}

/// Appends the pieces of these parts to `lines`.
#[tactic(auto, using(crate::proofs::Steps::kept_more, crate::proofs::Steps::kept_done, std::proofs::lemmas::Grind::common_steps))]
fn add_pieces(
    lines: &mut Lines,
    alloc: Global,
    number: usize,
    source: &[u8],
    parts: &[Span],
) -> Result<(), AllocError>
    ensures { OnOk result (lines.new ≡ lines.old ++ filter has_words
        (map (piece_at source.now number) parts.now)) }
{
    for i in 0..parts.len() {
        add_piece(lines, alloc, number, source, parts[i])?;
    }
    Ok(())
}

/// Appends the pieces of one physical line to `lines`.
#[tactic(auto, unfolding(crate::specs::Pieces::line_pieces))]
fn add_line(
    lines: &mut Lines,
    alloc: Global,
    number: usize,
    source: &[u8],
    line: Span,
) -> Result<(), AllocError>
    ensures { OnOk result (lines.new ≡ lines.old ++ filter has_words
        (line_pieces source.now number line)) }
{
    let mut found = Sequence::new(alloc);
    add_parts(
        &mut found,
        b';',
        line.place,
        cut_comment(bytes_at(source, line)),
    )?;
    add_pieces(lines, alloc, number, source, found.as_slice())?;
    Ok(())
}

/// The pieces of these physical lines.
#[tactic(auto, using(crate::proofs::Steps::pieces_more, crate::proofs::Steps::pieces_done, std::proofs::lemmas::Grind::common_steps))]
fn pieces(alloc: Global, source: &[u8], physical: &[Span]) -> Result<Lines, AllocError>
    ensures { IfOk result (λ lines. lines ≡ filter has_words
        (pieces_from source.now 1 physical.now)) }
{
    let mut lines = Sequence::new(alloc);
    for i in 0..physical.len() {
        add_line(&mut lines, alloc, i + 1, source, physical[i])?;
    }
    Ok(lines)
}

/// The pieces of a script, exactly.
#[tactic(auto, unfolding(crate::specs::Pieces::pieces_of))]
fn found_pieces(alloc: Global, source: &[u8]) -> Result<Lines, AllocError>
    ensures { IfOk result (λ lines. lines ≡ pieces_of source.now) }
{
    let physical = parts(alloc, b'\n', source)?;
    pieces(alloc, source, physical.as_slice())
}

/// The pieces of a script, each with the number of its physical line, from 1 on. Lines are cut
/// before the first `#` and split at `;`; nothing is joined, and pieces without words are skipped.
/// Spans are positions in `source`. The words of all pieces are in order and do not overlap; none
/// is empty or has a blank, a line end, a `#` or a `;`.
pub fn script_pieces(alloc: Global, source: &[u8]) -> Result<Lines, AllocError>
    ensures value { IfOk result (λ lines. lines ≡ pieces_of source.now) }
    ensures entries { IfOk result (λ lines. map (entry_at source.now) lines
        ≡ script_entries_of source.now) }
    ensures in_order { IfOk result (λ lines. AreInOrder 0 (length source.now) (words_in lines)) }
    ensures plain { IfOk result (λ lines. AreWordsOf is_script_plain source.now (words_in lines)) }
    ensures have_words { IfOk result (λ lines. HaveWords lines) }
{
    found_pieces(alloc, source)
}
