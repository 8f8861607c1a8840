//! The words of a library file, each with the number of its line. A `#` begins a comment that runs
//! to the end of its line; blanks and line ends separate words (`specs/Words.antt`).

ghost use Rattle.std.specs.Prelude.{◌≡◌, ◌==◌, ◌≤◌, ◌++◌, length, map, IfOk, OnOk};
ghost use Rattle.std.specs.List.{slice_split};
ghost use Rattle.genlib_expr.specs.Texts.{texts};
ghost use Rattle.genlib_format.specs.Words.{before, behind, line_words, words_in};

use sis_base::Name;
use sis_text::{bytes_at, words};
use std::alloc::{AllocError, Global};

/// A word with the number of its line, from 1 on.
#[derive(Debug, Drop)]
pub struct Lined {
    pub line: usize,
    pub word: Name,
}

/// The number of bytes before the first mark.
#[tactic(auto, unfolding(crate::specs::Words::before))]
pub(crate) fn front_len(mark: u8, text: &[u8]) -> usize
    ensures value { result ≡ length (before mark text.now) }
    ensures within { result ≤ length text.now }
{
    text.iter().take_while(|byte| **byte != mark).count()
}

/// The bytes before the first mark.
#[tactic(auto, using(crate::proofs::Steps::before_taken))]
pub(crate) fn before(mark: u8, text: &[u8]) -> &[u8]
    ensures { result.now ≡ before mark text.now }
{
    &text[..front_len(mark, text)]
}

/// The bytes after the first mark; none if there is no mark.
#[tactic(auto, unfolding(crate::specs::Words::behind), using(std::proofs::lemmas::List::drop_min, std::proofs::lemmas::Grind::common_steps))]
pub(crate) fn behind(mark: u8, text: &[u8]) -> &[u8]
    ensures { result.now ≡ behind mark text.now }
{
    &text[(front_len(mark, text) + 1).min(text.len())..]
}

/// Appends the words of one line.
#[tactic(auto, unfolding(crate::specs::Words::line_words, crate::specs::Words::lined), using(crate::proofs::Steps::spans_more, crate::proofs::Steps::spans_done, std::proofs::lemmas::Grind::common_steps))]
fn add_line(
    found: &mut Vec<Lined>,
    alloc: Global,
    number: usize,
    line: &[u8],
) -> Result<(), AllocError>
    ensures { OnOk result (found.new.items ≡ found.old.items ++ line_words number line.now) }
{
    let text = before(b'#', line);
    let spans = words(alloc, text)?;
    for span in spans.as_slice() {
        let word = Name::from_slice(alloc, bytes_at(text, *span))?;
        found.push(Lined { line: number, word })?;
    }
    Ok(())
}

/// The lines of a text.
fn lines_of(alloc: Global, source: &[u8]) -> Result<Vec<&[u8]>, AllocError>
    ensures { IfOk result (λ lines. texts lines.items ≡ slice_split (λ byte. byte == 10) source.now) }
{
    source.split(|byte| *byte == b'\n').collect(alloc)
}

/// The words of a library file, in order: comments are cut, and blanks and line ends separate
/// words.
#[tactic(auto, unfolding(crate::specs::Words::words_in), using(crate::proofs::Steps::words_more, crate::proofs::Steps::words_done, std::proofs::lemmas::Grind::common_steps))]
pub fn words_of(alloc: Global, source: &[u8]) -> Result<Vec<Lined>, AllocError>
    ensures { IfOk result (λ found. found.items ≡ words_in source.now) }
{
    let lines = lines_of(alloc, source)?;
    let mut found = Vec::new(alloc);
    for i in 0..lines.len() {
        add_line(&mut found, alloc, i + 1, lines[i])?;
    }
    Ok(found)
}
