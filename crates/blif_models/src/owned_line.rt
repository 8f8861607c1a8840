//! A logical line with words of its own, as a line of an instance has them outside of it.
//!
//! Contracts see an `OwnedLine` as its `Entry`: the number and the words by their bytes.

ghost use Rattle.std.specs.Prelude.{◌≡◌, ◌∷◌, [], IfOk};
ghost use Rattle.sis_text.specs.Entries.{entry_at};
ghost use Rattle.line_words.specs.LineWords.{texts, first_word, other_words};
ghost use Rattle.blif_lines.specs.Keyword.{kind_of};

use blif_lines::{Keyword, keyword_of};
use circuit_model::{Name, Names};
use line_words::{add_names, name_of};
use sis_base::{Copied, Sequence};
use sis_text::{Line, texts_at};
use std::alloc::{AllocError, Global};
use std::marker::Model;

/// A line with words of its own; contracts see its number and its words.
#[derive(Drop)]
pub struct OwnedLine {
    number: usize,
    words: Names,
}

impl Model for OwnedLine {
    ghost use Rattle.sis_text.specs.Entries.{Entry};

    ghost Value = { Entry };

    ghost view = { λ line. record { number = line.number; words = line.words } };
}

/// The first of some words; no bytes if there is none.
fn first_of(words: &[Name]) -> &[u8]
    ensures { result.now ≡ first_word words.now }
{
    match words {
        [] => b"".as_slice(),
        [first, ..] => first.as_slice(),
    }
}

/// The words after the first.
fn others_of(words: &[Name]) -> &[Name]
    ensures { result.now ≡ other_words words.now }
{
    match words {
        [] => words,
        [_, others @ ..] => others,
    }
}

/// Words as slices.
pub fn slices_of<'w>(alloc: Global, words: &'w [Name]) -> Result<Vec<&'w [u8]>, AllocError>
    ensures { IfOk result (λ slices. texts slices.items ≡ words.now) }
{
    let mut slices = Vec::with_capacity(alloc, words.len())?;
    for word in words {
        slices.push(word.as_slice())?;
    }
    Ok(slices)
}

impl OwnedLine {
    /// The line of these words.
    pub fn new(number: usize, words: Names) -> OwnedLine
        ensures { result ≡ record { number = number; words = words } }
    {
        OwnedLine { number, words }
    }

    /// A line of a text.
    pub fn from_text(alloc: Global, text: &[u8], line: &Line) -> Result<OwnedLine, AllocError>
        ensures { IfOk result (λ made. made ≡ entry_at text.now line.now) }
    {
        let slices = texts_at(alloc, text, line.words.as_slice())?;
        let mut words = Sequence::new(alloc);
        add_names(alloc, &mut words, slices.as_slice())?;
        Ok(OwnedLine::new(line.number, words))
    }

    /// The number of the line.
    pub fn number(&self) -> usize
        ensures { result ≡ self.now.number }
    {
        self.number
    }

    /// The words.
    pub fn words(&self) -> &[Name]
        ensures { result.now ≡ self.now.words }
    {
        self.words.as_slice()
    }

    /// The words after the first.
    pub fn others(&self) -> &[Name]
        ensures { result.now ≡ other_words self.now.words }
    {
        others_of(self.words())
    }

    /// The kind of the line.
    #[tactic(auto, unfolding(blif_lines::specs::Keyword::kind_of))]
    pub fn kind(&self) -> Keyword
        ensures { result ≡ kind_of self.now }
    {
        keyword_of(first_of(self.words()))
    }

    /// The first word alone.
    pub fn first_alone(&self, alloc: Global) -> Result<Names, AllocError>
        ensures { IfOk result (λ words. words ≡ first_word self.now.words ∷ []) }
    {
        let mut words = Sequence::new(alloc);
        words.push(name_of(alloc, first_of(self.words()))?)?;
        Ok(words)
    }

    /// A copy of the line.
    pub fn copy(&self, alloc: Global) -> Result<OwnedLine, AllocError>
        ensures { IfOk result (λ made. made ≡ self.now) }
    {
        let words = self.words.copy(alloc)?;
        Ok(OwnedLine::new(self.number, words))
    }
}
