//! The words of a library file that are left to read.
//!
//! A `Rest` is the list of words and the index of the next; the invariant is that the index is at
//! most their number, and contracts see the words from it on. `statement` reads the text up to the
//! first `;`, with a blank before each word; what follows the `;` in its word stays as a word of
//! its own (`specs/Statements.antt`).

ghost use Rattle.std.specs.Prelude.{◌≡◌, ◌<◌, ◌≤◌, ◌==◌, ◌∷◌, List, Some, length, drop, option_map, IfOk};
ghost use Rattle.genlib_format.specs.declared.words.Lined.{Lined as TheLined};
ghost use Rattle.genlib_format.specs.Statements.{has_end, whole_words, text_of, ended, statement_at};

use crate::words::{Lined, before, behind, front_len};
use sis_base::Name;
use std::alloc::{AllocError, Global};
use std::marker::Model;

/// Words that are left, which contracts see as their list.
#[derive(Drop)]
pub struct Rest {
    words: Vec<Lined>,
    place: usize,
}

impl Model for Rest {
    ghost use Rattle.std.specs.Prelude.{List, drop, ◌≤◌, length};
    ghost use Rattle.genlib_format.specs.declared.words.Lined.{Lined};

    ghost Value = { List Lined };

    ghost view = { λ rest. drop rest.place rest.words.items };

    ghost invariant = { λ rest. rest.place ≤ length rest.words.items };
}

/// Whether a word has a `;`.
#[tactic(auto, unfolding(crate::specs::Statements::has_end))]
fn has_end(lined: &Lined) -> bool
    ensures { result ≡ has_end lined.now }
{
    front_len(b';', lined.word.as_slice()) < lined.word.len()
}

/// The number of words before the first with a `;`.
fn whole_len(words: &[Lined]) -> usize
    ensures value { result ≡ length (whole_words words.now) }
    ensures within { result ≤ length words.now }
{
    words.iter().take_while(|lined| !has_end(*lined)).count()
}

/// A text of words, a blank before each.
#[tactic(auto, unfolding(crate::specs::Statements::text_of), using(crate::proofs::Statements::text_more, crate::proofs::Statements::text_done, std::proofs::lemmas::Grind::common_steps))]
fn text_of(alloc: Global, words: &[Lined]) -> Result<Vec<u8>, AllocError>
    ensures { IfOk result (λ text. text.items ≡ text_of words.now) }
{
    let mut text = Vec::new(alloc);
    for lined in words {
        text.push(b' ')?;
        text.extend_from_slice(lined.word.as_slice())?;
    }
    Ok(text)
}

impl Rest {
    /// All these words.
    pub fn new(words: Vec<Lined>) -> Rest
        ensures { result ≡ words.items }
    {
        Rest { words, place: 0 }
    }

    /// The words that are left.
    pub fn ahead(&self) -> &[Lined]
        ensures { result.now ≡ self.now }
    {
        &self.words[self.place..]
    }

    /// Skips so many words.

    pub fn skip(&mut self, count: usize)
        requires { count ≤ length self.old }
        ensures { self.new ≡ drop count self.old }
    {
        self.place += count;
    }

    /// Replaces the first word.

    fn put_first(&mut self, word: Name)
        requires { 0 < length self.old }
        ensures { (first : TheLined) (others : List TheLined) → self.old ≡ first ∷ others → self.new
            ≡ record { line = first.line; word = word } ∷ others }
    {
        self.words[self.place].word = word;
    }

    /// Reads the word with the first `;`, and returns the text up to there.
    #[tactic(auto, unfolding(crate::specs::Statements::ended, crate::specs::Statements::left_behind))]
    fn end(&mut self, alloc: Global, front: Vec<u8>) -> Result<Vec<u8>, AllocError>
        requires { 0 < length self.old }
        ensures { IfOk result (λ text. ended front.items self.old ≡ Some
            (record { made = text.items; rest = self.new })) }
    {
        let mut text = front;
        let word = self.ahead()[0].word.as_slice();
        text.push(b' ')?;
        text.extend_from_slice(before(b';', word))?;
        let left = behind(b';', word);
        if left.is_empty() {
            self.skip(1);
        } else {
            let left = Name::from_slice(alloc, left)?;
            self.put_first(left);
        }
        Ok(text)
    }

    /// Reads the words up to the first `;`, and returns their text, with a blank before each word;
    /// none if there is no `;`.
    #[tactic(auto, unfolding(crate::specs::Statements::statement_at), using(crate::proofs::Statements::none_ends, std::proofs::lemmas::Grind::common_steps))]
    pub fn statement(&mut self, alloc: Global) -> Result<Option<Vec<u8>>, AllocError>
        ensures { IfOk result (λ found. statement_at self.old ≡ option_map
            (λ text. record { made = text.items; rest = self.new }) found) }
    {
        let whole = whole_len(self.ahead());
        if whole == self.ahead().len() {
            return Ok(None);
        }
        let front = text_of(alloc, &self.ahead()[..whole])?;
        self.skip(whole);
        Ok(Some(self.end(alloc, front)?))
    }
}
