//! A set of words of a text that keeps the order of insertion. Words are looked up by their bytes,
//! which are not copied.

ghost use Rattle.std.specs.Prelude.{◌≡◌, true, [], ◌∷◌, OnOk};
ghost use Rattle.circuit_model.specs.Names.{has};
ghost use Rattle.circuit_tables.specs.Listing.{names_with};
ghost use Rattle.line_words.specs.LineWords.{texts};

use indexmap::IndexSet;
use std::alloc::{AllocError, Global};
use std::marker::Model;

/// Distinct words; contracts see the list of them in the order of insertion.
pub struct WordSet<'a> {
    words: IndexSet<&'a [u8]>,
}

// By hand, so that functions that own a set drop it in one call.
impl<'a> Drop for WordSet<'a> {
    fn drop(self) {
        let WordSet { words: _words } = self;
    }
}

impl<'a> Model for WordSet<'a> {
    ghost use Rattle.std.specs.Prelude.{List, ℕ, map};

    ghost Value = { List (List ℕ) };

    ghost view = { λ set. map (λ word. word.now) set.words.keys };
}

/// Whether two lists have the same words in the same order.
fn are_same(words: &[&[u8]], others: &[&[u8]]) -> bool
    ensures { result ≡ true → texts words.now ≡ texts others.now }
{
    words == others
}

impl<'a> WordSet<'a> {
    /// The empty set; allocates nothing.
    pub fn new(alloc: Global) -> Self
        ensures { result ≡ [] }
    {
        WordSet {
            words: IndexSet::new(alloc),
        }
    }

    /// The words, in the order of insertion.
    pub fn words(&self) -> &[&'a [u8]]
        ensures { texts result.now ≡ self.now }
    {
        self.words.as_slice()
    }

    /// Whether a word is in the set.
    pub fn holds(&self, word: &[u8]) -> bool
        ensures { result ≡ has self.now word.now }
    {
        self.words.contains(word)
    }

    /// Whether two sets have the same words in the same order.
    pub fn is_same(&self, other: &WordSet<'_>) -> bool
        ensures { result ≡ true → self.now ≡ other.now }
    {
        are_same(self.words(), other.words())
    }

    /// Adds a word, if it is not in the set yet.
    pub fn add(&mut self, word: &'a [u8]) -> Result<(), AllocError>
        ensures { OnOk result (self.new ≡ names_with self.old (word.now ∷ [])) }
    {
        let _new = self.words.insert(word)?;
        Ok(())
    }

    /// Adds those words that are not in the set yet.
    #[tactic(auto, using(std::proofs::lemmas::Grind::common_steps), unfolding(circuit_tables::specs::Listing::names_with))]
    pub fn add_all(&mut self, words: &[&'a [u8]]) -> Result<(), AllocError>
        ensures { OnOk result (self.new ≡ names_with self.old (texts words.now)) }
    {
        for word in words {
            self.add(word)?;
        }
        Ok(())
    }
}
