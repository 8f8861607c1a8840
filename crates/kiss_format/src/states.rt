//! The states that rows name, in order of first mention, looked up by their names.
//!
//! A `StateNames` is a set of different names; contracts see their list, and the index of a name is
//! the number of its state. `mention_both` adds the states of a row, without `*`, `ANY` and `-`,
//! which stand for every state or an open one (`specs/Lines.antt`). `state` returns the number of a
//! word's state, and none for those words.

ghost use Rattle.std.specs.Prelude.{◌≡◌, [], ◌∷◌, not, length, IfOk, OnOk};
ghost use Rattle.std.specs.List.{filter};
ghost use Rattle.circuit_model.specs.MachineSoundness.{is_any};
ghost use Rattle.kiss_format.specs.Statements.{named};
ghost use Rattle.kiss_format.specs.Lines.{with_state, with_states, place_of, state_of};

use circuit_model::{Name, Names};
use indexmap::IndexSet;
use line_words::name_of;
use sis_base::{Copied, Sequence};
use std::alloc::{AllocError, Global};
use std::marker::Model;

/// Different names. Contracts see their list, in order of first mention.
#[derive(Drop)]
pub struct StateNames {
    names: IndexSet<Name>,
}

impl Model for StateNames {
    ghost use Rattle.std.specs.Prelude.{List, ℕ};

    ghost Value = { List (List ℕ) };

    ghost view = { λ states. states.names.keys };
}

/// Whether a word means every state, or an open one.
pub fn is_any(word: &[u8]) -> bool
    ensures { result ≡ is_any word.now }
{
    word == b"*".as_slice() || word == b"ANY".as_slice() || word == b"-".as_slice()
}

impl StateNames {
    /// No states; takes no memory.
    pub fn new(alloc: Global) -> Self
        ensures { result ≡ [] }
    {
        StateNames {
            names: IndexSet::new(alloc),
        }
    }

    /// How many states there are.
    pub fn len(&self) -> usize
        ensures { result ≡ length self.now }
    {
        self.names.len()
    }

    /// Adds a name if it is new.
    #[tactic(auto, unfolding(crate::specs::Lines::with_state))]
    fn add(&mut self, name: Name) -> Result<(), AllocError>
        ensures { OnOk result (self.new ≡ with_state self.old name) }
    {
        let _added = self.names.insert(name)?;
        Ok(())
    }

    /// Adds the state that a word names, if it is new.
    #[tactic(auto, unfolding(crate::specs::Lines::with_states))]
    fn mention(&mut self, alloc: Global, word: &[u8]) -> Result<(), AllocError>
        ensures { OnOk result (self.new ≡ with_states self.old
            (filter (λ one. not (is_any one)) (word.now ∷ []))) }
    {
        if is_any(word) {
            return Ok(());
        }
        self.add(name_of(alloc, word)?)
    }

    /// Adds the states that two words name, if they are new.
    #[tactic(auto, unfolding(crate::specs::Lines::with_states))]
    pub fn mention_both(
        &mut self,
        alloc: Global,
        current: &[u8],
        next: &[u8],
    ) -> Result<(), AllocError>
        ensures { OnOk result (self.new ≡ with_states self.old (named current.now next.now)) }
    {
        self.mention(alloc, current)?;
        self.mention(alloc, next)
    }

    /// The index of a name; none if it is missing.
    pub fn place(&self, name: &Name) -> Option<usize>
        ensures { result ≡ place_of self.now name.now }
    {
        self.names.get_index_of(name)
    }

    /// The state of a word of a row; none for a word of every state.
    pub fn state(&self, alloc: Global, word: &[u8]) -> Result<Option<usize>, AllocError>
        ensures { IfOk result (λ state. state ≡ state_of self.now word.now) }
    {
        if is_any(word) {
            return Ok(None);
        }
        let name = name_of(alloc, word)?;
        Ok(self.place(&name))
    }

    /// The names, in order.
    pub fn to_names(&self, alloc: Global) -> Result<Names, AllocError>
        ensures { IfOk result (λ names. names ≡ self.now) }
    {
        let mut names = Sequence::new(alloc);
        for name in self.names.as_slice() {
            names.push(name.copy(alloc)?)?;
        }
        Ok(names)
    }
}
