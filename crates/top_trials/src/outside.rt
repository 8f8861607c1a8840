//! The objects of the outside of a call, as the parts of a case describe them.
//!
//! `take_parts` does what each part says: a file in the store, a text on the input, a limit on its
//! pieces, a call that fails after some bytes, or one that runs out of memory. A part that the
//! trials do not know is a bad case. A part that describes a call of a run (`failing`) changes
//! nothing here.

use crate::parts::Part;
use crate::wanting::{TrialStore, Wanting};
use sis_outside::{MemSink, MemSource};
use std::alloc::{AllocError, Global};
use trial_cases::{CaseFault, number_of};

/// The objects of the outside.
pub struct Outside {
    pub store: TrialStore,
    pub input: Wanting<MemSource>,
    pub out: Wanting<MemSink>,
    pub err: Wanting<MemSink>,
}

// Written by hand, so that dropping them is one call.
impl Drop for Outside {
    fn drop(self) {
        let Outside {
            store: _store,
            input: _input,
            out: _out,
            err: _err,
        } = self;
    }
}

impl Outside {
    /// No file, no input, and no call that fails.
    pub fn new(alloc: Global) -> Result<Self, AllocError> {
        let input = MemSource::new(alloc, b"")?;
        Ok(Outside {
            store: TrialStore::new(alloc),
            input: Wanting::new(input),
            out: Wanting::new(MemSink::new(alloc)),
            err: Wanting::new(MemSink::new(alloc)),
        })
    }

    /// Does what the parts of a case say.
    pub fn take_parts(&mut self, alloc: Global, parts: &[Part<'_>]) -> Result<(), CaseFault> {
        for part in parts {
            self.take_part(alloc, part)?;
        }
        Ok(())
    }

    /// Does what a part says; one without a word, or with a call of a run, says nothing.
    fn take_part(&mut self, alloc: Global, part: &Part<'_>) -> Result<(), CaseFault> {
        match part.word(0) {
            "" => Ok(()),
            "file" => self.put_file(alloc, part),
            "input" => self.put_input(alloc, part),
            "fail" => self.fail(part),
            "want" => self.want(part),
            "load" | "save" | "take" | "out" | "err" => Ok(()),
            _ => Err(CaseFault::Bad),
        }
    }

    /// Puts a file into the store.
    fn put_file(&mut self, alloc: Global, part: &Part<'_>) -> Result<(), CaseFault> {
        let name = part.name(alloc)?;
        let text = part.text(alloc)?;
        Ok(self.store.files.put_file(name.as_str(), text.as_slice())?)
    }

    /// Puts a text on the input.
    fn put_input(&mut self, alloc: Global, part: &Part<'_>) -> Result<(), CaseFault> {
        let text = part.text(alloc)?;
        self.input.object = MemSource::new(alloc, text.as_slice())?;
        self.limit_pieces(part.word(1))
    }

    /// Limits the pieces of the input to the length in a word, if there is one.
    fn limit_pieces(&mut self, word: &str) -> Result<(), CaseFault> {
        if word.is_empty() {
            return Ok(());
        }
        let most = number_of(word)?;
        if most == 0 {
            return Err(CaseFault::Bad);
        }
        self.input.object.limit_pieces(most);
        Ok(())
    }

    /// Plans that a call of an object fails after so many bytes.
    fn fail(&mut self, part: &Part<'_>) -> Result<(), CaseFault> {
        let call = number_of(part.word(2))?;
        self.fail_at(part.word(1), call, number_of(part.word(3))?)
    }

    /// Plans that the call of this number of an object fails after so many bytes.
    pub fn fail_at(&mut self, object: &str, call: usize, passes: usize) -> Result<(), CaseFault> {
        match object {
            "store" => Ok(self.store.files.fail_at(call, passes)?),
            "input" => Ok(self.input.object.fail_at(call, passes)?),
            "out" => Ok(self.out.object.fail_at(call, passes)?),
            "err" => Ok(self.err.object.fail_at(call, passes)?),
            _ => Err(CaseFault::Bad),
        }
    }

    /// Plans that a call of an object wants memory.
    fn want(&mut self, part: &Part<'_>) -> Result<(), CaseFault> {
        let call = number_of(part.word(2))?;
        match part.word(1) {
            "store" => self.store.want = Some(call),
            "input" => self.input.want = Some(call),
            "out" => self.out.want = Some(call),
            "err" => self.err.want = Some(call),
            _ => return Err(CaseFault::Bad),
        }
        Ok(())
    }
}
