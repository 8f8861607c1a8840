//! Objects of the outside one of whose calls wants memory: the test doubles of an allocation that
//! fails.
//!
//! `Wanting` wraps a source or a sink; its contents and counts are those of the object inside, and
//! each answer is within the promises of the trait. `TrialStore` does the same over a `MemStore`,
//! and also keeps the names under which files were to be saved, each once.

ghost use Rattle.std.specs.Prelude.{true};
ghost use Rattle.sis_outside.specs.Calls.{SinkKeeps, SourceKeeps, StoreKeeps};

use sis_outside::{LoadFault, MemStore, PutFault, SaveFault, Sink, Source, Store, TakeFault};
use std::alloc::{AllocError, Global};

/// Counts a call, and returns whether it wants memory: `left` is how many calls come before the one
/// that does.
fn wants_memory(left: &mut Option<usize>) -> bool {
    let now = *left;
    *left = now.and_then(|count| count.checked_sub(1));
    now == Some(0)
}

/// A source or a sink one of whose calls may want memory.
#[derive(Drop)]
pub struct Wanting<T> {
    pub object: T,
    pub want: Option<usize>,
}

impl<T> Wanting<T> {
    /// An object none of whose calls wants memory.
    pub fn new(object: T) -> Self {
        Wanting { object, want: None }
    }
}

impl<I: Source> Source for Wanting<I> {
    ghost tells = { λ s. I.tells s.object };

    ghost left = { λ s. I.left s.object };

    ghost faults = { λ s. I.faults s.object };

    ghost calls = { SourceKeeps (λ s. I.tells s.object) (λ s. I.left s.object) (λ s. I.faults s.object) };

    ghost keeps = { λ old call new kept. kept };

    fn take(&mut self, alloc: Global, max: usize) -> Result<Vec<u8>, TakeFault> {
        if wants_memory(&mut self.want) {
            return Err(TakeFault::Memory);
        }
        self.object.take(alloc, max)
    }
}

impl<O: Sink> Sink for Wanting<O> {
    ghost tells = { λ s. O.tells s.object };

    ghost written = { λ s. O.written s.object };

    ghost faults = { λ s. O.faults s.object };

    ghost calls = { SinkKeeps (λ s. O.tells s.object) (λ s. O.written s.object) (λ s. O.faults s.object) };

    ghost keeps = { λ old call new kept. kept };

    fn put(&mut self, piece: &[u8]) -> Result<(), PutFault> {
        if wants_memory(&mut self.want) {
            return Err(PutFault::Memory);
        }
        self.object.put(piece)
    }
}

/// Whether a name is among names.
pub fn is_among(names: &[String], name: &str) -> bool {
    names.iter().any(|known| known.as_str() == name)
}

/// Appends a name to names, unless it is among them.
fn keep(alloc: Global, names: &mut Vec<String>, name: &str) -> Result<(), AllocError> {
    if !is_among(names.as_slice(), name) {
        names.push(String::from_str(alloc, name)?)?;
    }
    Ok(())
}

/// A store that keeps the names under which files were to be saved, each once, and one of whose
/// calls may want memory.
#[derive(Drop)]
pub struct TrialStore {
    alloc: Global,
    pub files: MemStore,
    pub saved: Vec<String>,
    pub want: Option<usize>,
}

impl TrialStore {
    /// A store without files.
    pub fn new(alloc: Global) -> Self {
        TrialStore {
            alloc,
            files: MemStore::new(alloc),
            saved: Vec::new(alloc),
            want: None,
        }
    }
}

impl Store for TrialStore {
    ghost tells = { λ _. true };

    ghost files = { λ s. s.files.files };

    ghost faults = { λ s. s.files.faults };

    ghost misses = { λ s. s.files.misses };

    ghost calls = { StoreKeeps (λ _. true) (λ s. s.files.files) (λ s. s.files.faults) (λ s. s.files.misses) };

    ghost keeps = { λ old call new kept. kept };

    fn load(&mut self, alloc: Global, name: &str, max: usize) -> Result<Vec<u8>, LoadFault> {
        if wants_memory(&mut self.want) {
            return Err(LoadFault::Memory);
        }
        self.files.load(alloc, name, max)
    }

    fn save(&mut self, name: &str, bytes: &[u8]) -> Result<(), SaveFault> {
        if keep(self.alloc, &mut self.saved, name).is_err() || wants_memory(&mut self.want) {
            return Err(SaveFault::Memory);
        }
        self.files.save(name, bytes)
    }
}
