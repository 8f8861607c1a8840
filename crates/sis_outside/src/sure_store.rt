//! A store in memory that never fails: its count of faults is always 0. A load may miss its file,
//! and memory may run out.

ghost use Rattle.std.specs.Prelude.{◌≡◌, ◌-◌, ◌^◌, ◌<◌, true, OnOk, OnErr};
ghost use Rattle.std.specs.FinMap as map;
ghost use Rattle.std.specs.Option.{option_map};
ghost use Rattle.sis_outside.specs.Calls.{StoreKeeps, Load, Save, bytes_of};
ghost use Rattle.sis_outside.specs.Files.{file_at, with_file};

use crate::mem_files::{MemFiles, copied_within};
use crate::store::{LoadFault, SaveFault, Store};
use std::alloc::{AllocError, Global};
use std::marker::Model;

/// A store that keeps its files, and never fails unless memory runs out.
#[derive(Drop)]
pub struct SureStore {
    files: MemFiles,
    misses: u64,
}

impl Model for SureStore {
    ghost use Rattle.sis_outside.specs.Sure.{SureFiles, sure_code};

    ghost Value = { SureFiles };

    ghost coded = { sure_code };

    ghost view = { λ s. record { files = s.files; misses = s.misses } };
}

impl SureStore {
    /// A store without files; takes no memory.
    pub fn new(alloc: Global) -> Self
        ensures { result ≡ record { files = map.empty; misses = 0 } }
    {
        SureStore {
            files: MemFiles::new(alloc),
            misses: 0,
        }
    }

    /// Sets the file of a name, also in place of an old one.
    pub fn put_file(&mut self, name: &str, bytes: &[u8]) -> Result<(), AllocError>
        ensures ok { OnOk result (self.new ≡ record self.old
            { files = with_file self.old.files name.now bytes.now }) }
        ensures err { OnErr result (self.new ≡ self.old) }
    {
        self.files.put(name, bytes)
    }

    /// The bytes of the file of a name, if there is one.
    pub fn file(&self, name: &str) -> Option<&[u8]>
        ensures { option_map (λ bytes. bytes.now) result ≡ file_at self.now.files name.now }
    {
        self.files.find(name)
    }

    /// The number of loads that found no file of their name, at most the greatest `u64`.
    pub fn misses(&self) -> u64
        ensures { result ≡ self.now.misses }
    {
        self.misses
    }
}

impl Store for SureStore {
    ghost tells = { λ _. true };

    ghost files = { λ s. s.files };

    ghost faults = { λ _. 0 };

    ghost misses = { λ s. s.misses };

    ghost calls = { StoreKeeps (λ _. true) (λ s. s.files) (λ _. 0) (λ s. s.misses) };

    ghost keeps = { λ old call new kept. kept };

    fn load(&mut self, alloc: Global, name: &str, max: usize) -> Result<Vec<u8>, LoadFault> {
        match self.files.find(name) {
            None => {
                self.misses = self.misses.saturating_add(1);
                Err(LoadFault::Missing)
            }
            Some(bytes) => copied_within(alloc, bytes, max),
        }
    }

    fn save(&mut self, name: &str, bytes: &[u8]) -> Result<(), SaveFault> {
        match self.files.put(name, bytes) {
            Ok(()) => Ok(()),
            Err(_) => Err(SaveFault::Memory),
        }
    }
}
