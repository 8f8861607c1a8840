//! A store in memory that fails at planned calls: the test double of a file system.
//!
//! The state is the files, the plan of failures and counts of faults and misses
//! (`specs/MemStore.antt`). A planned load fails; a planned save fails after it has saved a prefix
//! of its bytes. Loads and saves are numbered together, from 0. No other call fails, except that
//! memory may run out. Each answer is also within the promises of `Store`.

ghost use Rattle.std.specs.Prelude.{◌≡◌, ◌-◌, ◌^◌, ◌<◌, true, OnOk, OnErr};
ghost use Rattle.std.specs.FinMap as map;
ghost use Rattle.std.specs.Option.{option_map};
ghost use Rattle.sis_outside.specs.Calls.{StoreKeeps, Load, Save, bytes_of};
ghost use Rattle.sis_outside.specs.Files.{file_at, with_file};
ghost use Rattle.sis_outside.specs.MemStore.{LoadsByPlan, SavesByPlan};
ghost use Rattle.sis_outside.specs.Plan.{with_failure, nothing_planned};

use crate::mem_files::{MemFiles, copied_within};
use crate::plan::Plan;
use crate::store::{LoadFault, SaveFault, Store};
use std::alloc::{AllocError, Global};
use std::marker::Model;

/// A store that keeps its files, and fails at planned calls.
#[derive(Drop)]
pub struct MemStore {
    files: MemFiles,
    plan: Plan,
    faults: u64,
    misses: u64,
}

impl Model for MemStore {
    ghost use Rattle.sis_outside.specs.MemStore.{StoreState, state_code};

    ghost Value = { StoreState };

    ghost coded = { state_code };

    ghost view = { λ s. record
        { files = s.files; schedule = s.plan; faults = s.faults; misses = s.misses } };
}

impl MemStore {
    /// A store without files, with no planned failure; takes no memory.
    pub fn new(alloc: Global) -> Self
        ensures { result ≡ record
            { files = map.empty; schedule = nothing_planned; faults = 0; misses = 0 } }
    {
        MemStore {
            files: MemFiles::new(alloc),
            plan: Plan::new(alloc),
            faults: 0,
            misses: 0,
        }
    }

    /// Sets the file of a name, also in place of an old one; the plan does not count this call.
    pub fn put_file(&mut self, name: &str, bytes: &[u8]) -> Result<(), AllocError>
        ensures ok { OnOk result (self.new ≡ record self.old
            { files = with_file self.old.files name.now bytes.now }) }
        ensures err { OnErr result (self.new ≡ self.old) }
    {
        self.files.put(name, bytes)
    }

    /// Plans that the load or save of this number, counted from 0 over both, fails: a save after
    /// `passes` of its bytes, a load without any.
    pub fn fail_at(&mut self, call: usize, passes: usize) -> Result<(), AllocError>
        ensures ok { OnOk result (self.new ≡ record self.old
            { schedule = with_failure self.old.schedule call passes }) }
        ensures err { OnErr result (self.new ≡ self.old) }
    {
        self.plan.add(call, passes)
    }

    /// The bytes of the file of a name, if there is one.
    pub fn file(&self, name: &str) -> Option<&[u8]>
        ensures { option_map (λ bytes. bytes.now) result ≡ file_at self.now.files name.now }
    {
        self.files.find(name)
    }

    /// The number of loads and saves that failed, at most the greatest `u64`.
    pub fn faults(&self) -> u64
        ensures { result ≡ self.now.faults }
    {
        self.faults
    }

    /// The number of loads that found no file of their name, at most the greatest `u64`.
    pub fn misses(&self) -> u64
        ensures { result ≡ self.now.misses }
    {
        self.misses
    }
}

impl Store for MemStore {
    ghost tells = { λ _. true };

    ghost files = { λ s. s.files };

    ghost faults = { λ s. s.faults };

    ghost misses = { λ s. s.misses };

    ghost calls = { StoreKeeps (λ s. true) (λ s. s.files) (λ s. s.faults) (λ s. s.misses) };

    ghost keeps = { λ old call new kept. kept };

    fn load(&mut self, alloc: Global, name: &str, max: usize) -> Result<Vec<u8>, LoadFault>
        requires { max < 2 ^ 64 - 1 }
        ensures calls { StoreKeeps (λ s. true) (λ s. s.files) (λ s. s.faults)
            (λ s. s.misses) self.old (Load name.now max (bytes_of result)) self.new }
        ensures plan { LoadsByPlan self.old result self.new }
    {
        match self.plan.next_call() {
            Some(_) => {
                self.faults = self.faults.saturating_add(1);
                Err(LoadFault::Failed)
            }
            None => match self.files.find(name) {
                None => {
                    self.misses = self.misses.saturating_add(1);
                    Err(LoadFault::Missing)
                }
                Some(bytes) => copied_within(alloc, bytes, max),
            },
        }
    }

    fn save(&mut self, name: &str, bytes: &[u8]) -> Result<(), SaveFault>
        ensures calls { StoreKeeps (λ s. true) (λ s. s.files) (λ s. s.faults)
            (λ s. s.misses) self.old (Save name.now bytes.now result) self.new }
        ensures plan { SavesByPlan self.old name.now bytes.now result self.new }
    {
        match self.plan.next_call() {
            None => match self.put_file(name, bytes) {
                Ok(()) => Ok(()),
                Err(_) => Err(SaveFault::Memory),
            },
            Some(passes) => {
                if self
                    .put_file(name, &bytes[..passes.min(bytes.len())])
                    .is_err()
                {
                    return Err(SaveFault::Memory);
                }
                self.faults = self.faults.saturating_add(1);
                Err(SaveFault::Failed)
            }
        }
    }
}
