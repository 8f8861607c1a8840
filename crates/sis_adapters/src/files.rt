//! The real files as a store, which shows no contents and counts its faults and misses.
//!
//! A load reads pieces of 64 KiB until the end of the file, and stops once it has more than `max`
//! bytes. A save writes a new file next to the old one, which replaces it once it is complete
//! (`replacing`). What a file contains is trusted, not proved: the contracts bound the length of
//! what a load returns and say when the counts rise.

ghost use Rattle.std.specs.Prelude.{◌≡◌, ◌<◌, ◌-◌, ◌^◌, ℕ, false, IsTrue};
ghost use Rattle.std.specs.FinMap.{empty};
ghost use Rattle.sis_outside.specs.Calls.{IsLoadWithin, StoreKeeps, bytes_of};

use crate::replacing::save_file;
use sis_outside::{LoadFault, SaveFault, Store};
use std::alloc::Global;
use std::fs;
use std::io::{ErrorKind, Read};
use std::rt::Files;

/// How many bytes one read asks for.
const PIECE: usize = 65_536;

/// A store over the files of the runtime, by their paths.
#[derive(Drop)]
pub struct RealStore<'a, R: Files> {
    alloc: Global,
    rt: &'a R,
    faults: u64,
    misses: u64,
}

impl<'a, R: Files> RealStore<'a, R> {
    /// The store of the files of a runtime; takes no memory.
    pub fn new(alloc: Global, rt: &'a R) -> Self {
        RealStore {
            alloc,
            rt,
            faults: 0,
            misses: 0,
        }
    }
}

/// Reads a whole file of at most `max` bytes.
fn read_whole<F: Read>(alloc: Global, file: &mut F, max: usize) -> Result<Vec<u8>, LoadFault>
    requires { max < 2 ^ 64 - 1 }
    ensures { IsLoadWithin max (bytes_of result) }
{
    let mut bytes = Vec::new(alloc);
    let mut piece = [0u8; PIECE];
    while bytes.len() <= max {
        match file.read(&mut piece) {
            Ok(0) => return Ok(bytes),
            Ok(count) => {
                if bytes.extend_from_slice(&piece[..count]).is_err() {
                    return Err(LoadFault::Memory);
                }
            }
            Err(_) => return Err(LoadFault::Failed),
        }
    }
    Err(LoadFault::TooLong(max + 1))
}

impl<R: Files> Store for RealStore<'_, R> {
    ghost tells = { λ _. false };

    ghost files = { λ _. empty };

    ghost faults = { λ store. store.faults };

    ghost misses = { λ store. store.misses };

    ghost calls = { StoreKeeps (λ _. false) (λ _. empty) (λ store. store.faults)
        (λ store. store.misses) };

    ghost keeps = { λ old call new kept. kept };

    fn load(&mut self, alloc: Global, name: &str, max: usize) -> Result<Vec<u8>, LoadFault> {
        let loaded = match fs::open(self.rt, name) {
            Ok(mut file) => read_whole(alloc, &mut file, max),
            Err(error) if error.kind() == ErrorKind::NotFound => Err(LoadFault::Missing),
            Err(_) => Err(LoadFault::Failed),
        };
        match loaded {
            Err(LoadFault::Missing) => self.misses = self.misses.saturating_add(1),
            Err(LoadFault::Failed) => self.faults = self.faults.saturating_add(1),
            _ => {}
        }
        loaded
    }

    fn save(&mut self, name: &str, bytes: &[u8]) -> Result<(), SaveFault> {
        let Ok(beside) = format!(in self.alloc; "{name}.sis-new") else {
            return Err(SaveFault::Memory);
        };
        if save_file(self.rt, name, beside.as_str(), bytes) {
            return Ok(());
        }
        self.faults = self.faults.saturating_add(1);
        Err(SaveFault::Failed)
    }
}

#[cfg(test)]
mod tests {
    use super::*;
    use std::test::Fail;

    #[test]
    fn files_are_saved_and_loaded(rt: HostRuntime) -> Result<(), Fail> {
        let alloc = rt.alloc();
        let mut store = RealStore::new(alloc, &rt);
        store.save("kept", b"12345")?;
        store.save("kept", b"abc")?;
        assert_eq!(rt; store.load(alloc, "kept", 3)?.as_slice(), b"abc".as_slice());
        assert_eq!(rt;
            store.load(alloc, "kept", 2).err(),
            Some(LoadFault::TooLong(3))
        );
        assert_eq!(rt;
            store.load(alloc, "none", 9).err(),
            Some(LoadFault::Missing)
        );
        assert_eq!(rt;
            store.load(alloc, "kept.sis-new", 9).err(),
            Some(LoadFault::Missing)
        );
        assert_eq!(rt; store.save("no/folder", b"x"), Err(SaveFault::Failed));
        assert_eq!(rt; (store.faults, store.misses), (1, 2));
        Ok(())
    }
}
