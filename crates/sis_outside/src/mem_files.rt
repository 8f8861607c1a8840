//! Files in memory, as the in-memory stores keep them.
//!
//! Contracts see the files as a finite map from names to contents (`specs/Files.antt`); names are
//! compared byte by byte. The entries are a list whose first entry of a name counts, and a new file
//! is inserted at its front. An old file of the same name keeps its entry, but no contract sees it.
//! `copied_within` answers a load of at most `max` bytes.

ghost use Rattle.std.specs.Prelude.{◌≡◌, ◌-◌, ◌^◌, ◌<◌, false, IfOk, OnOk, OnErr};
ghost use Rattle.std.specs.Ordering.{nat_cmp};
ghost use Rattle.std.specs.Cmp.Lexicographic.{slice_cmp};
ghost use Rattle.std.specs.FinMap as map;
ghost use Rattle.std.specs.Option.{option_map};
ghost use Rattle.sis_outside.specs.Calls.{IsLoadWithin, Tells, bytes_of, load_failed, load_missed};
ghost use Rattle.sis_outside.specs.Files.{file_at, with_file};

use crate::store::LoadFault;
use std::alloc::{AllocError, Global};
use std::marker::Model;

/// A file. Contracts see it as the bytes of its name and its contents.
#[derive(Drop)]
struct Entry {
    name: String,
    bytes: Vec<u8>,
}

impl Model for Entry {
    ghost use Rattle.std.specs.Prelude.{ℕ, List, string_bytes};

    ghost Value = { List ℕ × List ℕ };

    ghost view = { λ e. (string_bytes e.name, e.bytes.items) };
}

impl Entry {
    fn new(alloc: Global, name: &str, bytes: &[u8]) -> Result<Self, AllocError>
        ensures { IfOk result (λ made. made ≡ (name.now, bytes.now)) }
    {
        Ok(Entry {
            name: String::from_str(alloc, name)?,
            bytes: bytes.to_vec(alloc)?,
        })
    }

    fn name(&self) -> &str
        ensures { result.now ≡ self.now.0 }
    {
        self.name.as_str()
    }

    fn bytes(&self) -> &[u8]
        ensures { result.now ≡ self.now.1 }
    {
        self.bytes.as_slice()
    }
}

/// Files by name. Contracts see them as the map from names to contents.
#[derive(Drop)]
pub struct MemFiles {
    alloc: Global,
    entries: Vec<Entry>,
}

impl Model for MemFiles {
    ghost use Rattle.std.specs.FinMap.{from_entries};
    ghost use Rattle.sis_outside.specs.Files.{Files, files_code};

    ghost Value = { Files };

    ghost coded = { files_code };

    ghost view = { λ f. from_entries f.entries.items };
}

/// The bytes of the first entry of this name.
fn first_of<'a>(entries: &'a [Entry], name: &str) -> Option<&'a [u8]>
    ensures { option_map (λ bytes. bytes.now) result ≡ map.find
        (slice_cmp nat_cmp) name.now entries.now }
{
    for entry in entries {
        if name == entry.name() {
            return Some(entry.bytes());
        }
    }
    None
}

/// A copy of a file's bytes, or `TooLong` if there are more than `max`.
pub fn copied_within(alloc: Global, bytes: &[u8], max: usize) -> Result<Vec<u8>, LoadFault>
    requires { max < 2 ^ 64 - 1 }
    ensures tells { Tells (Some bytes.now) max (bytes_of result) }
    ensures within { IsLoadWithin max (bytes_of result) }
    ensures unfailed { load_failed (bytes_of result) ≡ false }
    ensures unmissed { load_missed (bytes_of result) ≡ false }
{
    if bytes.len() > max {
        return Err(LoadFault::TooLong(max + 1));
    }
    match bytes.to_vec(alloc) {
        Ok(copy) => Ok(copy),
        Err(_) => Err(LoadFault::Memory),
    }
}

impl MemFiles {
    /// No files; takes no memory.
    pub fn new(alloc: Global) -> Self
        ensures { result ≡ map.empty }
    {
        MemFiles {
            alloc,
            entries: Vec::new(alloc),
        }
    }

    /// Sets the file of a name, also in place of an old one.
    pub fn put(&mut self, name: &str, bytes: &[u8]) -> Result<(), AllocError>
        ensures ok { OnOk result (self.new ≡ with_file self.old name.now bytes.now) }
        ensures err { OnErr result (self.new ≡ self.old) }
    {
        let entry = Entry::new(self.alloc, name, bytes)?;
        self.entries.insert(0, entry)?;
        Ok(())
    }

    /// The bytes of the file of a name, if there is one.
    pub fn find(&self, name: &str) -> Option<&[u8]>
        ensures { option_map (λ bytes. bytes.now) result ≡ file_at self.now name.now }
    {
        first_of(self.entries.as_slice(), name)
    }
}
