//! Objects of the outside that record the calls made on them.
//!
//! A recording object passes each call on to the object inside and keeps the call with its answer,
//! so that a contract over lists of calls becomes a list at hand. The relation `calls` of each
//! trait promises that the record grows by exactly that call and that the object inside makes it
//! (`specs/Recording.antt`). If memory runs out for the record, there is no record from then on;
//! the answers remain those of the object inside.

ghost use Rattle.std.specs.Prelude.{◌≡◌, [], ◌∷◌, Some, IfOk, List};
ghost use Rattle.sis_outside.specs.Calls.{Follows, PutCall, StoreCall, StoreKeeps, SinkKeeps, SourceKeeps, TakeCall, Load, Save, bytes_of};
ghost use Rattle.sis_outside.specs.Recording.{IsNoted, IsRecorded, Records, calls_in, entries_in, put_call, store_call, take_call};

use crate::sink::{PutFault, Sink};
use crate::source::{Source, TakeFault};
use crate::store::{LoadFault, SaveFault, Store};
use std::alloc::{AllocError, Global};

/// A call on a store, with its answer.
#[derive(Debug, Drop)]
pub enum StoreEntry {
    /// A load of at most so many bytes.
    Load(String, usize, Result<Vec<u8>, LoadFault>),
    /// A save of these bytes.
    Save(String, Vec<u8>, Result<(), SaveFault>),
}

/// A take of at most `max` bytes, with its answer.
#[derive(Debug, Drop)]
pub struct TakeEntry {
    pub max: usize,
    pub answer: Result<Vec<u8>, TakeFault>,
}

/// A put of a piece, with its answer.
#[derive(Debug, Drop)]
pub struct PutEntry {
    pub piece: Vec<u8>,
    pub answer: Result<(), PutFault>,
}

/// An object that records its calls: the object inside, and the calls so far, unless memory ran out
/// for them.
#[derive(Drop)]
pub struct Recording<T, C> {
    alloc: Global,
    pub inner: T,
    pub log: Option<Vec<C>>,
}

impl<T, C> Recording<T, C> {
    /// An object that records the calls from now on; takes no memory.
    pub fn new(alloc: Global, inner: T) -> Self
        ensures inner { result.inner ≡ inner }
        ensures log { entries_in result.log ≡ Some [] }
    {
        Recording {
            alloc,
            inner,
            log: Some(Vec::new(alloc)),
        }
    }
}

/// Appends a call to a record; if memory runs out for it, there is no record any more.
fn note<C: Drop>(log: &mut Option<Vec<C>>, entry: Result<C, AllocError>)
    ensures { IsNoted log.old entry log.new }
{
    if let (Some(entries), Ok(entry)) = (log.as_mut(), entry)
        && entries.push(entry).is_ok()
    {
        return;
    }
    *log = None;
}

/// A copy of the bytes that a call returned.
fn answer_copy<F: Copy>(
    alloc: Global,
    answer: &Result<Vec<u8>, F>,
) -> Result<Result<Vec<u8>, F>, AllocError>
    ensures { IfOk result (λ copy. bytes_of copy ≡ bytes_of answer.now) }
{
    match answer {
        Ok(bytes) => Ok(Ok(bytes.as_slice().to_vec(alloc)?)),
        Err(fault) => Ok(Err(*fault)),
    }
}

/// A load, as it is recorded.
fn load_entry(
    alloc: Global,
    name: &str,
    max: usize,
    answer: &Result<Vec<u8>, LoadFault>,
) -> Result<StoreEntry, AllocError>
    ensures { IfOk result (λ entry. store_call entry ≡ Load name.now max (bytes_of answer.now)) }
{
    let answer = answer_copy(alloc, answer)?;
    Ok(StoreEntry::Load(String::from_str(alloc, name)?, max, answer))
}

/// A save, as it is recorded.
fn save_entry(
    alloc: Global,
    name: &str,
    bytes: &[u8],
    answer: Result<(), SaveFault>,
) -> Result<StoreEntry, AllocError>
    ensures { IfOk result (λ entry. store_call entry ≡ Save name.now bytes.now answer) }
{
    let bytes = bytes.to_vec(alloc)?;
    Ok(StoreEntry::Save(String::from_str(alloc, name)?, bytes, answer))
}

/// A take, as it is recorded.
fn take_entry(
    alloc: Global,
    max: usize,
    answer: &Result<Vec<u8>, TakeFault>,
) -> Result<TakeEntry, AllocError>
    ensures { IfOk result (λ entry. take_call entry ≡ record
        { max = max; answer = bytes_of answer.now }) }
{
    let answer = answer_copy(alloc, answer)?;
    Ok(TakeEntry { max, answer })
}

/// A put, as it is recorded.
fn put_entry(
    alloc: Global,
    piece: &[u8],
    answer: Result<(), PutFault>,
) -> Result<PutEntry, AllocError>
    ensures { IfOk result (λ entry. put_call entry ≡ record
        { piece = piece.now; answer = answer }) }
{
    let piece = piece.to_vec(alloc)?;
    Ok(PutEntry { piece, answer })
}

impl<S: Store> Store for Recording<S, StoreEntry> {
    ghost tells = { λ r. S.tells r.inner };

    ghost files = { λ r. S.files r.inner };

    ghost faults = { λ r. S.faults r.inner };

    ghost misses = { λ r. S.misses r.inner };

    ghost calls = { Records (λ r. calls_in store_call r.log) (λ r. r.inner) S.calls };

    ghost keeps = { λ old call new went. (
      record {
        told = (S.keeps old.inner call new.inner went.1).0.told;
        contents = (S.keeps old.inner call new.inner went.1).0.contents;
        counted = (S.keeps old.inner call new.inner went.1).0.counted;
      },
      (S.keeps old.inner call new.inner went.1).1,
    ) };

    fn load(&mut self, alloc: Global, name: &str, max: usize) -> Result<Vec<u8>, LoadFault> {
        let loaded = self.inner.load(alloc, name, max);
        let entry = load_entry(self.alloc, name, max, &loaded);
        note(&mut self.log, entry);
        loaded
    }

    fn save(&mut self, name: &str, bytes: &[u8]) -> Result<(), SaveFault> {
        let saved = self.inner.save(name, bytes);
        let entry = save_entry(self.alloc, name, bytes, saved);
        note(&mut self.log, entry);
        saved
    }
}

impl<I: Source> Source for Recording<I, TakeEntry> {
    ghost tells = { λ r. I.tells r.inner };

    ghost left = { λ r. I.left r.inner };

    ghost faults = { λ r. I.faults r.inner };

    ghost calls = { Records (λ r. calls_in take_call r.log) (λ r. r.inner) I.calls };

    ghost keeps = { λ old call new went. (
      record {
        told = (I.keeps old.inner call new.inner went.1).0.told;
        contents = (I.keeps old.inner call new.inner went.1).0.contents;
        counted = (I.keeps old.inner call new.inner went.1).0.counted;
      },
      (I.keeps old.inner call new.inner went.1).1,
    ) };

    fn take(&mut self, alloc: Global, max: usize) -> Result<Vec<u8>, TakeFault> {
        let taken = self.inner.take(alloc, max);
        let entry = take_entry(self.alloc, max, &taken);
        note(&mut self.log, entry);
        taken
    }
}

impl<O: Sink> Sink for Recording<O, PutEntry> {
    ghost tells = { λ r. O.tells r.inner };

    ghost written = { λ r. O.written r.inner };

    ghost faults = { λ r. O.faults r.inner };

    ghost calls = { Records (λ r. calls_in put_call r.log) (λ r. r.inner) O.calls };

    ghost keeps = { λ old call new went. record {
      told = (O.keeps old.inner call new.inner went.1).told;
      contents = (O.keeps old.inner call new.inner went.1).contents;
      counted = (O.keeps old.inner call new.inner went.1).counted;
    } };

    fn put(&mut self, piece: &[u8]) -> Result<(), PutFault> {
        let done = self.inner.put(piece);
        let entry = put_entry(self.alloc, piece, done);
        note(&mut self.log, entry);
        done
    }
}

/// A recording object after some calls: its record grew by exactly these, and the object inside
/// made them.
pub fn recordings_grow<S: Store, I: Source, O: Sink>()
    ensures store { (old new : Recording S StoreEntry) (calls : List StoreCall)
        → Follows (Records (λ r. calls_in store_call r.log) (λ r. r.inner) S.calls) old new calls
        → IsRecorded (calls_in store_call old.log) (calls_in store_call new.log) calls
        × Follows S.calls old.inner new.inner calls }
    ensures source { (old new : Recording I TakeEntry) (calls : List TakeCall)
        → Follows (Records (λ r. calls_in take_call r.log) (λ r. r.inner) I.calls) old new calls
        → IsRecorded (calls_in take_call old.log) (calls_in take_call new.log) calls
        × Follows I.calls old.inner new.inner calls }
    ensures sink { (old new : Recording O PutEntry) (calls : List PutCall)
        → Follows (Records (λ r. calls_in put_call r.log) (λ r. r.inner) O.calls) old new calls
        → IsRecorded (calls_in put_call old.log) (calls_in put_call new.log) calls
        × Follows O.calls old.inner new.inner calls }
{}
