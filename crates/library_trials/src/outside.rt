//! Cases of a store, a source and a sink in memory, used through their traits alone: each gets a
//! fixed list of calls, one of which fails as planned.

use crate::puts::put_value;
use sis_outside::{MemSink, MemSource, MemStore, Sink, Source, Store};
use std::alloc::Global;
use trial_cases::CaseFault;

/// Appends the answers of a store that has a file `old`; its third load or save fails after two
/// bytes.
pub fn put_store(alloc: Global, out: &mut Vec<u8>) -> Result<(), CaseFault> {
    let mut store = MemStore::new(alloc);
    store.put_file("old", b"12345")?;
    store.fail_at(2, 2)?;
    use_store(alloc, out, &mut store)
}

/// Appends the answers of a store to two saves and loads of a file, and to loads of an older one.
fn use_store<S: Store>(alloc: Global, out: &mut Vec<u8>, store: &mut S) -> Result<(), CaseFault> {
    put_value(alloc, out, &store.save("new", b"abc"))?;
    put_value(alloc, out, &store.load(alloc, "new", 3))?;
    put_value(alloc, out, &store.save("new", b"xyz"))?;
    put_value(alloc, out, &store.load(alloc, "new", 9))?;
    put_value(alloc, out, &store.load(alloc, "old", 3))?;
    put_value(alloc, out, &store.load(alloc, "older", 9))
}

/// Appends the answers of a source of five bytes that gives at most two at once; its second take
/// fails after one byte.
pub fn put_source(alloc: Global, out: &mut Vec<u8>) -> Result<(), CaseFault> {
    let mut source = MemSource::new(alloc, b"abcde")?;
    source.limit_pieces(2);
    source.fail_at(1, 1)?;
    use_source(alloc, out, &mut source)
}

/// Appends the answers of a source to four takes.
fn use_source<I: Source>(
    alloc: Global,
    out: &mut Vec<u8>,
    source: &mut I,
) -> Result<(), CaseFault> {
    put_value(alloc, out, &source.take(alloc, 9))?;
    put_value(alloc, out, &source.take(alloc, 9))?;
    put_value(alloc, out, &source.take(alloc, 1))?;
    put_value(alloc, out, &source.take(alloc, 9))?;
    put_value(alloc, out, &source.take(alloc, 9))
}

/// Appends the answers of a sink whose second put fails after two bytes, and its contents after
/// that.
pub fn put_sink(alloc: Global, out: &mut Vec<u8>) -> Result<(), CaseFault> {
    let mut sink = MemSink::new(alloc);
    sink.fail_at(1, 2)?;
    use_sink(alloc, out, &mut sink)?;
    put_value(alloc, out, &sink.written())
}

/// Appends the answers of a sink to three puts.
fn use_sink<O: Sink>(alloc: Global, out: &mut Vec<u8>, sink: &mut O) -> Result<(), CaseFault> {
    put_value(alloc, out, &sink.put(b"ab"))?;
    put_value(alloc, out, &sink.put(b"cdef"))?;
    put_value(alloc, out, &sink.put(b"g"))
}
