//! What the program sees of the outside: a store of files, a source and a sink of bytes, as traits.
//!
//! A contract sees an object of the outside as its contents, if the object shows them, and as
//! counts of what went wrong, kept in 64 bits. Each trait promises, after POSIX's read and write,
//! what an answer says of the contents, what a failed call leaves, and that a fault is reported
//! only if its count rose. `MemStore`, `MemSource` and `MemSink` keep those promises in memory and
//! fail at planned calls. `SureStore`, `SureSource` and `SureSink` never fail: their count of
//! faults is always 0.
#![tactic(auto)]

mod calls;
mod counts;
mod mem_files;
mod mem_sink;
mod mem_source;
mod mem_store;
mod plan;
mod recording;
mod sink;
mod source;
mod store;
mod sure_sink;
mod sure_source;
mod sure_store;

pub use calls::{files_are_saved, sinks_went, sources_went, stores_went, sure_objects_never_fail};
pub use counts::risen_counts_stay;
pub use mem_sink::MemSink;
pub use mem_source::MemSource;
pub use mem_store::MemStore;
pub use recording::{PutEntry, Recording, StoreEntry, TakeEntry, recordings_grow};
pub use sink::{PutFault, Sink};
pub use source::{Source, TakeFault};
pub use store::{LoadFault, SaveFault, Store};
pub use sure_sink::SureSink;
pub use sure_source::SureSource;
pub use sure_store::SureStore;
