//! Laws over lists of calls on the objects of the outside: what single calls leave and count,
//! combined over the whole list. The laws of a trait follow from its clause `keeps`, so they hold
//! of every store, source and sink.

ghost use Rattle.std.specs.Prelude.{◌≡◌, ◌⊎◌, Some, List, ℕ};
ghost use Rattle.sis_outside.specs.Calls.{StoreCall, TakeCall, PutCall, FilesGo, Follows, StoreWent, SourceWent, SinkWent, WasSaved};
ghost use Rattle.sis_outside.specs.Files.{Files, file_at};
ghost use Rattle.sis_outside.specs.Sure.{NeverFails};

use crate::sink::Sink;
use crate::source::Source;
use crate::store::Store;
use crate::sure_sink::SureSink;
use crate::sure_source::SureSource;
use crate::sure_store::SureStore;

/// For a list of calls of a store: files that are shown change as the calls say, and each count
/// rose if some call was counted, and stayed if none was.
pub fn stores_went<S: Store>()
    ensures { (old new : S) (calls : List StoreCall) → Follows S.calls old new calls
        → StoreWent S.tells S.files S.faults S.misses old new calls }
{}

/// The same for a source.
pub fn sources_went<I: Source>()
    ensures { (old new : I) (calls : List TakeCall) → Follows I.calls old new calls
        → SourceWent I.tells I.left I.faults old new calls }
{}

/// The same for a sink.
pub fn sinks_went<O: Sink>()
    ensures { (old new : O) (calls : List PutCall) → Follows O.calls old new calls
        → SinkWent O.tells O.written O.faults old new calls }
{}

/// After some calls a file that is shown is as it was before them, or as some save among them left
/// it under its name: whole if that save was done, a prefix if it failed.
pub fn files_are_saved()
    ensures { (old new : Files) (calls : List StoreCall) → Follows FilesGo old new calls
        → (name : List ℕ)
        → (file_at new name ≡ file_at old name) ⊎ ((left : List ℕ)
        × (file_at new name ≡ Some left) × WasSaved calls name left) }
{}

/// The in-memory objects that never fail count no fault, whatever is asked of them.
pub fn sure_objects_never_fail()
    ensures store { NeverFails ⟦<SureStore as Store>⟧.faults }
    ensures source { NeverFails ⟦<SureSource as Source>⟧.faults }
    ensures sink { NeverFails ⟦<SureSink as Sink>⟧.faults }
{}
