//! The top call: the words of the command line, the run of the script that they ask for, and the
//! last line.
//!
//! It is built of two calls. `run_words` makes the turns and promises how each object went.
//! `run_sis` adds what each object shows and counts, which follows from the calls by the law of
//! each trait (`stores_went`, `sources_went`, `sinks_went`). `run_recorded` says what the lists of
//! objects that record their calls contain.

ghost use Rattle.std.specs.Prelude.{◌≡◌, IsTrue, None};
ghost use Rattle.sis_outside.specs.Calls.{Follows, SinkWent, SourceWent, StoreWent};
ghost use Rattle.sis_outside.specs.Counts.{Rose};
ghost use Rattle.sis_outside.specs.Recording.{IsRecorded, calls_in, put_call, store_call, take_call};
ghost use Rattle.sis_outside.specs.Sure.{NeverFails};
ghost use Rattle.sis_top.specs.Asked.{options_in, options_of};
ghost use Rattle.sis_top.specs.Call.{CountOf, IsCall, IsRun, NamesFault, NamesRefusal, failure_line, failure_text, status_cut, status_of, usage_line};
ghost use Rattle.sis_top.specs.Code.{HasEndLine};
ghost use Rattle.sis_top.specs.Laws.{AsksInput, Completes, HasEnding};
ghost use Rattle.sis_top.specs.declared.status.Status.TheVariants as status;

use crate::running::run;
use crate::status::{Status, Stop};
use crate::{Options, WordsFault, read_words};
use sis_outside::{
    PutEntry, PutFault, Recording, Sink, Source, Store, StoreEntry, TakeEntry, recordings_grow,
    sinks_went, sources_went, stores_went,
};
use sis_session::{
    Failed, error_text, served_commands_are_done, steps_keep_refinement, what_is_held_is_written,
};
use sis_text::Word;
use std::alloc::Global;

/// What cut a run short, in words.
fn failure_text(what: Failed) -> &'static str
    ensures { result.now ≡ failure_text what }
{
    match what {
        Failed::Store => "store failed",
        Failed::Input => "input failed",
        Failed::Out | Failed::Err => "output failed",
        Failed::Memory => "no memory",
    }
}

/// The status of a run that was not cut short, by whether a work item was refused.
fn status_of(refused: bool) -> Status
    ensures { result ≡ status_of refused }
{
    if refused {
        Status::Refused
    } else {
        Status::Done
    }
}

/// The status of a run that was cut short.
fn status_cut(what: Failed) -> Status
    ensures { result ≡ status_cut what }
{
    match what {
        Failed::Memory => Status::Memory,
        Failed::Store | Failed::Input | Failed::Out | Failed::Err => Status::Fault,
    }
}

/// Writes the last line of a call, and returns the status that the call ends with unless memory
/// runs out for the line.
fn put_end<E: Sink>(line: &[u8], ends: Status, err: &mut E) -> Status
    ensures { HasEndLine line.now ends (Follows E.calls err.old err.new) result }
{
    match err.put(line) {
        Ok(()) => ends,
        Err(PutFault::Failed) => ends,
        Err(PutFault::Memory) => Status::Memory,
    }
}

/// Writes the last line of a run that was cut short, and returns the status.
fn tell_stop<E: Sink>(alloc: Global, stop: Stop, err: &mut E) -> Status
    ensures { HasEndLine (failure_line stop) (status_cut stop.what)
        (Follows E.calls err.old err.new) result }
{
    let Ok(line) = error_text(alloc, stop.line, failure_text(stop.what)) else {
        return Status::Memory;
    };
    put_end(line.as_slice(), status_cut(stop.what), err)
}

/// Writes the usage line, and returns the status.
fn tell_usage<E: Sink>(err: &mut E) -> Status
    ensures { HasEndLine usage_line status.Usage (Follows E.calls err.old err.new) result }
{
    put_end(
        b"sis: usage: sis [-k] [-f FILE | -c TEXT]\n".as_slice(),
        Status::Usage,
        err,
    )
}

/// Runs the script that was asked for.
fn run_options<S: Store, I: Source, O: Sink, E: Sink>(
    alloc: Global,
    options: Options<'_>,
    store: &mut S,
    input: &mut I,
    out: &mut O,
    err: &mut E,
) -> Status
    ensures { IsRun (options_in options.entry).keep (options_in options.entry).script
        (Follows S.calls store.old store.new) (Follows I.calls input.old input.new)
        (Follows O.calls out.old out.new) (Follows E.calls err.old err.new) result }
{
    steps_keep_refinement();
    what_is_held_is_written();
    served_commands_are_done();
    match run(alloc, options, store, input, out, err) {
        Ok(refused) => status_of(refused),
        Err(stop) => tell_stop(alloc, stop, err),
    }
}

/// Runs the script that the words ask for, or says how the program is used.
fn run_words<S: Store, I: Source, O: Sink, E: Sink>(
    alloc: Global,
    words: &[Word],
    store: &mut S,
    input: &mut I,
    out: &mut O,
    err: &mut E,
) -> Status
    ensures { IsCall (options_of words.now) (Follows S.calls store.old store.new)
        (Follows I.calls input.old input.new) (Follows O.calls out.old out.new)
        (Follows E.calls err.old err.new) result }
{
    match read_words(alloc, words) {
        Ok(options) => run_options(alloc, options, store, input, out, err),
        Err(WordsFault::Usage) => tell_usage(err),
        Err(WordsFault::Memory) => tell_stop(
            alloc,
            Stop {
                line: 0,
                what: Failed::Memory,
            },
            err,
        ),
    }
}

/// Does all that the program does: reads the words of the command line, runs the script that they
/// ask for over the files, and writes replies on the output and refusals on the error output. The
/// script is a file, a word, or the input.
///
/// The call is a list of turns of the command machine, and each object of the outside went by
/// exactly the calls of these turns, whether it shows its contents or not; what is shown, counted
/// and missed follows for each object by itself. Want of memory may be answered at any time.
pub fn run_sis<S: Store, I: Source, O: Sink, E: Sink>(
    alloc: Global,
    words: &[Word],
    store: &mut S,
    input: &mut I,
    out: &mut O,
    err: &mut E,
) -> Status
    // The call is a run of the command machine, over every outside: each object went by exactly the
    // calls of its turns, and each text that it writes is that of what is held, and that refines
    // what was read last.
    ensures call { IsCall (options_of words.now) (Follows S.calls store.old store.new)
        (Follows I.calls input.old input.new) (Follows O.calls out.old out.new)
        (Follows E.calls err.old err.new) result }

    // It follows for what each object shows and counts: files and bytes that are shown went by
    // these calls, and each count rose exactly if one of them was counted.
    ensures told { IsCall (options_of words.now)
        (StoreWent S.tells S.files S.faults S.misses store.old store.new)
        (SourceWent I.tells I.left I.faults input.old input.new)
        (SinkWent O.tells O.written O.faults out.old out.new)
        (SinkWent E.tells E.written E.faults err.old err.new) result }

    // It follows by the status: if the run came to its end, nothing failed; a fault names the
    // object that failed, whose count rose; a refusal names the work item that was refused, and a
    // script that is missing was counted; and Usage is answered only if the words are not accepted.
    ensures unfailed { HasEnding result → (S.faults store.new ≡ S.faults store.old)
        × (I.faults input.new ≡ I.faults input.old)
        × (O.faults out.new ≡ O.faults out.old) × (E.faults err.new ≡ E.faults err.old) }
    ensures fault { result ≡ status.Fault → NamesFault
        (CountOf (Rose (S.faults store.old) (S.faults store.new)) (Rose (I.faults input.old)
        (I.faults input.new))
        (Rose (O.faults out.old) (O.faults out.new)) (Rose (E.faults err.old) (E.faults err.new)))
        (Follows E.calls err.old err.new) }
    ensures refused { result ≡ status.Refused → NamesRefusal (Rose (S.misses store.old)
        (S.misses store.new)) (Follows E.calls err.old err.new) }
    ensures usage { result ≡ status.Usage → options_of words.now ≡ None }

    // Over objects of kinds that never fail there is no fault.
    ensures sure { NeverFails S.faults → NeverFails I.faults → NeverFails O.faults
        → NeverFails E.faults → result ≡ status.Fault → ⊥ }

    // If the files are shown, and the input too if the script is on it, and each turn that a run
    // can reach is served, all is done, unless something fails or memory runs out.
    ensures complete { IsTrue (S.tells store.old) → (AsksInput (options_of words.now)
        → IsTrue (I.tells input.old))
        → Completes (options_of words.now) (S.files store.old) (I.left input.old) result }
{
    stores_went::<S>();
    sources_went::<I>();
    sinks_went::<O>();
    sinks_went::<E>();
    run_words(alloc, words, store, input, out, err)
}

/// The same over objects that record their calls: unless memory ran out for a record, it grew by
/// exactly the calls of the run's turns on its object.
pub fn run_recorded<S: Store, I: Source, O: Sink, E: Sink>(
    alloc: Global,
    words: &[Word],
    store: &mut Recording<S, StoreEntry>,
    input: &mut Recording<I, TakeEntry>,
    out: &mut Recording<O, PutEntry>,
    err: &mut Recording<E, PutEntry>,
) -> Status
    ensures { IsCall (options_of words.now)
        (IsRecorded (calls_in store_call store.old.log) (calls_in store_call store.new.log))
        (IsRecorded (calls_in take_call input.old.log) (calls_in take_call input.new.log))
        (IsRecorded (calls_in put_call out.old.log) (calls_in put_call out.new.log))
        (IsRecorded (calls_in put_call err.old.log) (calls_in put_call err.new.log)) result }
{
    recordings_grow::<S, I, O>();
    recordings_grow::<S, I, E>();
    run_sis(alloc, words, store, input, out, err)
}
