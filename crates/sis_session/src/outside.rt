//! The calls that a step makes on the outside.
//!
//! Each is separate from what is done with its answer, so that its contract says which call was
//! made and how it ended, over every object of its kind. What a command prints is passed in as its
//! text, or as the reason why there is none; in that case nothing is asked of the outside.

ghost use Rattle.std.specs.Prelude.{◌≡◌, ◌≤◌, IfOk, List, ℕ, Result, length};
ghost use Rattle.sis_outside.specs.Calls.{Follows};
ghost use Rattle.sis_session.specs.Commands.{reply_with, source_plan};
ghost use Rattle.sis_session.specs.Methods.{AskedNone, HasLoaded, HasPut, HasSaved, HasToldPut, IsTold};
ghost use Rattle.sis_session.specs.Plan.{Did, MAX_BYTES, NestsBelow, ended, sends};
ghost use Rattle.sis_session.specs.State.{Held};
ghost use Rattle.sis_session.specs.declared.refusal.Refusal.{Refusal};

use crate::refusal::{Next, Refusal, StepFault};
use crate::session::{MAX_BYTES, MAX_DEPTH};
use sis_outside::{LoadFault, PutFault, SaveFault, Sink, Store};
use sis_script::commands;
use sis_text::Word;
use std::alloc::Global;

/// Loads a file of at most 67,108,864 bytes; a missing file and a file that is too long are
/// refusals.
pub fn load<S: Store>(alloc: Global, name: &str, store: &mut S) -> Result<Vec<u8>, StepFault>
    ensures loaded { HasLoaded S.calls name.now store.old result store.new }
    ensures within { IfOk result (λ bytes. length bytes.items ≤ MAX_BYTES) }
{
    match store.load(alloc, name, MAX_BYTES) {
        Ok(bytes) => Ok(bytes),
        Err(LoadFault::Missing) => Err(StepFault::Refused(Refusal::Missing(Word::new(
            alloc, name,
        )?))),
        Err(LoadFault::TooLong(_)) => Err(StepFault::Refused(Refusal::TooLong(Word::new(
            alloc, name,
        )?))),
        Err(LoadFault::Failed) => Err(StepFault::StoreFault),
        Err(LoadFault::Memory) => Err(StepFault::Memory),
    }
}

/// Saves a file for a command.
fn save<S: Store>(store: &mut S, name: &str, bytes: &[u8]) -> Result<Next, StepFault>
    ensures { HasSaved S.calls name.now bytes.now store.old result store.new }
{
    match store.save(name, bytes) {
        Ok(()) => Ok(Next::Go),
        Err(SaveFault::Failed) => Err(StepFault::StoreFault),
        Err(SaveFault::Memory) => Err(StepFault::Memory),
    }
}

/// Writes a reply, unless it is empty.
pub fn put<O: Sink>(out: &mut O, reply: &[u8]) -> Result<Next, StepFault>
    ensures { HasPut O.calls reply.now out.old result out.new }
{
    match reply {
        [] => Ok(Next::Go),
        _ => match out.put(reply) {
            Ok(()) => Ok(Next::Go),
            Err(PutFault::Failed) => Err(StepFault::SinkFault),
            Err(PutFault::Memory) => Err(StepFault::Memory),
        },
    }
}

/// Prints a text, or passes the fault on and prints nothing.
pub fn print_reply<O: Sink>(
    told: Result<Vec<u8>, StepFault>,
    out: &mut O,
) -> Result<Next, StepFault>
    ensures put { HasToldPut O.calls told out.old result out.new }
    ensures nests { (depth : ℕ) → IfOk result (NestsBelow depth) }
{
    match told {
        Ok(text) => put(out, text.as_slice()),
        Err(fault) => Err(fault),
    }
}

/// Writes a text to a file, or to the output if none is named; or passes the fault on.
pub fn write_reply<S: Store, O: Sink>(
    told: Result<Vec<u8>, StepFault>,
    file: &Option<Word>,
    store: &mut S,
    out: &mut O,
) -> Result<Next, StepFault>
    ensures did { (held : Held) (what : Result (List ℕ) Refusal) → IsTold what told
        → Did (λ plan. plan ≡ sends file.now (reply_with held what))
        (Follows S.calls store.old store.new) (Follows O.calls out.old out.new)
        (ended result held) }
    ensures nests { (depth : ℕ) → IfOk result (NestsBelow depth) }
{
    let text = match told {
        Ok(text) => text,
        Err(fault) => return Err(fault),
    };
    match file {
        Some(name) => save(store, name.text(), text.as_slice()),
        None => put(out, text.as_slice()),
    }
}

/// Loads a file as a script whose commands come next; refused if scripts are nested too deep.
pub fn source<S: Store>(
    alloc: Global,
    name: &Word,
    depth: u32,
    store: &mut S,
) -> Result<Next, StepFault>
    ensures did { (held : Held) → Did (λ plan. plan ≡ source_plan depth held name.now)
        (Follows S.calls store.old store.new) AskedNone (ended result held) }
    ensures nests { IfOk result (NestsBelow depth) }
{
    if depth >= MAX_DEPTH {
        return Err(StepFault::Refused(Refusal::Nested));
    }
    let text = load(alloc, name.text(), store)?;
    Ok(Next::Script(commands(alloc, text.as_slice())?))
}
