//! Begins the script that the words ask for: its commands come next.
//!
//! The script is in a word, in a file or on the input. All three give one text, no longer than
//! `MAX_BYTES`, which one call splits into commands (`begin_plan` of `specs/Machine.antt`). A
//! longer text is refused.

ghost use Rattle.std.specs.Prelude.{◌≤◌, IfOk, length, nat_le, if◌then◌else◌};
ghost use Rattle.sis_outside.specs.Calls.{Follows};
ghost use Rattle.sis_top.specs.Asked.{InFile, OnInput, script_in};
ghost use Rattle.sis_session.specs.Methods.{AskedNone};
ghost use Rattle.sis_session.specs.Plan.{Comes, Refuses, MAX_BYTES as longest};
ghost use Rattle.sis_session.specs.State.{nothing_held};
ghost use Rattle.sis_session.specs.declared.refusal.Refusal.TheVariants.{LongScript};
ghost use Rattle.sis_top.specs.Code.{Fits, HasBegun, ended_as};
ghost use Rattle.sis_top.specs.Machine.{begin_plan, begins};

use crate::ScriptFrom;
use crate::halt::{Halt, halt_by};
use crate::input::{Unread, take_script};
use sis_outside::{Source, Store};
use sis_script::commands;
use sis_session::{Failed, MAX_BYTES, Next, Refusal, load};
use std::alloc::Global;

/// The commands of a text.
fn begin_by(alloc: Global, text: &[u8]) -> Result<Next, Halt>
    requires { length text.now ≤ longest }
    ensures comes { Comes (begins nothing_held text.now) (ended_as result nothing_held) }
    ensures fits { IfOk result (Fits 0) }
{
    match commands(alloc, text) {
        Ok(commands) => Ok(Next::Script(commands)),
        Err(_) => Err(Halt::Cut(Failed::Memory)),
    }
}

/// The commands of the script in a file.
fn begin_file<S: Store>(alloc: Global, name: &str, store: &mut S) -> Result<Next, Halt>
    ensures begun { HasBegun (begin_plan nothing_held (InFile name.now))
        (Follows S.calls store.old store.new) AskedNone (ended_as result nothing_held) }
    ensures fits { IfOk result (Fits 0) }
{
    match load(alloc, name, store) {
        Ok(text) => begin_by(alloc, text.as_slice()),
        Err(fault) => Err(halt_by(fault)),
    }
}

/// The commands of the script that is a word.
fn begin_text(alloc: Global, text: &str) -> Result<Next, Halt>
    ensures comes { Comes (if nat_le
        (length text.now) longest then begins nothing_held text.now else Refuses LongScript)
        (ended_as result nothing_held) }
    ensures fits { IfOk result (Fits 0) }
{
    if text.len() <= MAX_BYTES {
        begin_by(alloc, text.as_bytes())
    } else {
        Err(Halt::Refused(Refusal::LongScript))
    }
}

/// The commands of the script on the input.
fn begin_input<I: Source>(alloc: Global, input: &mut I) -> Result<Next, Halt>
    ensures begun { HasBegun (begin_plan nothing_held OnInput) AskedNone
        (Follows I.calls input.old input.new) (ended_as result nothing_held) }
    ensures fits { IfOk result (Fits 0) }
{
    match take_script(alloc, input) {
        Ok(text) => begin_by(alloc, text.as_slice()),
        Err(Unread::TooLong) => Err(Halt::Refused(Refusal::LongScript)),
        Err(Unread::Failed) => Err(Halt::Cut(Failed::Input)),
        Err(Unread::Memory) => Err(Halt::Cut(Failed::Memory)),
    }
}

/// The commands of the script that the words ask for.
pub fn begin<S: Store, I: Source>(
    alloc: Global,
    script: ScriptFrom<'_>,
    store: &mut S,
    input: &mut I,
) -> Result<Next, Halt>
    ensures begun { HasBegun (begin_plan nothing_held (script_in script.entry))
        (Follows S.calls store.old store.new) (Follows I.calls input.old input.new)
        (ended_as result nothing_held) }
    ensures fits { IfOk result (Fits 0) }
{
    match script {
        ScriptFrom::File(name) => begin_file(alloc, name, store),
        ScriptFrom::Text(text) => begin_text(alloc, text),
        ScriptFrom::Input => begin_input(alloc, input),
    }
}
