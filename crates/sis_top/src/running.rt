//! The run: the work items that are due, one after the other, each a step of the session; a refusal
//! writes its line on the error output.
//!
//! `take_turn` makes a turn of one step. The loop's invariant is that some turns led from the start
//! to a machine with what is held and due now. The measure is the sum of a weight of the work
//! items: a script has fewer commands than the weight grows for each level of nesting. What holds
//! of all runs (faithful turns, what is kept, served runs, one run) are lemmas over the definitions
//! alone, and rest on the session's laws over one step: so a new command leaves the run as it is.

ghost use Rattle.std.specs.Prelude.{◌≡◌, ◌≤◌, ◌<◌, ◌+◌, ◌-◌, ◌++◌, ◌∷◌, ◌||◌, [], Bool, OnErr, OnOk, IfErr, IfOk, reverse, if◌then◌else◌};
ghost use Rattle.sis_outside.specs.Calls.{Follows};
ghost use Rattle.sis_top.specs.Asked.{options_in};
ghost use Rattle.sis_session.specs.Commands.{Plans};
ghost use Rattle.sis_session.specs.Methods.{AskedNone};
ghost use Rattle.sis_session.specs.Plan.{Did};
ghost use Rattle.sis_session.specs.State.{Held};
ghost use Rattle.sis_session.specs.declared.refusal.Failed.TheVariants as failed;
ghost use Rattle.sis_top.specs.Code.{Fits, HasEnded, HasRun, HasSettled, HasTold, HasTurned, IsAt, Lands, LandsAt, added_weight, ended_as, measure, weight};
ghost use Rattle.sis_top.specs.Machine.{Due as TheDue, Machine, begun, deeper, dues, todo_after};

use crate::Options;
use crate::beginning::begin;
use crate::halt::{Halt, halt_by};
use crate::status::Stop;
use sis_outside::{PutFault, Sink, Source, Store};
use sis_script::{Command, Commands};
use sis_session::{Failed, Next, Refusal, Session, refusal_text};
use std::alloc::Global;
use std::marker::Model;

/// A command that is due, and the number of sourced scripts around it.
#[derive(Drop)]
pub struct Due {
    command: Command,
    depth: u32,
}

impl Model for Due {
    ghost use Rattle.std.specs.Prelude.{◌≤◌};
    ghost use Rattle.sis_top.specs.Machine.{Due, Run};

    ghost Value = { Due };

    ghost view = { λ d. record { line = d.command.line; work = Run d.depth d.command.op } };

    ghost invariant = { λ d. d.depth ≤ 16 };
}

/// Writes the line of a refusal on the error output.
fn tell<E: Sink>(alloc: Global, line: usize, why: &Refusal, err: &mut E) -> Result<(), Failed>
    ensures { HasTold line why.now (Follows E.calls err.old err.new) result }
{
    let Ok(text) = refusal_text(alloc, line, why) else {
        return Err(Failed::Memory);
    };
    match err.put(text.as_slice()) {
        Ok(()) => Ok(()),
        Err(PutFault::Failed) => Err(Failed::Err),
        Err(PutFault::Memory) => Err(Failed::Memory),
    }
}

/// Pushes a script's commands on the stack of what is due, the first on top.
fn push_commands(depth: u32, commands: Commands, todo: &mut Vec<Due>) -> Result<(), Failed>
    requires { depth ≤ 16 }
    ensures ok { OnOk result (reverse todo.new.items ≡ dues depth commands
        ++ reverse todo.old.items) }
    ensures err { IfErr result (λ what. what ≡ failed.Memory) }
{
    let mut rest = commands.into_vec();
    'rest: while let Some(command) = rest.pop() {
        if todo.push(Due { command, depth }).is_err() {
            return Err(Failed::Memory);
        }
    }
    Ok(())
}

/// Makes due what comes after a work item that is done: the rest, nothing at all, or a script's
/// commands and the rest.
fn follow(depth: u32, next: Next, todo: &mut Vec<Due>) -> Result<(), Failed>
    requires { Fits depth next }
    ensures ok { OnOk result (reverse todo.new.items ≡ todo_after depth next
        (reverse todo.old.items)) }
    ensures err { IfErr result (λ what. what ≡ failed.Memory) }
{
    match next {
        Next::Go => Ok(()),
        Next::Quit => {
            todo.clear();
            Ok(())
        }
        Next::Script(commands) => push_commands(depth, commands, todo),
    }
}

/// Keeps what is due after a refusal: nothing, unless the run goes on.
fn keep_due(goes_on: bool, todo: &mut Vec<Due>)
    ensures { reverse todo.new.items ≡ (if goes_on then reverse todo.old.items else []) }
{
    if !goes_on {
        todo.clear();
    }
}

/// Settles a work item by how it ended: a script's commands become due, nothing more is due after
/// `quit`, and a refusal is reported. Returns whether it was refused, or what cuts the run short.
fn settle<E: Sink>(
    alloc: Global,
    goes_on: bool,
    line: usize,
    depth: u32,
    answer: Result<Next, Halt>,
    todo: &mut Vec<Due>,
    err: &mut E,
) -> Result<bool, Failed>
    requires { IfOk answer (Fits depth) }
    ensures settled { (machine : Machine) (due : TheDue) (held : Held) (before : Bool)
        → due.line ≡ line → deeper due.work ≡ depth
        → IsAt machine.held (due ∷ reverse todo.old.items) before machine
        → OnErr answer (machine.held ≡ held)
        → HasSettled goes_on machine due (ended_as answer held) (Follows E.calls err.old err.new)
        (Lands held (reverse todo.new.items) before line result) }
    ensures weight { IfOk result (λ refused. weight
        (reverse todo.new.items) ≤ added_weight depth answer + weight (reverse todo.old.items)) }
{
    match answer {
        Ok(next) => match follow(depth, next, todo) {
            Ok(()) => Ok(false),
            Err(what) => Err(what),
        },
        Err(Halt::Refused(why)) => match tell(alloc, line, &why, err) {
            Ok(()) => {
                keep_due(goes_on, todo);
                Ok(true)
            }
            Err(what) => Err(what),
        },
        Err(Halt::Cut(what)) => Err(what),
    }
}

/// Runs one command.
fn run_command<S: Store, O: Sink>(
    alloc: Global,
    session: &mut Session,
    command: &Command,
    depth: u32,
    store: &mut S,
    out: &mut O,
) -> Result<Next, Halt>
    requires { depth ≤ 16 }
    ensures did { Did (Plans depth session.old command.now.op)
        (Follows S.calls store.old store.new) (Follows O.calls out.old out.new)
        (ended_as result session.new) }
    ensures err { OnErr result (session.old ≡ session.new) }
    ensures fits { IfOk result (Fits (depth + 1)) }
    ensures lighter { added_weight (depth + 1) result < measure (16 - depth) }
{
    match session.step(alloc, command, depth, store, out) {
        Ok(next) => Ok(next),
        Err(fault) => Err(halt_by(fault)),
    }
}

/// Takes one turn: runs the work item that is due, and settles it.
fn take_turn<S: Store, O: Sink, E: Sink>(
    alloc: Global,
    goes_on: bool,
    session: &mut Session,
    due: Due,
    todo: &mut Vec<Due>,
    store: &mut S,
    out: &mut O,
    err: &mut E,
) -> Result<bool, Stop>
    ensures turned { (machine : Machine) (before : Bool)
        → IsAt session.old (due ∷ reverse todo.old.items) before machine
        → HasTurned goes_on machine (Follows S.calls store.old store.new)
        (Follows O.calls out.old out.new) (Follows E.calls err.old err.new)
        (LandsAt session.new (reverse todo.new.items) before result) }
    ensures lighter { IfOk result (λ refused. weight (reverse todo.new.items) < weight
        (due ∷ reverse todo.old.items)) }
{
    let Due { command, depth } = due;
    let answer = run_command(alloc, session, &command, depth, store, out);
    match settle(alloc, goes_on, command.line, depth + 1, answer, todo, err) {
        Ok(refused) => Ok(refused),
        Err(what) => Err(Stop {
            line: command.line,
            what,
        }),
    }
}

/// Whether a work item was refused now or before.
fn was_refused(now: bool, before: bool) -> bool
    ensures { result ≡ (now || before) }
{
    now || before
}

/// Runs what is due, to its end; `before` says whether a work item was refused before. Returns
/// whether one was refused in all, or what cut the run short.
fn run_due<S: Store, O: Sink, E: Sink>(
    alloc: Global,
    goes_on: bool,
    before: bool,
    session: &mut Session,
    todo: &mut Vec<Due>,
    store: &mut S,
    out: &mut O,
    err: &mut E,
) -> Result<bool, Stop>
    ensures { (machine : Machine) → IsAt session.old (reverse todo.old.items) before machine
        → HasRun goes_on machine (Follows S.calls store.old store.new) AskedNone
        (Follows O.calls out.old out.new) (Follows E.calls err.old err.new) (HasEnded result) }
{
    let mut refused = before;
    'turns: while let Some(due) = todo.pop() {
        match take_turn(alloc, goes_on, session, due, todo, store, out, err) {
            Ok(now) => refused = was_refused(now, refused),
            Err(stop) => return Err(stop),
        }
    }
    Ok(refused)
}

/// Runs the script that the words ask for. Returns whether a work item was refused, or what cut the
/// run short.
pub fn run<S: Store, I: Source, O: Sink, E: Sink>(
    alloc: Global,
    options: Options<'_>,
    store: &mut S,
    input: &mut I,
    out: &mut O,
    err: &mut E,
) -> Result<bool, Stop>
    ensures { HasRun (options_in options.entry).keep (begun (options_in options.entry).script)
        (Follows S.calls store.old store.new) (Follows I.calls input.old input.new)
        (Follows O.calls out.old out.new) (Follows E.calls err.old err.new) (HasEnded result) }
{
    let mut session = Session::new();
    let mut todo = Vec::new(alloc);
    let answer = begin(alloc, options.script, store, input);
    match settle(alloc, options.keep, 0, 0, answer, &mut todo, err) {
        Ok(refused) => {
            run_due(
                alloc,
                options.keep,
                refused,
                &mut session,
                &mut todo,
                store,
                out,
                err,
            )
        }
        Err(what) => Err(Stop { line: 0, what }),
    }
}
