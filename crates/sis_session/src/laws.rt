//! Laws on the steps of the command machine.
//!
//! They follow from the definitions of plans and steps alone, whatever the code does, so their
//! functions are empty. They are stated over the form of a command and are all that sis_top knows
//! of one: the run and its proof stay as they are when a command is added.

ghost use Rattle.std.specs.Prelude.{◌≡◌, ◌⊎◌, List, None, Option, Result, Some, ℕ};
ghost use Rattle.sis_outside.specs.Calls.{PutCall, Save};
ghost use Rattle.sis_outside.specs.declared.store.SaveFault.{SaveFault};
ghost use Rattle.sis_script.specs.declared.command.Change.{Change};
ghost use Rattle.sis_script.specs.declared.command.Op.{Op};
ghost use Rattle.sis_session.specs.Commands.{Plans, Written, form_of, last_read};
ghost use Rattle.circuit_model.specs.declared.machine.Spec.{Spec};
ghost use Rattle.sis_session.specs.Keeping.{AreOneEnding, AreOnePlan, ChangesOnce, IsRefined, IsServed};
ghost use Rattle.sis_session.specs.Keeping.{IsMapping, IsTextOf, IsWriting, TellsAreas, WritesTo};
ghost use Rattle.sis_session.specs.Plan.{Asked, Cut, Done, Ending, OnOut, OnStore, Plan, Steps};
ghost use Rattle.sis_session.specs.State.{Held, nothing_held};
ghost use Rattle.sis_session.specs.declared.refusal.Failed.TheVariants.{Memory};
ghost use Rattle.sis_session.specs.declared.refusal.Next.{Next};

/// What is held is sound and refines what was read last, and netlists are those of the networks.
/// This is so if nothing is held, and each command that is done keeps it.
pub fn steps_keep_refinement()
    ensures begun { (spec : Option Spec) → IsRefined spec nothing_held }
    ensures kept { (depth : ℕ) (held : Held) (op : Op) (asked : Asked) (held' : Held)
        (next : Next) (spec : Option Spec)
        → Steps (Plans depth held op) asked (Done held' next) → IsRefined spec held
        → IsRefined (last_read op held' spec) held' }
{}

/// What a command saves is the text of what is held, whatever the call answers, and so is what a
/// writing command puts on the output. `write_blif` writes the network, with `-n` the netlist,
/// `write_kiss` the machine. What `map` prints is the areas of a mapped netlist of the network.
pub fn what_is_held_is_written()
    ensures saved { (depth : ℕ) (held : Held) (op : Op) (name bytes : List ℕ) (answer : Result
        (Unit {0}) SaveFault) (ending : Ending)
        → Steps (Plans depth held op) (OnStore (Save name bytes answer)) ending
        → (written : Written) × WritesTo (Some name) (form_of op) written
        × IsTextOf held written bytes }
    ensures put { (depth : ℕ) (held : Held) (op : Op) (call : PutCall) (ending : Ending)
        → IsWriting (form_of op)
        → Steps (Plans depth held op) (OnOut call) ending
        → (written : Written) × WritesTo None (form_of op) written
        × IsTextOf held written call.piece }
    ensures areas { (depth : ℕ) (held : Held) (op : Op) (call : PutCall) (ending : Ending)
        → IsMapping (form_of op)
        → Steps (Plans depth held op) (OnOut call) ending → TellsAreas held call.piece }
{}

/// A command that is served is done, unless memory runs out.
pub fn served_commands_are_done()
    ensures { (depth : ℕ) (held : Held) (op : Op) (asked : Asked) (ending : Ending)
        → IsServed depth held op asked
        → Steps (Plans depth held op) asked ending → ((held' : Held) × (next : Next)
        × (ending ≡ Done held' next)) ⊎ (ending ≡ Cut Memory) }
{}

/// Each command has one plan, unless a function is too big.
pub fn commands_have_one_plan()
    ensures { (depth : ℕ) (held : Held) (op : Op) (plan other : Plan)
        → Plans depth held op plan → Plans depth held op other → AreOnePlan plan other }
{}

/// A command ends in one way if the outside answers the same, unless memory runs out or a function
/// is too big.
pub fn commands_end_once()
    ensures { (depth : ℕ) (held : Held) (op : Op) (asked : Asked) (one other : Ending)
        → Steps (Plans depth held op) asked one → Steps (Plans depth held op) asked other
        → AreOneEnding one other }
{}

/// Each change has one result for each network, unless a function is too big.
pub fn changes_have_one_outcome()
    ensures { (change : Change) → ChangesOnce change }
{}
