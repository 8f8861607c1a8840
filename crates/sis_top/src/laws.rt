//! Laws on the runs of the command machine.
//!
//! They follow by induction over the turns from the laws of the session over one step, so their
//! functions are empty, and no command and no table is named in their proofs.

ghost use Rattle.std.specs.Prelude.{◌≡◌, Bool, List, [], false};
ghost use Rattle.std.specs.List.{AllByRecursion};
ghost use Rattle.sis_top.specs.Asked.{TheScript};
ghost use Rattle.sis_session.specs.Keeping.{IsRefined};
ghost use Rattle.sis_outside.specs.Files.{Files};
ghost use Rattle.sis_top.specs.Call.{input_calls};
ghost use Rattle.sis_top.specs.Laws.{AreAlike, CopiesAreServed, HasRoom, IsRunOver, TakesAlike};
ghost use Rattle.sis_top.specs.Machine.{AtEach, Machine, Runs, Turn, begun};
ghost use Rattle.sis_top.specs.Served.{IsServedTurn};

use sis_session::{commands_have_one_plan, served_commands_are_done, steps_keep_refinement};

/// What is held is sound and refines what was read last, at every machine that a script's turns
/// reach.
pub fn runs_keep_refinement()
    ensures { (goes_on : Bool) (script : TheScript) (turns : List Turn) (to : Machine)
        → Runs goes_on (begun script) turns to → IsRefined to.spec to.held }
{
    steps_keep_refinement();
}

/// A run each turn of which is served refuses nothing.
pub fn served_runs_refuse_nothing()
    ensures { (goes_on : Bool) (script : TheScript) (turns : List Turn) (end : Machine)
        → Runs goes_on (begun script) turns end
        → AtEach goes_on IsServedTurn (begun script) turns → end.refused ≡ false }
{
    served_commands_are_done();
}

/// If equal requests get equal answers, there is one list of turns. Two whole runs of a script in
/// which memory did not run out and no function was too big are equal, if no request that both made
/// was answered in two ways.
pub fn runs_are_one()
    ensures { (goes_on : Bool) (script : TheScript) (one other : List Turn) (end last : Machine)
        → Runs goes_on (begun script) one end → Runs goes_on (begun script) other last
        → end.todo ≡ [] → last.todo ≡ []
        → AllByRecursion HasRoom one → AllByRecursion HasRoom other → AreAlike one other
        → one ≡ other }
{
    commands_have_one_plan();
}

/// Two whole runs of a script over the same shown files, neither of them cut short and none of
/// their functions too big, are equal, if takes of the same bounds off the input gave the same
/// pieces.
pub fn told_runs_are_one()
    ensures { (goes_on : Bool) (script : TheScript) (files : Files) (one other : List Turn)
        → IsRunOver goes_on script files one → IsRunOver goes_on script files other
        → TakesAlike (input_calls one) (input_calls other)
        → one ≡ other }
{
    commands_have_one_plan();
}

/// If a file `a` has a circuit that is read without a fault and is no longer than the limit, then
/// `read_blif a; print_stats; write_blif b` is served, whatever is on the input. So by the clause
/// `complete` of `run_sis` it is done, unless something fails or memory runs out.
pub fn copies_are_served()
    ensures { CopiesAreServed }
{}
