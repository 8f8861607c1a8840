//! Why a work item was not done.
//!
//! A step's own fault says more than a run needs. Here a refusal is one case, and all that cuts a
//! run short is the other, including what no step can meet, such as a failing input.

ghost use Rattle.std.specs.Prelude.{◌≡◌};
ghost use Rattle.sis_session.specs.Plan.{faulted};
ghost use Rattle.sis_top.specs.Code.{halted};

use sis_session::{Failed, Refusal, StepFault};

/// Why a work item was not done: it was refused, or cut short.
#[derive(Debug, Drop)]
pub enum Halt {
    Refused(Refusal),
    Cut(Failed),
}

/// What a step's fault means for its work item.
pub fn halt_by(fault: StepFault) -> Halt
    ensures { halted result ≡ faulted fault }
{
    match fault {
        StepFault::Refused(why) => Halt::Refused(why),
        StepFault::StoreFault => Halt::Cut(Failed::Store),
        StepFault::SinkFault => Halt::Cut(Failed::Out),
        StepFault::Memory => Halt::Cut(Failed::Memory),
    }
}
