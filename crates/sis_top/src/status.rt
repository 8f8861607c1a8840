//! How a call of the program ended, and its exit status.
//!
//! After a refusal a run may have gone on, if it was asked to. After a failure or want of memory no
//! later command was done.

ghost use Rattle.std.specs.Prelude.{◌≡◌};
ghost use Rattle.sis_top.specs.Call.{code_of};

use sis_session::Failed;

/// The answer of the top call.
#[derive(Clone, Copy, Debug, PartialEq, Eq)]
pub enum Status {
    /// Every command up to `quit` or the last was done.
    Done,
    /// A command was refused, or the script is missing or too long.
    Refused,
    /// The words of the command line are not accepted.
    Usage,
    /// A load, a save, a take or a write failed.
    Fault,
    /// Memory ran out.
    Memory,
}

impl Status {
    /// The exit status of the program, from 0 for done to 4 for want of memory.
    pub fn code(self) -> u8
        ensures { result ≡ code_of self }
    {
        match self {
            Status::Done => 0,
            Status::Refused => 1,
            Status::Usage => 2,
            Status::Fault => 3,
            Status::Memory => 4,
        }
    }
}

/// What cut a run short, and the line of the work item at which it did; 0 if the script was not
/// begun.
#[derive(Clone, Copy, Debug, PartialEq, Eq)]
pub struct Stop {
    pub line: usize,
    pub what: Failed,
}
