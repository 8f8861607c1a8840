//! How a step ends: what comes next, or why it was not done.
//!
//! A refusal has its cause in what is held, in the words of the command or in the contents of a
//! file; it is reported on a line, and a run may go on after it. A failure of an object of the
//! outside, or want of memory, cuts a run short. The two are separate types because different
//! things are promised of them.

use blif_lines::BlifFault;
use genlib_format::LibFault;
use kiss_format::KissFault;
use sis_script::{Commands, RawWord, ScriptFault};
use sis_text::Word;
use std::alloc::AllocError;

/// How a script goes on after a command that is done.
#[derive(Debug, Drop)]
pub enum Next {
    /// With the next command.
    Go,
    /// Not at all: the script has ended.
    Quit,
    /// With these commands, and then with the next one.
    Script(Commands),
}

/// What cuts a command short: an object of the outside that failed, or want of memory.
#[derive(Clone, Copy, Debug, PartialEq, Eq)]
pub enum Failed {
    /// A load or a save failed.
    Store,
    /// A take of the input failed.
    Input,
    /// A write on the output failed.
    Out,
    /// A write on the error output failed.
    Err,
    /// Memory ran out.
    Memory,
}

/// Why a command, or a script, is refused. The session is then as before.
#[derive(Debug, Drop)]
pub enum Refusal {
    /// Its words are wrong.
    Script(ScriptFault),
    /// Its script would be nested deeper than allowed.
    Nested,
    /// There is no network.
    NoNetwork,
    /// There is no machine.
    NoMachine,
    /// There is no library.
    NoLibrary,
    /// There is no mapped netlist.
    NotMapped,
    /// There is no previous network.
    NothingToUndo,
    /// No table has this name.
    NoSignal(RawWord),
    /// When the turn of the table of this name came, it or a list of its rows was too long.
    CubeLimit(RawWord),
    /// The table of this name would have so many inputs, which are too many.
    TooWide(RawWord, usize),
    /// There would be more tables and latches than allowed.
    NodeLimit,
    /// The table of this name has more kernels than are listed.
    KernelLimit(RawWord),
    /// When the turn of the table of this name came, a function was too big.
    TooBig(RawWord),
    /// No gate that is used is an inverter.
    NoInverter,
    /// No gate that is used is a NAND of two pins.
    NoNand,
    /// The trees of the network have more vertices than allowed.
    TreeLimit,
    /// There is no file of this name.
    Missing(Word),
    /// The file of this name is longer than the limit.
    TooLong(Word),
    /// The file of this name has a fault as a circuit.
    Blif(Word, BlifFault),
    /// The file of this name has a fault as a machine.
    Kiss(Word, KissFault),
    /// The file of this name has a fault as a library.
    Lib(Word, LibFault),
    /// The script as a whole is longer than the limit; no command is refused so.
    LongScript,
}

/// Why a step was not done. The session is then as before.
#[derive(Debug, Drop)]
pub enum StepFault {
    Refused(Refusal),
    /// The store failed, and its count of faults rose.
    StoreFault,
    /// The output failed, and its count of faults rose.
    SinkFault,
    /// Memory ran out.
    Memory,
}

impl From<AllocError> for StepFault {
    ghost use Rattle.std.specs.Prelude.{◌≡◌};
    ghost use Rattle.sis_session.specs.declared.refusal.StepFault.TheVariants.{Memory};

    ghost from_gives = { λ _ fault. fault ≡ Memory };

    fn from(_error: AllocError) -> Self {
        StepFault::Memory
    }
}
