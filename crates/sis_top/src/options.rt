//! The options that the words of the command line give, and why they may give none: the words are
//! not accepted (`Usage`), or memory ran out.

use clap::Error;
use clap::error::ErrorKind;
use std::alloc::AllocError;

/// Where the script is.
#[derive(Clone, Copy, Debug, PartialEq, Eq)]
pub enum ScriptFrom<'a> {
    /// In the file of this name.
    File(&'a str),
    /// It is this text.
    Text(&'a str),
    /// On the input, to its end.
    Input,
}

/// The options that the words ask for.
#[derive(Clone, Copy, Debug, PartialEq, Eq)]
pub struct Options<'a> {
    /// Whether the run goes on after a refused command.
    pub keep: bool,
    pub script: ScriptFrom<'a>,
}

/// Why the words give no options.
#[derive(Clone, Copy, Debug, PartialEq, Eq)]
pub enum WordsFault {
    /// They are not accepted.
    Usage,
    /// Memory ran out.
    Memory,
}

impl From<AllocError> for WordsFault {
    ghost use Rattle.std.specs.Prelude.{◌≡◌};
    ghost use Rattle.sis_top.specs.declared.options.WordsFault.TheVariants.{Memory};

    ghost from_gives = { λ _ fault. fault ≡ Memory };

    fn from(_error: AllocError) -> Self {
        WordsFault::Memory
    }
}

impl From<Error> for WordsFault {
    ghost use Rattle.clap.specs.Words.{kind_of};
    ghost use Rattle.sis_top.specs.Refusing.{Refuses};

    ghost from_gives = { λ error fault. Refuses (kind_of error) fault };

    fn from(error: Error) -> Self {
        match error.kind() {
            ErrorKind::OutOfMemory => WordsFault::Memory,
            _ => WordsFault::Usage,
        }
    }
}
