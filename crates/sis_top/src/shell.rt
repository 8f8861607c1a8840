//! The shell's command line, built for `clap`.

ghost use Rattle.std.specs.Prelude.{◌≡◌, IfOk};
ghost use Rattle.clap.specs.Words.{app_of};
ghost use Rattle.sis_top.specs.Shell.{shell};

use clap::{Arg, ArgAction, Command};
use std::alloc::{AllocError, Global};

/// The command that takes the shell's words. The first word is already an argument.
pub fn shell_command<'a>(alloc: Global) -> Result<Command<'a>, AllocError>
    ensures { IfOk result (λ command. app_of command ≡ shell) }
{
    let keep = Arg::new(alloc, "keep")
        .short('k')
        .action(ArgAction::SetTrue);
    let file = Arg::new(alloc, "file").short('f').action(ArgAction::Set);
    let text = Arg::new(alloc, "text").short('c').action(ArgAction::Set);
    let command = Command::new(alloc, "sis")
        .no_binary_name(true)
        .disable_help_flag(true)
        .arg(keep)?
        .arg(file)?
        .arg(text)?;
    Ok(command)
}
