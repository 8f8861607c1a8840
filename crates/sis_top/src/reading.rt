//! Reads the words of the command line by the crate `clap`. The options are those of `options_of`
//! in `specs/Asked.antt`, and Usage is answered exactly if there are none.

ghost use Rattle.std.specs.Prelude.{◌≡◌, IfOk, Err, option_map, codes};
ghost use Rattle.clap.specs.Words.{first_value, found_of};
ghost use Rattle.sis_top.specs.Shell.{AreTaken};
ghost use Rattle.sis_top.specs.Asked.{Answers, is_set, options_by, options_in, options_of, script_by, script_in};

use crate::options::{Options, ScriptFrom, WordsFault};
use crate::shell::shell_command;
use clap::ArgMatches;
use sis_text::Word;
use std::alloc::Global;

/// Whether a flag is given, by its value.
fn is_set(value: Option<&str>) -> bool
    ensures { result ≡ is_set (option_map (λ text. text.now) value.entry) }
{
    match value {
        Some(text) => text == "true",
        None => false,
    }
}

/// Where the script is, by the values of `-f` and `-c`; none if both are given.
fn script_by<'a>(file: Option<&'a str>, text: Option<&'a str>) -> Option<ScriptFrom<'a>>
    ensures { option_map script_in result ≡ script_by (option_map (λ name. name.now) file.entry)
        (option_map (λ word. word.now) text.entry) }
{
    match (file, text) {
        (None, None) => Some(ScriptFrom::Input),
        (Some(name), None) => Some(ScriptFrom::File(name)),
        (None, Some(text)) => Some(ScriptFrom::Text(text)),
        (Some(_), Some(_)) => None,
    }
}

/// The options, from what clap found.
fn options_by<'a>(matches: &ArgMatches<'a>) -> Option<Options<'a>>
    ensures { option_map options_in result ≡ options_by (first_value (found_of matches.now)
        (codes "keep")) (first_value (found_of matches.now) (codes "file")) (first_value
        (found_of matches.now) (codes "text")) }
{
    let keep = is_set(matches.get_str("keep"));
    let script = script_by(matches.get_str("file"), matches.get_str("text"))?;
    Some(Options { keep, script })
}

/// Reads the words after the program's name. Usage exactly if clap does not accept them or both
/// `-f` and `-c` are given; otherwise only memory may run out.
pub fn read_words<'a>(alloc: Global, words: &'a [Word]) -> Result<Options<'a>, WordsFault>
    ensures answers { Answers (options_of words.entry.now) result }
    ensures taken { IfOk result (λ _. AreTaken words.entry.now) }
    ensures refused { result ≡ Err WordsFault.Usage → AreTaken words.entry.now → ⊥ }
{
    let matches = shell_command(alloc)?.try_get_matches_from(words)?;
    options_by(&matches).ok_or(WordsFault::Usage)
}
