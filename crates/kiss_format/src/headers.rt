//! The header lines that give the numbers of ports: the first `.i` and the first `.o` line before
//! the end, by their line numbers.

ghost use Rattle.std.specs.Prelude.{◌≡◌, map, find, option_copied};
ghost use Rattle.std.specs.Option.{option_map};
ghost use Rattle.sis_text.specs.declared.places.Line.{Line};
ghost use Rattle.sis_text.specs.Entries.{entry_at};
ghost use Rattle.kiss_format.specs.Keywords.{kind_of, is_inputs_kind, is_outputs_kind};
ghost use Rattle.kiss_format.specs.Reader.{inputs_line, outputs_line};

use crate::keyword::Keyword;
use crate::reading::{before_end, kind_at};
use sis_text::Line;

/// The first line that gives the number of inputs.
fn first_inputs<'a>(source: &[u8], lines: &'a [Line]) -> Option<&'a Line>
    ensures { option_copied result ≡ find (λ (line : Line). is_inputs_kind
        (kind_of (entry_at source.now line))) lines.now }
{
    lines
        .iter()
        .find(|line| matches!(kind_at(source, line), Keyword::Inputs))
}

/// The first line that gives the number of outputs.
fn first_outputs<'a>(source: &[u8], lines: &'a [Line]) -> Option<&'a Line>
    ensures { option_copied result ≡ find (λ (line : Line). is_outputs_kind
        (kind_of (entry_at source.now line))) lines.now }
{
    lines
        .iter()
        .find(|line| matches!(kind_at(source, line), Keyword::Outputs))
}

/// The number of a line, if there is one.
fn number_of(found: Option<&Line>) -> Option<usize>
    ensures { result ≡ option_map (λ (line : Line). line.number) (option_copied found.entry) }
{
    match found {
        None => None,
        Some(line) => Some(line.number),
    }
}

/// The number of the first line before the end that gives the number of inputs.
pub fn inputs_line(source: &[u8], lines: &[Line]) -> Option<usize>
    ensures { result ≡ inputs_line (map (entry_at source.now) lines.now) }
{
    number_of(first_inputs(source, before_end(source, lines)))
}

/// The number of the first line before the end that gives the number of outputs.
pub fn outputs_line(source: &[u8], lines: &[Line]) -> Option<usize>
    ensures { result ≡ outputs_line (map (entry_at source.now) lines.now) }
{
    number_of(first_outputs(source, before_end(source, lines)))
}
