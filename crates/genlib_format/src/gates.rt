//! The entry of a gate: `GATE cell area output=expression;` and its PIN lines.
//!
//! Source: the genlib format of SIS (UCB/ERL M92/41). `gate_lines` reads one entry from the words
//! that are left and returns exactly that of `specs/Gates.antt`, or none if it does not have the
//! right shape. Double quotes around the cell are dropped. Numbers and the expression are kept as
//! text, and are checked later.

ghost use Rattle.std.specs.Prelude.{◌≡◌, ◌==◌, ◌&&◌, ◌||◌, not, length, map, option_map, IfOk};
ghost use Rattle.std.specs.List.{list_all};
ghost use Rattle.genlib_expr.specs.Text.{is_name_byte};
ghost use Rattle.genlib_format.specs.Gates.{is_gate_name, name_in, unquoted, output_of, with_pins_at, with_statement_at, gate_at};

use crate::pins::{PinLines, pin_lines};
use crate::rest::Rest;
use crate::words::{before, behind};
use genlib_expr::is_name_byte;
use sis_base::{Copied, Name, Sequence};
use sis_text::{bytes_at, words};
use std::alloc::{AllocError, Global};

/// A gate as its entry is written: the line of its first word, its cell without quotation marks,
/// the word of its area, its output, the text of its expression, and the lines of its pins.
#[derive(Debug, Drop)]
pub struct GateLines {
    pub line: usize,
    pub cell: Name,
    pub area: Name,
    pub output: Name,
    pub text: Sequence<u8>,
    pub pins: PinLines,
}

/// Whether all bytes may occur in names.
fn are_name_bytes(word: &[u8]) -> bool
    ensures { result ≡ list_all is_name_byte word.now }
{
    word.iter().all(|byte| is_name_byte(*byte))
}

/// Whether a word is a name.
#[tactic(auto, unfolding(crate::specs::Gates::is_gate_name))]
fn is_gate_name(word: &[u8]) -> bool
    ensures { result ≡ is_gate_name word.now }
{
    match word {
        [] => false,
        [_, ..] => are_name_bytes(word),
    }
}

/// A word that is a name.
#[tactic(auto, unfolding(crate::specs::Gates::name_in))]
fn name_in(alloc: Global, word: &[u8]) -> Result<Option<Name>, AllocError>
    ensures { IfOk result (λ name. name ≡ name_in word.now) }
{
    if !is_gate_name(word) {
        return Ok(None);
    }
    Ok(Some(Name::from_slice(alloc, word)?))
}

/// A word without the double quotes around it, if it has both.
#[tactic(auto, unfolding(crate::specs::Gates::unquoted))]
fn unquoted(word: &[u8]) -> &[u8]
    ensures { result.now ≡ unquoted word.now }
{
    if 1 < word.len() && word[0] == b'"' && word[word.len() - 1] == b'"' {
        &word[1..word.len() - 1]
    } else {
        word
    }
}

/// The output of a statement.
#[tactic(auto, unfolding(crate::specs::Gates::output_of, crate::specs::Gates::only_name))]
fn output_of(alloc: Global, statement: &[u8]) -> Result<Option<Name>, AllocError>
    ensures { IfOk result (λ name. name ≡ output_of statement.now) }
{
    let front = before(b'=', statement);
    if front.len() >= statement.len() {
        return Ok(None);
    }
    let spans = words(alloc, front)?;
    match spans.as_slice() {
        [span] => name_in(alloc, bytes_at(front, *span)),
        _ => Ok(None),
    }
}

/// A copy of bytes.
fn bytes_of(alloc: Global, bytes: &[u8]) -> Result<Sequence<u8>, AllocError>
    ensures { IfOk result (λ made. made ≡ bytes.now) }
{
    Ok(Sequence::from_vec(bytes.to_vec(alloc)?))
}

/// Reads the entry of a gate, from the word `GATE` on; none if it does not have the right shape.
#[tactic(auto, unfolding(crate::specs::Gates::gate_at, crate::specs::Gates::with_statement_at, crate::specs::Gates::with_pins_at))]
pub fn gate_lines(rest: &mut Rest, alloc: Global) -> Result<Option<GateLines>, AllocError>
    ensures { IfOk result (λ found. gate_at rest.old ≡ option_map
        (λ gate. record { made = gate; rest = rest.new }) found) }
{
    if rest.ahead().len() < 3 {
        return Ok(None);
    }
    let line = rest.ahead()[0].line;
    let Some(cell) = name_in(alloc, unquoted(rest.ahead()[1].word.as_slice()))? else {
        return Ok(None);
    };
    let area = rest.ahead()[2].word.copy(alloc)?;
    rest.skip(3);
    let Some(statement) = rest.statement(alloc)? else {
        return Ok(None);
    };
    let Some(output) = output_of(alloc, statement.as_slice())? else {
        return Ok(None);
    };
    let Some(pins) = pin_lines(rest, alloc)? else {
        return Ok(None);
    };
    let text = bytes_of(alloc, behind(b'=', statement.as_slice()))?;
    Ok(Some(GateLines {
        line,
        cell,
        area,
        output,
        text,
        pins,
    }))
}
