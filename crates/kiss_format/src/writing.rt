//! The text of a machine: each line as words with one blank between, appended to a text.
//!
//! Source: SIS report (UCB/ERL M92/41), KISS2 tables; `machine_text` appends exactly `machine_text_of` of
//! `specs/MachineText.antt` in circuit_model. The text is built apart and appended when it is
//! complete: if memory runs out, the text given stays as it was. The private calls may leave a
//! part.

ghost use Rattle.std.specs.Prelude.{◌≡◌, ◌++◌, ◌∷◌, [], map, decimal, OnOk, OnErr};
ghost use Rattle.sis_base.specs.Written.{line_text, lines_text, joined_words};
ghost use Rattle.circuit_model.specs.Text.{dotted};
ghost use Rattle.circuit_model.specs.MachineText.{state_at, state_word, row_line, header_lines, machine_text_of};

use circuit_model::{Machine, MachineRow, Name};
use line_words::{end_line, put_characters, put_word};
use std::alloc::{AllocError, Global};

/// Appends a line of one word.
#[tactic(auto, unfolding(sis_base::specs::Written::line_text, sis_base::specs::Written::joined_words), using(std::proofs::lemmas::Grind::common_steps))]
fn put_bare_line(out: &mut Vec<u8>, first: &[u8]) -> Result<(), AllocError>
    ensures { OnOk result (out.new.items ≡ out.old.items ++ line_text (dotted first.now [])) }
{
    let start = out.len();
    out.extend_from_slice(first)?;
    end_line(out, start)?;
    Ok(())
}

/// Appends a line of two words.
#[tactic(auto, unfolding(sis_base::specs::Written::line_text, sis_base::specs::Written::joined_words), using(std::proofs::lemmas::Grind::common_steps))]
fn put_line(out: &mut Vec<u8>, first: &[u8], word: &[u8]) -> Result<(), AllocError>
    ensures { OnOk result (out.new.items ≡ out.old.items ++ line_text
        (dotted first.now (word.now ∷ []))) }
{
    let start = out.len();
    out.extend_from_slice(first)?;
    put_word(out, word)?;
    end_line(out, start)?;
    Ok(())
}

/// Appends a line of a word and a number.
fn put_count(alloc: Global, out: &mut Vec<u8>, first: &[u8], count: usize) -> Result<(), AllocError>
    ensures { OnOk result (out.new.items ≡ out.old.items ++ line_text
        (dotted first.now (decimal count ∷ []))) }
{
    let shown = format!(in alloc; "{count}")?;
    put_line(out, first, shown.as_bytes())?;
    Ok(())
}

/// The name of the state of an index; the empty word if there is none.
fn state_at(states: &[Name], place: usize) -> &[u8]
    ensures { result.now ≡ state_at states.now place }
{
    match states.get(place) {
        None => b"".as_slice(),
        Some(state) => state.as_slice(),
    }
}

/// The word of a state that a row mentions.
fn state_word(states: &[Name], place: Option<usize>) -> &[u8]
    ensures { result.now ≡ state_word states.now place }
{
    match place {
        None => b"*".as_slice(),
        Some(place) => state_at(states, place),
    }
}

/// Appends a row without its line end.
#[tactic(auto, unfolding(circuit_model::specs::MachineText::row_line, sis_base::specs::Written::joined_words), using(std::proofs::lemmas::Grind::common_steps))]
fn put_row_words(out: &mut Vec<u8>, states: &[Name], row: &MachineRow) -> Result<(), AllocError>
    ensures { OnOk result (out.new.items ≡ out.old.items ++ joined_words
        (row_line states.now row.now)) }
{
    put_characters(out, row.input.as_slice())?;
    put_word(out, state_word(states, row.current))?;
    put_word(out, state_word(states, row.next))?;
    out.push(b' ')?;
    put_characters(out, row.output.as_slice())?;
    Ok(())
}

/// Appends a row.
#[tactic(auto, unfolding(sis_base::specs::Written::line_text), using(std::proofs::lemmas::Grind::common_steps))]
fn put_row(out: &mut Vec<u8>, states: &[Name], row: &MachineRow) -> Result<(), AllocError>
    ensures { OnOk result (out.new.items ≡ out.old.items ++ line_text (row_line states.now row.now)) }
{
    let start = out.len();
    put_row_words(out, states, row)?;
    end_line(out, start)?;
    Ok(())
}

/// Appends rows.
#[tactic(auto, unfolding(sis_base::specs::Written::lines_text), using(std::proofs::lemmas::Grind::common_steps))]
fn put_rows(out: &mut Vec<u8>, states: &[Name], rows: &[MachineRow]) -> Result<(), AllocError>
    ensures { OnOk result (out.new.items ≡ out.old.items ++ lines_text
        (map (row_line states.now) rows.now)) }
{
    for row in rows {
        put_row(out, states, row)?;
    }
    Ok(())
}

/// Appends the lines before the rows.
#[tactic(auto, unfolding(circuit_model::specs::MachineText::header_lines, sis_base::specs::Written::lines_text), using(std::proofs::lemmas::Grind::common_steps))]
fn put_headers(alloc: Global, out: &mut Vec<u8>, machine: &Machine) -> Result<(), AllocError>
    ensures { OnOk result (out.new.items ≡ out.old.items ++ lines_text (header_lines machine.now)) }
{
    put_count(alloc, out, b".i".as_slice(), machine.inputs.len())?;
    put_count(alloc, out, b".o".as_slice(), machine.outputs.len())?;
    put_count(alloc, out, b".p".as_slice(), machine.rows.len())?;
    put_count(alloc, out, b".s".as_slice(), machine.states.len())?;
    put_line(
        out,
        b".r".as_slice(),
        state_at(machine.states.as_slice(), machine.reset),
    )?;
    Ok(())
}

/// Appends a machine's text.
#[tactic(auto, unfolding(circuit_model::specs::MachineText::machine_text_of, circuit_model::specs::MachineText::machine_lines, sis_base::specs::Written::lines_text), using(std::proofs::lemmas::Grind::common_steps))]
fn put_machine(alloc: Global, out: &mut Vec<u8>, machine: &Machine) -> Result<(), AllocError>
    ensures { OnOk result (out.new.items ≡ out.old.items ++ machine_text_of machine.now) }
{
    put_headers(alloc, out, machine)?;
    put_rows(out, machine.states.as_slice(), machine.rows.as_slice())?;
    put_bare_line(out, b".e".as_slice())?;
    Ok(())
}

/// Appends the text of a machine: the numbers of inputs, outputs, rows and states, the reset state,
/// the rows, the end; no line is wrapped. On an error the text given stays as it was.
pub fn machine_text(alloc: Global, machine: &Machine, out: &mut Vec<u8>) -> Result<(), AllocError>
    ensures ok { OnOk result (out.new.items ≡ out.old.items ++ machine_text_of machine.now) }
    ensures err { OnErr result (out.new.items ≡ out.old.items) }
{
    let mut text = Vec::new(alloc);
    put_machine(alloc, &mut text, machine)?;
    if out.is_empty() {
        *out = text;
        return Ok(());
    }
    out.append(&mut text)
}
