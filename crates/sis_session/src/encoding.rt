//! `state_assign`: the network of a machine, and the lines that print its codes.
//!
//! The network is `encoded` of state_code for the coding that the style names; the text has a line
//! `code STATE BITS` for each state (`specs/Replies.antt`). A machine whose inputs and state bits
//! are more than `MAX_INPUTS` is refused. The network keeps the bounds within which literals are
//! counted.

ghost use Rattle.std.specs.Prelude.{◌≡◌, ◌++◌, IfOk, OnOk, flat_map, map};
ghost use Rattle.circuit_model.specs.MachineSoundness.{IsSoundMachine};
ghost use Rattle.net_core.specs.Reads.{HasBounds};
ghost use Rattle.sis_session.specs.Commands.{coding_of};
ghost use Rattle.sis_session.specs.Methods.{IsEncoded};
ghost use Rattle.circuit_model.specs.Runs.{tri_of};
ghost use Rattle.circuit_model.specs.Text.{character};
ghost use Rattle.sis_session.specs.Replies.{code_line, codes_text};

use crate::refusal::{Refusal, StepFault};
use circuit_model::Machine;
use cube_cover::PlainRow;
use net_core::Network;
use sis_script::Style;
use state_code::{Code, CodeFault, Style as Coding, assign};
use std::alloc::{AllocError, Global};

/// The network of a machine, and the text of its codes.
#[derive(Drop)]
pub struct CodedNetwork {
    pub network: Network<PlainRow>,
    pub text: Vec<u8>,
}

/// The coding that a style names.
fn coding_of(style: Style) -> Coding
    ensures { result ≡ coding_of style }
{
    match style {
        Style::Natural => Coding::Natural,
        Style::OneHot => Coding::OneHot,
    }
}

/// A bit as a character.
fn bit_character(bit: bool) -> u8
    ensures { result ≡ character (tri_of bit) }
{
    if bit { b'1' } else { b'0' }
}

/// Appends bits. On an error some may have been appended.
fn put_bits(out: &mut Vec<u8>, bits: &[bool]) -> Result<(), AllocError>
    ensures { OnOk result (out.new.items
        ≡ out.old.items ++ map (λ bit. character (tri_of bit)) bits.now) }
{
    for bit in bits {
        out.push(bit_character(*bit))?;
    }
    Ok(())
}

/// Appends the line of a code. On an error a part of it may have been appended.
#[tactic(auto, unfolding(crate::specs::Replies::code_line), using(std::proofs::lemmas::Grind::common_steps))]
fn put_code(out: &mut Vec<u8>, code: &Code) -> Result<(), AllocError>
    ensures { OnOk result (out.new.items ≡ out.old.items ++ code_line code.now) }
{
    out.extend_from_slice(b"code ".as_slice())?;
    out.extend_from_slice(code.state.as_slice())?;
    if !code.bits.is_empty() {
        out.push(b' ')?;
        put_bits(out, code.bits.as_slice())?;
    }
    out.push(10)?;
    Ok(())
}

/// The text of codes, a line for each.
#[tactic(auto, using(std::proofs::lemmas::Grind::common_steps))]
fn codes_text(alloc: Global, codes: &[Code]) -> Result<Vec<u8>, AllocError>
    ensures { IfOk result (λ text. text.items ≡ codes_text codes.now) }
{
    let mut text = Vec::new(alloc);
    for code in codes {
        put_code(&mut text, code)?;
    }
    Ok(text)
}

/// The network of a machine whose states are coded in a style, and the text of the codes; refused
/// if its inputs and state bits are too many.
pub fn encoded(alloc: Global, machine: &Machine, style: Style) -> Result<CodedNetwork, StepFault>
    requires { IsSoundMachine machine.now }
    ensures encoded { IsEncoded (coding_of style) machine.now result }
    ensures bounds { IfOk result (λ made. HasBounds made.network) }
{
    match assign(alloc, machine, coding_of(style)) {
        Ok((network, codes)) => {
            let text = codes_text(alloc, codes.as_slice())?;
            Ok(CodedNetwork { network, text })
        }
        Err(CodeFault::TooWide(name, count)) => {
            Err(StepFault::Refused(Refusal::TooWide(name, count)))
        }
        Err(CodeFault::Memory) => Err(StepFault::Memory),
    }
}
