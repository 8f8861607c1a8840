//! The gate that an entry describes.
//!
//! Source: the genlib format of SIS (UCB/ERL M92/41). `gate_of` checks the numbers, reads the
//! expression, checks limits and pins, and returns exactly the gate or the first fault of
//! `specs/Reader.antt` and `specs/Faults.antt`. The pins of a gate are the names of its expression
//! in order of first mention; each has the delays of its own PIN line, or those of the line `*`.
//! `Gate::rows` returns the rows of Shannon's expansion.

ghost use Rattle.std.specs.Prelude.{◌≡◌, ◌∷◌, [], Some, find, map, length, option_copied, IfOk};
ghost use Rattle.circuit_model.specs.Values.{literal_of};
ghost use Rattle.cover_ops.specs.Shannon.{shannon};
ghost use Rattle.genlib_expr.specs.Formula.{formula_of};
ghost use Rattle.genlib_expr.specs.Text.{pins_of, depth_of};
ghost use Rattle.genlib_expr.specs.Functions.{function_of};
ghost use Rattle.genlib_format.specs.Answers.{Gives, Parses};
ghost use Rattle.genlib_format.specs.Spelling.{nodes_in};
ghost use Rattle.genlib_format.specs.Faults.{is_named, first_of, limit_fault, pin_fault};
ghost use Rattle.genlib_format.specs.Faults.{lines_fault};
ghost use Rattle.genlib_format.specs.Reader.{number_in, block_in, line_for, block_for, gate_of};

use crate::checks::{limit_fault, number_fault, wrong_name};
use crate::fault::{LibFault, ReadFault};
use crate::gates::GateLines;
use crate::pins::PinLine;
use circuit_model::{Names, Rows};
use genlib_expr::{Expr, ExprFault, Parsed, read, rows};
use sis_base::{Copied, Name, Sequence};
use sis_text::Decimal;
use std::alloc::{AllocError, Global};

/// The delays of a pin, in millionths, for a rising and for a falling output.
#[derive(Clone, Copy, Debug, PartialEq, Eq)]
pub struct Block {
    pub rise: Decimal,
    pub fall: Decimal,
}

impl Copied for Block {
    fn copy(&self, _alloc: Global) -> Result<Block, AllocError> {
        Ok(*self)
    }
}

/// The delays of pins, in order.
pub type Blocks = Sequence<Block>;

/// A gate of a library: its cell, its area in millionths, its output, its pins in order of first
/// mention, its expression over their indices, and the delays of each pin.
#[derive(Debug, Drop)]
pub struct Gate {
    pub cell: Name,
    pub area: Decimal,
    pub output: Name,
    pub pins: Names,
    pub expr: Expr,
    pub blocks: Blocks,
}

impl Gate {
    /// The rows of the gate's function over its pins, in the order of Shannon's expansion.
    pub fn rows(&self, alloc: Global) -> Result<Rows, AllocError>
        ensures { IfOk result (λ rows. map (map literal_of) rows
            ≡ shannon (length self.now.pins) (function_of (formula_of self.now.expr))) }
    {
        rows(alloc, self.pins.len(), &self.expr)
    }
}

/// The number of a word; 0 if it is not one.
#[tactic(auto, unfolding(crate::specs::Reader::number_in))]
fn number_in(word: &Name) -> Decimal
    ensures { result ≡ number_in word.now }
{
    match Decimal::parse(word.as_slice()) {
        Some(number) => number,
        None => Decimal(0),
    }
}

/// The delays of a line.
#[tactic(auto, unfolding(crate::specs::Reader::block_in))]
fn block_in(line: &PinLine) -> Block
    ensures { result ≡ block_in line.now }
{
    Block {
        rise: number_in(&line.rise),
        fall: number_in(&line.fall),
    }
}

/// The line of a name.
fn line_named<'a>(lines: &'a [PinLine], name: &[u8]) -> Option<&'a PinLine>
    ensures { option_copied result ≡ find (is_named name.now) lines.now }
{
    lines.iter().find(|line| name == line.name.as_slice())
}

/// The line of a pin: that of its name, otherwise the one for all others.
#[tactic(auto, unfolding(crate::specs::Reader::line_for))]
fn line_for<'a>(lines: &'a [PinLine], pin: &Name) -> Option<&'a PinLine>
    ensures { option_copied result ≡ line_for lines.now pin.now }
{
    match line_named(lines, pin.as_slice()) {
        Some(line) => Some(line),
        None => line_named(lines, b"*"),
    }
}

/// The delays of a pin.
#[tactic(auto, unfolding(crate::specs::Reader::block_for))]
fn block_for(lines: &[PinLine], pin: &Name) -> Block
    ensures { result ≡ block_for lines.now pin.now }
{
    match line_for(lines, pin) {
        Some(line) => block_in(line),
        None => Block {
            rise: Decimal(0),
            fall: Decimal(0),
        },
    }
}

/// The delays of pins.
fn blocks_for(alloc: Global, lines: &[PinLine], pins: &[Name]) -> Result<Blocks, AllocError>
    ensures { IfOk result (λ made. made ≡ map (block_for lines.now) pins.now) }
{
    let mut made = Sequence::new(alloc);
    for pin in pins {
        made.push(block_for(lines, pin))?;
    }
    Ok(made)
}

/// The expression of an entry; `BadExpr` of its line exactly if its text spells none.
fn expression(alloc: Global, line: usize, text: &[u8]) -> Result<Parsed, ReadFault>
    ensures { Parses result line text.now }
{
    match read(alloc, text) {
        Ok(parsed) => {
            let _nodes = parsed.expr.nodes();
            Ok(parsed)
        }
        Err(ExprFault::Bad) => Err(ReadFault::Fault(LibFault::BadExpr(line))),
        Err(ExprFault::Memory) => Err(ReadFault::Memory),
    }
}

/// What is wrong with the limits or the pins of an entry.
#[tactic(auto, unfolding(crate::specs::Faults::first_of, crate::specs::Faults::pin_fault))]
fn parsed_fault(
    alloc: Global,
    lines: &GateLines,
    parsed: &Parsed,
) -> Result<Option<LibFault>, AllocError>
    requires pins { parsed.now.pins ≡ pins_of lines.now.text }
    requires depth { parsed.now.depth ≡ depth_of lines.now.text }
    ensures { IfOk result (λ fault. fault
        ≡ first_of (limit_fault lines.now ∷ pin_fault lines.now ∷ [])) }
{
    if let Some(fault) = limit_fault(lines, parsed) {
        return Ok(Some(fault));
    }
    match wrong_name(&lines.output, parsed.pins.as_slice(), lines.pins.as_slice()) {
        Some(name) => Ok(Some(LibFault::BadPin(name.copy(alloc)?))),
        None => Ok(None),
    }
}

/// The gate of an entry whose expression is read.
#[tactic(auto, unfolding(crate::specs::Reader::gate_of))]
fn gate_with(alloc: Global, lines: GateLines, parsed: Parsed) -> Result<Gate, AllocError>
    requires pins { parsed.pins ≡ pins_of lines.text }
    requires expr { nodes_in lines.text ≡ Some parsed.expr }
    ensures { IfOk result (λ gate. gate ≡ gate_of lines) }
{
    let blocks = blocks_for(alloc, lines.pins.as_slice(), parsed.pins.as_slice())?;
    Ok(Gate {
        area: number_in(&lines.area),
        cell: lines.cell,
        output: lines.output,
        pins: parsed.pins,
        expr: parsed.expr,
        blocks,
    })
}

/// The gate of an entry, or what is wrong with it, whatever precedes it.
#[tactic(auto, unfolding(crate::specs::Faults::first_of, crate::specs::Faults::lines_fault, crate::specs::Faults::expression_fault))]
pub fn gate_of(alloc: Global, lines: GateLines) -> Result<Gate, ReadFault>
    ensures { Gives result (lines_fault lines) (gate_of lines) }
{
    if let Some(fault) = number_fault(&lines) {
        return Err(ReadFault::Fault(fault));
    }
    let parsed = expression(alloc, lines.line, lines.text.as_slice())?;
    if let Some(fault) = parsed_fault(alloc, &lines, &parsed)? {
        return Err(ReadFault::Fault(fault));
    }
    let gate = gate_with(alloc, lines, parsed)?;
    Ok(gate)
}
