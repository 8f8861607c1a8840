//! The faults of the entry of a gate that do not depend on the entries before it.
//!
//! Source: the genlib format of SIS (UCB/ERL M92/41); the order of the causes and the limits are
//! the project's own (`specs/Faults.antt`). A number that is missing, a limit that is exceeded, and
//! a wrong name: the output as a pin, a PIN line of no pin or of a pin that has one, and a pin
//! without a line. Each call returns exactly the fault of the definition, the first in its order.

ghost use Rattle.std.specs.Prelude.{◌≡◌, ◌≤◌, bytes_eq, ℕ, List, ◌∷◌, [], ◌&&◌, ◌||◌, not, nat_lt};
ghost use Rattle.std.specs.Prelude.{None, length, find, map, option_map, option_copied, take};
ghost use Rattle.std.specs.List.{list_all, list_any};
ghost use Rattle.circuit_model.specs.Names.{has};
ghost use Rattle.genlib_expr.specs.Text.{pins_of, depth_of};
ghost use Rattle.genlib_format.specs.declared.pins.PinLine.{PinLine};
ghost use Rattle.genlib_format.specs.Faults.{number_fault, limit_fault, star, is_named, has_line};
ghost use Rattle.genlib_format.specs.Faults.{wrong_line, bare_pin, wrong_name, long_name};

use crate::fault::{LibFault, LimitKind};
use crate::gates::GateLines;
use crate::pins::{PinLine, is_number};
use circuit_model::has_name;
use genlib_expr::Parsed;
use sis_base::Name;
use sis_base::limits::{MAX_NAME, MAX_NESTING, MAX_PINS};

/// Whether the numbers of all pins are numbers.
fn are_numeric(pins: &[PinLine]) -> bool
    ensures { result ≡ list_all (λ (pin : PinLine). pin.is_numeric) pins.now }
{
    pins.iter().all(|pin| pin.is_numeric)
}

/// The fault of a missing number.
#[tactic(auto, unfolding(crate::specs::Faults::number_fault))]
pub fn number_fault(lines: &GateLines) -> Option<LibFault>
    ensures { result ≡ number_fault lines.now }
{
    if is_number(&lines.area) && are_numeric(lines.pins.as_slice()) {
        return None;
    }
    Some(LibFault::BadNumber(lines.line))
}

/// The first name that is too long.
fn first_long(names: &[Name]) -> Option<&Name>
    ensures { option_copied result ≡ find (λ (name : List ℕ). nat_lt MAX_NAME (length name))
        names.now }
{
    names.iter().find(|name| name.len() > MAX_NAME)
}

/// The fault of the first name that is too long.
#[tactic(auto, unfolding(crate::specs::Faults::long_name))]
fn long_name(names: &[Name]) -> Option<LibFault>
    ensures { result ≡ long_name names.now }
{
    match first_long(names) {
        None => None,
        Some(name) => Some(LibFault::Limit(LimitKind::Name, name.len())),
    }
}

/// The fault of a gate's names: its cell's, its output's, its pins'.
#[tactic(auto, unfolding(crate::specs::Faults::long_name))]
fn names_fault(cell: &Name, output: &Name, pins: &[Name]) -> Option<LibFault>
    ensures { result ≡ long_name (cell.now ∷ output.now ∷ pins.now) }
{
    if cell.len() > MAX_NAME {
        return Some(LibFault::Limit(LimitKind::Name, cell.len()));
    }
    if output.len() > MAX_NAME {
        return Some(LibFault::Limit(LimitKind::Name, output.len()));
    }
    long_name(pins)
}

/// The fault of a limit that is exceeded.
#[tactic(auto, unfolding(crate::specs::Faults::limit_fault, crate::specs::Faults::first_of))]
pub fn limit_fault(lines: &GateLines, parsed: &Parsed) -> Option<LibFault>
    requires pins { parsed.now.pins ≡ pins_of lines.now.text }
    requires depth { parsed.now.depth ≡ depth_of lines.now.text }
    ensures value { result ≡ limit_fault lines.now }
    ensures few { result ≡ None → length parsed.now.pins ≤ MAX_PINS }
{
    if let Some(fault) = names_fault(&lines.cell, &lines.output, parsed.pins.as_slice()) {
        return Some(fault);
    }
    if parsed.depth > MAX_NESTING {
        return Some(LibFault::Limit(LimitKind::Depth, parsed.depth));
    }
    if parsed.pins.len() > MAX_PINS {
        return Some(LibFault::Limit(LimitKind::Pins, parsed.pins.len()));
    }
    None
}

/// Whether a name has a line.
pub fn has_line(lines: &[PinLine], name: &[u8]) -> bool
    ensures { result ≡ has_line lines.now name.now }
{
    lines.iter().any(|line| name == line.name.as_slice())
}

/// Whether the name of a line is neither `*` nor a pin, or already has a line.
fn is_wrong(before: &[PinLine], pins: &[Name], name: &Name) -> bool
    ensures { result ≡ (not (bytes_eq star name.now || has pins.now name.now)
        || has_line before.now name.now) }
{
    !(b"*".as_slice() == name.as_slice() || has_name(pins, name))
        || has_line(before, name.as_slice())
}

/// The first name of a line that is neither `*` nor a pin, or that an earlier line has.
#[tactic(auto, using(crate::proofs::PinFaults::line_wrong, crate::proofs::PinFaults::line_right, crate::proofs::PinFaults::lines_done, std::proofs::lemmas::Grind::common_steps))]
fn wrong_line<'a>(pins: &[Name], lines: &'a [PinLine]) -> Option<&'a Name>
    ensures { option_copied result ≡ wrong_line [] pins.now lines.now }
{
    for (i, line) in lines.iter().enumerate() {
        if is_wrong(&lines[..i], pins, &line.name) {
            return Some(&line.name);
        }
    }
    None
}

/// The first pin that has no line.
fn first_bare<'a>(lines: &[PinLine], pins: &'a [Name]) -> Option<&'a Name>
    ensures { option_copied result
        ≡ find (λ (pin : List ℕ). not (has_line lines.now pin)) pins.now }
{
    pins.iter().find(|pin| !has_line(lines, pin.as_slice()))
}

/// The first pin without a line, if no line is for all others.
#[tactic(auto, unfolding(crate::specs::Faults::bare_pin))]
fn bare_pin<'a>(lines: &[PinLine], pins: &'a [Name]) -> Option<&'a Name>
    ensures { option_copied result ≡ bare_pin lines.now pins.now }
{
    if has_line(lines, b"*") {
        return None;
    }
    first_bare(lines, pins)
}

/// The first name that is wrong: the output as a pin, a line's name, a pin without a line.
#[tactic(auto, unfolding(crate::specs::Faults::wrong_name, crate::specs::Faults::first_of))]
pub fn wrong_name<'a>(output: &'a Name, pins: &'a [Name], lines: &'a [PinLine]) -> Option<&'a Name>
    ensures { option_copied result ≡ wrong_name output.now pins.now lines.now }
{
    if has_name(pins, output) {
        return Some(output);
    }
    if let Some(name) = wrong_line(pins, lines) {
        return Some(name);
    }
    bare_pin(lines, pins)
}
