//! An instance of a model, and its lines outside of it.
//!
//! Source: BLIF appendix of the SIS report (UCB/ERL M92/41), `.subckt`: a formal is its actual.
//! That any other signal is a path is the project's own. `outside`, `control_outside` and
//! `add_lines` return exactly what `specs/Flat.antt` defines: a line of a table, a latch or a gate
//! with other names, a row as it is, and no other line. Formals and controls are looked up in maps.

ghost use Rattle.std.specs.Prelude.{◌≡◌, ◌++◌, ◌∷◌, [], map, IfOk, OnOk};
ghost use Rattle.circuit_model.specs.Names.{has};
ghost use Rattle.blif_lines.specs.Keyword.{kind_of};
ghost use Rattle.blif_models.specs.Flat.{is_formal, outside, control_outside, latch_outside, pair_outside, gate_outside, line_outside, lines_outside};
ghost use Rattle.blif_models.specs.Instances.{instance_in};

use crate::owned_line::OwnedLine;
use crate::pairs::Pairs;
use blif_gates::{pin_in, signal_in};
use blif_lines::Keyword;
use circuit_model::{Name, Names};
use indexmap::IndexSet;
use line_words::name_of;
use sis_base::Copied;
use std::alloc::{AllocError, Global};

/// An instance: its path word, its pairs, and the signals after which a control is named.
#[derive(Drop)]
pub struct Instance<'a> {
    pub path: Name,
    pub pairs: Pairs<'a>,
    pub controls: IndexSet<Name>,
}

/// Two parts of a name with a byte between them.
fn joined_by(alloc: Global, front: &[u8], mark: u8, back: &[u8]) -> Result<Name, AllocError>
    ensures { IfOk result (λ name. name ≡ front.now ++ mark ∷ back.now) }
{
    let mut bytes = Vec::new(alloc);
    bytes.extend_from_slice(front)?;
    bytes.push(mark)?;
    bytes.extend_from_slice(back)?;
    name_of(alloc, bytes.as_slice())
}

/// Appends copies of words.
pub fn add_copies(alloc: Global, out: &mut Names, words: &[Name]) -> Result<(), AllocError>
    ensures { OnOk result (out.new ≡ out.old ++ words.now) }
{
    for word in words {
        out.push(word.copy(alloc)?)?;
    }
    Ok(())
}

/// Whether a control is among signals.
fn is_among(controls: &IndexSet<Name>, control: &Name) -> bool
    ensures { result ≡ has controls.now.keys control.now }
{
    controls.contains(control)
}

/// Appends a line.
fn put_line(out: &mut Vec<OwnedLine>, number: usize, words: Names) -> Result<(), AllocError>
    ensures { OnOk result (out.new.items
        ≡ out.old.items ++ record { number = number; words = words } ∷ []) }
{
    out.push(OwnedLine::new(number, words))?;
    Ok(())
}

impl<'a> Instance<'a> {
    /// Whether a signal is a formal.
    pub fn is_formal(&self, signal: &[u8]) -> bool
        ensures { result ≡ is_formal (instance_in self.now) signal.now }
    {
        self.pairs.actual(signal).is_some()
    }

    /// What a signal is named outside: the actual of a formal, otherwise a path.
    pub fn outside(&self, alloc: Global, signal: &[u8]) -> Result<Name, AllocError>
        ensures { IfOk result (λ name. name ≡ outside (instance_in self.now) signal.now) }
    {
        match self.pairs.actual(signal) {
            Some(actual) => name_of(alloc, actual),
            None => joined_by(alloc, self.path.as_slice(), b'.', signal),
        }
    }

    /// What a control is named outside: as a signal if the instance has it, otherwise it stays.
    #[tactic(auto, unfolding(crate::specs::Flat::control_outside))]
    fn control_outside(&self, alloc: Global, control: &Name) -> Result<Name, AllocError>
        ensures { IfOk result (λ name. name ≡ control_outside (instance_in self.now) control.now) }
    {
        if control.as_slice() == b"NIL".as_slice() || !is_among(&self.controls, control) {
            return control.copy(alloc);
        }
        self.outside(alloc, control.as_slice())
    }

    /// Appends signals as they are named outside.
    fn add_outside(
        &self,
        alloc: Global,
        out: &mut Names,
        signals: &[Name],
    ) -> Result<(), AllocError>
        ensures { OnOk result (out.new ≡ out.old ++ map (outside (instance_in self.now))
            signals.now) }
    {
        for signal in signals {
            out.push(self.outside(alloc, signal.as_slice())?)?;
        }
        Ok(())
    }

    /// Appends the words of a latch that has a control.
    fn add_timed(
        &self,
        alloc: Global,
        out: &mut Names,
        signals: &[Name],
        kind: &Name,
        control: &Name,
    ) -> Result<(), AllocError>
        ensures { OnOk result (out.new ≡ out.old ++ map (outside (instance_in self.now))
            signals.now ++ kind.now ∷ control_outside (instance_in self.now) control.now ∷ []) }
    {
        self.add_outside(alloc, out, signals)?;
        out.push(kind.copy(alloc)?)?;
        out.push(self.control_outside(alloc, control)?)?;
        Ok(())
    }

    /// Appends the words of a latch outside.
    fn add_latch(&self, alloc: Global, out: &mut Names, words: &[Name]) -> Result<(), AllocError>
        ensures { OnOk result (out.new ≡ out.old ++ latch_outside (instance_in self.now)
            words.now) }
    {
        match words {
            [_, _, kind, control, rest @ ..] => {
                self.add_timed(alloc, out, &words[..2], kind, control)?;
                add_copies(alloc, out, rest)
            }
            _ => {
                let count = words.len().min(2);
                self.add_outside(alloc, out, &words[..count])?;
                add_copies(alloc, out, &words[count..])
            }
        }
    }

    /// The pair of a gate outside.
    fn pair_outside(&self, alloc: Global, pair: &[u8]) -> Result<Name, AllocError>
        ensures { IfOk result (λ made. made ≡ pair_outside (instance_in self.now) pair.now) }
    {
        let signal = self.outside(alloc, signal_in(pair))?;
        joined_by(alloc, pin_in(pair), b'=', signal.as_slice())
    }

    /// Appends the pairs of a gate outside.
    fn add_pairs(&self, alloc: Global, out: &mut Names, pairs: &[Name]) -> Result<(), AllocError>
        ensures { OnOk result (out.new ≡ out.old ++ map (pair_outside (instance_in self.now))
            pairs.now) }
    {
        for pair in pairs {
            out.push(self.pair_outside(alloc, pair.as_slice())?)?;
        }
        Ok(())
    }

    /// Appends the words of a gate outside.
    fn add_gate(&self, alloc: Global, out: &mut Names, words: &[Name]) -> Result<(), AllocError>
        ensures { OnOk result (out.new ≡ out.old ++ gate_outside (instance_in self.now)
            words.now) }
    {
        match words {
            [] => Ok(()),
            [cell, pairs @ ..] => {
                out.push(cell.copy(alloc)?)?;
                self.add_pairs(alloc, out, pairs)
            }
        }
    }

    /// Appends a line as it is outside, if it is one of a table, a latch or a gate, or a row.
    fn add_line(
        &self,
        alloc: Global,
        out: &mut Vec<OwnedLine>,
        line: &OwnedLine,
    ) -> Result<(), AllocError>
        ensures { OnOk result (out.new.items ≡ out.old.items
            ++ line_outside (instance_in self.now) (kind_of line.now) line.now) }
    {
        match line.kind() {
            Keyword::Names => {
                let mut words = line.first_alone(alloc)?;
                self.add_outside(alloc, &mut words, line.others())?;
                put_line(out, line.number(), words)
            }
            Keyword::Latch => {
                let mut words = line.first_alone(alloc)?;
                self.add_latch(alloc, &mut words, line.others())?;
                put_line(out, line.number(), words)
            }
            Keyword::Gate => {
                let mut words = line.first_alone(alloc)?;
                self.add_gate(alloc, &mut words, line.others())?;
                put_line(out, line.number(), words)
            }
            Keyword::Row => {
                out.push(line.copy(alloc)?)?;
                Ok(())
            }
            _ => Ok(()),
        }
    }

    /// Appends lines as they are outside.
    #[tactic(auto, unfolding(crate::specs::Flat::lines_outside))]
    pub fn add_lines(
        &self,
        alloc: Global,
        out: &mut Vec<OwnedLine>,
        lines: &[OwnedLine],
    ) -> Result<(), AllocError>
        ensures { OnOk result (out.new.items ≡ out.old.items
            ++ lines_outside (instance_in self.now) lines.now) }
    {
        for line in lines {
            self.add_line(alloc, out, line)?;
        }
        Ok(())
    }
}
