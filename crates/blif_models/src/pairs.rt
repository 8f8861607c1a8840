//! The pairs `formal=actual` of an instance, looked up by their formals.
//!
//! Source: BLIF appendix of the SIS report (UCB/ERL M92/41), `.subckt`. A `Pairs` keeps the pairs
//! in the order of the line and an index from each formal to its actual; of two pairs of one formal
//! the first counts (`actual_of` of `specs/Renaming.antt`). Contracts see the list of pairs alone.

ghost use Rattle.std.specs.Prelude.{◌≡◌, ℕ, List, Some, None, is_some, bytes_eq, if◌then◌else◌, IfOk, OnOk, option_map};
ghost use Rattle.std.specs.Option.{option_or};
ghost use Rattle.std.specs.Borrow.{Bor};
ghost use Rattle.line_words.specs.LineWords.{texts};
ghost use Rattle.blif_gates.specs.GateLines.{pin_in, signal_in};
ghost use Rattle.blif_models.specs.Renaming.{actual_of, looked_up, IsIndex};

use blif_gates::{pin_in, signal_in};
use indexmap::IndexMap;
use std::alloc::{AllocError, Global};
use std::marker::Model;

/// The pairs of an instance, with the actuals by their formals; contracts see the pairs.
#[derive(Drop)]
pub struct Pairs<'a> {
    pairs: Vec<&'a [u8]>,
    actuals: IndexMap<&'a [u8], &'a [u8]>,
}

impl<'a> Model for Pairs<'a> {
    ghost use Rattle.std.specs.Prelude.{List, ℕ};
    ghost use Rattle.line_words.specs.LineWords.{texts};
    ghost use Rattle.blif_models.specs.Renaming.{IsIndex, looked_up};

    ghost Value = { List (List ℕ) };

    ghost view = { λ pairs. texts pairs.pairs.items };

    ghost invariant = { λ pairs. IsIndex (texts pairs.pairs.items) (looked_up pairs.actuals) };
}

/// What an index has at a word.
fn found<'a>(actuals: &IndexMap<&'a [u8], &'a [u8]>, formal: &[u8]) -> Option<&'a [u8]>
    ensures { option_map (λ (actual : Bor (List ℕ)). actual.now) result
        ≡ looked_up actuals.now formal.now }
{
    actuals.get(formal).copied()
}

/// Whether an index has something at a word.
fn is_known(actuals: &IndexMap<&[u8], &[u8]>, formal: &[u8]) -> bool
    ensures { result ≡ is_some (looked_up actuals.now formal.now) }
{
    actuals.contains_key(formal)
}

/// Sets the actual of a formal.
fn set_actual<'a>(
    actuals: &mut IndexMap<&'a [u8], &'a [u8]>,
    formal: &'a [u8],
    actual: &'a [u8],
) -> Result<(), AllocError>
    ensures { OnOk result ((word : List ℕ) → looked_up actuals.new word
        ≡ (if bytes_eq formal.now word then Some actual.now else looked_up actuals.old word)) }
{
    let _actual = actuals.insert(formal, actual)?;
    Ok(())
}

/// Adds a pair to an index, unless its formal has an actual.
fn add_pair<'a>(
    actuals: &mut IndexMap<&'a [u8], &'a [u8]>,
    pair: &'a [u8],
) -> Result<(), AllocError>
    ensures { OnOk result ((word : List ℕ) → looked_up actuals.new word
        ≡ option_or (looked_up actuals.old word)
        (if bytes_eq word (pin_in pair.now) then Some (signal_in pair.now) else None)) }
{
    let formal = pin_in(pair);
    if is_known(actuals, formal) {
        return Ok(());
    }
    set_actual(actuals, formal, signal_in(pair))?;
    Ok(())
}

/// The index of pairs.
fn index_of<'a>(
    alloc: Global,
    pairs: &[&'a [u8]],
) -> Result<IndexMap<&'a [u8], &'a [u8]>, AllocError>
    ensures { IfOk result (λ index. IsIndex (texts pairs.now) (looked_up index)) }
{
    let mut actuals = IndexMap::new(alloc);
    for pair in pairs {
        add_pair(&mut actuals, *pair)?;
    }
    Ok(actuals)
}

impl<'a> Pairs<'a> {
    /// The pairs of an instance.
    pub fn new(alloc: Global, pairs: Vec<&'a [u8]>) -> Result<Pairs<'a>, AllocError>
        ensures { IfOk result (λ made. made ≡ texts pairs.entry.items) }
    {
        let actuals = index_of(alloc, pairs.as_slice())?;
        Ok(Pairs { pairs, actuals })
    }

    /// The actual of a formal; none if it is no formal.
    pub fn actual(&self, formal: &[u8]) -> Option<&'a [u8]>
        ensures { option_map (λ (actual : Bor (List ℕ)). actual.now) result
            ≡ actual_of self.now formal.now }
    {
        found(&self.actuals, formal)
    }
}
