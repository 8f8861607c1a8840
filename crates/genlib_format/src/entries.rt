//! The entries of a library file.
//!
//! Source: the genlib format of SIS (UCB/ERL M92/41): `GATE` and `LATCH` begin entries.
//! `entries_of` returns exactly the entries of `specs/Entries.antt`: gates as they are written,
//! latches only as a mark, since they are skipped, and as the last one an entry without the right
//! shape, after which nothing is read.

ghost use Rattle.std.specs.Prelude.{◌≡◌, ◌<◌, ◌≤◌, ◌∷◌, List, [], length, not, ◌||◌, option_map, IfOk};
ghost use Rattle.std.specs.List.{take_while};
ghost use Rattle.genlib_format.specs.declared.words.Lined.{Lined};
ghost use Rattle.genlib_format.specs.Gates.{gate_at};
ghost use Rattle.genlib_format.specs.Entries.{is_gate, is_latch, from_entry, gate_entry, entry_from, entry_at, entries_of};
ghost use Rattle.genlib_format.specs.Statements.{Part};

use crate::gates::{GateLines, gate_lines};
use crate::rest::Rest;
use crate::words::Lined;
use std::alloc::{AllocError, Global};

/// An entry of a library file.
#[derive(Debug, Drop)]
pub enum Entry {
    /// A gate, as its entry is written.
    Gate(GateLines),
    /// A latch, which is not used.
    Latch,
    /// Words without the shape of an entry, by the line of the first.
    Misshapen(usize),
}

/// Whether a word begins the entry of a gate.
fn is_gate(lined: &Lined) -> bool
    ensures { result ≡ is_gate lined.now }
{
    lined.word.as_slice() == b"GATE".as_slice()
}

/// Whether a word begins the entry of a latch.
fn is_latch(lined: &Lined) -> bool
    ensures { result ≡ is_latch lined.now }
{
    lined.word.as_slice() == b"LATCH".as_slice()
}

/// The number of words before the next one that begins an entry.
fn words_before_entry(words: &[Lined]) -> usize
    ensures value { result ≡ length (take_while (λ word. not (is_gate word || is_latch word))
        words.now) }
    ensures within { result ≤ length words.now }
{
    words
        .iter()
        .take_while(|lined| !(is_gate(*lined) || is_latch(*lined)))
        .count()
}

/// Reads the entry of a gate.
fn gate_entry(rest: &mut Rest, alloc: Global, line: usize) -> Result<Entry, AllocError>
    ensures { IfOk result (λ entry. gate_entry line (gate_at rest.old)
        ≡ record { made = entry; rest = rest.new }) }
{
    match gate_lines(rest, alloc)? {
        Some(lines) => Ok(Entry::Gate(lines)),
        None => {
            rest.skip(rest.ahead().len());
            Ok(Entry::Misshapen(line))
        }
    }
}

/// Skips the entry of a latch.
#[tactic(auto, unfolding(crate::specs::Entries::from_entry))]
fn skip_latch(rest: &mut Rest)
    requires { 0 < length rest.old }
    ensures { (first : Lined) (others : List Lined) → rest.old ≡ first ∷ others → rest.new
        ≡ from_entry others }
{
    rest.skip(1);
    rest.skip(words_before_entry(rest.ahead()));
}

/// Reads the first entry; none if no word is left.
#[tactic(auto, unfolding(crate::specs::Entries::entry_at, crate::specs::Entries::entry_from))]
fn next_entry(rest: &mut Rest, alloc: Global) -> Result<Option<Entry>, AllocError>
    ensures { IfOk result (λ found. entry_at rest.old ≡ option_map
        (λ entry. record { made = entry; rest = rest.new }) found) }
{
    let Some(first) = rest.ahead().first() else {
        return Ok(None);
    };
    let line = first.line;
    if is_gate(first) {
        return Ok(Some(gate_entry(rest, alloc, line)?));
    }
    if is_latch(first) {
        skip_latch(rest);
        return Ok(Some(Entry::Latch));
    }
    rest.skip(rest.ahead().len());
    Ok(Some(Entry::Misshapen(line)))
}

/// The entries of the words of a file, up to the first without the right shape.
#[tactic(auto, unfolding(crate::specs::Entries::entries_of), using(crate::proofs::EntrySteps::entry_more, crate::proofs::EntrySteps::entry_last, crate::proofs::EntrySteps::entries_done, std::proofs::lemmas::Grind::common_steps))]
pub fn entries_of(alloc: Global, words: Vec<Lined>) -> Result<Vec<Entry>, AllocError>
    ensures { IfOk result (λ found. found.items ≡ entries_of words.items) }
{
    let count = words.len();
    let mut rest = Rest::new(words);
    let mut found = Vec::new(alloc);
    for _entry in 0..count {
        match next_entry(&mut rest, alloc)? {
            Some(entry) => found.push(entry)?,
            None => return Ok(found),
        }
    }
    Ok(found)
}
