//! The ports of the models of a file.
//!
//! Source: BLIF appendix of the SIS report (UCB/ERL M92/41): `.inputs` and `.outputs` list them;
//! without such a line they are found by what the lines read and drive (`specs/Ports.antt`). The
//! table of the ports of all models is made by rounds: round k has those where models nest less
//! deep than k (`specs/PortTables.antt`). If each model lists its ports, one round is enough;
//! otherwise one that changes nothing is the last. A round is linear in the lines. No clause says
//! how many rounds there are.

ghost use Rattle.std.specs.Prelude.{◌≡◌, ◌+◌, true, not, ◌∷◌, [], option_copied, slice_index_or, IfOk, OnOk};
ghost use Rattle.std.specs.List.{filter, list_all, list_any};
ghost use Rattle.circuit_model.specs.Names.{has};
ghost use Rattle.circuit_tables.specs.Folding.{each_once};
ghost use Rattle.circuit_tables.specs.Listing.{names_with};
ghost use Rattle.line_words.specs.LineWords.{other_words};
ghost use Rattle.sis_text.specs.Entries.{entry_at};
ghost use Rattle.blif_lines.specs.Keyword.{kind_of};
ghost use Rattle.blif_lines.specs.Reader.{of_lines, names_beside};
ghost use Rattle.blif_models.specs.Files.{lines_at};
ghost use Rattle.blif_models.specs.Ports.{ports_with};
ghost use Rattle.blif_models.specs.PortTables.{ports_by, lists_both, next_ports, next_table, table_at};
ghost use Rattle.blif_models.specs.Sides.{ports_on, listed_on, is_kind_on, lists_on};

use crate::file::File;
use crate::limits::MAX_DEPTH;
use crate::line_kind::kind_at;
use crate::port_lines::signals;
use crate::side::{Side, other_side};
use crate::word_set::WordSet;
use blif_lines::Keyword;
use genlib_format::Library;
use line_words::other_words;
use sis_text::{Line, texts_at};
use std::alloc::{AllocError, Global};

/// The ports of a model, each once.
#[derive(Drop)]
pub struct Ports<'a> {
    pub inputs: WordSet<'a>,
    pub outputs: WordSet<'a>,
}

/// Whether a line lists ports of a side.
fn lists_some(text: &[u8], side: Side, line: &Line) -> bool
    ensures { result ≡ is_kind_on side (kind_of (entry_at text.now line.now)) }
{
    match (side, kind_at(text, line)) {
        (Side::Inputs, Keyword::Inputs) | (Side::Outputs, Keyword::Outputs) => true,
        _ => false,
    }
}

/// Whether some line lists ports of a side.
fn some_lists(text: &[u8], side: Side, lines: &[Line]) -> bool
    ensures { result ≡ list_any (λ line. is_kind_on side (kind_of (entry_at text.now line)))
        lines.now }
{
    lines.iter().any(|line| lists_some(text, side, line))
}

/// Whether lines list ports of a side.
pub fn lists(text: &[u8], side: Side, lines: &[Line]) -> bool
    ensures { result ≡ lists_on side (lines_at text.now lines.now) }
{
    some_lists(text, side, lines)
}

/// Adds the ports of a side that a line lists.
fn add_listed<'a>(
    alloc: Global,
    set: &mut WordSet<'a>,
    text: &'a [u8],
    side: Side,
    line: &Line,
) -> Result<(), AllocError>
    ensures { OnOk result (set.new ≡ names_with set.old
        (listed_on side (kind_of (entry_at text.now line.now))
        (other_words (entry_at text.now line.now).words))) }
{
    if lists_some(text, side, line) {
        let words = texts_at(alloc, text, line.words.as_slice())?;
        set.add_all(other_words(words.as_slice()))?;
    }
    Ok(())
}

/// The ports of a side that lines list, each once.
#[tactic(auto, using(crate::proofs::PortSets::all_put, std::proofs::lemmas::Grind::common_steps), unfolding(circuit_tables::specs::Listing::names_with))]
fn listed<'a>(
    alloc: Global,
    text: &'a [u8],
    side: Side,
    lines: &[Line],
) -> Result<WordSet<'a>, AllocError>
    ensures { IfOk result (λ set. set ≡ each_once
        (of_lines (listed_on side) (lines_at text.now lines.now))) }
{
    let mut set = WordSet::new(alloc);
    for line in lines {
        add_listed(alloc, &mut set, text, side, line)?;
    }
    Ok(set)
}

/// Adds a word, unless it is in another set.
#[tactic(auto, unfolding(circuit_tables::specs::Listing::names_with))]
fn add_beside<'a>(
    set: &mut WordSet<'a>,
    others: &WordSet<'_>,
    word: &'a [u8],
) -> Result<(), AllocError>
    ensures { OnOk result (set.new ≡ names_with set.old
        (filter (λ one. not (has others.now one)) (word.now ∷ []))) }
{
    if !others.holds(word) {
        set.add(word)?;
    }
    Ok(())
}

/// The words of a set that are not in another one.
#[tactic(auto, using(crate::proofs::PortSets::all_put, std::proofs::lemmas::Grind::common_steps), unfolding(circuit_tables::specs::Listing::names_with, blif_lines::specs::Reader::names_beside))]
fn beside<'a>(
    alloc: Global,
    others: &WordSet<'_>,
    words: &WordSet<'a>,
) -> Result<WordSet<'a>, AllocError>
    ensures { IfOk result (λ set. set ≡ names_beside others.now words.now) }
{
    let mut set = WordSet::new(alloc);
    for word in words.words() {
        add_beside(&mut set, others, word)?;
    }
    Ok(set)
}

/// The ports of a side of the lines of a model, each once, by a table of the ports of all models.
fn ports_on<'a>(
    alloc: Global,
    side: Side,
    library: Option<&Library>,
    file: &File<'a>,
    table: &[Ports<'a>],
    lines: &[Line],
) -> Result<WordSet<'a>, AllocError>
    ensures { IfOk result (λ set. set ≡ each_once (ports_on side
        (ports_with (option_copied library.entry) (ports_by file.now.models table.now)
        (lines_at file.now.text lines.now)))) }
{
    if lists(file.text(), side, lines) {
        return listed(alloc, file.text(), side, lines);
    }
    let others = signals(alloc, other_side(side), library, file, table, lines)?;
    let words = signals(alloc, side, library, file, table, lines)?;
    beside(alloc, &others, &words)
}

/// The ports of a model after one more round.
fn next_ports<'a>(
    alloc: Global,
    library: Option<&Library>,
    file: &File<'a>,
    table: &[Ports<'a>],
    place: usize,
) -> Result<Ports<'a>, AllocError>
    ensures { IfOk result (λ ports. ports ≡ next_ports (option_copied library.entry)
        file.now.models table.now place) }
{
    let lines = file.body(place);
    let inputs = ports_on(alloc, Side::Inputs, library, file, table, lines)?;
    let outputs = ports_on(alloc, Side::Outputs, library, file, table, lines)?;
    Ok(Ports { inputs, outputs })
}

/// The ports of all models after one more round.
#[tactic(auto, unfolding(crate::specs::PortTables::next_table))]
fn next_table<'a>(
    alloc: Global,
    library: Option<&Library>,
    file: &File<'a>,
    table: &[Ports<'a>],
) -> Result<Vec<Ports<'a>>, AllocError>
    ensures { IfOk result (λ next. next.items ≡ next_table (option_copied library.entry)
        file.now.models table.now) }
{
    let count = file.count();
    let mut next = Vec::with_capacity(alloc, count)?;
    for place in 0..count {
        next.push(next_ports(alloc, library, file, table, place)?)?;
    }
    Ok(next)
}

/// Whether two models have the same ports.
fn is_same(ports: &Ports<'_>, other: &Ports<'_>) -> bool
    ensures { result ≡ true → ports.now ≡ other.now }
{
    ports.inputs.is_same(&other.inputs) && ports.outputs.is_same(&other.outputs)
}

/// Whether two tables are the same.
fn are_same(table: &[Ports<'_>], other: &[Ports<'_>]) -> bool
    ensures { result ≡ true → table.now ≡ other.now }
{
    if table.len() != other.len() {
        return false;
    }
    for place in 0..table.len() {
        if !is_same(&table[place], &other[place]) {
            return false;
        }
    }
    true
}

/// Whether a model lists its inputs and its outputs.
fn lists_both(file: &File<'_>, place: usize) -> bool
    ensures { result ≡ lists_both (slice_index_or file.now.models place []) }
{
    let lines = file.body(place);
    lists(file.text(), Side::Inputs, lines) && lists(file.text(), Side::Outputs, lines)
}

/// Whether each model lists its inputs and its outputs.
fn all_list(file: &File<'_>) -> bool
    ensures { result ≡ true → list_all lists_both file.now.models ≡ true }
{
    for place in 0..file.count() {
        if !lists_both(file, place) {
            return false;
        }
    }
    true
}

/// The ports of all models.
pub fn port_table<'a>(
    alloc: Global,
    library: Option<&Library>,
    file: &File<'a>,
) -> Result<Vec<Ports<'a>>, AllocError>
    ensures { IfOk result (λ table. table.items ≡ table_at (option_copied library.entry)
        file.now.models (MAX_DEPTH + 1)) }
{
    let none = Vec::new(alloc);
    let mut table = next_table(alloc, library, file, none.as_slice())?;
    if all_list(file) {
        return Ok(table);
    }
    for _round in 0..MAX_DEPTH {
        let next = next_table(alloc, library, file, table.as_slice())?;
        if are_same(next.as_slice(), table.as_slice()) {
            return Ok(table);
        }
        table = next;
    }
    Ok(table)
}
