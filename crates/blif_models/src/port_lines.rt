//! The signals that the lines of a model read, and those that they drive.
//!
//! Source: BLIF appendix of the SIS report (UCB/ERL M92/41). An instance reads the actuals of the
//! inputs of its model and drives those of the outputs; the ports of all models are given
//! (`specs/Sides.antt`, after `specs/Ports.antt`). All signals are slices of the text.

ghost use Rattle.std.specs.Prelude.{◌≡◌, ◌∷◌, [], find, bytes_eq, flat_map, option_copied, option_to_list, if◌then◌else◌, IfOk, OnOk};
ghost use Rattle.std.specs.List.{filter};
ghost use Rattle.circuit_model.specs.Names.{has};
ghost use Rattle.circuit_tables.specs.Folding.{each_once};
ghost use Rattle.circuit_tables.specs.Listing.{names_with};
ghost use Rattle.sis_text.specs.Entries.{entry_at};
ghost use Rattle.line_words.specs.LineWords.{texts, first_word, other_words};
ghost use Rattle.blif_gates.specs.GateLines.{is_pair, signal_in, signals_of};
ghost use Rattle.blif_lines.specs.Reader.{gate_tables};
ghost use Rattle.blif_models.specs.Files.{lines_at};
ghost use Rattle.blif_models.specs.Ports.{actuals_of};
ghost use Rattle.blif_models.specs.PortTables.{ports_by};
ghost use Rattle.blif_models.specs.Sides.{formals_on, gate_signals, signals_as, signals_with};

use crate::file::File;
use crate::ports::Ports;
use crate::side::Side;
use crate::word_set::WordSet;
use blif_gates::{is_pair, pin_in, read_gate, signal_in};
use blif_lines::{Keyword, first_words, front_words, keyword_of, last_word, latch_output};
use circuit_model::{Name, Table, has_name};
use genlib_format::Library;
use line_words::{first_word, name_of, other_words};
use sis_text::{Line, texts_at};
use std::alloc::{AllocError, Global};

/// Whether an instance reads, or drives, the actual of a formal.
#[tactic(auto, using(crate::proofs::PortSets::has_own))]
fn is_formal(side: Side, ports: &Ports<'_>, formal: &[u8]) -> bool
    ensures { result ≡ has (formals_on side ports.now) formal.now }
{
    match side {
        Side::Inputs => ports.inputs.holds(formal),
        Side::Outputs => ports.outputs.holds(formal) && !ports.inputs.holds(formal),
    }
}

/// Adds the actual of a pair, if the instance reads it, or drives it.
#[tactic(auto, unfolding(crate::specs::Ports::actuals_of, circuit_tables::specs::Listing::names_with))]
fn add_actual<'a>(
    set: &mut WordSet<'a>,
    side: Side,
    ports: &Ports<'_>,
    word: &'a [u8],
) -> Result<(), AllocError>
    ensures { OnOk result (set.new ≡ names_with set.old
        (actuals_of (formals_on side ports.now) (filter is_pair (word.now ∷ [])))) }
{
    if is_pair(word) && is_formal(side, ports, pin_in(word)) {
        set.add(signal_in(word))?;
    }
    Ok(())
}

/// Adds the actuals of the pairs among some words that the instance reads, or drives.
#[tactic(auto, using(std::proofs::lemmas::Grind::common_steps), unfolding(crate::specs::Ports::actuals_of, circuit_tables::specs::Listing::names_with))]
fn add_actuals<'a>(
    set: &mut WordSet<'a>,
    side: Side,
    ports: &Ports<'_>,
    words: &[&'a [u8]],
) -> Result<(), AllocError>
    ensures { OnOk result (set.new ≡ names_with set.old
        (actuals_of (formals_on side ports.now) (filter is_pair (texts words.now)))) }
{
    for word in words {
        add_actual(set, side, ports, word)?;
    }
    Ok(())
}

/// Adds the signals that an instance reads, or drives, by the words after the first of its line.
#[tactic(auto, using(crate::proofs::PortSets::no_actuals), unfolding(circuit_tables::specs::Listing::names_with))]
fn add_instance<'a>(
    set: &mut WordSet<'a>,
    side: Side,
    file: &File<'a>,
    table: &[Ports<'a>],
    words: &[&'a [u8]],
) -> Result<(), AllocError>
    ensures { OnOk result (set.new ≡ names_with set.old
        (actuals_of (formals_on side (ports_by file.now.models table.now
        (first_word (texts words.now)))) (filter is_pair (other_words (texts words.now))))) }
{
    let Some(place) = file.find(first_word(words)) else {
        return Ok(());
    };
    let Some(ports) = table.get(place) else {
        return Ok(());
    };
    add_actuals(set, side, ports, other_words(words))
}

/// The table of the words of a `.gate` line after the first, if they are right.
fn gate_table(
    alloc: Global,
    library: Option<&Library>,
    words: &[&[u8]],
) -> Result<Option<Table>, AllocError>
    ensures { IfOk result (λ table. option_to_list table
        ≡ gate_tables (option_copied library.entry) (texts words.now)) }
{
    let Some(library) = library else {
        return Ok(None);
    };
    let answer = read_gate(alloc, library, first_word(words), other_words(words))?;
    Ok(answer.ok())
}

/// Adds the signal of a pair, if it is among the inputs of a table.
#[tactic(auto, unfolding(circuit_tables::specs::Listing::names_with))]
fn add_read<'a>(
    alloc: Global,
    set: &mut WordSet<'a>,
    inputs: &[Name],
    word: &'a [u8],
) -> Result<(), AllocError>
    ensures { OnOk result (set.new ≡ names_with set.old
        (filter (has inputs.now) (signals_of (word.now ∷ [])))) }
{
    let signal = signal_in(word);
    if has_name(inputs, &name_of(alloc, signal)?) {
        set.add(signal)?;
    }
    Ok(())
}

/// Adds those signals of pairs that are among the inputs of a table.
#[tactic(auto, using(std::proofs::lemmas::Grind::common_steps), unfolding(circuit_tables::specs::Listing::names_with))]
fn add_reads<'a>(
    alloc: Global,
    set: &mut WordSet<'a>,
    inputs: &[Name],
    words: &[&'a [u8]],
) -> Result<(), AllocError>
    ensures { OnOk result (set.new ≡ names_with set.old
        (filter (has inputs.now) (signals_of (texts words.now)))) }
{
    for word in words {
        add_read(alloc, set, inputs, word)?;
    }
    Ok(())
}

/// The first pair of a signal.
fn pair_of<'a, 'w>(words: &'w [&'a [u8]], signal: &[u8]) -> Option<&'w &'a [u8]>
    ensures { option_copied result
        ≡ find (λ word. bytes_eq signal.now (signal_in word.now)) words.now }
{
    words.iter().find(|word| signal == signal_in(word))
}

/// Adds a signal, if it is among those of pairs.
fn add_signal<'a>(
    set: &mut WordSet<'a>,
    signal: &[u8],
    words: &[&'a [u8]],
) -> Result<(), AllocError>
    ensures { OnOk result (set.new ≡ names_with set.old
        (if has (signals_of (texts words.now)) signal.now then signal.now ∷ [] else [])) }
{
    match pair_of(words, signal) {
        None => Ok(()),
        Some(word) => set.add(signal_in(word)),
    }
}

/// Adds the signals that the table of a gate reads, or the one that it drives, by the words after
/// the first of its line.
fn add_gate<'a>(
    alloc: Global,
    set: &mut WordSet<'a>,
    side: Side,
    library: Option<&Library>,
    words: &[&'a [u8]],
) -> Result<(), AllocError>
    ensures { OnOk result (set.new ≡ names_with set.old
        (flat_map (λ table. gate_signals side table (other_words (texts words.now)))
        (gate_tables (option_copied library.entry) (texts words.now)))) }
{
    let Some(table) = gate_table(alloc, library, words)? else {
        return Ok(());
    };
    let pairs = other_words(words);
    match side {
        Side::Inputs => add_reads(alloc, set, table.inputs.as_slice(), pairs),
        Side::Outputs => add_signal(set, table.output.as_slice(), pairs),
    }
}

/// Adds the signals that a line reads, or drives, by its kind and its words after the first.
fn add_as<'a>(
    alloc: Global,
    set: &mut WordSet<'a>,
    side: Side,
    library: Option<&Library>,
    file: &File<'a>,
    table: &[Ports<'a>],
    kind: Keyword,
    words: &[&'a [u8]],
) -> Result<(), AllocError>
    ensures { OnOk result (set.new ≡ names_with set.old
        (signals_as side (option_copied library.entry) (ports_by file.now.models table.now)
        kind (texts words.now))) }
{
    match (kind, side) {
        (Keyword::Subckt, _) => add_instance(set, side, file, table, words),
        (Keyword::Gate, _) => add_gate(alloc, set, side, library, words),
        (Keyword::Names, Side::Inputs) => set.add_all(front_words(words)),
        (Keyword::Names, Side::Outputs) => set.add(last_word(words)),
        (Keyword::Latch, Side::Inputs) => set.add_all(first_words(words, 1)),
        (Keyword::Latch, Side::Outputs) => set.add_all(latch_output(words)),
        _ => Ok(()),
    }
}

/// Adds the signals that a line reads, or drives.
fn add_line<'a>(
    alloc: Global,
    set: &mut WordSet<'a>,
    side: Side,
    library: Option<&Library>,
    file: &File<'a>,
    table: &[Ports<'a>],
    line: &Line,
) -> Result<(), AllocError>
    ensures { OnOk result (set.new ≡ names_with set.old
        (signals_with side (option_copied library.entry) (ports_by file.now.models table.now)
        (entry_at file.now.text line.now))) }
{
    let words = texts_at(alloc, file.text(), line.words.as_slice())?;
    let kind = keyword_of(first_word(words.as_slice()));
    let others = other_words(words.as_slice());
    add_as(alloc, set, side, library, file, table, kind, others)
}

/// The signals that lines read, or drive, each once.
#[tactic(auto, using(crate::proofs::PortSets::all_put, std::proofs::lemmas::Grind::common_steps), unfolding(circuit_tables::specs::Listing::names_with))]
pub fn signals<'a>(
    alloc: Global,
    side: Side,
    library: Option<&Library>,
    file: &File<'a>,
    table: &[Ports<'a>],
    lines: &[Line],
) -> Result<WordSet<'a>, AllocError>
    ensures { IfOk result (λ set. set ≡ each_once (flat_map
        (signals_with side (option_copied library.entry) (ports_by file.now.models table.now))
        (lines_at file.now.text lines.now))) }
{
    let mut set = WordSet::new(alloc);
    for line in lines {
        add_line(alloc, &mut set, side, library, file, table, line)?;
    }
    Ok(set)
}
