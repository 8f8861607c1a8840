//! The signals that the lines of a model mention, and all names in a model.
//!
//! Source: BLIF appendix of the SIS report (UCB/ERL M92/41): ports, tables, latches and gates
//! mention signals, `.subckt` lines the actuals of their pairs. A don't-care part skips its ports.
//! The results are those of `specs/Made.antt`.

ghost use Rattle.std.specs.Prelude.{◌≡◌, ◌++◌, ◌∷◌, [], flat_map, slice_index_or, IfOk, OnOk};
ghost use Rattle.std.specs.List.{filter};
ghost use Rattle.sis_text.specs.Entries.{entry_at};
ghost use Rattle.line_words.specs.LineWords.{texts};
ghost use Rattle.blif_gates.specs.GateLines.{is_pair, signals_of};
ghost use Rattle.blif_models.specs.Files.{lines_at};
ghost use Rattle.circuit_tables.specs.Folding.{each_once};
ghost use Rattle.blif_lines.specs.Keyword.{kind_of};
ghost use Rattle.blif_lines.specs.Lines.{latch_names};
ghost use Rattle.blif_models.specs.Made.{mentioned, signals_in, names_by, lists_ports, names_in};
ghost use Rattle.blif_models.specs.Makings.{named_as, named_on, part_names};

use crate::file::File;
use crate::flat::pairs_among;
use crate::line_kind::{is_instance, kind_at};
use crate::sizes::part;
use blif_gates::signal_in;
use blif_lines::{Keyword, first_words, names_beside};
use circuit_model::{Name, Names};
use line_words::{add_names, name_of, other_words};
use sis_base::Sequence;
use sis_text::{Line, texts_at};
use std::alloc::{AllocError, Global};

/// Which names of lines are asked for: the signals that they mention, or all.
#[derive(Clone, Copy)]
enum Extent {
    Signals,
    All,
}

/// Appends the signals of pairs.
fn add_actuals(alloc: Global, names: &mut Names, pairs: &[&[u8]]) -> Result<(), AllocError>
    ensures { OnOk result (names.new ≡ names.old ++ signals_of (texts pairs.now)) }
{
    for pair in pairs {
        names.push(name_of(alloc, signal_in(pair))?)?;
    }
    Ok(())
}

/// Appends the actuals of an instance, by the words after the name of its model.
fn add_pairs(alloc: Global, names: &mut Names, words: &[&[u8]]) -> Result<(), AllocError>
    ensures { OnOk result (names.new ≡ names.old ++ signals_of (filter is_pair
        (texts words.now))) }
{
    let pairs = pairs_among(alloc, words)?;
    add_actuals(alloc, names, pairs.as_slice())
}

/// Appends the signals that a line mentions, by its words after the first; it is no instance.
fn add_mentioned(
    alloc: Global,
    names: &mut Names,
    kind: Keyword,
    words: &[&[u8]],
) -> Result<(), AllocError>
    ensures { OnOk result (names.new ≡ names.old ++ mentioned kind (texts words.now)) }
{
    match kind {
        Keyword::Inputs => add_names(alloc, names, words),
        Keyword::Outputs => add_names(alloc, names, words),
        Keyword::Names => add_names(alloc, names, words),
        Keyword::Latch => add_names(alloc, names, first_words(words, 2)),
        Keyword::Gate => add_actuals(alloc, names, other_words(words)),
        _ => Ok(()),
    }
}

/// Appends the names of the words of a latch.
fn add_latch(alloc: Global, names: &mut Names, words: &[&[u8]]) -> Result<(), AllocError>
    ensures { OnOk result (names.new ≡ names.old ++ latch_names (texts words.now)) }
{
    match words {
        [input, output, _, control, ..] => {
            let three = [*input, *output, *control];
            add_names(alloc, names, three.as_slice())
        }
        _ => add_names(alloc, names, first_words(words, 2)),
    }
}

/// Appends all names of a line, by its words after the first; it is no instance.
fn add_named(
    alloc: Global,
    names: &mut Names,
    kind: Keyword,
    words: &[&[u8]],
) -> Result<(), AllocError>
    ensures { OnOk result (names.new ≡ names.old ++ names_by kind (texts words.now)) }
{
    match kind {
        Keyword::Clock => add_names(alloc, names, words),
        Keyword::Latch => add_latch(alloc, names, words),
        _ => add_mentioned(alloc, names, kind, words),
    }
}

/// Appends the names of a line that are asked for, by its words after the first; it is no instance.
fn add_as(
    alloc: Global,
    names: &mut Names,
    extent: Extent,
    kind: Keyword,
    words: &[&[u8]],
) -> Result<(), AllocError>
    ensures { OnOk result (names.new ≡ names.old ++ named_as extent kind (texts words.now)) }
{
    match extent {
        Extent::Signals => add_mentioned(alloc, names, kind, words),
        Extent::All => add_named(alloc, names, kind, words),
    }
}

/// Appends the names of a line that are asked for.
fn add_line(
    alloc: Global,
    names: &mut Names,
    extent: Extent,
    text: &[u8],
    line: &Line,
) -> Result<(), AllocError>
    ensures { OnOk result (names.new
        ≡ names.old ++ named_on extent (entry_at text.now line.now)) }
{
    let words = texts_at(alloc, text, line.words.as_slice())?;
    let others = other_words(words.as_slice());
    if is_instance(text, line) {
        return add_pairs(alloc, names, other_words(others));
    }
    add_as(alloc, names, extent, kind_at(text, line), others)
}

/// Appends the names of lines that are asked for.
fn add_lines(
    alloc: Global,
    names: &mut Names,
    extent: Extent,
    text: &[u8],
    lines: &[Line],
) -> Result<(), AllocError>
    ensures { OnOk result (names.new ≡ names.old
        ++ flat_map (named_on extent) (lines_at text.now lines.now)) }
{
    for line in lines {
        add_line(alloc, names, extent, text, line)?;
    }
    Ok(())
}

/// Names, each once, in the order of their first mention.
#[tactic(auto, using(crate::proofs::LineNames::beside_none))]
pub fn each_once(alloc: Global, names: &[Name]) -> Result<Names, AllocError>
    ensures { IfOk result (λ once. once ≡ each_once names.now) }
{
    let once = names_beside(alloc, &[], names)?;
    Ok(once)
}

/// The signals of a model, each once, in file order.
#[tactic(auto, unfolding(crate::specs::Made::signals_in))]
pub fn signals_in(alloc: Global, text: &[u8], lines: &[Line]) -> Result<Names, AllocError>
    ensures { IfOk result (λ names. names ≡ signals_in (lines_at text.now lines.now)) }
{
    let mut names = Sequence::new(alloc);
    add_lines(alloc, &mut names, Extent::Signals, text, lines)?;
    each_once(alloc, names.as_slice())
}

/// Whether a line lists ports.
fn lists_ports(text: &[u8], line: &Line) -> bool
    ensures { result ≡ lists_ports (kind_of (entry_at text.now line.now)) }
{
    match kind_at(text, line) {
        Keyword::Inputs | Keyword::Outputs => true,
        _ => false,
    }
}

/// Appends all names of a line of a don't-care part, unless it lists ports.
fn add_part_line(
    alloc: Global,
    names: &mut Names,
    text: &[u8],
    line: &Line,
) -> Result<(), AllocError>
    ensures { OnOk result (names.new ≡ names.old ++ part_names
        (entry_at text.now line.now ∷ [])) }
{
    if lists_ports(text, line) {
        return Ok(());
    }
    add_line(alloc, names, Extent::All, text, line)
}

/// Appends all names of the lines of a don't-care part.
fn add_part_names(
    alloc: Global,
    names: &mut Names,
    text: &[u8],
    lines: &[Line],
) -> Result<(), AllocError>
    ensures { OnOk result (names.new ≡ names.old
        ++ part_names (lines_at text.now lines.now)) }
{
    for line in lines {
        add_part_line(alloc, names, text, line)?;
    }
    Ok(())
}

/// All names of the model at an index, with those of its don't-care part.
pub fn names_in(alloc: Global, file: &File<'_>, place: usize) -> Result<Names, AllocError>
    ensures { IfOk result (λ names. names ≡ names_in (slice_index_or file.now.models place [])) }
{
    let mut names = Sequence::new(alloc);
    add_lines(
        alloc,
        &mut names,
        Extent::All,
        file.text(),
        file.body(place),
    )?;
    add_part_names(alloc, &mut names, file.text(), part(file, place))?;
    Ok(names)
}
