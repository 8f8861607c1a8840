//! What is wrong with the ports of the models that are used: one that is listed twice, or an
//! instance whose pairs do not name those of its model.
//!
//! Source: BLIF appendix of the SIS report (UCB/ERL M92/41), `.subckt`. Each call returns exactly
//! the fault that `specs/Reader.antt` defines, by the marks of the models that are used and the
//! table of the ports of all models. The time is linear in the lines; no clause says so.

ghost use Rattle.std.specs.Prelude.{◌≡◌, ◌+◌, ◌||◌, ◌==◌, false, option_copied, slice_get, length, IfOk, OnOk};
ghost use Rattle.std.specs.List.{list_all};
ghost use Rattle.std.specs.Option.{option_and_then};
ghost use Rattle.circuit_model.specs.Names.{has};
ghost use Rattle.circuit_tables.specs.Folding.{each_once};
ghost use Rattle.sis_text.specs.Entries.{entry_at};
ghost use Rattle.line_words.specs.LineWords.{texts, other_words};
ghost use Rattle.blif_gates.specs.GateLines.{is_pair, pin_in, pins_of};
ghost use Rattle.blif_lines.specs.Keyword.{kind_of};
ghost use Rattle.blif_models.specs.Files.{lines_at};
ghost use Rattle.blif_models.specs.Ports.{names_ports};
ghost use Rattle.blif_models.specs.PortFaults.{AreUsed, listed_in, listed_with, lines_twice, is_wrong, lines_wrong, fault_if};
ghost use Rattle.blif_models.specs.PortTables.{table_at};
ghost use Rattle.blif_models.specs.Reader.{twice_fault, ports_fault};

use crate::file::File;
use crate::limits::MAX_DEPTH;
use crate::ports::Ports;
use crate::word_set::WordSet;
use blif_gates::{is_pair, pin_in};
use blif_lines::{BlifFault, Keyword, keyword_of};
use circuit_checks::{first_listed_twice, is_seen};
use circuit_model::Names;
use genlib_format::Library;
use line_words::{add_names, first_word, other_words};
use sis_base::{Copied, Sequence, Whole};
use sis_text::{Line, texts_at};
use std::alloc::{AllocError, Global};

/// The ports that lines list, as inputs, as outputs, and in file order.
#[derive(Drop)]
struct Listed {
    inputs: Names,
    outputs: Names,
    ports: Names,
}

impl Listed {
    /// Adds the ports of a line, by its kind and its words after the first.
    fn add_as(&mut self, alloc: Global, kind: Keyword, words: &[&[u8]]) -> Result<(), AllocError>
        ensures { OnOk result (self.new ≡ listed_with self.old kind (texts words.now)) }
    {
        match kind {
            Keyword::Inputs => add_names(alloc, &mut self.inputs, words)?,
            Keyword::Outputs => add_names(alloc, &mut self.outputs, words)?,
            _ => return Ok(()),
        }
        add_names(alloc, &mut self.ports, words)
    }

    /// Adds the ports of a line.
    fn add(&mut self, alloc: Global, text: &[u8], line: &Line) -> Result<(), AllocError>
        ensures { OnOk result (self.new ≡ listed_with self.old
            (kind_of (entry_at text.now line.now))
            (other_words (entry_at text.now line.now).words)) }
    {
        let words = texts_at(alloc, text, line.words.as_slice())?;
        let kind = keyword_of(first_word(words.as_slice()));
        self.add_as(alloc, kind, other_words(words.as_slice()))
    }
}

/// The ports that lines list.
fn all_listed(alloc: Global, text: &[u8], lines: &[Line]) -> Result<Listed, AllocError>
    ensures { IfOk result (λ listed. listed ≡ listed_in (lines_at text.now lines.now)) }
{
    let mut listed = Listed {
        inputs: Sequence::new(alloc),
        outputs: Sequence::new(alloc),
        ports: Sequence::new(alloc),
    };
    for line in lines {
        listed.add(alloc, text, line)?;
    }
    Ok(listed)
}

/// The first port that lines list twice.
#[tactic(auto, unfolding(crate::specs::PortFaults::lines_twice))]
fn lines_twice(alloc: Global, text: &[u8], lines: &[Line]) -> Result<Option<BlifFault>, AllocError>
    ensures { IfOk result (λ fault. fault ≡ lines_twice (lines_at text.now lines.now)) }
{
    let listed = Whole {
        it: all_listed(alloc, text, lines)?,
    };
    let inputs = listed.it.inputs.as_slice();
    let outputs = listed.it.outputs.as_slice();
    match first_listed_twice(alloc, inputs, outputs, listed.it.ports.as_slice())? {
        None => Ok(None),
        Some(name) => Ok(Some(BlifFault::NameTwice(name.copy(alloc)?))),
    }
}

/// The first port that a model lists twice, if the model is used.
fn model_twice(
    alloc: Global,
    file: &File<'_>,
    used: &[bool],
    place: usize,
) -> Result<Option<BlifFault>, AllocError>
    ensures { IfOk result (λ fault. fault ≡ fault_if used.now lines_twice file.now.models place) }
{
    if !is_seen(used, place) {
        return Ok(None);
    }
    lines_twice(alloc, file.text(), file.body(place))
}

/// The first port that a model lists twice, in a model that is used.
pub fn twice_fault(
    alloc: Global,
    file: &File<'_>,
    used: &[bool],
) -> Result<Option<BlifFault>, AllocError>
    requires { AreUsed file.now.models used.now }
    ensures { IfOk result (λ fault. fault ≡ twice_fault file.now.models) }
{
    for place in 0..file.count() {
        if let Some(fault) = model_twice(alloc, file, used, place)? {
            return Ok(Some(fault));
        }
    }
    Ok(None)
}

/// Whether each word is a pair.
fn are_pairs(words: &[&[u8]]) -> bool
    ensures { result ≡ list_all (λ word. is_pair word.now) words.now }
{
    words.iter().all(|word| is_pair(word))
}

/// Whether each word is a pair of a port.
fn are_ports(ports: &Ports<'_>, words: &[&[u8]]) -> bool
    ensures { result ≡ list_all (λ word. has ports.now.inputs (pin_in word.now) || has
        ports.now.outputs (pin_in word.now)) words.now }
{
    words.iter().all(|word| ports.inputs.holds(pin_in(word)) || ports.outputs.holds(pin_in(word)))
}

/// Whether each word is in a set.
fn are_held(set: &WordSet<'_>, words: &[&[u8]]) -> bool
    ensures { result ≡ list_all (λ word. has set.now word.now) words.now }
{
    words.iter().all(|word| set.holds(word))
}

/// The formals of pairs, each once.
fn pins<'a>(alloc: Global, words: &[&'a [u8]]) -> Result<WordSet<'a>, AllocError>
    ensures { IfOk result (λ set. set ≡ each_once (pins_of (texts words.now))) }
{
    let mut set = WordSet::new(alloc);
    for word in words {
        set.add(pin_in(word))?;
    }
    Ok(set)
}

/// Whether a set has as many words as there are.
fn are_as_many(set: &WordSet<'_>, words: &[&[u8]]) -> bool
    ensures { result ≡ (length set.now == length words.now) }
{
    set.words().len() == words.len()
}

/// Whether the words after the name of an instance's model name its ports.
fn names_ports(alloc: Global, ports: &Ports<'_>, words: &[&[u8]]) -> Result<bool, AllocError>
    ensures { IfOk result (λ named. named ≡ names_ports ports.now (texts words.now)) }
{
    if !are_pairs(words) {
        return Ok(false);
    }
    if !are_ports(ports, words) {
        return Ok(false);
    }
    let pins = pins(alloc, words)?;
    if !are_as_many(&pins, words) {
        return Ok(false);
    }
    Ok(are_held(&pins, ports.inputs.words()))
}

/// The ports of a model, if it has an index and the table goes so far.
fn ports_at<'t, 'a>(table: &'t [Ports<'a>], place: Option<usize>) -> Option<&'t Ports<'a>>
    ensures { option_copied result ≡ option_and_then (slice_get table.now) place }
{
    table.get(place?)
}

/// Whether a line is that of an instance whose pairs do not name the ports of its model.
fn is_wrong(
    alloc: Global,
    file: &File<'_>,
    table: &[Ports<'_>],
    line: &Line,
) -> Result<bool, AllocError>
    ensures { IfOk result (λ wrong. wrong ≡ is_wrong file.now.models table.now
        (entry_at file.now.text line.now)) }
{
    if !file.is_instance(line) {
        return Ok(false);
    }
    let words = texts_at(alloc, file.text(), line.words.as_slice())?;
    let pairs = other_words(other_words(words.as_slice()));
    let Some(ports) = ports_at(table, file.find(file.model_of(line))) else {
        return Ok(!pairs.is_empty());
    };
    Ok(!names_ports(alloc, ports, pairs)?)
}

/// The first line of an instance whose pairs do not name the ports of its model.
#[tactic(auto, unfolding(crate::specs::PortFaults::lines_wrong))]
fn lines_wrong(
    alloc: Global,
    file: &File<'_>,
    table: &[Ports<'_>],
    lines: &[Line],
) -> Result<Option<BlifFault>, AllocError>
    ensures { IfOk result (λ fault. fault ≡ lines_wrong file.now.models table.now
        (lines_at file.now.text lines.now)) }
{
    for line in lines {
        if is_wrong(alloc, file, table, line)? {
            return Ok(Some(BlifFault::BadPorts(line.number)));
        }
    }
    Ok(None)
}

/// The first such line of a model, if the model is used.
fn model_wrong(
    alloc: Global,
    file: &File<'_>,
    used: &[bool],
    table: &[Ports<'_>],
    place: usize,
) -> Result<Option<BlifFault>, AllocError>
    ensures { IfOk result (λ fault. fault ≡ fault_if used.now
        (lines_wrong file.now.models table.now) file.now.models place) }
{
    if !is_seen(used, place) {
        return Ok(None);
    }
    lines_wrong(alloc, file, table, file.body(place))
}

/// The line of the first instance, in a model that is used, whose pairs do not name the ports of
/// its model.
pub fn ports_fault(
    alloc: Global,
    library: Option<&Library>,
    file: &File<'_>,
    used: &[bool],
    table: &[Ports<'_>],
) -> Result<Option<BlifFault>, AllocError>
    requires used { AreUsed file.now.models used.now }
    requires table { table.now ≡ table_at (option_copied library) file.now.models
        (MAX_DEPTH + 1) }
    ensures { IfOk result (λ fault. fault ≡ ports_fault (option_copied library.entry)
        file.now.models) }
{
    for place in 0..file.count() {
        if let Some(fault) = model_wrong(alloc, file, used, table, place)? {
            return Ok(Some(fault));
        }
    }
    Ok(None)
}
