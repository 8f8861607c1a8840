//! `.gate` lines: the table that a line gives by a library, or its fault. Without a library each
//! such line is refused (`specs/Lines.antt`).

ghost use Rattle.std.specs.Prelude.{◌≡◌, ◌<◌, option_copied, IfOk, OnOk, OnErr};
ghost use Rattle.std.specs.List.{filter};
ghost use Rattle.circuit_model.specs.Names.{has};
ghost use Rattle.line_words.specs.LineWords.{texts, other_words};
ghost use Rattle.blif_gates.specs.GateLines.{signals_of};
ghost use Rattle.blif_lines.specs.Lines.{gate_fault, library_fault};
ghost use Rattle.blif_lines.specs.Reader.{gate_tables};
ghost use Rattle.blif_lines.specs.Steps.{with_more, IsTable};

use crate::fault::{BlifFault, LimitKind, ReadFault};
use crate::line_fault::{is_in_model, one_too_many};
use crate::part::Part;
use blif_gates::{GateFault, add_signals, long_signal, read_gate};
use circuit_model::{Name, Names, Table};
use genlib_format::Library;
use line_words::{first_word, other_words};
use sis_base::limits::MAX_NODES;
use std::alloc::{AllocError, Global};

/// The table of the cell and the pairs of a `.gate` line. An error says what is wrong with them, or
/// that there is no library; or want of memory.
fn cell_table(
    alloc: Global,
    library: Option<&Library>,
    number: usize,
    words: &[&[u8]],
) -> Result<Table, ReadFault>
    ensures { IsTable result (library_fault (option_copied library.entry) number (texts words.now))
        (gate_tables (option_copied library.entry) (texts words.now)) }
{
    let Some(library) = library else {
        return Err(ReadFault::Fault(BlifFault::NoLibrary(number)));
    };
    match read_gate(alloc, library, first_word(words), other_words(words))? {
        Ok(table) => Ok(table),
        Err(GateFault::UnknownGate) => Err(ReadFault::Fault(BlifFault::UnknownGate(number))),
        Err(GateFault::BadPins) => Err(ReadFault::Fault(BlifFault::BadPins(number))),
    }
}

/// The table of the words of a `.gate` line after the first, after `nodes` tables, latches and
/// gates. An error says what is wrong with the line, or is want of memory.
#[tactic(auto, unfolding(crate::specs::Lines::gate_fault, crate::specs::Lines::first_of))]
pub fn gate_table(
    alloc: Global,
    library: Option<&Library>,
    place: Part,
    nodes: usize,
    number: usize,
    words: &[&[u8]],
) -> Result<Table, ReadFault>
    ensures table { IsTable result (gate_fault (option_copied library.entry) place nodes number
        (texts words.now)) (gate_tables (option_copied library.entry) (texts words.now)) }
    ensures room { IfOk result (λ _. nodes < MAX_NODES) }
{
    if !is_in_model(place) {
        return Err(ReadFault::Fault(BlifFault::UnknownWord(number)));
    }
    if words.is_empty() {
        return Err(ReadFault::Fault(BlifFault::BadArity(number)));
    }
    let table = cell_table(alloc, library, number, words)?;
    if let Some(len) = long_signal(other_words(words)) {
        return Err(ReadFault::Fault(BlifFault::Limit(LimitKind::Name, len)));
    }
    if let Some(fault) = one_too_many(nodes) {
        return Err(ReadFault::Fault(fault));
    }
    Ok(table)
}

/// Appends the signals of a `.gate` line that its table reads, while the names still grow. On an
/// error the names stay.
pub fn add_gate_signals(
    alloc: Global,
    had: bool,
    names: &mut Names,
    words: &[&[u8]],
    inputs: &[Name],
) -> Result<(), AllocError>
    ensures ok { OnOk result (names.new ≡ with_more had names.old
        (filter (has inputs.now) (signals_of (other_words (texts words.now))))) }
    ensures err { OnErr result (names.new ≡ names.old) }
{
    if !had {
        add_signals(alloc, names, other_words(words), inputs)?;
    }
    Ok(())
}
