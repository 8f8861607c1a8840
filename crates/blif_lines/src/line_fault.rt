//! What is wrong with a line: the first of its causes.
//!
//! Source: BLIF appendix of the SIS report (UCB/ERL M92/41); the order of the causes and the limits
//! are the project's own (`specs/Lines.antt`). The calls get what the lines before said: whether
//! there is one, the part of the model, the number of tables, latches and gates, whether a KISS2
//! part began, and the table whose rows are being read. Each returns exactly the fault of the
//! definition for its kind of line, but for `.gate` lines (`gate_words`); for tables and latches,
//! none means that there is room for one more.

ghost use Rattle.std.specs.Prelude.{◌≡◌, ◌<◌, ◌==◌, Some, None, length, IfSome};
ghost use Rattle.std.specs.Option.{option_map};
ghost use Rattle.line_words.specs.LineWords.{texts};
ghost use Rattle.blif_lines.specs.Lines.{long_fault, one_too_many, is_init, is_latch_kind, is_latch_end, is_latch, latch_names, is_in_model, is_behind, model_fault, ports_fault, clock_fault, names_fault, latch_fault, subckt_fault, start_fault, place_fault, table_row_fault, row_fault};
ghost use Rattle.blif_lines.specs.Steps.{growing_of};

use crate::draft::Reading;
use crate::fault::{BlifFault, LimitKind};
use crate::part::Part;
use crate::row::{has_mark, is_row};
use crate::subckt_words::long_subckt_name;
use crate::word_list::{first_words, front_words};
use line_words::long_name;
use sis_base::limits::{MAX_INPUTS, MAX_NODES, MAX_ROWS};

/// Whether a part is the model itself.
pub fn is_in_model(place: Part) -> bool
    ensures { result ≡ is_in_model place }
{
    match place {
        Part::Model => true,
        Part::DontCare | Part::Behind => false,
    }
}

/// Whether a part is after the end.
fn is_behind(place: Part) -> bool
    ensures { result ≡ is_behind place }
{
    match place {
        Part::Behind => true,
        Part::Model | Part::DontCare => false,
    }
}

/// The fault of the first word that is longer than a name may be.
fn long_fault(words: &[&[u8]]) -> Option<BlifFault>
    ensures { result ≡ long_fault (texts words.now) }
{
    match long_name(words) {
        None => None,
        Some(len) => Some(BlifFault::Limit(LimitKind::Name, len)),
    }
}

/// The fault of one more table, latch or gate than a model may have.
pub fn one_too_many(nodes: usize) -> Option<BlifFault>
    ensures value { result ≡ one_too_many nodes }
    ensures room { result ≡ None → nodes < MAX_NODES }
{
    if nodes >= MAX_NODES {
        return Some(BlifFault::Limit(LimitKind::Tables, MAX_NODES + 1));
    }
    None
}

/// What is wrong with the words of a `.model` line after the first; `begun` says whether a line
/// precedes it.
#[tactic(auto, unfolding(crate::specs::Lines::model_fault, crate::specs::Lines::first_of))]
pub fn model_fault(begun: bool, number: usize, words: &[&[u8]]) -> Option<BlifFault>
    ensures { result ≡ model_fault begun number (texts words.now) }
{
    if begun {
        return Some(BlifFault::UnknownWord(number));
    }
    if words.len() > 1 {
        return Some(BlifFault::BadArity(number));
    }
    long_fault(words)
}

/// What is wrong with the words of a line of ports after the first.
#[tactic(auto, unfolding(crate::specs::Lines::ports_fault, crate::specs::Lines::first_of))]
pub fn ports_fault(place: Part, number: usize, words: &[&[u8]]) -> Option<BlifFault>
    ensures { result ≡ ports_fault place number (texts words.now) }
{
    match place {
        Part::Model => long_fault(words),
        Part::DontCare => None,
        Part::Behind => Some(BlifFault::UnknownWord(number)),
    }
}

/// What is wrong with the words of a line of clocks after the first.
#[tactic(auto, unfolding(crate::specs::Lines::clock_fault, crate::specs::Lines::first_of))]
pub fn clock_fault(place: Part, number: usize, words: &[&[u8]]) -> Option<BlifFault>
    ensures { result ≡ clock_fault place number (texts words.now) }
{
    if !is_in_model(place) {
        return Some(BlifFault::UnknownWord(number));
    }
    long_fault(words)
}

/// What is wrong with the words of a `.names` line after the first, after `nodes` tables, latches
/// and gates.
#[tactic(auto, unfolding(crate::specs::Lines::names_fault, crate::specs::Lines::first_of))]
pub fn names_fault(place: Part, nodes: usize, number: usize, words: &[&[u8]]) -> Option<BlifFault>
    ensures value { result ≡ names_fault place nodes number (texts words.now) }
    ensures room { result ≡ None → nodes < MAX_NODES }
{
    if is_behind(place) {
        return Some(BlifFault::UnknownWord(number));
    }
    if words.is_empty() {
        return Some(BlifFault::BadArity(number));
    }
    if let Some(fault) = long_fault(words) {
        return Some(fault);
    }
    if let Some(fault) = one_too_many(nodes) {
        return Some(fault);
    }
    let count = front_words(words).len();
    if count > MAX_INPUTS {
        return Some(BlifFault::Limit(LimitKind::Inputs, count));
    }
    None
}

/// Whether a word is the start value of a latch.
fn is_init(word: &[u8]) -> bool
    ensures { result ≡ is_init word.now }
{
    word == b"0".as_slice()
        || word == b"1".as_slice()
        || word == b"2".as_slice()
        || word == b"3".as_slice()
}

/// Whether a word is the kind of a latch.
fn is_latch_kind(word: &[u8]) -> bool
    ensures { result ≡ is_latch_kind word.now }
{
    word == b"fe".as_slice()
        || word == b"re".as_slice()
        || word == b"ah".as_slice()
        || word == b"al".as_slice()
}

/// Whether words may follow a latch's signals: a kind with a control, a start value, both or none.
fn is_latch_end(words: &[&[u8]]) -> bool
    ensures { result ≡ is_latch_end (texts words.now) }
{
    match words {
        [] => true,
        [init] => is_init(init),
        [kind, _] => is_latch_kind(kind),
        [kind, _, init] => is_latch_kind(kind) && is_init(init),
        _ => false,
    }
}

/// Whether words are an input, an output, and what may follow them.
fn is_latch(words: &[&[u8]]) -> bool
    ensures { result ≡ is_latch (texts words.now) }
{
    match words {
        [_, _, end @ ..] => is_latch_end(end),
        _ => false,
    }
}

/// The fault of the first name of a latch that is too long: its input, its output or its control.
fn long_latch_name(words: &[&[u8]]) -> Option<BlifFault>
    ensures { result ≡ long_fault (latch_names (texts words.now)) }
{
    match words {
        [input, output, _, control, ..] => long_fault([*input, *output, *control].as_slice()),
        _ => long_fault(first_words(words, 2)),
    }
}

/// What is wrong with the words of a `.latch` line after the first, after `nodes` tables, latches
/// and gates.
#[tactic(auto, unfolding(crate::specs::Lines::latch_fault, crate::specs::Lines::first_of))]
pub fn latch_fault(place: Part, nodes: usize, number: usize, words: &[&[u8]]) -> Option<BlifFault>
    ensures value { result ≡ latch_fault place nodes number (texts words.now) }
    ensures room { result ≡ None → nodes < MAX_NODES }
{
    if !is_in_model(place) {
        return Some(BlifFault::UnknownWord(number));
    }
    if !is_latch(words) {
        return Some(BlifFault::BadLatch(number));
    }
    if let Some(fault) = long_latch_name(words) {
        return Some(fault);
    }
    one_too_many(nodes)
}

/// What is wrong with the words of a `.subckt` line after the first, by itself.
#[tactic(auto, unfolding(crate::specs::Lines::subckt_fault, crate::specs::Lines::first_of))]
pub fn subckt_fault(place: Part, number: usize, words: &[&[u8]]) -> Option<BlifFault>
    ensures { result ≡ subckt_fault place number (texts words.now) }
{
    if !is_in_model(place) {
        return Some(BlifFault::UnknownWord(number));
    }
    if words.is_empty() {
        return Some(BlifFault::BadArity(number));
    }
    match long_subckt_name(words) {
        None => None,
        Some(len) => Some(BlifFault::Limit(LimitKind::Name, len)),
    }
}

/// What is wrong with the line that begins a KISS2 part; `had` says whether an earlier one began.
#[tactic(auto, unfolding(crate::specs::Lines::start_fault))]
pub fn start_fault(place: Part, had: bool, number: usize) -> Option<BlifFault>
    ensures { result ≡ start_fault place had number }
{
    if !is_in_model(place) || had {
        return Some(BlifFault::UnknownWord(number));
    }
    None
}

/// What is wrong with the line that begins the don't-care part, or with one that is skipped.
pub fn place_fault(place: Part, number: usize) -> Option<BlifFault>
    ensures { result ≡ place_fault place number }
{
    if !is_in_model(place) {
        return Some(BlifFault::UnknownWord(number));
    }
    None
}

/// What is wrong with bytes as one more row of the table that is being read.
#[tactic(auto, unfolding(crate::specs::Lines::table_row_fault, crate::specs::Lines::first_of))]
fn reading_fault(reading: &Reading, number: usize, bytes: &[u8]) -> Option<BlifFault>
    ensures value { result ≡ table_row_fault (growing_of reading.now) number bytes.now }
    ensures room { result ≡ None → length reading.now.table.inputs < length bytes.now }
{
    let width = reading.table.inputs.len();
    if !is_row(width, bytes) {
        return Some(BlifFault::BadRow(number));
    }
    if !has_mark(reading.mark, bytes[width]) {
        return Some(BlifFault::MixedPhase(number));
    }
    if reading.table.rows.len() >= MAX_ROWS {
        return Some(BlifFault::Limit(LimitKind::Rows, MAX_ROWS + 1));
    }
    None
}

/// What is wrong with bytes as a row after the lines before it.
#[tactic(auto, unfolding(crate::specs::Lines::row_fault, crate::specs::Lines::first_of))]
pub fn row_fault(
    place: Part,
    reading: &Option<Reading>,
    number: usize,
    bytes: &[u8],
) -> Option<BlifFault>
    ensures value { result ≡ row_fault place (option_map growing_of reading.now) number
        bytes.now }
    ensures room { result ≡ None → IfSome reading.now
        (λ one. length one.table.inputs < length bytes.now) }
{
    if is_behind(place) {
        return Some(BlifFault::UnknownWord(number));
    }
    match reading {
        None => Some(BlifFault::BadRow(number)),
        Some(reading) => reading_fault(reading, number, bytes),
    }
}
