//! The commands of a script, each from its words.
//!
//! After the SIS manual's command language (UCB/ERL M92/41), without quotes or escapes. `commands`
//! splits the script into pieces (`script_pieces` of sis_text), looks up the form of the first word
//! of each and parses the other words by its options and slots. The result is exactly `map
//! command_of` of the pieces (`specs/Script.antt`), each command with its line. Reading never fails
//! for the words: a wrong piece becomes a command that is refused when it is reached.

ghost use Rattle.std.specs.Prelude.{◌≡◌, min, unwrap_or, map, option_map, IfOk, Some};
ghost use Rattle.sis_text.specs.Words.{bytes_at};
ghost use Rattle.sis_text.specs.Entries.{entry_at, script_entries_of};
ghost use Rattle.sis_script.specs.Script.{
  command_of,
  eliminate_op,
  file_in,
  first_word,
  generate_op,
  inputs_given,
  is_given,
  map_op,
  name_in,
  needed,
  number_given,
  number_in,
  op_by,
  op_by_form,
  op_of,
  option_given,
  state_assign_op,
  style_in,
  tech_decomp_op,
  write_op,
};
ghost use Rattle.sis_script.specs.Verbs.{meaning, op_made};

use crate::command::{Change, Command, Commands, Op, RawWord, RawWords, ScriptFault, Style};
use crate::forms::{
    CommandForm, MOST_INPUTS, MOST_ROWS, USUAL_INPUTS, USUAL_ROWS, Verb, form_named,
};
use crate::grammar::{Given, OptionGiven, parse};
use crate::kinds::{Value, raw_word};
use sis_base::Sequence;
use sis_text::{Line, Span, Word, bytes_at, script_pieces};
use std::alloc::{AllocError, Global};

/// The words of a script as they were read.
fn raw_words(alloc: Global, source: &[u8], words: &[Span]) -> Result<RawWords, AllocError>
    ensures { IfOk result (λ made. made ≡ map (bytes_at source.now) words.now) }
{
    let mut made = Sequence::new(alloc);
    for word in words {
        made.push(raw_word(alloc, bytes_at(source, *word))?)?;
    }
    Ok(made)
}

/// The first of the words that are not options, if there is one.
fn first_word(given: Given) -> Option<Value>
    ensures { result ≡ first_word given }
{
    let mut words = given.words.into_vec();
    if words.is_empty() {
        None
    } else {
        Some(words.swap_remove(0))
    }
}

/// The file that the first word names.
fn file_in(given: Given) -> Option<Word>
    ensures { result ≡ file_in given }
{
    match first_word(given) {
        Some(Value::File(file)) => Some(file),
        _ => None,
    }
}

/// The name in the first word.
fn name_in(given: Given) -> Option<RawWord>
    ensures { result ≡ name_in given }
{
    match first_word(given) {
        Some(Value::Name(name)) => Some(name),
        _ => None,
    }
}

/// A command that needs a word; the grammar has refused words without it.
fn needed(op: Option<Op>) -> Op
    ensures { result ≡ needed op }
{
    match op {
        Some(op) => op,
        None => Op::Bad(ScriptFault::MissingWord),
    }
}

/// The number in a value, if there is one.
fn number_in(value: &Option<Value>) -> Option<u64>
    ensures { result ≡ number_in value.now }
{
    match value {
        Some(Value::Number(number)) => Some(*number),
        _ => None,
    }
}

/// The option of a letter, if it was given.
fn option_given(letter: u8, options: &[OptionGiven]) -> Option<&OptionGiven>
    ensures { option_map (λ option. option.now) result ≡ option_given letter options.now }
{
    options.iter().find(|option| option.letter == letter)
}

/// The number that was given with the option of a letter, if any.
#[tactic(auto, unfolding(crate::specs::Script::number_given))]
fn number_given(letter: u8, options: &[OptionGiven]) -> Option<u64>
    ensures { result ≡ number_given letter options.now }
{
    match option_given(letter, options) {
        Some(option) => number_in(&option.value),
        None => None,
    }
}

/// `eliminate`, by its threshold and the greatest number of rows that it allows.
fn eliminate_op(given: Given) -> Op
    ensures { result ≡ eliminate_op given }
{
    let most = number_given(b'l', given.options.as_slice()).unwrap_or(USUAL_ROWS);
    let rows = most.min(MOST_ROWS) as u32;
    match first_word(given) {
        Some(Value::Integer(threshold)) => Op::Change(Change::Eliminate(threshold, rows)),
        _ => Op::Bad(ScriptFault::MissingWord),
    }
}

/// The number of inputs that the option of a letter allows.
fn inputs_given(letter: u8, options: &[OptionGiven]) -> u16
    ensures { result ≡ inputs_given letter options.now }
{
    number_given(letter, options)
        .unwrap_or(USUAL_INPUTS)
        .min(MOST_INPUTS) as u16
}

/// `tech_decomp`, by its inputs of products and of sums.
fn tech_decomp_op(given: Given) -> Op
    ensures { result ≡ tech_decomp_op given }
{
    let products = inputs_given(b'a', given.options.as_slice());
    let sums = inputs_given(b'o', given.options.as_slice());
    Op::Change(Change::TechDecomp(products, sums))
}

/// `gen`, by its seed and its number of tables.
fn generate_op(given: Given) -> Op
    ensures { result ≡ generate_op given }
{
    match given.words.as_slice() {
        [Value::Number(seed), Value::Number(tables), ..] => Op::Generate(*seed, *tables),
        _ => Op::Bad(ScriptFault::MissingWord),
    }
}

/// The style of state codes in a value; the default if there is none.
fn style_in(value: Option<Value>) -> Style
    ensures { result ≡ style_in value }
{
    match value {
        Some(Value::Style(style)) => style,
        _ => Style::Natural,
    }
}

/// `state_assign`, by the style of its codes.
fn state_assign_op(given: Given) -> Op
    ensures { result ≡ state_assign_op given }
{
    Op::StateAssign(style_in(first_word(given)))
}

/// Whether the option of a letter was given.
fn is_given(letter: u8, given: &Given) -> bool
    ensures { result ≡ is_given letter given.now }
{
    option_given(letter, given.options.as_slice()).is_some()
}

/// `write_blif`: the network, or with `-n` the netlist.
fn write_op(given: Given) -> Op
    ensures { result ≡ write_op given }
{
    if is_given(b'n', &given) {
        Op::WriteNetlist(file_in(given))
    } else {
        Op::WriteBlif(file_in(given))
    }
}

/// `map`: `-s` prints the total alone.
fn map_op(given: &Given) -> Op
    ensures { result ≡ map_op given.now }
{
    Op::Map(is_given(b's', given))
}

/// What a verb makes of a command's words.
fn op_made(verb: Verb, given: Given) -> Op
    ensures { result ≡ op_made verb given }
{
    match verb {
        Verb::Quit => Op::Quit,
        Verb::ReadBlif => needed(file_in(given).map(Op::ReadBlif)),
        Verb::ReadKiss => needed(file_in(given).map(Op::ReadKiss)),
        Verb::ReadLibrary => needed(file_in(given).map(Op::ReadLibrary)),
        Verb::Generate => generate_op(given),
        Verb::WriteBlif => write_op(given),
        Verb::WriteKiss => Op::WriteKiss(file_in(given)),
        Verb::PrintStats => Op::PrintStats,
        Verb::Print => Op::Print(name_in(given)),
        Verb::PrintLatch => Op::PrintLatch,
        Verb::PrintFactor => Op::PrintFactor(name_in(given)),
        Verb::PrintKernel => needed(name_in(given).map(Op::PrintKernel)),
        Verb::Undo => Op::Undo,
        Verb::Source => needed(file_in(given).map(Op::Source)),
        Verb::Plain(change) => Op::Change(change),
        Verb::Eliminate => eliminate_op(given),
        Verb::TechDecomp => tech_decomp_op(given),
        Verb::StateAssign => state_assign_op(given),
        Verb::Map => map_op(&given),
    }
}

/// A command by its form and its other words.
fn op_by_form(
    alloc: Global,
    form: &CommandForm,
    source: &[u8],
    words: &[Span],
) -> Result<Op, AllocError>
    ensures { IfOk result (λ op. op
        ≡ op_by_form (Some (meaning form.now)) (map (bytes_at source.now) words.now)) }
{
    match parse(alloc, form.options, form.slots, source, words)? {
        Ok(given) => Ok(op_made(form.verb, given)),
        Err(fault) => Ok(Op::Bad(fault)),
    }
}

/// A command by its first word and the others.
#[tactic(auto, unfolding(crate::specs::Script::op_by))]
fn op_by(alloc: Global, source: &[u8], first: &[u8], words: &[Span]) -> Result<Op, AllocError>
    ensures { IfOk result (λ op. op ≡ op_by first.now (map (bytes_at source.now) words.now)) }
{
    if first == b"echo".as_slice() {
        return Ok(Op::Echo(raw_words(alloc, source, words)?));
    }
    match form_named(first) {
        Some(form) => op_by_form(alloc, &form, source, words),
        None => Ok(Op::Bad(ScriptFault::BadCommand)),
    }
}

/// A command by its words.
#[tactic(auto, unfolding(crate::specs::Script::op_of))]
fn op_of(alloc: Global, source: &[u8], words: &[Span]) -> Result<Op, AllocError>
    ensures { IfOk result (λ op. op ≡ op_of (map (bytes_at source.now) words.now)) }
{
    match words {
        [] => Ok(Op::Bad(ScriptFault::BadCommand)),
        [first, ..] => op_by(alloc, source, bytes_at(source, *first), &words[1..]),
    }
}

/// The command of one piece of a script.
fn command_of(alloc: Global, source: &[u8], piece: &Line) -> Result<Command, AllocError>
    ensures { IfOk result (λ command. command ≡ command_of (entry_at source.now piece.now)) }
{
    Ok(Command {
        line: piece.number,
        op: op_of(alloc, source, piece.words.as_slice())?,
    })
}

/// The commands of the pieces of a script.
#[tactic(auto, using(std::proofs::lemmas::Grind::common_steps))]
fn commands_of(alloc: Global, source: &[u8], pieces: &[Line]) -> Result<Commands, AllocError>
    ensures { IfOk result (λ commands. commands
        ≡ map command_of (map (entry_at source.now) pieces.now)) }
{
    let mut found = Sequence::new(alloc);
    for piece in pieces {
        found.push(command_of(alloc, source, piece)?)?;
    }
    Ok(found)
}

/// The commands of a script, in order: lines are cut before the first `#` and split at `;`, words
/// at blanks. Words that are no command, or do not fit theirs, become a command that is refused
/// when it is reached.
pub fn commands(alloc: Global, script: &[u8]) -> Result<Commands, AllocError>
    ensures { IfOk result (λ commands. commands ≡ map command_of (script_entries_of script.now)) }
{
    let pieces = script_pieces(alloc, script)?;
    commands_of(alloc, script, pieces.as_slice())
}
