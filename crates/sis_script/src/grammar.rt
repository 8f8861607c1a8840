//! The grammar that all commands share: options first, in any order and each at most once, then the
//! other words.
//!
//! After the command language of the SIS manual (UCB/ERL M92/41). A command is given by its
//! options, each with its letter and perhaps a kind of value, and by the slots for its other words.
//! `parse` returns exactly the values that `specs/Grammar.antt` defines, or the fault that it
//! defines; its only error is want of memory.

ghost use Rattle.std.specs.Prelude.{◌≡◌, ◌==◌, not, map, filter, drop, find, [], ◌∷◌, IfOk, Some, None};
ghost use Rattle.sis_text.specs.Words.{bytes_at};
ghost use Rattle.sis_script.specs.Grammar.{
  Front,
  asks_integer,
  fill,
  fill_front,
  is_option,
  kind_of,
  lacks_word,
  option_of,
  parse,
  parse_at,
  without,
};
ghost use Rattle.sis_script.specs.Steps.{first_option, value_behind, width_of};

use crate::command::ScriptFault;
use crate::kinds::{Kind, Value, begins_with_dash, value_of};
use sis_base::Sequence;
use sis_text::{Span, bytes_at};
use std::alloc::{AllocError, Global};

/// An option of a command: its letter, and the kind of its value if it has one.
#[derive(Clone, Copy)]
pub(crate) struct OptionForm {
    pub(crate) letter: u8,
    pub(crate) kind: Option<Kind>,
}

/// An option that was given: its letter, and its value if it has one.
#[derive(Drop)]
pub(crate) struct OptionGiven {
    pub(crate) letter: u8,
    pub(crate) value: Option<Value>,
}

/// The slot of a word that is not an option.
#[derive(Clone, Copy)]
pub(crate) enum Slot {
    /// A word of this kind must come here.
    Needed(Kind),
    /// A word of this kind may come here.
    Optional(Kind),
}

/// Options that were given, in order.
pub(crate) type OptionsGiven = Sequence<OptionGiven>;
/// What words give, in order.
pub(crate) type Values = Sequence<Value>;

/// What the words of a command give.
#[derive(Drop)]
pub(crate) struct Given {
    pub(crate) options: OptionsGiven,
    pub(crate) words: Values,
}

/// The kind of word that a slot asks for.
fn kind_of(slot: Slot) -> Kind
    ensures { result ≡ kind_of slot }
{
    match slot {
        Slot::Needed(kind) => kind,
        Slot::Optional(kind) => kind,
    }
}

/// The items after the first `count`.
#[tactic(auto, using(std::proofs::lemmas::List::drop_min, std::proofs::lemmas::Grind::common_steps))]
fn skip<T>(count: usize, items: &[T]) -> &[T]
    ensures { result.now ≡ drop count items.now }
{
    &items[count.min(items.len())..]
}

/// Whether the first slot must be filled.
fn lacks_word(slots: &[Slot]) -> bool
    ensures { result ≡ lacks_word slots.now }
{
    match slots {
        [Slot::Needed(_), ..] => true,
        _ => false,
    }
}

/// The values of words that are to fill slots, or the fault.
fn fill(
    alloc: Global,
    slots: &[Slot],
    source: &[u8],
    words: &[Span],
) -> Result<Result<Values, ScriptFault>, AllocError>
    ensures { IfOk result (λ filled. filled ≡ fill slots.now (map
        (bytes_at source.now) words.now)) }
{
    let mut values = Sequence::new(alloc);
    for i in 0..words.len() {
        if i >= slots.len() {
            return Ok(Err(ScriptFault::BadOption));
        }
        match value_of(alloc, kind_of(slots[i]), bytes_at(source, words[i]))? {
            Some(value) => values.push(value)?,
            None => return Ok(Err(ScriptFault::BadOption)),
        }
    }
    if lacks_word(skip(words.len(), slots)) {
        Ok(Err(ScriptFault::MissingWord))
    } else {
        Ok(Ok(values))
    }
}

/// Whether the first slot asks for an integer.
fn asks_integer(slots: &[Slot]) -> bool
    ensures { result ≡ asks_integer slots.now }
{
    match slots {
        [Slot::Needed(Kind::Integer), ..] => true,
        [Slot::Optional(Kind::Integer), ..] => true,
        _ => false,
    }
}

/// The values of words that are to fill slots, if an option may come and the first word is not one.
fn fill_front(
    alloc: Global,
    slots: &[Slot],
    source: &[u8],
    words: &[Span],
) -> Result<Result<Values, ScriptFault>, AllocError>
    ensures { IfOk result (λ filled. filled ≡ fill_front slots.now (map
        (bytes_at source.now) words.now)) }
{
    if let [first, ..] = words
        && begins_with_dash(bytes_at(source, *first))
        && !asks_integer(slots)
    {
        return Ok(Err(ScriptFault::BadOption));
    }
    fill(alloc, slots, source, words)
}

/// Whether a word is an option.
fn is_option(word: &[u8], option: OptionForm) -> bool
    ensures { result ≡ is_option word.now option }
{
    word == [b'-', option.letter].as_slice()
}

/// The option that a word is, if any.
fn option_of(options: &[OptionForm], word: &[u8]) -> Option<OptionForm>
    ensures { result ≡ option_of options.now word.now }
{
    options
        .iter()
        .find(|option| is_option(word, **option))
        .copied()
}

/// The option that the first word is, if any.
fn first_option(options: &[OptionForm], source: &[u8], words: &[Span]) -> Option<OptionForm>
    ensures { result ≡ first_option options.now (map (bytes_at source.now) words.now) }
{
    match words {
        [] => None,
        [word, ..] => option_of(options, bytes_at(source, *word)),
    }
}

/// How many words an option takes after itself.
fn width_of(kind: Option<Kind>) -> usize
    ensures { result ≡ width_of kind }
{
    match kind {
        None => 0,
        Some(_) => 1,
    }
}

/// The options with another letter.
fn without(alloc: Global, letter: u8, options: &[OptionForm]) -> Result<Vec<OptionForm>, AllocError>
    ensures { IfOk result (λ others. others.items ≡ without letter options.now) }
{
    options
        .iter()
        .filter(|option| option.letter != letter)
        .copied()
        .collect(alloc)
}

/// The value of an option, from the words after it.
fn value_behind(
    alloc: Global,
    kind: Option<Kind>,
    source: &[u8],
    words: &[Span],
) -> Result<Result<Option<Value>, ScriptFault>, AllocError>
    ensures { IfOk result (λ value. value ≡ value_behind kind (map
        (bytes_at source.now) words.now)) }
{
    let Some(kind) = kind else {
        return Ok(Ok(None));
    };
    match words {
        [] => Ok(Err(ScriptFault::MissingWord)),
        [word, ..] => match value_of(alloc, kind, bytes_at(source, *word))? {
            Some(value) => Ok(Ok(Some(value))),
            None => Ok(Err(ScriptFault::BadOption)),
        },
    }
}

/// What words give if these options may come and these slots are to be filled.
fn parse_front(
    alloc: Global,
    options: &[OptionForm],
    slots: &[Slot],
    source: &[u8],
    words: &[Span],
) -> Result<Result<Given, ScriptFault>, AllocError>
    ensures { IfOk result (λ given. given ≡ parse_at Front options.now slots.now (map
        (bytes_at source.now) words.now)) }
{
    let mut left = options.to_vec(alloc)?;
    let mut given = Sequence::new(alloc);
    let mut rest = words;
    while let Some(option) = first_option(left.as_slice(), source, rest) {
        let behind = skip(1, rest);
        match value_behind(alloc, option.kind, source, behind)? {
            Ok(value) => given.push(OptionGiven {
                letter: option.letter,
                value,
            })?,
            Err(fault) => return Ok(Err(fault)),
        }
        rest = skip(width_of(option.kind), behind);
        left = without(alloc, option.letter, left.as_slice())?;
    }
    match fill_front(alloc, slots, source, rest)? {
        Ok(words) => Ok(Ok(Given {
            options: given,
            words,
        })),
        Err(fault) => Ok(Err(fault)),
    }
}

/// What the words after a command's name give, by its options and the slots for its other words;
/// the first fault if they do not fit.
#[tactic(auto, unfolding(crate::specs::Grammar::parse))]
pub(crate) fn parse(
    alloc: Global,
    options: &[OptionForm],
    slots: &[Slot],
    source: &[u8],
    words: &[Span],
) -> Result<Result<Given, ScriptFault>, AllocError>
    ensures { IfOk result (λ given. given ≡ parse options.now slots.now (map
        (bytes_at source.now) words.now)) }
{
    if !options.is_empty() {
        return parse_front(alloc, options, slots, source, words);
    }
    match fill(alloc, slots, source, words)? {
        Ok(words) => Ok(Ok(Given {
            options: Sequence::new(alloc),
            words,
        })),
        Err(fault) => Ok(Err(fault)),
    }
}
