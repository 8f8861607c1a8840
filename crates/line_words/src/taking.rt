//! The words of a line, as a reader takes them.
//!
//! Source: the line formats of SIS (UCB/ERL M92/41): a line is known by its first word, and a cube
//! by its characters `0`, `1` and `-`. Words are slices of the text. The calls return exactly what
//! `specs/LineWords.antt` defines: the first word and the others, names, the first name of more
//! than `MAX_NAME` bytes, and cube characters. If memory runs out, a list of names stays as it was.

ghost use Rattle.std.specs.Prelude.{◌≡◌, ◌++◌, ◌∷◌, [], nat_lt, length, map, find, option_copied};
ghost use Rattle.std.specs.Prelude.{IfOk, OnOk, OnErr};
ghost use Rattle.std.specs.List.{list_all};
ghost use Rattle.line_words.specs.LineWords.{texts, first_word};
ghost use Rattle.line_words.specs.LineWords.{other_words, long_name};
ghost use Rattle.line_words.specs.LineWords.{is_character};
ghost use Rattle.line_words.specs.LineWords.{character_of};

use circuit_model::{Name, Names, Row, Tri};
use sis_base::limits::MAX_NAME;
use std::alloc::{AllocError, Global};
use std::mem;

/// The first word; the empty one if there is none.
pub fn first_word<'a>(words: &[&'a [u8]]) -> &'a [u8]
    ensures { result.now ≡ first_word (texts words.now) }
{
    match words {
        [] => b"".as_slice(),
        [first, ..] => first,
    }
}

/// The words after the first.
pub fn other_words<'a, 'w>(words: &'w [&'a [u8]]) -> &'w [&'a [u8]]
    ensures { texts result.now ≡ other_words (texts words.now) }
{
    match words {
        [] => words,
        [_, others @ ..] => others,
    }
}

/// The name of a word.
pub fn name_of(alloc: Global, word: &[u8]) -> Result<Name, AllocError>
    ensures { IfOk result (λ name. name ≡ word.now) }
{
    Name::from_slice(alloc, word)
}

/// Appends the name of a word. On an error the names stay.
fn put_name(alloc: Global, names: &mut Vec<Name>, word: &[u8]) -> Result<(), AllocError>
    ensures ok { OnOk result (names.new.items ≡ names.old.items ++ word.now ∷ []) }
    ensures err { OnErr result (names.new.items ≡ names.old.items) }
{
    names.push(name_of(alloc, word)?)?;
    Ok(())
}

/// Appends a name for each word. On an error the names stay.
#[tactic(auto, using(std::proofs::lemmas::Grind::common_steps))]
fn put_names(alloc: Global, names: &mut Vec<Name>, words: &[&[u8]]) -> Result<(), AllocError>
    ensures ok { OnOk result (names.new.items ≡ names.old.items ++ texts words.now) }
    ensures err { OnErr result (names.new.items ≡ names.old.items) }
{
    let len = names.len();
    for word in words {
        if let Err(fault) = put_name(alloc, names, word) {
            names.truncate(len);
            return Err(fault);
        }
    }
    Ok(())
}

/// Appends a name for each word to some names. On an error the names stay.
pub fn add_names(alloc: Global, names: &mut Names, words: &[&[u8]]) -> Result<(), AllocError>
    ensures ok { OnOk result (names.new ≡ names.old ++ texts words.now) }
    ensures err { OnErr result (names.new ≡ names.old) }
{
    let mut items = mem::replace(names, Names::new(alloc)).into_vec();
    let put = put_names(alloc, &mut items, words);
    *names = Names::from_vec(items);
    put
}

/// The first word that is longer than a name may be.
fn first_long<'a, 'w>(words: &'w [&'a [u8]]) -> Option<&'w &'a [u8]>
    ensures { option_copied result ≡ find (λ word. nat_lt MAX_NAME (length word.now)) words.now }
{
    words.iter().find(|word| word.len() > MAX_NAME)
}

/// The length, in bytes, of the first word that is longer than a name may be.
#[tactic(auto, unfolding(crate::specs::LineWords::long_name))]
pub fn long_name(words: &[&[u8]]) -> Option<usize>
    ensures { result ≡ long_name (texts words.now) }
{
    match first_long(words) {
        None => None,
        Some(word) => Some(word.len()),
    }
}

/// Whether all bytes are cube characters: `0`, `1` or `-`.
pub fn are_characters(bytes: &[u8]) -> bool
    ensures { result ≡ list_all is_character bytes.now }
{
    bytes
        .iter()
        .all(|byte| *byte == b'0' || *byte == b'1' || *byte == b'-')
}

/// The cube character of a byte; any byte but `0` and `1` is a dash.
fn character_of(byte: u8) -> Tri
    ensures { result ≡ character_of byte }
{
    if byte == b'0' {
        Tri::Zero
    } else if byte == b'1' {
        Tri::One
    } else {
        Tri::Free
    }
}

/// The cube characters of some bytes.
pub fn characters(alloc: Global, bytes: &[u8]) -> Result<Row, AllocError>
    ensures { IfOk result (λ row. row ≡ map character_of bytes.now) }
{
    let mut row = Row::new(alloc);
    for byte in bytes {
        row.push(character_of(*byte))?;
    }
    Ok(row)
}
