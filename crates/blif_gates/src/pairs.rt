//! Words `pin=signal`, as they are in the text that is read.
//!
//! Source: the BLIF appendix of the SIS report (UCB/ERL M92/41), `.gate`. A word is split at its
//! first `=`; it is a pair if something follows. The first pair of a pin gives its signal
//! (`specs/GateLines.antt`). `add_signals` appends those signals of a line that are among given
//! names, in the order of the line; if memory runs out, the list stays as it was. `long_signal`
//! returns the length of the first signal that is too long.

ghost use Rattle.std.specs.Prelude.{◌≡◌, ◌≤◌, ◌++◌, ◌∷◌, [], nat_lt, length, find, bytes_eq};
ghost use Rattle.std.specs.Prelude.{option_copied, if◌then◌else◌, OnOk, OnErr};
ghost use Rattle.std.specs.List.{list_all, list_any, filter};
ghost use Rattle.circuit_model.specs.Names.{has};
ghost use Rattle.line_words.specs.LineWords.{texts, long_name};
ghost use Rattle.genlib_format.specs.Words.{before};
ghost use Rattle.blif_gates.specs.GateLines.{pin_in, signal_in};
ghost use Rattle.blif_gates.specs.GateLines.{is_pair, pins_of, signals_of};
ghost use Rattle.blif_gates.specs.GateLines.{signal_for};

use circuit_model::{Name, Names};
use line_words::name_of;
use sis_base::limits::MAX_NAME;
use std::alloc::{AllocError, Global};
use std::mem;

/// The number of bytes before the first `=`.
#[tactic(auto, unfolding(genlib_format::specs::Words::before))]
fn front_len(word: &[u8]) -> usize
    ensures value { result ≡ length (before 61 word.now) }
    ensures within { result ≤ length word.now }
{
    word.iter().take_while(|byte| **byte != b'=').count()
}

/// The bytes before the first `=`.
#[tactic(auto, using(genlib_format::proofs::Steps::before_taken))]
pub fn pin_in(word: &[u8]) -> &[u8]
    ensures { result.now ≡ pin_in word.now }
{
    &word[..front_len(word)]
}

/// The bytes after the first `=`; none if there is no `=`.
#[tactic(auto, unfolding(genlib_format::specs::Words::behind), using(std::proofs::lemmas::List::drop_min, std::proofs::lemmas::Grind::common_steps))]
pub fn signal_in(word: &[u8]) -> &[u8]
    ensures { result.now ≡ signal_in word.now }
{
    &word[(front_len(word) + 1).min(word.len())..]
}

/// Whether something follows the first `=`.
pub fn is_pair(word: &[u8]) -> bool
    ensures { result ≡ is_pair word.now }
{
    match signal_in(word) {
        [] => false,
        [_, ..] => true,
    }
}

/// Whether each word is a pair.
fn each_is_pair(words: &[&[u8]]) -> bool
    ensures { result ≡ list_all (λ word. is_pair word.now) words.now }
{
    words.iter().all(|word| is_pair(word))
}

/// Whether all words are pairs.
#[tactic(auto, using(crate::proofs::Texts::all_pairs))]
pub fn are_pairs(words: &[&[u8]]) -> bool
    ensures { result ≡ list_all is_pair (texts words.now) }
{
    each_is_pair(words)
}

/// Whether some word has this pin before its first `=`.
fn some_names(words: &[&[u8]], pin: &[u8]) -> bool
    ensures { result ≡ list_any (λ word. bytes_eq pin.now (pin_in word.now)) words.now }
{
    words.iter().any(|word| pin == pin_in(word))
}

/// Whether some pair names a pin.
pub fn is_named(words: &[&[u8]], pin: &[u8]) -> bool
    ensures { result ≡ has (pins_of (texts words.now)) pin.now }
{
    some_names(words, pin)
}

/// Whether pairs name all pins.
pub fn are_named(words: &[&[u8]], pins: &[Name]) -> bool
    ensures { result ≡ list_all (has (pins_of (texts words.now))) pins.now }
{
    pins.iter().all(|pin| is_named(words, pin.as_slice()))
}

/// The first pair that names a pin.
fn pair_for<'a, 'w>(words: &'w [&'a [u8]], pin: &[u8]) -> Option<&'w &'a [u8]>
    ensures { option_copied result ≡ find (λ word. bytes_eq pin.now (pin_in word.now)) words.now }
{
    words.iter().find(|word| pin == pin_in(word))
}

/// The signal of the first pair that names a pin; the empty one if none does.
pub fn signal_for<'a>(words: &[&'a [u8]], pin: &[u8]) -> &'a [u8]
    ensures { result.now ≡ signal_for (texts words.now) pin.now }
{
    match pair_for(words, pin) {
        None => b"".as_slice(),
        Some(word) => signal_in(word),
    }
}

/// Whether a signal is among some names.
fn is_among(names: &[Name], signal: &[u8]) -> bool
    ensures { result ≡ has names.now signal.now }
{
    names.iter().any(|name| signal == name.as_slice())
}

/// Appends a signal to names, if it is among others. On an error the names stay.
fn add_signal(
    alloc: Global,
    names: &mut Vec<Name>,
    signal: &[u8],
    among: &[Name],
) -> Result<(), AllocError>
    ensures ok { OnOk result (names.new.items ≡ (if has among.now signal.now
        then names.old.items ++ signal.now ∷ [] else names.old.items)) }
    ensures err { OnErr result (names.new.items ≡ names.old.items) }
{
    if is_among(among, signal) {
        names.push(name_of(alloc, signal)?)?;
    }
    Ok(())
}

/// Appends those signals of words that are among other names. On an error the names stay.
#[tactic(auto, using(std::proofs::lemmas::Grind::common_steps))]
fn put_signals(
    alloc: Global,
    names: &mut Vec<Name>,
    words: &[&[u8]],
    among: &[Name],
) -> Result<(), AllocError>
    ensures ok { OnOk result (names.new.items
        ≡ names.old.items ++ filter (has among.now) (signals_of (texts words.now))) }
    ensures err { OnErr result (names.new.items ≡ names.old.items) }
{
    let len = names.len();
    for word in words {
        if let Err(fault) = add_signal(alloc, names, signal_in(word), among) {
            names.truncate(len);
            return Err(fault);
        }
    }
    Ok(())
}

/// Appends those signals of words that are among other names, in the order of the words. On an
/// error the names stay.
pub fn add_signals(
    alloc: Global,
    names: &mut Names,
    words: &[&[u8]],
    among: &[Name],
) -> Result<(), AllocError>
    ensures ok { OnOk result (names.new
        ≡ names.old ++ filter (has among.now) (signals_of (texts words.now))) }
    ensures err { OnErr result (names.new ≡ names.old) }
{
    let mut items = mem::replace(names, Names::new(alloc)).into_vec();
    let put = put_signals(alloc, &mut items, words, among);
    *names = Names::from_vec(items);
    put
}

/// The first word whose signal is longer than a name may be.
fn first_long<'a, 'w>(words: &'w [&'a [u8]]) -> Option<&'w &'a [u8]>
    ensures { option_copied result
        ≡ find (λ word. nat_lt MAX_NAME (length (signal_in word.now))) words.now }
{
    words.iter().find(|word| signal_in(word).len() > MAX_NAME)
}

/// The length, in bytes, of the first signal that is longer than a name may be.
pub fn long_signal(words: &[&[u8]]) -> Option<usize>
    ensures { result ≡ long_name (signals_of (texts words.now)) }
{
    match first_long(words) {
        None => None,
        Some(word) => Some(signal_in(word).len()),
    }
}
