//! Latches from the words of their `.latch` lines.
//!
//! Source: BLIF appendix of the SIS report (UCB/ERL M92/41): an input and an output, then a kind
//! with a control, or neither, then a start value, which is 3 (unknown) if it is missing. All
//! latches share one timing, that of the first; `mixed_at` keeps the line of the first latch with
//! another one. The results are those of `specs/Reader.antt` and `specs/Steps.antt`.

ghost use Rattle.std.specs.Prelude.{◌≡◌, ◌-◌, ◌++◌, IfOk, OnOk, OnErr, slice_index};
ghost use Rattle.line_words.specs.LineWords.{texts};
ghost use Rattle.blif_lines.specs.Reader.{latch_of, init_of, kind_by, control_by, timing_of, same_kind, same_control, same_timing};
ghost use Rattle.blif_lines.specs.Steps.{timing_with, mixed_with};

use circuit_model::{Kind, Latch, Latches, Name, Timing};
use line_words::name_of;
use std::alloc::{AllocError, Global};

/// The start value of a word: the digit that it begins with.
fn digit_of(word: &[u8]) -> u8
    ensures { result ≡ slice_index word.now 0 - 48 }
{
    match word {
        [] => 0,
        [digit, ..] => digit.saturating_sub(b'0'),
    }
}

/// The start value of a latch, by the words after its output: the last of one or three, and 3 if
/// there is none.
fn init_of(words: &[&[u8]]) -> u8
    ensures { result ≡ init_of (texts words.now) }
{
    match words {
        [init] => digit_of(init),
        [_, _, init, ..] => digit_of(init),
        _ => 3,
    }
}

/// Appends the latch of a line. On an error the latches stay.
pub fn add_latch(alloc: Global, latches: &mut Latches, words: &[&[u8]]) -> Result<(), AllocError>
    ensures ok { OnOk result (latches.new ≡ latches.old ++ latch_of (texts words.now)) }
    ensures err { OnErr result (latches.new ≡ latches.old) }
{
    match words {
        [input, output, rest @ ..] => {
            let latch = Latch {
                input: name_of(alloc, input)?,
                output: name_of(alloc, output)?,
                init: init_of(rest),
            };
            latches.push(latch)?;
            Ok(())
        }
        _ => Ok(()),
    }
}

/// The kind of a latch by its word.
fn kind_of(word: &[u8]) -> Kind
    ensures { result ≡ kind_by word.now }
{
    if word == b"fe".as_slice() {
        Kind::Fe
    } else if word == b"re".as_slice() {
        Kind::Re
    } else if word == b"ah".as_slice() {
        Kind::Ah
    } else {
        Kind::Al
    }
}

/// The control of a latch by its word; none for `NIL`.
fn control_of(alloc: Global, word: &[u8]) -> Result<Option<Name>, AllocError>
    ensures { IfOk result (λ control. control ≡ control_by word.now) }
{
    if word == b"NIL".as_slice() {
        return Ok(None);
    }
    Ok(Some(name_of(alloc, word)?))
}

/// The kind and the control of a latch, if its line has them.
pub fn timing_of(alloc: Global, words: &[&[u8]]) -> Result<Option<Timing>, AllocError>
    ensures { IfOk result (λ timing. timing ≡ timing_of (texts words.now)) }
{
    match words {
        [_, _, kind, control, ..] => Ok(Some(Timing {
            kind: kind_of(kind),
            control: control_of(alloc, control)?,
        })),
        _ => Ok(None),
    }
}

/// Whether two kinds are the same.
fn same_kind(kind: Kind, other: Kind) -> bool
    ensures { result ≡ same_kind kind other }
{
    match (kind, other) {
        (Kind::Fe, Kind::Fe) | (Kind::Re, Kind::Re) | (Kind::Ah, Kind::Ah) | (Kind::Al, Kind::Al) =>
            true,
        _ => false,
    }
}

/// Whether two controls are the same.
fn same_control(control: &Option<Name>, other: &Option<Name>) -> bool
    ensures { result ≡ same_control control.now other.now }
{
    match (control, other) {
        (None, None) => true,
        (Some(name), Some(other)) => name.as_slice() == other.as_slice(),
        _ => false,
    }
}

/// Whether two timings are the same.
fn same_timing(timing: &Option<Timing>, other: &Option<Timing>) -> bool
    ensures { result ≡ same_timing timing.now other.now }
{
    match (timing, other) {
        (None, None) => true,
        (Some(timing), Some(other)) => {
            same_kind(timing.kind, other.kind) && same_control(&timing.control, &other.control)
        }
        _ => false,
    }
}

/// The timing of the first latch, after one more than `latches` with its own.
#[tactic(auto, unfolding(crate::specs::Steps::timing_with))]
pub fn shared<'a>(
    latches: &[Latch],
    timing: &'a Option<Timing>,
    own: &'a Option<Timing>,
) -> &'a Option<Timing>
    ensures { result.now ≡ timing_with latches.now timing.now own.now }
{
    match latches {
        [] => own,
        [_, ..] => timing,
    }
}

/// Keeps the timing of the first latch, after one more than `latches` with its own.
#[tactic(auto, unfolding(crate::specs::Steps::timing_with))]
pub fn keep_timing(latches: &[Latch], timing: &mut Option<Timing>, own: Option<Timing>)
    ensures { timing.new ≡ timing_with latches.now timing.old own }
{
    match latches {
        [] => *timing = own,
        [_, ..] => {}
    }
}

/// The line of the first latch whose timing is not that of the first, after one more in line
/// `number`.
#[tactic(auto, unfolding(crate::specs::Steps::mixed_with))]
pub fn mixed_at(
    mixed: Option<usize>,
    timing: &Option<Timing>,
    number: usize,
    own: &Option<Timing>,
) -> Option<usize>
    ensures { result ≡ mixed_with mixed timing.now number own.now }
{
    match mixed {
        Some(line) => Some(line),
        None => {
            if same_timing(timing, own) {
                None
            } else {
                Some(number)
            }
        }
    }
}
