//! The elimination of a table into one that reads it.
//!
//! Source: SIS report (UCB/ERL M92/41), `eliminate` and `collapse`; De Micheli, "Synthesis and
//! Optimization of Digital Circuits", chapter 8 (elimination). `compose_into` composes the covers
//! (cover_ops), joins the inputs and brings the result to normal form. It refuses if a list of rows
//! that is needed, or the result, is longer than its limit, or the result has more than
//! `MAX_INPUTS` inputs, and else only if memory runs out; rows and inputs are counted before the
//! result is in normal form. Callers rely on `laws`: the fanout keeps its value, and no longer
//! reads the eliminated signal.

ghost use Rattle.std.specs.Prelude.{◌≡◌, ◌<◌, ℕ, true, false, Some, None, List, [], length, slice_index_or, IfOk, IfErr, OnOk, ◌⊎◌};
ghost use Rattle.circuit_model.specs.Names.{has, all_different};
ghost use Rattle.net_core.specs.Tables.{named, IsOverInputs};
ghost use Rattle.circuit_tables.specs.Tidy.{tidied};
ghost use Rattle.cover_ops.specs.Composed.{AreEntries, IsTooLong, composition};
ghost use Rattle.alg_tables.specs.Taking.{entries, composed_at, composed_into, refusal_at, take_refusal};
ghost use Rattle.alg_tables.specs.declared.taking.ComposeFault.TheVariants.{CubeLimit, Memory};

use crate::inputs::{joined_names, place_among, places_of};
use circuit_model::Name;
use cover_ops::{ListFault, compose};
use cube_cover::{Cover, Row};
use net_core::{CoverTable, tidy};
use sis_base::limits::MAX_INPUTS;
use std::alloc::{AllocError, Global};

/// Why a table is not eliminated into another one.
#[derive(Clone, Copy, Debug, PartialEq, Eq, Drop)]
pub enum ComposeFault {
    /// A list of rows, or the result, has more rows than its limit.
    CubeLimit,
    /// The result has this many inputs, more than 1,000.
    TooWide(usize),
    /// There is not enough memory.
    Memory,
}

impl From<AllocError> for ComposeFault {
    ghost use Rattle.std.specs.Prelude.{◌≡◌};
    ghost use Rattle.alg_tables.specs.declared.taking.ComposeFault.TheVariants.{Memory};

    ghost from_gives = { λ _ fault. fault ≡ Memory };

    fn from(_error: AllocError) -> ComposeFault {
        ComposeFault::Memory
    }
}

// The fault for a list that was refused.
fn fault_of(fault: ListFault) -> ComposeFault
    ensures limit { fault ≡ ListFault.CubeLimit → result ≡ ComposeFault.CubeLimit }
    ensures memory { fault ≡ ListFault.Memory → result ≡ ComposeFault.Memory }
{
    match fault {
        ListFault::CubeLimit => ComposeFault::CubeLimit,
        ListFault::Memory => ComposeFault::Memory,
    }
}

// A cover with another one composed in place of an input.
fn composed_cover<R: Row>(
    alloc: Global,
    place: usize,
    inner: &CoverTable<R>,
    outer: &CoverTable<R>,
    places: &[Option<usize>],
    list_limit: usize,
    row_limit: usize,
) -> Result<Cover<R>, ComposeFault>
    requires inner_over { IsOverInputs inner.now }
    requires outer_over { IsOverInputs outer.now }
    requires place { place < length outer.now.inputs }
    requires places { places.now ≡ entries outer.now.inputs inner.now.inputs }
    requires entries { AreEntries (length outer.now.inputs) place places.now }
    ensures ok { IfOk result (λ made. made ≡ composition outer.now.cover place inner.now.cover
        inner.now.phase places.now) }
    ensures within { OnOk result (IsTooLong list_limit row_limit outer.now.cover place
        inner.now.cover inner.now.phase places.now → ⊥) }
    ensures fault { IfErr result (λ fault. (fault ≡ Memory)
        ⊎ ((fault ≡ CubeLimit) × IsTooLong list_limit row_limit outer.now.cover place
        inner.now.cover inner.now.phase places.now)) }
{
    match compose(
        alloc,
        &outer.cover,
        place,
        &inner.cover,
        inner.phase,
        places,
        list_limit,
        row_limit,
    ) {
        Ok(made) => Ok(made),
        Err(fault) => Err(fault_of(fault)),
    }
}

// A table with another one composed in place of an input, in normal form.
fn taken_at<R: Row>(
    alloc: Global,
    place: usize,
    inner: &CoverTable<R>,
    outer: &CoverTable<R>,
    list_limit: usize,
    row_limit: usize,
) -> Result<CoverTable<R>, ComposeFault>
    requires inner_over { IsOverInputs inner.now }
    requires outer_over { IsOverInputs outer.now }
    requires inner_once { all_different inner.now.inputs ≡ true }
    requires outer_once { all_different outer.now.inputs ≡ true }
    requires place { place < length outer.now.inputs }
    requires apart { has inner.now.inputs (slice_index_or outer.now.inputs place []) ≡ false }
    ensures ok { IfOk result (λ made. (name output : List ℕ) → named output made ≡ tidied
        (composed_at place (named name inner.now) (named output outer.now))) }
    ensures over { IfOk result IsOverInputs }
    ensures within { OnOk result ((name output : List ℕ) → refusal_at list_limit row_limit place
        (named name inner.now) (named output outer.now) ≡ None) }
    ensures fault { IfErr result (λ fault. (fault ≡ Memory)
        ⊎ ((name output : List ℕ) → refusal_at list_limit row_limit place (named name inner.now)
        (named output outer.now) ≡ Some fault)) }
{
    let places = places_of(alloc, outer.inputs.as_slice(), inner.inputs.as_slice())?;
    let cover = composed_cover(
        alloc,
        place,
        inner,
        outer,
        places.as_slice(),
        list_limit,
        row_limit,
    )?;
    let inputs = joined_names(
        alloc,
        place,
        outer.inputs.as_slice(),
        inner.inputs.as_slice(),
        places.as_slice(),
    )?;
    let width = inputs.len();
    if width > MAX_INPUTS {
        return Err(ComposeFault::TooWide(width));
    }
    let made = CoverTable {
        inputs,
        cover,
        phase: outer.phase,
    };
    let tidy_table = tidy(alloc, &made)?;
    Ok(tidy_table)
}

/// The table that `outer` becomes if `inner`, which drives `name`, is eliminated into it: the inner
/// function replaces `name`, the inputs that `outer` lacks replace its column, in order, and the
/// result is brought to normal form. A table that does not read `name` stays as it is.
///
/// `CubeLimit` if the result has more than `row_limit` rows, or if a row needs the value that the
/// inner table's rows do not give, and its list for that value has more than `list_limit` rows.
/// Else `TooWide` with the number of its inputs if that is more than 1,000. Both are counted before
/// the result is in normal form.
pub fn compose_into<R: Row>(
    alloc: Global,
    name: &Name,
    inner: &CoverTable<R>,
    outer: &CoverTable<R>,
    list_limit: usize,
    row_limit: usize,
) -> Result<CoverTable<R>, ComposeFault>
    requires inner_over { IsOverInputs inner.now }
    requires outer_over { IsOverInputs outer.now }
    requires inner_once { all_different inner.now.inputs ≡ true }
    requires outer_once { all_different outer.now.inputs ≡ true }
    requires apart { has inner.now.inputs name.now ≡ false }
    ensures ok { IfOk result (λ made. (output : List ℕ) → named output made ≡ composed_into
        (named name.now inner.now) (named output outer.now)) }
    ensures over { IfOk result IsOverInputs }
    ensures within { OnOk result ((output : List ℕ) → take_refusal list_limit row_limit
        (named name.now inner.now) (named output outer.now) ≡ None) }
    ensures fault { IfErr result (λ fault. (fault ≡ Memory)
        ⊎ ((output : List ℕ) → take_refusal list_limit row_limit (named name.now inner.now)
        (named output outer.now) ≡ Some fault)) }
{
    match place_among(outer.inputs.as_slice(), name) {
        None => {
            let same = outer.copy(alloc)?;
            Ok(same)
        }
        Some(place) => {
            let taken = taken_at(alloc, place, inner, outer, list_limit, row_limit)?;
            Ok(taken)
        }
    }
}
