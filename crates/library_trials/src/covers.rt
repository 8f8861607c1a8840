//! Cases of covers and of factored forms, whose inputs are named a, b, c and so on.
//!
//! The first argument of a case is a cover in the form of `rows`. The calls are those of
//! cube_cover, cover_ops, alg_div, alg_kernel and alg_factor: intersections, cofactors, on-list and
//! off-list, composition, quotient and remainder, kernels, factored forms. Each answer is a cover
//! or a form as text, and the functions are generic in the kind of row.

ghost use Rattle.std.specs.Prelude.{◌≡◌, length};

use crate::oracle::{put_least, put_refused};
use crate::puts::{put_text, put_value};
use crate::reads::names;
use crate::rows::{cover, put_cover, put_made, put_made_row};
use alg_div::{all_literals_of, copy_of, cover_of, divide, literals_of, row_of, strip_row};
use alg_factor::{Factored, factor, part_rows, sum_text};
use alg_kernel::kernels;
use circuit_model::Name;
use cover_ops::{compose, off_list, on_list};
use cube_cover::{Cover, PlainRow, Row};
use sis_base::{Copied, Whole};
use std::alloc::Global;
use trial_cases::{Case, CaseFault, number_of};

/// Appends the answer to a case of the cover that is its first argument.
pub fn answer<R: Row>(alloc: Global, out: &mut Vec<u8>, case: &Case<'_>) -> Result<(), CaseFault> {
    let first: Cover<R> = cover(alloc, case.word(1))?;
    answer_cover(alloc, out, &first, case)
}

/// Appends the answer to a case of a cover.
fn answer_cover<R: Row>(
    alloc: Global,
    out: &mut Vec<u8>,
    f: &Cover<R>,
    case: &Case<'_>,
) -> Result<(), CaseFault> {
    match case.word(0) {
        "rows" => put_rows(alloc, out, f),
        "cover_of" => put_anew(alloc, out, f),
        "cofactor" => put_cofactor(alloc, out, f, case),
        "is_tautology" => put_value(alloc, out, &f.is_tautology(alloc)?),
        "on_list" | "off_list" => put_list(alloc, out, f, case),
        "compose" => put_composition(alloc, out, f, case),
        "divide" => put_quotient(alloc, out, f, case),
        "kernels" => put_kernels(alloc, out, f),
        "factor" => put_factored(alloc, out, f, case.word(2)),
        "part_rows" => put_parts(alloc, out, f, case.word(2)),
        "prime_irredundant" => put_least(alloc, out, f),
        "refused_minimum" => put_refused(alloc, out, f),
        _ => Err(CaseFault::Bad),
    }
}

/// Appends what is made of the first two rows of a cover, if they intersect.
fn put_rows<R: Row>(alloc: Global, out: &mut Vec<u8>, f: &Cover<R>) -> Result<(), CaseFault> {
    match f.rows() {
        [one, other, ..] => {
            if one.width() != other.width() || !one.intersects(other) {
                return Err(CaseFault::Bad);
            }
            put_made_row(out, R::dashes(alloc, one.width()))?;
            put_made_row(out, one.copy(alloc))?;
            put_made_row(out, one.product(alloc, other))?;
            put_stripped(alloc, out, one, other)
        }
        _ => Err(CaseFault::Bad),
    }
}

/// Appends the second of two rows without its literals in the columns in which the first has one,
/// by each way to make a row of literals.
fn put_stripped<R: Row>(
    alloc: Global,
    out: &mut Vec<u8>,
    mask: &R,
    row: &R,
) -> Result<(), CaseFault>
    requires { length (R.literals mask.now) ≡ length (R.literals row.now) }
{
    let mask = literals_of(alloc, mask)?;
    let row = literals_of(alloc, row)?;
    let left = strip_row(alloc, mask.as_slice(), row.as_slice())?;
    put_made_row(out, PlainRow::from_literals(alloc, left.as_slice()))?;
    put_made_row::<R>(
        out,
        row_of(alloc, copy_of(alloc, left.as_slice())?.as_slice()),
    )
}

/// Appends a cover made anew from the literals of the rows of a copy.
fn put_anew<R: Row>(alloc: Global, out: &mut Vec<u8>, f: &Cover<R>) -> Result<(), CaseFault> {
    let copy = f.copy(alloc)?;
    let found = all_literals_of(alloc, copy.rows())?;
    let made: Cover<R> = cover_of(alloc, f.width(), found.as_slice())?;
    put_cover(alloc, out, &made)
}

/// Appends the cofactor for a bit of a column.
fn put_cofactor<R: Row>(
    alloc: Global,
    out: &mut Vec<u8>,
    f: &Cover<R>,
    case: &Case<'_>,
) -> Result<(), CaseFault> {
    let place = number_of(case.word(2))?;
    if place >= f.width() {
        return Err(CaseFault::Bad);
    }
    put_made(alloc, out, &f.cofactor(alloc, place, case.word(3) == "1"))
}

/// Appends the on-list or the off-list of a cover and a phase.
fn put_list<R: Row>(
    alloc: Global,
    out: &mut Vec<u8>,
    f: &Cover<R>,
    case: &Case<'_>,
) -> Result<(), CaseFault> {
    let phase = case.word(2) == "true";
    let limit = number_of(case.word(3))?;
    if case.word(0) == "on_list" {
        return put_made(alloc, out, &on_list(alloc, f, phase, limit));
    }
    put_made(alloc, out, &off_list(alloc, f, phase, limit))
}

/// Appends the composition of a cover with another one, of two inputs that the first does not have,
/// at column 0.
#[tactic(auto, unfolding(cover_ops::specs::Composed::AreEntries))]
fn put_composition<R: Row>(
    alloc: Global,
    out: &mut Vec<u8>,
    outer: &Cover<R>,
    case: &Case<'_>,
) -> Result<(), CaseFault> {
    let limit = number_of(case.word(4))?;
    let phase = case.word(3) == "true";
    let inner: Cover<R> = cover(alloc, case.word(2))?;
    if outer.width() == 0 || inner.width() != 2 {
        return Err(CaseFault::Bad);
    }
    let made = compose(alloc, outer, 0, &inner, phase, &[None, None], limit, limit);
    put_made(alloc, out, &made)
}

/// Appends the quotient and the remainder by another cover.
fn put_quotient<R: Row>(
    alloc: Global,
    out: &mut Vec<u8>,
    f: &Cover<R>,
    case: &Case<'_>,
) -> Result<(), CaseFault> {
    let d: Whole<Cover<R>> = Whole {
        it: cover(alloc, case.word(2))?,
    };
    if f.width() != d.it.width() {
        return Err(CaseFault::Bad);
    }
    let parts = Whole {
        it: divide(alloc, f, &d.it)?,
    };
    put_cover(alloc, out, &parts.it.0)?;
    put_cover(alloc, out, &parts.it.1)
}

/// Appends the kernels of a cover, each on a line, or why there are none.
fn put_kernels<R: Row>(alloc: Global, out: &mut Vec<u8>, f: &Cover<R>) -> Result<(), CaseFault> {
    match &kernels(alloc, f) {
        Ok(found) => {
            for kernel in found {
                put_cover(alloc, out, kernel)?;
            }
            Ok(())
        }
        Err(fault) => put_value(alloc, out, fault),
    }
}

/// Appends the factored form of a cover, with a name from the word for each input, and the form
/// multiplied out.
fn put_factored<R: Row>(
    alloc: Global,
    out: &mut Vec<u8>,
    f: &Cover<R>,
    word: &str,
) -> Result<(), CaseFault> {
    let form = factor(alloc, f)?;
    put_form(alloc, out, &form, names(alloc, word)?.as_slice())
}

/// Appends the text of a form, with a name for each input, and the form multiplied out.
fn put_form<R: Row>(
    alloc: Global,
    out: &mut Vec<u8>,
    form: &Factored<R>,
    names: &[Name],
) -> Result<(), CaseFault> {
    if names.len() != form.width() {
        return Err(CaseFault::Bad);
    }
    put_text(out, form.print(alloc, names)?.as_slice())?;
    put_made(alloc, out, &form.expand(alloc))
}

/// Appends the sum of the rows of a cover, with a name from the word for each input, then the
/// numbers of literals of the rows that have the positive literal of its first input, without that
/// literal, and of the others.
fn put_parts<R: Row>(
    alloc: Global,
    out: &mut Vec<u8>,
    f: &Cover<R>,
    word: &str,
) -> Result<(), CaseFault> {
    let names = names(alloc, word)?;
    if f.width() == 0 || names.len() != f.width() {
        return Err(CaseFault::Bad);
    }
    put_text(out, sum_text(alloc, names.as_slice(), f.rows())?.as_slice())?;
    let parts = part_rows(alloc, f.width(), f.copy(alloc)?.into_rows(), 0, true)?;
    put_value(alloc, out, &all_literals_of(alloc, parts.with.as_slice())?)?;
    put_value(
        alloc,
        out,
        &all_literals_of(alloc, parts.others.as_slice())?,
    )
}
