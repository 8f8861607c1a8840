//! The text of a factored form.
//!
//! The signs `!`, `*` and `+` are those of the equations of SIS (report UCB/ERL M92/41); factored
//! forms are those of De Micheli, "Synthesis and Optimization of Digital Circuits", chapter 8. Each
//! function appends its part of the text to a buffer; the text is exactly that of
//! `specs/Texts.antt`. Parentheses are written only around a factor of two summands or more.

ghost use Rattle.std.specs.Prelude.{◌≡◌, ℕ, ◌+◌, ◌<◌, ◌++◌, ◌∷◌, [], ltb, Bool, not, slice_index_or, Option, List, length, map, codes, ◌↔◌, IsTrue, IfOk, OnOk};
ghost use Rattle.sis_base.specs.Rows.{HasWidth};
ghost use Rattle.alg_factor.specs.Forms.{IsOver};
ghost use Rattle.alg_factor.specs.Shapes.{shape};
ghost use Rattle.alg_factor.specs.Texts.{literal_text, texts_at, row_text, sum_text, form_text};
ghost use Rattle.alg_factor.specs.Writing.{left_text, written_if, summands};

use crate::form::Tree;
use circuit_model::Name;
use cube_cover::Row;
use std::alloc::{AllocError, Global};

// Appends a text, if it is wanted.
fn put_if(text: &mut Vec<u8>, wanted: bool, more: &[u8]) -> Result<(), AllocError>
    ensures { OnOk result (text.new.items ≡ text.old.items ++ written_if wanted more.now) }
{
    if !wanted {
        return Ok(());
    }
    text.extend_from_slice(more)
}

// Appends a literal.
fn put_literal(text: &mut Vec<u8>, name: &Name, bit: bool) -> Result<(), AllocError>
    ensures { OnOk result (text.new.items ≡ text.old.items ++ literal_text bit name.now) }
{
    put_if(text, !bit, b"!")?;
    text.extend_from_slice(name.as_slice())
}

// Appends the literal of a column, if it has one, after a sign unless it is the first. Returns
// whether there is still none.
fn put_literal_at(
    text: &mut Vec<u8>,
    first: bool,
    name: &Name,
    literal: Option<bool>,
) -> Result<bool, AllocError>
    ensures { IfOk result (λ none_yet. (texts : List (List ℕ))
        → text.new.items ++ left_text none_yet (codes "1") (codes "*") texts
        ≡ text.old.items ++ left_text first (codes "1") (codes "*")
        (texts_at name.now literal ++ texts)) }
{
    let Some(bit) = literal else {
        return Ok(first);
    };
    put_if(text, !first, b"*")?;
    put_literal(text, name, bit)?;
    Ok(false)
}

// Appends a row.
#[tactic(auto, unfolding(crate::specs::Texts::literal_texts))]
fn put_row<R: Row>(text: &mut Vec<u8>, row: &R, names: &[Name]) -> Result<(), AllocError>
    requires { length names.now ≡ length (R.literals row.now) }
    ensures { OnOk result (text.new.items ≡ text.old.items ++ row_text names.now
        (R.literals row.now)) }
{
    let mut first = true;
    for (place, name) in names.iter().enumerate() {
        first = put_literal_at(text, first, name, row.at(place))?;
    }
    put_if(text, first, b"1")
}

// Appends the remaining summands, each after a sign unless it is the first, or `0` if there are
// none at all.
#[tactic(auto, using(cube_cover::proofs::Points::width_read))]
fn put_rows<R: Row>(
    text: &mut Vec<u8>,
    first: bool,
    rows: &[R],
    names: &[Name],
) -> Result<(), AllocError>
    requires { HasWidth (length names.now) (map R.literals rows.now) }
    ensures { OnOk result (text.new.items ≡ text.old.items ++ left_text first (codes "0")
        (codes " + ") (map (row_text names.now) (map R.literals rows.now))) }
{
    let mut none_yet = first;
    for row in rows {
        put_if(text, !none_yet, b" + ")?;
        put_row(text, row, names)?;
        none_yet = false;
    }
    put_if(text, none_yet, b"0")
}

/// The text of a sum of rows, with a name for each input: the literals of a row with `*` between
/// them, or `1` if it has none; ` + ` between rows; `0` if there are no rows.
pub fn sum_text<R: Row>(alloc: Global, names: &[Name], rows: &[R]) -> Result<Vec<u8>, AllocError>
    requires { HasWidth (length names.now) (map R.literals rows.now) }
    ensures { IfOk result (λ text. text.items ≡ sum_text
        (map (row_text names.now) (map R.literals rows.now))) }
{
    let mut text = Vec::new(alloc);
    put_rows(&mut text, true, rows, names)?;
    Ok(text)
}

// Whether a form has a summand.
#[tactic(auto, unfolding(crate::specs::Writing::summands))]
fn has_summand<R: Row>(tree: &Tree<R>) -> bool
    ensures { IsTrue result ↔ (0 < summands (shape R.literals tree.now)) }
{
    match tree {
        Tree::Rows(rows) => !rows.is_empty(),
        Tree::Term(_, _, _, _) => true,
    }
}

// Whether a form has at least two summands.
#[tactic(auto, unfolding(crate::specs::Writing::summands))]
fn is_sum<R: Row>(tree: &Tree<R>) -> bool
    ensures { result ≡ ltb 1 (summands (shape R.literals tree.now)) }
{
    match tree {
        Tree::Rows(rows) => rows.len() > 1,
        Tree::Term(_, _, _, rest) => has_summand(rest),
    }
}

// Appends the literal of a summand, after a sign unless it is the first, and the sign of the
// product.
fn put_head(
    text: &mut Vec<u8>,
    first: bool,
    names: &[Name],
    place: usize,
    bit: bool,
) -> Result<(), AllocError>
    requires { place < length names.now }
    ensures { OnOk result (text.new.items ≡ text.old.items ++
        (written_if (not first) (codes " + ") ++ (literal_text bit
        (slice_index_or names.now place []) ++ codes "*"))) }
{
    put_if(text, !first, b" + ")?;
    put_literal(text, &names[place], bit)?;
    text.extend_from_slice(b"*")
}

/// Appends a form.
pub(crate) fn put_tree<R: Row>(
    text: &mut Vec<u8>,
    tree: &Tree<R>,
    names: &[Name],
) -> Result<(), AllocError>
    requires { IsOver (length names.now) (shape R.literals tree.now) }
    ensures { OnOk result (text.new.items ≡ text.old.items ++ form_text names.now
        (shape R.literals tree.now)) }
{
    let mut first = true;
    let mut here = tree;
    loop {
        match here {
            Tree::Rows(rows) => return put_rows(text, first, rows.as_slice(), names),
            Tree::Term(place, bit, quotient, rest) => {
                put_head(text, first, names, *place, *bit)?;
                let sum = is_sum(quotient);
                put_if(text, sum, b"(")?;
                put_tree(text, quotient, names)?;
                put_if(text, sum, b")")?;
                first = false;
                here = rest;
            }
        }
    }
}
