//! Rows as lists of literals, one for each column.
//!
//! `PlainRow` is the simple representation of a row (De Micheli, "Synthesis and Optimization of
//! Digital Circuits", chapter 7: operations on cubes, column by column). Contracts see it as its
//! list of literals, where `None` is a dash. Each operation is exact by literals; the trait `Row`
//! says what that means at all points.

ghost use Rattle.std.specs.Prelude.{◌≡◌, ℕ, ◌<◌, Bool, ◌↔◌, Option, None, List, length, map, replicate, slice_index_or, slice_set, IfOk, IsTrue};
ghost use Rattle.cube_cover.specs.Covers.{Intersects, ContainsRow, IsProduct, product_of};
ghost use Rattle.cube_cover.specs.Literals.{literals_intersect, rows_intersect, literal_contains, row_contains};

use crate::literals::product_literal;
use crate::row::Row;
use sis_base::{Copied, Short};
use std::alloc::{AllocError, Global};
use std::marker::Model;

// The literals of a row, `None` for a dash; up to 16 of them take no memory of their own.
type Literals = Short<Option<bool>, 16>;

/// A row stored as its literals, `None` for a dash; contracts see their list.
#[derive(Drop)]
pub struct PlainRow {
    literals: Literals,
}

impl Model for PlainRow {
    ghost use Rattle.std.specs.Prelude.{Bool, Option, List};

    ghost Value = { List (Option Bool) };

    ghost view = { λ row. row.literals };
}

impl PlainRow {
    /// The row of the given literals, `None` for a dash.
    pub fn from_literals(alloc: Global, literals: &[Option<bool>]) -> Result<PlainRow, AllocError>
        ensures { IfOk result (λ row. row ≡ literals.now) }
    {
        Ok(PlainRow {
            literals: Short::from_slice(alloc, literals)?,
        })
    }
}

impl Row for PlainRow {
    ghost literals = { λ row. row };

    fn dashes(alloc: Global, width: usize) -> Result<PlainRow, AllocError> {
        let mut literals = Literals::with_capacity(alloc, width)?;
        for _filled in 0..width {
            literals.push(None)?;
        }
        Ok(PlainRow { literals })
    }

    fn copy(&self, alloc: Global) -> Result<PlainRow, AllocError> {
        Ok(PlainRow {
            literals: self.literals.copy(alloc)?,
        })
    }

    fn width(&self) -> usize {
        self.literals.len()
    }

    fn at(&self, place: usize) -> Option<bool> {
        self.literals.as_slice()[place]
    }

    fn set(&mut self, place: usize, literal: Option<bool>) {
        self.literals.set(place, literal);
    }

    #[tactic(auto, using(crate::proofs::Products::intersects_answer))]
    fn intersects(&self, other: &PlainRow) -> bool {
        row_intersects(self.literals.as_slice(), other.literals.as_slice())
    }

    #[tactic(auto, using(crate::proofs::Products::contains_answer))]
    fn contains(&self, other: &PlainRow) -> bool {
        contains_literals(self.literals.as_slice(), other.literals.as_slice())
    }

    #[tactic(auto, using(crate::proofs::Products::product_points))]
    fn product(&self, alloc: Global, other: &PlainRow) -> Result<PlainRow, AllocError> {
        let literals = product_literals(
            alloc,
            self.literals.as_slice(),
            other.literals.as_slice(),
        )?;
        Ok(PlainRow { literals })
    }

    fn is_equal(&self, other: &PlainRow) -> bool {
        self.literals.as_slice() == other.literals.as_slice()
    }

    fn overlaid(&self, alloc: Global, other: &PlainRow) -> Result<PlainRow, AllocError> {
        let literals = product_literals(
            alloc,
            self.literals.as_slice(),
            other.literals.as_slice(),
        )?;
        Ok(PlainRow { literals })
    }
}

// Whether two literals do not contradict.
fn literal_intersects(literal: Option<bool>, other: Option<bool>) -> bool
    ensures { result ≡ literals_intersect literal other }
{
    match (literal, other) {
        (Some(bit), Some(second)) => bit == second,
        _ => true,
    }
}

// Whether a literal is a dash or equals the other.
fn contains_literal(literal: Option<bool>, other: Option<bool>) -> bool
    ensures { result ≡ literal_contains literal other }
{
    match (literal, other) {
        (None, _) => true,
        (Some(_), None) => false,
        (Some(bit), Some(second)) => bit == second,
    }
}

// Whether the literals of two rows contradict in no column.
#[tactic(auto, unfolding(crate::specs::Literals::rows_intersect))]
fn row_intersects(literals: &[Option<bool>], others: &[Option<bool>]) -> bool
    requires { length literals.now ≡ length others.now }
    ensures { result ≡ rows_intersect literals.now others.now }
{
    for (i, literal) in literals.iter().enumerate() {
        if !literal_intersects(*literal, others[i]) {
            return false;
        }
    }
    true
}

// Whether one row has in each column a dash or the other's literal.
#[tactic(auto, unfolding(crate::specs::Literals::row_contains))]
fn contains_literals(literals: &[Option<bool>], others: &[Option<bool>]) -> bool
    requires { length literals.now ≡ length others.now }
    ensures { result ≡ row_contains literals.now others.now }
{
    for (i, literal) in literals.iter().enumerate() {
        if !contains_literal(*literal, others[i]) {
            return false;
        }
    }
    true
}

// The literals of the product of two rows.
#[tactic(auto, unfolding(crate::specs::Covers::product_of))]
fn product_literals(
    alloc: Global,
    literals: &[Option<bool>],
    others: &[Option<bool>],
) -> Result<Literals, AllocError>
    requires { length literals.now ≡ length others.now }
    ensures { IfOk result (λ made. made ≡ product_of literals.now others.now) }
{
    let mut made = Literals::with_capacity(alloc, literals.len())?;
    for (i, literal) in literals.iter().enumerate() {
        made.push(product_literal(*literal, others[i]))?;
    }
    Ok(made)
}
