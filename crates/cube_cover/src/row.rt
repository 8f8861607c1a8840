//! What every representation of a row owes, and what is found by that alone.

ghost use Rattle.std.specs.Prelude.{◌≡◌, ℕ, ◌+◌, ◌^◌, ◌<◌, ◌≤◌, Bool, true, ◌↔◌, Option, Some, None, List, length, map, drop, replicate, slice_index_or, slice_set, IfSome, MatchOption, IfOk, IsTrue};
ghost use Rattle.std.specs.Ordering.{is_eq};
ghost use Rattle.cube_cover.specs.Covers.{Intersects, ContainsRow, IsProduct, product_of, without_of, shared_of};
ghost use Rattle.cube_cover.specs.Literals.{row_cmp, row_literals, not_dash, no_dash, all_dashes};

use crate::literals::{literal_number_of, product_literal, shared_literal, without_literal};
use std::alloc::{AllocError, Global};
use std::cmp::Ordering;

/// A row of literals, a cube: each column has a positive literal, a negative one, or a dash
/// (`None`).
pub trait Row: Drop {
    ghost literals: { Self → List (Option Bool) };

    /// The row of `width` dashes.
    fn dashes(alloc: Global, width: usize) -> Result<Self, AllocError>
        ensures { IfOk result (λ row. literals row ≡ replicate width None) };

    /// A row with the same literals.
    fn copy(&self, alloc: Global) -> Result<Self, AllocError>
        ensures { IfOk result (λ row. literals row ≡ literals self.now) };

    /// The number of columns.
    fn width(&self) -> usize
        ensures { result ≡ length (literals self.now) };

    /// The literal or dash in a column, counted from 0.
    fn at(&self, place: usize) -> Option<bool>
        requires { place < length (literals self.now) }
        ensures { result ≡ slice_index_or (literals self.now) place None };

    /// Sets the literal or dash in a column, counted from 0; the other columns stay.
    fn set(&mut self, place: usize, literal: Option<bool>)
        requires { place < length (literals self.old) }
        ensures { literals self.new ≡ slice_set (literals self.old) place literal };

    /// Whether some point lies in both rows.
    fn intersects(&self, other: &Self) -> bool
        requires { length (literals self.now) ≡ length (literals other.now) }
        ensures { IsTrue result ↔ Intersects (literals self.now) (literals other.now) };

    /// Whether each point of the other row lies in this one.
    fn contains(&self, other: &Self) -> bool
        requires { length (literals self.now) ≡ length (literals other.now) }
        ensures { IsTrue result ↔ ContainsRow (literals self.now) (literals other.now) };

    /// The row of exactly the points that both rows have; the rows must intersect.
    fn product(&self, alloc: Global, other: &Self) -> Result<Self, AllocError>
        requires widths { length (literals self.now) ≡ length (literals other.now) }
        requires intersect { Intersects (literals self.now) (literals other.now) }
        ensures by_literals { IfOk result (λ row. literals row ≡ product_of (literals self.now)
            (literals other.now)) }
        ensures points { IfOk result (λ row. IsProduct (literals self.now) (literals other.now)
            (literals row)) };

    /// Whether two rows have the same literals.
    fn is_equal(&self, other: &Self) -> bool
        requires { length (literals self.now) ≡ length (literals other.now) }
        ensures { IsTrue result ↔ (literals self.now ≡ literals other.now) }
    {
        if !self.contains(other) {
            return false;
        }
        other.contains(self)
    }

    /// The first column at or after `from` that has a literal, if there is one.
    fn next_literal(&self, from: usize) -> Option<usize>
        ensures none { result ≡ None → all_dashes (drop from (literals self.now)) ≡ true }
        ensures found { IfSome result (λ column. (from ≤ column)
            × (column < length (literals self.now))
            × (not_dash (slice_index_or (literals self.now) column None) ≡ true)) }
        ensures fits { IfSome result (λ column. column + 1 < 2 ^ 64) }
        ensures before { IfSome result (λ column. (place : ℕ) → from ≤ place → place < column
            → slice_index_or (literals self.now) place None ≡ None) }
    {
        for column in from..self.width() {
            if self.at(column).is_some() {
                return Some(column);
            }
        }
        None
    }

    /// The order of two rows of one width, column by column, a dash before a negative before a
    /// positive literal; equal for the same literals alone.
    fn compare(&self, other: &Self) -> Ordering
        requires { length (literals self.now) ≡ length (literals other.now) }
        ensures order { result ≡ row_cmp (literals self.now) (literals other.now) }
        ensures exact { IsTrue (is_eq result) ↔ (literals self.now ≡ literals other.now) }
    {
        for column in 0..self.width() {
            let order = self.at(column).cmp(&other.at(column));
            if order.is_ne() {
                return order;
            }
        }
        Ordering::Equal
    }

    /// The number of literals.
    #[tactic(auto, unfolding(crate::specs::Literals::row_literals))]
    fn literal_count(&self) -> usize
        ensures { result ≡ row_literals (literals self.now) }
    {
        let mut count = 0;
        for column in 0..self.width() {
            count += literal_number_of(self.at(column));
        }
        count
    }

    /// The row of what stands in the columns at some places, in their order; a dash for a place
    /// past the width.
    fn keep(&self, alloc: Global, places: &[usize]) -> Result<Self, AllocError>
        ensures { IfOk result (λ row. literals row
            ≡ map (λ place. slice_index_or (literals self.now) place None) places.now) }
    {
        let mut row = Self::dashes(alloc, places.len())?;
        for (column, place) in places.iter().enumerate() {
            if *place < self.width() {
                row.set(column, self.at(*place));
            }
        }
        Ok(row)
    }

    /// The row without its literals in the columns where the mask has one.
    fn without(&self, alloc: Global, mask: &Self) -> Result<Self, AllocError>
        requires { length (literals self.now) ≡ length (literals mask.now) }
        ensures { IfOk result (λ row. literals row
            ≡ without_of (literals self.now) (literals mask.now)) }
    {
        let mut row = self.copy(alloc)?;
        for column in 0..self.width() {
            row.set(column, without_literal(self.at(column), mask.at(column)));
        }
        Ok(row)
    }

    /// The row of the literals that both have.
    fn shared(&self, alloc: Global, other: &Self) -> Result<Self, AllocError>
        requires { length (literals self.now) ≡ length (literals other.now) }
        ensures { IfOk result (λ row. literals row
            ≡ shared_of (literals self.now) (literals other.now)) }
    {
        let mut row = self.copy(alloc)?;
        for column in 0..self.width() {
            row.set(column, shared_literal(self.at(column), other.at(column)));
        }
        Ok(row)
    }

    /// The row of this one's literals, and of the other's where this one has a dash. It is the
    /// product where the two intersect, which they need not.
    fn overlaid(&self, alloc: Global, other: &Self) -> Result<Self, AllocError>
        requires { length (literals self.now) ≡ length (literals other.now) }
        ensures { IfOk result (λ row. literals row
            ≡ product_of (literals self.now) (literals other.now)) }
    {
        let mut row = self.copy(alloc)?;
        for column in 0..self.width() {
            row.set(column, product_literal(self.at(column), other.at(column)));
        }
        Ok(row)
    }
}

/// The first dash of a row, if it has one.
#[tactic(auto, unfolding(crate::specs::Literals::no_dash))]
pub fn first_dash<R: Row>(row: &R) -> Option<usize>
    ensures { MatchOption result (no_dash (R.literals row.now) ≡ true)
        (λ place. (place < length (R.literals row.now))
        × (slice_index_or (R.literals row.now) place None ≡ None)) }
{
    for place in 0..row.width() {
        if row.at(place).is_none() {
            return Some(place);
        }
    }
    None
}

/// The place chosen where the row has a dash there, else its first dash, if it has one.
pub fn dash_of<R: Row>(row: &R, choice: usize) -> Option<usize>
    ensures { MatchOption result (no_dash (R.literals row.now) ≡ true)
        (λ place. (place < length (R.literals row.now))
        × (slice_index_or (R.literals row.now) place None ≡ None)) }
{
    if choice < row.width() && row.at(choice).is_none() {
        return Some(choice);
    }
    first_dash(row)
}

/// A copy of a row with a literal at a place.
pub fn row_with<R: Row>(alloc: Global, row: &R, place: usize, bit: bool) -> Result<R, AllocError>
    requires { place < length (R.literals row.now) }
    ensures { IfOk result (λ made. R.literals made ≡ slice_set (R.literals row.now) place
        (Some bit)) }
{
    let mut made = row.copy(alloc)?;
    made.set(place, Some(bit));
    Ok(made)
}
