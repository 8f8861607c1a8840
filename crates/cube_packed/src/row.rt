//! Rows as a positive and a negative plane of words.
//!
//! `PackedRow` keeps the two planes one after the other, so that a product is one pass of `or` over
//! all words, and a row contains another where its ones are ones of the other. Two rows intersect
//! where no column is positive in one of them and negative in the other. Source: De Micheli,
//! "Synthesis and Optimization of Digital Circuits", chapter 7 (operations on cubes in positional
//! notation). What each operation means at all points is the contract of the trait `Row`.

ghost use Rattle.std.specs.Prelude.{◌≡◌, length, IfOk};
ghost use Rattle.cube_packed.specs.Planes.{plane_words, plane_literals, AreCube};

use crate::words::{self, INLINE_WORDS};
use cube_cover::Row;
use smallvec::SmallVec;
use std::alloc::{AllocError, Global};
use std::marker::Model;

/// A row in two bits a column; contracts see the list of its literals, `None` for a dash.
#[derive(Drop)]
pub struct PackedRow {
    width: usize,
    words: SmallVec<u64, INLINE_WORDS>,
}

impl Model for PackedRow {
    ghost use Rattle.std.specs.Prelude.{Bool, Option, List};
    ghost use Rattle.cube_packed.specs.Planes.{packed_literals, IsPacked};

    ghost Value = { List (Option Bool) };

    ghost view = { λ row. packed_literals row.width row.words.items };

    ghost invariant = { λ row. IsPacked row.width row.words.items };
}

impl PackedRow {
    /// The row of the given literals, `None` for a dash.
    pub fn from_literals(alloc: Global, literals: &[Option<bool>]) -> Result<PackedRow, AllocError>
        ensures { IfOk result (λ row. row ≡ literals.now) }
    {
        let mut row = PackedRow::dashes(alloc, literals.len())?;
        for (place, literal) in literals.iter().enumerate() {
            row.set(place, *literal);
        }
        Ok(row)
    }

    // The positive and the negative plane.
    #[inline]
    fn planes(&self) -> (&[u64], &[u64])
        ensures literals { plane_literals (length self.now) result.0.now result.1.now ≡ self.now }
        ensures cube { AreCube (length self.now) result.0.now result.1.now }
    {
        self.words.as_slice().split_at(plane_len(self.width))
    }
}

// How many words a plane has.
#[inline]
fn plane_len(width: usize) -> usize
    ensures { result ≡ plane_words width }
{
    width.div_ceil(64)
}

impl Row for PackedRow {
    ghost literals = { λ row. row };

    fn dashes(alloc: Global, width: usize) -> Result<PackedRow, AllocError> {
        let words = SmallVec::from_elem(alloc, 0, 2 * plane_len(width))?;
        Ok(PackedRow { width, words })
    }

    fn copy(&self, alloc: Global) -> Result<PackedRow, AllocError> {
        let words = SmallVec::from_slice(alloc, self.words.as_slice())?;
        Ok(PackedRow {
            width: self.width,
            words,
        })
    }

    fn width(&self) -> usize {
        self.width
    }

    fn at(&self, place: usize) -> Option<bool> {
        let (positive, negative) = self.planes();
        if words::has_bit(positive, place) {
            return Some(true);
        }
        if words::has_bit(negative, place) {
            return Some(false);
        }
        None
    }

    fn set(&mut self, place: usize, literal: Option<bool>) {
        let half = plane_len(self.width);
        words::set_literal(self.words.as_mut_slice(), half, place, literal);
    }

    fn intersects(&self, other: &PackedRow) -> bool {
        let (positive, negative) = self.planes();
        let (other_positive, other_negative) = other.planes();
        if !words::are_apart(positive, other_negative) {
            return false;
        }
        words::are_apart(negative, other_positive)
    }

    fn contains(&self, other: &PackedRow) -> bool {
        let (positive, negative) = self.planes();
        let (other_positive, other_negative) = other.planes();
        if !words::is_within(positive, other_positive) {
            return false;
        }
        words::is_within(negative, other_negative)
    }

    fn product(&self, alloc: Global, other: &PackedRow) -> Result<PackedRow, AllocError> {
        let words = words::joined(alloc, self.words.as_slice(), other.words.as_slice())?;
        Ok(PackedRow {
            width: self.width,
            words,
        })
    }

    fn shared(&self, alloc: Global, other: &PackedRow) -> Result<PackedRow, AllocError> {
        let words = words::common(alloc, self.words.as_slice(), other.words.as_slice())?;
        Ok(PackedRow {
            width: self.width,
            words,
        })
    }

    fn next_literal(&self, from: usize) -> Option<usize> {
        let (positive, negative) = self.planes();
        words::next_one(positive, negative, self.width(), from)
    }

    fn literal_count(&self) -> usize {
        let (positive, negative) = self.planes();
        words::one_count(positive, negative, self.width())
    }

    fn without(&self, alloc: Global, mask: &PackedRow) -> Result<PackedRow, AllocError> {
        let (positive, negative) = self.planes();
        let (mask_positive, mask_negative) = mask.planes();
        let masks = words::joined(alloc, mask_positive, mask_negative)?;
        let mut words = SmallVec::with_capacity(alloc, self.words.len())?;
        words::append_without(&mut words, positive, masks.as_slice())?;
        words::append_without(&mut words, negative, masks.as_slice())?;
        Ok(PackedRow {
            width: self.width(),
            words,
        })
    }

    fn overlaid(&self, alloc: Global, other: &PackedRow) -> Result<PackedRow, AllocError> {
        let free = other.without(alloc, self)?;
        self.product(alloc, &free)
    }
}
