//! Tests and products of planes, word by word.
//!
//! A plane is a slice of 64-bit words with a bit for each column, as in `specs/Planes.antt`. Two
//! planes of one length are compared or joined by the operations of the machine on words, in
//! blocks of lanes, and the words that are left one at a time. Contracts speak of the bits of each
//! column. Conditions of the caller: planes of one length, and columns that they have.

ghost use Rattle.std.specs.Prelude.{◌≡◌, ◌+◌, ◌*◌, ◌<◌, ◌≤◌, ◌==◌, ◌↔◌, ◌^◌, ℕ, Option, None, max, true, false, ◌++◌, length, slice_index_or, take, drop, bit_and, bit_or, IfOk, IfSome, IsTrue};
ghost use Rattle.std.specs.Simd.Lanes.{zip2};
ghost use Rattle.std.specs.Int.{bit_at};
ghost use Rattle.cube_cover.specs.Literals.{row_literals};
ghost use Rattle.cube_packed.specs.Planes.{plane_bit, plane_literals, AreCube, AreApart, IsWithin, HasBitSet, has_sign, words_apart, words_within, and_not};

use smallvec::SmallVec;
use std::alloc::{AllocError, Global};
use std::simd::prelude::*;

/// How many words of a row need no allocation.
pub const INLINE_WORDS: usize = 8;

// How many words one step of lanes takes.
const LANES: usize = 4;

/// Whether no column has a one in both planes.
pub fn are_apart(words: &[u64], others: &[u64]) -> bool
    requires { length words.now ≡ length others.now }
    ensures { IsTrue result ↔ AreApart words.now others.now }
{
    let blocks = words.len() / LANES;
    for block in 0..blocks {
        let at = LANES * block;
        if !block_is_apart(&words[at..], &others[at..]) {
            return false;
        }
    }
    for place in LANES * blocks..words.len() {
        if words[place] & others[place] != 0 {
            return false;
        }
    }
    true
}

// Whether no column has a one in both of two blocks, the first words of the slices.
fn block_is_apart(words: &[u64], others: &[u64]) -> bool
    requires block { 4 ≤ length words.now }
    requires other { 4 ≤ length others.now }
    ensures { result ≡ words_apart (take 4 words.now) (take 4 others.now) }
{
    (u64x4::from_slice(words) & u64x4::from_slice(others)).reduce_or() == 0
}

/// Whether each column with a one in the first plane has a one in the other.
pub fn is_within(words: &[u64], others: &[u64]) -> bool
    requires { length words.now ≡ length others.now }
    ensures { IsTrue result ↔ IsWithin words.now others.now }
{
    let blocks = words.len() / LANES;
    for block in 0..blocks {
        let at = LANES * block;
        if !block_is_within(&words[at..], &others[at..]) {
            return false;
        }
    }
    for place in LANES * blocks..words.len() {
        if words[place] & others[place] != words[place] {
            return false;
        }
    }
    true
}

// Whether each one of a block is a one of the other; the blocks are the first words of the slices.
fn block_is_within(words: &[u64], others: &[u64]) -> bool
    requires block { 4 ≤ length words.now }
    requires other { 4 ≤ length others.now }
    ensures { result ≡ words_within (take 4 words.now) (take 4 others.now) }
{
    let lanes = u64x4::from_slice(words);
    ((lanes & u64x4::from_slice(others)) ^ lanes).reduce_or() == 0
}

/// The words with the ones of both.
pub fn joined(
    alloc: Global,
    words: &[u64],
    others: &[u64],
) -> Result<SmallVec<u64, INLINE_WORDS>, AllocError>
    requires { length words.now ≡ length others.now }
    ensures { IfOk result (λ made. made.items ≡ zip2 bit_or words.now others.now) }
{
    let mut made = SmallVec::from_slice(alloc, words)?;
    join(made.as_mut_slice(), others);
    Ok(made)
}

// Sets the ones of the other words.
fn join(words: &mut [u64], others: &[u64])
    requires { length words.old ≡ length others.now }
    ensures { words.new ≡ zip2 bit_or words.old others.now }
{
    let blocks = words.len() / LANES;
    for block in 0..blocks {
        let at = LANES * block;
        let lanes = u64x4::from_slice(&words[at..]) | u64x4::from_slice(&others[at..]);
        lanes.copy_to_slice(&mut words[at..]);
    }
    for place in LANES * blocks..words.len() {
        words[place] |= others[place];
    }
}

/// The words with the ones that both have.
pub fn common(
    alloc: Global,
    words: &[u64],
    others: &[u64],
) -> Result<SmallVec<u64, INLINE_WORDS>, AllocError>
    requires { length words.now ≡ length others.now }
    ensures { IfOk result (λ made. made.items ≡ zip2 bit_and words.now others.now) }
{
    let mut made = SmallVec::with_capacity(alloc, words.len())?;
    for (place, word) in words.iter().enumerate() {
        made.push(*word & others[place])?;
    }
    Ok(made)
}

/// Puts words behind others, without the ones that masks have.
pub fn append_without(
    made: &mut SmallVec<u64, INLINE_WORDS>,
    words: &[u64],
    masks: &[u64],
) -> Result<(), AllocError>
    requires { length words.now ≡ length masks.now }
    ensures words { IfOk result (λ _. made.new.items
        ≡ made.old.items ++ zip2 and_not words.now masks.now) }
    ensures fit { (place : ℕ) → slice_index_or masks.now place 0 < 2 ^ 64 }
{
    for (place, word) in words.iter().enumerate() {
        made.push(*word & !masks[place])?;
    }
    Ok(())
}

/// Whether a column has a one.
pub fn has_bit(words: &[u64], column: usize) -> bool
    requires { column < 64 * length words.now }
    ensures { result ≡ (plane_bit words.now column == 1) }
{
    (words[column / 64] >> (column % 64)) & 1 == 1
}

/// The first column at or after one that has a one in one of two planes.
pub fn next_one(words: &[u64], others: &[u64], width: usize, from: usize) -> Option<usize>
    requires { AreCube width words.now others.now }
    ensures none { result ≡ None → (place : ℕ) → from ≤ place
        → max (plane_bit words.now place) (plane_bit others.now place) ≡ 0 }
    ensures found { IfSome result (λ column. (from ≤ column) × (column < width)
        × (max (plane_bit words.now column) (plane_bit others.now column) ≡ 1)) }
    ensures fits { IfSome result (λ column. column + 1 < 2 ^ 64) }
    ensures before { IfSome result (λ column. (place : ℕ) → from ≤ place → place < column
        → max (plane_bit words.now place) (plane_bit others.now place) ≡ 0) }
{
    for place in from / 64..words.len() {
        let passed = from.saturating_sub(64 * place);
        let ones = ones_from(words[place] | others[place], passed);
        if ones != 0 {
            return Some(64 * place + ones.trailing_zeros() as usize);
        }
    }
    None
}

/// The number of columns that have a one in one of two planes.
pub fn one_count(words: &[u64], others: &[u64], width: usize) -> usize
    requires { AreCube width words.now others.now }
    ensures { result ≡ row_literals (plane_literals width words.now others.now) }
{
    let mut count = 0;
    for place in 0..words.len() {
        count += (words[place] | others[place]).count_ones() as usize;
    }
    count
}

// The ones of a word from a bit on.
fn ones_from(word: u64, bit: usize) -> u64
    requires { bit < 64 }
    ensures before { (i : ℕ) → i < bit → bit_at result i ≡ 0 }
    ensures behind { (i : ℕ) → bit ≤ i → bit_at result i ≡ bit_at word i }
{
    word & !((1 << bit) - 1)
}

/// Gives a column a bit; the other columns stay.
fn set_bit(words: &mut [u64], column: usize, bit: bool)
    requires { column < 64 * length words.old }
    ensures { HasBitSet column bit words.old words.new }
{
    let one = 1 << (column % 64);
    if bit {
        words[column / 64] |= one;
    } else {
        words[column / 64] &= !one;
    }
}

/// Gives a column of two planes, the halves of the words, a literal or a dash.
pub fn set_literal(words: &mut [u64], half: usize, column: usize, literal: Option<bool>)
    requires inside { column < 64 * half }
    requires halves { length words.old ≡ half + half }
    ensures positive { HasBitSet column (has_sign true literal) (take half words.old)
        (take half words.new) }
    ensures negative { HasBitSet column (has_sign false literal) (drop half words.old)
        (drop half words.new) }
{
    let (positive, negative) = words.split_at_mut(half);
    set_bit(positive, column, matches!(literal, Some(true)));
    set_bit(negative, column, matches!(literal, Some(false)));
}
