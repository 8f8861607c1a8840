//! A constraint: that some rows give a certain bit at a point, which may be the point's own bit in
//! a column.
//!
//! Source: De Micheli, "Synthesis and Optimization of Digital Circuits", chapter 8 (satisfiability
//! don't-care conditions).

ghost use Rattle.std.specs.Prelude.{◌≡◌, map};

use cube_cover::Row;
use std::marker::Model;

/// That the borrowed rows give `bit`; or with a tie, that they give the point's bit in its column,
/// complemented if `bit` is false. Contracts see it as a `Constraint` of `specs/Searches.antt`.
#[derive(Drop)]
pub struct Constraint<'a, R: Row> {
    tie: Option<usize>,
    bit: bool,
    rows: Vec<&'a R>,
}

impl<'a, R: Row> Model for Constraint<'a, R> {
    ghost use Rattle.std.specs.Prelude.{map};
    ghost use Rattle.cover_search.specs.Searches.{Constraint};

    ghost Value = { Constraint };

    ghost view = { λ constraint. record { tie = constraint.tie; bit = constraint.bit; rows = map (λ row. R.literals row.now) constraint.rows.items } };
}

impl<'a, R: Row> Constraint<'a, R> {
    /// The constraint for some rows.
    pub fn new(tie: Option<usize>, bit: bool, rows: Vec<&'a R>) -> Constraint<'a, R>
        ensures { result ≡ record {
          tie = tie;
          bit = bit;
          rows = map
              (λ row. R.literals row.now) rows.entry.items;
        } }
    {
        Constraint { tie, bit, rows }
    }

    /// The column of the tie, if there is one.
    pub fn tie(&self) -> Option<usize>
        ensures { result ≡ self.now.tie }
    {
        self.tie
    }

    /// The bit, or the phase of the tie.
    pub fn bit(&self) -> bool
        ensures { result ≡ self.now.bit }
    {
        self.bit
    }

    /// The rows.
    pub fn rows(&self) -> &[&'a R]
        ensures { map (λ row. R.literals row.now) result.now ≡ self.now.rows }
    {
        self.rows.as_slice()
    }
}
