//! Rows of literals (cubes) and covers of rows, the two-level form of tables.
//!
//! Source: Brayton, Hachtel, McMullen, Sangiovanni-Vincentelli, "Logic Minimization Algorithms for
//! VLSI Synthesis", and De Micheli, "Synthesis and Optimization of Digital Circuits", chapter 7. A
//! row has a column for each input: a positive literal, a negative one or a dash. `Row` is the
//! trait of all representations of rows; its contracts speak of the literals and of the points that
//! a row matches, so that what is built on it is proved once for all of them. `Cover<R>` is a list
//! of rows of one width, which contracts see as a width and the rows' literals. Promised: each
//! operation's exact meaning at all points. Conditions of the caller: columns below the width,
//! equal widths, and rows of a product that intersect.
#![tactic(auto)]

mod counts;
mod cover;
mod literals;
mod picks;
mod plain;
mod row;
mod tautology;
mod unate;
mod volume;

pub use cover::{Cover, is_literal, literal_agrees, rows_copied};
pub use picks::contains_row;
pub use plain::PlainRow;
pub use row::{Row, dash_of, first_dash, row_with};
