//! What sums of two cubes and products of two literals save in all tables together, kept while
//! tables are added and change.
//!
//! Source: Rajski and Vasudevamurthy, "The testability-preserving concurrent decomposition and
//! factorization of Boolean expressions" (IEEE Transactions on CAD 11, 1992). `specs/Gains.antt`
//! has what they save, pair by pair of rows and of literals. `pair_laws`: for tables in which no
//! row occurs twice, the gains are what division by a candidate of `fx` saves, and what gains is
//! such a candidate. Promised of `DivisorGains` (`specs/Kept.antt`): the cubes of all tables that
//! were added are kept, and `first` returns the cover that saves most of those that are admissible,
//! of several the first.
//!
//! Inside, literals are numbers (`specs/Codes.antt`, the project's own): twice the position of the
//! name among the sorted names, and one more if the literal is positive. `Codes` converts cubes and
//! covers to lists of such numbers, and back, exactly. `code_laws`: numbers compare as their
//! literals do, so that lists of them can replace cubes and covers in all that an order decides,
//! and rows save as much by their numbers as by their names.
//!
//! `Totals`, a queue of net_queue, keeps what each divisor saves (`specs/CodedGains.antt`): after
//! each change the total of every cover is exactly that before, with what the added cubes save and
//! without what the removed ones saved. Divisors that save more than their own literals have a rank
//! (`specs/Totals.antt`), and `first` tries them in that order. A pair of cubes takes one merge,
//! one look-up, or two if the divisor is new, and, if it saves, a change of the order. For a table
//! that changes only pairs with an added or a removed cube are counted; of a cube with a partner
//! only the products of which a literal is not the partner's. No clause says so. Each error is a
//! lack of memory, or a name or a total that no machine word holds; after it any totals may be
//! kept.
#![tactic(auto)]

pub mod code_laws;
mod codes;
mod comparing;
mod counted;
mod divisor;
mod exchanging;
mod kept;
mod merging;
mod mixing;
pub mod pair_laws;
mod pairs;
mod parting;
mod passing;
mod ranking;
mod rows;
mod shared;
mod totals;
mod trial;

pub use codes::{Codes, Signal};
pub use divisor::{Divisor, Numbers};
pub use kept::DivisorGains;
pub use shared::SharedDivisor;
pub use trial::Trial;
