//! What candidates of extraction save, kept while tables are added and change.
//!
//! Source: Brayton, Rudell, Sangiovanni-Vincentelli and Wang, "MIS: A Multiple-Level Logic
//! Optimization System" (1987): the value of a divisor is the literals that it saves. What a
//! candidate is, and which one is next, is defined by net_candidates. What a candidate saves
//! changes only if each of its cubes is contained in a row of a table that changes, before or after
//! the change. So each candidate is found by one of its names; of what is found by the names of
//! tables that changed, whatever their rows meet (`meeting`) is recomputed before the next choice,
//! and the tables are listed again: their own candidates (`own`), and the cubes that their rows
//! share with others (`sharing`). Promised (`specs/Savings.antt`, `AreSavings`): savings that are
//! begun for a network, and informed of each change, are those of the network; `best_saved` then
//! returns exactly the next candidate, none exactly if extraction is done, or `ManyKernels` with
//! the first table that has more kernels than are listed. This crate also has the indices of the
//! tables that can be divided by a cover, and whether a cover leaves all tables narrow.
//!
//! What is known is kept in `RankedCovers`, of which is promised (`specs/Ranking.antt`): the saving
//! that was set last for a cover is what it saves; the list under a name has exactly the covers
//! that were set under it when nothing was known of them, in that order; the ranking, the order of
//! a queue (crate net_queue), has exactly the covers that save a literal or more, by falling saving
//! and then in the order of covers. After an error anything may be known.
#![tactic(auto)]

mod by_division;
mod by_rows;
mod cover_set;
mod covers;
mod fault;
mod kept;
mod listing;
mod marks;
mod meeting;
mod named;
mod narrow;
mod ordered;
mod own;
mod owned;
mod ranking;
mod refreshing;
mod renewing;
mod rows;
mod saved;
mod saving;
mod sharing;

pub use fault::SavingsFault;
pub use kept::CandidateQueue;
pub use narrow::fits_input_limit;
pub use saved::best_saved;
pub use saving::places_for;
