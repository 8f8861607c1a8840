//! A priority queue whose values are found by key.
//!
//! Each key has at most one value, and a value may have a rank, computed by a `Ranking` from the
//! key and its value. Keys are looked up by hash, and traversed in the order of their ranks: the
//! least rank first, and of equal ranks the least key. A key whose value has no rank can be looked
//! up, but is not in the order.
//!
//! Source: Cormen, Leiserson, Rivest and Stein, "Introduction to Algorithms", section 6.5 (priority
//! queues whose keys change); the hash map next to the ordered set is the project's own. Contracts
//! see a queue as the list of its keys and values (`specs/Queue.antt`); `specs/Greatest.antt` has
//! the ranks of queues in which the greatest number is first. In a loop over `order` the first key
//! that passes a test is the best of those that pass (`proofs/Best.antt`).
#![tactic(auto)]

mod changing;
mod queue;
mod ranking;

pub use queue::Queue;
pub use ranking::Ranking;
