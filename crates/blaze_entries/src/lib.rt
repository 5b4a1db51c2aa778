//! The entries of a table, in a tree ordered by their starts, with counters of the work on them. `specs/` and `proofs/` also have the
//! theory of lists of entries, which tables and streams share.
#![tactic(auto)]

mod count;
mod counted;
mod entries;
mod found;
mod into_iter;
mod iter;
mod node;
mod overlap;
mod range;
mod range_entry;
mod scan;
mod sorted_disjoint;
mod start;
mod tree;

pub use count::Count;
pub use counted::Counted;
pub use entries::Entries;
pub use into_iter::IntoIter;
pub use iter::Iter;
pub use overlap::length_outside;
pub use range::Range;
pub use range_entry::RangeEntry;
pub use scan::{Plan, Walk, next_or_last};
pub use sorted_disjoint::SortedDisjoint;
