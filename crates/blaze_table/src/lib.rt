//! A table of ranges: a map from keys to values, stored as the shortest ascending list of disjoint ranges.
#![tactic(auto)]

mod count;
mod cut;
mod edit;
mod entry_keys;
mod equality;
pub mod laws;
mod looks;
mod search;
mod set;
mod splice;
mod sweep;
mod table;

pub use blaze_entries::{Count, IntoIter, Iter, Range, RangeEntry};
pub use entry_keys::keys_in_hand;
pub use set::into_ranges_iter::IntoRangesIter;
pub use set::range_set::RangeSetBlaze;
pub use set::ranges_iter::RangesIter;
pub use sweep::{canonical_of, push_entry};
pub use table::RangeTable;
