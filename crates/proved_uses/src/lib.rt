//! Functions as a user of the library writes them. Each has the contract that a user would write, and is proved. The only proof files
//! are the invariants of loops, and one answer about a sum with its lemma.
#![tactic(auto)]

pub mod allocator;
pub mod bookings;
pub mod counts;
pub mod each_key;
pub mod generic;
pub mod loops;
pub mod one_call;
pub mod own_key;
pub mod schedule;
pub mod two_maps;

use range_map_blaze::RangeMapBlaze;

/// A map from numbers to numbers.
pub type Map = RangeMapBlaze<u64, u64>;
