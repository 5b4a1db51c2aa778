//! Streams over tables, and key-wise iterators: the keys of ranges one by one, each with its value, from both ends.
#![tactic(auto)]

mod into_iter_map;
mod into_keys;
mod into_values;
mod iter_map;
mod keys;
mod rest;
mod tables;
mod values;

pub use into_iter_map::IntoIterMap;
pub use into_keys::IntoKeys;
pub use into_values::IntoValues;
pub use iter_map::IterMap;
pub use keys::Keys;
pub use tables::into_range_values::IntoRangeValuesIter;
pub use tables::key_ranges::{KeyRanges, MapIntoRangesIter, MapRangesIter};
pub use tables::owned_range_values::OwnedRangeValuesIter;
pub use tables::range_values::RangeValuesIter;
pub use values::Values;

// For `range_map_blaze` only, which gives a map's ranges and seeks in its entries.
#[doc(hidden)]
pub use tables::key_ranges::{into_ranges_of, ranges_of};
#[doc(hidden)]
pub use tables::seeking_range_values::SeekingRangeValuesIter;
