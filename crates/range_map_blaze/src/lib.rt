//! A map from integers to values, stored as ranges of keys with one value each, with machine-checked contracts.
#![tactic(auto)]

mod changes;
mod compare;
mod display;
mod extends;
mod fills;
mod from_streams;
mod gaps;
mod iterators;
mod joining;
mod joins;
pub mod laws;
mod lengths;
mod look_ups;
mod make;
mod map;
mod operators;
mod overlapping;
mod pairs;
mod range;
mod relations;
mod takes;
mod try_joins;
mod updates;
mod within;

pub use blaze_int::{Integer, SafeLength, UIntPlusOne, bounds_of, names_a_key};
pub use blaze_iters::{
    IntoIterMap, IntoKeys, IntoRangeValuesIter, IntoValues, IterMap, Keys, MapIntoRangesIter,
    MapRangesIter, OwnedRangeValuesIter, RangeValuesIter, Values,
};
pub use blaze_streams::{
    BothEnds, CanonIter, CanonMapIter, CheckSortedDisjoint, CheckSortedDisjointMap, JoinKind,
    MultiwayFullJoinMap, MultiwayInnerJoinMap, MultiwayIntersectionMap, MultiwaySweep,
    MultiwaySymmetricDifferenceMap, MultiwayUnionMap, NotSorted, Owned, Segment, SortedDisjoint,
    SortedDisjointMap, SweepEvent, ValueCarrier, complement, fill, intersect_with_ranges,
    intersection_of, join_of, segments, subtract_ranges, sweep_of, symmetric_difference_of,
    transform, union_of,
};
pub use blaze_table::{IntoRangesIter, RangeSetBlaze, RangesIter, canonical_of};
pub use compare::turns::Turns;
pub use from_streams::IntoRangeMapBlaze;
pub use gaps::Gaps;
pub use lengths::range_len;
pub use map::RangeMapBlaze;
pub use overlapping::Overlapping;
pub use within::Within;

// For `range_map_multi` alone, whose joins give such streams.
#[doc(hidden)]
pub use joins::map_of;
