//! Sorted streams of disjoint ranges with their values.
#![tactic(auto)]

mod asks;
mod carrier;
mod complements;
mod cursor;
mod events;
mod fallible;
mod fills;
pub mod laws;
mod lists;
mod merge;
mod multiway;
mod owned;
mod segmenting;
mod sorted_disjoint_map;
mod transforms;

pub use blaze_entries::SortedDisjoint;
pub use carrier::ValueCarrier;
pub use complements::complement;
pub use events::multiway_sweep::MultiwaySweep;
pub use events::sweep::sweep_of;
pub use events::sweep_event::SweepEvent;
pub use fills::fill;
pub use lists::canon::CanonIter;
pub use lists::canon_map::CanonMapIter;
pub use lists::check::CheckSortedDisjoint;
pub use lists::check_map::CheckSortedDisjointMap;
pub use lists::not_sorted::NotSorted;
pub use merge::union::{intersection_of, symmetric_difference_of, union_of};
pub use merge::with_ranges::{intersect_with_ranges, subtract_ranges};
pub use multiway::{
    MultiwayFullJoinMap, MultiwayInnerJoinMap, MultiwayIntersectionMap,
    MultiwaySymmetricDifferenceMap, MultiwayUnionMap,
};
pub use owned::Owned;
pub use segmenting::joins::{JoinKind, join_of};
pub use segmenting::list_segments::{Segment, segments};
pub use sorted_disjoint_map::{BothEnds, SortedDisjointMap};
pub use transforms::transform;

// For `range_map_blaze` only, which builds maps from chosen entries and joins from segments.
#[doc(hidden)]
pub use asks::{Asks, Both, Either, LeftOrBoth, Whole};
#[doc(hidden)]
pub use carrier::HasValue;
#[doc(hidden)]
pub use fallible::Fallible;
#[doc(hidden)]
pub use merge::choice::{Choice, ExactlyOne, LeftAlone, LeftWithRight, RightFirst};
#[doc(hidden)]
pub use merge::chosen::entries_chosen_of;
#[doc(hidden)]
pub use transforms::answers_of;
// For `range_map_multi` only, which walks many streams as this crate walks many lists.
#[doc(hidden)]
pub use cursor::Cursor;
#[doc(hidden)]
pub use merge::list_of::list_of;
#[doc(hidden)]
pub use merge::operations::{Intersection, OddKeys, Union};
#[doc(hidden)]
pub use merge::push::push_joined;
#[doc(hidden)]
pub use merge::rounds::merged;
#[doc(hidden)]
pub use segmenting::cursors::PlaceCursor;
#[doc(hidden)]
pub use segmenting::list_segments::next_segment;
