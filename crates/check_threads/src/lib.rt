//! Each type that `range_map_blaze` exports, `RangeTable` and the entries below it may go to another thread and be shared by threads
//! (`Send`, `Sync`), if their keys and values may. The check of this crate proves that of one use of each type. Left out is `IntoRangeValuesIter`, which holds an `Rc`, as in Rust.
#![tactic(auto)]

use blaze_entries::{Count, Counted, Entries, IntoIter, Iter, Range, RangeEntry};
use blaze_table::RangeTable;
use range_map_blaze::{
    CanonIter, CanonMapIter, CheckSortedDisjoint, CheckSortedDisjointMap, Gaps, IntoIterMap,
    IntoKeys, IntoRangesIter, IntoValues, IterMap, JoinKind, Keys, MapIntoRangesIter,
    MapRangesIter, MultiwaySweep, NotSorted, Overlapping, Owned, OwnedRangeValuesIter,
    RangeMapBlaze, RangeSetBlaze, RangeValuesIter, RangesIter, Segment, SweepEvent, Turns,
    UIntPlusOne, Values, Within,
};
use std::sync::{Arc, Mutex};

fn is_for_threads<T: Send + Sync>() {}

pub fn maps_and_sets() {
    is_for_threads::<RangeMapBlaze<u32, u64>>();
    is_for_threads::<RangeMapBlaze<i64, String>>();
    is_for_threads::<RangeMapBlaze<char, &'static str>>();
    is_for_threads::<RangeMapBlaze<u128, u64>>();
    is_for_threads::<RangeSetBlaze<u32>>();
    is_for_threads::<RangeTable<u32, u64>>();
}

pub fn maps_in_containers() {
    is_for_threads::<Vec<RangeMapBlaze<u32, u64>>>();
    is_for_threads::<&'static RangeMapBlaze<u32, u64>>();
    is_for_threads::<&'static mut RangeMapBlaze<u32, u64>>();
    is_for_threads::<Arc<RangeMapBlaze<u32, u64>>>();
    is_for_threads::<Mutex<RangeMapBlaze<u32, u64>>>();
}

pub fn entries() {
    is_for_threads::<Count>();
    is_for_threads::<Counted<u32, u64>>();
    is_for_threads::<Entries<u32, u64>>();
    is_for_threads::<RangeEntry<u32, u64>>();
    is_for_threads::<Iter<'static, u32, u64>>();
    is_for_threads::<IntoIter<u32, u64>>();
    is_for_threads::<Range<'static, u32, u64>>();
}

pub fn iterators_over_entries() {
    is_for_threads::<RangeValuesIter<'static, u32, u64>>();
    is_for_threads::<OwnedRangeValuesIter<u32, u64>>();
    is_for_threads::<MapRangesIter<'static, u32, u64>>();
    is_for_threads::<MapIntoRangesIter<u32, u64>>();
    is_for_threads::<RangesIter<'static, u32>>();
    is_for_threads::<IntoRangesIter<u32>>();
}

pub fn iterators_over_keys() {
    is_for_threads::<IterMap<u32, &'static u64, RangeValuesIter<'static, u32, u64>>>();
    is_for_threads::<Keys<u32, &'static u64, RangeValuesIter<'static, u32, u64>>>();
    is_for_threads::<Values<u32, &'static u64, RangeValuesIter<'static, u32, u64>>>();
    is_for_threads::<IntoIterMap<u32, u64>>();
    is_for_threads::<IntoKeys<u32, u64>>();
    is_for_threads::<IntoValues<u32, u64>>();
}

pub fn iterators_over_ranges() {
    is_for_threads::<Gaps<'static, u32, u64>>();
    is_for_threads::<Overlapping<'static, u32, u64>>();
    is_for_threads::<Within<'static, u32, u64>>();
}

pub fn streams() {
    is_for_threads::<CanonIter<u32>>();
    is_for_threads::<CanonMapIter<u32, &'static u64>>();
    is_for_threads::<CheckSortedDisjoint<u32>>();
    is_for_threads::<CheckSortedDisjointMap<u32, &'static u64>>();
    is_for_threads::<MultiwaySweep<u32, &'static u64>>();
}

pub fn parts_of_streams() {
    is_for_threads::<SweepEvent<u32, &'static u64>>();
    is_for_threads::<Segment<u32>>();
    is_for_threads::<Owned<u64>>();
    is_for_threads::<JoinKind>();
    is_for_threads::<NotSorted>();
    is_for_threads::<Turns>();
    is_for_threads::<UIntPlusOne>();
}
