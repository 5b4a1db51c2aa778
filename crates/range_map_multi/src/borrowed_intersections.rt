//! The intersection of many borrowed maps.
ghost use Rattle.std.specs.Prelude.{◌<◌, ◌∷◌, length, map, IfOk};
ghost use Rattle.blaze_entries.specs.Painted.{ClonesAreAlike};
ghost use Rattle.range_map_blaze.specs.Made.{IsMade};
ghost use Rattle.blaze_streams.specs.Many.{last_of_all, IsChosenOfMany};
ghost use Rattle.range_map_multi.specs.OnAll.{IsOnAll};

use crate::borrowed_maps::{AsMap, entries_of, streams_of};
use crate::sizes::position_of_smallest;
use blaze_int::Integer;
use blaze_streams::{
    CanonMapIter, Intersection, SortedDisjointMap, intersection_of, list_of, merged,
};
use range_map_blaze::RangeMapBlaze;
use std::alloc::{AllocError, Global};

/// The most maps that are searched one after another. The list of the keys that remain may get longer with each of them.
const MOST: usize = 16;

/// The keys that all maps have, with the value of the last map; nothing for no maps.
pub fn borrowed_intersection<'a, T: Integer, V: Eq + Clone, M: AsMap<T, V>>(
    alloc: Global,
    maps: &'a [M],
) -> Result<RangeMapBlaze<T, V>, AllocError>
    requires { ClonesAreAlike V.is_clone V.eq }
    ensures { IfOk result (IsMade (IsChosenOfMany V.eq T.low T.high last_of_all (map M.shown maps.now))) }
{
    if maps.len() < 3 || MOST < maps.len() {
        intersected(alloc, maps)
    } else {
        intersection_from(alloc, maps, position_of_smallest(maps))
    }
}

/// The intersection by rounds of merges.
fn intersected<'a, T: Integer, V: Eq + Clone, M: AsMap<T, V>>(
    alloc: Global,
    maps: &'a [M],
) -> Result<RangeMapBlaze<T, V>, AllocError>
    requires { ClonesAreAlike V.is_clone V.eq }
    ensures { IfOk result (IsMade (IsChosenOfMany V.eq T.low T.high last_of_all (map M.shown maps.now))) }
{
    let list = merged::<_, _, _, Intersection>(alloc, streams_of(alloc, maps)?)?;
    list.in_hand();
    RangeMapBlaze::from_sorted_disjoint_map(alloc, list)
}

/// The intersection from the entries of one map on, which are searched in the other maps.
fn intersection_from<'a, T: Integer, V: Eq + Clone, M: AsMap<T, V>>(
    alloc: Global,
    maps: &'a [M],
    position: usize,
) -> Result<RangeMapBlaze<T, V>, AllocError>
    requires clones { ClonesAreAlike V.is_clone V.eq }
    requires there { position < length maps.now }
    ensures { IfOk result (IsMade (IsChosenOfMany V.eq T.low T.high last_of_all (map M.shown maps.now))) }
{
    let first = list_of(alloc, entries_of(&maps[position]))?;
    let shared = part_on_all(alloc, first, &maps[..position])?;
    part_with_last_values(alloc, shared, &maps[position + 1..])
}

/// The keys of a list that all maps have too, with the list's values. If an allocation fails, the list is dropped.
fn part_on_all<'a, T: Integer, V: Eq + Clone, M: AsMap<T, V>>(
    alloc: Global,
    list: CanonMapIter<T, &'a V>,
    maps: &'a [M],
) -> Result<CanonMapIter<T, &'a V>, AllocError>
    requires { ClonesAreAlike V.is_clone V.eq }
    ensures { IfOk result (IsOnAll V.eq list.entry (map M.shown maps.now)) }
{
    let mut shared = list;
    for map in maps {
        shared = intersection_of(alloc, shared, entries_of(map))?;
    }
    Ok(shared)
}

/// The keys that a list and all maps have, with the value of the last of these. If an allocation fails, the list is dropped.
fn part_with_last_values<'a, T: Integer, V: Eq + Clone, M: AsMap<T, V>>(
    alloc: Global,
    list: CanonMapIter<T, &'a V>,
    maps: &'a [M],
) -> Result<RangeMapBlaze<T, V>, AllocError>
    requires { ClonesAreAlike V.is_clone V.eq }
    ensures { IfOk result (IsMade (IsChosenOfMany V.eq T.low T.high last_of_all (list.entry ∷ map M.shown maps.now))) }
{
    let Some(end) = maps.len().checked_sub(1) else {
        list.in_hand();
        return RangeMapBlaze::from_sorted_disjoint_map(alloc, list);
    };
    let shared = part_on_all(alloc, list, &maps[..end])?;
    let last = intersection_of(alloc, entries_of(&maps[end]), shared)?;
    RangeMapBlaze::from_sorted_disjoint_map(alloc, last)
}
