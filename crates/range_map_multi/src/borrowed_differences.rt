//! The symmetric difference of many borrowed maps.
ghost use Rattle.std.specs.Prelude.{◌<◌, ◌∷◌, length, map, IfOk};
ghost use Rattle.blaze_entries.specs.Painted.{ClonesAreAlike};
ghost use Rattle.range_map_blaze.specs.Made.{IsMade};
ghost use Rattle.blaze_streams.specs.Many.{last_of_odd, IsChosenOfMany};

use crate::borrowed_maps::{AsMap, streams_of};
use crate::borrowed_unions::union_by_rounds;
use crate::sizes::position_of_large;
use blaze_int::Integer;
use blaze_streams::{OddKeys, SortedDisjointMap, Union, intersection_of, merged};
use range_map_blaze::RangeMapBlaze;
use std::alloc::{AllocError, Global};

/// Returns the keys that an odd number of maps have, with the value of the last of these. With two maps it is `^`.
pub fn borrowed_symmetric_difference<'a, T: Integer, V: Eq + Clone, M: AsMap<T, V>>(
    alloc: Global,
    maps: &'a [M],
) -> Result<RangeMapBlaze<T, V>, AllocError>
    requires { ClonesAreAlike V.is_clone V.eq }
    ensures { IfOk result (IsMade (IsChosenOfMany V.eq T.low T.high last_of_odd (map M.shown maps.now))) }
{
    if maps.len() == 2 {
        return maps[0].as_borrowed() ^ maps[1].as_borrowed();
    }
    match position_of_large(maps) {
        Some(position) => difference_around(alloc, maps, position),
        None => difference_by_rounds(alloc, maps),
    }
}

/// Returns the symmetric difference by rounds of merges.
pub fn difference_by_rounds<'a, T: Integer, V: Eq + Clone, M: AsMap<T, V>>(
    alloc: Global,
    maps: &'a [M],
) -> Result<RangeMapBlaze<T, V>, AllocError>
    requires { ClonesAreAlike V.is_clone V.eq }
    ensures { IfOk result (IsMade (IsChosenOfMany V.eq T.low T.high last_of_odd (map M.shown maps.now))) }
{
    let union = merged::<_, _, _, Union>(alloc, streams_of(alloc, maps)?)?;
    let odd = merged::<_, _, _, OddKeys>(alloc, streams_of(alloc, maps)?)?;
    let list = intersection_of(alloc, union, odd)?;
    RangeMapBlaze::from_sorted_disjoint_map(alloc, list)
}

/// Returns the symmetric difference of all maps by a `^` of those before the map at `position` with it, and a `^` with those after it.
fn difference_around<'a, T: Integer, V: Eq + Clone, M: AsMap<T, V>>(
    alloc: Global,
    maps: &'a [M],
    position: usize,
) -> Result<RangeMapBlaze<T, V>, AllocError>
    requires clones { ClonesAreAlike V.is_clone V.eq }
    requires there { position < length maps.now }
    ensures { IfOk result (IsMade (IsChosenOfMany V.eq T.low T.high last_of_odd (map M.shown maps.now))) }
{
    let before = difference_by_rounds(alloc, &maps[..position])?;
    let map = (before ^ maps[position].as_borrowed())?;
    difference_with(alloc, map, &maps[position + 1..])
}

/// Returns the symmetric difference of a map and those after it. At a key with an even number of values after the map, the last
/// of them replaces the map's. If an allocation fails, the map is dropped.
pub fn difference_with<'a, T: Integer, V: Eq + Clone, M: AsMap<T, V>>(
    alloc: Global,
    first: RangeMapBlaze<T, V>,
    behind: &'a [M],
) -> Result<RangeMapBlaze<T, V>, AllocError>
    requires { ClonesAreAlike V.is_clone V.eq }
    ensures { IfOk result (IsMade (IsChosenOfMany V.eq T.low T.high last_of_odd (first.entries ∷ map M.shown behind.now))) }
{
    let union = union_by_rounds(alloc, behind)?;
    let last = (&first & union)?;
    let replaced = (first | last)?;
    let odd = difference_by_rounds(alloc, behind)?;
    replaced ^ odd
}
