//! The union of many borrowed maps.
ghost use Rattle.std.specs.Prelude.{◌<◌, length, map, IfOk};
ghost use Rattle.blaze_entries.specs.Painted.{ClonesAreAlike};
ghost use Rattle.range_map_blaze.specs.Made.{IsMade};
ghost use Rattle.blaze_streams.specs.Many.{last_value, IsChosenOfMany};

use crate::borrowed_maps::{AsMap, streams_of};
use crate::sizes::position_of_large;
use blaze_int::Integer;
use blaze_streams::{SortedDisjointMap, Union, merged};
use range_map_blaze::RangeMapBlaze;
use std::alloc::{AllocError, Global};

/// Returns the keys of all maps, with the value of the last map that has the key. With two maps it is `|`.
pub fn borrowed_union<'a, T: Integer, V: Eq + Clone, M: AsMap<T, V>>(
    alloc: Global,
    maps: &'a [M],
) -> Result<RangeMapBlaze<T, V>, AllocError>
    requires { ClonesAreAlike V.is_clone V.eq }
    ensures { IfOk result (IsMade (IsChosenOfMany V.eq T.low T.high last_value (map M.shown maps.now))) }
{
    if maps.len() == 2 {
        return maps[0].as_borrowed() | maps[1].as_borrowed();
    }
    match position_of_large(maps) {
        Some(position) => union_around_large(alloc, maps, position),
        None => union_by_rounds(alloc, maps),
    }
}

/// Returns the union by rounds of merges.
pub fn union_by_rounds<'a, T: Integer, V: Eq + Clone, M: AsMap<T, V>>(
    alloc: Global,
    maps: &'a [M],
) -> Result<RangeMapBlaze<T, V>, AllocError>
    requires { ClonesAreAlike V.is_clone V.eq }
    ensures { IfOk result (IsMade (IsChosenOfMany V.eq T.low T.high last_value (map M.shown maps.now))) }
{
    let list = merged::<_, _, _, Union>(alloc, streams_of(alloc, maps)?)?;
    list.in_hand();
    RangeMapBlaze::from_sorted_disjoint_map(alloc, list)
}

/// Returns the union with the map at `position` as a whole. The entries of the maps before it fill its gaps, and those of the maps
/// after it are painted over it.
fn union_around_large<'a, T: Integer, V: Eq + Clone, M: AsMap<T, V>>(
    alloc: Global,
    maps: &'a [M],
    position: usize,
) -> Result<RangeMapBlaze<T, V>, AllocError>
    requires clones { ClonesAreAlike V.is_clone V.eq }
    requires there { position < length maps.now }
    ensures { IfOk result (IsMade (IsChosenOfMany V.eq T.low T.high last_value (map M.shown maps.now))) }
{
    let under = union_by_rounds(alloc, &maps[..position])?;
    let map = (under | maps[position].as_borrowed())?;
    let over = union_by_rounds(alloc, &maps[position + 1..])?;
    map | over
}
