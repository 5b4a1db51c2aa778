//! The symmetric difference of many owned maps.
ghost use Rattle.std.specs.Prelude.{◌<◌, length, map, IfOk};
ghost use Rattle.blaze_entries.specs.Painted.{ClonesAreAlike};
ghost use Rattle.range_map_blaze.specs.Made.{IsMade};
ghost use Rattle.blaze_streams.specs.Many.{last_of_odd, IsChosenOfMany};

use crate::borrowed_differences::{difference_by_rounds, difference_with};
use crate::sizes::position_of_large;
use blaze_int::Integer;
use range_map_blaze::RangeMapBlaze;
use std::alloc::{AllocError, Global};

/// Returns the keys that an odd number of maps have, with the value of the last of these. With two maps it is `^`.
pub fn owned_symmetric_difference<T: Integer, V: Eq + Clone>(
    alloc: Global,
    mut maps: Vec<RangeMapBlaze<T, V>>,
) -> Result<RangeMapBlaze<T, V>, AllocError>
    requires { ClonesAreAlike V.is_clone V.eq }
    ensures { IfOk result (IsMade (IsChosenOfMany V.eq T.low T.high last_of_odd (map (λ m. m.entries) maps.items))) }
{
    if maps.len() == 2 {
        let left = maps.remove(0);
        let right = maps.remove(0);
        return left ^ right;
    }
    match position_of_large(&maps) {
        Some(position) => difference_into(alloc, maps, position),
        None => difference_by_rounds(alloc, &maps),
    }
}

/// Changes the map at `position` into the symmetric difference, by a `^` with the maps before it and a `^` with those after it.
fn difference_into<T: Integer, V: Eq + Clone>(
    alloc: Global,
    mut maps: Vec<RangeMapBlaze<T, V>>,
    position: usize,
) -> Result<RangeMapBlaze<T, V>, AllocError>
    requires clones { ClonesAreAlike V.is_clone V.eq }
    requires there { position < length maps.items }
    ensures { IfOk result (IsMade (IsChosenOfMany V.eq T.low T.high last_of_odd (map (λ m. m.entries) maps.items))) }
{
    let mut behind = maps.split_off(position)?;
    let large = behind.remove(0);
    let before = difference_by_rounds(alloc, &maps)?;
    let map = (before ^ large)?;
    difference_with(alloc, map, &behind)
}
