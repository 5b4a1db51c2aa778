//! The union of many owned maps.
ghost use Rattle.std.specs.Prelude.{◌<◌, length, map, IfOk};
ghost use Rattle.blaze_entries.specs.Painted.{ClonesAreAlike};
ghost use Rattle.range_map_blaze.specs.Made.{IsMade};
ghost use Rattle.blaze_streams.specs.Many.{last_value, IsChosenOfMany};

use crate::borrowed_unions::union_by_rounds;
use crate::sizes::position_of_large;
use blaze_int::Integer;
use range_map_blaze::RangeMapBlaze;
use std::alloc::{AllocError, Global};

/// Returns the keys of all maps, with the value of the last map that has the key. With two maps it is `|`.
pub fn owned_union<T: Integer, V: Eq + Clone>(
    alloc: Global,
    mut maps: Vec<RangeMapBlaze<T, V>>,
) -> Result<RangeMapBlaze<T, V>, AllocError>
    requires { ClonesAreAlike V.is_clone V.eq }
    ensures { IfOk result (IsMade (IsChosenOfMany V.eq T.low T.high last_value (map (λ m. m.entries) maps.items))) }
{
    if maps.len() == 2 {
        let left = maps.remove(0);
        let right = maps.remove(0);
        return left | right;
    }
    match position_of_large(&maps) {
        Some(position) => union_into(alloc, maps, position),
        None => union_by_rounds(alloc, &maps),
    }
}

/// Changes the map at `position` into the union. The entries of the maps before it fill its gaps, and those of the maps after it are
/// painted over it.
fn union_into<T: Integer, V: Eq + Clone>(
    alloc: Global,
    mut maps: Vec<RangeMapBlaze<T, V>>,
    position: usize,
) -> Result<RangeMapBlaze<T, V>, AllocError>
    requires clones { ClonesAreAlike V.is_clone V.eq }
    requires there { position < length maps.items }
    ensures { IfOk result (IsMade (IsChosenOfMany V.eq T.low T.high last_value (map (λ m. m.entries) maps.items))) }
{
    let mut behind = maps.split_off(position)?;
    let large = behind.remove(0);
    let under = union_by_rounds(alloc, &maps)?;
    let map = (under | large)?;
    let over = union_by_rounds(alloc, &behind)?;
    map | over
}
