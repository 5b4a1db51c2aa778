//! The keys of a map that a table has, or lacks, with their values. Operators with a map and with a set share these functions.
ghost use Rattle.std.specs.Prelude.{IfOk};
ghost use Rattle.blaze_entries.specs.Chosen.{left_with_right, left_alone, IsChosen};
ghost use Rattle.blaze_entries.specs.Painted.{ClonesAreAlike};

use crate::map::RangeMapBlaze;
use crate::operators::chosen::{borrowed_chosen, owned_chosen};
use crate::operators::cut::cut_ranges;
use crate::operators::few::is_narrow;
use blaze_int::Integer;
use blaze_iters::{SeekingRangeValuesIter, ranges_of};
use blaze_streams::{LeftAlone, LeftWithRight};
use blaze_table::RangeTable;
use std::alloc::AllocError;
use std::cmp::min;

/// The keys of a map that the table has too, with clones of their values. The cursor that lags steps a few entries, then
/// searches, however many entries it skips.
pub fn within_keys<T: Integer, V: Eq + Clone, W: Eq + Clone>(
    map: &RangeMapBlaze<T, V>,
    keys: &RangeTable<T, W>,
) -> Result<RangeMapBlaze<T, V>, AllocError>
    requires { ClonesAreAlike V.is_clone V.eq }
    ensures { IfOk result (λ new. IsChosen V.eq T.low T.high left_with_right map.now.entries
        keys.now.entries new.entries) }
{
    let room = min(map.ranges_len(), keys.entries());
    borrowed_chosen(
        map,
        map.seeking_range_values(),
        SeekingRangeValuesIter::new(keys),
        &LeftWithRight,
        room,
    )
}

/// The keys of an owned map that the table has too, with the map's own values. It goes through all entries of the map.
pub fn within_keys_owned<T: Integer, V: Eq + Clone, W: Eq + Clone>(
    map: RangeMapBlaze<T, V>,
    keys: &RangeTable<T, W>,
) -> Result<RangeMapBlaze<T, V>, AllocError>
    requires { ClonesAreAlike V.is_clone V.eq }
    ensures { IfOk result (λ new. IsChosen V.eq T.low T.high left_with_right map.entries
        keys.now.entries new.entries) }
{
    let room = min(map.ranges_len(), keys.entries());
    owned_chosen(map, SeekingRangeValuesIter::new(keys), &LeftWithRight, room)
}

/// The keys of a map that the table lacks, with clones of their values. If the table has few entries, which cover few of the
/// map's, cuts a clone of the map. Otherwise goes through the map once, and the cursor of the table steps a few entries, then
/// searches.
pub fn outside_keys<T: Integer, V: Eq + Clone, W: Eq + Clone>(
    map: &RangeMapBlaze<T, V>,
    keys: &RangeTable<T, W>,
) -> Result<RangeMapBlaze<T, V>, AllocError>
    requires { ClonesAreAlike V.is_clone V.eq }
    ensures { IfOk result (λ new. IsChosen V.eq T.low T.high left_alone map.now.entries
        keys.now.entries new.entries) }
{
    if is_narrow(keys, &map.table) {
        return outside_keys_owned(map.clone()?, keys);
    }
    let room = map.ranges_len();
    borrowed_chosen(
        map,
        map.seeking_range_values(),
        SeekingRangeValuesIter::new(keys),
        &LeftAlone,
        room,
    )
}

/// The keys of an owned map that the table lacks, with the map's own values. If the table has few entries, which cover few of the
/// map's, cuts the map in place.
pub fn outside_keys_owned<T: Integer, V: Eq + Clone, W: Eq + Clone>(
    map: RangeMapBlaze<T, V>,
    keys: &RangeTable<T, W>,
) -> Result<RangeMapBlaze<T, V>, AllocError>
    requires { ClonesAreAlike V.is_clone V.eq }
    ensures { IfOk result (λ new. IsChosen V.eq T.low T.high left_alone map.entries
        keys.now.entries new.entries) }
{
    if is_narrow(keys, &map.table) {
        let (rest, is_whole) = cut_ranges(map, ranges_of(keys))?;
        if is_whole {
            return Ok(rest);
        }
        return all_outside_keys(rest, keys);
    }
    all_outside_keys(map, keys)
}

/// The keys of an owned map that the table lacks, with the map's own values. It goes through all entries of the map.
fn all_outside_keys<T: Integer, V: Eq + Clone, W: Eq + Clone>(
    map: RangeMapBlaze<T, V>,
    keys: &RangeTable<T, W>,
) -> Result<RangeMapBlaze<T, V>, AllocError>
    requires { ClonesAreAlike V.is_clone V.eq }
    ensures { IfOk result (λ new. IsChosen V.eq T.low T.high left_alone map.entries
        keys.now.entries new.entries) }
{
    let room = map.ranges_len();
    owned_chosen(map, SeekingRangeValuesIter::new(keys), &LeftAlone, room)
}
