//! A map without the keys of ranges, cut in place.
ghost use Rattle.std.specs.Prelude.{IfOk, IsTrue};
ghost use Rattle.blaze_entries.specs.Chosen.{left_alone, IsChosen};
ghost use Rattle.blaze_entries.specs.Painted.{ClonesAreAlike};
ghost use Rattle.range_map_blaze.specs.CutOut.{IsAlikeOff};

use crate::map::RangeMapBlaze;
use blaze_int::Integer;
use blaze_streams::SortedDisjoint;
use std::alloc::AllocError;

/// Cuts ranges out of a map, one by one. It stops when more than an eighth of the map's entries were removed, since a merge then
/// costs less. Returns the map, and whether every range was cut out.
///
/// For n entries each range is O(log n), and O(log n) for each entry that is removed. A value is cloned only if a range is inside
/// its entry. If an allocation fails, the map is dropped.
pub fn cut_ranges<T: Integer, V: Eq + Clone, S: SortedDisjoint<T>>(
    map: RangeMapBlaze<T, V>,
    ranges: S,
) -> Result<(RangeMapBlaze<T, V>, bool), AllocError>
    requires { ClonesAreAlike V.is_clone V.eq }
    ensures cut { IfOk result (λ cut. IsTrue cut.1 → IsChosen V.eq T.low T.high left_alone
        map.entries (S.left ranges) cut.0.entries) }
    ensures off { IfOk result (λ cut. IsAlikeOff V.eq (S.left ranges) map.entries cut.0.entries) }
{
    map.in_hand();
    ranges.in_hand();
    let mut table = map.table;
    let least = table.entries().saturating_sub(table.entries() / 8);
    for range in ranges {
        if table.entries() < least {
            return Ok((RangeMapBlaze { table }, false));
        }
        let (start, end) = range.into_inner();
        table.cut_range(start, end)?;
    }
    Ok((RangeMapBlaze { table }, true))
}
