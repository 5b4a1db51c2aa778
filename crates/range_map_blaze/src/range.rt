//! The keys within bounds, with clones of their values.
ghost use Rattle.std.specs.Prelude.{◌≡◌, map, IfOk, ◌≤ℤ◌, List};
ghost use Rattle.blaze_int.specs.Bounds.{start_rank, end_rank};
ghost use Rattle.blaze_iters.specs.Left.{unopened, pairs_left};
ghost use Rattle.blaze_entries.specs.Chosen.{left_with_right, IsChosen};
ghost use Rattle.blaze_entries.specs.Entries.{Entry, SameEntries, shown_list};
ghost use Rattle.blaze_entries.specs.Painted.{ClonesAreAlike};
ghost use Rattle.blaze_entries.specs.Pairs.{pair_list};
ghost use Rattle.range_map_blaze.specs.OneRange.{one_range};
ghost use Rattle.range_map_blaze.specs.Somewhere.{IsTakenSomewhere};
ghost use Rattle.range_map_blaze.specs.Within.{within};

use crate::map::RangeMapBlaze;
use crate::pairs::push_clone;
use blaze_int::compare::{greater, is_below, lesser};
use blaze_int::{Integer, bounds_of};
use blaze_iters::IntoIterMap;
use blaze_table::RangeTable;
use std::alloc::AllocError;
use std::ops::RangeBounds;

impl<T: Integer, V: Eq + Clone> RangeMapBlaze<T, V> {
    /// Returns an iterator over the keys in the range that have a value, ascending, from both ends: each key with a value of its
    /// own. It requires that the bounds name a key, as `names_a_key` says.
    ///
    /// The call clones the value of each entry in the range. The iterator clones it again for each key of the entry except the
    /// last. If an allocation of the call fails, the map is unchanged. If an allocation of the iterator fails, it gives that
    /// error and ends.
    ///
    /// The call is O(log n) for n entries, and O(1) for each entry in the range. Each key is O(1) and a clone.
    ///
    /// ```
    /// let mut pairs = map.range(14..=15)?;
    /// pairs.next(); // Some(Ok((14, 'a')))
    /// pairs.next(); // Some(Ok((15, 'b')))
    /// ```
    pub fn range<R: RangeBounds<T> + Drop>(&self, range: R) -> Result<IntoIterMap<T, V>, AllocError>
        requires named { R.has_bounds range
            → start_rank T.rank T.low (R.start_bound range) ≤ℤ end_rank T.rank T.high
            (R.end_bound range) }
        requires clones { ClonesAreAlike V.is_clone V.eq }
        ensures within { R.has_bounds range → IfOk result (λ iter. (es : List (Entry V))
            × IsChosen V.eq T.low T.high left_with_right self.now.entries
            (one_range (start_rank T.rank T.low (R.start_bound range))
            (end_rank T.rank T.high (R.end_bound range))) es
            × (iter ≡ unopened es)
            × (pairs_left T.of_rank (λ es. es) iter ≡ pair_list T.of_rank es)) }
        ensures somewhere { IfOk result (λ iter. (es : List (Entry V))
            × IsTakenSomewhere V.eq T.low T.high self.now.entries es
            × (iter ≡ unopened es)
            × (pairs_left T.of_rank (λ es. es) iter ≡ pair_list T.of_rank es)) }
    {
        let alloc = self.allocator();
        let Some((start, end)) = bounds_of(&range) else {
            return Ok(Self::new(alloc).into_iter());
        };
        let map = self.on_keys(start, end)?;
        Ok(map.into_iter())
    }

    /// The map of the keys from `start` up to `end`, with clones of their values.
    pub(crate) fn on_keys(&self, start: T, end: T) -> Result<Self, AllocError>
        requires order { T.rank start ≤ℤ T.rank end }
        requires clones { ClonesAreAlike V.is_clone V.eq }
        ensures { IfOk result (λ map. IsChosen V.eq T.low T.high left_with_right self.now.entries
            (one_range (T.rank start) (T.rank end)) map.entries) }
    {
        self.in_hand();
        let entries = self.clones_within(start, end)?;
        let table = RangeTable::from_canonical(self.allocator(), entries)?;
        Ok(RangeMapBlaze { table })
    }

    /// The entries cut to the keys from `start` up to `end`, each with a clone of its value. O(log n) for n entries, and O(1) for
    /// each entry in the range.
    pub(crate) fn clones_within(&self, start: T, end: T) -> Result<Vec<(T, T, V)>, AllocError>
        requires order { T.rank start ≤ℤ T.rank end }
        requires clones { ClonesAreAlike V.is_clone V.eq }
        ensures { IfOk result
            (λ list. SameEntries V.eq (within (T.rank start) (T.rank end) self.now.entries)
            (shown_list T.rank list.items)) }
    {
        self.in_hand();
        let mut list = Vec::new(self.allocator());
        for (first, last, value) in self.table.iter_ending_from(start) {
            if is_below(end, first) {
                return Ok(list);
            }
            push_clone(&mut list, greater(first, start), lesser(last, end), value)?;
        }
        Ok(list)
    }
}
