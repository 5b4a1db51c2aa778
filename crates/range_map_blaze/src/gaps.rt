//! The gaps of a map within a range, and a map with its gaps filled.
ghost use Rattle.std.specs.Iterator.{item_count};
ghost use Rattle.std.specs.Prelude.{◌≡◌, ◌⊎◌, ◌≤ℤ◌, ◌<ℤ◌, ◌+ℤ◌, ◌-ℤ◌, ℤ, pos, Some, None, IsSome, IfOk};
ghost use Rattle.blaze_int.specs.Bounds.{start_rank, end_rank};
ghost use Rattle.blaze_streams.specs.Fills.{IsFilledWithNone};
ghost use Rattle.blaze_entries.specs.Chosen.{left_alone, IsChosen};
ghost use Rattle.blaze_entries.specs.Entries.{at};
ghost use Rattle.blaze_entries.specs.Painted.{ClonesAreAlike};
ghost use Rattle.blaze_entries.specs.RangeSets.{shown_bare_range, unit_eq};
ghost use Rattle.blaze_entries.specs.Whole.{YieldsWholeFirst, YieldsWholeLast};
ghost use Rattle.range_map_blaze.specs.GapsFilled.{AreGapsFilled};
ghost use Rattle.range_map_blaze.specs.Made.{IsMade};
ghost use Rattle.range_map_blaze.specs.OneRange.{one_range};
ghost use Rattle.range_map_blaze.specs.Somewhere.{AreGapsSomewhere};
ghost use Rattle.range_map_blaze.specs.Within.{AreKeysFrom};

use crate::map::RangeMapBlaze;
use crate::overlapping::{Overlapping, entries_on, no_entries};
use blaze_int::compare::is_below;
use blaze_int::{Integer, bounds_of};
use blaze_iters::RangeValuesIter;
use blaze_streams::CanonMapIter;
use blaze_table::RangeTable;
use std::alloc::{AllocError, Global};
use std::iter::FusedIterator;
use std::marker::Model;
use std::ops::{RangeBounds, RangeInclusive};

/// The longest ranges of keys without a value within a range, ascending, from both ends. No call of the iterator allocates.
/// `RangeMapBlaze::gaps` returns it.
#[derive(Drop)]
pub struct Gaps<'a, T: Integer, V: Eq> {
    // The first and the last key that neither end of the iterator has passed. `None` if every key was passed.
    left: Option<(T, T)>,
    entries: Overlapping<'a, T, V>,
}

impl<'a, T: Integer, V: Eq> Model for Gaps<'a, T, V> {
    ghost use Rattle.std.specs.Prelude.{List, IfSome};
    ghost use Rattle.std.specs.Coded.{coded_list};
    ghost use Rattle.blaze_entries.specs.Entries.{Entry};
    ghost use Rattle.blaze_entries.specs.RangeSets.{bare_code};
    ghost use Rattle.range_map_blaze.specs.Within.{gaps_left, IsGapWalk};

    ghost Value = { List (Entry (Unit {0})) };

    ghost coded = { coded_list bare_code };

    ghost view = { λ s. gaps_left T.rank s.left s.entries };

    ghost invariant = { λ s. IfSome s.left
        (λ p. IsGapWalk (T.rank p.0) (T.rank p.1) s.entries) };
}

impl<T: Integer, V: Eq> RangeMapBlaze<T, V> {
    /// Returns an iterator over the longest ranges of keys without a value within the range, ascending, from both ends. Bounds
    /// that name no key give no range.
    ///
    /// Neither the call nor the iterator allocates. The call is O(log n) for n entries, and all ranges together are O(1) for each
    /// entry that shares a key with the range.
    ///
    /// ```
    /// let mut gaps = map.gaps(0..=50);
    /// gaps.next(); // Some(0..=9)
    /// gaps.next_back(); // Some(40..=50)
    /// ```
    #[tactic(auto, unfolding(blaze_entries::specs::Canonical::IsRunStart, blaze_entries::specs::Canonical::IsRunEnd))]
    pub fn gaps<R: RangeBounds<T> + Drop>(&self, range: R) -> Gaps<'_, T, V>
        ensures within { R.has_bounds range → IsChosen unit_eq T.low T.high left_alone
            (one_range (start_rank T.rank T.low (R.start_bound range))
            (end_rank T.rank T.high (R.end_bound range))) self.now.entries result }
        ensures free { R.has_bounds range
            → (k : ℤ) → start_rank T.rank T.low (R.start_bound range) ≤ℤ k
            → k ≤ℤ end_rank T.rank T.high (R.end_bound range) → at self.now.entries k ≡ None
            → at result k ≡ Some tt }
        ensures taken { R.has_bounds range
            → (k : ℤ) → IsSome (at self.now.entries k) → at result k ≡ None }
        ensures outside { R.has_bounds range
            → (k : ℤ) → (k <ℤ start_rank T.rank T.low (R.start_bound range))
            ⊎ (end_rank T.rank T.high (R.end_bound range) <ℤ k) → at result k ≡ None }
        ensures somewhere { AreGapsSomewhere T.low T.high self.now.entries result }
    {
        self.in_hand();
        match bounds_of(&range) {
            Some((start, end)) => gaps_on(&self.table, start, end),
            None => Gaps {
                left: None,
                entries: no_entries(),
            },
        }
    }
}

// The gaps of a table within the range from `start` up to `end`, which are computed by `next`.
fn gaps_on<T: Integer, V: Eq>(table: &RangeTable<T, V>, start: T, end: T) -> Gaps<'_, T, V>
    requires { T.rank start ≤ℤ T.rank end }
    ensures { IsChosen unit_eq T.low T.high left_alone (one_range (T.rank start) (T.rank end))
        table.now.entries result }
{
    table.in_hand();
    start.in_hand();
    end.in_hand();
    Gaps {
        left: Some((start, end)),
        entries: entries_on(table, start, end),
    }
}

// The first and the last key of those above `end` up to `last`, or `None` if there are none.
fn keys_above<T: Integer>(end: T, last: T) -> Option<(T, T)>
    ensures { AreKeysFrom T.rank (T.rank end +ℤ pos 1) (T.rank last) result }
{
    if is_below(end, last) {
        last.in_hand();
        Some((end.add_one(), last))
    } else {
        None
    }
}

// The first and the last key of those from `first` on below `start`, or `None` if there are none.
fn keys_below<T: Integer>(first: T, start: T) -> Option<(T, T)>
    ensures { AreKeysFrom T.rank (T.rank first) (T.rank start -ℤ pos 1) result }
{
    if is_below(first, start) {
        first.in_hand();
        Some((first, start.sub_one()))
    } else {
        None
    }
}

impl<'a, T: Integer, V: Eq> Iterator for Gaps<'a, T, V> {
    type Item = RangeInclusive<T>;

    ghost next_gives = { YieldsWholeFirst (λ r. r) (shown_bare_range T.rank) (λ s. s) };

    ghost remaining = { item_count (λ s. s) };

    fn next(&mut self) -> Option<RangeInclusive<T>> {
        while let Some((first, last)) = self.left {
            let Some((range, _)) = self.entries.next() else {
                self.left = None;
                return Some(first..=last);
            };
            let (start, end) = range.into_inner();
            self.left = keys_above(end, last);
            if let Some(gap) = keys_below(first, start) {
                return Some(gap.0..=gap.1);
            }
        }
        None
    }
}

impl<'a, T: Integer, V: Eq> DoubleEndedIterator for Gaps<'a, T, V> {
    ghost next_back_gives = { YieldsWholeLast (λ r. r) (shown_bare_range T.rank) (λ s. s) };

    fn next_back(&mut self) -> Option<RangeInclusive<T>> {
        while let Some((first, last)) = self.left {
            let Some((range, _)) = self.entries.next_back() else {
                self.left = None;
                return Some(first..=last);
            };
            let (start, end) = range.into_inner();
            self.left = keys_below(first, start);
            if let Some(gap) = keys_above(end, last) {
                return Some(gap.0..=gap.1);
            }
        }
        None
    }
}

impl<'a, T: Integer, V: Eq> FusedIterator for Gaps<'a, T, V> {}

/// Every key of the type, as a stream: with a reference to its value in the table, or with `None`.
fn with_gaps<T: Integer, V: Eq + Clone>(
    alloc: Global,
    table: &RangeTable<T, V>,
) -> Result<CanonMapIter<T, Option<&V>>, AllocError>
    ensures { IfOk result (λ new. IsFilledWithNone V.eq T.low T.high table.now.entries new) }
{
    blaze_streams::fill(alloc, RangeValuesIter::new(table))
}

impl<T: Integer, V: Eq + Clone> RangeMapBlaze<T, V> {
    /// Returns a map with a value at every key of the key type. A key of this map has `Some` of a clone of its value, and every
    /// other key has `None`, which is a value too. Each entry's value is cloned once.
    ///
    /// Allocates. If an allocation fails, this map is unchanged and the clones are dropped. O(n) for n entries.
    ///
    /// ```
    /// let filled = map.fill_gaps()?;
    /// filled.range_at(20); // Some((16..=29, None))
    /// filled.range_at(30); // Some((30..=39, Some('c')))
    /// ```
    pub fn fill_gaps(&self) -> Result<RangeMapBlaze<T, Option<V>>, AllocError>
        requires { ClonesAreAlike V.is_clone V.eq }
        ensures filled { IfOk result
            (IsMade (AreGapsFilled V.eq T.low T.high self.now.entries)) }
        ensures universal { IfOk result (λ map. (k : ℤ) → T.low ≤ℤ k → k ≤ℤ T.high
            → IsSome (at map.entries k)) }
    {
        let alloc = self.allocator();
        let stream = with_gaps(alloc, &self.table)?;
        let map = RangeMapBlaze::from_sorted_disjoint_map(alloc, stream)?;
        Ok(map)
    }
}
