//! Counted lookups of the entries near a key, and the counted walk down to a range.
ghost use Rattle.std.specs.Prelude.{◌≡◌, ◌⊎◌, ◌+◌, ◌-◌, ◌≤◌, pos, ◌+ℤ◌, ◌≤ℤ◌, ◌<ℤ◌, length, slice_get};
ghost use Rattle.std.specs.Prelude.{IfOk, OnErr, IsSome, IfSome, IsSomeAnd, true};
ghost use Rattle.std.specs.Option.{option_map, option_copied};
ghost use Rattle.blaze_entries.specs.Cloned.{IsRangeCloned};
ghost use Rattle.blaze_entries.specs.Entries.{at};
ghost use Rattle.blaze_entries.specs.Found.{found_in, shown_found, is_sought, range_in, shown_ends};
ghost use Rattle.blaze_entries.specs.Overlap.{covered_keys};
ghost use Rattle.blaze_entries.specs.Starts.{below, from, last_below, first_from, holder_of, start_at};
ghost use Rattle.blaze_entries.specs.Walked.{RangesAscend, shown_plan, IsWalk, HasWalkLookups};
ghost use Rattle.blaze_entries.specs.Walked.{GoesOnUnlike};

use super::Counted;
use crate::found::{compared, entry_reaching, range_cloned, range_of, value_cloned};
use crate::range_entry::RangeEntry;
use crate::scan::{Walk, cloned_if, look_down, tail_value_cloned};
use blaze_int::Integer;
use std::alloc::AllocError;

impl<T: Integer, V> Counted<T, V> {
    /// Returns the first and last key of the entry with the greatest start up to `key`. O(log n) with n entries.
    pub fn range_at_or_below(&mut self, key: T) -> Option<RangeEntry<T, ()>>
        ensures found { option_map (shown_ends T.rank) result
            ≡ option_map range_in (last_below (T.rank key +ℤ pos 1) self.old.entries) }
        ensures looked { self.new ≡ record self.old { looks = self.old.looks + 1 } }
    {
        self.looks = self.looks.one_more();
        range_of(self.tree.at_or_below(key))
    }

    /// Returns the first and last key of the entry with the least start from `key` on. O(log n) with n entries.
    pub fn range_at_or_above(&mut self, key: T) -> Option<RangeEntry<T, ()>>
        ensures found { option_map (shown_ends T.rank) result
            ≡ option_map range_in (first_from (T.rank key) self.old.entries) }
        ensures looked { self.new ≡ record self.old { looks = self.old.looks + 1 } }
    {
        self.looks = self.looks.one_more();
        range_of(self.tree.at_or_above(key))
    }
}

impl<T: Integer, V: Clone> Counted<T, V> {
    /// Returns the first and last key of the entry that contains `key`. If the entry has more than one key, the result
    /// includes a clone of its value. If the clone fails, the entries are unchanged. O(log n) with n entries, and one
    /// clone.
    pub fn entry_containing(
        &mut self,
        key: T,
    ) -> Result<Option<RangeEntry<T, Option<V>>>, AllocError>
        ensures held { IfOk result (λ r.
            IsRangeCloned T.rank V.is_clone (holder_of (T.rank key) self.old.entries) r) }
        ensures refused { OnErr result
            (IsSomeAnd (holder_of (T.rank key) self.old.entries) (λ e. e.lo <ℤ e.hi)) }
        ensures looked { self.new ≡ record self.old { looks = self.old.looks + 1 } }
    {
        self.looks = self.looks.one_more();
        let ends = range_cloned(entry_reaching(self.tree.at_or_below(key), key))?;
        Ok(ends)
    }

    /// Returns the first and last key of the first entry. If the entry has more than one key, the result includes a
    /// clone of its value. If the clone fails, the entries are unchanged. O(log n) with n entries, without comparing
    /// keys in the tree.
    pub fn first_range_cloned(&mut self) -> Result<Option<RangeEntry<T, Option<V>>>, AllocError>
        ensures held { IfOk result (λ r.
            IsRangeCloned T.rank V.is_clone (slice_get self.old.entries 0) r) }
        ensures refused { OnErr result
            (IsSomeAnd (slice_get self.old.entries 0) (λ e. e.lo <ℤ e.hi)) }
        ensures looked { self.new ≡ record self.old { looks = self.old.looks + 1 } }
    {
        self.looks = self.looks.one_more();
        let ends = range_cloned(self.tree.first())?;
        Ok(ends)
    }

    /// Returns the first and last key of the last entry. If the entry has more than one key, the result includes a
    /// clone of its value. If the clone fails, the entries are unchanged. O(log n) with n entries, without comparing
    /// keys in the tree.
    pub fn last_range_cloned(&mut self) -> Result<Option<RangeEntry<T, Option<V>>>, AllocError>
        ensures held { IfOk result (λ r. IsRangeCloned T.rank V.is_clone
            (slice_get self.old.entries (length self.old.entries - 1)) r) }
        ensures refused { OnErr result (IsSomeAnd
            (slice_get self.old.entries (length self.old.entries - 1)) (λ e. e.lo <ℤ e.hi)) }
        ensures looked { self.new ≡ record self.old { looks = self.old.looks + 1 } }
    {
        self.looks = self.looks.one_more();
        let ends = range_cloned(self.tree.last())?;
        Ok(ends)
    }

    /// Clones the value of the entry that starts at `start`, which must exist. If the clone fails, the entries are
    /// unchanged. O(log n) with n entries, and one clone.
    pub fn clone_value(&mut self, start: T) -> Result<V, AllocError>
        requires present { IsSome (start_at (T.rank start) self.old.entries) }
        ensures value { IfOk result
            (λ value. IfSome (start_at (T.rank start) self.old.entries)
            (λ e. V.is_clone e.value value)) }
        ensures looked { self.new ≡ record self.old { looks = self.old.looks + 1 } }
    {
        self.looks = self.looks.one_more();
        let value = value_cloned(self.tree.at(start))?;
        Ok(value)
    }
}

impl<T: Integer, V: Eq> Counted<T, V> {
    /// Returns the entry with the greatest start below `key`, and whether its value equals `value`. O(log n) with n
    /// entries.
    pub fn found_below(&mut self, key: T, value: &V) -> Option<RangeEntry<T, bool>>
        ensures found { option_map (shown_found T.rank) result
            ≡ option_map (found_in (λ w. V.eq w value.now))
            (last_below (T.rank key) self.old.entries) }
        ensures looked { self.new ≡ record self.old { looks = self.old.looks + 1 } }
    {
        self.looks = self.looks.one_more();
        compared(self.tree.below(key), value)
    }

    /// Returns the entry with the greatest start up to `key`, and whether its value equals `value`. O(log n) with n
    /// entries.
    pub fn found_at_or_below(&mut self, key: T, value: &V) -> Option<RangeEntry<T, bool>>
        ensures found { option_map (shown_found T.rank) result
            ≡ option_map (found_in (λ w. V.eq w value.now))
            (last_below (T.rank key +ℤ pos 1) self.old.entries) }
        ensures looked { self.new ≡ record self.old { looks = self.old.looks + 1 } }
    {
        self.looks = self.looks.one_more();
        compared(self.tree.at_or_below(key), value)
    }
}

impl<T: Integer, V: Eq + Clone> Counted<T, V> {
    /// Walks down the entries once, for an edit of the keys from `lo` to `hi`.
    ///
    /// The walk starts at the entry that may start right above the range. It ends at the first entry that starts below
    /// the range. It returns a plan for the edit, and `len` less the number of keys that the range shares with the
    /// entries. If `value` is `None`, no entry's value counts as equal.
    ///
    /// The walk clones at most two values:
    ///
    /// - the value of the entry that starts below the range, if the entry extends above the range and its value is
    ///   unequal;
    /// - the value of the key `lo`, if `wanted`.
    ///
    /// If a clone fails, the entries are unchanged. O(log n + k) with n entries, of which k are visited. The function
    /// is inlined, so that its result is not copied.
    #[inline(always)]
    pub fn walk(
        &mut self,
        len: T::SafeLen,
        lo: T,
        hi: T,
        value: Option<&V>,
        wanted: bool,
    ) -> Result<Walk<T, V>, AllocError>
        requires order { T.rank lo ≤ℤ T.rank hi }
        requires ranges { RangesAscend T.low T.high self.old.entries }
        requires len { covered_keys (T.rank lo) (T.rank hi) self.old.entries
            ≤ℤ pos (T.SafeLen.number len) }
        ensures found { IfOk result (λ w. IsWalk V.is_clone
            (is_sought V.eq (option_copied value.entry)) wanted (T.rank lo) (T.rank hi)
            (T.SafeLen.number len) self.old.entries (shown_plan T.rank w.plan)
            (T.SafeLen.number w.keys_outside) w.tail_value w.old_value) }
        ensures refused { OnErr result (GoesOnUnlike (is_sought V.eq (option_copied value.entry))
            (T.rank lo) (T.rank hi) self.old.entries
            ⊎ ((wanted ≡ true) × IsSome (at self.old.entries (T.rank lo)))) }
        ensures looked { HasWalkLookups 0 (T.rank lo) (T.rank hi) self.old self.new }
    {
        let (plan, keys_outside, held) = look_down(&self.tree, len, lo, hi, value, &mut self.looks);
        let tail_value = tail_value_cloned(plan.predecessor, hi, held)?;
        let old_value = cloned_if(wanted, held)?;
        Ok(Walk {
            plan,
            keys_outside,
            tail_value,
            old_value,
        })
    }
}
