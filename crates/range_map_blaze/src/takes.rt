//! The keys of a range, moved to a map.
ghost use Rattle.std.specs.Prelude.{◌≡◌, ◌↔◌, ◌≤ℤ◌, ◌<ℤ◌, ℤ, [], false, IfOk, IsTrue, Ok, OnErr, OnOk};
ghost use Rattle.blaze_int.specs.Bounds.{start_rank, end_rank};
ghost use Rattle.blaze_entries.specs.Counted.{uncounted};
ghost use Rattle.blaze_entries.specs.Entries.{at};
ghost use Rattle.blaze_table.specs.Gap.{IsClearFrom};
ghost use Rattle.blaze_entries.specs.Painted.{ClonesAreAlike};
ghost use Rattle.blaze_table.specs.Work.{IsRefused, IsCountedCut};
ghost use Rattle.range_map_blaze.specs.FreeSides.{IsFreeAbove, IsFreeBelow};
ghost use Rattle.range_map_blaze.specs.KeysTaken.{AreKeysTaken, IsTakenOutSomewhere};

use crate::map::RangeMapBlaze;
use blaze_int::compare::{is_at_most, is_below};
use blaze_int::{Integer, bounds_of};
use std::alloc::AllocError;
use std::ops::RangeBounds;

impl<T: Integer, V: Eq + Clone> RangeMapBlaze<T, V> {
    /// Removes every key in the range, and returns the map of them. Bounds that name no key change nothing.
    ///
    /// A range that takes all keys from a key on, or all up to one, moves the entries, as `split_off` does. It clones only the
    /// value of an entry that also keeps keys. Any other range clones the value of each entry that shares a key with it.
    ///
    /// If an allocation fails, the map is unchanged. Does not allocate if no key in the range has a value. O(log n) for n
    /// entries. A moved part adds O(1) for each entry of the smaller part, and a cloned one O(log n) for each of its entries.
    ///
    /// ```
    /// map.ranges_take(12..=21)?; // (12..=14, 'a'), (15..=15, 'b')
    /// map; // (10..=11, 'a'), (30..=39, 'c')
    /// ```
    pub fn ranges_take<R: RangeBounds<T> + Drop>(&mut self, range: R) -> Result<Self, AllocError>
        requires { ClonesAreAlike V.is_clone V.eq }
        ensures ok { R.has_bounds range → IfOk result (λ taken. AreKeysTaken V.eq T.low T.high
            (start_rank T.rank T.low (R.start_bound range))
            (end_rank T.rank T.high (R.end_bound range)) self.old.entries self.new.entries
            taken.entries) }
        ensures somewhere { IfOk result (λ taken. IsTakenOutSomewhere V.eq T.low T.high
            self.old.entries self.new.entries taken.entries) }
        ensures uncounted { IfOk result (λ taken. taken ≡ uncounted taken.entries) }
        ensures none { R.has_bounds range
            → IsClearFrom (at self.old.entries) (start_rank T.rank T.low (R.start_bound range))
            (end_rank T.rank T.high (R.end_bound range))
            → (result ≡ Ok (uncounted [])) × (self.new ≡ self.old) }
        ensures counted { OnOk result (IsCountedCut self.old self.new) }
        ensures err { OnErr result (IsRefused self.old self.new) }
    {
        self.in_hand();
        match bounds_of(&range) {
            Some((start, end)) => self.take_keys(start, end),
            None => Ok(Self::new(self.allocator())),
        }
    }

    // Removes the keys from `start` up to `end`, and returns the map of them. A last or a first part of the map moves. Only keys
    // between others are cloned.
    fn take_keys(&mut self, start: T, end: T) -> Result<Self, AllocError>
        requires order { T.rank start ≤ℤ T.rank end }
        requires clones { ClonesAreAlike V.is_clone V.eq }
        ensures ok { IfOk result (λ taken. AreKeysTaken V.eq T.low T.high (T.rank start)
            (T.rank end) self.old.entries self.new.entries taken.entries) }
        ensures uncounted { IfOk result (λ taken. taken ≡ uncounted taken.entries) }
        ensures none { IsClearFrom (at self.old.entries) (T.rank start) (T.rank end)
            → (result ≡ Ok (uncounted [])) × (self.new ≡ self.old) }
        ensures counted { OnOk result (IsCountedCut self.old self.new) }
        ensures err { OnErr result (IsRefused self.old self.new) }
    {
        self.in_hand();
        if self.is_free(start, end) {
            return Ok(Self::new(self.allocator()));
        }
        if self.is_free_above(end) {
            return self.last_part(start);
        }
        if self.is_free_below(start) {
            return self.first_part(end);
        }
        self.middle_part(start, end)
    }

    // Removes the keys from `start` on, and returns the map of them.
    fn last_part(&mut self, start: T) -> Result<Self, AllocError>
        requires clones { ClonesAreAlike V.is_clone V.eq }
        ensures ok { IfOk result (λ taken. (h : ℤ) → IsFreeAbove (at self.old.entries) h
            → AreKeysTaken V.eq T.low T.high (T.rank start) h self.old.entries self.new.entries
            taken.entries) }
        ensures uncounted { IfOk result (λ taken. taken ≡ uncounted taken.entries) }
        ensures counted { OnOk result (IsCountedCut self.old self.new) }
        ensures err { OnErr result (self.new ≡ self.old) }
    {
        self.in_hand();
        let table = self.table.part_from(start)?;
        Ok(RangeMapBlaze { table })
    }

    // Removes the keys up to `end`, and returns the map of them.
    fn first_part(&mut self, end: T) -> Result<Self, AllocError>
        requires room { T.rank end <ℤ T.high }
        requires clones { ClonesAreAlike V.is_clone V.eq }
        ensures ok { IfOk result (λ taken. (l : ℤ) → IsFreeBelow (at self.old.entries) l
            → AreKeysTaken V.eq T.low T.high l (T.rank end) self.old.entries self.new.entries
            taken.entries) }
        ensures uncounted { IfOk result (λ taken. taken ≡ uncounted taken.entries) }
        ensures counted { OnOk result (IsCountedCut self.old self.new) }
        ensures err { OnErr result (self.new ≡ self.old) }
    {
        self.in_hand();
        let table = self.table.part_below(end.add_one())?;
        Ok(RangeMapBlaze { table })
    }

    // Removes the keys from `start` up to `end`, and returns the map of their clones. The clones come first, so that a failed
    // allocation leaves the map unchanged.
    fn middle_part(&mut self, start: T, end: T) -> Result<Self, AllocError>
        requires order { T.rank start ≤ℤ T.rank end }
        requires clones { ClonesAreAlike V.is_clone V.eq }
        ensures ok { IfOk result (λ taken. AreKeysTaken V.eq T.low T.high (T.rank start)
            (T.rank end) self.old.entries self.new.entries taken.entries) }
        ensures uncounted { IfOk result (λ taken. taken ≡ uncounted taken.entries) }
        ensures counted { OnOk result (IsCountedCut self.old self.new) }
        ensures err { OnErr result (IsRefused self.old self.new) }
    {
        let taken = self.on_keys(start, end)?;
        self.table.cut_range(start, end)?;
        Ok(taken.uncounted())
    }

    // Whether no key from `start` up to `end` has a value. `ranges_take` then neither allocates nor counts work.
    fn is_free(&self, start: T, end: T) -> bool
        requires { T.rank start ≤ℤ T.rank end }
        ensures { IsTrue result ↔ IsClearFrom (at self.now.entries) (T.rank start) (T.rank end) }
    {
        self.in_hand();
        match self.entry_at_or_above(start) {
            Some(entry) => {
                let (first, _, _) = entry;
                is_below(end, first)
            }
            None => true,
        }
    }

    // Whether no key above `end` has a value.
    fn is_free_above(&self, end: T) -> bool
        ensures free { IsTrue result ↔ IsFreeAbove (at self.now.entries) (T.rank end) }
        ensures room { result ≡ false → T.rank end <ℤ T.high }
    {
        match self.last_key_value() {
            Some(pair) => {
                let (last, _) = pair;
                last.in_hand();
                is_at_most(last, end)
            }
            None => true,
        }
    }

    // Whether no key below `start` has a value.
    fn is_free_below(&self, start: T) -> bool
        ensures { IsTrue result ↔ IsFreeBelow (at self.now.entries) (T.rank start) }
    {
        match self.first_key_value() {
            Some(pair) => {
                let (first, _) = pair;
                is_at_most(start, first)
            }
            None => true,
        }
    }
}
