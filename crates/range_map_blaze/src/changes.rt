//! Changes of one map: values set on keys and ranges, keys removed, and keys and entries that a closure keeps.
ghost use Rattle.std.specs.List.Retain.{IsFiltered};
ghost use Rattle.std.specs.Prelude.{◌≡◌, ◌↔◌, ◌<ℤ◌, false, Ok, IfOk, OnOk, OnErr, IsTrue, ℤ, [], None, MatchOption};
ghost use Rattle.blaze_int.specs.Bounds.{start_rank, end_rank};
ghost use Rattle.blaze_entries.specs.Canonical.{IsRangeMap};
ghost use Rattle.blaze_entries.specs.Count.{keys_in};
ghost use Rattle.blaze_entries.specs.Counted.{uncounted};
ghost use Rattle.blaze_entries.specs.Cut.{IsKeyRemoved, IsRangeCut, IsSplit, IsAmongOthers, GoesOnAbove};
ghost use Rattle.blaze_entries.specs.Entries.{entry, at, SameOption};
ghost use Rattle.blaze_table.specs.Filled.{IsFilled, IsMappedFrom};
ghost use Rattle.blaze_entries.specs.Painted.{IsPainted, IsInside, ClonesAreAlike};
ghost use Rattle.blaze_table.specs.Retain.{AnswersAt, IsCallableAtEach, IsCallableAtPairs, IsKeyRetained};
ghost use Rattle.blaze_table.specs.Work.{IsCounted, IsRefused, IsCountedPaint, IsCountedCut};
ghost use Rattle.range_map_blaze.specs.Pairs.{IsFirstPair, IsLastPair, PopsFirst, PopsLast};
ghost use Rattle.range_map_blaze.specs.Somewhere.{IsPaintedSomewhere, IsFilledSomewhere, IsCutSomewhere};

use crate::map::RangeMapBlaze;
use blaze_int::{Integer, bounds_of};
use std::alloc::AllocError;
use std::ops::{RangeBounds, RangeInclusive};

impl<T: Integer, V: Eq + Clone> RangeMapBlaze<T, V> {
    /// Sets the value of `key`, and returns the value that it had. May allocate; if an allocation fails, the map is unchanged.
    /// O(log n) for n entries.
    ///
    /// ```
    /// map.insert(12, 'x')?; // Some('a')
    /// map; // (10..=11, 'a'), (12..=12, 'x'), (13..=14, 'a'), (15..=15, 'b'), (30..=39, 'c')
    /// ```
    pub fn insert(&mut self, key: T, value: V) -> Result<Option<V>, AllocError>
        requires { ClonesAreAlike V.is_clone V.eq }
        ensures ok { OnOk result
            (IsPainted V.eq T.low T.high (entry (T.rank key) (T.rank key) value) self.old.entries
            self.new.entries) }
        ensures value { IfOk result
            (λ old. SameOption V.eq (at self.old.entries (T.rank key)) old) }
        ensures inside { IsInside V.eq (T.rank key) (T.rank key) value self.old.entries
            → self.new.entries ≡ self.old.entries }
        ensures counted { OnOk result (IsCountedPaint self.old self.new) }
        ensures err { OnErr result (IsRefused self.old self.new) }
    {
        self.table.insert(key, value)
    }

    /// Sets the value of every key in the range, replacing what was there: it paints the range. Returns whether the number of
    /// keys with a value changed.
    ///
    /// If one entry with an equal value contains the whole range, nothing changes, not even the stored value. An entry without a
    /// key of the range keeps its stored value, unless it touches the range and has an equal value. Bounds that name no key
    /// change nothing; a `RangeInclusive` that was iterated to its end has such bounds.
    ///
    /// Does not allocate if nothing changes. If an allocation fails, the map is unchanged. O(log n) for each of the n entries
    /// that the range touches.
    ///
    /// ```
    /// map.ranges_insert(12..=17, 'd')?; // true
    /// map; // (10..=11, 'a'), (12..=17, 'd'), (30..=39, 'c')
    /// ```
    pub fn ranges_insert<R: RangeBounds<T> + Drop>(
        &mut self,
        range: R,
        value: V,
    ) -> Result<bool, AllocError>
        requires { ClonesAreAlike V.is_clone V.eq }
        ensures ok { R.has_bounds range → OnOk result (IsPainted V.eq T.low T.high
            (entry (start_rank T.rank T.low (R.start_bound range))
            (end_rank T.rank T.high (R.end_bound range)) value)
            self.old.entries self.new.entries) }
        ensures somewhere { OnOk result (IsPaintedSomewhere V.eq T.low T.high value self.old.entries
            self.new.entries) }
        ensures changed { IfOk result (λ changed. IsTrue changed ↔ (¬ (keys_in self.new.entries
            ≡ keys_in self.old.entries))) }
        ensures none { R.has_bounds range
            → end_rank T.rank T.high (R.end_bound range) <ℤ start_rank T.rank T.low
            (R.start_bound range)
            → (result ≡ Ok false) × (self.new ≡ self.old) }
        ensures inside { R.has_bounds range
            → IsInside V.eq (start_rank T.rank T.low (R.start_bound range))
            (end_rank T.rank T.high (R.end_bound range)) value self.old.entries
            → (result ≡ Ok false) × (self.new.entries ≡ self.old.entries) }
        ensures counted { OnOk result (IsCountedPaint self.old self.new) }
        ensures err { OnErr result (IsRefused self.old self.new) }
    {
        self.in_hand();
        match bounds_of(&range) {
            Some((start, end)) => self.table.paint(start, end, value),
            None => Ok(false),
        }
    }

    /// Sets the value of every key in the range that has none. Returns whether the number of keys with a value changed. A key
    /// that has a value keeps it.
    ///
    /// The last gap gets the value itself, and each gap before it a clone. An entry that several ranges are joined into stores
    /// the value of the lowest. Bounds that name no key, and a range without a gap, change nothing and do not allocate.
    ///
    /// If an allocation fails, the map is unchanged. For n entries: O(1) for each entry in the range, and O(log n) for each gap
    /// and each pair of entries that is joined.
    ///
    /// ```
    /// map.ranges_insert_absent(12..=17, 'd')?; // true
    /// map; // (10..=14, 'a'), (15..=15, 'b'), (16..=17, 'd'), (30..=39, 'c')
    /// ```
    pub fn ranges_insert_absent<R: RangeBounds<T> + Drop>(
        &mut self,
        range: R,
        value: V,
    ) -> Result<bool, AllocError>
        requires { ClonesAreAlike V.is_clone V.eq }
        ensures ok { R.has_bounds range → OnOk result (IsFilled V.eq T.low T.high
            (entry (start_rank T.rank T.low (R.start_bound range))
            (end_rank T.rank T.high (R.end_bound range)) value)
            self.old.entries self.new.entries) }
        ensures somewhere { OnOk result (IsFilledSomewhere V.eq T.low T.high value self.old.entries
            self.new.entries) }
        ensures changed { IfOk result (λ changed. IsTrue changed ↔ (¬ (keys_in self.new.entries
            ≡ keys_in self.old.entries))) }
        ensures none { R.has_bounds range
            → end_rank T.rank T.high (R.end_bound range) <ℤ start_rank T.rank T.low
            (R.start_bound range)
            → (result ≡ Ok false) × (self.new ≡ self.old) }
        ensures held { R.has_bounds range
            → IsMappedFrom (at self.old.entries) (start_rank T.rank T.low (R.start_bound range))
            (end_rank T.rank T.high (R.end_bound range))
            → (result ≡ Ok false) × (self.new.entries ≡ self.old.entries) }
        ensures counted { IsCounted self.old self.new }
        ensures err { OnErr result (self.new.entries ≡ self.old.entries) }
    {
        self.in_hand();
        match bounds_of(&range) {
            Some((start, end)) => self.table.fill_absent(start, end, value),
            None => Ok(false),
        }
    }

    /// Removes `key`, and returns the value that it had. Does not allocate if the key has no value, or if its entry has no other
    /// key. If an allocation fails, the map is unchanged. O(log n) for n entries.
    ///
    /// ```
    /// map.remove(12)?; // Some('a')
    /// map; // (10..=11, 'a'), (13..=14, 'a'), (15..=15, 'b'), (30..=39, 'c')
    /// ```
    pub fn remove(&mut self, key: T) -> Result<Option<V>, AllocError>
        requires { ClonesAreAlike V.is_clone V.eq }
        ensures counted { OnOk result (IsCountedCut self.old self.new) }
        ensures ok { OnOk result
            (IsKeyRemoved V.eq T.low T.high (T.rank key) self.old.entries self.new.entries) }
        ensures value { IfOk result
            (λ value. SameOption V.eq (at self.old.entries (T.rank key)) value) }
        ensures none { at self.old.entries (T.rank key) ≡ None → (result ≡ Ok None)
            × (self.new.entries ≡ self.old.entries) }
        ensures refused { OnErr result (IsAmongOthers (T.rank key) self.old.entries) }
        ensures err { OnErr result (IsRefused self.old self.new) }
    {
        self.table.cut_key(key)
    }

    /// Removes every key in the range. Bounds that name no key change nothing and do not allocate. Allocates only if an entry
    /// with keys of the range extends past its end. If an allocation fails, the map is unchanged. O(log n) for n entries, and
    /// O(log n) for each entry that is removed.
    ///
    /// ```
    /// map.ranges_remove(12..=34)?;
    /// map; // (10..=11, 'a'), (35..=39, 'c')
    /// ```
    pub fn ranges_remove<R: RangeBounds<T> + Drop>(&mut self, range: R) -> Result<(), AllocError>
        requires { ClonesAreAlike V.is_clone V.eq }
        ensures ok { R.has_bounds range → OnOk result (IsRangeCut V.eq T.low T.high
            (start_rank T.rank T.low (R.start_bound range))
            (end_rank T.rank T.high (R.end_bound range)) self.old.entries self.new.entries) }
        ensures somewhere { OnOk result (IsCutSomewhere V.eq T.low T.high self.old.entries
            self.new.entries) }
        ensures none { R.has_bounds range
            → end_rank T.rank T.high (R.end_bound range) <ℤ start_rank T.rank T.low
            (R.start_bound range)
            → (result ≡ Ok tt) × (self.new ≡ self.old) }
        ensures refused { R.has_bounds range → OnErr result
            (GoesOnAbove (end_rank T.rank T.high (R.end_bound range)) self.old.entries) }
        ensures counted { OnOk result (IsCountedCut self.old self.new) }
        ensures err { OnErr result (IsRefused self.old self.new) }
    {
        self.in_hand();
        match bounds_of(&range) {
            Some((start, end)) => self.table.cut_range(start, end),
            None => Ok(()),
        }
    }

    /// Removes the least key that has a value, and returns it with that value. Returns `None` for the empty map. Does not
    /// allocate if the map is empty, or if the entry of the key has no other key. If an allocation fails, the map is unchanged.
    /// O(log n) for n entries.
    ///
    /// ```
    /// map.pop_first()?; // Some((10, 'a'))
    /// map; // (11..=14, 'a'), (15..=15, 'b'), (30..=39, 'c')
    /// ```
    pub fn pop_first(&mut self) -> Result<Option<(T, V)>, AllocError>
        requires { ClonesAreAlike V.is_clone V.eq }
        ensures ok { IfOk result (λ popped. MatchOption popped ((self.old.entries ≡ [])
            × (self.new ≡ self.old)) (λ pair. PopsFirst V.eq T.low T.high (T.rank pair.0) pair.1
            self.old.entries self.new.entries)) }
        ensures counted { OnOk result (IsCountedCut self.old self.new) }
        ensures empty { self.old.entries ≡ [] → result ≡ Ok None }
        ensures refused { OnErr result ((key : ℤ) × (value : V)
            × IsFirstPair (at self.old.entries) key value × IsAmongOthers key self.old.entries) }
        ensures err { OnErr result (IsRefused self.old self.new) }
    {
        self.in_hand();
        let popped = self.table.pop_first()?;
        Ok(popped)
    }

    /// Removes the greatest key that has a value, and returns it with that value. Returns `None` for the empty map. Does not
    /// allocate if the map is empty, or if the entry of the key has no other key. If an allocation fails, the map is unchanged.
    /// O(log n) for n entries.
    ///
    /// ```
    /// map.pop_last()?; // Some((39, 'c'))
    /// map; // (10..=14, 'a'), (15..=15, 'b'), (30..=38, 'c')
    /// ```
    pub fn pop_last(&mut self) -> Result<Option<(T, V)>, AllocError>
        requires { ClonesAreAlike V.is_clone V.eq }
        ensures ok { IfOk result (λ popped. MatchOption popped ((self.old.entries ≡ [])
            × (self.new ≡ self.old)) (λ pair. PopsLast V.eq T.low T.high (T.rank pair.0) pair.1
            self.old.entries self.new.entries)) }
        ensures counted { OnOk result (IsCountedCut self.old self.new) }
        ensures empty { self.old.entries ≡ [] → result ≡ Ok None }
        ensures refused { OnErr result ((key : ℤ) × (value : V)
            × IsLastPair (at self.old.entries) key value × IsAmongOthers key self.old.entries) }
        ensures err { OnErr result (IsRefused self.old self.new) }
    {
        self.in_hand();
        let popped = self.table.pop_last()?;
        Ok(popped)
    }

    /// Keeps the keys below `key`, and returns the map of the others. Allocates. If an allocation fails, the map is unchanged.
    /// O(log n) for n entries, and O(1) for each entry of the smaller part.
    ///
    /// ```
    /// map.split_off(12)?; // (12..=14, 'a'), (15..=15, 'b'), (30..=39, 'c')
    /// map; // (10..=11, 'a')
    /// ```
    pub fn split_off(&mut self, key: T) -> Result<Self, AllocError>
        requires { ClonesAreAlike V.is_clone V.eq }
        ensures uncounted { IfOk result (λ from. (self.new
            ≡ record self.old { entries = self.new.entries })
            × (from ≡ uncounted from.entries)) }
        ensures ok { IfOk result (λ from. IsSplit V.eq T.low T.high (T.rank key) self.old.entries
            self.new.entries from.entries) }
        ensures err { OnErr result (self.new ≡ self.old) }
    {
        let table = self.table.split_at(key)?;
        Ok(RangeMapBlaze { table })
    }
}

impl<T: Integer, V: Eq + Drop> RangeMapBlaze<T, V> {
    /// Keeps the entries for which `f` returns true. It calls `f` once for each entry, ascending. Does not allocate. O(n) for n
    /// entries, and at most O(log n) more for each entry that is removed.
    ///
    /// ```
    /// map.ranges_retain(|range, value| *range.start() < 30 && *value != 'b');
    /// map; // (10..=14, 'a')
    /// ```
    pub fn ranges_retain<F: FnMut(&RangeInclusive<T>, &V) -> bool>(&mut self, f: F)
        requires { IsCallableAtEach T.rank F.FnMut f self.old.entries }
        ensures range_map { IsRangeMap V.eq T.low T.high self.new.entries }
        ensures kept { IsFiltered (AnswersAt T.rank F.FnMut) f self.old.entries self.new.entries }
        ensures uncounted { self.new ≡ record self.old { entries = self.new.entries } }
    {
        self.table.retain_entries(f);
    }
}

impl<T: Integer, V: Eq + Clone> RangeMapBlaze<T, V> {
    /// Keeps the keys for which `f` returns true. It calls `f` once for each key that has a value, ascending, with the stored
    /// value. Allocates. If an allocation fails, the map is unchanged. O(k) for k keys that have a value.
    ///
    /// ```
    /// map.retain(|key, value| *key < 12 || *value == 'b')?;
    /// map; // (10..=11, 'a'), (15..=15, 'b')
    /// ```
    pub fn retain<F: Fn(&T, &V) -> bool>(&mut self, f: F) -> Result<(), AllocError>
        requires callable { IsCallableAtPairs F.Fn f T.of_rank self.old.entries }
        requires clones { ClonesAreAlike V.is_clone V.eq }
        ensures ok { OnOk result
            (IsKeyRetained F.Fn f T.rank T.of_rank V.eq T.low T.high self.old.entries
            self.new.entries) }
        ensures uncounted { OnOk result (self.new
            ≡ record self.old { entries = self.new.entries }) }
        ensures err { OnErr result (self.new ≡ self.old) }
    {
        self.table.retain_keys(f)
    }
}
