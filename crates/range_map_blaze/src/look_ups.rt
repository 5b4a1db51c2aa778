//! Lookups by key, of the entries and gaps around a key, and of the first and last key.
ghost use Rattle.std.specs.Option.{option_copied};
ghost use Rattle.std.specs.Prelude.{◌≡◌, ◌↔◌, ℤ, pos, ◌-ℤ◌, ◌≤ℤ◌, ◌<ℤ◌, [], IsTrue, IsSome};
ghost use Rattle.std.specs.Prelude.{Some, None, MatchOption};
ghost use Rattle.std.specs.Prelude.{IfSome, option_map, ◌+ℤ◌, find, int_le};
ghost use Rattle.std.specs.Range.{range_inclusive_start, range_inclusive_end};
ghost use Rattle.blaze_entries.specs.Starts.{last_below};
ghost use Rattle.blaze_streams.specs.Ranges.{shown_range};
ghost use Rattle.blaze_entries.specs.Entries.{at, entry, entry_at, shown_entry};
ghost use Rattle.blaze_entries.specs.Run.{IsRun};
ghost use Rattle.blaze_table.specs.Gap.{IsGap};
ghost use Rattle.blaze_entries.specs.Whole.{IsWhole};
ghost use Rattle.range_map_blaze.specs.Pairs.{IsFirstPair, IsLastPair};

use crate::map::RangeMapBlaze;
use blaze_int::Integer;
use std::ops::{Index, RangeInclusive};

impl<T: Integer, V: Eq> RangeMapBlaze<T, V> {
    /// Returns the value at `key`, or `None`. Does not allocate. O(log n) for n entries.
    ///
    /// ```
    /// map.get(12); // Some('a')
    /// map.get(20); // None
    /// ```
    pub fn get(&self, key: T) -> Option<&V>
        ensures { option_copied result ≡ at self.now.entries (T.rank key) }
    {
        match self.table.find(key) {
            Some((_, _, value)) => Some(value),
            None => None,
        }
    }

    /// Returns `key` and its value, or `None` if the key has no value. Does not allocate. O(log n) for n entries.
    ///
    /// ```
    /// map.get_key_value(12); // Some((12, 'a'))
    /// ```
    pub fn get_key_value(&self, key: T) -> Option<(T, &V)>
        ensures { MatchOption result (at self.now.entries (T.rank key)
            ≡ None) (λ pair. (pair.0 ≡ key)
            × (at self.now.entries (T.rank key) ≡ Some pair.1.now)) }
    {
        match self.get(key) {
            Some(value) => Some((key, value)),
            None => None,
        }
    }

    /// Returns whether `key` has a value. Does not allocate. O(log n) for n entries.
    ///
    /// ```
    /// map.contains_key(12); // true
    /// map.contains_key(20); // false
    /// ```
    pub fn contains_key(&self, key: T) -> bool
        ensures { IsTrue result ↔ IsSome (at self.now.entries (T.rank key)) }
    {
        self.get(key).is_some()
    }

    /// Returns the entry that contains `key`: its range and its value. Returns `None` if the key has no value. Does not allocate.
    /// O(log n) for n entries.
    ///
    /// ```
    /// map.range_at(12); // Some((10..=14, 'a'))
    /// map.range_at(20); // None
    /// ```
    pub fn range_at(&self, key: T) -> Option<(RangeInclusive<T>, &V)>
        ensures entry { option_map (shown_range T.rank (λ v. v.now)) result
            ≡ entry_at self.now.entries (T.rank key) }
        ensures whole { IfSome result (λ pair. IsWhole pair.0) }
        ensures holds { IfSome result (λ pair. (T.rank (range_inclusive_start pair.0) ≤ℤ T.rank key)
            × (T.rank key ≤ℤ T.rank (range_inclusive_end pair.0))) }
        ensures run { IfSome result (λ pair. IsRun V.eq (at self.now.entries)
            (T.rank (range_inclusive_start pair.0)) (T.rank (range_inclusive_end pair.0)) pair.1.now) }
        ensures none { result ≡ None → at self.now.entries (T.rank key) ≡ None }
    {
        self.in_hand();
        range_of(self.table.find(key))
    }

    /// Returns the first entry that ends at `key` or above it: its range and its value. Does not allocate. O(log n) for n
    /// entries: one search if the key has a value, and otherwise two.
    ///
    /// ```
    /// map.range_at_or_above(20); // Some((30..=39, 'c'))
    /// map.range_at_or_above(40); // None
    /// ```
    pub fn range_at_or_above(&self, key: T) -> Option<(RangeInclusive<T>, &V)>
        ensures entry { option_map (shown_range T.rank (λ v. v.now)) result
            ≡ find (λ e. int_le (T.rank key) e.hi) self.now.entries }
        ensures whole { IfSome result (λ pair. IsWhole pair.0) }
        ensures run { IfSome result (λ pair. IsRun V.eq (at self.now.entries)
            (T.rank (range_inclusive_start pair.0)) (T.rank (range_inclusive_end pair.0)) pair.1.now) }
        ensures reaches { IfSome result
            (λ pair. T.rank key ≤ℤ T.rank (range_inclusive_end pair.0)) }
        ensures clear { IfSome result (λ pair. (k : ℤ) → T.rank key ≤ℤ k
            → k <ℤ T.rank (range_inclusive_start pair.0) → at self.now.entries k ≡ None) }
        ensures none { result ≡ None → (k : ℤ) → T.rank key ≤ℤ k → at self.now.entries k ≡ None }
    {
        self.in_hand();
        range_of(self.entry_at_or_above(key))
    }

    // The first entry that ends at `key` or above it: first key, last key and value. The table has two lookups for this: the
    // entry of a key, and the next one above.
    pub(crate) fn entry_at_or_above(&self, key: T) -> Option<(T, T, &V)>
        ensures { option_map (shown_entry T.rank (λ v. v.now)) result
            ≡ find (λ e. int_le (T.rank key) e.hi) self.now.entries }
    {
        self.in_hand();
        match self.table.find(key) {
            Some(found) => Some(found),
            None => self.table.next_above(key),
        }
    }

    /// Returns the last entry that starts at `key` or below it: its range and its value. Does not allocate. O(log n) for n
    /// entries: one search if the key has a value, and otherwise two.
    ///
    /// ```
    /// map.range_at_or_below(20); // Some((15..=15, 'b'))
    /// map.range_at_or_below(9); // None
    /// ```
    pub fn range_at_or_below(&self, key: T) -> Option<(RangeInclusive<T>, &V)>
        ensures entry { option_map (shown_range T.rank (λ v. v.now)) result
            ≡ last_below (T.rank key +ℤ pos 1) self.now.entries }
        ensures whole { IfSome result (λ pair. IsWhole pair.0) }
        ensures run { IfSome result (λ pair. IsRun V.eq (at self.now.entries)
            (T.rank (range_inclusive_start pair.0)) (T.rank (range_inclusive_end pair.0)) pair.1.now) }
        ensures reaches { IfSome result
            (λ pair. T.rank (range_inclusive_start pair.0) ≤ℤ T.rank key) }
        ensures clear { IfSome result (λ pair. (k : ℤ) → T.rank (range_inclusive_end pair.0) <ℤ k
            → k ≤ℤ T.rank key → at self.now.entries k ≡ None) }
        ensures none { result ≡ None → (k : ℤ) → k ≤ℤ T.rank key → at self.now.entries k ≡ None }
    {
        self.in_hand();
        range_of(self.entry_at_or_below(key))
    }

    // The last entry that starts at `key` or below it: first key, last key and value. The table has two lookups for this: the
    // entry of a key, and the next one below.
    fn entry_at_or_below(&self, key: T) -> Option<(T, T, &V)>
        ensures { option_map (shown_entry T.rank (λ v. v.now)) result
            ≡ last_below (T.rank key +ℤ pos 1) self.now.entries }
    {
        self.in_hand();
        match self.table.find(key) {
            Some(found) => Some(found),
            None => self.table.next_below(key),
        }
    }

    /// Returns the entry that contains `key`: its range and its value. If the key has no value, returns the longest range around
    /// it in which no key has a value, and `None`. In the empty map this range has every key of the key type. Does not allocate.
    /// O(log n) for n entries.
    ///
    /// ```
    /// map.range_or_gap_at(12); // (10..=14, Some('a'))
    /// map.range_or_gap_at(20); // (16..=29, None)
    /// ```
    pub fn range_or_gap_at(&self, key: T) -> (RangeInclusive<T>, Option<&V>)
        ensures entry { MatchOption result.1
            ((at self.now.entries (T.rank key) ≡ None)
            × IsGap T.low T.high (at self.now.entries) (T.rank key)
            (T.rank (range_inclusive_start result.0)) (T.rank (range_inclusive_end result.0)))
            (λ v. entry_at self.now.entries (T.rank key)
            ≡ Some (entry (T.rank (range_inclusive_start result.0))
            (T.rank (range_inclusive_end result.0)) v.now)) }
        ensures whole { IsWhole result.0 }
        ensures holds { (T.rank (range_inclusive_start result.0) ≤ℤ T.rank key)
            × (T.rank key ≤ℤ T.rank (range_inclusive_end result.0)) }
        ensures run { (k : ℤ) → T.rank (range_inclusive_start result.0) ≤ℤ k
            → k ≤ℤ T.rank (range_inclusive_end result.0)
            → at self.now.entries k ≡ option_copied result.1 }
        ensures below { result.1 ≡ None → T.low <ℤ T.rank (range_inclusive_start result.0)
            → IsSome (at self.now.entries (T.rank (range_inclusive_start result.0) -ℤ pos 1)) }
        ensures above { result.1 ≡ None → T.rank (range_inclusive_end result.0) <ℤ T.high
            → IsSome (at self.now.entries (T.rank (range_inclusive_end result.0) +ℤ pos 1)) }
    {
        self.in_hand();
        match self.table.find(key) {
            Some(entry) => {
                let (start, end, value) = entry;
                (start..=end, Some(value))
            }
            None => {
                let (start, end) = self.table.gap_round(key);
                (start..=end, None)
            }
        }
    }

    /// Returns the least key that has a value, and its value. Returns `None` for the empty map. Does not allocate. O(log n) for n
    /// entries.
    ///
    /// ```
    /// map.first_key_value(); // Some((10, 'a'))
    /// ```
    pub fn first_key_value(&self) -> Option<(T, &V)>
        ensures { MatchOption result (self.now.entries
            ≡ []) (λ pair. IsFirstPair (at self.now.entries) (T.rank pair.0) pair.1.now) }
    {
        self.in_hand();
        match self.table.first() {
            Some(entry) => {
                let (start, _, value) = entry;
                Some((start, value))
            }
            None => None,
        }
    }

    /// Returns the greatest key that has a value, and its value. Returns `None` for the empty map. Does not allocate. O(log n)
    /// for n entries.
    ///
    /// ```
    /// map.last_key_value(); // Some((39, 'c'))
    /// ```
    pub fn last_key_value(&self) -> Option<(T, &V)>
        ensures { MatchOption result (self.now.entries
            ≡ []) (λ pair. IsLastPair (at self.now.entries) (T.rank pair.0) pair.1.now) }
    {
        self.in_hand();
        match self.table.last() {
            Some(entry) => {
                let (_, end, value) = entry;
                Some((end, value))
            }
            None => None,
        }
    }
}

// Converts an entry of the table, its first key, last key and value, to a range and a value.
fn range_of<T: Integer, V>(found: Option<(T, T, &V)>) -> Option<(RangeInclusive<T>, &V)>
    ensures entry { option_map (shown_range T.rank (λ v. v.now)) result
        ≡ option_map (shown_entry T.rank (λ v. v.now)) found.entry }
    ensures whole { IfSome result (λ pair. IsWhole pair.0) }
{
    match found {
        Some((start, end, value)) => Some((start..=end, value)),
        None => None,
    }
}

/// `map[key]` is the value at `key`. It requires that the key has a value; `get` does not. Does not allocate. O(log n) for n
/// entries.
///
/// ```
/// map[12]; // 'a'
/// ```
impl<T: Integer, V: Eq> Index<T> for RangeMapBlaze<T, V> {
    type Output = V;

    ghost can_index = { λ m k. IsSome (at m.entries (T.rank k)) };

    ghost index_gives = { λ m k v. at m.entries (T.rank k) ≡ Some v };

    fn index(&self, key: T) -> &V {
        self.get(key).unwrap()
    }
}
