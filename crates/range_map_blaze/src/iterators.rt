//! Iterators over keys, values, ranges of keys and entries.
ghost use Rattle.std.specs.Prelude.{◌≡◌, map, IfOk};
ghost use Rattle.blaze_iters.specs.Left.{unopened, pairs_left, keys_left, values_left};
ghost use Rattle.blaze_iters.specs.KeyRanges.{AreKeyRanges};
ghost use Rattle.blaze_entries.specs.Pairs.{pair_list};

use crate::map::RangeMapBlaze;
use blaze_int::Integer;
use blaze_iters::{
    IntoIterMap, IntoKeys, IntoRangeValuesIter, IntoValues, IterMap, Keys, MapIntoRangesIter,
    MapRangesIter, RangeValuesIter, Values, into_ranges_of, ranges_of,
};
use std::alloc::AllocError;

impl<T: Integer, V: Eq + Clone> RangeMapBlaze<T, V> {
    /// Returns an iterator over the keys that have a value, ascending, from both ends: each key with a reference to its value.
    /// Neither the call nor the iterator allocates. The call is O(1), and each key is O(1).
    ///
    /// ```
    /// let mut pairs = map.iter();
    /// pairs.next(); // Some((10, 'a'))
    /// pairs.next_back(); // Some((39, 'c'))
    /// ```
    pub fn iter(&self) -> IterMap<T, &V, RangeValuesIter<'_, T, V>>
        ensures unopened { result ≡ unopened self.now.entries }
        ensures pairs { pairs_left T.of_rank (λ es. es) result
            ≡ pair_list T.of_rank self.now.entries }
    {
        IterMap::of_table(&self.table)
    }

    /// Returns an iterator over the keys that have a value, ascending, from both ends. Neither the call nor the iterator
    /// allocates. The call is O(1), and each key is O(1).
    ///
    /// ```
    /// let mut keys = map.keys();
    /// keys.next(); // Some(10)
    /// keys.next_back(); // Some(39)
    /// ```
    pub fn keys(&self) -> Keys<T, &V, RangeValuesIter<'_, T, V>>
        ensures unopened { result ≡ unopened self.now.entries }
        ensures keys { keys_left T.of_rank (λ es. es) result
            ≡ map (λ p. p.0) (pair_list T.of_rank self.now.entries) }
    {
        Keys::of_table(&self.table)
    }

    /// Returns an iterator over the values, in the order of their keys, from both ends. It gives a reference to a value once for
    /// each of its keys. Neither the call nor the iterator allocates. The call is O(1), and each key is O(1).
    ///
    /// ```
    /// let mut values = map.values();
    /// values.next(); // Some('a')
    /// values.next_back(); // Some('c')
    /// ```
    pub fn values(&self) -> Values<T, &V, RangeValuesIter<'_, T, V>>
        ensures unopened { result ≡ unopened self.now.entries }
        ensures values { values_left T.of_rank (λ es. es) result
            ≡ map (λ p. p.1) (pair_list T.of_rank self.now.entries) }
    {
        Values::of_table(&self.table)
    }
}

impl<T: Integer, V: Eq + Drop> RangeMapBlaze<T, V> {
    /// Returns an iterator over the keys that have a value, ascending, from both ends, and consumes the map. No value is cloned.
    /// Neither the call nor the iterator allocates. The call is O(1), and each key is O(1).
    ///
    /// ```
    /// let mut keys = map.into_keys();
    /// keys.next(); // Some(10)
    /// keys.next_back(); // Some(39)
    /// ```
    pub fn into_keys(self) -> IntoKeys<T, V>
        ensures unopened { result ≡ unopened self.entries }
        ensures keys { keys_left T.of_rank (λ es. es) result
            ≡ map (λ p. p.0) (pair_list T.of_rank self.entries) }
    {
        IntoKeys::new(self.table)
    }

    /// Returns an iterator over the values, in the order of their keys, from both ends, and consumes the map. Each key gives its
    /// value; the last key that an entry gives gets the stored value, and the others a clone.
    ///
    /// The call does not allocate. If a clone fails to allocate, the iterator gives that error and ends. The call is O(1), and
    /// each key is O(1) and a clone.
    ///
    /// ```
    /// let mut values = map.into_values();
    /// values.next(); // Some(Ok('a'))
    /// values.next_back(); // Some(Ok('c'))
    /// ```
    pub fn into_values(self) -> IntoValues<T, V>
        ensures unopened { result ≡ unopened self.entries }
        ensures values { values_left T.of_rank (λ es. es) result
            ≡ map (λ p. p.1) (pair_list T.of_rank self.entries) }
    {
        IntoValues::new(self.table)
    }
}

impl<'a, T: Integer, V: Eq + Clone> IntoIterator for &'a RangeMapBlaze<T, V> {
    type Item = (T, &'a V);

    type IntoIter = IterMap<T, &'a V, RangeValuesIter<'a, T, V>>;

    ghost into_iter_gives = { λ map iter. iter ≡ unopened map.now.entries };

    /// Returns an iterator over the keys that have a value, ascending, from both ends: each key with a reference to its value.
    /// Neither the call nor the iterator allocates. The call is O(1), and each key is O(1).
    ///
    /// ```
    /// let mut pairs = (&map).into_iter();
    /// pairs.next(); // Some((10, 'a'))
    /// ```
    fn into_iter(self) -> IterMap<T, &'a V, RangeValuesIter<'a, T, V>> {
        self.iter()
    }
}

impl<T: Integer, V: Eq + Clone> IntoIterator for RangeMapBlaze<T, V> {
    type Item = Result<(T, V), AllocError>;

    type IntoIter = IntoIterMap<T, V>;

    ghost into_iter_gives = { λ map iter. iter ≡ unopened map.entries };

    /// Returns an iterator over the keys that have a value, ascending, from both ends, and consumes the map. Each key comes with
    /// its value; the last key that an entry gives gets the stored value, and the others a clone.
    ///
    /// The call does not allocate. If a clone fails to allocate, the iterator gives that error and ends. The call is O(1), and
    /// each key is O(1) and a clone.
    ///
    /// ```
    /// let mut pairs = map.into_iter();
    /// pairs.next(); // Some(Ok((10, 'a')))
    /// ```
    fn into_iter(self) -> IntoIterMap<T, V> {
        IntoIterMap::new(self.table)
    }
}

impl<T: Integer, V: Eq> RangeMapBlaze<T, V> {
    /// Returns an iterator over the ranges of the keys that have a value, ascending, from both ends. Touching ranges are one
    /// range, whatever their values. Neither the call nor the iterator allocates. The call is O(1), and all ranges together are
    /// O(n) for n entries.
    ///
    /// ```
    /// let mut ranges = map.ranges();
    /// ranges.next(); // Some(10..=15)
    /// ranges.next(); // Some(30..=39)
    /// ```
    pub fn ranges(&self) -> MapRangesIter<'_, T, V>
        ensures { AreKeyRanges T.low T.high self.now.entries result }
    {
        ranges_of(&self.table)
    }
}

impl<T: Integer, V: Eq + Drop> RangeMapBlaze<T, V> {
    /// Returns an iterator over the ranges of the keys that have a value, ascending, from both ends, and consumes the map.
    /// Touching ranges are one range, whatever their values. Neither the call nor the iterator allocates. The call is O(1), and
    /// all ranges together are O(n) for n entries.
    ///
    /// ```
    /// let mut ranges = map.into_ranges();
    /// ranges.next_back(); // Some(30..=39)
    /// ranges.next_back(); // Some(10..=15)
    /// ```
    pub fn into_ranges(self) -> MapIntoRangesIter<T, V>
        ensures { AreKeyRanges T.low T.high self.entries result }
    {
        into_ranges_of(self.table)
    }

    /// Returns an iterator over the entries, ascending, from both ends, and consumes the map. Each range comes with its value in
    /// an `Rc`. The call allocates for all entries, and the iterator does not allocate. If an allocation fails, the map is
    /// dropped. O(n) for n entries.
    ///
    /// ```
    /// let mut entries = map.into_range_values()?;
    /// entries.next(); // Some((10..=14, 'a'))
    /// entries.next_back(); // Some((30..=39, 'c'))
    /// ```
    pub fn into_range_values(self) -> Result<IntoRangeValuesIter<T, V>, AllocError>
        ensures { IfOk result (λ iter. iter ≡ self.entries) }
    {
        IntoRangeValuesIter::new(self.allocator(), self.table)
    }
}
