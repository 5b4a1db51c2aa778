//! Relations between the keys of two maps, or of a map and a set. No call allocates.
ghost use Rattle.std.specs.Prelude.{◌↔◌, IsTrue};
ghost use Rattle.range_map_blaze.specs.Relations.{ShareNoKey, HasKeysOf};

use crate::map::RangeMapBlaze;
use blaze_int::Integer;
use blaze_int::compare::is_below;
use blaze_iters::SeekingRangeValuesIter;
use blaze_streams::Cursor;
use blaze_table::{RangeSetBlaze, RangeTable};

// Whether no key has a value in both tables. The cursor that lags skips the entries that end below the other's next key.
fn share_no_key<T: Integer, V: Eq + Clone, W: Eq + Clone>(
    left: &RangeTable<T, V>,
    right: &RangeTable<T, W>,
) -> bool
    ensures { IsTrue result ↔ ShareNoKey left.now.entries right.now.entries }
{
    let mut ours = Cursor::new(SeekingRangeValuesIter::new(left));
    let mut theirs = Cursor::new(SeekingRangeValuesIter::new(right));
    while let (Some(our), Some(their)) = (ours.range(), theirs.range()) {
        if is_below(our.end, their.start) {
            our.end.in_hand();
            ours.advance(their.start.sub_one());
        } else if is_below(their.end, our.start) {
            their.end.in_hand();
            theirs.advance(our.start.sub_one());
        } else {
            return false;
        }
    }
    true
}

// Whether each key that has a value in the right table has one in the left. Each cursor skips the entries that the other's next
// entry decides.
fn has_keys_of<T: Integer, V: Eq + Clone, W: Eq + Clone>(
    left: &RangeTable<T, V>,
    right: &RangeTable<T, W>,
) -> bool
    ensures { IsTrue result ↔ HasKeysOf left.now.entries right.now.entries }
{
    let mut ours = Cursor::new(SeekingRangeValuesIter::new(left));
    let mut theirs = Cursor::new(SeekingRangeValuesIter::new(right));
    while let Some(their) = theirs.range() {
        let Some(our) = ours.range() else {
            return false;
        };
        if is_below(their.start, our.start) {
            return false;
        }
        if is_below(our.end, their.start) {
            our.end.in_hand();
            ours.advance(their.start.sub_one());
        } else {
            theirs.advance(our.end);
        }
    }
    true
}

impl<T: Integer, V: Eq + Clone> RangeMapBlaze<T, V> {
    /// Returns whether no key has a value in both maps. Values are not compared, and may have different types.
    ///
    /// Does not allocate, and stops at the first key that both maps have. O(n log m) at most, for n entries in the smaller map
    /// and m in the larger one. The cursor that lags steps a few entries, then searches.
    ///
    /// ```
    /// map.is_disjoint(&other); // false
    /// ```
    pub fn is_disjoint<V2: Eq + Clone>(&self, other: &RangeMapBlaze<T, V2>) -> bool
        ensures { IsTrue result ↔ ShareNoKey self.now.entries other.now.entries }
    {
        share_no_key(&self.table, &other.table)
    }

    /// Returns whether no key of the set `keys` has a value in this map.
    ///
    /// Does not allocate, and stops at the first key that both have. O(n log m) at most, for n the smaller of the numbers of
    /// entries and ranges, and m the larger one.
    ///
    /// ```
    /// let keys = RangeSetBlaze::from_ranges(alloc, [0..=9, 20..=29])?;
    /// map.is_disjoint_from_set(&keys); // true
    /// ```
    pub fn is_disjoint_from_set(&self, keys: &RangeSetBlaze<T>) -> bool
        ensures { IsTrue result ↔ ShareNoKey self.now.entries keys.now }
    {
        share_no_key(&self.table, keys.as_table())
    }

    /// Returns whether every key that has a value in `other` has one in this map. Every map covers an empty `other`. Values are
    /// not compared, and may have different types. One entry of `other` may span several entries of this map that touch.
    ///
    /// Does not allocate, and stops at the first key of `other` that has no value here. O(n log m) at most, for n entries in the
    /// smaller map and m in the larger one. The cursor that lags steps a few entries, then searches.
    ///
    /// ```
    /// map.covers(&other); // true
    /// other.covers(&map); // false
    /// ```
    pub fn covers<V2: Eq + Clone>(&self, other: &RangeMapBlaze<T, V2>) -> bool
        ensures { IsTrue result ↔ HasKeysOf self.now.entries other.now.entries }
    {
        has_keys_of(&self.table, &other.table)
    }

    /// Returns whether every key of the set `keys` has a value in this map. Every map covers the empty set.
    ///
    /// Does not allocate, and stops at the first key of the set that has no value here. O(n log m) at most, for n the smaller of
    /// the numbers of entries and ranges, and m the larger one.
    ///
    /// ```
    /// let keys = RangeSetBlaze::from_ranges(alloc, [12..=15])?;
    /// map.covers_set(&keys); // true
    /// ```
    pub fn covers_set(&self, keys: &RangeSetBlaze<T>) -> bool
        ensures { IsTrue result ↔ HasKeysOf self.now.entries keys.now }
    {
        has_keys_of(&self.table, keys.as_table())
    }
}
