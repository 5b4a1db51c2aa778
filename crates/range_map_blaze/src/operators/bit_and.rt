//! `left & right`: the keys that have a value in both maps, with the value of `right`. `map & keys`: the keys of the map that are
//! in the set. If an allocation fails, what is borrowed is unchanged and what is owned is dropped.
ghost use Rattle.std.specs.Prelude.{IfOk};
ghost use Rattle.blaze_entries.specs.Chosen.{left_with_right, IsChosen};
ghost use Rattle.blaze_entries.specs.Painted.{ClonesAreAlike};
ghost use Rattle.range_map_blaze.specs.Made.{IsMade};

use crate::map::RangeMapBlaze;
use crate::operators::by_keys::{within_keys, within_keys_owned};
use blaze_int::Integer;
use blaze_table::RangeSetBlaze;
use std::alloc::AllocError;
use std::ops::BitAnd;

/// `left & right` is the intersection: the keys that have a value in both maps, with the value of `right`. Each operand may be
/// owned or borrowed. Allocates. If an allocation fails, what is borrowed is unchanged and what is owned is dropped.
///
/// O(n + m) for n and m entries. If one map has k entries, far fewer than the n of the other: O(k log n), and O(1) for each entry
/// of the result. An owned `right` adds O(1) for each of its entries.
///
/// ```
/// (&map & &other)?; // (12..=15, 'b')
/// (other & map)?; // (12..=14, 'a'), (15..=15, 'b')
/// ```
impl<T: Integer, V: Eq + Clone> BitAnd for RangeMapBlaze<T, V> {
    type Output = Result<RangeMapBlaze<T, V>, AllocError>;

    ghost can_bitand = { λ _ _. ClonesAreAlike V.is_clone V.eq };

    ghost bitand_gives = { λ left right result. IfOk result
        (IsMade (IsChosen V.eq T.low T.high left_with_right right.entries left.entries)) };

    fn bitand(self, right: RangeMapBlaze<T, V>) -> Result<RangeMapBlaze<T, V>, AllocError> {
        Ok(within_keys_owned(right, &self.table)?.uncounted())
    }
}

/// `left & &right` is the intersection: the keys that have a value in both maps, with the value of `right`. Allocates. If an
/// allocation fails, `right` is unchanged and `left` is dropped. O(n + m) for n and m entries, or less, as for two owned maps.
///
/// ```
/// (map & &other)?; // (12..=15, 'b')
/// ```
impl<'b, T: Integer, V: Eq + Clone> BitAnd<&'b RangeMapBlaze<T, V>> for RangeMapBlaze<T, V> {
    type Output = Result<RangeMapBlaze<T, V>, AllocError>;

    ghost can_bitand = { λ _ _. ClonesAreAlike V.is_clone V.eq };

    ghost bitand_gives = { λ left right result. IfOk result
        (IsMade (IsChosen V.eq T.low T.high left_with_right right.now.entries left.entries)) };

    fn bitand(self, right: &'b RangeMapBlaze<T, V>) -> Result<RangeMapBlaze<T, V>, AllocError> {
        Ok(within_keys(right, &self.table)?.uncounted())
    }
}

/// `&left & right` is the intersection: the keys that have a value in both maps, with the value of `right`. Allocates. If an
/// allocation fails, `left` is unchanged and `right` is dropped. O(n + m) for n and m entries, or less, as for two owned maps.
///
/// ```
/// (&map & other)?; // (12..=15, 'b')
/// ```
impl<'a, T: Integer, V: Eq + Clone> BitAnd<RangeMapBlaze<T, V>> for &'a RangeMapBlaze<T, V> {
    type Output = Result<RangeMapBlaze<T, V>, AllocError>;

    ghost can_bitand = { λ _ _. ClonesAreAlike V.is_clone V.eq };

    ghost bitand_gives = { λ left right result. IfOk result
        (IsMade (IsChosen V.eq T.low T.high left_with_right right.entries left.now.entries)) };

    fn bitand(self, right: RangeMapBlaze<T, V>) -> Result<RangeMapBlaze<T, V>, AllocError> {
        Ok(within_keys_owned(right, &self.table)?.uncounted())
    }
}

/// `&left & &right` is the intersection: the keys that have a value in both maps, with the value of `right`. Allocates. If an
/// allocation fails, both are unchanged. O(n + m) for n and m entries, or less, as for two owned maps.
///
/// ```
/// (&map & &other)?; // (12..=15, 'b')
/// ```
impl<'a, 'b, T: Integer, V: Eq + Clone> BitAnd<&'b RangeMapBlaze<T, V>>
    for &'a RangeMapBlaze<T, V> {
    type Output = Result<RangeMapBlaze<T, V>, AllocError>;

    ghost can_bitand = { λ _ _. ClonesAreAlike V.is_clone V.eq };

    ghost bitand_gives = { λ left right result. IfOk result
        (IsMade (IsChosen V.eq T.low T.high left_with_right right.now.entries left.now.entries)) };

    fn bitand(self, right: &'b RangeMapBlaze<T, V>) -> Result<RangeMapBlaze<T, V>, AllocError> {
        Ok(within_keys(right, &self.table)?.uncounted())
    }
}

/// `map & keys` has the keys of the map that are in the set, with their values. Each operand may be owned or borrowed. Allocates.
/// If an allocation fails, what is borrowed is unchanged and what is owned is dropped.
///
/// O(n + m) for n entries and m ranges. If there are far fewer of one kind, k, than of the other, n: O(k log n), and O(1) for
/// each entry of the result. An owned map adds O(1) for each of its entries.
///
/// ```
/// let keys = RangeSetBlaze::from_ranges(alloc, [0..=11, 20..=31])?;
/// (map & keys)?; // (10..=11, 'a'), (30..=31, 'c')
/// ```
impl<T: Integer, V: Eq + Clone> BitAnd<RangeSetBlaze<T>> for RangeMapBlaze<T, V> {
    type Output = Result<RangeMapBlaze<T, V>, AllocError>;

    ghost can_bitand = { λ _ _. ClonesAreAlike V.is_clone V.eq };

    ghost bitand_gives = { λ left right result. IfOk result
        (IsMade (IsChosen V.eq T.low T.high left_with_right left.entries right)) };

    fn bitand(self, right: RangeSetBlaze<T>) -> Result<RangeMapBlaze<T, V>, AllocError> {
        Ok(within_keys_owned(self, right.as_table())?.uncounted())
    }
}

/// `map & &keys` has the keys of the map that are in the set, with their values. Allocates. If an allocation fails, the set is
/// unchanged and the map is dropped. O(n + m) for n entries and m ranges, or less, as for an owned map and set.
///
/// ```
/// let keys = RangeSetBlaze::from_ranges(alloc, [0..=11, 20..=31])?;
/// (map & &keys)?; // (10..=11, 'a'), (30..=31, 'c')
/// ```
impl<'b, T: Integer, V: Eq + Clone> BitAnd<&'b RangeSetBlaze<T>> for RangeMapBlaze<T, V> {
    type Output = Result<RangeMapBlaze<T, V>, AllocError>;

    ghost can_bitand = { λ _ _. ClonesAreAlike V.is_clone V.eq };

    ghost bitand_gives = { λ left right result. IfOk result
        (IsMade (IsChosen V.eq T.low T.high left_with_right left.entries right.now)) };

    fn bitand(self, right: &'b RangeSetBlaze<T>) -> Result<RangeMapBlaze<T, V>, AllocError> {
        Ok(within_keys_owned(self, right.as_table())?.uncounted())
    }
}

/// `&map & keys` has the keys of the map that are in the set, with their values. Allocates. If an allocation fails, the map is
/// unchanged and the set is dropped. O(n + m) for n entries and m ranges, or less, as for an owned map and set.
///
/// ```
/// let keys = RangeSetBlaze::from_ranges(alloc, [0..=11, 20..=31])?;
/// (&map & keys)?; // (10..=11, 'a'), (30..=31, 'c')
/// ```
impl<'a, T: Integer, V: Eq + Clone> BitAnd<RangeSetBlaze<T>> for &'a RangeMapBlaze<T, V> {
    type Output = Result<RangeMapBlaze<T, V>, AllocError>;

    ghost can_bitand = { λ _ _. ClonesAreAlike V.is_clone V.eq };

    ghost bitand_gives = { λ left right result. IfOk result
        (IsMade (IsChosen V.eq T.low T.high left_with_right left.now.entries right)) };

    fn bitand(self, right: RangeSetBlaze<T>) -> Result<RangeMapBlaze<T, V>, AllocError> {
        Ok(within_keys(self, right.as_table())?.uncounted())
    }
}

/// `&map & &keys` has the keys of the map that are in the set, with their values. Allocates. If an allocation fails, both are
/// unchanged. O(n + m) for n entries and m ranges, or less, as for an owned map and set.
///
/// ```
/// let keys = RangeSetBlaze::from_ranges(alloc, [0..=11, 20..=31])?;
/// (&map & &keys)?; // (10..=11, 'a'), (30..=31, 'c')
/// ```
impl<'a, 'b, T: Integer, V: Eq + Clone> BitAnd<&'b RangeSetBlaze<T>> for &'a RangeMapBlaze<T, V> {
    type Output = Result<RangeMapBlaze<T, V>, AllocError>;

    ghost can_bitand = { λ _ _. ClonesAreAlike V.is_clone V.eq };

    ghost bitand_gives = { λ left right result. IfOk result
        (IsMade (IsChosen V.eq T.low T.high left_with_right left.now.entries right.now)) };

    fn bitand(self, right: &'b RangeSetBlaze<T>) -> Result<RangeMapBlaze<T, V>, AllocError> {
        Ok(within_keys(self, right.as_table())?.uncounted())
    }
}
