//! `left - right`: the keys of `left` that have no value in `right`, or are not in the set `right`. If an allocation fails, what
//! is borrowed is unchanged and what is owned is dropped.
ghost use Rattle.std.specs.Prelude.{IfOk};
ghost use Rattle.blaze_entries.specs.Chosen.{left_alone, IsChosen};
ghost use Rattle.blaze_entries.specs.Painted.{ClonesAreAlike};
ghost use Rattle.range_map_blaze.specs.Made.{IsMade};

use crate::map::RangeMapBlaze;
use crate::operators::by_keys::{outside_keys, outside_keys_owned};
use blaze_int::Integer;
use blaze_table::RangeSetBlaze;
use std::alloc::AllocError;
use std::ops::Sub;

/// `left - right` is the difference: the keys of `left` that have no value in `right`, with their values. Each operand may be
/// owned or borrowed. Allocates. If an allocation fails, what is borrowed is unchanged and what is owned is dropped.
///
/// O(n + m) for n entries of `left` and m of `right`. If m is at most n / 16, and they cover c entries of `left`: O((m + c) log
/// n). `left` is then edited in place if it is owned, and cloned first if it is borrowed. Once n / 8 entries were removed, the
/// others are merged in O(n + m). If n is far less than m: O(n log m), and O(1) for each entry of the result.
///
/// ```
/// (map - other)?; // (10..=11, 'a'), (30..=39, 'c')
/// ```
impl<T: Integer, V: Eq + Clone> Sub for RangeMapBlaze<T, V> {
    type Output = Result<RangeMapBlaze<T, V>, AllocError>;

    ghost can_sub = { λ _ _. ClonesAreAlike V.is_clone V.eq };

    ghost sub_gives = { λ left right result. IfOk result
        (IsMade (IsChosen V.eq T.low T.high left_alone left.entries right.entries)) };

    fn sub(self, right: RangeMapBlaze<T, V>) -> Result<RangeMapBlaze<T, V>, AllocError> {
        Ok(outside_keys_owned(self, &right.table)?.uncounted())
    }
}

/// `left - &right` is the difference: the keys of `left` that have no value in `right`, with their values. Allocates. If an
/// allocation fails, `right` is unchanged and `left` is dropped. O(n + m) for n and m entries, or less, as for two owned maps.
///
/// ```
/// (map - &other)?; // (10..=11, 'a'), (30..=39, 'c')
/// ```
impl<'b, T: Integer, V: Eq + Clone> Sub<&'b RangeMapBlaze<T, V>> for RangeMapBlaze<T, V> {
    type Output = Result<RangeMapBlaze<T, V>, AllocError>;

    ghost can_sub = { λ _ _. ClonesAreAlike V.is_clone V.eq };

    ghost sub_gives = { λ left right result. IfOk result
        (IsMade (IsChosen V.eq T.low T.high left_alone left.entries right.now.entries)) };

    fn sub(self, right: &'b RangeMapBlaze<T, V>) -> Result<RangeMapBlaze<T, V>, AllocError> {
        Ok(outside_keys_owned(self, &right.table)?.uncounted())
    }
}

/// `&left - right` is the difference: the keys of `left` that have no value in `right`, with their values. Allocates. If an
/// allocation fails, `left` is unchanged and `right` is dropped. O(n + m) for n and m entries, or less, as for two owned maps.
///
/// ```
/// (&map - other)?; // (10..=11, 'a'), (30..=39, 'c')
/// ```
impl<'a, T: Integer, V: Eq + Clone> Sub<RangeMapBlaze<T, V>> for &'a RangeMapBlaze<T, V> {
    type Output = Result<RangeMapBlaze<T, V>, AllocError>;

    ghost can_sub = { λ _ _. ClonesAreAlike V.is_clone V.eq };

    ghost sub_gives = { λ left right result. IfOk result
        (IsMade (IsChosen V.eq T.low T.high left_alone left.now.entries right.entries)) };

    fn sub(self, right: RangeMapBlaze<T, V>) -> Result<RangeMapBlaze<T, V>, AllocError> {
        Ok(outside_keys(self, &right.table)?.uncounted())
    }
}

/// `&left - &right` is the difference: the keys of `left` that have no value in `right`, with their values. Allocates. If an
/// allocation fails, both are unchanged. O(n + m) for n and m entries, or less, as for two owned maps.
///
/// ```
/// (&map - &other)?; // (10..=11, 'a'), (30..=39, 'c')
/// ```
impl<'a, 'b, T: Integer, V: Eq + Clone> Sub<&'b RangeMapBlaze<T, V>> for &'a RangeMapBlaze<T, V> {
    type Output = Result<RangeMapBlaze<T, V>, AllocError>;

    ghost can_sub = { λ _ _. ClonesAreAlike V.is_clone V.eq };

    ghost sub_gives = { λ left right result. IfOk result
        (IsMade (IsChosen V.eq T.low T.high left_alone left.now.entries right.now.entries)) };

    fn sub(self, right: &'b RangeMapBlaze<T, V>) -> Result<RangeMapBlaze<T, V>, AllocError> {
        Ok(outside_keys(self, &right.table)?.uncounted())
    }
}

/// `map - keys` has the keys of the map that are not in the set, with their values. Each operand may be owned or borrowed.
/// Allocates. If an allocation fails, what is borrowed is unchanged and what is owned is dropped.
///
/// O(n + m) for n entries and m ranges. If m is at most n / 16, and the ranges cover c entries: O((m + c) log n). The map is then
/// edited in place if it is owned, and cloned first if it is borrowed. Once n / 8 entries were removed, the others are merged in
/// O(n + m). If n is far less than m: O(n log m), and O(1) for each entry of the result.
///
/// ```
/// let keys = RangeSetBlaze::from_ranges(alloc, [0..=11, 20..=31])?;
/// (map - keys)?; // (12..=14, 'a'), (15..=15, 'b'), (32..=39, 'c')
/// ```
impl<T: Integer, V: Eq + Clone> Sub<RangeSetBlaze<T>> for RangeMapBlaze<T, V> {
    type Output = Result<RangeMapBlaze<T, V>, AllocError>;

    ghost can_sub = { λ _ _. ClonesAreAlike V.is_clone V.eq };

    ghost sub_gives = { λ left right result. IfOk result
        (IsMade (IsChosen V.eq T.low T.high left_alone left.entries right)) };

    fn sub(self, right: RangeSetBlaze<T>) -> Result<RangeMapBlaze<T, V>, AllocError> {
        Ok(outside_keys_owned(self, right.as_table())?.uncounted())
    }
}

/// `map - &keys` has the keys of the map that are not in the set, with their values. Allocates. If an allocation fails, the set
/// is unchanged and the map is dropped. O(n + m) for n entries and m ranges, or less, as for an owned map and set.
///
/// ```
/// let keys = RangeSetBlaze::from_ranges(alloc, [0..=11, 20..=31])?;
/// (map - &keys)?; // (12..=14, 'a'), (15..=15, 'b'), (32..=39, 'c')
/// ```
impl<'b, T: Integer, V: Eq + Clone> Sub<&'b RangeSetBlaze<T>> for RangeMapBlaze<T, V> {
    type Output = Result<RangeMapBlaze<T, V>, AllocError>;

    ghost can_sub = { λ _ _. ClonesAreAlike V.is_clone V.eq };

    ghost sub_gives = { λ left right result. IfOk result
        (IsMade (IsChosen V.eq T.low T.high left_alone left.entries right.now)) };

    fn sub(self, right: &'b RangeSetBlaze<T>) -> Result<RangeMapBlaze<T, V>, AllocError> {
        Ok(outside_keys_owned(self, right.as_table())?.uncounted())
    }
}

/// `&map - keys` has the keys of the map that are not in the set, with their values. Allocates. If an allocation fails, the map
/// is unchanged and the set is dropped. O(n + m) for n entries and m ranges, or less, as for an owned map and set.
///
/// ```
/// let keys = RangeSetBlaze::from_ranges(alloc, [0..=11, 20..=31])?;
/// (&map - keys)?; // (12..=14, 'a'), (15..=15, 'b'), (32..=39, 'c')
/// ```
impl<'a, T: Integer, V: Eq + Clone> Sub<RangeSetBlaze<T>> for &'a RangeMapBlaze<T, V> {
    type Output = Result<RangeMapBlaze<T, V>, AllocError>;

    ghost can_sub = { λ _ _. ClonesAreAlike V.is_clone V.eq };

    ghost sub_gives = { λ left right result. IfOk result
        (IsMade (IsChosen V.eq T.low T.high left_alone left.now.entries right)) };

    fn sub(self, right: RangeSetBlaze<T>) -> Result<RangeMapBlaze<T, V>, AllocError> {
        Ok(outside_keys(self, right.as_table())?.uncounted())
    }
}

/// `&map - &keys` has the keys of the map that are not in the set, with their values. Allocates. If an allocation fails, both are
/// unchanged. O(n + m) for n entries and m ranges, or less, as for an owned map and set.
///
/// ```
/// let keys = RangeSetBlaze::from_ranges(alloc, [0..=11, 20..=31])?;
/// (&map - &keys)?; // (12..=14, 'a'), (15..=15, 'b'), (32..=39, 'c')
/// ```
impl<'a, 'b, T: Integer, V: Eq + Clone> Sub<&'b RangeSetBlaze<T>> for &'a RangeMapBlaze<T, V> {
    type Output = Result<RangeMapBlaze<T, V>, AllocError>;

    ghost can_sub = { λ _ _. ClonesAreAlike V.is_clone V.eq };

    ghost sub_gives = { λ left right result. IfOk result
        (IsMade (IsChosen V.eq T.low T.high left_alone left.now.entries right.now)) };

    fn sub(self, right: &'b RangeSetBlaze<T>) -> Result<RangeMapBlaze<T, V>, AllocError> {
        Ok(outside_keys(self, right.as_table())?.uncounted())
    }
}
