//! `left ^ right`: the keys that have a value in exactly one of the two maps. If an allocation fails, what is borrowed is
//! unchanged and what is owned is dropped.
ghost use Rattle.std.specs.Option.{option_xor};
ghost use Rattle.std.specs.Prelude.{IfOk};
ghost use Rattle.blaze_entries.specs.Chosen.{IsChosen};
ghost use Rattle.blaze_entries.specs.Painted.{ClonesAreAlike};
ghost use Rattle.range_map_blaze.specs.Made.{IsMade};

use crate::map::RangeMapBlaze;
use crate::operators::exactly_one::{
    symmetric_difference, symmetric_difference_owned, symmetric_difference_under,
    symmetric_difference_with,
};
use blaze_int::Integer;
use std::alloc::AllocError;
use std::ops::BitXor;

/// `left ^ right` is the symmetric difference: the keys that have a value in exactly one of the maps, with that value. Each
/// operand may be owned or borrowed. Allocates. If an allocation fails, what is borrowed is unchanged and what is owned is
/// dropped.
///
/// O(n + m) for n and m entries. If one map has m entries, at most 1/16 of the n of the other, and they cover c of those: O((m +
/// c) log n). The larger map is then edited in place if it is owned, and cloned first if it is borrowed. Once n / 8 entries were
/// removed, the others are merged in O(n + m).
///
/// ```
/// let blocks = RangeMapBlaze::from_ranges(alloc, [(13..=17, 'd')])?;
/// (map ^ blocks)?; // (10..=12, 'a'), (16..=17, 'd'), (30..=39, 'c')
/// ```
impl<T: Integer, V: Eq + Clone> BitXor for RangeMapBlaze<T, V> {
    type Output = Result<RangeMapBlaze<T, V>, AllocError>;

    ghost can_bitxor = { λ _ _. ClonesAreAlike V.is_clone V.eq };

    ghost bitxor_gives = { λ left right result. IfOk result
        (IsMade (IsChosen V.eq T.low T.high option_xor left.entries right.entries)) };

    fn bitxor(self, right: RangeMapBlaze<T, V>) -> Result<RangeMapBlaze<T, V>, AllocError> {
        Ok(symmetric_difference_owned(self, right)?.uncounted())
    }
}

/// `left ^ &right` is the symmetric difference: the keys that have a value in exactly one of the maps, with that value.
/// Allocates. If an allocation fails, `right` is unchanged and `left` is dropped. O(n + m) for n and m entries, or less, as for
/// two owned maps.
///
/// ```
/// (map ^ &other)?; // (10..=11, 'a'), (30..=39, 'c')
/// ```
impl<'b, T: Integer, V: Eq + Clone> BitXor<&'b RangeMapBlaze<T, V>> for RangeMapBlaze<T, V> {
    type Output = Result<RangeMapBlaze<T, V>, AllocError>;

    ghost can_bitxor = { λ _ _. ClonesAreAlike V.is_clone V.eq };

    ghost bitxor_gives = { λ left right result. IfOk result
        (IsMade (IsChosen V.eq T.low T.high option_xor left.entries right.now.entries)) };

    fn bitxor(self, right: &'b RangeMapBlaze<T, V>) -> Result<RangeMapBlaze<T, V>, AllocError> {
        Ok(symmetric_difference_with(self, right)?.uncounted())
    }
}

/// `&left ^ right` is the symmetric difference: the keys that have a value in exactly one of the maps, with that value.
/// Allocates. If an allocation fails, `left` is unchanged and `right` is dropped. O(n + m) for n and m entries, or less, as for
/// two owned maps.
///
/// ```
/// (&map ^ other)?; // (10..=11, 'a'), (30..=39, 'c')
/// ```
impl<'a, T: Integer, V: Eq + Clone> BitXor<RangeMapBlaze<T, V>> for &'a RangeMapBlaze<T, V> {
    type Output = Result<RangeMapBlaze<T, V>, AllocError>;

    ghost can_bitxor = { λ _ _. ClonesAreAlike V.is_clone V.eq };

    ghost bitxor_gives = { λ left right result. IfOk result
        (IsMade (IsChosen V.eq T.low T.high option_xor left.now.entries right.entries)) };

    fn bitxor(self, right: RangeMapBlaze<T, V>) -> Result<RangeMapBlaze<T, V>, AllocError> {
        Ok(symmetric_difference_under(self, right)?.uncounted())
    }
}

/// `&left ^ &right` is the symmetric difference: the keys that have a value in exactly one of the maps, with that value.
/// Allocates. If an allocation fails, both are unchanged. O(n + m) for n and m entries, or less, as for two owned maps.
///
/// ```
/// (&map ^ &other)?; // (10..=11, 'a'), (30..=39, 'c')
/// ```
impl<'a, 'b, T: Integer, V: Eq + Clone> BitXor<&'b RangeMapBlaze<T, V>>
    for &'a RangeMapBlaze<T, V> {
    type Output = Result<RangeMapBlaze<T, V>, AllocError>;

    ghost can_bitxor = { λ _ _. ClonesAreAlike V.is_clone V.eq };

    ghost bitxor_gives = { λ left right result. IfOk result
        (IsMade (IsChosen V.eq T.low T.high option_xor left.now.entries right.now.entries)) };

    fn bitxor(self, right: &'b RangeMapBlaze<T, V>) -> Result<RangeMapBlaze<T, V>, AllocError> {
        Ok(symmetric_difference(self, right)?.uncounted())
    }
}
