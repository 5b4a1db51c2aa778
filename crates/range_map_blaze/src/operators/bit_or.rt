//! `left | right`: the keys of both maps, with the value of `right` where both have one. If an allocation fails, what is borrowed
//! is unchanged and what is owned is dropped.
ghost use Rattle.std.specs.Prelude.{IfOk};
ghost use Rattle.blaze_entries.specs.Painted.{ClonesAreAlike};
ghost use Rattle.range_map_blaze.specs.Union.{IsUnion};
ghost use Rattle.range_map_blaze.specs.Made.{IsMade};

use crate::map::RangeMapBlaze;
use crate::operators::union::{union, union_owned, union_under, union_with};
use blaze_int::Integer;
use std::alloc::AllocError;
use std::ops::BitOr;

/// `left | right` is the union: the keys of both maps, with the value of `right` where both have one. Each operand may be owned
/// or borrowed. Allocates. If an allocation fails, what is borrowed is unchanged and what is owned is dropped.
///
/// O(n + m) for n and m entries. If one map has m entries, at most 1/16 of the n of the other, and they cover c of those: O((m +
/// c) log n). The larger map is then edited in place if it is owned, and cloned first if it is borrowed. Once n / 8 entries were
/// removed, the others are merged in O(n + m).
///
/// ```
/// (&map | &other)?; // (10..=11, 'a'), (12..=15, 'b'), (30..=39, 'c')
/// (other | map)?; // (10..=14, 'a'), (15..=15, 'b'), (30..=39, 'c')
/// ```
impl<T: Integer, V: Eq + Clone> BitOr for RangeMapBlaze<T, V> {
    type Output = Result<RangeMapBlaze<T, V>, AllocError>;

    ghost can_bitor = { λ _ _. ClonesAreAlike V.is_clone V.eq };

    ghost bitor_gives = { λ left right result. IfOk result
        (IsMade (IsUnion V.eq T.low T.high left.entries right.entries)) };

    fn bitor(self, right: RangeMapBlaze<T, V>) -> Result<RangeMapBlaze<T, V>, AllocError> {
        Ok(union_owned(self, right)?.uncounted())
    }
}

/// `left | &right` is the union: the keys of both maps, with the value of `right` where both have one. Allocates. If an
/// allocation fails, `right` is unchanged and `left` is dropped. O(n + m) for n and m entries, or less, as for two owned maps.
///
/// ```
/// (map | &other)?; // (10..=11, 'a'), (12..=15, 'b'), (30..=39, 'c')
/// ```
impl<'b, T: Integer, V: Eq + Clone> BitOr<&'b RangeMapBlaze<T, V>> for RangeMapBlaze<T, V> {
    type Output = Result<RangeMapBlaze<T, V>, AllocError>;

    ghost can_bitor = { λ _ _. ClonesAreAlike V.is_clone V.eq };

    ghost bitor_gives = { λ left right result. IfOk result
        (IsMade (IsUnion V.eq T.low T.high left.entries right.now.entries)) };

    fn bitor(self, right: &'b RangeMapBlaze<T, V>) -> Result<RangeMapBlaze<T, V>, AllocError> {
        Ok(union_with(self, right)?.uncounted())
    }
}

/// `&left | right` is the union: the keys of both maps, with the value of `right` where both have one. Allocates. If an
/// allocation fails, `left` is unchanged and `right` is dropped. O(n + m) for n and m entries, or less, as for two owned maps.
///
/// ```
/// (&map | other)?; // (10..=11, 'a'), (12..=15, 'b'), (30..=39, 'c')
/// ```
impl<'a, T: Integer, V: Eq + Clone> BitOr<RangeMapBlaze<T, V>> for &'a RangeMapBlaze<T, V> {
    type Output = Result<RangeMapBlaze<T, V>, AllocError>;

    ghost can_bitor = { λ _ _. ClonesAreAlike V.is_clone V.eq };

    ghost bitor_gives = { λ left right result. IfOk result
        (IsMade (IsUnion V.eq T.low T.high left.now.entries right.entries)) };

    fn bitor(self, right: RangeMapBlaze<T, V>) -> Result<RangeMapBlaze<T, V>, AllocError> {
        Ok(union_under(self, right)?.uncounted())
    }
}

/// `&left | &right` is the union: the keys of both maps, with the value of `right` where both have one. Allocates. If an
/// allocation fails, both are unchanged. O(n + m) for n and m entries, or less, as for two owned maps.
///
/// ```
/// (&map | &other)?; // (10..=11, 'a'), (12..=15, 'b'), (30..=39, 'c')
/// ```
impl<'a, 'b, T: Integer, V: Eq + Clone> BitOr<&'b RangeMapBlaze<T, V>> for &'a RangeMapBlaze<T, V> {
    type Output = Result<RangeMapBlaze<T, V>, AllocError>;

    ghost can_bitor = { λ _ _. ClonesAreAlike V.is_clone V.eq };

    ghost bitor_gives = { λ left right result. IfOk result
        (IsMade (IsUnion V.eq T.low T.high left.now.entries right.now.entries)) };

    fn bitor(self, right: &'b RangeMapBlaze<T, V>) -> Result<RangeMapBlaze<T, V>, AllocError> {
        Ok(union(self, right)?.uncounted())
    }
}
