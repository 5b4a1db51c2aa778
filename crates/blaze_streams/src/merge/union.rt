//! Merges of two streams: the union, the symmetric difference and the intersection.
ghost use Rattle.std.specs.Option.{option_xor};
ghost use Rattle.std.specs.Prelude.{IfOk};
ghost use Rattle.blaze_entries.specs.Chosen.{right_first, left_with_right, IsChosen};

use crate::carrier::ValueCarrier;
use crate::lists::canon_map::CanonMapIter;
use crate::merge::choice::{ExactlyOne, LeftWithRight, RightFirst};
use crate::merge::chosen::chosen_of;
use crate::sorted_disjoint_map::SortedDisjointMap;
use blaze_int::Integer;
use std::alloc::{AllocError, Global};

/// Returns the union of two streams. Where both have a value, the right one is chosen. A value is cloned (`carry` at
/// `Owned`) only for a piece that ends before its range does. If an allocation or a clone fails, both streams are
/// dropped. O(n + m) with n and m ranges, where each call of a stream counts as O(1).
pub fn union_of<
    T: Integer,
    VC: ValueCarrier,
    L: SortedDisjointMap<T, VC>,
    R: SortedDisjointMap<T, VC>,
>(alloc: Global, left: L, right: R) -> Result<CanonMapIter<T, VC>, AllocError>
    requires { VC.can_carry }
    ensures { IfOk result (λ stream. IsChosen VC.Value.eq T.low T.high right_first (L.left left)
        (R.left right) stream) }
{
    chosen_of(alloc, left, right, &RightFirst)
}

/// Returns the keys that exactly one of two streams has, with their values. A value is cloned (`carry` at `Owned`) only
/// for a piece that ends before its range does. If an allocation or a clone fails, both streams are dropped. O(n + m)
/// with n and m ranges, where each call of a stream counts as O(1).
pub fn symmetric_difference_of<
    T: Integer,
    VC: ValueCarrier,
    L: SortedDisjointMap<T, VC>,
    R: SortedDisjointMap<T, VC>,
>(alloc: Global, left: L, right: R) -> Result<CanonMapIter<T, VC>, AllocError>
    requires { VC.can_carry }
    ensures { IfOk result (λ stream. IsChosen VC.Value.eq T.low T.high option_xor (L.left left)
        (R.left right) stream) }
{
    chosen_of(alloc, left, right, &ExactlyOne)
}

/// Returns the keys that both streams have, with the left stream's values. A value is cloned (`carry` at `Owned`) only
/// for a piece that ends before its range does. If an allocation or a clone fails, both streams are dropped. O(n + m)
/// with n and m ranges, where each call of a stream counts as O(1).
pub fn intersection_of<
    T: Integer,
    VCL: ValueCarrier,
    VCR: ValueCarrier,
    L: SortedDisjointMap<T, VCL>,
    R: SortedDisjointMap<T, VCR>,
>(alloc: Global, left: L, right: R) -> Result<CanonMapIter<T, VCL>, AllocError>
    requires { VCL.can_carry }
    ensures { IfOk result (λ stream. IsChosen VCL.Value.eq T.low T.high left_with_right
        (L.left left) (R.left right) stream) }
{
    chosen_of(alloc, left, right, &LeftWithRight)
}
