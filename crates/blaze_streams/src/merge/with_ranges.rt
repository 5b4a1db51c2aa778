//! A stream of ranges with values, limited to the keys of a set or to all other keys.
ghost use Rattle.std.specs.Prelude.{IfOk};
ghost use Rattle.blaze_entries.specs.Chosen.{left_with_right, left_alone, IsChosen};

use crate::carrier::ValueCarrier;
use crate::lists::canon_map::CanonMapIter;
use crate::merge::choice::{LeftAlone, LeftWithRight};
use crate::merge::chosen::chosen_of;
use crate::merge::with_unit::WithUnit;
use crate::sorted_disjoint_map::SortedDisjointMap;
use blaze_entries::SortedDisjoint;
use blaze_int::Integer;
use std::alloc::{AllocError, Global};

/// Returns the keys of `map` that are in `set`, with their values. A value is cloned (`carry` at `Owned`) only for a
/// piece that ends before its range does. If an allocation or a clone fails, both streams are dropped. O(n + m) with n
/// and m ranges, where each call of a stream counts as O(1).
pub fn intersect_with_ranges<
    T: Integer,
    VC: ValueCarrier,
    M: SortedDisjointMap<T, VC>,
    S: SortedDisjoint<T>,
>(alloc: Global, map: M, set: S) -> Result<CanonMapIter<T, VC>, AllocError>
    requires { VC.can_carry }
    ensures { IfOk result (λ stream. IsChosen VC.Value.eq T.low T.high left_with_right (M.left map)
        (S.left set) stream) }
{
    let stream = chosen_of(alloc, map, WithUnit::new(set), &LeftWithRight)?;
    Ok(stream)
}

/// Returns the keys of `map` that are not in `set`, with their values. A value is cloned (`carry` at `Owned`) only for
/// a piece that ends before its range does. If an allocation or a clone fails, both streams are dropped. O(n + m) with
/// n and m ranges, where each call of a stream counts as O(1).
pub fn subtract_ranges<
    T: Integer,
    VC: ValueCarrier,
    M: SortedDisjointMap<T, VC>,
    S: SortedDisjoint<T>,
>(alloc: Global, map: M, set: S) -> Result<CanonMapIter<T, VC>, AllocError>
    requires { VC.can_carry }
    ensures { IfOk result (λ stream. IsChosen VC.Value.eq T.low T.high left_alone (M.left map)
        (S.left set) stream) }
{
    let stream = chosen_of(alloc, map, WithUnit::new(set), &LeftAlone)?;
    Ok(stream)
}
