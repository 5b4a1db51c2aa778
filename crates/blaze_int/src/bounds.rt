//! The least and the greatest key that the bounds of a range name.
ghost use Rattle.std.specs.Prelude.{◌≡◌, ◌↔◌, ◌≤ℤ◌, ◌<ℤ◌, ℤ, IsTrue, MatchOption, IfSome};
ghost use Rattle.std.specs.Range.Bound.{bound_map};
ghost use Rattle.blaze_int.specs.Bounds.{start_rank, end_rank, IsNamed, AreEndsOf, AreAtRanks};

use crate::compare::is_at_most;
use crate::integer::Integer;
use std::ops::{Bound, RangeBounds};

/// Returns the least and the greatest key that the bounds of a range name, or `None` if they name no key. O(1).
///
/// An unbounded start is the least key of the type, and an unbounded end is the greatest. An excluded start at the
/// greatest key names no key, nor does an excluded end at the least key. Only the start and the end of the range are
/// read.
///
/// The contract says which keys these are for each range of `std`, except for a `RangeInclusive` that was iterated to
/// its end. `std` reads that end as excluded, so such a range names no key.
pub fn bounds_of<T: Integer, R: RangeBounds<T>>(r: &R) -> Option<(T, T)>
    // A custom range type without `has_bounds` still yields no reversed pair.
    ensures order { IfSome result (λ p. T.rank p.0 ≤ℤ T.rank p.1) }

    ensures ends { R.has_bounds r.now
        → AreEndsOf T.rank T.low T.high (R.start_bound r.now) (R.end_bound r.now) result }
    ensures ranks { R.has_bounds r.now
        → AreAtRanks T.rank T.low T.high (R.start_bound r.now) (R.end_bound r.now) result }
{
    ends_of(copied(r.start_bound()), copied(r.end_bound()))
}

/// Returns whether the bounds of a range name a key: `true` exactly if `bounds_of` returns `Some`. O(1).
pub fn names_a_key<T: Integer, R: RangeBounds<T>>(r: &R) -> bool
    ensures named { R.has_bounds r.now
        → IsTrue result
        ↔ ((z : ℤ) × IsNamed T.rank T.low T.high (R.start_bound r.now) (R.end_bound r.now) z) }
    ensures ranks { R.has_bounds r.now
        → IsTrue result
        ↔ (start_rank T.rank T.low (R.start_bound r.now) ≤ℤ end_rank T.rank T.high
        (R.end_bound r.now)) }
{
    bounds_of(r).is_some()
}

/// Returns the least and the greatest key that two bounds name, or `None` if they name no key. O(1).
pub fn ends_of<T: Integer>(start: Bound<T>, end: Bound<T>) -> Option<(T, T)>
    ensures ends { AreEndsOf T.rank T.low T.high start end result }
    ensures ranks { AreAtRanks T.rank T.low T.high start end result }
{
    let first = first_from(start);
    let last = last_up_to(end);
    let (first, last) = (first?, last?);
    if is_at_most(first, last) {
        Some((first, last))
    } else {
        None
    }
}

/// Returns the least key from `start` on, or `None` if no key follows.
fn first_from<T: Integer>(start: Bound<T>) -> Option<T>
    ensures low { T.low ≤ℤ start_rank T.rank T.low start }
    ensures first { MatchOption result (T.high <ℤ start_rank T.rank T.low start)
        (λ k. T.rank k ≡ start_rank T.rank T.low start) }
{
    match start {
        Bound::Included(key) => {
            key.in_hand();
            Some(key)
        }
        Bound::Excluded(key) => {
            key.in_hand();
            key.checked_add_one()
        }
        Bound::Unbounded => Some(T::min_value()),
    }
}

/// Returns the greatest key up to `end`, or `None` if no key precedes.
fn last_up_to<T: Integer>(end: Bound<T>) -> Option<T>
    ensures high { end_rank T.rank T.high end ≤ℤ T.high }
    ensures last { MatchOption result (end_rank T.rank T.high end <ℤ T.low)
        (λ k. T.rank k ≡ end_rank T.rank T.high end) }
{
    match end {
        Bound::Included(key) => {
            key.in_hand();
            Some(key)
        }
        Bound::Excluded(key) => {
            let least = T::min_value();
            key.in_hand();
            least.in_hand();
            if key == least {
                None
            } else {
                Some(key.sub_one())
            }
        }
        Bound::Unbounded => Some(T::max_value()),
    }
}

/// Copies the key out of a borrowed bound.
fn copied<T: Copy>(bound: Bound<&T>) -> Bound<T>
    ensures { result ≡ bound_map (λ x. x.now) bound.entry }
{
    match bound {
        Bound::Included(key) => Bound::Included(*key),
        Bound::Excluded(key) => Bound::Excluded(*key),
        Bound::Unbounded => Bound::Unbounded,
    }
}
