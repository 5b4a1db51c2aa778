//! The complement of a set of keys.
ghost use Rattle.std.specs.Prelude.{◌≡◌, pos, ◌+ℤ◌, ◌++◌, IfOk, OnOk};
ghost use Rattle.blaze_entries.specs.Complement.{IsComplement};
ghost use Rattle.blaze_entries.specs.RangeSets.{shown_bare_ranges, unit_eq};
ghost use Rattle.blaze_streams.specs.Gaps.{gap_before, rank_or_end};

use crate::lists::canon::CanonIter;
use blaze_entries::SortedDisjoint;
use blaze_int::Integer;
use blaze_int::compare::is_below;
use std::alloc::{AllocError, Global};
use std::ops::RangeInclusive;

// Appends the keys from `next` to before `start`, as one range. If `next` is `None`, no keys follow.
fn push_none<T: Integer>(
    gaps: &mut Vec<RangeInclusive<T>>,
    next: Option<T>,
    start: T,
) -> Result<(), AllocError>
    ensures { OnOk result (shown_bare_ranges T.rank gaps.new.items
        ≡ shown_bare_ranges T.rank gaps.old.items ++ gap_before
        (rank_or_end T.rank T.high next) (T.rank start)) }
{
    start.in_hand();
    if let Some(first) = next {
        if is_below(first, start) {
            first.in_hand();
            gaps.push(first..=start.sub_one())?;
        }
    }
    Ok(())
}

// Appends the keys from `next` on, as one range. If `next` is `None`, no keys follow.
fn push_last<T: Integer>(
    gaps: &mut Vec<RangeInclusive<T>>,
    next: Option<T>,
) -> Result<(), AllocError>
    ensures { OnOk result (shown_bare_ranges T.rank gaps.new.items
        ≡ shown_bare_ranges T.rank gaps.old.items ++ gap_before (rank_or_end T.rank T.high next)
        (T.high +ℤ pos 1)) }
{
    if let Some(first) = next {
        first.in_hand();
        gaps.push(first..=T::max_value())?;
    }
    Ok(())
}

/// Returns the ranges of the keys that are not in the set, ascending. If an allocation fails, the set is dropped. O(n)
/// time and memory with n ranges.
pub fn complement<T: Integer, S: SortedDisjoint<T>>(
    alloc: Global,
    set: S,
) -> Result<CanonIter<T>, AllocError>
    ensures { IfOk result (λ stream. IsComplement unit_eq T.low T.high tt (S.left set) stream) }
{
    set.in_hand();
    let mut gaps = Vec::new(alloc);
    let mut next = Some(T::min_value());
    for range in set {
        let (start, end) = range.into_inner();
        push_none(&mut gaps, next, start)?;
        next = end.checked_add_one();
    }
    push_last(&mut gaps, next)?;
    Ok(CanonIter::new(gaps))
}
