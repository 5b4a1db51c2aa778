//! The values of a stream at every key of the type.
ghost use Rattle.std.specs.Prelude.{◌≡◌, pos, ◌+ℤ◌, ◌++◌, IfOk, OnOk};
ghost use Rattle.blaze_streams.specs.Carried.{shown_option};
ghost use Rattle.blaze_streams.specs.Fills.{none_before, IsFilledWithNone};
ghost use Rattle.blaze_streams.specs.Gaps.{rank_or_end};
ghost use Rattle.blaze_streams.specs.RangeLists.{shown_ranges};

use crate::carrier::ValueCarrier;
use crate::lists::canon_map::CanonMapIter;
use crate::sorted_disjoint_map::SortedDisjointMap;
use blaze_int::Integer;
use blaze_int::compare::is_below;
use std::alloc::{AllocError, Global};
use std::ops::RangeInclusive;

// Appends the keys from `next` to before `start`, as one range without a value. If `next` is `None`, no keys follow.
fn push_none<T: Integer, VC: ValueCarrier>(
    out: &mut Vec<(RangeInclusive<T>, Option<VC>)>,
    next: Option<T>,
    start: T,
) -> Result<(), AllocError>
    ensures { OnOk result (shown_ranges T.rank (shown_option VC.shown) out.new.items
        ≡ shown_ranges T.rank (shown_option VC.shown) out.old.items ++ none_before
        (rank_or_end T.rank T.high next) (T.rank start)) }
{
    start.in_hand();
    if let Some(first) = next {
        if is_below(first, start) {
            first.in_hand();
            out.push((first..=start.sub_one(), None))?;
        }
    }
    Ok(())
}

// Appends the keys from `next` on, as one range without a value. If `next` is `None`, no keys follow.
fn push_last<T: Integer, VC: ValueCarrier>(
    out: &mut Vec<(RangeInclusive<T>, Option<VC>)>,
    next: Option<T>,
) -> Result<(), AllocError>
    ensures { OnOk result (shown_ranges T.rank (shown_option VC.shown) out.new.items
        ≡ shown_ranges T.rank (shown_option VC.shown) out.old.items ++ none_before
        (rank_or_end T.rank T.high next) (T.high +ℤ pos 1)) }
{
    if let Some(first) = next {
        first.in_hand();
        out.push((first..=T::max_value(), None))?;
    }
    Ok(())
}

/// Returns a stream over every key of the type. It yields `Some` with the stream's own carrier where the stream has a
/// value, and `None` elsewhere. If an allocation fails, the stream is dropped. O(n) time and memory with n ranges.
pub fn fill<T: Integer, VC: ValueCarrier, S: SortedDisjointMap<T, VC>>(
    alloc: Global,
    stream: S,
) -> Result<CanonMapIter<T, Option<VC>>, AllocError>
    ensures { IfOk result (λ new. IsFilledWithNone VC.Value.eq T.low T.high (S.left stream) new) }
{
    stream.in_hand();
    let mut out = Vec::new(alloc);
    let mut next = Some(T::min_value());
    for item in stream {
        let (range, carrier) = item;
        let (start, end) = range.into_inner();
        push_none(&mut out, next, start)?;
        out.push((start..=end, Some(carrier)))?;
        next = end.checked_add_one();
    }
    push_last(&mut out, next)?;
    Ok(CanonMapIter::new(out))
}
