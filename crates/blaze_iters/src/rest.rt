//! The first and the last key of an open range, taken in place.
ghost use Rattle.std.specs.Prelude.{◌≤ℤ◌, IfSome};
ghost use Rattle.blaze_entries.specs.Painted.{ClonesAreAlike};
ghost use Rattle.blaze_iters.specs.Left.{IsSecond, IsSecondLast, TakesFirst, TakesLast};
ghost use Rattle.blaze_iters.specs.Owned.{TakesFirstLike, TakesLastLike};

use blaze_int::Integer;
use blaze_int::compare::is_below;
use blaze_table::RangeEntry;
use std::alloc::AllocError;

/// Returns the key after the first key of a range, if the range has one.
pub(crate) fn second<T: Integer>(start: T, end: T) -> Option<T>
    requires { T.rank start ≤ℤ T.rank end }
    ensures { IsSecond T.rank start end result }
{
    if is_below(start, end) {
        end.in_hand();
        Some(start.add_one())
    } else {
        None
    }
}

/// Returns the key before the last key of a range, if the range has one.
pub(crate) fn second_last<T: Integer>(start: T, end: T) -> Option<T>
    requires { T.rank start ≤ℤ T.rank end }
    ensures { IsSecondLast T.rank start end result }
{
    if is_below(start, end) {
        start.in_hand();
        Some(end.sub_one())
    } else {
        None
    }
}

/// Takes the first key of an open range in place. The remaining part stays open, and after its only key no range is
/// open. Returns `None` if no range is open. It is inlined, so that a call of `next` in an open range calls no
/// function.
#[inline(always)]
pub(crate) fn first_key<T: Integer, R: Drop>(opened: &mut Option<RangeEntry<T, R>>) -> Option<T>
    requires { IfSome opened.old (λ e. T.rank e.start ≤ℤ T.rank e.end) }
    ensures { TakesFirst T.rank T.of_rank (λ e. e.start) opened.old result opened.new }
{
    let rest = opened.as_mut()?;
    let key = rest.start;
    key.in_hand();
    match second(key, rest.end) {
        Some(next) => rest.start = next,
        None => *opened = None,
    }
    Some(key)
}

/// Takes the last key of an open range in place. The remaining part stays open, and after its only key no range is
/// open. Returns `None` if no range is open. It is inlined, so that a call of `next_back` in an open range calls no
/// function.
#[inline(always)]
pub(crate) fn last_key<T: Integer, R: Drop>(opened: &mut Option<RangeEntry<T, R>>) -> Option<T>
    requires { IfSome opened.old (λ e. T.rank e.start ≤ℤ T.rank e.end) }
    ensures { TakesLast T.rank T.of_rank (λ e. e.end) opened.old result opened.new }
{
    let rest = opened.as_mut()?;
    let key = rest.end;
    key.in_hand();
    match second_last(rest.start, key) {
        Some(previous) => rest.end = previous,
        None => *opened = None,
    }
    Some(key)
}

/// Takes the first key of an open range in place, as `first_key` does, and returns it with the range's value.
#[inline(always)]
pub(crate) fn first_pair<T: Integer, R: Copy + Drop>(
    opened: &mut Option<RangeEntry<T, R>>,
) -> Option<(T, R)>
    requires { IfSome opened.old (λ e. T.rank e.start ≤ℤ T.rank e.end) }
    ensures { TakesFirst T.rank T.of_rank (λ e. (e.start, e.value)) opened.old result opened.new }
{
    let value = opened.as_ref()?.value;
    let key = first_key(opened)?;
    Some((key, value))
}

/// Takes the last key of an open range in place, as `last_key` does, and returns it with the range's value.
#[inline(always)]
pub(crate) fn last_pair<T: Integer, R: Copy + Drop>(
    opened: &mut Option<RangeEntry<T, R>>,
) -> Option<(T, R)>
    requires { IfSome opened.old (λ e. T.rank e.start ≤ℤ T.rank e.end) }
    ensures { TakesLast T.rank T.of_rank (λ e. (e.end, e.value)) opened.old result opened.new }
{
    let value = opened.as_ref()?.value;
    let key = last_key(opened)?;
    Some((key, value))
}

/// Takes the first key of an open range in place, as `first_key` does, and returns it with a clone of the range's
/// value. The only key of a range gets the value itself. If the clone fails, nothing is taken.
#[inline(always)]
pub(crate) fn first_cloned<T: Integer, V: Eq + Clone>(
    opened: &mut Option<RangeEntry<T, V>>,
) -> Option<Result<(T, V), AllocError>>
    requires full { IfSome opened.old (λ e. T.rank e.start ≤ℤ T.rank e.end) }
    requires alike { ClonesAreAlike V.is_clone V.eq }
    ensures { TakesFirstLike T.rank T.of_rank V.eq opened.old result opened.new }
{
    let rest = opened.as_mut()?;
    let key = rest.start;
    key.in_hand();
    let next = match second(key, rest.end) {
        Some(next) => next,
        None => {
            let RangeEntry { start, value, .. } = opened.take()?;
            return Some(Ok((start, value)));
        }
    };
    match rest.value.clone() {
        Ok(copy) => {
            rest.start = next;
            Some(Ok((key, copy)))
        }
        Err(refused) => Some(Err(refused)),
    }
}

/// Takes the last key of an open range in place, as `last_key` does, and returns it with a clone of the range's value.
/// The only key of a range gets the value itself. If the clone fails, nothing is taken.
#[inline(always)]
pub(crate) fn last_cloned<T: Integer, V: Eq + Clone>(
    opened: &mut Option<RangeEntry<T, V>>,
) -> Option<Result<(T, V), AllocError>>
    requires full { IfSome opened.old (λ e. T.rank e.start ≤ℤ T.rank e.end) }
    requires alike { ClonesAreAlike V.is_clone V.eq }
    ensures { TakesLastLike T.rank T.of_rank V.eq opened.old result opened.new }
{
    let rest = opened.as_mut()?;
    let key = rest.end;
    key.in_hand();
    let previous = match second_last(rest.start, key) {
        Some(previous) => previous,
        None => {
            let RangeEntry { end, value, .. } = opened.take()?;
            return Some(Ok((end, value)));
        }
    };
    match rest.value.clone() {
        Ok(copy) => {
            rest.end = previous;
            Some(Ok((key, copy)))
        }
        Err(refused) => Some(Err(refused)),
    }
}
