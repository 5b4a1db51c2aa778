//! The results of a closure at the segments of many lists, whose ranges have the positions of their items. The segments are made
//! one at a time. This is O(n + s k) for n ranges in k lists and s segments, with O(k) memory besides the result.
ghost use Rattle.std.specs.Prelude.{[], ◌<◌, length, map, is_some, IfOk};
ghost use Rattle.std.specs.List.{list_all, list_any};
ghost use Rattle.range_map_multi.specs.ManyJoins.{shown_row, shown_full_row, IsCallableAtRows};
ghost use Rattle.range_map_multi.specs.ManyJoins.{IsManyJoined};
ghost use Rattle.range_map_multi.specs.Parts.{AllPlaced, all_valued, AllRangeMaps};

use crate::rows::{Shows, fill_full_row, fill_row};
use blaze_int::Integer;
use blaze_streams::{CanonMapIter, Owned, PlaceCursor, next_segment, push_joined};
use std::alloc::{AllocError, Global};

/// The results of a closure where at least one list has an item: one call for each segment, ascending. If an allocation fails,
/// the results are dropped.
pub fn full_answers<T: Integer, A: Copy, S: Shows<A>, W: Eq + Clone, F: FnMut(&[Option<A>]) -> W>(
    alloc: Global,
    cursors: &mut [PlaceCursor<T>],
    lists: &[Vec<A>],
    mut f: F,
) -> Result<CanonMapIter<T, Owned<W>>, AllocError>
    requires placed { let values = map (λ v. map S.shown v.items) lists.now
        in AllPlaced values cursors.old (all_valued values cursors.old) }
    requires range_maps { AllRangeMaps S.Value.eq T.low T.high
        (all_valued (map (λ v. map S.shown v.items) lists.now) cursors.old) }
    requires callable { IsCallableAtRows (λ a. shown_row S.shown a.0.now) F.FnMut S.Value.eq T.low
        T.high (list_any is_some) f
        (all_valued (map (λ v. map S.shown v.items) lists.now) cursors.old) }
    ensures { IfOk result (λ new. IsManyJoined (λ a. shown_row S.shown a.0.now) F.FnMut S.Value.eq
        T.low T.high (list_any is_some) W.eq f
        (all_valued (map (λ v. map S.shown v.items) lists.now) cursors.old) new) }
{
    let mut row = Vec::new(alloc);
    let mut out = Vec::new(alloc);
    while let Some(segment) = next_segment(alloc, cursors)? {
        fill_row(&mut row, &segment.at, lists)?;
        let answer = f(&row);
        push_joined(&mut out, segment.lo, segment.hi, Owned(answer))?;
    }
    Ok(CanonMapIter::new(out))
}

/// The results of a closure where all of at least one list have an item: one call for each such segment, ascending. If an
/// allocation fails, the results are dropped.
fn inner_answers_of_some<T: Integer, A: Copy, S: Shows<A>, W: Eq + Clone, F: FnMut(&[A]) -> W>(
    alloc: Global,
    cursors: &mut [PlaceCursor<T>],
    lists: &[Vec<A>],
    mut f: F,
) -> Result<CanonMapIter<T, Owned<W>>, AllocError>
    requires some { 0 < length cursors.old }
    requires placed { let values = map (λ v. map S.shown v.items) lists.now
        in AllPlaced values cursors.old (all_valued values cursors.old) }
    requires range_maps { AllRangeMaps S.Value.eq T.low T.high
        (all_valued (map (λ v. map S.shown v.items) lists.now) cursors.old) }
    requires callable { IsCallableAtRows (λ a. shown_full_row S.shown a.0.now) F.FnMut S.Value.eq
        T.low T.high (list_all is_some) f
        (all_valued (map (λ v. map S.shown v.items) lists.now) cursors.old) }
    ensures { IfOk result (λ new. IsManyJoined (λ a. shown_full_row S.shown a.0.now) F.FnMut
        S.Value.eq T.low T.high (list_all is_some) W.eq f
        (all_valued (map (λ v. map S.shown v.items) lists.now) cursors.old) new) }
{
    let mut row = Vec::new(alloc);
    let mut full = Vec::new(alloc);
    let mut out = Vec::new(alloc);
    while let Some(segment) = next_segment(alloc, cursors)? {
        fill_row(&mut row, &segment.at, lists)?;
        if !fill_full_row(&mut full, &row)? {
            continue;
        }
        let answer = f(&full);
        push_joined(&mut out, segment.lo, segment.hi, Owned(answer))?;
    }
    Ok(CanonMapIter::new(out))
}

/// The result of a closure at the empty row, at every key: one call.
fn inner_answers_of_none<T: Integer, A: Copy, S: Shows<A>, W: Eq + Clone, F: FnMut(&[A]) -> W>(
    alloc: Global,
    mut f: F,
) -> Result<CanonMapIter<T, Owned<W>>, AllocError>
    requires callable { IsCallableAtRows (λ a. shown_full_row S.shown a.0.now) F.FnMut S.Value.eq
        T.low T.high (list_all is_some) f [] }
    ensures { IfOk result (λ new. IsManyJoined (λ a. shown_full_row S.shown a.0.now) F.FnMut
        S.Value.eq T.low T.high (list_all is_some) W.eq f [] new) }
{
    let row: Vec<A> = Vec::new(alloc);
    let mut out = Vec::new(alloc);
    let first = T::min_value();
    let last = T::max_value();
    first.in_hand();
    let answer = f(&row);
    push_joined(&mut out, first, last, Owned(answer))?;
    Ok(CanonMapIter::new(out))
}

/// The results of a closure where all lists have an item: one call for each such segment, ascending. With no lists the closure is
/// called once, and every key has the result. If an allocation fails, the results are dropped.
pub fn inner_answers<T: Integer, A: Copy, S: Shows<A>, W: Eq + Clone, F: FnMut(&[A]) -> W>(
    alloc: Global,
    cursors: &mut [PlaceCursor<T>],
    lists: &[Vec<A>],
    f: F,
) -> Result<CanonMapIter<T, Owned<W>>, AllocError>
    requires placed { let values = map (λ v. map S.shown v.items) lists.now
        in AllPlaced values cursors.old (all_valued values cursors.old) }
    requires range_maps { AllRangeMaps S.Value.eq T.low T.high
        (all_valued (map (λ v. map S.shown v.items) lists.now) cursors.old) }
    requires callable { IsCallableAtRows (λ a. shown_full_row S.shown a.0.now) F.FnMut S.Value.eq
        T.low T.high (list_all is_some) f
        (all_valued (map (λ v. map S.shown v.items) lists.now) cursors.old) }
    ensures { IfOk result (λ new. IsManyJoined (λ a. shown_full_row S.shown a.0.now) F.FnMut
        S.Value.eq T.low T.high (list_all is_some) W.eq f
        (all_valued (map (λ v. map S.shown v.items) lists.now) cursors.old) new) }
{
    if cursors.is_empty() {
        return inner_answers_of_none::<T, A, S, W, F>(alloc, f);
    }
    inner_answers_of_some::<T, A, S, W, F>(alloc, cursors, lists, f)
}
