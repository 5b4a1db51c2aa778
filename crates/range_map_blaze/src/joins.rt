//! Joins of two maps, and a map with other values: the results of a closure that is called once for each segment or entry.
ghost use Rattle.std.specs.Prelude.{◌≡◌, true, IfOk};
ghost use Rattle.blaze_streams.specs.Answers.{values, EachValue, IsCallableAtEachValue, IsTransformed};
ghost use Rattle.blaze_streams.specs.JoinAnswers.{either, both, left_or_both, IsCallableAtSegments};
ghost use Rattle.blaze_streams.specs.JoinAnswers.{IsJoined};
ghost use Rattle.blaze_streams.specs.Joins.{is_joined, IsJoinOf};
ghost use Rattle.blaze_streams.specs.declared.segmenting.joins.JoinKind.TheVariants.{Inner, Left, Full};
ghost use Rattle.blaze_entries.specs.Counted.{uncounted};
ghost use Rattle.range_map_blaze.specs.Made.{IsMade};

use crate::map::RangeMapBlaze;
use blaze_int::Integer;
use blaze_iters::{RangeValuesIter, SeekingRangeValuesIter};
use blaze_streams::{
    Asks, Both, CanonMapIter, Either, JoinKind, LeftOrBoth, Owned, SortedDisjointMap, ValueCarrier,
    Whole, join_of,
};
use blaze_table::{RangeTable, push_entry};
use std::alloc::{AllocError, Global};

/// Returns the map of a stream whose carriers own their values, so that no value is cloned. Allocates. If an allocation fails,
/// the stream is dropped. O(n) for n ranges.
pub fn map_of<T: Integer, W: Eq + Clone>(
    alloc: Global,
    stream: CanonMapIter<T, Owned<W>>,
) -> Result<RangeMapBlaze<T, W>, AllocError>
    ensures { IfOk result (λ map. map ≡ uncounted stream) }
{
    stream.in_hand();
    let mut entries = Vec::new(alloc);
    for item in stream {
        let (range, Owned(value)) = item;
        let (start, end) = range.into_inner();
        entries.push((start, end, value))?;
    }
    RangeMapBlaze::from_canonical(alloc, entries)
}

/// The map of a stream's ranges, each with the result of a closure at its value. `C` says which arguments the closure takes. It
/// is called once for each range, ascending. Touching ranges with equal results become one. If a call of the closure or an
/// allocation fails, the closure is not called again, and the stream and the results are dropped.
fn map_of_answers<
    T: Integer,
    VC: ValueCarrier,
    S: SortedDisjointMap<T, VC>,
    W: Eq + Clone,
    F: Drop,
    C: Asks<F, VC, W>,
>(alloc: Global, stream: S, mut f: F) -> Result<RangeMapBlaze<T, W>, AllocError>
    requires have { EachValue C.has_arguments (S.left stream) }
    requires callable { IsCallableAtEachValue C.shows C.calls f (values (S.left stream)) }
    ensures { IfOk result (IsMade (IsTransformed C.shows C.calls W.eq T.low T.high f (S.left stream))) }
{
    stream.in_hand();
    let mut entries = Vec::new(alloc);
    for item in stream {
        let (range, carrier) = item;
        let (start, end) = range.into_inner();
        let answer = C::ask(&mut f, carrier)?;
        push_entry(&mut entries, start, end, answer)?;
    }
    RangeMapBlaze::from_canonical(alloc, entries)
}

/// The map of a table's keys, each with the result of a closure at its entry's value. `C` says which arguments the closure takes.
pub(crate) fn transformed<
    'a,
    T: Integer,
    V: Eq + Clone,
    W: Eq + Clone,
    F: Drop,
    C: Asks<F, &'a V, W>,
>(alloc: Global, table: &'a RangeTable<T, V>, f: F) -> Result<RangeMapBlaze<T, W>, AllocError>
    requires have { (value : _) → C.has_arguments value }
    requires callable { IsCallableAtEachValue C.shows C.calls f (values table.now.entries) }
    ensures { IfOk result (IsMade (IsTransformed C.shows C.calls W.eq T.low T.high f
        table.now.entries)) }
{
    map_of_answers::<_, _, _, W, F, C>(alloc, RangeValuesIter::new(table), f)
}

/// The segments of two tables at which a join calls its closure, as a stream: each with the values that the two tables have
/// there.
fn segments_of<'a, T: Integer, V: Eq + Clone, V2: Eq + Clone>(
    alloc: Global,
    table: &'a RangeTable<T, V>,
    other: &'a RangeTable<T, V2>,
    kind: JoinKind,
) -> Result<CanonMapIter<T, (Option<&'a V>, Option<&'a V2>)>, AllocError>
    ensures { IfOk result (λ segments. IsJoinOf V.eq V2.eq T.low T.high kind table.now.entries
        other.now.entries segments) }
{
    join_of(
        alloc,
        SeekingRangeValuesIter::new(table),
        SeekingRangeValuesIter::new(other),
        kind,
    )
}

/// The map of the results of a closure at the segments of two tables. `C` says which arguments the closure takes.
pub(crate) fn joined<
    'a,
    T: Integer,
    V: Eq + Clone,
    V2: Eq + Clone,
    W: Eq + Clone,
    F: Drop,
    C: Asks<F, (Option<&'a V>, Option<&'a V2>), W>,
>(
    alloc: Global,
    table: &'a RangeTable<T, V>,
    other: &'a RangeTable<T, V2>,
    kind: JoinKind,
    f: F,
) -> Result<RangeMapBlaze<T, W>, AllocError>
    requires have { (pair : _) → is_joined kind pair.0 pair.1 ≡ true → C.has_arguments pair }
    requires callable { IsCallableAtSegments C.shows C.calls V.eq V2.eq T.low T.high kind f
        table.now.entries other.now.entries }
    ensures { IfOk result (IsMade (IsJoined C.shows C.calls V.eq V2.eq T.low T.high kind W.eq f
        table.now.entries other.now.entries)) }
{
    let segments = segments_of(alloc, table, other, kind)?;
    answers_at::<T, _, W, F, C>(alloc, segments, f)
}

/// The map of a list's ranges, each with the result of a closure at its value.
fn answers_at<T: Integer, VC: ValueCarrier, W: Eq + Clone, F: Drop, C: Asks<F, VC, W>>(
    alloc: Global,
    list: CanonMapIter<T, VC>,
    f: F,
) -> Result<RangeMapBlaze<T, W>, AllocError>
    requires have { EachValue C.has_arguments list }
    requires callable { IsCallableAtEachValue C.shows C.calls f (values list) }
    ensures { IfOk result (IsMade (IsTransformed C.shows C.calls W.eq T.low T.high f list)) }
{
    map_of_answers::<_, _, _, W, F, C>(alloc, list, f)
}

impl<T: Integer, V: Eq + Clone> RangeMapBlaze<T, V> {
    /// Returns the map with the same keys, each with the result of `f` at its entry's value. It calls `f` once for each entry,
    /// ascending. Touching entries with equal results become one entry.
    ///
    /// Allocates. If an allocation fails, the map is unchanged and the results of `f` are dropped. O(n) for n entries.
    ///
    /// ```
    /// map.transform_values(|value| value.to_ascii_uppercase())?; // (10..=14, 'A'), (15..=15, 'B'), (30..=39, 'C')
    /// ```
    pub fn transform_values<W: Eq + Clone, F: FnMut(&V) -> W>(
        &self,
        f: F,
    ) -> Result<RangeMapBlaze<T, W>, AllocError>
        requires { IsCallableAtEachValue (λ a. a.0.now) F.FnMut f (values self.now.entries) }
        ensures { IfOk result (IsMade (IsTransformed (λ a. a.0.now) F.FnMut W.eq T.low T.high f
            self.now.entries)) }
    {
        transformed::<T, V, W, F, Whole>(self.allocator(), &self.table, f)
    }

    /// Returns the map with the results of `f` at the keys that have a value in both maps. It calls `f` once for each of the
    /// longest ranges on which neither map changes, ascending. Touching ranges with equal results become one entry.
    ///
    /// Allocates. If an allocation fails, both maps are unchanged and the results of `f` are dropped. O(n + m) for n and m
    /// entries. If one map has k entries, far fewer than the n of the other: O(k log n), and O(1) for each call of `f`.
    ///
    /// ```
    /// map.inner_join(&other, |value, new| (*value, *new))?; // (12..=14, ('a', 'b')), (15..=15, ('b', 'b'))
    /// ```
    pub fn inner_join<V2: Eq + Clone, W: Eq + Clone, F: FnMut(&V, &V2) -> W>(
        &self,
        other: &RangeMapBlaze<T, V2>,
        f: F,
    ) -> Result<RangeMapBlaze<T, W>, AllocError>
        requires { IsCallableAtSegments (both (λ v. v.now) (λ v. v.now)) F.FnMut V.eq V2.eq T.low
            T.high Inner f self.now.entries other.now.entries }
        ensures { IfOk result (IsMade (IsJoined (both (λ v. v.now) (λ v. v.now)) F.FnMut V.eq V2.eq
            T.low T.high Inner W.eq f self.now.entries other.now.entries)) }
    {
        joined::<T, V, V2, W, F, Both>(
            self.allocator(),
            &self.table,
            &other.table,
            JoinKind::Inner,
            f,
        )
    }

    /// Returns the map with the results of `f` at the keys of this map. `f` gets the value of `other` too, where it has one. It
    /// is called once for each of the longest ranges on which neither map changes, ascending. Touching ranges with equal results
    /// become one entry.
    ///
    /// Allocates. If an allocation fails, both maps are unchanged and the results of `f` are dropped. O(n + m) for n entries here
    /// and m in `other`. If n is far less than m: O(n log m), and O(1) for each call of `f`.
    ///
    /// ```
    /// map.left_join(&other, |_, new| new.is_some())?; // (10..=11, false), (12..=15, true), (30..=39, false)
    /// ```
    pub fn left_join<V2: Eq + Clone, W: Eq + Clone, F: FnMut(&V, Option<&V2>) -> W>(
        &self,
        other: &RangeMapBlaze<T, V2>,
        f: F,
    ) -> Result<RangeMapBlaze<T, W>, AllocError>
        requires { IsCallableAtSegments (left_or_both (λ v. v.now) (λ v. v.now)) F.FnMut V.eq V2.eq
            T.low T.high Left f self.now.entries other.now.entries }
        ensures { IfOk result (IsMade (IsJoined (left_or_both (λ v. v.now) (λ v. v.now)) F.FnMut V.eq
            V2.eq T.low T.high Left W.eq f self.now.entries other.now.entries)) }
    {
        joined::<T, V, V2, W, F, LeftOrBoth>(
            self.allocator(),
            &self.table,
            &other.table,
            JoinKind::Left,
            f,
        )
    }

    /// Returns the map with the results of `f` at the keys that have a value in at least one of the maps. `f` gets the value of
    /// each map that has one. It is called once for each of the longest ranges on which neither map changes, ascending. Touching
    /// ranges with equal results become one entry.
    ///
    /// Allocates. If an allocation fails, both maps are unchanged and the results of `f` are dropped. O(n + m) for n and m
    /// entries.
    ///
    /// ```
    /// map.full_join(&other, |old, new| old != new)?; // (10..=14, true), (15..=15, false), (30..=39, true)
    /// ```
    pub fn full_join<V2: Eq + Clone, W: Eq + Clone, F: FnMut(Option<&V>, Option<&V2>) -> W>(
        &self,
        other: &RangeMapBlaze<T, V2>,
        f: F,
    ) -> Result<RangeMapBlaze<T, W>, AllocError>
        requires { IsCallableAtSegments (either (λ v. v.now) (λ v. v.now)) F.FnMut V.eq V2.eq T.low
            T.high Full f self.now.entries other.now.entries }
        ensures { IfOk result (IsMade (IsJoined (either (λ v. v.now) (λ v. v.now)) F.FnMut V.eq V2.eq
            T.low T.high Full W.eq f self.now.entries other.now.entries)) }
    {
        joined::<T, V, V2, W, F, Either>(
            self.allocator(),
            &self.table,
            &other.table,
            JoinKind::Full,
            f,
        )
    }
}
