//! The segments of two streams.
ghost use Rattle.std.specs.Prelude.{◌≡◌, None, Some, IfOk, OnOk};
ghost use Rattle.std.specs.Option.{option_map};
ghost use Rattle.blaze_entries.specs.Canonical.{IsCanonical};
ghost use Rattle.blaze_entries.specs.Entries.{at};
ghost use Rattle.blaze_entries.specs.Painted.{ClonesAreAlike};
ghost use Rattle.blaze_streams.specs.Carried.{shown_pair};
ghost use Rattle.blaze_streams.specs.Cursors.{first_key, steady_to, IsFirstOfBoth, Reaches, lesser};
ghost use Rattle.blaze_streams.specs.Joins.{is_joined, IsCarriedJoin, IsLetGo, IsNotAsked, IsSegmentPut, IsSkipped};
ghost use Rattle.blaze_streams.specs.RangeLists.{shown_ranges};

use crate::carrier::ValueCarrier;
use crate::cursor::Cursor;
use crate::lists::canon_map::CanonMapIter;
use crate::segmenting::cursors::lesser_of;
use crate::sorted_disjoint_map::SortedDisjointMap;
use blaze_int::Integer;
use std::alloc::{AllocError, Global};
use std::ops::RangeInclusive;

/// The kind of a join, which selects the segments of two streams.
#[derive(Clone, Copy, PartialEq, Eq, Debug)]
pub enum JoinKind {
    /// The segments at which both streams have a value.
    Inner,
    /// The segments at which the left stream has a value.
    Left,
    /// The segments at which at least one stream has a value.
    Full,
}

/// Returns whether a join of the kind selects a segment with these values.
fn is_joined<A, B>(kind: JoinKind, left: Option<&A>, right: Option<&B>) -> bool
    ensures { result ≡ is_joined kind left.entry right.entry }
{
    match kind {
        JoinKind::Inner => left.is_some() && right.is_some(),
        JoinKind::Left => left.is_some(),
        JoinKind::Full => left.is_some() || right.is_some(),
    }
}

/// Returns whether a join of the kind selects the segment at `key`, which must not be above the end of either stream's
/// first range.
fn is_asked<
    T: Integer,
    VCL: ValueCarrier,
    VCR: ValueCarrier,
    L: SortedDisjointMap<T, VCL>,
    R: SortedDisjointMap<T, VCR>,
>(kind: JoinKind, left: &Cursor<T, VCL, L>, right: &Cursor<T, VCR, R>, key: T) -> bool
    requires left { Reaches (T.rank key) left.now }
    requires right { Reaches (T.rank key) right.now }
    ensures { result ≡ is_joined kind (at left.now (T.rank key)) (at right.now (T.rank key)) }
{
    is_joined(kind, left.here(key), right.here(key))
}

/// Returns the lesser of the first keys of two streams.
fn first_of<
    T: Integer,
    VCL: ValueCarrier,
    VCR: ValueCarrier,
    L: SortedDisjointMap<T, VCL>,
    R: SortedDisjointMap<T, VCR>,
>(left: &Cursor<T, VCL, L>, right: &Cursor<T, VCR, R>) -> Option<T>
    ensures first { option_map T.rank result ≡ lesser (first_key left.now) (first_key right.now) }
    ensures left { IsCanonical VCL.Value.eq left.now }
    ensures right { IsCanonical VCR.Value.eq right.now }
{
    lesser_of(left.first(), right.first())
}

/// Returns the last key of the first segment of two streams, which starts at `start`.
fn steady_end<
    T: Integer,
    VCL: ValueCarrier,
    VCR: ValueCarrier,
    L: SortedDisjointMap<T, VCL>,
    R: SortedDisjointMap<T, VCR>,
>(start: T, left: &Cursor<T, VCL, L>, right: &Cursor<T, VCR, R>) -> T
    requires left { IsCanonical VCL.Value.eq left.now }
    requires right { IsCanonical VCR.Value.eq right.now }
    requires starts { IsFirstOfBoth left.now right.now (T.rank start) }
    ensures ends { lesser (steady_to (T.rank start) left.now) (steady_to (T.rank start) right.now)
        ≡ Some (T.rank result) }
    ensures left { Reaches (T.rank result) left.now }
    ensures right { Reaches (T.rank result) right.now }
{
    let Some(end) = lesser_of(left.last(start), right.last(start)) else {
        unreachable!()
    };
    end
}

/// Skips the keys of a stream below the other's first key, or all keys if the other is empty. The other has no value at
/// `end`, which must not be above the end of its first range. A stream that can seek skips any number of ranges with
/// two lookups.
fn let_go_below<
    T: Integer,
    VC: ValueCarrier,
    VCO: ValueCarrier,
    I: SortedDisjointMap<T, VC>,
    O: SortedDisjointMap<T, VCO>,
>(cursor: &mut Cursor<T, VC, I>, other: &Cursor<T, VCO, O>, end: T)
    requires reaches { Reaches (T.rank end) other.now }
    requires none { at other.now (T.rank end) ≡ None }
    ensures { IsLetGo (T.rank end) T.high cursor.old cursor.new other.now }
{
    end.in_hand();
    match other.first() {
        Some(first) => {
            first.in_hand();
            cursor.advance(first.sub_one());
        }
        None => cursor.advance(T::max_value()),
    }
}

/// Skips keys of the stream that has a value at `end`, up to the other's first key. A join of the kind selects none of
/// them.
fn skip<
    T: Integer,
    VCL: ValueCarrier,
    VCR: ValueCarrier,
    L: SortedDisjointMap<T, VCL>,
    R: SortedDisjointMap<T, VCR>,
>(kind: JoinKind, left: &mut Cursor<T, VCL, L>, right: &mut Cursor<T, VCR, R>, end: T)
    requires left { Reaches (T.rank end) left.old }
    requires right { Reaches (T.rank end) right.old }
    requires alone { IsNotAsked kind (at left.old (T.rank end)) (at right.old (T.rank end)) }
    ensures { IsSkipped kind (T.rank end) T.high left.old left.new right.old right.new }
{
    if is_asked(JoinKind::Left, left, right, end) {
        let_go_below(left, right, end);
    } else {
        let_go_below(right, left, end);
    }
}

/// Appends the first segment of two streams if the kind selects it, and skips its keys. Otherwise it skips all keys up
/// to the next one at which the other stream has a value.
fn join_next<
    T: Integer,
    VCL: ValueCarrier,
    VCR: ValueCarrier,
    L: SortedDisjointMap<T, VCL>,
    R: SortedDisjointMap<T, VCR>,
>(
    start: T,
    left: &mut Cursor<T, VCL, L>,
    right: &mut Cursor<T, VCR, R>,
    out: &mut Vec<(RangeInclusive<T>, (Option<VCL>, Option<VCR>))>,
    kind: JoinKind,
) -> Result<(), AllocError>
    requires left { IsCanonical VCL.Value.eq left.old }
    requires right { IsCanonical VCR.Value.eq right.old }
    requires starts { IsFirstOfBoth left.old right.old (T.rank start) }
    ensures { OnOk result (IsSegmentPut VCL.is_carried VCR.is_carried T.low T.high kind
        (T.rank start) left.old left.new right.old right.new
        (shown_ranges T.rank (shown_pair VCL.shown VCR.shown) out.old.items)
        (shown_ranges T.rank (shown_pair VCL.shown VCR.shown) out.new.items)) }
{
    let end = steady_end(start, left, right);
    start.in_hand();
    end.in_hand();
    if is_asked(kind, left, right, end) {
        let given = (left.give(end)?, right.give(end)?);
        out.push((start..=end, given))?;
    } else {
        skip(kind, left, right, end);
    }
    Ok(())
}

/// Returns the segments of two streams that a join of the kind selects, each with carriers of both values. A stream
/// that lags seeks the next key that may be selected. The last segment of a range has the range's own carrier, and each
/// earlier segment has another one (`carry`). If an allocation or a clone fails, both streams are dropped. O(n + m)
/// with n and m ranges, where each call of a stream counts as O(1).
pub fn join_of<
    T: Integer,
    VCL: ValueCarrier,
    VCR: ValueCarrier,
    L: SortedDisjointMap<T, VCL>,
    R: SortedDisjointMap<T, VCR>,
>(
    alloc: Global,
    left: L,
    right: R,
    kind: JoinKind,
) -> Result<CanonMapIter<T, (Option<VCL>, Option<VCR>)>, AllocError>
    requires left { ClonesAreAlike VCL.is_carried VCL.Value.eq }
    requires right { ClonesAreAlike VCR.is_carried VCR.Value.eq }
    ensures { IfOk result (λ segments. IsCarriedJoin VCL.is_carried VCR.is_carried VCL.Value.eq
        VCR.Value.eq T.low T.high kind (L.left left) (R.left right) segments) }
{
    let mut out = Vec::new(alloc);
    let mut left = Cursor::new(left);
    let mut right = Cursor::new(right);
    while let Some(start) = first_of(&left, &right) {
        join_next(start, &mut left, &mut right, &mut out, kind)?;
    }
    Ok(CanonMapIter::new(out))
}
