//! The union of two maps: the value of the right map where it has one, and otherwise that of the left.
ghost use Rattle.std.specs.Prelude.{IfOk};
ghost use Rattle.blaze_entries.specs.Painted.{ClonesAreAlike};
ghost use Rattle.range_map_blaze.specs.Union.{IsUnion};

use crate::map::RangeMapBlaze;
use crate::operators::chosen::{borrowed_chosen, owned_chosen};
use crate::operators::few::{are_few, cover_few, is_narrow};
use blaze_int::Integer;
use blaze_iters::OwnedRangeValuesIter;
use blaze_streams::{RightFirst, SortedDisjointMap, ValueCarrier};
use blaze_table::RangeTable;
use std::alloc::AllocError;

/// How a union is made. The result is the same.
enum Path {
    /// The right map's few entries are painted over the left map.
    Over,
    /// The left map's few entries fill the gaps of the right map.
    Under,
    /// Both maps are gone through in one pass.
    Merge,
}

/// The path for two maps. Few entries are painted or filled in only if they cover few others. A paint removes each of those by a
/// search, and a fill searches for each gap between them. A paint can stop early, so an estimate is enough for it. A fill can't,
/// so the covered entries are counted.
fn path_for<T: Integer, V: Eq + Clone>(left: &RangeTable<T, V>, right: &RangeTable<T, V>) -> Path {
    if is_narrow(right, left) {
        Path::Over
    } else if are_few(left.entries(), right.entries()) && cover_few(left, right) {
        Path::Under
    } else {
        Path::Merge
    }
}

/// The union of two borrowed maps.
pub fn union<T: Integer, V: Eq + Clone>(
    left: &RangeMapBlaze<T, V>,
    right: &RangeMapBlaze<T, V>,
) -> Result<RangeMapBlaze<T, V>, AllocError>
    requires { ClonesAreAlike V.is_clone V.eq }
    ensures { IfOk result
        (λ map. IsUnion V.eq T.low T.high left.now.entries right.now.entries map.entries) }
{
    let path = path_for(&left.table, &right.table);
    union_on(path, left, right)
}

/// The union of two borrowed maps by the given path.
fn union_on<T: Integer, V: Eq + Clone>(
    path: Path,
    left: &RangeMapBlaze<T, V>,
    right: &RangeMapBlaze<T, V>,
) -> Result<RangeMapBlaze<T, V>, AllocError>
    requires { ClonesAreAlike V.is_clone V.eq }
    ensures { IfOk result
        (λ map. IsUnion V.eq T.low T.high left.now.entries right.now.entries map.entries) }
{
    left.in_hand();
    right.in_hand();
    match path {
        Path::Over => painted_over(left.clone()?, right.range_values()),
        Path::Under => painted_under(left.range_values(), right.clone()?),
        Path::Merge => merged(left, right),
    }
}

/// The union of two owned maps, with their own values.
pub fn union_owned<T: Integer, V: Eq + Clone>(
    left: RangeMapBlaze<T, V>,
    right: RangeMapBlaze<T, V>,
) -> Result<RangeMapBlaze<T, V>, AllocError>
    requires { ClonesAreAlike V.is_clone V.eq }
    ensures { IfOk result
        (λ map. IsUnion V.eq T.low T.high left.entries right.entries map.entries) }
{
    match path_for(&left.table, &right.table) {
        Path::Over => painted_over(left, OwnedRangeValuesIter::new(right.table)),
        Path::Under => painted_under(OwnedRangeValuesIter::new(left.table), right),
        Path::Merge => merged_owned(left, right),
    }
}

/// The union of an owned and a borrowed map.
pub fn union_with<T: Integer, V: Eq + Clone>(
    left: RangeMapBlaze<T, V>,
    right: &RangeMapBlaze<T, V>,
) -> Result<RangeMapBlaze<T, V>, AllocError>
    requires { ClonesAreAlike V.is_clone V.eq }
    ensures { IfOk result
        (λ map. IsUnion V.eq T.low T.high left.entries right.now.entries map.entries) }
{
    match path_for(&left.table, &right.table) {
        Path::Over => painted_over(left, right.range_values()),
        path => union_on(path, &left, right),
    }
}

/// The union of a borrowed and an owned map.
pub fn union_under<T: Integer, V: Eq + Clone>(
    left: &RangeMapBlaze<T, V>,
    right: RangeMapBlaze<T, V>,
) -> Result<RangeMapBlaze<T, V>, AllocError>
    requires { ClonesAreAlike V.is_clone V.eq }
    ensures { IfOk result
        (λ map. IsUnion V.eq T.low T.high left.now.entries right.entries map.entries) }
{
    match path_for(&left.table, &right.table) {
        Path::Under => painted_under(left.range_values(), right),
        path => union_on(path, left, &right),
    }
}

/// A map with a stream's ranges painted over it. Once an eighth of the map's entries were removed, the others of the stream are
/// merged with the map, which then costs less.
fn painted_over<
    T: Integer,
    V: Eq + Clone,
    VC: ValueCarrier<Value = V>,
    S: SortedDisjointMap<T, VC>,
>(left: RangeMapBlaze<T, V>, right: S) -> Result<RangeMapBlaze<T, V>, AllocError>
    requires can { VC.can_carry }
    requires clones { ClonesAreAlike V.is_clone V.eq }
    ensures { IfOk result
        (λ map. IsUnion V.eq T.low T.high left.entries (S.left right) map.entries) }
{
    let mut map = left;
    let mut ranges = right;
    map.in_hand();
    ranges.in_hand();
    let least = map.ranges_len().saturating_sub(map.ranges_len() / 8);
    while let Some((range, carrier)) = ranges.next() {
        map.paint_range(range, carrier)?;
        if map.ranges_len() < least {
            ranges.in_hand();
            return merged_over(map, ranges);
        }
    }
    Ok(map)
}

/// The union of a map and a stream by a merge of both.
fn merged_over<T: Integer, V: Eq + Clone, VC: ValueCarrier<Value = V>, S: SortedDisjointMap<T, VC>>(
    left: RangeMapBlaze<T, V>,
    right: S,
) -> Result<RangeMapBlaze<T, V>, AllocError>
    requires can { VC.can_carry }
    requires clones { ClonesAreAlike V.is_clone V.eq }
    ensures { IfOk result
        (λ map. IsUnion V.eq T.low T.high left.entries (S.left right) map.entries) }
{
    left.in_hand();
    right.in_hand();
    let over = RangeMapBlaze::from_sorted_disjoint_map(left.allocator(), right)?;
    merged_owned(left, over)
}

/// A map whose gaps are filled with a stream's ranges.
fn painted_under<
    T: Integer,
    V: Eq + Clone,
    VC: ValueCarrier<Value = V>,
    S: SortedDisjointMap<T, VC>,
>(left: S, right: RangeMapBlaze<T, V>) -> Result<RangeMapBlaze<T, V>, AllocError>
    requires can { VC.can_carry }
    requires clones { ClonesAreAlike V.is_clone V.eq }
    ensures { IfOk result
        (λ map. IsUnion V.eq T.low T.high (S.left left) right.entries map.entries) }
{
    let mut map = right;
    left.in_hand();
    map.in_hand();
    map.fill_ranges(left)?;
    Ok(map)
}

/// The union of two borrowed maps by a merge of both.
fn merged<T: Integer, V: Eq + Clone>(
    left: &RangeMapBlaze<T, V>,
    right: &RangeMapBlaze<T, V>,
) -> Result<RangeMapBlaze<T, V>, AllocError>
    requires { ClonesAreAlike V.is_clone V.eq }
    ensures { IfOk result
        (λ map. IsUnion V.eq T.low T.high left.now.entries right.now.entries map.entries) }
{
    left.in_hand();
    right.in_hand();
    let room = left.ranges_len().saturating_add(right.ranges_len());
    borrowed_chosen(
        left,
        left.seeking_range_values(),
        right.range_values(),
        &RightFirst,
        room,
    )
}

/// The union of two owned maps by a merge of both. A value is cloned only for a piece that is not the last of its range.
fn merged_owned<T: Integer, V: Eq + Clone>(
    left: RangeMapBlaze<T, V>,
    right: RangeMapBlaze<T, V>,
) -> Result<RangeMapBlaze<T, V>, AllocError>
    requires { ClonesAreAlike V.is_clone V.eq }
    ensures { IfOk result
        (λ map. IsUnion V.eq T.low T.high left.entries right.entries map.entries) }
{
    left.in_hand();
    right.in_hand();
    let room = left.ranges_len().saturating_add(right.ranges_len());
    owned_chosen(
        left,
        OwnedRangeValuesIter::new(right.table),
        &RightFirst,
        room,
    )
}
