//! The segments of lists of ranges.
ghost use Rattle.std.specs.Prelude.{◌≡◌, None, IfOk, IfSome, IfNone, nat_eq};
ghost use Rattle.blaze_streams.specs.Segments.{numbered, all_numbered, AreInOrder, shown_segment};
ghost use Rattle.blaze_streams.specs.Segments.{shown_segments, IsSegmentsOf};
ghost use Rattle.blaze_streams.specs.Cursors.{AllCanonical, first_keys, IsNextSegment};
ghost use Rattle.blaze_entries.specs.Canonical.{IsCanonical};

use crate::cursor::Cursor;
use crate::lists::canon_map::CanonMapIter;
use crate::segmenting::cursors::{PlaceCursor, advance_all, row_at, segment_end, segment_start};
use blaze_int::Integer;
use std::alloc::{AllocError, Global};

/// A range of keys at which each list has the same range or none, and at least one has a range.
#[derive(Drop)]
pub struct Segment<T> {
    /// The first key.
    pub lo: T,
    /// The last key.
    pub hi: T,
    /// For each list, the position of its range that contains these keys, or `None`.
    pub at: Vec<Option<usize>>,
}

/// Returns the segments of lists, ascending, each with the position of each list's range. A segment is a greatest range
/// of keys at which each list has the same range or none, and at least one has a range. Touching ranges of one
/// list are two segments, since their positions differ.
///
/// Each list must be disjoint and ascending, and gives each range by its first and its last key. A list may be empty,
/// and so may the list of lists. If an allocation fails, it returns `Err`, and the lists are unchanged. O(n k) time and
/// memory with n ranges in k lists.
#[tactic(auto, using(crate::proofs::Numbered::all_canonical))]
pub fn segments<T: Integer>(
    alloc: Global,
    lists: &[Vec<(T, T)>],
) -> Result<Vec<Segment<T>>, AllocError>
    requires { AreInOrder (all_numbered T.rank lists.now) }
    ensures { IfOk result (λ found. IsSegmentsOf nat_eq (all_numbered T.rank lists.now)
        (shown_segments T.rank found.items)) }
{
    let mut cursors = cursors_of(alloc, lists)?;
    let found = segments_left(alloc, &mut cursors)?;
    Ok(found)
}

/// Returns a cursor at the start of each list.
fn cursors_of<T: Integer>(
    alloc: Global,
    lists: &[Vec<(T, T)>],
) -> Result<Vec<PlaceCursor<T>>, AllocError>
    requires { AllCanonical nat_eq (all_numbered T.rank lists.now) }
    ensures { IfOk result (λ cursors. cursors.items ≡ all_numbered T.rank lists.now) }
{
    let mut cursors = Vec::new(alloc);
    for list in lists {
        cursors.push(Cursor::new(places_of(alloc, list)?))?;
    }
    Ok(cursors)
}

/// Returns a stream of the ranges with their positions.
fn places_of<T: Integer>(
    alloc: Global,
    ranges: &[(T, T)],
) -> Result<CanonMapIter<T, usize>, AllocError>
    requires { IsCanonical nat_eq (numbered T.rank 0 ranges.now) }
    ensures { IfOk result (λ places. places ≡ numbered T.rank 0 ranges.now) }
{
    let mut found = Vec::new(alloc);
    for i in 0..ranges.len() {
        let range = ranges[i];
        let (start, end) = range;
        start.in_hand();
        end.in_hand();
        found.push((start..=end, i))?;
    }
    Ok(CanonMapIter::new(found))
}

/// Returns the remaining segments of the lists.
fn segments_left<T: Integer>(
    alloc: Global,
    lists: &mut [PlaceCursor<T>],
) -> Result<Vec<Segment<T>>, AllocError>
    requires { AllCanonical nat_eq lists.old }
    ensures { IfOk result (λ found. IsSegmentsOf nat_eq lists.old (shown_segments T.rank found.items)) }
{
    let mut found = Vec::new(alloc);
    while let Some(segment) = next_segment(alloc, lists)? {
        found.push(segment)?;
    }
    Ok(found)
}

/// Takes the first segment from the lists, or returns `None` if no key remains. If an allocation fails, the lists are
/// unchanged. O(k) with k lists.
pub fn next_segment<T: Integer>(
    alloc: Global,
    lists: &mut [PlaceCursor<T>],
) -> Result<Option<Segment<T>>, AllocError>
    ensures none { IfOk result (λ next. IfNone next (first_keys lists.old ≡ None)) }
    ensures some { IfOk result
        (λ next. IfSome next (λ segment. IsNextSegment lists.old
        (shown_segment T.rank segment) lists.new)) }
{
    let Some(start) = segment_start(lists) else {
        return Ok(None);
    };
    let Some(end) = segment_end(lists, start) else {
        return Ok(None);
    };
    let at = row_at(alloc, lists, start)?;
    advance_all(lists, end);
    Ok(Some(Segment {
        lo: start,
        hi: end,
        at,
    }))
}
