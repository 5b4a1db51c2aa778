//! Cursors over many lists of ranges.
ghost use Rattle.std.specs.Prelude.{◌≡◌, IfOk, nat_eq};
ghost use Rattle.std.specs.Option.{option_map};
ghost use Rattle.blaze_streams.specs.Segments.{row};
ghost use Rattle.blaze_streams.specs.Cursors.{AllCanonical, first_keys, AllFrom, all_steady_to};
ghost use Rattle.blaze_streams.specs.Cursors.{AllReach, all_after, lesser};

use crate::cursor::Cursor;
use crate::lists::canon_map::CanonMapIter;
use blaze_int::Integer;
use blaze_int::compare::is_at_most;
use std::alloc::{AllocError, Global};

/// A cursor over a list of ranges with their positions.
pub type PlaceCursor<T> = Cursor<T, usize, CanonMapIter<T, usize>>;

/// Returns the lesser of two keys. If one is `None`, it returns the other.
pub fn lesser_of<T: Integer>(a: Option<T>, b: Option<T>) -> Option<T>
    ensures { option_map T.rank result ≡ lesser (option_map T.rank a) (option_map T.rank b) }
{
    match (a, b) {
        (None, _) => b,
        (_, None) => a,
        (Some(x), Some(y)) => { if is_at_most(x, y) { a } else { b } }
    }
}

/// Returns the first remaining key. O(k) with k lists.
pub fn segment_start<T: Integer>(lists: &[PlaceCursor<T>]) -> Option<T>
    ensures first { option_map T.rank result ≡ first_keys lists.now }
    ensures canonical { AllCanonical nat_eq lists.now }
{
    match lists.split_first() {
        None => None,
        Some((list, others)) => lesser_of(list.first(), segment_start(others)),
    }
}

/// Returns the last key of the segment from `start` on: each list is the same at all its keys. It requires that no key
/// below `start` remains. O(k) with k lists.
pub fn segment_end<T: Integer>(lists: &[PlaceCursor<T>], start: T) -> Option<T>
    requires from { AllFrom (T.rank start) lists.now }
    ensures { option_map T.rank result ≡ all_steady_to (T.rank start) lists.now }
{
    match lists.split_first() {
        None => None,
        Some((list, others)) => lesser_of(list.last(start), segment_end(others, start)),
    }
}

/// Returns the position of each list's range at a key, which must not be above the end of any list's first range. If an
/// allocation fails, the lists are unchanged. O(k) with k lists.
pub fn row_at<T: Integer>(
    alloc: Global,
    lists: &[PlaceCursor<T>],
    key: T,
) -> Result<Vec<Option<usize>>, AllocError>
    requires reach { AllReach (T.rank key) lists.now }
    ensures { IfOk result (λ found. found.items ≡ row lists.now (T.rank key)) }
{
    let mut found = Vec::new(alloc);
    for list in lists {
        found.push(list.here(key).copied())?;
    }
    Ok(found)
}

/// Skips the keys up to `end` in each list.
pub fn advance_all<T: Integer>(lists: &mut [PlaceCursor<T>], end: T)
    ensures { lists.new ≡ all_after (T.rank end) lists.old }
{
    for i in 0..lists.len() {
        lists[i].advance(end);
    }
}
