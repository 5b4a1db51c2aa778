//! Edits that free a range of keys: the entry below is shortened, and the entries that start in the range are removed.
//! None of them can fail.
ghost use Rattle.std.specs.Prelude.{◌≡◌, ◌++◌, ◌≤◌, pos, ◌+ℤ◌, length, drop, is_some};
ghost use Rattle.std.specs.Option.{option_map};
ghost use Rattle.blaze_entries.specs.Found.{shown_ends};
ghost use Rattle.blaze_entries.specs.Starts.{below, from, start_at, without};
ghost use Rattle.blaze_entries.specs.Canonical.{IsCanonical};
ghost use Rattle.blaze_table.specs.Edited.{IsPredecessor, is_removed};
ghost use Rattle.blaze_table.specs.Planned.{IsWorked};
ghost use Rattle.blaze_entries.specs.Splice.{before};

use blaze_entries::{Counted, RangeEntry};
use blaze_int::Integer;
use blaze_int::compare::{is_at_most, is_below};

/// Returns whether an edit removes the entry that starts at `lo`: it exists and does not extend above the range.
pub fn is_removed<T: Integer>(
    lo: T,
    at_start: Option<RangeEntry<T, bool>>,
    tail: Option<RangeEntry<T, ()>>,
) -> bool
    ensures { result ≡ is_removed (T.rank lo) at_start (option_map (shown_ends T.rank) tail) }
{
    match (at_start, tail) {
        (None, _) => false,
        (Some(_), None) => true,
        (Some(_), Some(ends)) => is_below(lo, ends.start) || is_below(ends.start, lo),
    }
}

/// Shortens the entry that starts below `lo` so that it ends just before `lo`.
pub fn trim<T: Integer, V: Eq>(
    entries: &mut Counted<T, V>,
    lo: T,
    predecessor: Option<RangeEntry<T, bool>>,
)
    requires canonical { IsCanonical V.eq (below (T.rank lo) entries.old.entries) }
    requires predecessor { IsPredecessor (T.rank lo) (below (T.rank lo) entries.old.entries)
        (option_map (shown_ends T.rank) predecessor) }
    ensures entries { entries.new.entries
        ≡ before (T.rank lo) (below (T.rank lo) entries.old.entries)
        ++ from (T.rank lo) entries.old.entries }
    ensures worked { IsWorked 0 0 entries.old entries.new }
{
    entries.in_hand();
    if let Some(found) = predecessor {
        if is_at_most(lo, found.end) {
            found.start.in_hand();
            entries.set_end(found.start, lo.sub_one());
        }
    }
}

// Removes the entry with the least start from `key` on, after one lookup.
fn remove_next<T: Integer, V: Drop>(entries: &mut Counted<T, V>, key: T)
    requires { 1 ≤ length (from (T.rank key) entries.old.entries) }
    ensures below { below (T.rank key) entries.new.entries ≡ below (T.rank key) entries.old.entries }
    ensures from { from (T.rank key) entries.new.entries
        ≡ drop 1 (from (T.rank key) entries.old.entries) }
    ensures worked { IsWorked 0 0 entries.old entries.new }
{
    match entries.range_at_or_above(key) {
        Some(ends) => {
            entries.in_hand();
            entries.remove(ends.start);
        }
        None => unreachable!(),
    }
}

/// Removes the next `count` entries that start above `key`, the lowest first. O(count log n) with n entries.
pub fn clear_above<T: Integer, V: Drop>(entries: &mut Counted<T, V>, key: T, count: usize)
    requires { count ≤ length (from (T.rank key +ℤ pos 1) entries.old.entries) }
    ensures entries { entries.new.entries
        ≡ below (T.rank key +ℤ pos 1) entries.old.entries
        ++ drop count (from (T.rank key +ℤ pos 1) entries.old.entries) }
    ensures worked { IsWorked 0 0 entries.old entries.new }
{
    entries.in_hand();
    if count == 0 {
        return;
    }
    let next = key.add_one();
    for _turn in 0..count {
        remove_next(entries, next);
    }
    entries.in_hand();
}

// Removes the entry that starts at `lo` if `is_removed` is true.
fn remove_start<T: Integer, V: Drop>(entries: &mut Counted<T, V>, lo: T, is_removed: bool)
    requires { is_removed ≡ is_some (start_at (T.rank lo) entries.old.entries) }
    ensures entries { entries.new.entries ≡ without (T.rank lo) entries.old.entries }
    ensures worked { IsWorked 0 0 entries.old entries.new }
{
    if is_removed {
        entries.remove(lo);
    }
}

/// Removes the entry that starts at `lo` if `is_removed` is true, and the next `count` entries that start above it.
pub fn clear<T: Integer, V: Drop>(
    entries: &mut Counted<T, V>,
    lo: T,
    is_removed: bool,
    count: usize,
)
    requires here { is_removed ≡ is_some (start_at (T.rank lo) entries.old.entries) }
    requires above { count ≤ length (from (T.rank lo +ℤ pos 1) entries.old.entries) }
    ensures entries { entries.new.entries
        ≡ below (T.rank lo) entries.old.entries
        ++ drop count (from (T.rank lo +ℤ pos 1) entries.old.entries) }
    ensures worked { IsWorked 0 0 entries.old entries.new }
{
    entries.in_hand();
    remove_start(entries, lo, is_removed);
    clear_above(entries, lo, count);
}
