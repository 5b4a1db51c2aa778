//! A walk down the tree from above a range. It searches the tree once.
ghost use Rattle.std.specs.Prelude.{◌≡◌, ◌⊎◌, ◌+◌, ◌++◌, ◌∷◌, [], pos, ◌+ℤ◌, ◌≤ℤ◌, ◌<ℤ◌, ◌<◌, ◌≤◌, ◌^◌};
ghost use Rattle.std.specs.Prelude.{length, MatchOption, OnSome, IfOk, OnErr, IsSome, IfSome, IsSomeAnd, true, false};
ghost use Rattle.std.specs.Option.{option_copied};
ghost use Rattle.blaze_entries.specs.Entries.{Entry, entry, at};
ghost use Rattle.blaze_entries.specs.Found.{shown_found, is_sought, IsFoundAt};
ghost use Rattle.blaze_entries.specs.Overlap.{covered_keys};
ghost use Rattle.blaze_entries.specs.Starts.{below, from};
ghost use Rattle.blaze_entries.specs.Walked.{RangesAscend, shown_plan, IsSeenIn, unseen, seen_end};
ghost use Rattle.blaze_entries.specs.Walked.{seen_start, seen, seen_value, IsClonedIf};

use crate::count::Count;
use crate::overlap::length_outside;
use crate::range::Range;
use crate::range_entry::RangeEntry;
use crate::tree::Tree;
use blaze_int::Integer;
use blaze_int::compare::{is_at_most, is_below};
use std::alloc::AllocError;

/// The entries near a range, as an edit of the range's keys needs them.
#[derive(Clone, Copy)]
pub struct Plan<T> {
    /// The last key of the range after it is joined with the entry above it.
    pub end: T,
    /// The first and last key of the entry that keeps its keys above the range.
    pub tail: Option<RangeEntry<T, ()>>,
    /// The entry that starts at the range's first key.
    pub at_start: Option<RangeEntry<T, bool>>,
    /// The entry with the greatest start below the range.
    pub predecessor: Option<RangeEntry<T, bool>>,
    /// The number of entries that start above the range's first key and end within the joined range.
    pub removed_count: usize,
}

impl<T: Integer> Plan<T> {
    /// Returns the plan before the first entry, for a range that ends at `hi`.
    pub fn new(hi: T) -> Plan<T>
        ensures { shown_plan T.rank result ≡ unseen (T.rank hi) }
    {
        Plan {
            end: hi,
            tail: None,
            at_start: None,
            predecessor: None,
            removed_count: 0,
        }
    }

    // Updates the plan with the end of an entry.
    fn see_end(&mut self, hi: T, found: RangeEntry<T, bool>)
        ensures seen { shown_plan T.rank self.new
            ≡ seen_end (T.rank hi) (shown_plan T.rank self.old) (shown_found T.rank found) }
        ensures removed_count { self.new.removed_count ≡ self.old.removed_count }
    {
        if is_below(hi, found.end) {
            if found.value {
                self.end = found.end;
            } else if is_at_most(found.start, hi) {
                self.tail = Some(RangeEntry {
                    start: found.start,
                    end: found.end,
                    value: (),
                });
            }
        }
    }

    // Updates the plan with the start of an entry.
    fn see_start(&mut self, lo: T, hi: T, found: RangeEntry<T, bool>)
        requires { self.old.removed_count + 1 < 2 ^ 64 }
        ensures seen { shown_plan T.rank self.new ≡ seen_start (T.rank lo) (T.rank hi)
            (shown_plan T.rank self.old) (shown_found T.rank found) }
        ensures removed_count { self.new.removed_count ≤ self.old.removed_count + 1 }
    {
        if is_below(found.start, lo) {
            self.predecessor = Some(found);
        } else if is_at_most(found.start, lo) {
            self.at_start = Some(found);
        } else if found.value || is_at_most(found.end, hi) {
            self.removed_count += 1;
        }
    }

    /// Updates the plan with the next entry below. O(1).
    pub fn see(&mut self, lo: T, hi: T, found: RangeEntry<T, bool>)
        requires { self.old.removed_count + 1 < 2 ^ 64 }
        ensures seen { shown_plan T.rank self.new
            ≡ seen (T.rank lo) (T.rank hi) (shown_plan T.rank self.old) (shown_found T.rank found) }
        ensures removed_count { self.new.removed_count ≤ self.old.removed_count + 1 }
    {
        self.see_end(hi, found);
        self.see_start(lo, hi, found);
    }
}

// Returns the entry's first and last key, and whether its value equals `value`. If `value` is `None`, nothing is
// compared.
#[inline(always)]
fn compared_entry<T: Integer, V: Eq>(
    start: T,
    end: T,
    other: &V,
    value: Option<&V>,
) -> RangeEntry<T, bool>
    ensures { shown_found T.rank result
        ≡ (T.rank start, T.rank end, is_sought V.eq (option_copied value.entry) other.now) }
{
    RangeEntry {
        start,
        end,
        value: match value {
            Some(value) => *other == *value,
            None => false,
        },
    }
}

// Takes the last entry off the iterator and counts the lookup. The result includes the comparison with `value` and the
// entry's own value.
#[inline(always)]
fn next_found<'a, T: Integer, V: Eq>(
    entries: &mut Range<'a, T, V>,
    value: Option<&V>,
    looks: &mut Count,
) -> Option<(RangeEntry<T, bool>, &'a V)>
    ensures found { MatchOption result (entries.old ≡ []) (λ f. (e : Entry V)
        × IsFoundAt T.rank (is_sought V.eq (option_copied value.entry)) f.0 f.1.now e
        × (entries.old ≡ entries.new ++ e ∷ [])) }
    ensures looked { looks.new.number ≡ looks.old.number + 1 }
    ensures shorter { OnSome result (length entries.new < length entries.old) }
{
    *looks = looks.one_more();
    match entries.next_back() {
        Some(last) => {
            let (start, end, held) = last;
            Some((compared_entry(start, end, held, value), held))
        }
        None => None,
    }
}

// Returns the value of `key` once one more entry is visited.
#[inline(always)]
fn seen_value<'a, T: Integer, V>(
    key: T,
    held: Option<&'a V>,
    found: RangeEntry<T, bool>,
    value: &'a V,
) -> Option<&'a V>
    ensures { option_copied result ≡ seen_value (T.rank key) (option_copied held.entry)
        (entry (T.rank found.start) (T.rank found.end) value.now) }
{
    if is_at_most(found.start, key) && is_at_most(key, found.end) {
        Some(value)
    } else {
        held
    }
}

/// Returns the key after `key`, or `key` itself if it is the greatest. O(1).
pub fn next_or_last<T: Integer>(key: T) -> T
    ensures { (T.rank result ≡ T.rank key +ℤ pos 1)
        ⊎ ((T.rank key ≡ T.high) × (T.rank result ≡ T.high)) }
{
    match key.checked_add_one() {
        Some(next) => next,
        None => key,
    }
}

/// The result of a walk down the entries, for an edit of the keys of a range. `keys_outside` is the given length less the
/// number of keys that the range shares with the entries. `tail_value` is a clone of the value of the entry that extends
/// both below and above the range. `old_value` is a clone of the value of the range's first key. Each clone is `None`
/// unless it was needed.
#[derive(Drop)]
pub struct Walk<T: Integer, V> {
    pub plan: Plan<T>,
    pub keys_outside: T::SafeLen,
    pub tail_value: Option<V>,
    pub old_value: Option<V>,
}

/// Visits the entries from the one that may start right above a range down to the first that starts below it. It
/// returns the plan, `len` less the number of keys that the range shares with the entries, and the value of the key
/// `lo`. If `value` is `None`, no entry's value counts as equal. The function is inlined, so that the compiler omits
/// the last result where a caller ignores it.
#[inline(always)]
pub fn look_down<'a, T: Integer, V: Eq>(
    tree: &'a Tree<T, V>,
    len: T::SafeLen,
    lo: T,
    hi: T,
    value: Option<&V>,
    looks: &mut Count,
) -> (Plan<T>, T::SafeLen, Option<&'a V>)
    requires order { T.rank lo ≤ℤ T.rank hi }
    requires ranges { RangesAscend T.low T.high tree.now }
    requires len { covered_keys (T.rank lo) (T.rank hi) tree.now
        ≤ℤ pos (T.SafeLen.number len) }
    ensures plan { IsSeenIn (is_sought V.eq (option_copied value.entry)) (T.rank lo) (T.rank hi)
        tree.now (shown_plan T.rank result.0) }
    ensures len { pos (T.SafeLen.number result.1)
        +ℤ covered_keys (T.rank lo) (T.rank hi) tree.now
        ≡ pos (T.SafeLen.number len) }
    ensures value { option_copied result.2
        ≡ at tree.now (T.rank lo) }
    ensures risen { looks.old.number ≤ looks.new.number }
    ensures few { looks.new.number ≤ looks.old.number + length (from (T.rank lo)
        (below (T.rank hi +ℤ pos 2) tree.now)) + 1 }
{
    tree.in_hand();
    let _ = tree.len();
    let mut plan = Plan::new(hi);
    let mut keys_outside = len;
    let mut held = None;
    let top = next_or_last(hi);
    let mut entries = tree.iter_up_to(top);
    while let Some(next) = next_found(&mut entries, value, looks) {
        let (found, here) = next;
        keys_outside = length_outside(keys_outside, found, lo, hi);
        plan.see(lo, hi, found);
        held = seen_value(lo, held, found, here);
        if is_below(found.start, lo) {
            return (plan, keys_outside, held);
        }
    }
    (plan, keys_outside, held)
}

/// Clones the value of the range's first key if the entry `predecessor`, which starts below the range, extends above it with
/// an unequal value. In that case the key belongs to the entry.
pub fn tail_value_cloned<T: Integer, V: Clone>(
    predecessor: Option<RangeEntry<T, bool>>,
    hi: T,
    held: Option<&V>,
) -> Result<Option<V>, AllocError>
    ensures clone { IfOk result (λ r. IfSome predecessor (λ f. T.rank hi <ℤ T.rank f.end → f.value ≡ false
        → IsClonedIf V.is_clone true (option_copied held.entry) r)) }
    ensures refused { OnErr result
        (IsSomeAnd predecessor (λ f. (T.rank hi <ℤ T.rank f.end) × (f.value ≡ false))) }
{
    match predecessor {
        Some(found) if !found.value && is_below(hi, found.end) => {
            let tail_value = held.cloned()?;
            Ok(tail_value)
        }
        _ => Ok(None),
    }
}

/// Clones a value if `wanted` is `true`. The function is inlined, so that a call with `false` does no work.
#[inline(always)]
pub fn cloned_if<V: Clone>(wanted: bool, held: Option<&V>) -> Result<Option<V>, AllocError>
    ensures clone { IfOk result (λ r. IsClonedIf V.is_clone wanted (option_copied held.entry) r) }
    ensures refused { OnErr result ((wanted ≡ true) × IsSome (option_copied held.entry)) }
{
    if wanted {
        let value = held.cloned()?;
        Ok(value)
    } else {
        Ok(None)
    }
}
