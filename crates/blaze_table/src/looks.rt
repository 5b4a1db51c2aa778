//! The plan of a paint, computed by single lookups of the entries near its range.
ghost use Rattle.std.specs.Prelude.{◌≡◌, ◌+◌, ◌≤◌, pos, ◌+ℤ◌, ◌≤ℤ◌, ◌<ℤ◌, length, true, false};
ghost use Rattle.std.specs.Prelude.{IsSome, IsSomeAnd, IfSome, IfOk, OnErr};
ghost use Rattle.std.specs.Option.{option_map};
ghost use Rattle.blaze_entries.specs.Overlap.{covered_keys};
ghost use Rattle.blaze_entries.specs.Starts.{below, from, start_at};
ghost use Rattle.blaze_entries.specs.Walked.{RangesAscend, shown_plan, IsSeenIn, IsClonedIf};
ghost use Rattle.blaze_entries.specs.Painted.{ClonesAreAlike};
ghost use Rattle.blaze_table.specs.Planned.{IsWalkOf, HasEditLookups, GoesOnUnequal};
ghost use Rattle.blaze_entries.specs.Table.{IsTable};

use blaze_entries::{Counted, Plan, RangeEntry, Walk, length_outside, next_or_last};
use blaze_int::Integer;
use blaze_int::compare::is_below;
use std::alloc::AllocError;

// Visits the entries from the one that may start right above the range down to the first that starts below it, by
// single lookups. It returns the plan, and `len` less the number of keys that the entries share with the range.
fn plan<T: Integer, V: Eq>(
    entries: &mut Counted<T, V>,
    len: T::SafeLen,
    lo: T,
    hi: T,
    value: &V,
) -> (Plan<T>, T::SafeLen)
    requires order { T.rank lo ≤ℤ T.rank hi }
    requires ranges { RangesAscend T.low T.high entries.old.entries }
    requires len { covered_keys (T.rank lo) (T.rank hi) entries.old.entries
        ≤ℤ pos (T.SafeLen.number len) }
    ensures plan { IsSeenIn (λ w. V.eq w value.now) (T.rank lo) (T.rank hi) entries.old.entries
        (shown_plan T.rank result.0) }
    ensures len { pos (T.SafeLen.number result.1)
        +ℤ covered_keys (T.rank lo) (T.rank hi) entries.old.entries ≡ pos (T.SafeLen.number len) }
    ensures looked { entries.new ≡ record entries.old { looks = entries.new.looks } }
    ensures risen { entries.old.looks ≤ entries.new.looks }
    ensures few { entries.new.looks ≤ entries.old.looks
        + length (from (T.rank lo) (below (T.rank hi +ℤ pos 2) entries.old.entries)) + 1 }
{
    entries.in_hand();
    entries.length_in_hand();
    let mut plan = Plan::new(hi);
    let mut keys_outside = len;
    let mut last = entries.found_at_or_below(next_or_last(hi), value);
    while let Some(found) = last {
        keys_outside = length_outside(keys_outside, found, lo, hi);
        plan.see(lo, hi, found);
        if is_below(found.start, lo) {
            return (plan, keys_outside);
        }
        last = entries.found_below(found.start, value);
    }
    (plan, keys_outside)
}

// Clones the value of the entry `predecessor`, which starts below a range, if it extends above the range with an unequal
// value. It takes one lookup. If the clone fails, the entries are unchanged.
fn value_above<T: Integer, V: Eq + Clone>(
    entries: &mut Counted<T, V>,
    hi: T,
    predecessor: Option<RangeEntry<T, bool>>,
) -> Result<Option<V>, AllocError>
    requires { IfSome predecessor (λ f. IsSome (start_at (T.rank f.start) entries.old.entries)) }
    ensures above { IfOk result (λ r. IfSome predecessor (λ f. T.rank hi <ℤ T.rank f.end → f.value ≡ false
        → IsClonedIf V.is_clone true
        (option_map (λ e. e.value) (start_at (T.rank f.start) entries.old.entries)) r)) }
    ensures refused { OnErr result
        (IsSomeAnd predecessor (λ f. (T.rank hi <ℤ T.rank f.end) × (f.value ≡ false))) }
    ensures looked { entries.new ≡ record entries.old { looks = entries.new.looks } }
    ensures risen { entries.old.looks ≤ entries.new.looks }
    ensures few { entries.new.looks ≤ entries.old.looks + 1 }
{
    match predecessor {
        Some(found) if !found.value && is_below(hi, found.end) => {
            let tail_value = entries.clone_value(found.start)?;
            Ok(Some(tail_value))
        }
        _ => Ok(None),
    }
}

/// Returns the plan for an edit of the keys from `lo` to `hi`, as `Counted::walk` does, but by single lookups. If the
/// clone of a value fails, the entries are unchanged. O((k + 1) log n) with n entries, of which k are visited.
#[inline(always)]
pub fn walk_by_looks<T: Integer, V: Eq + Clone>(
    entries: &mut Counted<T, V>,
    len: T::SafeLen,
    lo: T,
    hi: T,
    value: &V,
) -> Result<Walk<T, V>, AllocError>
    requires order { T.rank lo ≤ℤ T.rank hi }
    requires clones { ClonesAreAlike V.is_clone V.eq }
    requires table { IsTable V.eq T.low T.high (T.SafeLen.number len) entries.old.entries }
    ensures found { IfOk result (λ w. IsWalkOf V.eq (λ x. V.eq x value.now)
        (T.rank lo) (T.rank hi) entries.old.entries
        (shown_plan T.rank w.plan) (T.SafeLen.number w.keys_outside) w.tail_value) }
    ensures refused { OnErr result
        (GoesOnUnequal (λ x. V.eq x value.now) (T.rank hi) entries.old.entries) }
    ensures looked { HasEditLookups (T.rank lo) (T.rank hi) entries.old entries.new }
{
    entries.in_hand();
    let (plan, keys_outside) = plan(entries, len, lo, hi, value);
    let tail_value = value_above(entries, hi, plan.predecessor)?;
    Ok(Walk {
        plan,
        keys_outside,
        tail_value,
        old_value: None,
    })
}
