//! The inserts of an edit: the entry of a range, and the entry of the part above it. Each allocation precedes the first
//! edit that cannot be undone.
ghost use Rattle.std.specs.Prelude.{◌≡◌, ◌<ℤ◌, length, None, OnOk, OnErr, IfSome, IsSome};
ghost use Rattle.std.specs.Option.{option_map};
ghost use Rattle.blaze_entries.specs.Found.{shown_ends};
ghost use Rattle.blaze_entries.specs.Starts.{start_at};
ghost use Rattle.blaze_entries.specs.Canonical.{IsCanonical};
ghost use Rattle.blaze_table.specs.Edited.{HasRoom, IsEditPlan, IsTailSplit};
ghost use Rattle.blaze_entries.specs.Entries.{entry};
ghost use Rattle.blaze_table.specs.Planned.{inner_entries, IsEntrySet, IsWorked};
ghost use Rattle.blaze_table.specs.Work.{IsRefused};

use blaze_entries::{Counted, Plan, RangeEntry};
use blaze_int::Integer;
use blaze_int::compare::is_below;
use std::alloc::AllocError;

/// If an entry extends past `end`, makes the part above `end` a separate entry. The entry itself is moved there, or, if
/// it starts below `lo`, a new entry with the value `tail_value` is inserted. If an allocation fails, the entries are
/// unchanged.
pub fn split_tail<T: Integer, V: Drop>(
    entries: &mut Counted<T, V>,
    lo: T,
    end: T,
    tail: Option<RangeEntry<T, ()>>,
    tail_value: Option<V>,
) -> Result<(), AllocError>
    requires room { HasRoom (T.rank end) entries.old.entries (option_map (shown_ends T.rank) tail) }
    requires tail_value { IfSome tail (λ r. T.rank r.start <ℤ T.rank lo → IsSome tail_value) }
    ensures put { OnOk result (IsTailSplit (T.rank lo) (T.rank end)
        (option_map (shown_ends T.rank) tail) tail_value entries.old.entries entries.new.entries) }
    ensures worked { OnOk result (IsWorked 1 0 entries.old entries.new) }
    ensures refused { OnErr result (IsSome tail) }
    ensures err { OnErr result (entries.new ≡ entries.old) }
{
    match tail {
        None => Ok(()),
        Some(ends) => {
            ends.end.in_hand();
            let next = end.add_one();
            if is_below(ends.start, lo) {
                match tail_value {
                    Some(value) => entries.insert(next, ends.end, value),
                    None => unreachable!(),
                }
            } else {
                entries.move_start(ends.start, next)
            }
        }
    }
}

// Inserts an entry where none starts, and makes the part above it a separate entry.
fn insert_planned<T: Integer, V: Eq + Drop>(
    entries: &mut Counted<T, V>,
    lo: T,
    value: V,
    plan: Plan<T>,
    tail_value: Option<V>,
) -> Result<(), AllocError>
    requires canonical { IsCanonical V.eq entries.old.entries }
    requires place { IsEditPlan T.rank V.eq (T.rank lo) entries.old.entries plan tail_value }
    requires absent { start_at (T.rank lo) entries.old.entries ≡ None }
    ensures ok { OnOk result (IsEntrySet V.eq
        (entry (T.rank lo) (T.rank plan.end) value) entries.old.entries entries.new.entries) }
    ensures removed_count { OnOk result
        (length (inner_entries (T.rank lo) (T.rank plan.end) entries.new.entries) ≡ plan.removed_count) }
    ensures worked { OnOk result (IsWorked 2 0 entries.old entries.new) }
    ensures err { OnErr result (IsRefused entries.old entries.new) }
{
    entries.in_hand();
    entries.insert(lo, plan.end, value)?;
    if let Err(refused) = split_tail(entries, lo, plan.end, plan.tail, tail_value) {
        entries.remove(lo);
        return Err(refused);
    }
    Ok(())
}

// Replaces the entry that starts at `lo`, and makes the part above the new one a separate entry.
fn replace_planned<T: Integer, V: Eq + Drop>(
    entries: &mut Counted<T, V>,
    lo: T,
    value: V,
    plan: Plan<T>,
) -> Result<(), AllocError>
    requires canonical { IsCanonical V.eq entries.old.entries }
    requires place { IsEditPlan T.rank V.eq (T.rank lo) entries.old.entries plan None }
    requires present { IsSome (start_at (T.rank lo) entries.old.entries) }
    ensures ok { OnOk result (IsEntrySet V.eq
        (entry (T.rank lo) (T.rank plan.end) value) entries.old.entries entries.new.entries) }
    ensures removed_count { OnOk result
        (length (inner_entries (T.rank lo) (T.rank plan.end) entries.new.entries) ≡ plan.removed_count) }
    ensures worked { OnOk result (IsWorked 2 0 entries.old entries.new) }
    ensures err { OnErr result (IsRefused entries.old entries.new) }
{
    let Plan { end, tail, .. } = plan;
    match tail {
        None => {
            entries.replace(lo, end, value);
            Ok(())
        }
        Some(ends) => {
            if is_below(lo, ends.start) {
                split_tail(entries, lo, end, Some(ends), None)?;
                entries.replace(lo, end, value);
                Ok(())
            } else {
                ends.end.in_hand();
                let next = end.add_one();
                entries.replace_front(lo, end, value, next)
            }
        }
    }
}

/// Inserts an entry from `lo` to the plan's end, or replaces the entry that starts at `lo` if the plan has one. The
/// part above becomes a separate entry. If an allocation fails, the entries are unchanged.
pub fn insert_or_replace<T: Integer, V: Eq + Drop>(
    entries: &mut Counted<T, V>,
    lo: T,
    value: V,
    plan: Plan<T>,
    tail_value: Option<V>,
) -> Result<(), AllocError>
    requires canonical { IsCanonical V.eq entries.old.entries }
    requires place { IsEditPlan T.rank V.eq (T.rank lo) entries.old.entries plan tail_value }
    ensures ok { OnOk result (IsEntrySet V.eq
        (entry (T.rank lo) (T.rank plan.end) value) entries.old.entries entries.new.entries) }
    ensures removed_count { OnOk result
        (length (inner_entries (T.rank lo) (T.rank plan.end) entries.new.entries) ≡ plan.removed_count) }
    ensures worked { OnOk result (IsWorked 2 0 entries.old entries.new) }
    ensures err { OnErr result (IsRefused entries.old entries.new) }
{
    entries.in_hand();
    match plan.at_start {
        Some(_) => replace_planned(entries, lo, value, plan),
        None => insert_planned(entries, lo, value, plan, tail_value),
    }
}
