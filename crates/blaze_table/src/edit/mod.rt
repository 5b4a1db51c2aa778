//! Edits of the entries that touch a range: a value, a longer entry or nothing replaces them. The inserts, which may
//! fail, come first.
ghost use Rattle.std.specs.Prelude.{◌≡◌, Some, None, OnOk, OnErr, IsSome};
ghost use Rattle.std.specs.Option.{option_map};
ghost use Rattle.blaze_entries.specs.Canonical.{IsCanonical};
ghost use Rattle.blaze_table.specs.Edited.{IsEditPlan};
ghost use Rattle.blaze_entries.specs.Entries.{entry};
ghost use Rattle.blaze_table.specs.Planned.{IsEntryExtended, IsEntryBetween, IsWorked};
ghost use Rattle.blaze_entries.specs.Splice.{IsRangeTaken};
ghost use Rattle.blaze_table.specs.Work.{IsRefused};

mod place;
mod room;

use blaze_entries::{Counted, Plan};
use blaze_int::Integer;
use place::{insert_or_replace, split_tail};
use room::{clear, clear_above, is_removed, trim};
use std::alloc::AllocError;

/// Inserts an entry from `lo` to the plan's end. It requires that the entry is joined with none below it. `tail_value` is
/// equal to the value of the entry that extends both below and above the range, if one exists. If an allocation fails,
/// the entries are unchanged.
pub fn set_entry<T: Integer, V: Eq + Drop>(
    entries: &mut Counted<T, V>,
    lo: T,
    value: V,
    plan: Plan<T>,
    tail_value: Option<V>,
) -> Result<(), AllocError>
    requires canonical { IsCanonical V.eq entries.old.entries }
    requires place { IsEditPlan T.rank V.eq (T.rank lo) entries.old.entries plan tail_value }
    ensures put { OnOk result
        (IsEntryBetween V.eq
        (entry (T.rank lo) (T.rank plan.end) value) entries.old.entries entries.new.entries) }
    ensures worked { OnOk result (IsWorked 2 0 entries.old entries.new) }
    ensures err { OnErr result (IsRefused entries.old entries.new) }
{
    entries.in_hand();
    insert_or_replace(entries, lo, value, plan, tail_value)?;
    entries.in_hand();
    trim(entries, lo, plan.predecessor);
    entries.in_hand();
    clear_above(entries, lo, plan.removed_count);
    Ok(())
}

/// Extends the entry that starts at `first`, the last one below `lo`, to the plan's end. It requires that this entry
/// ends within the range or right below it. If an allocation fails, the entries are unchanged.
pub fn extend<T: Integer, V: Eq + Drop>(
    entries: &mut Counted<T, V>,
    first: T,
    lo: T,
    plan: Plan<T>,
) -> Result<(), AllocError>
    requires canonical { IsCanonical V.eq entries.old.entries }
    requires place { IsEditPlan T.rank V.eq (T.rank lo) entries.old.entries plan None }
    requires joined { option_map (λ f. T.rank f.start) plan.predecessor ≡ Some (T.rank first) }
    ensures extended { OnOk result
        (IsEntryExtended V.eq (T.rank first) (T.rank plan.end) entries.old.entries entries.new.entries) }
    ensures worked { OnOk result (IsWorked 1 0 entries.old entries.new) }
    ensures err { OnErr result (IsRefused entries.old entries.new) }
{
    entries.in_hand();
    split_tail(entries, lo, plan.end, plan.tail, None)?;
    entries.in_hand();
    let is_first_removed = is_removed(lo, plan.at_start, plan.tail);
    clear(entries, lo, is_first_removed, plan.removed_count);
    entries.set_end(first, plan.end);
    Ok(())
}

/// Removes the keys from `lo` to the plan's end. `tail_value` is equal to the value of the entry that extends both below and
/// above them, if one exists. If an allocation fails, the entries are unchanged.
pub fn remove_keys<T: Integer, V: Eq + Drop>(
    entries: &mut Counted<T, V>,
    lo: T,
    plan: Plan<T>,
    tail_value: Option<V>,
) -> Result<(), AllocError>
    requires canonical { IsCanonical V.eq entries.old.entries }
    requires place { IsEditPlan T.rank V.eq (T.rank lo) entries.old.entries plan tail_value }
    ensures cut { OnOk result (IsRangeTaken V.eq
        (T.rank lo) (T.rank plan.end) entries.old.entries entries.new.entries) }
    ensures worked { OnOk result (IsWorked 1 0 entries.old entries.new) }
    ensures refused { OnErr result (IsSome plan.tail) }
    ensures err { OnErr result (IsRefused entries.old entries.new) }
{
    entries.in_hand();
    split_tail(entries, lo, plan.end, plan.tail, tail_value)?;
    entries.in_hand();
    trim(entries, lo, plan.predecessor);
    entries.in_hand();
    let is_first_removed = is_removed(lo, plan.at_start, plan.tail);
    clear(entries, lo, is_first_removed, plan.removed_count);
    Ok(())
}
