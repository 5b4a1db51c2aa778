//! An edit in place that sets the value of a range's keys, given the results of a walk.
ghost use Rattle.std.specs.Option.{option_map, option_or};
ghost use Rattle.std.specs.Prelude.{◌≡◌, ◌≤ℤ◌, Ok, IfOk, OnOk, OnErr};
ghost use Rattle.blaze_entries.specs.Found.{shown_found};
ghost use Rattle.blaze_entries.specs.Walked.{shown_plan};
ghost use Rattle.blaze_table.specs.Work.{IsRefused};
ghost use Rattle.blaze_entries.specs.Entries.{entry};
ghost use Rattle.blaze_entries.specs.Painted.{IsInside};
ghost use Rattle.blaze_table.specs.Planned.{joined_start, reaches, IsWalkOf, IsWorked};
ghost use Rattle.blaze_entries.specs.Splice.{IsTablePainted};
ghost use Rattle.blaze_entries.specs.Table.{IsTable};

use crate::edit::{extend, set_entry};
use blaze_entries::{Counted, Plan, RangeEntry, Walk};
use blaze_int::compare::{is_at_most, is_next, length};
use blaze_int::{Integer, SafeLength};
use std::alloc::AllocError;

// Returns whether one entry contains all keys of a range that ends at `hi`, with an equal value.
fn is_inside<T: Integer>(plan: Plan<T>, hi: T) -> bool
    ensures { result
        ≡ reaches (T.rank hi) (option_or (shown_plan T.rank plan).at_start (shown_plan T.rank plan).predecessor) }
{
    match plan.at_start.or(plan.predecessor) {
        Some(found) => found.value && is_at_most(hi, found.end),
        None => false,
    }
}

// Returns the start of the entry below a painted range if the two are joined.
fn joined_below<T: Integer>(predecessor: Option<RangeEntry<T, bool>>, lo: T) -> Option<T>
    ensures { option_map T.rank result
        ≡ joined_start (T.rank lo) (option_map (shown_found T.rank) predecessor) }
{
    match predecessor {
        Some(found) if found.value && (is_at_most(lo, found.end) || is_next(found.end, lo)) => {
            Some(found.start)
        }
        _ => None,
    }
}

/// Sets the value of every key from `lo` to `hi`, given the results of a walk, and returns the new number of keys. All
/// inserts, which may fail, precede the first edit that cannot be undone. If one entry with an equal value contains the
/// range, nothing changes. If an allocation fails, the entries are unchanged. The function is inlined, so that the plan
/// is not copied.
#[inline(always)]
pub fn paint_planned<T: Integer, V: Eq + Drop>(
    entries: &mut Counted<T, V>,
    len: T::SafeLen,
    lo: T,
    hi: T,
    value: V,
    walk: Walk<T, V>,
) -> Result<T::SafeLen, AllocError>
    requires order { T.rank lo ≤ℤ T.rank hi }
    requires table { IsTable V.eq T.low T.high (T.SafeLen.number len) entries.old.entries }
    requires walk { IsWalkOf V.eq (λ w. V.eq w value)
        (T.rank lo) (T.rank hi) entries.old.entries
        (shown_plan T.rank walk.plan) (T.SafeLen.number walk.keys_outside) walk.tail_value }
    ensures painted { IfOk result (λ len. IsTablePainted V.eq T.low T.high (T.SafeLen.number len)
        (entry (T.rank lo) (T.rank hi) value) entries.old.entries entries.new.entries) }
    ensures inside { IsInside V.eq (T.rank lo) (T.rank hi) value entries.old.entries
        → (result ≡ Ok len) × (entries.new.entries ≡ entries.old.entries) }
    ensures worked { OnOk result (IsWorked 2 0 entries.old entries.new) }
    ensures err { OnErr result (IsRefused entries.old entries.new) }
{
    entries.in_hand();
    lo.in_hand();
    hi.in_hand();
    let Walk {
        plan,
        keys_outside,
        tail_value,
        ..
    } = walk;
    if is_inside(plan, hi) {
        return Ok(len);
    }
    let painted = keys_outside.plus(length(lo, hi));
    match joined_below(plan.predecessor, lo) {
        Some(first) => {
            extend(entries, first, lo, plan)?;
            Ok(painted)
        }
        None => {
            set_entry(entries, lo, value, plan, tail_value)?;
            Ok(painted)
        }
    }
}
