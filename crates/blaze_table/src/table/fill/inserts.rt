//! Entries inserted into gaps one by one, and removed again if an allocation fails.
ghost use Rattle.std.specs.Prelude.{◌≡◌, [], ◌∷◌, ◌++◌, map, pos, ◌+ℤ◌, ◌<ℤ◌, None, IsTrue, OnOk, OnErr, IfOk};
ghost use Rattle.blaze_entries.specs.Starts.{start_at, with_entry};
ghost use Rattle.blaze_entries.specs.Entries.{entry, at};
ghost use Rattle.blaze_table.specs.Filling.{AreThere, GoesBack, IsFilledBut, IsGapFilled};
ghost use Rattle.blaze_table.specs.Filling.{IsNextGap, IsNoted, HasNoEdits, IsOrderedTable, without_all};
ghost use Rattle.blaze_entries.specs.Painted.{ClonesAreAlike};
ghost use Rattle.blaze_entries.specs.Table.{IsTable};
ghost use Rattle.blaze_table.specs.Work.{IsCounted};

use super::gap::{Gap, gap_above};
use blaze_entries::{Counted, Entries};
use blaze_int::compare::length;
use blaze_int::{Integer, SafeLength};
use std::alloc::{AllocError, Global};

/// The inserts of a fill: the starts of its entries, and the joints. A joint is the start of an entry that must be
/// joined with the previous one.
#[derive(Drop)]
pub struct FillEdits<T> {
    pub starts: Vec<T>,
    pub join_keys: Vec<T>,
}

impl<T> FillEdits<T> {
    /// Returns the record of no inserts. It allocates nothing.
    pub fn new(alloc: Global) -> Self
        ensures { HasNoEdits result.starts.items result.join_keys.items }
    {
        FillEdits {
            starts: Vec::new(alloc),
            join_keys: Vec::new(alloc),
        }
    }
}

// Appends a key to the joints if `is_joint` is true.
fn note<T: Integer>(join_keys: &mut Vec<T>, key: T, is_joint: bool) -> Result<(), AllocError>
    ensures { OnOk result (IsNoted is_joint (T.rank key) (map T.rank join_keys.old.items)
        (map T.rank join_keys.new.items)) }
{
    if is_joint {
        join_keys.push(key)?;
    }
    Ok(())
}

// Appends the key after `key` to the joints if `is_joint` is true.
fn note_after<T: Integer>(join_keys: &mut Vec<T>, key: T, is_joint: bool) -> Result<(), AllocError>
    requires { IsTrue is_joint → T.rank key <ℤ T.high }
    ensures { OnOk result (IsNoted is_joint (T.rank key +ℤ pos 1) (map T.rank join_keys.old.items)
        (map T.rank join_keys.new.items)) }
{
    if is_joint {
        join_keys.push(key.add_one())?;
    }
    Ok(())
}

// Inserts an entry and records its start. If an allocation fails, both the entries and the starts are unchanged.
fn insert_gap<T: Integer, V: Drop>(
    entries: &mut Counted<T, V>,
    starts: &mut Vec<T>,
    gap: Gap<T>,
    value: V,
) -> Result<(), AllocError>
    requires absent { start_at (T.rank gap.start) entries.old.entries ≡ None }
    ensures ok { OnOk result
        (entries.new.entries ≡ with_entry (entry (T.rank gap.start) (T.rank gap.end) value) entries.old.entries) }
    ensures starts { OnOk result (starts.new.items ≡ starts.old.items ++ gap.start ∷ []) }
    ensures counted { IsCounted entries.old entries.new }
    ensures err { OnErr result (entries.new.entries ≡ entries.old.entries) }
    ensures err_starts { OnErr result (starts.new.items ≡ starts.old.items) }
{
    entries.in_hand();
    entries.insert(gap.start, gap.end, value)?;
    if starts.push(gap.start).is_err() {
        entries.remove(gap.start);
        return Err(AllocError);
    }
    Ok(())
}

// Inserts an entry for a gap and records its start and its joints.
fn fill_gap<T: Integer, V: Drop>(
    entries: &mut Counted<T, V>,
    made: &mut FillEdits<T>,
    gap: Gap<T>,
    value: V,
) -> Result<(), AllocError>
    requires absent { start_at (T.rank gap.start) entries.old.entries ≡ None }
    requires above { IsTrue gap.equal_above → T.rank gap.end <ℤ T.high }
    ensures ok { OnOk result (IsGapFilled (T.rank gap.start) (T.rank gap.end) value
        gap.equal_below gap.equal_above entries.old.entries entries.new.entries
        (map T.rank made.old.starts.items) (map T.rank made.new.starts.items)
        (map T.rank made.old.join_keys.items) (map T.rank made.new.join_keys.items)) }
    ensures counted { IsCounted entries.old entries.new }
    ensures err { OnErr result (entries.new.entries ≡ entries.old.entries) }
    ensures err_starts { OnErr result (made.new.starts.items ≡ made.old.starts.items) }
{
    note(&mut made.join_keys, gap.start, gap.equal_below)?;
    note_after(&mut made.join_keys, gap.end, gap.equal_above)?;
    insert_gap(entries, &mut made.starts, gap, value)?;
    Ok(())
}

/// Inserts an entry for each gap from `first` up to `hi`, the last one with `value` and the others with clones. It
/// returns the new number of keys, where `len` is the old one. If an allocation or a clone fails, `made` has the starts
/// to remove.
pub fn insert_all<T: Integer, V: Eq + Clone>(
    entries: &mut Entries<T, V>,
    made: &mut FillEdits<T>,
    len: T::SafeLen,
    hi: T,
    first: Gap<T>,
    value: V,
) -> Result<T::SafeLen, AllocError>
    requires clones { ClonesAreAlike V.is_clone V.eq }
    requires table { IsTable V.eq T.low T.high (T.SafeLen.number len) entries.old.counted.entries }
    requires first { IsNextGap V.eq (at entries.old.counted.entries) value (T.rank first.start) (T.rank hi)
        (T.rank first.start) (T.rank first.end) first.equal_below first.equal_above }
    requires made { HasNoEdits made.old.starts.items made.old.join_keys.items }
    ensures table { IfOk result (λ new. IsOrderedTable T.low T.high (T.SafeLen.number new) entries.new.counted.entries) }
    ensures filled { OnOk result (IsFilledBut V.eq (T.rank first.start) (T.rank hi) value
        (map T.rank made.new.starts.items) (map T.rank made.new.join_keys.items)
        entries.old.counted.entries entries.new.counted.entries) }
    ensures counted { IsCounted entries.old.counted entries.new.counted }
    ensures back { OnErr result (GoesBack (map T.rank made.new.starts.items)
        entries.new.counted.entries entries.old.counted.entries) }
{
    first.start.in_hand();
    hi.in_hand();
    let mut gap = first;
    let mut sum = len;
    while let Some(next) = gap_above(entries, gap.end, hi, &value) {
        let clone = value.clone()?;
        fill_gap(&mut entries.counted, made, gap, clone)?;
        sum = sum.plus(length(gap.start, gap.end));
        gap = next;
    }
    fill_gap(&mut entries.counted, made, gap, value)?;
    Ok(sum.plus(length(gap.start, gap.end)))
}

/// Removes the entries with the given starts, the last first. O(k log n) with k starts and n entries.
pub fn take_back<T: Integer, V: Drop>(entries: &mut Counted<T, V>, starts: Vec<T>)
    requires { AreThere (map T.rank starts.items) entries.old.entries }
    ensures entries { entries.new.entries ≡ without_all (map T.rank starts.items) entries.old.entries }
    ensures counted { IsCounted entries.old entries.new }
{
    let mut starts = starts;
    while let Some(start) = starts.pop() {
        entries.remove(start);
    }
}
