//! Removal of keys from entries, in place. Each clone and each allocation precedes the first edit that cannot be
//! undone.
ghost use Rattle.std.specs.Prelude.{◌≡◌, ◌-◌, length, Some, None, ◌≤ℤ◌, ◌<ℤ◌};
ghost use Rattle.std.specs.Prelude.{Ok, OnOk, OnErr, IfOk, IsSome, IfSome, IsSomeAnd, slice_get};
ghost use Rattle.blaze_entries.specs.Cloned.{IsRangeCloned, IsManyCloned};
ghost use Rattle.blaze_entries.specs.Found.{range_in};
ghost use Rattle.blaze_entries.specs.Starts.{holder_of};
ghost use Rattle.blaze_entries.specs.Canonical.{IsCanonical};
ghost use Rattle.blaze_entries.specs.Cut.{IsAmongOthers, GoesOnAbove};
ghost use Rattle.blaze_entries.specs.Entries.{at};
ghost use Rattle.blaze_entries.specs.Painted.{ClonesAreAlike};
ghost use Rattle.blaze_table.specs.Planned.{IsWorked};
ghost use Rattle.blaze_entries.specs.Splice.{IsKeyTaken, IsKeyCut, IsFirstKeyCut, IsLastKeyCut, IsTableCut};
ghost use Rattle.blaze_entries.specs.Table.{IsTable};
ghost use Rattle.blaze_table.specs.Work.{IsCountedCut, IsRefused};

use crate::edit::remove_keys;
use blaze_entries::{Counted, RangeEntry, Walk};
use blaze_int::compare::is_below;
use blaze_int::{Integer, SafeLength};
use std::alloc::AllocError;

// Removes a key from an entry with more keys, from `start` to `end`, and returns `value`, a clone of the entry's value.
// Only the part of the entry above the key may need an allocation: it becomes a separate entry.
fn cut_shared<T: Integer, V: Eq + Clone>(
    entries: &mut Counted<T, V>,
    key: T,
    start: T,
    end: T,
    value: V,
) -> Result<V, AllocError>
    requires clones { ClonesAreAlike V.is_clone V.eq }
    requires canonical { IsCanonical V.eq entries.old.entries }
    requires held { IsSomeAnd (holder_of (T.rank key) entries.old.entries)
        (λ e. ((T.rank start, T.rank end) ≡ range_in e) × IsManyCloned V.is_clone e (Some value)) }
    ensures cut { IfOk result (λ value. IsKeyTaken V.eq (T.rank key) (Some value)
        entries.old.entries entries.new.entries) }
    ensures worked { OnOk result (IsWorked 1 0 entries.old entries.new) }
    ensures refused { OnErr result (T.rank key <ℤ T.rank end) }
    ensures err { OnErr result (entries.new ≡ entries.old) }
{
    entries.in_hand();
    start.in_hand();
    end.in_hand();
    if !is_below(key, end) {
        entries.set_end(start, key.sub_one());
        return Ok(value);
    }
    let next = key.add_one();
    if !is_below(start, key) {
        entries.move_start(start, next)?;
        return Ok(value);
    }
    let tail_value = value.clone()?;
    entries.insert(next, end, tail_value)?;
    entries.set_end(start, key.sub_one());
    Ok(value)
}

// Removes a key from the entry that contains it, given the result of the lookup, and returns the key's value.
fn cut_key<T: Integer, V: Eq + Clone>(
    entries: &mut Counted<T, V>,
    key: T,
    entry: RangeEntry<T, Option<V>>,
) -> Result<V, AllocError>
    requires clones { ClonesAreAlike V.is_clone V.eq }
    requires canonical { IsCanonical V.eq entries.old.entries }
    requires held { IsRangeCloned T.rank V.is_clone
        (holder_of (T.rank key) entries.old.entries) (Some entry) }
    ensures cut { IfOk result (λ value. IsKeyTaken V.eq (T.rank key) (Some value)
        entries.old.entries entries.new.entries) }
    ensures worked { OnOk result (IsWorked 1 0 entries.old entries.new) }
    ensures refused { OnErr result (IsAmongOthers (T.rank key) entries.old.entries) }
    ensures err { OnErr result (entries.new ≡ entries.old) }
{
    entries.in_hand();
    let RangeEntry { start, end, value } = entry;
    match value {
        Some(value) => cut_shared(entries, key, start, end, value),
        None => Ok(entries.remove(key)),
    }
}

// Removes a key from the entry that contains it, given the result of the lookup. It returns the key's value and the new
// number of keys, where `len` is the old one.
fn cut_counted_key<T: Integer, V: Eq + Clone>(
    entries: &mut Counted<T, V>,
    len: T::SafeLen,
    key: T,
    entry: RangeEntry<T, Option<V>>,
) -> Result<(V, T::SafeLen), AllocError>
    requires clones { ClonesAreAlike V.is_clone V.eq }
    requires table { IsTable V.eq T.low T.high (T.SafeLen.number len) entries.old.entries }
    requires held { IsRangeCloned T.rank V.is_clone
        (holder_of (T.rank key) entries.old.entries) (Some entry) }
    ensures cut { IfOk result (λ r. IsKeyCut V.eq T.low T.high (T.SafeLen.number r.1)
        (T.rank key) (Some r.0) entries.old.entries entries.new.entries) }
    ensures worked { OnOk result (IsWorked 1 0 entries.old entries.new) }
    ensures refused { OnErr result (IsAmongOthers (T.rank key) entries.old.entries) }
    ensures err { OnErr result (IsRefused entries.old entries.new) }
{
    entries.in_hand();
    let value = cut_key(entries, key, entry)?;
    let new_len = len.minus(T::SafeLen::one());
    Ok((value, new_len))
}

/// Removes a key. It returns the key's value and the new number of keys, where `len` is the old one. If an allocation
/// or a clone fails, the entries are unchanged. O(log n) with n entries.
pub fn cut<T: Integer, V: Eq + Clone>(
    entries: &mut Counted<T, V>,
    len: T::SafeLen,
    key: T,
) -> Result<(Option<V>, T::SafeLen), AllocError>
    requires clones { ClonesAreAlike V.is_clone V.eq }
    requires table { IsTable V.eq T.low T.high (T.SafeLen.number len) entries.old.entries }
    ensures cut { IfOk result (λ r. IsKeyCut V.eq T.low T.high (T.SafeLen.number r.1)
        (T.rank key) r.0 entries.old.entries entries.new.entries) }
    ensures none { at entries.old.entries (T.rank key) ≡ None
        → (result ≡ Ok (None, len)) × (entries.new.entries ≡ entries.old.entries) }
    ensures counted { OnOk result (IsCountedCut entries.old entries.new) }
    ensures refused { OnErr result (IsAmongOthers (T.rank key) entries.old.entries) }
    ensures err { OnErr result (IsRefused entries.old entries.new) }
{
    entries.in_hand();
    let found = entries.entry_containing(key)?;
    match found {
        Some(entry) => {
            let (value, new_len) = cut_counted_key(entries, len, key, entry)?;
            Ok((Some(value), new_len))
        }
        None => Ok((None, len)),
    }
}

// Removes the first key of the first entry, given the result of the lookup, and returns its value. The part of the
// entry above the key becomes a new entry with the lookup's clone. The first entry is then removed without comparing
// keys.
fn cut_front<T: Integer, V: Eq + Clone>(
    entries: &mut Counted<T, V>,
    entry: RangeEntry<T, Option<V>>,
) -> Result<V, AllocError>
    requires clones { ClonesAreAlike V.is_clone V.eq }
    requires canonical { IsCanonical V.eq entries.old.entries }
    requires held { IsRangeCloned T.rank V.is_clone
        (slice_get entries.old.entries 0) (Some entry) }
    ensures cut { IfOk result (λ value. IsKeyTaken V.eq (T.rank entry.start) (Some value)
        entries.old.entries entries.new.entries) }
    ensures worked { OnOk result (IsWorked 1 0 entries.old entries.new) }
    ensures refused { OnErr result (IsSomeAnd (slice_get entries.old.entries 0) (λ e. e.lo <ℤ e.hi)) }
    ensures err { OnErr result (IsRefused entries.old entries.new) }
{
    entries.in_hand();
    let RangeEntry { start, end, value } = entry;
    match value {
        Some(value) => {
            end.in_hand();
            entries.insert(start.add_one(), end, value)?;
            Ok(entries.remove_first())
        }
        None => Ok(entries.remove_first()),
    }
}

/// Removes the first key, which must exist. It returns the key, its value and the new number of keys, where `len` is
/// the old one. If an allocation or a clone fails, the entries are unchanged. O(log n) with n entries.
pub fn cut_first<T: Integer, V: Eq + Clone>(
    entries: &mut Counted<T, V>,
    len: T::SafeLen,
) -> Result<(T, V, T::SafeLen), AllocError>
    requires clones { ClonesAreAlike V.is_clone V.eq }
    requires table { IsTable V.eq T.low T.high (T.SafeLen.number len) entries.old.entries }
    requires first { IsSome (slice_get entries.old.entries 0) }
    ensures cut { IfOk result (λ r. IsFirstKeyCut V.eq T.low T.high (T.SafeLen.number r.2)
        (T.rank r.0) r.1 entries.old.entries entries.new.entries) }
    ensures counted { OnOk result (IsCountedCut entries.old entries.new) }
    ensures refused { OnErr result (IfSome (slice_get entries.old.entries 0)
        (λ e. IsAmongOthers e.lo entries.old.entries)) }
    ensures err { OnErr result (IsRefused entries.old entries.new) }
{
    entries.in_hand();
    let first = entries.first_range_cloned()?;
    match first {
        Some(entry) => {
            let key = entry.start;
            let value = cut_front(entries, entry)?;
            let new_len = len.minus(T::SafeLen::one());
            Ok((key, value, new_len))
        }
        None => unreachable!(),
    }
}

// Removes the last key of the last entry, given the result of the lookup, and returns its value. It allocates nothing
// and compares no keys of other entries.
fn cut_back<T: Integer, V: Eq + Clone>(
    entries: &mut Counted<T, V>,
    entry: RangeEntry<T, Option<V>>,
) -> V
    requires clones { ClonesAreAlike V.is_clone V.eq }
    requires canonical { IsCanonical V.eq entries.old.entries }
    requires held { IsRangeCloned T.rank V.is_clone
        (slice_get entries.old.entries (length entries.old.entries - 1)) (Some entry) }
    ensures cut { IsKeyTaken V.eq (T.rank entry.end) (Some result)
        entries.old.entries entries.new.entries }
    ensures worked { IsWorked 0 0 entries.old entries.new }
{
    entries.in_hand();
    let RangeEntry { start, end, value } = entry;
    match value {
        Some(value) => {
            start.in_hand();
            entries.set_last_end(end.sub_one());
            value
        }
        None => entries.remove_last(),
    }
}

/// Removes the last key, which must exist. It returns the key, its value and the new number of keys, where `len` is the
/// old one. If the clone of the value fails, the entries are unchanged. O(log n) with n entries, without comparing keys
/// in the tree.
pub fn cut_last<T: Integer, V: Eq + Clone>(
    entries: &mut Counted<T, V>,
    len: T::SafeLen,
) -> Result<(T, V, T::SafeLen), AllocError>
    requires clones { ClonesAreAlike V.is_clone V.eq }
    requires table { IsTable V.eq T.low T.high (T.SafeLen.number len) entries.old.entries }
    requires last { IsSome (slice_get entries.old.entries (length entries.old.entries - 1)) }
    ensures cut { IfOk result (λ r. IsLastKeyCut V.eq T.low T.high (T.SafeLen.number r.2)
        (T.rank r.0) r.1 entries.old.entries entries.new.entries) }
    ensures counted { OnOk result (IsCountedCut entries.old entries.new) }
    ensures refused { OnErr result
        (IfSome (slice_get entries.old.entries (length entries.old.entries - 1))
        (λ e. IsAmongOthers e.hi entries.old.entries)) }
    ensures err { OnErr result (IsRefused entries.old entries.new) }
{
    entries.in_hand();
    let last = entries.last_range_cloned()?;
    match last {
        Some(entry) => {
            let key = entry.end;
            let value = cut_back(entries, entry);
            let new_len = len.minus(T::SafeLen::one());
            Ok((key, value, new_len))
        }
        None => unreachable!(),
    }
}

/// Removes the keys from `lo` to `hi` and returns the new number of keys, where `len` is the old one. If an allocation
/// or a clone fails, the entries are unchanged. O((k + 1) log n) with n entries, of which k share keys with the range.
pub fn cut_range<T: Integer, V: Eq + Clone>(
    entries: &mut Counted<T, V>,
    len: T::SafeLen,
    lo: T,
    hi: T,
) -> Result<T::SafeLen, AllocError>
    requires order { T.rank lo ≤ℤ T.rank hi }
    requires clones { ClonesAreAlike V.is_clone V.eq }
    requires table { IsTable V.eq T.low T.high (T.SafeLen.number len) entries.old.entries }
    ensures cut { IfOk result (λ new_len. IsTableCut V.eq T.low T.high (T.SafeLen.number new_len)
        (T.rank lo) (T.rank hi) entries.old.entries entries.new.entries) }
    ensures counted { OnOk result (IsCountedCut entries.old entries.new) }
    ensures refused { OnErr result (GoesOnAbove (T.rank hi) entries.old.entries) }
    ensures err { OnErr result (IsRefused entries.old entries.new) }
{
    entries.in_hand();
    let sought: Option<V> = None;
    let found = entries.walk(len, lo, hi, sought.as_ref(), false)?;
    let Walk {
        plan,
        keys_outside,
        tail_value,
        ..
    } = found;
    remove_keys(entries, lo, plan, tail_value)?;
    Ok(keys_outside)
}
