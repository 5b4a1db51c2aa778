//! Removal of the entries or keys that a closure rejects. Whole entries are removed in place. Keys that remain are
//! appended to a new list.
ghost use Rattle.std.specs.Prelude.{◌≡◌, pos, ◌+ℤ◌, ◌-ℤ◌, ◌≤ℤ◌, IfOk, OnOk, OnErr};
ghost use Rattle.std.specs.List.{All};
ghost use Rattle.std.specs.List.Retain.{IsFiltered};
ghost use Rattle.blaze_entries.specs.Canonical.{IsRangeMap};
ghost use Rattle.blaze_entries.specs.Count.{keys_in};
ghost use Rattle.blaze_entries.specs.Entries.{entry, shown_list};
ghost use Rattle.blaze_table.specs.Keeping.{AddsKey, KeepsMore};
ghost use Rattle.blaze_entries.specs.Painted.{ClonesAreAlike};
ghost use Rattle.blaze_entries.specs.Pairs.{pairs_of, pairs_from};
ghost use Rattle.blaze_table.specs.Retain.{AnswersAt, AnswersAtPair, IsCallableAtEach};
ghost use Rattle.blaze_table.specs.Retain.{IsCallableAtPairs, IsKeyRetained, TakesPair};

use super::RangeTable;
use crate::count::count;
use crate::sweep::{lengthen_entry, push_entry};
use blaze_int::compare::is_below;
use blaze_int::{Integer, SafeLength};
use std::alloc::AllocError;
use std::ops::RangeInclusive;

// Appends a key with a clone of a value. The last entry is extended instead if it touches the key and has an equal
// value.
fn put_key<T: Integer, V: Eq + Clone>(
    out: &mut Vec<(T, T, V)>,
    key: T,
    value: &V,
) -> Result<(), AllocError>
    requires { ClonesAreAlike V.is_clone V.eq }
    ensures { OnOk result (AddsKey V.eq (T.rank key) value.now (shown_list T.rank out.old.items)
        (shown_list T.rank out.new.items)) }
{
    if !lengthen_entry(out, key, key, value) {
        let value = value.clone()?;
        push_entry(out, key, key, value)?;
    }
    Ok(())
}

// Appends a key if the closure keeps it, and returns the number of keys without the rejected one.
fn keep_key<T: Integer, V: Eq + Clone, F: Fn(&T, &V) -> bool>(
    out: &mut Vec<(T, T, V)>,
    key: T,
    value: &V,
    len: T::SafeLen,
    f: &F,
) -> Result<T::SafeLen, AllocError>
    requires callable { TakesPair F.Fn f.now (T.of_rank (T.rank key), value.now) }
    requires clones { ClonesAreAlike V.is_clone V.eq }
    requires counted { pos 1 ≤ℤ pos (T.SafeLen.number len) }
    ensures kept { OnOk result (KeepsMore (AnswersAtPair F.Fn) f.now T.rank V.eq T.low T.high
        (pairs_from T.of_rank (T.rank key) 1 value.now) (T.rank key) (T.rank key +ℤ pos 1)
        (shown_list T.rank out.old.items) (shown_list T.rank out.new.items)) }
    ensures room { IfOk result (λ left. pos (T.SafeLen.number len) ≤ℤ
        (pos (T.SafeLen.number left) +ℤ pos 1)) }
    ensures counted { IfOk result (λ left. pos (T.SafeLen.number left) +ℤ keys_in
        (shown_list T.rank out.old.items) +ℤ pos 1
        ≡ pos (T.SafeLen.number len) +ℤ keys_in (shown_list T.rank out.new.items)) }
{
    key.in_hand();
    let stays = f(&key, value);
    if !stays {
        return Ok(len.minus(T::SafeLen::one()));
    }
    put_key(out, key, value)?;
    Ok(len)
}

// Appends the keys of an entry that the closure keeps, with one call for each, ascending. It returns the number of keys
// without the rejected ones.
fn keep_keys<T: Integer, V: Eq + Clone, F: Fn(&T, &V) -> bool>(
    out: &mut Vec<(T, T, V)>,
    start: T,
    end: T,
    value: &V,
    len: T::SafeLen,
    f: &F,
) -> Result<T::SafeLen, AllocError>
    requires callable { All (TakesPair F.Fn f.now)
        (pairs_of T.of_rank (entry (T.rank start) (T.rank end) value.now)) }
    requires clones { ClonesAreAlike V.is_clone V.eq }
    requires order { T.rank start ≤ℤ T.rank end }
    requires counted { (T.rank end -ℤ T.rank start +ℤ pos 1) ≤ℤ pos (T.SafeLen.number len) }
    ensures kept { OnOk result (KeepsMore (AnswersAtPair F.Fn) f.now T.rank V.eq T.low T.high
        (pairs_of T.of_rank (entry (T.rank start) (T.rank end) value.now)) (T.rank start)
        (T.rank end +ℤ pos 1) (shown_list T.rank out.old.items) (shown_list T.rank out.new.items)) }
    ensures counted { IfOk result (λ left. pos (T.SafeLen.number left) +ℤ keys_in
        (shown_list T.rank out.old.items) +ℤ (T.rank end -ℤ T.rank start +ℤ pos 1)
        ≡ pos (T.SafeLen.number len) +ℤ keys_in (shown_list T.rank out.new.items)) }
{
    end.in_hand();
    let mut left = len;
    let mut key = start;
    while is_below(key, end) {
        left = keep_key(out, key, value, left, f)?;
        key = key.add_one();
    }
    left = keep_key(out, key, value, left, f)?;
    Ok(left)
}

impl<T: Integer, V: Eq + Drop> RangeTable<T, V> {
    /// Keeps the entries for which `f` returns `true`. It calls `f` once for each entry, ascending. It allocates
    /// nothing, and the counters do not change. O(n) with n entries, and at most O(log n) more for each removed entry.
    /// If an entry is removed, O(n) more counts the keys.
    pub fn retain_entries<F: FnMut(&RangeInclusive<T>, &V) -> bool>(&mut self, f: F)
        requires { IsCallableAtEach T.rank F.FnMut f self.old.entries }
        ensures range_map { IsRangeMap V.eq T.low T.high self.new.entries }
        ensures kept { IsFiltered (AnswersAt T.rank F.FnMut) f self.old.entries self.new.entries }
        ensures uncounted { self.new ≡ record self.old { entries = self.new.entries } }
    {
        let before = self.entries.len();
        self.entries.retain(f);
        if self.entries.len() != before {
            let len = count(&self.entries);
            self.len = len;
        }
    }
}

impl<T: Integer, V: Eq + Clone> RangeTable<T, V> {
    /// Keeps the keys for which `f` returns `true`. It calls `f` once for each key that has a value, ascending, with
    /// the stored value. If an allocation or a clone fails, the table is unchanged. The counters do not change. O(k)
    /// with k keys that have a value.
    pub fn retain_keys<F: Fn(&T, &V) -> bool>(&mut self, f: F) -> Result<(), AllocError>
        requires callable { IsCallableAtPairs F.Fn f T.of_rank self.old.entries }
        requires clones { ClonesAreAlike V.is_clone V.eq }
        ensures ok { OnOk result
            (IsKeyRetained F.Fn f T.rank T.of_rank V.eq T.low T.high self.old.entries
            self.new.entries) }
        ensures uncounted { OnOk result (self.new
            ≡ record self.old { entries = self.new.entries }) }
        ensures err { OnErr result (self.new ≡ self.old) }
    {
        let mut kept = Vec::new(self.entries.allocator());
        let mut len = self.len;
        for (start, end, value) in self.entries.iter() {
            len = keep_keys(&mut kept, start, end, value, len, &f)?;
        }
        self.entries.set_sorted(kept)?;
        self.len = len;
        Ok(())
    }
}
