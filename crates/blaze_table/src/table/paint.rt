//! Edits in place that set the value of every key in a range.
ghost use Rattle.std.specs.Prelude.{◌≡◌, ◌↔◌, ◌≤ℤ◌, false, Ok, IfOk, OnOk, OnErr, IsTrue};
ghost use Rattle.blaze_entries.specs.Count.{keys_in};
ghost use Rattle.blaze_entries.specs.Entries.{entry, at, SameOption};
ghost use Rattle.blaze_entries.specs.Painted.{IsPainted, ClonesAreAlike, IsInside};
ghost use Rattle.blaze_table.specs.Work.{IsRefused, IsCountedPaint};

use super::RangeTable;
use crate::looks::walk_by_looks;
use crate::splice::paint_planned;
use blaze_int::{Integer, differ};
use std::alloc::AllocError;

impl<T: Integer, V: Eq + Clone> RangeTable<T, V> {
    /// Sets the value of every key from `lo` to `hi`, replacing the old values. It returns whether the number of keys
    /// changed.
    ///
    /// One walk visits the entries that touch the range. If an allocation or a clone fails, the entries are unchanged.
    /// If one entry with an equal value contains the range, nothing changes, not even the stored value, and nothing is
    /// allocated. O((k + 1) log n) with n entries, of which k touch the range.
    pub fn paint(&mut self, lo: T, hi: T, value: V) -> Result<bool, AllocError>
        requires order { T.rank lo ≤ℤ T.rank hi }
        requires clones { ClonesAreAlike V.is_clone V.eq }
        ensures ok { OnOk result (IsPainted V.eq T.low T.high (entry (T.rank lo) (T.rank hi) value)
            self.old.entries self.new.entries) }
        ensures changed { IfOk result (λ changed. IsTrue changed ↔ (¬ (keys_in self.new.entries
            ≡ keys_in self.old.entries))) }
        ensures inside { IsInside V.eq (T.rank lo) (T.rank hi) value self.old.entries
            → (result ≡ Ok false) × (self.new.entries ≡ self.old.entries) }
        ensures counted { OnOk result (IsCountedPaint self.old self.new) }
        ensures err { OnErr result (IsRefused self.old self.new) }
    {
        self.entries.in_hand();
        let old_len = self.len;
        let entries = &mut self.entries.counted;
        let found = entries.walk(old_len, lo, hi, Some(&value), false)?;
        let new_len = paint_planned(entries, old_len, lo, hi, value, found)?;
        self.len = new_len;
        Ok(differ(new_len, old_len))
    }

    /// Sets the value of every key from `lo` to `hi`, replacing the old values. It makes a single lookup for each
    /// visited entry instead of one walk. It returns whether the number of keys changed. If an allocation or a clone
    /// fails, the entries and the number of keys are unchanged. O((k + 1) log n) with n entries, of which k touch the
    /// range.
    pub fn paint_by_splice(&mut self, lo: T, hi: T, value: V) -> Result<bool, AllocError>
        requires order { T.rank lo ≤ℤ T.rank hi }
        requires clones { ClonesAreAlike V.is_clone V.eq }
        ensures ok { OnOk result (IsPainted V.eq T.low T.high (entry (T.rank lo) (T.rank hi) value)
            self.old.entries self.new.entries) }
        ensures changed { IfOk result (λ changed. IsTrue changed ↔ (¬ (keys_in self.new.entries
            ≡ keys_in self.old.entries))) }
        ensures inside { IsInside V.eq (T.rank lo) (T.rank hi) value self.old.entries
            → (result ≡ Ok false) × (self.new.entries ≡ self.old.entries) }
        ensures counted { OnOk result (IsCountedPaint self.old self.new) }
        ensures err { OnErr result (IsRefused self.old self.new) }
    {
        self.entries.in_hand();
        let old_len = self.len;
        let entries = &mut self.entries.counted;
        let found = walk_by_looks(entries, old_len, lo, hi, &value)?;
        let new_len = paint_planned(entries, old_len, lo, hi, value, found)?;
        self.len = new_len;
        Ok(differ(new_len, old_len))
    }

    /// Sets the value of `key` and returns a clone of its old value, or `None` if it had none. If an allocation or a
    /// clone fails, the entries are unchanged. O(log n) with n entries.
    pub fn insert(&mut self, key: T, value: V) -> Result<Option<V>, AllocError>
        requires { ClonesAreAlike V.is_clone V.eq }
        ensures ok { OnOk result (IsPainted V.eq T.low T.high
            (entry (T.rank key) (T.rank key) value) self.old.entries self.new.entries) }
        ensures value { IfOk result
            (λ old. SameOption V.eq (at self.old.entries (T.rank key)) old) }
        ensures inside { IsInside V.eq (T.rank key) (T.rank key) value self.old.entries
            → self.new.entries ≡ self.old.entries }
        ensures counted { OnOk result (IsCountedPaint self.old self.new) }
        ensures err { OnErr result (IsRefused self.old self.new) }
    {
        self.entries.in_hand();
        let old_len = self.len;
        let entries = &mut self.entries.counted;
        let mut found = entries.walk(old_len, key, key, Some(&value), true)?;
        let old = found.old_value.take();
        let new_len = paint_planned(entries, old_len, key, key, value, found)?;
        self.len = new_len;
        Ok(old)
    }
}
