//! Removal of a key or a range of keys from a table.
ghost use Rattle.std.specs.Prelude.{◌≡◌, ◌-◌, ◌≤ℤ◌, [], length, slice_get, Some, None, Ok, IfOk, OnOk, OnErr};
ghost use Rattle.std.specs.Prelude.{MatchOption};
ghost use Rattle.blaze_entries.specs.Entries.{Entry, at, SameOption};
ghost use Rattle.blaze_entries.specs.Painted.{ClonesAreAlike};
ghost use Rattle.blaze_entries.specs.Cut.{IsKeyRemoved, IsFirstKeyRemoved, IsLastKeyRemoved, IsRangeCut, IsAmongOthers};
ghost use Rattle.blaze_entries.specs.Cut.{GoesOnAbove};
ghost use Rattle.blaze_table.specs.Work.{IsRefused, IsCountedCut};

use super::RangeTable;
use crate::cut::{cut, cut_first, cut_last, cut_range};
use blaze_int::Integer;
use std::alloc::AllocError;

impl<T: Integer, V: Eq + Clone> RangeTable<T, V> {
    /// Removes a key and returns its value, or `None` if the key has no value. If an allocation or a clone fails, the
    /// table is unchanged. It allocates nothing if the key has no value or its entry has only this key. O(log n) with n
    /// entries.
    pub fn cut_key(&mut self, key: T) -> Result<Option<V>, AllocError>
        requires { ClonesAreAlike V.is_clone V.eq }
        ensures ok { OnOk result
            (IsKeyRemoved V.eq T.low T.high (T.rank key) self.old.entries self.new.entries) }
        ensures value { IfOk result
            (λ value. SameOption V.eq (at self.old.entries (T.rank key)) value) }
        ensures none { at self.old.entries (T.rank key) ≡ None → (result ≡ Ok None)
            × (self.new.entries ≡ self.old.entries) }
        ensures counted { OnOk result (IsCountedCut self.old self.new) }
        ensures refused { OnErr result (IsAmongOthers (T.rank key) self.old.entries) }
        ensures err { OnErr result (IsRefused self.old self.new) }
    {
        let old_len = self.len;
        let (value, len) = cut(&mut self.entries.counted, old_len, key)?;
        self.len = len;
        Ok(value)
    }

    /// Removes the first key and returns it with its value, or `None` if the table is empty. If an allocation or a
    /// clone fails, the table is unchanged. It allocates nothing if the table is empty or the key's entry has only this
    /// key. O(log n) with n entries: the other keys of the entry become a new entry.
    pub fn pop_first(&mut self) -> Result<Option<(T, V)>, AllocError>
        requires { ClonesAreAlike V.is_clone V.eq }
        ensures ok { IfOk result (λ popped. MatchOption popped ((self.old.entries ≡ [])
            × (self.new ≡ self.old)) (λ pair. IsFirstKeyRemoved V.eq T.low T.high (T.rank pair.0) pair.1
            self.old.entries self.new.entries)) }
        ensures counted { OnOk result (IsCountedCut self.old self.new) }
        ensures refused { OnErr result ((first : Entry V)
            × (slice_get self.old.entries 0 ≡ Some first)
            × IsAmongOthers first.lo self.old.entries) }
        ensures err { OnErr result (IsRefused self.old self.new) }
    {
        if self.entries.len() == 0 {
            return Ok(None);
        }
        let old_len = self.len;
        let (key, value, len) = cut_first(&mut self.entries.counted, old_len)?;
        self.len = len;
        Ok(Some((key, value)))
    }

    /// Removes the last key and returns it with its value, or `None` if the table is empty. It allocates nothing except
    /// the clone of the value, which it makes only if the key's entry has more keys. If the clone fails, the table is
    /// unchanged. O(log n) with n entries, without comparing keys in the tree.
    pub fn pop_last(&mut self) -> Result<Option<(T, V)>, AllocError>
        requires { ClonesAreAlike V.is_clone V.eq }
        ensures ok { IfOk result (λ popped. MatchOption popped ((self.old.entries ≡ [])
            × (self.new ≡ self.old)) (λ pair. IsLastKeyRemoved V.eq T.low T.high (T.rank pair.0) pair.1
            self.old.entries self.new.entries)) }
        ensures counted { OnOk result (IsCountedCut self.old self.new) }
        ensures refused { OnErr result ((last : Entry V)
            × (slice_get self.old.entries (length self.old.entries - 1) ≡ Some last)
            × IsAmongOthers last.hi self.old.entries) }
        ensures err { OnErr result (IsRefused self.old self.new) }
    {
        if self.entries.len() == 0 {
            return Ok(None);
        }
        let old_len = self.len;
        let (key, value, len) = cut_last(&mut self.entries.counted, old_len)?;
        self.len = len;
        Ok(Some((key, value)))
    }

    /// Removes the keys from `lo` to `hi`. If an allocation or a clone fails, the table is unchanged. It allocates only
    /// if an entry with keys in the range extends above it. O((k + 1) log n) with n entries, of which k share keys with
    /// the range.
    pub fn cut_range(&mut self, lo: T, hi: T) -> Result<(), AllocError>
        requires order { T.rank lo ≤ℤ T.rank hi }
        requires clones { ClonesAreAlike V.is_clone V.eq }
        ensures ok { OnOk result (IsRangeCut V.eq T.low T.high (T.rank lo) (T.rank hi)
            self.old.entries self.new.entries) }
        ensures counted { OnOk result (IsCountedCut self.old self.new) }
        ensures refused { OnErr result (GoesOnAbove (T.rank hi) self.old.entries) }
        ensures err { OnErr result (IsRefused self.old self.new) }
    {
        let old_len = self.len;
        let len = cut_range(&mut self.entries.counted, old_len, lo, hi)?;
        self.len = len;
        Ok(())
    }
}
