//! The last or the first part of a table, moved to a new table. The entries that leave count as removed.
ghost use Rattle.std.specs.Prelude.{◌≡◌, IfOk, OnOk, OnErr};
ghost use Rattle.blaze_entries.specs.Canonical.{IsCanonical};
ghost use Rattle.blaze_entries.specs.Counted.{uncounted};
ghost use Rattle.blaze_entries.specs.Cut.{IsSplit};
ghost use Rattle.blaze_entries.specs.Painted.{ClonesAreAlike};
ghost use Rattle.blaze_entries.specs.Splice.{IsSplitOf};
ghost use Rattle.blaze_table.specs.Sides.{AreKeptBelow, AreKeptFrom};
ghost use Rattle.blaze_table.specs.Work.{IsCountedCut};

use super::RangeTable;
use super::split::{count_parts, split_at};
use blaze_entries::Entries;
use blaze_int::Integer;
use std::alloc::AllocError;

// Removes the keys from `key` on and returns their entries.
fn entries_from<T: Integer, V: Eq + Clone>(
    entries: &mut Entries<T, V>,
    key: T,
) -> Result<Entries<T, V>, AllocError>
    requires clones { ClonesAreAlike V.is_clone V.eq }
    requires canonical { IsCanonical V.eq entries.old.counted.entries }
    ensures split { IfOk result (λ taken. IsSplitOf V.eq
        (T.rank key) entries.old.counted.entries entries.new.counted.entries taken.counted.entries) }
    ensures uncounted { IfOk result (λ taken. taken.counted ≡ uncounted taken.counted.entries) }
    ensures counted { OnOk result (IsCountedCut entries.old.counted entries.new.counted) }
    ensures err { OnErr result (entries.new.counted ≡ entries.old.counted) }
{
    let old_count = entries.len();
    let taken = split_at(entries, key)?;
    let count = entries.len();
    let removed = old_count - count;
    entries.counted.count_removed(removed);
    Ok(taken)
}

// Removes the keys below `key` and returns their entries.
fn entries_below<T: Integer, V: Eq + Clone>(
    entries: &mut Entries<T, V>,
    key: T,
) -> Result<Entries<T, V>, AllocError>
    requires clones { ClonesAreAlike V.is_clone V.eq }
    requires canonical { IsCanonical V.eq entries.old.counted.entries }
    ensures split { IfOk result (λ taken. IsSplitOf V.eq
        (T.rank key) entries.old.counted.entries taken.counted.entries entries.new.counted.entries) }
    ensures kept { OnOk result (AreKeptFrom (T.rank key)
        entries.old.counted.entries entries.new.counted.entries) }
    ensures uncounted { IfOk result (λ taken. taken.counted ≡ uncounted taken.counted.entries) }
    ensures counted { OnOk result (IsCountedCut entries.old.counted entries.new.counted) }
    ensures err { OnErr result (entries.new.counted ≡ entries.old.counted) }
{
    let old_count = entries.len();
    let mut taken = split_at(entries, key)?;
    entries.exchange(&mut taken);
    let count = entries.len();
    let removed = old_count - count;
    entries.counted.count_removed(removed);
    Ok(taken)
}

impl<T: Integer, V: Eq + Clone> RangeTable<T, V> {
    /// Removes the keys from `key` on and returns the table of them. The values move, and at most one is cloned: that
    /// of an entry with keys on both sides of the split. If an allocation or a clone fails, the table is unchanged.
    /// O(log n + m) with n entries, where the smaller part has m.
    pub fn part_from(&mut self, key: T) -> Result<Self, AllocError>
        requires { ClonesAreAlike V.is_clone V.eq }
        ensures ok { IfOk result (λ taken. IsSplit V.eq T.low T.high (T.rank key) self.old.entries
            self.new.entries taken.entries) }
        ensures kept { OnOk result (AreKeptBelow (T.rank key) self.old.entries self.new.entries) }
        ensures uncounted { IfOk result (λ taken. taken ≡ uncounted taken.entries) }
        ensures counted { OnOk result (IsCountedCut self.old self.new) }
        ensures err { OnErr result (self.new ≡ self.old) }
    {
        let old_len = self.len;
        let entries = entries_from(&mut self.entries, key)?;
        let (below_len, from_len) = count_parts(&self.entries, &entries, old_len);
        self.len = below_len;
        Ok(RangeTable {
            entries,
            len: from_len,
        })
    }

    /// Removes the keys below `key` and returns the table of them. The values move, and at most one is cloned: that of
    /// an entry with keys on both sides of the split. If an allocation or a clone fails, the table is unchanged.
    /// O(log n + m) with n entries, where the smaller part has m.
    pub fn part_below(&mut self, key: T) -> Result<Self, AllocError>
        requires { ClonesAreAlike V.is_clone V.eq }
        ensures ok { IfOk result (λ taken. IsSplit V.eq T.low T.high (T.rank key) self.old.entries
            taken.entries self.new.entries) }
        ensures kept { OnOk result (AreKeptFrom (T.rank key) self.old.entries self.new.entries) }
        ensures uncounted { IfOk result (λ taken. taken ≡ uncounted taken.entries) }
        ensures counted { OnOk result (IsCountedCut self.old self.new) }
        ensures err { OnErr result (self.new ≡ self.old) }
    {
        let old_len = self.len;
        let entries = entries_below(&mut self.entries, key)?;
        let (below_len, from_len) = count_parts(&entries, &self.entries, old_len);
        self.len = from_len;
        Ok(RangeTable {
            entries,
            len: below_len,
        })
    }
}
