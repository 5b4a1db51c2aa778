//! A split of a table at a key, in place. The insert and the split, which may fail, precede every other edit.
ghost use Rattle.std.specs.Prelude.{◌≡◌, pos, ◌+ℤ◌, ◌≤ℤ◌, IfOk, OnErr};
ghost use Rattle.std.specs.Option.{option_map};
ghost use Rattle.blaze_entries.specs.Counted.{uncounted};
ghost use Rattle.blaze_entries.specs.Found.{range_in, shown_ends};
ghost use Rattle.blaze_entries.specs.Starts.{last_below};
ghost use Rattle.blaze_entries.specs.Canonical.{IsCanonical};
ghost use Rattle.blaze_entries.specs.Count.{keys_in};
ghost use Rattle.blaze_entries.specs.Cut.{IsSplit};
ghost use Rattle.blaze_table.specs.LastBelow.{IsLastBelow};
ghost use Rattle.blaze_entries.specs.Painted.{ClonesAreAlike};
ghost use Rattle.blaze_entries.specs.Splice.{IsSplitOf};
ghost use Rattle.blaze_table.specs.Sides.{AreKeptFrom};

use super::RangeTable;
use crate::count::count;
use blaze_entries::{Entries, RangeEntry};
use blaze_int::compare::is_at_most;
use blaze_int::{Integer, SafeLength, length_in_hand};
use std::alloc::AllocError;

// Returns the first and last key of the entry with the greatest start below `key`.
fn range_below<T: Integer, V>(entries: &Entries<T, V>, key: T) -> Option<RangeEntry<T, ()>>
    ensures { option_map (shown_ends T.rank) result
        ≡ option_map range_in (last_below (T.rank key) entries.now.counted.entries) }
{
    let (start, end, _) = entries.below(key)?;
    Some(RangeEntry {
        start,
        end,
        value: (),
    })
}

// Splits the entries at a key inside an entry, which starts below the key and is given by its ends.
fn split_across<T: Integer, V: Eq + Clone>(
    entries: &mut Entries<T, V>,
    key: T,
    ends: RangeEntry<T, ()>,
) -> Result<Entries<T, V>, AllocError>
    requires clones { ClonesAreAlike V.is_clone V.eq }
    requires canonical { IsCanonical V.eq entries.old.counted.entries }
    requires found { IsLastBelow (T.rank key) (T.rank ends.start) (T.rank ends.end) entries.old.counted.entries }
    requires reaches { T.rank key ≤ℤ T.rank ends.end }
    ensures split { IfOk result (λ from. IsSplitOf V.eq
        (T.rank key) entries.old.counted.entries entries.new.counted.entries from.counted.entries) }
    ensures kept { IfOk result (λ from. AreKeptFrom (T.rank key)
        entries.old.counted.entries from.counted.entries) }
    ensures same { IfOk result
        (λ from. (entries.new.counted ≡ record entries.old.counted { entries = entries.new.counted.entries })
        × (from.counted ≡ uncounted from.counted.entries)) }
    ensures err { OnErr result (entries.new.counted ≡ entries.old.counted) }
{
    entries.in_hand();
    ends.start.in_hand();
    entries.insert_clone(ends.start, key)?;
    match entries.split_off(key) {
        Ok(from) => {
            entries.counted.set_end(ends.start, key.sub_one());
            Ok(from)
        }
        Err(refused) => {
            entries.remove(key);
            Err(refused)
        }
    }
}

// Splits the entries at a key.
pub(super) fn split_at<T: Integer, V: Eq + Clone>(
    entries: &mut Entries<T, V>,
    key: T,
) -> Result<Entries<T, V>, AllocError>
    requires clones { ClonesAreAlike V.is_clone V.eq }
    requires canonical { IsCanonical V.eq entries.old.counted.entries }
    ensures split { IfOk result (λ from. IsSplitOf V.eq
        (T.rank key) entries.old.counted.entries entries.new.counted.entries from.counted.entries) }
    ensures kept { IfOk result (λ from. AreKeptFrom (T.rank key)
        entries.old.counted.entries from.counted.entries) }
    ensures same { IfOk result
        (λ from. (entries.new.counted ≡ record entries.old.counted { entries = entries.new.counted.entries })
        × (from.counted ≡ uncounted from.counted.entries)) }
    ensures err { OnErr result (entries.new.counted ≡ entries.old.counted) }
{
    entries.in_hand();
    match range_below(entries, key) {
        Some(ends) if is_at_most(key, ends.end) => split_across(entries, key, ends),
        _ => entries.split_off(key),
    }
}

// Returns the numbers of keys of both parts, where `len` is their sum. It visits only the part with fewer entries.
pub(super) fn count_parts<T: Integer, V: Eq>(
    below: &Entries<T, V>,
    from: &Entries<T, V>,
    len: T::SafeLen,
) -> (T::SafeLen, T::SafeLen)
    requires below { IsCanonical V.eq below.now.counted.entries }
    requires from { IsCanonical V.eq from.now.counted.entries }
    requires counted { keys_in below.now.counted.entries +ℤ keys_in from.now.counted.entries
        ≡ pos (T.SafeLen.number len) }
    ensures below { pos (T.SafeLen.number result.0) ≡ keys_in below.now.counted.entries }
    ensures from { pos (T.SafeLen.number result.1) ≡ keys_in from.now.counted.entries }
{
    length_in_hand(len);
    if below.len() < from.len() {
        let below_len = count(below);
        (below_len, len.minus(below_len))
    } else {
        let from_len = count(from);
        (len.minus(from_len), from_len)
    }
}

impl<T: Integer, V: Eq + Clone> RangeTable<T, V> {
    /// Keeps the keys below `key` and returns the table of the keys from `key` on. If an allocation or a clone fails,
    /// the table is unchanged. O(log n + m) with n entries, where the smaller part has m.
    pub fn split_at(&mut self, key: T) -> Result<Self, AllocError>
        requires { ClonesAreAlike V.is_clone V.eq }
        ensures ok { IfOk result (λ from. IsSplit V.eq T.low T.high (T.rank key) self.old.entries
            self.new.entries from.entries) }
        ensures uncounted { IfOk result (λ from. (self.new
            ≡ record self.old { entries = self.new.entries }) × (from ≡ uncounted from.entries)) }
        ensures err { OnErr result (self.new ≡ self.old) }
    {
        let old_len = self.len;
        let entries = split_at(&mut self.entries, key)?;
        let (below_len, from_len) = count_parts(&self.entries, &entries, old_len);
        self.len = below_len;
        Ok(RangeTable {
            entries,
            len: from_len,
        })
    }
}
