//! A value for the keys of a range that have none. The gaps first get separate entries, which may fail. Then touching
//! equal entries are joined, which cannot fail.
ghost use Rattle.std.specs.Prelude.{◌≡◌, ◌↔◌, ◌≤ℤ◌, false, Ok, IfOk, OnOk, OnErr, IsTrue};
ghost use Rattle.blaze_entries.specs.Count.{keys_in};
ghost use Rattle.blaze_entries.specs.Entries.{entry, at};
ghost use Rattle.blaze_table.specs.Filled.{IsFilled, IsMappedFrom};
ghost use Rattle.blaze_entries.specs.Painted.{ClonesAreAlike};
ghost use Rattle.blaze_table.specs.Work.{IsCounted};

mod gap;
mod inserts;
mod join;

use super::RangeTable;
use blaze_int::{Integer, differ};
use gap::first_gap;
use inserts::{FillEdits, insert_all, take_back};
use join::join_all;
use std::alloc::AllocError;

impl<T: Integer, V: Eq + Clone> RangeTable<T, V> {
    /// Sets the value of the keys from `lo` to `hi` that have none, and returns whether the number of keys changed.
    ///
    /// The last gap gets `value`, and each gap before it a clone. All allocations and clones precede the joins of
    /// touching equal entries. If one fails, the entries and the number of keys are unchanged. If each key of the range
    /// has a value, nothing changes and nothing is allocated. If a filled gap touches an entry with an equal value, the
    /// stored value remains.
    ///
    /// O(k + (g + 1) log n) with n entries, of which k are in the range, and g gaps. Finding a gap takes two lookups,
    /// filling it takes one, and joining two entries takes four.
    pub fn fill_absent(&mut self, lo: T, hi: T, value: V) -> Result<bool, AllocError>
        requires order { T.rank lo ≤ℤ T.rank hi }
        requires clones { ClonesAreAlike V.is_clone V.eq }
        ensures ok { OnOk result (IsFilled V.eq T.low T.high (entry (T.rank lo) (T.rank hi) value)
            self.old.entries self.new.entries) }
        ensures changed { IfOk result (λ changed. IsTrue changed ↔ (¬ (keys_in self.new.entries
            ≡ keys_in self.old.entries))) }
        ensures held { IsMappedFrom (at self.old.entries) (T.rank lo) (T.rank hi)
            → (result ≡ Ok false) × (self.new.entries ≡ self.old.entries) }
        ensures counted { IsCounted self.old self.new }
        ensures err { OnErr result (self.new.entries ≡ self.old.entries) }
    {
        let Some(first) = first_gap(&self.entries, lo, hi, &value) else {
            return Ok(false);
        };
        let old_len = self.len;
        let mut made = FillEdits::new(self.entries.allocator());
        match insert_all(&mut self.entries, &mut made, old_len, hi, first, value) {
            Ok(new_len) => {
                join_all(&mut self.entries.counted, made.join_keys);
                self.len = new_len;
                Ok(differ(new_len, old_len))
            }
            Err(refused) => {
                take_back(&mut self.entries.counted, made.starts);
                Err(refused)
            }
        }
    }
}
