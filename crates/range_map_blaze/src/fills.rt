//! The gaps of a map, filled with the entries of another map or of a stream.
ghost use Rattle.std.specs.Prelude.{◌≡◌, [], Ok, OnOk, OnErr, ◌≤ℤ◌};
ghost use Rattle.blaze_entries.specs.Entries.{entry};
ghost use Rattle.blaze_table.specs.Filled.{IsFilled};
ghost use Rattle.blaze_entries.specs.Painted.{ClonesAreAlike};
ghost use Rattle.blaze_table.specs.Work.{IsCounted};
ghost use Rattle.range_map_blaze.specs.FilledFrom.{IsFilledFrom, IsPartlyFilledFrom};

use crate::map::RangeMapBlaze;
use blaze_int::Integer;
use blaze_streams::{SortedDisjointMap, ValueCarrier};
use std::alloc::AllocError;

impl<T: Integer, V: Eq + Clone> RangeMapBlaze<T, V> {
    /// Sets the values of the keys of `other` that have none in this map. Where both maps have a value, that of this map remains.
    /// The entries of `other` are filled in ascending, each as by `ranges_insert_absent`, with clones of their values.
    ///
    /// Does not allocate if `other` is empty. If an allocation fails, a first part of the entries is filled in, perhaps none.
    /// O(log n) for each entry of `other` and each gap that it fills, O(1) for each entry in its range, for n entries.
    ///
    /// ```
    /// let blocks = RangeMapBlaze::from_ranges(alloc, [(0..=12, 'z')])?;
    /// map.extend_absent(&blocks)?;
    /// map; // (0..=9, 'z'), (10..=14, 'a'), (15..=15, 'b'), (30..=39, 'c')
    /// ```
    pub fn extend_absent(&mut self, other: &Self) -> Result<(), AllocError>
        requires { ClonesAreAlike V.is_clone V.eq }
        ensures ok { OnOk result (IsFilledFrom V.eq T.low T.high other.now.entries self.old.entries
            self.new.entries) }
        ensures empty { other.now.entries ≡ [] → (result ≡ Ok tt) × (self.new ≡ self.old) }
        ensures err { OnErr result
            (IsPartlyFilledFrom V.eq T.low T.high other.now.entries self.old.entries
            self.new.entries) }
        ensures counted { IsCounted self.old self.new }
    {
        self.in_hand();
        if other.is_empty() {
            return Ok(());
        }
        self.fill_ranges(other.range_values())
    }

    // Sets the value of every key from `start` up to `end` that has none.
    fn fill(&mut self, start: T, end: T, value: V) -> Result<(), AllocError>
        requires order { T.rank start ≤ℤ T.rank end }
        requires clones { ClonesAreAlike V.is_clone V.eq }
        ensures ok { OnOk result (IsFilled V.eq T.low T.high
            (entry (T.rank start) (T.rank end) value) self.old.entries self.new.entries) }
        ensures err { OnErr result (self.new.entries ≡ self.old.entries) }
        ensures counted { IsCounted self.old self.new }
    {
        let _ = self.table.fill_absent(start, end, value)?;
        Ok(())
    }

    // Fills the gaps with the ranges of a stream, ascending. `extend_absent` and the union share this loop.
    pub(crate) fn fill_ranges<VC: ValueCarrier<Value = V>, S: SortedDisjointMap<T, VC>>(
        &mut self,
        ranges: S,
    ) -> Result<(), AllocError>
        requires can { VC.can_carry }
        requires clones { ClonesAreAlike V.is_clone V.eq }
        ensures ok { OnOk result (IsFilledFrom V.eq T.low T.high (S.left ranges) self.old.entries
            self.new.entries) }
        ensures err { OnErr result (IsPartlyFilledFrom V.eq T.low T.high (S.left ranges)
            self.old.entries self.new.entries) }
        ensures counted { IsCounted self.old self.new }
    {
        self.in_hand();
        ranges.in_hand();
        for (range, carrier) in ranges {
            let (start, end) = range.into_inner();
            self.fill(start, end, carrier.into_value()?)?;
        }
        Ok(())
    }
}
