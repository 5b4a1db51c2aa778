//! The gap around a key of a table.
ghost use Rattle.std.specs.Prelude.{◌≡◌, ◌⊎◌, ◌≤ℤ◌, None, pos, ◌+ℤ◌, ◌-ℤ◌, IsSome};
ghost use Rattle.blaze_entries.specs.Entries.{at};
ghost use Rattle.blaze_table.specs.Gap.{IsGap, IsClearFrom};

use super::RangeTable;
use blaze_int::Integer;

impl<T: Integer, V: Eq> RangeTable<T, V> {
    /// Returns the first and last key of the greatest range without values that contains `key`. It requires that `key`
    /// has no value. O(log n) with n entries.
    pub fn gap_round(&self, key: T) -> (T, T)
        requires { at self.now.entries (T.rank key) ≡ None }
        ensures { IsGap T.low T.high (at self.now.entries) (T.rank key) (T.rank result.0)
            (T.rank result.1) }
    {
        (self.gap_start(key), self.gap_end(key))
    }

    // Returns the key after the entry that starts below `key`, or the least key if no entry does.
    fn gap_start(&self, key: T) -> T
        requires { at self.now.entries (T.rank key) ≡ None }
        ensures is_key { T.low ≤ℤ T.rank result }
        ensures reaches { T.rank result ≤ℤ T.rank key }
        ensures clear { IsClearFrom (at self.now.entries) (T.rank result) (T.rank key) }
        ensures least { (T.rank result
            ≡ T.low) ⊎ IsSome (at self.now.entries (T.rank result -ℤ pos 1)) }
    {
        self.entries.in_hand();
        key.in_hand();
        match self.entries.at_or_below(key) {
            Some(found) => {
                let (_, end, _) = found;
                end.in_hand();
                end.add_one()
            }
            None => T::min_value(),
        }
    }

    // Returns the key before the entry that starts above `key`, or the greatest key if no entry does.
    fn gap_end(&self, key: T) -> T
        requires { at self.now.entries (T.rank key) ≡ None }
        ensures is_key { T.rank result ≤ℤ T.high }
        ensures reaches { T.rank key ≤ℤ T.rank result }
        ensures clear { IsClearFrom (at self.now.entries) (T.rank key) (T.rank result) }
        ensures greatest { (T.rank result
            ≡ T.high) ⊎ IsSome (at self.now.entries (T.rank result +ℤ pos 1)) }
    {
        self.entries.in_hand();
        key.in_hand();
        match self.next_above(key) {
            Some(found) => {
                let (start, _, _) = found;
                start.in_hand();
                start.sub_one()
            }
            None => T::max_value(),
        }
    }
}
