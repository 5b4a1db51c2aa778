//! `==` of sets.
ghost use Rattle.std.specs.Prelude.{◌≡◌, ◌↔◌, ℤ, IsTrue};
ghost use Rattle.std.proofs.Common.{rules};
ghost use Rattle.std.specs.Cmp.Rules.{comparing};
ghost use Rattle.blaze_entries.specs.Entries.{at};
ghost use Rattle.blaze_entries.specs.RangeSets.{same_ranges};

use crate::set::range_set::RangeSetBlaze;
use blaze_int::Integer;

impl<T: Integer> PartialEq for RangeSetBlaze<T> {
    ghost eq = { same_ranges };

    ghost laws = { Prim.search (comparing, rules) depth 9 };

    /// Returns whether two sets have the same keys, and so the same ranges. It allocates nothing. O(n) with n ranges.
    fn eq(&self, other: &Self) -> bool
        ensures value { result ≡ same_ranges self.now other.now }
        ensures ranges { IsTrue result ↔ (self.now ≡ other.now) }
        ensures keys { IsTrue result ↔ ((k : ℤ) → at self.now k ≡ at other.now k) }
    {
        self.in_hand();
        other.in_hand();
        self.table == other.table
    }
}

impl<T: Integer> Eq for RangeSetBlaze<T> {
    ghost laws = { Prim.search (comparing, rules) depth 9 };
}
