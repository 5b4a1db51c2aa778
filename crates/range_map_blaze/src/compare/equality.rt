//! `==` of maps.
ghost use Rattle.std.specs.Prelude.{◌≡◌, ◌↔◌, IsTrue};
ghost use Rattle.std.proofs.Common.{rules};
ghost use Rattle.std.specs.Cmp.Rules.{comparing};
ghost use Rattle.std.specs.Ordering.{on};
ghost use Rattle.blaze_entries.specs.Entries.{SameContent};
ghost use Rattle.blaze_entries.specs.Equality.{same_entries};
ghost use Rattle.blaze_entries.specs.Laws.{IsShortest};

use crate::map::RangeMapBlaze;
use blaze_int::Integer;
use blaze_table::laws::canonical_is_shortest;

impl<T: Integer, V: Eq> PartialEq for RangeMapBlaze<T, V> {
    ghost eq = { on (λ m. m.entries) (same_entries V.eq) };

    ghost laws = { Prim.search (comparing, rules) depth 9 };

    /// Returns whether two maps have the same content: the same ranges, with values that are equal by their own `==`. Does not
    /// allocate. O(n) for n entries, or O(1) if the numbers of entries differ.
    ///
    /// ```
    /// map == map.clone()?; // true
    /// map == other; // false
    /// ```
    fn eq(&self, other: &Self) -> bool
        ensures entries { result ≡ same_entries V.eq self.now.entries other.now.entries }
        ensures content { IsTrue result ↔ SameContent V.eq self.now.entries other.now.entries }
        ensures shortest { IsShortest V.eq self.now.entries }
        ensures other_shortest { IsShortest V.eq other.now.entries }
    {
        canonical_is_shortest::<V>();
        self.in_hand();
        other.in_hand();
        self.table == other.table
    }
}

impl<T: Integer, V: Eq> Eq for RangeMapBlaze<T, V> {
    ghost laws = { Prim.search (comparing, rules) depth 9 };
}
