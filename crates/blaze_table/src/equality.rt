//! `==` of tables.
ghost use Rattle.std.specs.Prelude.{◌≡◌, ◌↔◌, IsTrue};
ghost use Rattle.std.proofs.Common.{rules};
ghost use Rattle.std.specs.Cmp.Rules.{comparing};
ghost use Rattle.std.specs.Ordering.{on};
ghost use Rattle.blaze_entries.specs.Entries.{SameContent, shown_entry};
ghost use Rattle.blaze_entries.specs.Equality.{same_entry, same_entries};

use crate::table::RangeTable;
use blaze_int::Integer;

// Returns whether two entries have the same ends and equal values.
fn is_same_entry<T: Integer, V: Eq>(left: (T, T, &V), right: (T, T, &V)) -> bool
    ensures { result ≡ same_entry V.eq (shown_entry T.rank (λ v. v.now) left.entry)
        (shown_entry T.rank (λ v. v.now) right.entry) }
{
    let (start, end, value) = left;
    let (other_start, other_end, other) = right;
    start.in_hand();
    end.in_hand();
    other_start.in_hand();
    other_end.in_hand();
    start == other_start && end == other_end && *value == *other
}

// Returns whether two tables have the same number of entries, and equal entries at each position.
fn have_same_entries<T: Integer, V: Eq>(left: &RangeTable<T, V>, right: &RangeTable<T, V>) -> bool
    ensures { result ≡ same_entries V.eq left.now.entries right.now.entries }
{
    if left.entries() != right.entries() {
        return false;
    }
    let mut others = right.iter();
    for entry in left.iter() {
        let Some(other) = others.next() else {
            return false;
        };
        if !is_same_entry(entry, other) {
            return false;
        }
    }
    others.next().is_none()
}

impl<T: Integer, V: Eq> PartialEq for RangeTable<T, V> {
    ghost eq = { on (λ t. t.entries) (same_entries V.eq) };

    ghost laws = { Prim.search (comparing, rules) depth 9 };

    /// Returns whether two tables have the same keys with equal values, by the values' own `==`. Equal tables have the
    /// same ranges at each position. It allocates nothing. O(n) with n entries.
    fn eq(&self, other: &Self) -> bool
        ensures entries { result ≡ same_entries V.eq self.now.entries other.now.entries }
        ensures content { IsTrue result ↔ SameContent V.eq self.now.entries other.now.entries }
    {
        self.in_hand();
        other.in_hand();
        have_same_entries(self, other)
    }
}

impl<T: Integer, V: Eq> Eq for RangeTable<T, V> {
    ghost laws = { Prim.search (comparing, rules) depth 9 };
}
