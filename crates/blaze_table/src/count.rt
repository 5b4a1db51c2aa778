//! The number of keys of a list of entries.
ghost use Rattle.std.specs.Prelude.{◌≡◌, pos, ◌≤ℤ◌};
ghost use Rattle.blaze_entries.specs.Canonical.{IsCanonical};
ghost use Rattle.blaze_entries.specs.Count.{keys_in};
ghost use Rattle.blaze_entries.specs.Entries.{shown_list};

use blaze_entries::Entries;
use blaze_int::compare::length;
use blaze_int::{Integer, SafeLength};

/// Returns the number of keys of the entries. O(n) with n entries.
pub fn count<T: Integer, V: Eq>(entries: &Entries<T, V>) -> T::SafeLen
    requires canonical { IsCanonical V.eq entries.now.counted.entries }
    requires fits { keys_in entries.now.counted.entries ≤ℤ pos T.SafeLen.most }
    ensures { pos (T.SafeLen.number result) ≡ keys_in entries.now.counted.entries }
{
    let mut sum = T::SafeLen::zero();
    for (start, end, _) in entries.iter() {
        sum = sum.plus(length(start, end));
    }
    sum
}

/// Returns the number of keys of a list of (first key, last key, value). O(n) with n entries.
pub fn count_list<T: Integer, V: Eq>(entries: &[(T, T, V)]) -> T::SafeLen
    requires canonical { IsCanonical V.eq (shown_list T.rank entries.now) }
    requires fits { keys_in (shown_list T.rank entries.now) ≤ℤ pos T.SafeLen.most }
    ensures { pos (T.SafeLen.number result) ≡ keys_in (shown_list T.rank entries.now) }
{
    let mut sum = T::SafeLen::zero();
    for (start, end, _) in entries {
        sum = sum.plus(length(*start, *end));
    }
    sum
}
