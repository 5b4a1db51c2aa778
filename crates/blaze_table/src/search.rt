//! Lookups of entries by a key that they contain.
ghost use Rattle.std.specs.Prelude.{◌≡◌, option_map};
ghost use Rattle.blaze_entries.specs.Ending.{ending_from};
ghost use Rattle.blaze_entries.specs.Entries.{entry_at, shown_entry};
ghost use Rattle.blaze_table.specs.Filling.{IsOrdered};

use blaze_entries::{Entries, Range};
use blaze_int::Integer;
use blaze_int::compare::is_at_most;

/// Returns the entry that contains `key` as (first key, last key, value). O(log n) with n entries.
pub fn entry_holding<T: Integer, V>(entries: &Entries<T, V>, key: T) -> Option<(T, T, &V)>
    requires { IsOrdered entries.now.counted.entries }
    ensures { option_map (shown_entry T.rank (λ v. v.now)) result
        ≡ entry_at entries.now.counted.entries (T.rank key) }
{
    entries.in_hand();
    let found = entries.at_or_below(key)?;
    let (_, end, _) = found;
    if is_at_most(key, end) {
        Some(found)
    } else {
        None
    }
}

/// Iterates over the entries that end at `key` or above, ascending, each as (first key, last key, value). It allocates
/// nothing. The call takes O(log n) time with n entries.
pub fn entries_ending_from<T: Integer, V>(entries: &Entries<T, V>, key: T) -> Range<'_, T, V>
    requires { IsOrdered entries.now.counted.entries }
    ensures { result ≡ ending_from (T.rank key) entries.now.counted.entries }
{
    match entry_holding(entries, key) {
        Some(found) => {
            let (start, _, _) = found;
            entries.iter_starting_from(start)
        }
        None => entries.iter_starting_from(key),
    }
}
