//! The ends of a list's entries are keys.
ghost use Rattle.blaze_entries.specs.Canonical.{AreKeys};
ghost use Rattle.blaze_entries.specs.Entries.{shown_list};

use blaze_int::Integer;

/// Does nothing. Its contract states that the ends of a list of (first key, last key, value) are keys.
pub fn keys_in_hand<T: Integer, V>(entries: &[(T, T, V)])
    ensures { AreKeys T.low T.high (shown_list T.rank entries.now) }
{
    for (start, end, _) in entries {
        start.in_hand();
        end.in_hand();
    }
}
