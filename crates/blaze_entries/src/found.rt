//! The results of a counted lookup, built from the entry that it found.
ghost use Rattle.std.specs.Prelude.{◌≡◌, ◌<ℤ◌, IfOk, OnErr, IsSome, IsSomeAnd, IfSome};
ghost use Rattle.blaze_entries.specs.Cloned.{IsRangeCloned};
ghost use Rattle.blaze_entries.specs.Entries.{shown_borrowed};
ghost use Rattle.blaze_entries.specs.Found.{found_in, shown_found, range_in, shown_ends};
ghost use Rattle.blaze_entries.specs.Starts.{entry_reaching};
ghost use Rattle.std.specs.Option.{option_map};

use crate::range_entry::RangeEntry;
use blaze_int::Integer;
use blaze_int::compare::is_below;
use std::alloc::AllocError;

/// Returns the entry's first and last key.
pub fn range_of<T: Integer, V>(found: Option<(T, T, &V)>) -> Option<RangeEntry<T, ()>>
    ensures { option_map (shown_ends T.rank) result
        ≡ option_map range_in (shown_borrowed T.rank found.entry) }
{
    let (start, end, _) = found?;
    Some(RangeEntry {
        start,
        end,
        value: (),
    })
}

/// Returns the entry's first and last key, and whether its value equals `value`.
pub fn compared<T: Integer, V: Eq>(
    found: Option<(T, T, &V)>,
    value: &V,
) -> Option<RangeEntry<T, bool>>
    ensures { option_map (shown_found T.rank) result
        ≡ option_map (found_in (λ w. V.eq w value.now)) (shown_borrowed T.rank found.entry) }
{
    let (start, end, other) = found?;
    Some(RangeEntry {
        start,
        end,
        value: *other == *value,
    })
}

/// Returns the entry if it ends at `key` or above.
pub fn entry_reaching<'a, T: Integer, V>(
    found: Option<(T, T, &'a V)>,
    key: T,
) -> Option<(T, T, &'a V)>
    ensures { shown_borrowed T.rank result ≡ entry_reaching (T.rank key) (shown_borrowed T.rank found.entry) }
{
    let (start, end, value) = found?;
    if is_below(end, key) {
        return None;
    }
    Some((start, end, value))
}

/// Returns the entry's first and last key, with a clone of its value if it has more than one key.
pub fn range_cloned<T: Integer, V: Clone>(
    found: Option<(T, T, &V)>,
) -> Result<Option<RangeEntry<T, Option<V>>>, AllocError>
    ensures range { IfOk result
        (λ r. IsRangeCloned T.rank V.is_clone (shown_borrowed T.rank found.entry) r) }
    ensures refused { OnErr result
        (IsSomeAnd (shown_borrowed T.rank found.entry) (λ e. e.lo <ℤ e.hi)) }
{
    let Some((start, end, value)) = found else {
        return Ok(None);
    };
    let value = if is_below(start, end) {
        Some(value.clone()?)
    } else {
        None
    };
    Ok(Some(RangeEntry { start, end, value }))
}

/// Returns a clone of the entry's value. The entry must exist.
pub fn value_cloned<T: Integer, V: Clone>(found: Option<(T, T, &V)>) -> Result<V, AllocError>
    requires { IsSome (shown_borrowed T.rank found) }
    ensures { IfOk result
        (λ copy. IfSome (shown_borrowed T.rank found.entry) (λ e. V.is_clone e.value copy)) }
{
    match found {
        Some((_, _, value)) => {
            let copy = value.clone()?;
            Ok(copy)
        }
        None => unreachable!(),
    }
}
