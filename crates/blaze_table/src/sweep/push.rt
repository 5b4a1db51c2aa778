//! Entries appended one by one.
ghost use Rattle.std.specs.Prelude.{◌≡◌, ◌∷◌, ◌++◌, [], OnOk, OnErr, MatchBool};
ghost use Rattle.blaze_entries.specs.Entries.{entry, shown_list};
ghost use Rattle.blaze_entries.specs.Splice.{glue};

use blaze_int::Integer;
use blaze_int::compare::is_next;
use std::alloc::AllocError;

/// Extends the last entry to `end` if it ends right below `start` and has an equal value. It returns whether it did.
/// O(1).
pub(crate) fn lengthen_entry<T: Integer, V: Eq + Clone>(
    out: &mut Vec<(T, T, V)>,
    start: T,
    end: T,
    value: &V,
) -> bool
    ensures { let old = shown_list T.rank out.old.items in let added = entry (T.rank start)
        (T.rank end) value.now ∷ [] in MatchBool result (shown_list T.rank out.new.items
        ≡ glue V.eq old added) ((out.new.items ≡ out.old.items)
        × (glue V.eq old added ≡ old ++ added)) }
{
    let Some(last) = out.last_mut() else {
        return false;
    };
    if !is_next(last.1, start) || last.2 != *value {
        return false;
    }
    last.1 = end;
    true
}

/// Appends an entry to a list of (first key, last key, value). The last entry is extended instead if the two touch and
/// have equal values. If an allocation fails, the list is unchanged. Amortized O(1).
pub fn push_entry<T: Integer, V: Eq + Clone>(
    out: &mut Vec<(T, T, V)>,
    start: T,
    end: T,
    value: V,
) -> Result<(), AllocError>
    ensures ok { OnOk result (shown_list T.rank out.new.items
        ≡ glue V.eq (shown_list T.rank out.old.items)
        (entry (T.rank start) (T.rank end) value ∷ [])) }
    ensures err { OnErr result (out.new.items ≡ out.old.items) }
{
    if !lengthen_entry(out, start, end, &value) {
        out.push((start, end, value))?;
    }
    Ok(())
}
