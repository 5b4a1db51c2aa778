//! Ranges with values appended one by one.
ghost use Rattle.std.specs.Prelude.{◌≡◌, ◌∷◌, ◌++◌, [], Some, true, OnOk, OnErr, MatchBool};
ghost use Rattle.blaze_entries.specs.Entries.{entry, shown_list};
ghost use Rattle.blaze_entries.specs.Splice.{glue};
ghost use Rattle.blaze_streams.specs.Choosing.{PutsAlike};
ghost use Rattle.blaze_streams.specs.RangeLists.{shown_ranges};

use crate::carrier::{HasValue, ValueCarrier};
use blaze_int::Integer;
use blaze_int::compare::is_next;
use std::alloc::AllocError;
use std::ops::RangeInclusive;

/// Extends the last range to `end` if it ends right below `start` and has an equal value. It returns whether it did.
fn lengthen_last<T: Integer, VC: ValueCarrier>(
    out: &mut Vec<(RangeInclusive<T>, VC)>,
    start: T,
    end: T,
    carrier: &VC,
) -> bool
    ensures { let old = shown_ranges T.rank VC.shown out.old.items in let added = entry
        (T.rank start) (T.rank end) (VC.shown carrier.now) ∷ [] in MatchBool result
        (shown_ranges T.rank VC.shown out.new.items ≡ glue VC.Value.eq old added) ((out.new.items
        ≡ out.old.items) × (glue VC.Value.eq old added ≡ old ++ added)) }
{
    let Some(last) = out.last_mut() else {
        return false;
    };
    if !is_next(*last.0.end(), start) || !last.1.value_eq(carrier) {
        return false;
    }
    last.0 = *last.0.start()..=end;
    true
}

/// Appends a range with a carrier. The last range is extended instead if the two touch and have equal values. If an
/// allocation fails, the list is unchanged. Amortized O(1).
pub fn push_joined<T: Integer, VC: ValueCarrier>(
    out: &mut Vec<(RangeInclusive<T>, VC)>,
    start: T,
    end: T,
    carrier: VC,
) -> Result<(), AllocError>
    ensures ok { OnOk result (shown_ranges T.rank VC.shown out.new.items
        ≡ glue VC.Value.eq (shown_ranges T.rank VC.shown out.old.items)
        (entry (T.rank start) (T.rank end) (VC.shown carrier) ∷ [])) }
    ensures err { OnErr result (out.new.items ≡ out.old.items) }
{
    if !lengthen_last(out, start, end, &carrier) {
        out.push((start..=end, carrier))?;
    }
    Ok(())
}

/// Extends the last entry to `end` if it ends right below `start` and its value equals the carrier's. It returns
/// whether it did. If not, no value equal to the carrier's is joined with the last entry.
fn lengthen_entry<T: Integer, VC: HasValue>(
    out: &mut Vec<(T, T, VC::Value)>,
    start: T,
    end: T,
    carrier: &VC,
) -> bool
    ensures { let old = shown_list T.rank out.old.items in MatchBool result
        (shown_list T.rank out.new.items ≡ glue VC.Value.eq old (entry (T.rank start) (T.rank end)
        (VC.shown carrier.now) ∷ [])) ((out.new.items ≡ out.old.items)
        × ((v : VC.Value) → VC.Value.eq (VC.shown carrier.now) v ≡ true
        → glue VC.Value.eq old (entry (T.rank start) (T.rank end) v ∷ [])
        ≡ old ++ entry (T.rank start) (T.rank end) v ∷ [])) }
{
    let Some(last) = out.last_mut() else {
        return false;
    };
    if !is_next(last.1, start) || !carrier.has_value(&last.2) {
        return false;
    }
    last.1 = end;
    true
}

/// Appends an entry with a value equal to the carrier's. The last entry is extended instead if the two touch and have
/// equal values, and then no value is cloned. If an allocation or a clone fails, the list is unchanged. Amortized O(1).
pub fn push_value<T: Integer, VC: HasValue>(
    out: &mut Vec<(T, T, VC::Value)>,
    start: T,
    end: T,
    carrier: VC,
) -> Result<(), AllocError>
    requires { VC.can_carry }
    ensures ok { OnOk result (PutsAlike VC.Value.eq (T.rank start) (T.rank end)
        (Some (VC.shown carrier)) (shown_list T.rank out.old.items) (shown_list T.rank out.new.items)) }
    ensures err { OnErr result (out.new.items ≡ out.old.items) }
{
    if !lengthen_entry(out, start, end, &carrier) {
        let value = carrier.into_value()?;
        out.push((start, end, value))?;
    }
    Ok(())
}
