//! The values of pairs, moved out one by one.
ghost use Rattle.std.specs.Prelude.{◌≡◌, Some, IfOk, IsSome, OnOk, map};
ghost use Rattle.blaze_entries.specs.Entries.{SameOption, shown_list};
ghost use Rattle.blaze_entries.specs.Painted.{ClonesAreAlike};
ghost use Rattle.blaze_table.specs.PairValue.{value_in, unmoved_value, PutsPiece, moved_to};

use crate::sweep::placed::Placed;
use crate::sweep::push::push_entry;
use blaze_int::Integer;
use std::alloc::{AllocError, Global};
use std::mem;

/// The value of a pair, or the position of the entry that has it.
#[derive(Drop)]
pub(crate) enum PairValue<V> {
    /// The value was not moved.
    Present(V),
    /// The value was moved. The entry at this position has it, or an equal one.
    Moved(usize),
}

/// Takes the values out of the pairs. O(n) with n pairs.
pub(crate) fn pair_values_of<T: Integer, V: Eq + Clone>(
    alloc: Global,
    placed: Vec<Placed<T, V>>,
) -> Result<Vec<PairValue<V>>, AllocError>
    ensures { IfOk result (λ values. values.items ≡ map unmoved_value placed.items) }
{
    let mut values = Vec::new(alloc);
    for pair in placed {
        values.push(PairValue::Present(pair.value))?;
    }
    Ok(values)
}

/// Returns the value at an index: the value itself, or, if it was moved, a clone of the value of the entry that has it.
fn value_at<T: Integer, V: Eq + Clone>(
    values: &mut Vec<PairValue<V>>,
    entries: &[(T, T, V)],
    index: usize,
) -> Result<V, AllocError>
    requires clones { ClonesAreAlike V.is_clone V.eq }
    requires there { IsSome (value_in (shown_list T.rank entries.now) values.old.items index) }
    ensures value { IfOk result (λ value. SameOption V.eq (Some value)
        (value_in (shown_list T.rank entries.now) values.old.items index)) }
    ensures values { values.new.items ≡ moved_to 0 values.old.items index }
{
    match mem::replace(&mut values[index], PairValue::Moved(0)) {
        PairValue::Present(value) => Ok(value),
        PairValue::Moved(at) => {
            let value = entries[at].2.clone()?;
            Ok(value)
        }
    }
}

/// Appends the value at an index for the keys from `start` to `end`. The last entry is extended instead if it touches
/// them and has an equal value.
pub(crate) fn put_piece<T: Integer, V: Eq + Clone>(
    values: &mut Vec<PairValue<V>>,
    entries: &mut Vec<(T, T, V)>,
    start: T,
    end: T,
    index: usize,
) -> Result<(), AllocError>
    requires clones { ClonesAreAlike V.is_clone V.eq }
    requires there { IsSome (value_in (shown_list T.rank entries.old.items) values.old.items index) }
    ensures { OnOk result (PutsPiece V.eq (T.rank start) (T.rank end) index
        (shown_list T.rank entries.old.items) (shown_list T.rank entries.new.items)
        values.old.items values.new.items) }
{
    let value = value_at(values, entries, index)?;
    push_entry(entries, start, end, value)?;
    values[index] = PairValue::Moved(entries.len() - 1);
    Ok(())
}
