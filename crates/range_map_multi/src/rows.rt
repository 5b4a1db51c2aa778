//! Rows: the items of many lists at a segment, first list to last.
ghost use Rattle.std.specs.Prelude.{◌≡◌, ◌≤◌, length, map, Some, false, is_some, IfOk, OnOk};
ghost use Rattle.std.specs.Prelude.{MatchBool};
ghost use Rattle.std.specs.List.{list_all, slice_get};
ghost use Rattle.std.specs.Option.{option_and_then};
ghost use Rattle.range_map_multi.specs.Parts.{values_at_positions};

use std::alloc::AllocError;

/// The value that an item of a row stands for.
pub trait Shows<A> {
    /// The type of the value.
    type Value: Eq;

    // The value that an item stands for.
    ghost shown: { A → Self.Value };
}

/// The item at a position of a list, if there is a position.
fn item_at<A: Copy>(list: &[A], position: Option<usize>) -> Option<A>
    ensures { result ≡ option_and_then (slice_get list.now) position }
{
    match position {
        None => None,
        Some(position) => list.get(position).copied(),
    }
}

/// Makes the row of the items at some positions, one of each list. The row is a parameter so that all segments use its memory.
pub fn fill_row<A: Copy>(
    row: &mut Vec<Option<A>>,
    places: &[Option<usize>],
    lists: &[Vec<A>],
) -> Result<(), AllocError>
    requires { length places.now ≤ length lists.now }
    ensures { OnOk result (row.new.items ≡ values_at_positions (map (λ v. v.items) lists.now) places.now) }
{
    row.clear();
    for i in 0..places.len() {
        row.push(item_at(&lists[i], places[i]))?;
    }
    Ok(())
}

/// Makes the row without options, and returns whether all lists have an item.
pub fn fill_full_row<A: Copy>(row: &mut Vec<A>, found: &[Option<A>]) -> Result<bool, AllocError>
    ensures { IfOk result (λ all. MatchBool all (map Some row.new.items
        ≡ found.now) (list_all is_some found.now ≡ false)) }
{
    row.clear();
    for item in found {
        let Some(item) = *item else {
            return Ok(false);
        };
        row.push(item)?;
    }
    Ok(true)
}
