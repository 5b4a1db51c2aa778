//! The pieces that pairs paint, from the least key up.
ghost use Rattle.std.specs.Prelude.{◌≤ℤ◌, ◌+ℤ◌, ◌-ℤ◌, pos, All, IfOk, OnOk};
ghost use Rattle.std.specs.BinaryHeap.{IsHeap, heap_items};
ghost use Rattle.blaze_entries.specs.Entries.{shown_list};
ghost use Rattle.blaze_table.specs.Pieces.{AreAscending, EndsAreKeys, place_cmp};
ghost use Rattle.blaze_table.specs.Pieces.{IsWaiting, KeepsReaching, ArePieces};

use crate::sweep::placed::Placed;
use crate::sweep::push::push_entry;
use crate::sweep::waiting::{drop_top, latest_waiting};
use blaze_int::Integer;
use blaze_int::compare::{is_at_most, is_below};
use std::alloc::{AllocError, Global};
use std::collections::BinaryHeap;

/// Appends the pieces that the waiting pairs paint on the keys from `from` to `to`.
fn sweep_to<T: Integer, V>(
    placed: &[Placed<T, V>],
    waiting: &mut BinaryHeap<(usize, usize), Global>,
    pieces: &mut Vec<(T, T, usize)>,
    from: T,
    to: T,
) -> Result<(), AllocError>
    requires order { T.rank from ≤ℤ T.rank to }
    requires heap { IsHeap place_cmp (heap_items waiting.old) }
    requires waits { IsWaiting T.rank placed.now (T.rank from) (T.rank to)
        (heap_items waiting.old) }
    requires made { ArePieces T.rank placed.now T.low (T.rank from)
        (shown_list T.rank pieces.old.items) }
    ensures heap { IsHeap place_cmp (heap_items waiting.new) }
    ensures waits { OnOk result (IsWaiting T.rank placed.now (T.rank to +ℤ pos 1) (T.rank to)
        (heap_items waiting.new)) }
    ensures made { OnOk result (ArePieces T.rank placed.now T.low (T.rank to +ℤ pos 1)
        (shown_list T.rank pieces.new.items)) }
{
    let mut at = from;
    to.in_hand();
    while let Some(top) = latest_waiting(waiting) {
        let (_, index) = top;
        let pair = &placed[index];
        let end = pair.end;
        if is_at_most(to, end) {
            push_entry(pieces, at, to, index)?;
            return Ok(());
        }
        drop_top(waiting);
        if is_below(end, at) {
            continue;
        }
        push_entry(pieces, at, end, index)?;
        at = end.add_one();
    }
    Ok(())
}

/// Appends the pieces that the waiting pairs paint on the keys from `from` to just below `start`.
fn advance<T: Integer, V>(
    placed: &[Placed<T, V>],
    waiting: &mut BinaryHeap<(usize, usize), Global>,
    pieces: &mut Vec<(T, T, usize)>,
    from: T,
    start: T,
) -> Result<(), AllocError>
    requires order { T.rank from ≤ℤ T.rank start }
    requires heap { IsHeap place_cmp (heap_items waiting.old) }
    requires waits { IsWaiting T.rank placed.now (T.rank from) (T.rank start -ℤ pos 1)
        (heap_items waiting.old) }
    requires made { ArePieces T.rank placed.now T.low (T.rank from)
        (shown_list T.rank pieces.old.items) }
    ensures heap { IsHeap place_cmp (heap_items waiting.new) }
    ensures waits { OnOk result (IsWaiting T.rank placed.now (T.rank start)
        (T.rank start -ℤ pos 1) (heap_items waiting.new)) }
    ensures kept { OnOk result (KeepsReaching T.rank placed.now (T.rank start)
        (heap_items waiting.old) (heap_items waiting.new)) }
    ensures made { OnOk result (ArePieces T.rank placed.now T.low (T.rank start)
        (shown_list T.rank pieces.new.items)) }
{
    if is_at_most(start, from) {
        return Ok(());
    }
    from.in_hand();
    sweep_to(placed, waiting, pieces, from, start.sub_one())?;
    Ok(())
}

/// Returns the pieces that pairs paint in the order of their positions, ascending and disjoint. Each piece has the
/// index of its pair: of the pairs that contain its keys, the one with the greatest position. O(n log n) with n pairs.
pub(crate) fn pieces_of<T: Integer, V>(
    alloc: Global,
    placed: &[Placed<T, V>],
) -> Result<Vec<(T, T, usize)>, AllocError>
    requires ascending { AreAscending T.rank placed.now }
    requires keys { All (EndsAreKeys T.rank T.low T.high) placed.now }
    ensures { IfOk result (λ pieces. ArePieces T.rank placed.now T.low (T.high +ℤ pos 1)
        (shown_list T.rank pieces.items)) }
{
    let mut waiting = BinaryHeap::new(alloc);
    let mut pieces = Vec::new(alloc);
    let mut from = T::min_value();
    let mut i = 0;
    while i < placed.len() {
        let pair = &placed[i];
        advance(placed, &mut waiting, &mut pieces, from, pair.start)?;
        waiting.push((pair.place, i))?;
        from = pair.start;
        i += 1;
    }
    from.in_hand();
    let last = T::max_value();
    sweep_to(placed, &mut waiting, &mut pieces, from, last)?;
    Ok(pieces)
}
