//! Pairs with their positions, ascending by first key.
ghost use Rattle.std.specs.Prelude.{All, IfOk};
ghost use Rattle.blaze_entries.specs.Canonical.{AreKeys};
ghost use Rattle.blaze_entries.specs.Entries.{shown_list};
ghost use Rattle.blaze_table.specs.Pieces.{AreAllPairsPlaced, AreAscending, EndsAreKeys};

use blaze_int::Integer;
use blaze_int::compare::is_at_most;
use std::alloc::{AllocError, Global};

/// A pair: its first and last key, its position in the list, and its value.
#[derive(Drop)]
pub(crate) struct Placed<T, V> {
    pub start: T,
    pub end: T,
    pub place: usize,
    pub value: V,
}

/// Returns the pairs that have a key, ascending by first key. O(n log n) with n pairs.
pub(crate) fn placed_of<T: Integer, V: Eq + Clone>(
    alloc: Global,
    pairs: Vec<(T, T, V)>,
) -> Result<Vec<Placed<T, V>>, AllocError>
    requires { AreKeys T.low T.high (shown_list T.rank pairs.items) }
    ensures placed { IfOk result (λ placed. AreAllPairsPlaced T.rank (shown_list T.rank pairs.items)
        placed.items) }
    ensures ascending { IfOk result (λ placed. AreAscending T.rank placed.items) }
    ensures keys { IfOk result (λ placed. All (EndsAreKeys T.rank T.low T.high) placed.items) }
{
    let mut placed = Vec::new(alloc);
    let mut count = 0;
    for (start, end, value) in pairs {
        let place = count;
        count += 1;
        if !is_at_most(start, end) {
            continue;
        }
        placed.push(Placed {
            start,
            end,
            place,
            value,
        })?;
    }
    placed.sort_unstable_by_key(|pair| pair.start);
    Ok(placed)
}
