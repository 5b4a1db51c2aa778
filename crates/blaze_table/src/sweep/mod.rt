//! The canonical list of pairs that are painted in order.
ghost use Rattle.std.specs.Prelude.{IfOk};
ghost use Rattle.blaze_entries.specs.Entries.{shown_list};
ghost use Rattle.blaze_entries.specs.Painted.{ClonesAreAlike};
ghost use Rattle.blaze_table.specs.CanonicalOf.{IsCanonicalOf};

use crate::entry_keys::keys_in_hand;
use crate::sweep::ascending::{is_ascending, joined_entries};
use crate::sweep::fill::entries_of_pieces;
use crate::sweep::pieces::pieces_of;
use crate::sweep::placed::placed_of;
use blaze_int::Integer;
use std::alloc::{AllocError, Global};

mod ascending;
mod fill;
mod pair_value;
mod pieces;
mod placed;
mod push;
mod waiting;

pub(crate) use push::lengthen_entry;
pub use push::push_entry;

/// Returns the canonical list of pairs (first key, last key, value) that are painted in order on an empty map.
///
/// The later of two pairs wins. A pair whose last key is below its first key has no effect. Touching entries with equal
/// values are joined.
///
/// Ascending disjoint pairs take O(n) time with n pairs. Other pairs take O(n log n) time. They are sorted by their
/// first keys and swept from the least key up, and a heap has the pairs that contain the current key. A value is cloned
/// only if its pair is cut into several pieces. If an allocation or a clone fails, the list is dropped.
pub fn canonical_of<T: Integer, V: Eq + Clone>(
    alloc: Global,
    pairs: Vec<(T, T, V)>,
) -> Result<Vec<(T, T, V)>, AllocError>
    requires { ClonesAreAlike V.is_clone V.eq }
    ensures { IfOk result (λ entries. IsCanonicalOf V.eq T.low T.high (shown_list T.rank pairs.items)
        (shown_list T.rank entries.items)) }
{
    if is_ascending(pairs.as_slice()) {
        return joined_entries(alloc, pairs);
    }
    keys_in_hand(pairs.as_slice());
    let placed = placed_of(alloc, pairs)?;
    let pieces = pieces_of(alloc, placed.as_slice())?;
    entries_of_pieces(alloc, placed, pieces)
}
