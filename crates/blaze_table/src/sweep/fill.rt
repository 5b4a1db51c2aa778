//! Values for the pieces of pairs.
ghost use Rattle.std.specs.Prelude.{pos, ◌+ℤ◌, All, IfOk};
ghost use Rattle.blaze_entries.specs.Entries.{shown_list};
ghost use Rattle.blaze_entries.specs.Painted.{ClonesAreAlike};
ghost use Rattle.blaze_table.specs.Pieces.{EndsAreKeys, ArePieces, IsCanonicalOfPlaced};

use crate::sweep::pair_value::{pair_values_of, put_piece};
use crate::sweep::placed::Placed;
use blaze_int::Integer;
use std::alloc::{AllocError, Global};

/// Builds the canonical list of pairs from their pieces. The first piece of a pair gets the pair's value, and each
/// other piece gets a clone. O(n) with n pieces, and at most one clone for each.
pub(crate) fn entries_of_pieces<T: Integer, V: Eq + Clone>(
    alloc: Global,
    placed: Vec<Placed<T, V>>,
    pieces: Vec<(T, T, usize)>,
) -> Result<Vec<(T, T, V)>, AllocError>
    requires clones { ClonesAreAlike V.is_clone V.eq }
    requires keys { All (EndsAreKeys T.rank T.low T.high) placed.items }
    requires made { ArePieces T.rank placed.items T.low (T.high +ℤ pos 1)
        (shown_list T.rank pieces.items) }
    ensures { IfOk result (λ entries. IsCanonicalOfPlaced V.eq T.rank T.low T.high placed.items
        (shown_list T.rank entries.items)) }
{
    let mut values = pair_values_of(alloc, placed)?;
    let mut entries = Vec::new(alloc);
    for (start, end, index) in pieces {
        start.in_hand();
        end.in_hand();
        put_piece(&mut values, &mut entries, start, end, index)?;
    }
    Ok(entries)
}
