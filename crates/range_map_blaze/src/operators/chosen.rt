//! The map of what a choice gives at each key of two streams. The left stream has the values of a borrowed map, or is an owned
//! map. The borrowed map is a parameter because code that is generic over keys must know that the keys outlive the borrow.
ghost use Rattle.std.specs.Prelude.{IfOk};
ghost use Rattle.blaze_entries.specs.Chosen.{IsChosen};
ghost use Rattle.blaze_entries.specs.Painted.{ClonesAreAlike};

use crate::map::RangeMapBlaze;
use blaze_int::Integer;
use blaze_iters::OwnedRangeValuesIter;
use blaze_streams::{Choice, Owned, SortedDisjointMap, ValueCarrier, entries_chosen_of};
use blaze_table::RangeTable;
use std::alloc::AllocError;

/// The map of what a choice gives at each key of two streams. The list of entries begins with space for `room` of them.
pub fn borrowed_chosen<
    'a,
    T: Integer,
    V: Eq + Clone,
    VCR: ValueCarrier,
    L: SortedDisjointMap<T, &'a V>,
    R: SortedDisjointMap<T, VCR>,
    C: Choice<&'a V, VCR>,
>(
    borrowed: &'a RangeMapBlaze<T, V>,
    left: L,
    right: R,
    choice: &C,
    room: usize,
) -> Result<RangeMapBlaze<T, V>, AllocError>
    requires { ClonesAreAlike V.is_clone V.eq }
    ensures { IfOk result (λ new. IsChosen V.eq T.low T.high C.choice (L.left left)
        (R.left right) new.entries) }
{
    let alloc = borrowed.allocator();
    let entries = entries_chosen_of(alloc, room, left, right, choice)?;
    let table = RangeTable::from_canonical(alloc, entries)?;
    Ok(RangeMapBlaze { table })
}

/// The map of what a choice gives at each key of an owned map and a stream, with the map's own values. A value is cloned only for
/// a piece that is not the last of its range. The list of entries begins with space for `room` of them.
pub fn owned_chosen<
    T: Integer,
    V: Eq + Clone,
    VCR: ValueCarrier,
    R: SortedDisjointMap<T, VCR>,
    C: Choice<Owned<V>, VCR>,
>(
    left: RangeMapBlaze<T, V>,
    right: R,
    choice: &C,
    room: usize,
) -> Result<RangeMapBlaze<T, V>, AllocError>
    requires { ClonesAreAlike V.is_clone V.eq }
    ensures { IfOk result (λ new. IsChosen V.eq T.low T.high C.choice left.entries
        (R.left right) new.entries) }
{
    let alloc = left.allocator();
    let left = OwnedRangeValuesIter::new(left.table);
    let entries = entries_chosen_of(alloc, room, left, right, choice)?;
    let table = RangeTable::from_canonical(alloc, entries)?;
    Ok(RangeMapBlaze { table })
}
