//! Streams as lists, which all operations between two take.
ghost use Rattle.std.specs.Prelude.{◌≡◌, IfOk};

use crate::carrier::ValueCarrier;
use crate::lists::canon_map::CanonMapIter;
use crate::sorted_disjoint_map::SortedDisjointMap;
use blaze_int::Integer;
use std::alloc::{AllocError, Global};

/// The ranges that a stream has not yet given, as a list.
pub fn list_of<T: Integer, VC: ValueCarrier, I: SortedDisjointMap<T, VC>>(
    alloc: Global,
    stream: I,
) -> Result<CanonMapIter<T, VC>, AllocError>
    ensures { IfOk result (λ list. list ≡ I.left stream) }
{
    stream.in_hand();
    let mut items = Vec::new(alloc);
    for item in stream {
        items.push(item)?;
    }
    Ok(CanonMapIter::new(items))
}
