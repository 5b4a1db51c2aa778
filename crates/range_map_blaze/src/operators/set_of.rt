//! The ranges of a stream as a set.
ghost use Rattle.std.specs.Prelude.{◌≡◌, IfOk};

use blaze_int::Integer;
use blaze_streams::SortedDisjoint;
use blaze_table::RangeSetBlaze;
use std::alloc::{AllocError, Global};

/// The set of the ranges that a stream has not yet given.
pub fn set_of<T: Integer, S: SortedDisjoint<T>>(
    alloc: Global,
    stream: S,
) -> Result<RangeSetBlaze<T>, AllocError>
    ensures { IfOk result (λ set. set ≡ S.left stream) }
{
    stream.in_hand();
    let mut ranges = Vec::new(alloc);
    for range in stream {
        ranges.push(range)?;
    }
    RangeSetBlaze::from_canonical(alloc, ranges)
}
