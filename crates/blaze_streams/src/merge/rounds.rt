//! Rounds of merges: each half of the streams is merged into one, and then the two halves. This is O(n log k) for n ranges in k
//! streams. A stream is part of its first merge as it was given, without a copy.
ghost use Rattle.std.specs.Prelude.{◌<◌, map, IfOk};
ghost use Rattle.std.specs.Vec.{vec_len};
ghost use Rattle.blaze_streams.specs.Merges.{GivesEach};

use crate::carrier::ValueCarrier;
use crate::lists::canon_map::CanonMapIter;
use crate::merge::list_of::list_of;
use crate::merge::operations::Operation;
use crate::sorted_disjoint_map::SortedDisjointMap;
use blaze_int::Integer;
use std::alloc::{AllocError, Global};

/// The result of an operation between at most three streams. If an allocation fails, the streams are dropped.
#[tactic(auto, unfolding(blaze_entries::specs::Canonical::IsRunStart, blaze_entries::specs::Canonical::IsRunEnd))]
fn merged_few<T: Integer, VC: ValueCarrier, I: SortedDisjointMap<T, VC>, O: Operation<T, VC>>(
    alloc: Global,
    mut streams: Vec<I>,
) -> Result<CanonMapIter<T, VC>, AllocError>
    requires can { VC.can_carry }
    requires few { vec_len streams < 4 }
    ensures { IfOk result (GivesEach O.gives (map I.left streams.items)) }
{
    let Some(last) = streams.pop() else {
        return Ok(CanonMapIter::new(Vec::new(alloc)));
    };
    let Some(middle) = streams.pop() else {
        return list_of(alloc, last);
    };
    let both = O::merge(alloc, middle, last)?;
    match streams.pop() {
        Some(first) => O::merge(alloc, first, both),
        None => Ok(both),
    }
}

/// The result of an operation between many streams. If an allocation fails, the streams are dropped.
pub fn merged<T: Integer, VC: ValueCarrier, I: SortedDisjointMap<T, VC>, O: Operation<T, VC>>(
    alloc: Global,
    mut streams: Vec<I>,
) -> Result<CanonMapIter<T, VC>, AllocError>
    requires { VC.can_carry }
    ensures { IfOk result (GivesEach O.gives (map I.left streams.items)) }
{
    if streams.len() < 4 {
        return merged_few::<T, VC, I, O>(alloc, streams);
    }
    let second = streams.split_off(streams.len() / 2)?;
    let left = merged::<T, VC, I, O>(alloc, streams)?;
    let right = merged::<T, VC, I, O>(alloc, second)?;
    O::merge(alloc, left, right)
}
