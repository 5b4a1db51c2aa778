//! Streams as lists, each with a second list of its ranges. A symmetric difference of many needs both: the keys that an odd
//! number of streams have, and the last value at each of them.
ghost use Rattle.std.specs.Prelude.{◌≡◌, map, IfOk};
ghost use Rattle.range_map_multi.specs.Parts.{in_places};

use blaze_int::Integer;
use blaze_streams::{CanonMapIter, SortedDisjointMap, ValueCarrier};
use std::alloc::{AllocError, Global};

/// The ranges that a stream has not yet given, as a list with carriers, and as one with positions. The positions keep touching
/// ranges separate.
fn with_keys<T: Integer, VC: ValueCarrier, I: SortedDisjointMap<T, VC>>(
    alloc: Global,
    stream: I,
) -> Result<(CanonMapIter<T, VC>, CanonMapIter<T, usize>), AllocError>
    ensures list { IfOk result (λ both. both.0 ≡ I.left stream) }
    ensures keys { IfOk result (λ both. both.1 ≡ in_places 0 (I.left stream)) }
{
    stream.in_hand();
    let mut items = Vec::new(alloc);
    let mut keys = Vec::new(alloc);
    for item in stream {
        let (range, _) = &item;
        let first = *range.start();
        let last = *range.end();
        keys.push((first..=last, items.len()))?;
        items.push(item)?;
    }
    Ok((CanonMapIter::new(items), CanonMapIter::new(keys)))
}

/// Both lists of each stream.
pub fn all_with_keys<T: Integer, VC: ValueCarrier, I: SortedDisjointMap<T, VC>>(
    alloc: Global,
    streams: Vec<I>,
) -> Result<(Vec<CanonMapIter<T, VC>>, Vec<CanonMapIter<T, usize>>), AllocError>
    ensures lists { IfOk result (λ both. both.0.items ≡ map I.left streams.items) }
    ensures keys { IfOk result (λ both. both.1.items
        ≡ map (λ s. in_places 0 (I.left s)) streams.items) }
{
    let mut lists = Vec::new(alloc);
    let mut keys = Vec::new(alloc);
    for stream in streams {
        let (list, ranges) = with_keys(alloc, stream)?;
        lists.push(list)?;
        keys.push(ranges)?;
    }
    Ok((lists, keys))
}
