//! Streams in two parts: the ranges with positions, which a join goes through, and the carriers at these positions, from which it
//! makes rows.
ghost use Rattle.std.specs.Prelude.{◌≡◌, map, IfOk};
ghost use Rattle.blaze_entries.specs.Canonical.{IsRangeMap};
ghost use Rattle.range_map_multi.specs.Parts.{HasPlacedValues, AllPlaced, AllRangeMaps};

use blaze_int::Integer;
use blaze_streams::{CanonMapIter, Cursor, PlaceCursor, SortedDisjointMap, ValueCarrier};
use std::alloc::{AllocError, Global};

/// The ranges of a stream with their positions, and its carriers. If an allocation fails, the stream is dropped.
fn parts_of<T: Integer, VC: ValueCarrier, I: SortedDisjointMap<T, VC>>(
    alloc: Global,
    stream: I,
) -> Result<(PlaceCursor<T>, Vec<VC>), AllocError>
    ensures placed { IfOk result
        (λ parts. HasPlacedValues (map VC.shown parts.1.items) parts.0 (I.left stream)) }
    ensures range_map { IfOk result (λ parts. IsRangeMap VC.Value.eq T.low T.high (I.left stream)) }
{
    stream.in_hand();
    let mut ranges = Vec::new(alloc);
    let mut carriers = Vec::new(alloc);
    for item in stream {
        let (range, carrier) = item;
        ranges.push((range, carriers.len()))?;
        carriers.push(carrier)?;
    }
    let ranges = CanonMapIter::new(ranges);
    Ok((Cursor::new(ranges), carriers))
}

/// Both parts of each stream. If an allocation fails, the streams are dropped.
pub fn all_parts_of<T: Integer, VC: ValueCarrier, I: SortedDisjointMap<T, VC>>(
    alloc: Global,
    streams: Vec<I>,
) -> Result<(Vec<PlaceCursor<T>>, Vec<Vec<VC>>), AllocError>
    ensures placed { IfOk result (λ parts. AllPlaced (map (λ v. map VC.shown v.items) parts.1.items)
        parts.0.items (map I.left streams.items)) }
    ensures range_maps { IfOk result (λ parts. AllRangeMaps VC.Value.eq T.low T.high
        (map I.left streams.items)) }
{
    let mut cursors = Vec::new(alloc);
    let mut carriers = Vec::new(alloc);
    for stream in streams {
        let (cursor, list) = parts_of(alloc, stream)?;
        cursors.push(cursor)?;
        carriers.push(list)?;
    }
    Ok((cursors, carriers))
}

/// References to the carriers of each list.
pub fn borrowed_lists<'a, C>(
    alloc: Global,
    lists: &'a [Vec<C>],
) -> Result<Vec<Vec<&'a C>>, AllocError>
    ensures { IfOk result (λ borrowed. map (λ v. map (λ c. c.now) v.items) borrowed.items
        ≡ map (λ v. v.items) lists.now) }
{
    let mut borrowed = Vec::new(alloc);
    for list in lists {
        borrowed.push(borrowed_list(alloc, list)?)?;
    }
    Ok(borrowed)
}

/// References to the carriers of a list.
fn borrowed_list<'a, C>(alloc: Global, list: &'a [C]) -> Result<Vec<&'a C>, AllocError>
    ensures { IfOk result (λ borrowed. map (λ c. c.now) borrowed.items ≡ list.now) }
{
    let mut borrowed = Vec::new(alloc);
    for carrier in list {
        borrowed.push(carrier)?;
    }
    Ok(borrowed)
}
