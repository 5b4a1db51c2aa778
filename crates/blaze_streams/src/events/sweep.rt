//! A sweep over many streams.
ghost use Rattle.std.specs.Prelude.{◌≡◌, ◌++◌, map, IfOk, OnOk};
ghost use Rattle.blaze_entries.specs.Canonical.{IsRangeMap};
ghost use Rattle.blaze_streams.specs.Sweeps.{IsSweep, events_of, shown_events};

use crate::carrier::ValueCarrier;
use crate::events::multiway_sweep::MultiwaySweep;
use crate::events::sweep_event::SweepEvent;
use crate::sorted_disjoint_map::SortedDisjointMap;
use blaze_int::Integer;
use std::alloc::{AllocError, Global};

/// Appends the events of the stream at position `input`.
fn put_events<T: Integer, VC: ValueCarrier, I: SortedDisjointMap<T, VC>>(
    events: &mut Vec<SweepEvent<T, VC>>,
    input: usize,
    stream: I,
) -> Result<(), AllocError>
    ensures range_map { IsRangeMap VC.Value.eq T.low T.high (I.left stream) }
    ensures put { OnOk result (shown_events T.rank VC.shown events.new.items
        ≡ shown_events T.rank VC.shown events.old.items ++ events_of input (I.left stream)) }
{
    stream.in_hand();
    for (range, value) in stream {
        let last = *range.end();
        events.push(SweepEvent::Start {
            range,
            input,
            value,
        })?;
        events.push(SweepEvent::End { last, input })?;
    }
    Ok(())
}

/// Returns the events of many streams, ascending by time: a start and an end for each range, each with the position of
/// its stream. At one key, all starts precede the ends.
///
/// O(n log k) time and O(n) memory with n ranges in k streams. The events of each stream are one sorted run, and std's
/// stable sort merges such runs. If an allocation fails, the streams are dropped.
pub fn sweep_of<T: Integer, VC: ValueCarrier, I: SortedDisjointMap<T, VC>>(
    alloc: Global,
    streams: Vec<I>,
) -> Result<MultiwaySweep<T, VC>, AllocError>
    ensures { IfOk result (λ sweep. IsSweep (map I.left streams.items) sweep) }
{
    let mut events = Vec::new(alloc);
    let mut input = 0;
    for stream in streams {
        put_events(&mut events, input, stream)?;
        input += 1;
    }
    events.sort_by_key(|event| event.instant())?;
    Ok(MultiwaySweep::new(events))
}
