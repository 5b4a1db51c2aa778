//! Streams with other values: joins, results of a closure, a value at every key of the type, and events.
use crate::calls::{begin, end, show_refused};
use crate::tables::{Words, table_of};
use blaze_iters::{OwnedRangeValuesIter, RangeValuesIter};
use blaze_streams::{
    JoinKind, SortedDisjointMap, ValueCarrier, fill, join_of, sweep_of, transform,
};
use std::alloc::AllocError;
use std::fmt::Debug;

/// Ends the line of a call with the stream that it returned.
fn show_stream<VC: ValueCarrier + Debug, S: SortedDisjointMap<i32, VC>>(
    rt: &HostRuntime,
    made: Result<S, AllocError>,
) {
    let Ok(stream) = made else {
        return show_refused(rt);
    };
    for (range, carrier) in stream {
        let _ = print!(rt; " {range:?} {carrier:?},");
    }
    let _ = println!(rt; " end");
}

/// Makes the full join of two borrowed streams.
fn joined(rt: &HostRuntime, one: &Words, two: &Words) {
    let (left, right) = (RangeValuesIter::new(one), RangeValuesIter::new(two));
    begin(rt, "join_of");
    let made = join_of(rt.alloc(), left, right, JoinKind::Full);
    end(rt);
    show_stream(rt, made);
}

/// Makes the full join of two owned streams. A word is cloned for each segment of its range except the last.
fn joined_values(rt: &HostRuntime, one: Words, two: Words) {
    let (left, right) = (
        OwnedRangeValuesIter::new(one),
        OwnedRangeValuesIter::new(two),
    );
    begin(rt, "join_of by value");
    let made = join_of(rt.alloc(), left, right, JoinKind::Full);
    end(rt);
    show_stream(rt, made);
}

/// Transforms each word to its length. Touching ranges with equal results are joined.
fn transformed(rt: &HostRuntime, table: &Words) {
    let stream = RangeValuesIter::new(table);
    begin(rt, "transform");
    let made = transform(rt.alloc(), stream, |word: &String| word.len());
    end(rt);
    show_stream(rt, made);
}

/// Fills every key without a word with `None`.
fn filled(rt: &HostRuntime, table: &Words) {
    let stream = RangeValuesIter::new(table);
    begin(rt, "fill");
    let made = fill(rt.alloc(), stream);
    end(rt);
    show_stream(rt, made);
}

/// Sweeps the events of two streams.
fn swept(rt: &HostRuntime, streams: Vec<RangeValuesIter<'_, i32, String>>) {
    begin(rt, "sweep_of");
    let made = sweep_of(rt.alloc(), streams);
    end(rt);
    let Ok(events) = made else {
        return show_refused(rt);
    };
    for event in events {
        let _ = print!(rt; " {event:?},");
    }
    let _ = println!(rt; " end");
}

/// Makes all calls of this file.
pub fn all(rt: &HostRuntime) -> Result<(), AllocError> {
    let one = table_of(rt.alloc(), &[(1, 5, "a")])?;
    let two = table_of(rt.alloc(), &[(4, 8, "b")])?;
    joined(rt, &one, &two);
    let streams = vec![in rt.alloc(); RangeValuesIter::new(&one), RangeValuesIter::new(&two)]?;
    swept(rt, streams);
    let both = table_of(rt.alloc(), &[(1, 5, "a"), (4, 8, "b")])?;
    transformed(rt, &both);
    filled(rt, &both);
    joined_values(rt, one, two);
    Ok(())
}
