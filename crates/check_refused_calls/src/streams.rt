//! Streams of the same values: merges of two streams, a stream and a set, and tables and maps built from a stream.
use crate::calls::{begin, end, show_answer, show_refused};
use crate::tables::{Words, table_of};
use blaze_iters::{IntoRangeValuesIter, RangeValuesIter};
use blaze_streams::{
    CanonMapIter, complement, intersect_with_ranges, intersection_of, subtract_ranges,
    symmetric_difference_of, union_of,
};
use blaze_table::RangeSetBlaze;
use range_map_blaze::{IntoRangeMapBlaze, RangeMapBlaze};
use std::alloc::AllocError;

/// Ends the line of a call with the stream that it returned.
fn show(rt: &HostRuntime, made: Result<CanonMapIter<i32, &String>, AllocError>) {
    let Ok(stream) = made else {
        return show_refused(rt);
    };
    for (range, word) in stream {
        let _ = print!(rt; " {range:?} {word},");
    }
    let _ = println!(rt; " end");
}

/// Makes the union of two streams.
fn union(rt: &HostRuntime, one: &Words, two: &Words) {
    let (left, right) = (RangeValuesIter::new(one), RangeValuesIter::new(two));
    begin(rt, "union_of");
    let made = union_of(rt.alloc(), left, right);
    end(rt);
    show(rt, made);
}

/// Makes the symmetric difference of two streams.
fn symmetric_difference(rt: &HostRuntime, one: &Words, two: &Words) {
    let (left, right) = (RangeValuesIter::new(one), RangeValuesIter::new(two));
    begin(rt, "symmetric_difference_of");
    let made = symmetric_difference_of(rt.alloc(), left, right);
    end(rt);
    show(rt, made);
}

/// Makes the intersection of two streams.
fn intersection(rt: &HostRuntime, one: &Words, two: &Words) {
    let (left, right) = (RangeValuesIter::new(one), RangeValuesIter::new(two));
    begin(rt, "intersection_of");
    let made = intersection_of(rt.alloc(), left, right);
    end(rt);
    show(rt, made);
}

/// Limits a stream to the keys of a set.
fn intersect(rt: &HostRuntime, one: &Words, set: &RangeSetBlaze<i32>) {
    let stream = RangeValuesIter::new(one);
    begin(rt, "intersect_with_ranges");
    let made = intersect_with_ranges(rt.alloc(), stream, set.ranges());
    end(rt);
    show(rt, made);
}

/// Removes the keys of a set from a stream.
fn subtract(rt: &HostRuntime, one: &Words, set: &RangeSetBlaze<i32>) {
    let stream = RangeValuesIter::new(one);
    begin(rt, "subtract_ranges");
    let made = subtract_ranges(rt.alloc(), stream, set.ranges());
    end(rt);
    show(rt, made);
}

/// Makes the complement of a set.
fn lacking(rt: &HostRuntime, set: &RangeSetBlaze<i32>) {
    begin(rt, "complement");
    let made = complement(rt.alloc(), set.ranges());
    end(rt);
    let Ok(ranges) = made else {
        return show_refused(rt);
    };
    for range in ranges {
        let _ = print!(rt; " {range:?},");
    }
    let _ = println!(rt; " end");
}

/// Iterates over the owned entries of a table, each with a shared word.
fn shared(rt: &HostRuntime, table: Words) {
    begin(rt, "IntoRangeValuesIter::new");
    let made = IntoRangeValuesIter::new(rt.alloc(), table);
    end(rt);
    let Ok(stream) = made else {
        return show_refused(rt);
    };
    for (range, word) in stream {
        let _ = print!(rt; " {range:?} {word:?},");
    }
    let _ = println!(rt; " end");
}

/// Builds a map from a stream.
fn map_of(rt: &HostRuntime, table: &Words) {
    let stream = RangeValuesIter::new(table);
    begin(rt, "into_range_map_blaze");
    let made = stream.into_range_map_blaze(rt.alloc());
    end(rt);
    show_answer(rt, made);
}

/// Builds a map from a stream, by a function of the map.
fn map_from(rt: &HostRuntime, table: &Words) {
    let stream = RangeValuesIter::new(table);
    begin(rt, "from_sorted_disjoint_map");
    let made = RangeMapBlaze::from_sorted_disjoint_map(rt.alloc(), stream);
    end(rt);
    show_answer(rt, made);
}

/// Makes the merges of two streams, and of a stream and a set.
fn merges(rt: &HostRuntime, one: &Words, two: &Words) -> Result<(), AllocError> {
    union(rt, one, two);
    symmetric_difference(rt, one, two);
    intersection(rt, one, two);
    let ranges = vec![in rt.alloc(); 4i32..=8]?;
    let set = RangeSetBlaze::from_ranges(rt.alloc(), ranges)?;
    intersect(rt, one, &set);
    subtract(rt, one, &set);
    lacking(rt, &set);
    Ok(())
}

/// Makes all calls of this file.
pub fn all(rt: &HostRuntime) -> Result<(), AllocError> {
    let one = table_of(rt.alloc(), &[(1, 5, "a")])?;
    let two = table_of(rt.alloc(), &[(4, 8, "b")])?;
    merges(rt, &one, &two)?;
    let both = table_of(rt.alloc(), &[(1, 5, "a"), (4, 8, "b")])?;
    map_of(rt, &both);
    map_from(rt, &both);
    shared(rt, both);
    Ok(())
}
