//! Operations between many owned maps, in a `Vec` and in an array. If an allocation fails, the maps are dropped.
use crate::calls::{begin, end, show_answer};
use crate::tables::{Words, leaf, table_of};
use blaze_iters::RangeValuesIter;
use range_map_blaze::{IntoRangeMapBlaze, RangeMapBlaze};
use range_map_multi::MultiwayRangeMapBlaze;
use std::alloc::{AllocError, Global};

/// A map of words.
type WordMap = RangeMapBlaze<i32, String>;

/// Returns the map with the entries of a table.
fn map_of(alloc: Global, table: &Words) -> Result<WordMap, AllocError> {
    RangeValuesIter::new(table).into_range_map_blaze(alloc)
}

/// Returns the map of some ranges and their words.
fn map_with(alloc: Global, ranges: &[(i32, i32, &str)]) -> Result<WordMap, AllocError> {
    let table = table_of(alloc, ranges)?;
    map_of(alloc, &table)
}

/// Returns the maps of some lists of ranges and words.
fn maps_with(alloc: Global, lists: &[&[(i32, i32, &str)]]) -> Result<Vec<WordMap>, AllocError> {
    let mut maps = Vec::new(alloc);
    for ranges in lists {
        maps.push(map_with(alloc, ranges)?)?;
    }
    Ok(maps)
}

/// Returns two maps that share keys.
fn pair(alloc: Global) -> Result<[WordMap; 2], AllocError> {
    let a = map_with(alloc, &[(1, 5, "a")])?;
    let b = map_with(alloc, &[(4, 8, "b")])?;
    Ok([a, b])
}

/// Returns three maps that share a key.
fn three(alloc: Global) -> Result<Vec<WordMap>, AllocError> {
    maps_with(alloc, &[&[(1, 5, "a")], &[(4, 8, "b")], &[(5, 6, "c")]])
}

/// Returns three maps, of which the second has 16 entries for the one entry of the others.
fn with_large(alloc: Global) -> Result<Vec<WordMap>, AllocError> {
    let mut maps = maps_with(alloc, &[&[]])?;
    let large = leaf(alloc, 16)?;
    maps.push(map_of(alloc, &large)?)?;
    maps.push(map_with(alloc, &[(4, 8, "b")])?)?;
    Ok(maps)
}

/// Makes the union of a `Vec`.
fn union(rt: &HostRuntime, call: &str, maps: Vec<WordMap>) {
    begin(rt, call);
    let made = maps.union(rt.alloc());
    end(rt);
    show_answer(rt, made);
}

/// Makes the intersection of a `Vec`, which has a result if the `Vec` is not empty.
fn intersection(rt: &HostRuntime, maps: Vec<WordMap>) {
    if !maps.is_empty() {
        begin(rt, "intersection of a Vec");
        let made = maps.intersection(rt.alloc());
        end(rt);
        show_answer(rt, made);
    }
}

/// Makes the symmetric difference of a `Vec`.
fn symmetric_difference(rt: &HostRuntime, call: &str, maps: Vec<WordMap>) {
    begin(rt, call);
    let made = maps.symmetric_difference(rt.alloc());
    end(rt);
    show_answer(rt, made);
}

/// Makes the union of an array.
fn array_union(rt: &HostRuntime, maps: [WordMap; 2]) {
    begin(rt, "union of an array");
    let made = maps.union(rt.alloc());
    end(rt);
    show_answer(rt, made);
}

/// Makes the intersection of an array.
fn array_intersection(rt: &HostRuntime, [a, b]: [WordMap; 2]) {
    begin(rt, "intersection of an array");
    let made = [a, b].intersection(rt.alloc());
    end(rt);
    show_answer(rt, made);
}

/// Makes the symmetric difference of an array.
fn array_symmetric_difference(rt: &HostRuntime, maps: [WordMap; 2]) {
    begin(rt, "symmetric_difference of an array");
    let made = maps.symmetric_difference(rt.alloc());
    end(rt);
    show_answer(rt, made);
}

/// Makes the calls on a `Vec` of maps.
fn of_a_vec(rt: &HostRuntime) -> Result<(), AllocError> {
    let alloc = rt.alloc();
    union(rt, "union of a Vec", three(alloc)?);
    union(rt, "union of a large map", with_large(alloc)?);
    intersection(rt, three(alloc)?);
    symmetric_difference(rt, "symmetric_difference of a Vec", three(alloc)?);
    symmetric_difference(
        rt,
        "symmetric_difference of a large map",
        with_large(alloc)?,
    );
    Ok(())
}

/// Makes the calls on an array of maps.
fn of_an_array(rt: &HostRuntime) -> Result<(), AllocError> {
    array_union(rt, pair(rt.alloc())?);
    array_intersection(rt, pair(rt.alloc())?);
    array_symmetric_difference(rt, pair(rt.alloc())?);
    Ok(())
}

/// Makes all calls of this file.
pub fn all(rt: &HostRuntime) -> Result<(), AllocError> {
    of_a_vec(rt)?;
    of_an_array(rt)
}
