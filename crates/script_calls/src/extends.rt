//! `a extend_points K V ..` and kin: pairs painted in order.
use script_words::{Fault, Map, ScriptKey, points, print_made, ranges};
use std::alloc::{AllocError, Global};
use std::ops::RangeInclusive;

/// Pairs that are painted in order.
#[derive(Drop)]
pub enum Extend<T: ScriptKey> {
    Points(Vec<(T, String)>),
    Ranges(Vec<(RangeInclusive<T>, String)>),
    Simple(Vec<(RangeInclusive<T>, String)>),
}

impl<T: ScriptKey> Extend<T> {
    /// The extension that the words after a map's name ask for.
    pub fn read(alloc: Global, words: &[&str]) -> Result<Self, Fault> {
        match words {
            ["extend_points", pairs @ ..] => Ok(Extend::Points(points(alloc, pairs)?)),
            ["extend_ranges", pairs @ ..] => Ok(Extend::Ranges(ranges(alloc, pairs)?)),
            ["extend_simple", pairs @ ..] => Ok(Extend::Simple(ranges(alloc, pairs)?)),
            _ => Err(Fault::Bad),
        }
    }

    /// Makes the call, and prints its answer.
    pub fn make(self, map: &mut Map<T>, reply: &mut String) -> Result<(), AllocError> {
        match self {
            Extend::Points(pairs) => print_made(map.extend_points(pairs), reply),
            Extend::Ranges(pairs) => print_made(map.extend_ranges(pairs), reply),
            Extend::Simple(pairs) => print_made(map.extend_simple(pairs), reply),
        }
    }
}
