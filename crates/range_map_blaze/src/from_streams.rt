//! Maps made of sorted streams and lists of disjoint ranges.
ghost use Rattle.std.specs.Prelude.{◌≡◌, IfOk};
ghost use Rattle.blaze_entries.specs.Canonical.{IsRangeMap};
ghost use Rattle.blaze_entries.specs.Counted.{uncounted};
ghost use Rattle.blaze_entries.specs.Entries.{SameEntries, shown_list};
ghost use Rattle.range_map_blaze.specs.Made.{IsMade};

use crate::map::RangeMapBlaze;
use blaze_int::Integer;
use blaze_streams::{SortedDisjointMap, ValueCarrier};
use blaze_table::RangeTable;
use std::alloc::{AllocError, Global};

impl<T: Integer, V: Eq + Drop> RangeMapBlaze<T, V> {
    // The map of a canonical list of (first key, last key, value). If an allocation fails, the list is dropped.
    pub(crate) fn from_canonical(alloc: Global, entries: Vec<(T, T, V)>) -> Result<Self, AllocError>
        requires range_map { IsRangeMap V.eq T.low T.high (shown_list T.rank entries.items) }
        ensures { IfOk result (λ map. map ≡ uncounted (shown_list T.rank entries.items)) }
    {
        let table = RangeTable::from_canonical(alloc, entries)?;
        Ok(RangeMapBlaze { table })
    }
}

impl<T: Integer, V: Eq + Clone> RangeMapBlaze<T, V> {
    /// Returns the map of the ranges that a stream has not yet given, each with the value of its carrier. A carrier that borrows
    /// its value clones it. Allocates. If an allocation fails, the stream is dropped. O(n) for n ranges.
    ///
    /// ```
    /// RangeMapBlaze::from_sorted_disjoint_map(alloc, map.range_values())?; // (10..=14, 'a'), (15..=15, 'b'), (30..=39, 'c')
    /// ```
    pub fn from_sorted_disjoint_map<VC: ValueCarrier<Value = V>, I: SortedDisjointMap<T, VC>>(
        alloc: Global,
        stream: I,
    ) -> Result<Self, AllocError>
        requires { VC.can_carry }
        ensures { IfOk result (IsMade (SameEntries V.eq (I.left stream))) }
    {
        stream.in_hand();
        let mut entries = Vec::new(alloc);
        for (range, carrier) in stream {
            let (start, end) = range.into_inner();
            entries.push((start, end, carrier.into_value()?))?;
        }
        Self::from_canonical(alloc, entries)
    }
}

/// A stream that can become a map. Every `SortedDisjointMap` is one.
pub trait IntoRangeMapBlaze<T: Integer, VC: ValueCarrier>: SortedDisjointMap<T, VC> {
    /// Returns the map of the ranges that the stream has not yet given, each with the value of its carrier. A carrier that
    /// borrows its value clones it. Allocates. If an allocation fails, the stream is dropped. O(n) for n ranges.
    ///
    /// ```
    /// let mut entries = map.range_values();
    /// entries.next(); // Some((10..=14, 'a'))
    /// entries.into_range_map_blaze(alloc)?; // (15..=15, 'b'), (30..=39, 'c')
    /// ```
    fn into_range_map_blaze(self, alloc: Global) -> Result<RangeMapBlaze<T, VC::Value>, AllocError>
    where
        Self: Sized,
        requires { VC.can_carry }
        ensures { IfOk result (IsMade (SameEntries VC.Value.eq (Self.left self))) }
    {
        RangeMapBlaze::from_sorted_disjoint_map(alloc, self)
    }
}

impl<T: Integer, VC: ValueCarrier, I: SortedDisjointMap<T, VC>> IntoRangeMapBlaze<T, VC> for I {}
