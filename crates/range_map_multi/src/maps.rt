//! Operations between any number of maps.
ghost use Rattle.std.specs.Prelude.{◌<◌, List, length, map, is_some, IfOk};
ghost use Rattle.std.specs.List.{list_all, list_any};
ghost use Rattle.blaze_entries.specs.Entries.{Entry};
ghost use Rattle.blaze_entries.specs.Painted.{ClonesAreAlike};
ghost use Rattle.blaze_streams.specs.Many.{last_value, last_of_all, last_of_odd, IsChosenOfMany};
ghost use Rattle.range_map_multi.specs.ManyJoins.{shown_row, shown_full_row, IsCallableAtRows};
ghost use Rattle.range_map_multi.specs.ManyJoins.{IsManyJoined};
ghost use Rattle.range_map_blaze.specs.Made.{IsMade};

use crate::borrowed_differences::borrowed_symmetric_difference;
use crate::borrowed_intersections::borrowed_intersection;
use crate::borrowed_joins::{borrowed_full_join, borrowed_inner_join};
use crate::borrowed_maps::MapRef;
use crate::borrowed_unions::borrowed_union;
use crate::owned_differences::owned_symmetric_difference;
use crate::owned_unions::owned_union;
use blaze_int::Integer;
use range_map_blaze::RangeMapBlaze;
use std::alloc::{AllocError, Global};

/// Operations between any number of borrowed maps: a `Vec` or an array of references to maps. If an allocation fails, the maps
/// are unchanged. The examples of the methods start from these values, where `alloc` is `rt.alloc()`; the comment behind a line
/// is its result:
///
/// ```
/// let map = RangeMapBlaze::from_ranges(alloc, [(10..=14, 'a'), (15..=15, 'b'), (30..=39, 'c')])?;
/// let other = RangeMapBlaze::from_ranges(alloc, [(12..=15, 'b')])?;
/// [&map, &other].union(alloc)?; // (10..=11, 'a'), (12..=15, 'b'), (30..=39, 'c')
/// ```
pub trait MultiwayRangeMapBlazeRef<T: Integer, V: Eq + Clone>: Sized {
    // The entries of each map, first to last.
    ghost lists: { Self → List (List (Entry V)) };

    /// Returns the keys that at least one map has, with the value of the last map that has it; the empty map for no maps. Each
    /// entry of the result has a clone of its value.
    ///
    /// Allocates. If an allocation fails, the maps are unchanged. O(n log k) for n entries in k maps. With two maps it is `|`. A
    /// map with at least 16 entries for each entry of all the others is cloned. If the others cover few of its entries, each of
    /// theirs is then only O(log n), and a clone for each gap that it fills.
    ///
    /// ```
    /// [&map, &other].union(alloc)?; // (10..=11, 'a'), (12..=15, 'b'), (30..=39, 'c')
    /// ```
    fn union(self, alloc: Global) -> Result<RangeMapBlaze<T, V>, AllocError>
        requires { ClonesAreAlike V.is_clone V.eq }
        ensures { IfOk result (IsMade (IsChosenOfMany V.eq T.low T.high last_value (lists self))) };

    /// Returns the keys that all maps have, with the value of the last map. It requires at least one map. Each entry of the
    /// result has a clone of its value.
    ///
    /// Allocates. If an allocation fails, the maps are unchanged. O(n log k) for n entries in k maps. With 3 to 16 maps it begins
    /// with the smallest, and searches the others only for the keys that remain, as `&` does.
    ///
    /// ```
    /// [&map, &other].intersection(alloc)?; // (12..=15, 'b')
    /// ```
    fn intersection(self, alloc: Global) -> Result<RangeMapBlaze<T, V>, AllocError>
        requires clones { ClonesAreAlike V.is_clone V.eq }
        requires some { 0 < length (lists self) }
        ensures { IfOk result (IsMade (IsChosenOfMany V.eq T.low T.high last_of_all (lists self))) };

    /// Returns the keys that an odd number of maps have, with the value of the last map that has it; the empty map for no maps.
    /// Each entry of the result has a clone of its value.
    ///
    /// Allocates. If an allocation fails, the maps are unchanged. O(n log k) for n entries in k maps. With two maps it is `^`. A
    /// map with at least 16 entries for each entry of all the others is cloned. If the others cover few of its entries, each of
    /// theirs is then only O(log n).
    ///
    /// ```
    /// [&map, &other].symmetric_difference(alloc)?; // (10..=11, 'a'), (30..=39, 'c')
    /// ```
    fn symmetric_difference(self, alloc: Global) -> Result<RangeMapBlaze<T, V>, AllocError>
        requires { ClonesAreAlike V.is_clone V.eq }
        ensures { IfOk result (IsMade (IsChosenOfMany V.eq T.low T.high last_of_odd (lists self))) };

    /// Returns the map with the results of `f` at the keys that have a value in all maps. It calls `f` once for each of the
    /// longest ranges on which no map changes, ascending, with the row of the values, first map to last. Touching ranges with
    /// equal results become one entry. With no maps it calls `f` once, with an empty row, and every key has the result.
    ///
    /// No value is cloned. Allocates O(n + k) besides the result, for n entries in k maps. If an allocation fails, the maps are
    /// unchanged and the results of `f` are dropped. O(n k).
    ///
    /// ```
    /// [&map, &other].inner_join(alloc, |row| row.first() == row.last())?; // (12..=14, false), (15..=15, true)
    /// ```
    fn inner_join<W: Eq + Clone, F: FnMut(&[&V]) -> W>(
        self,
        alloc: Global,
        f: F,
    ) -> Result<RangeMapBlaze<T, W>, AllocError>
        requires { IsCallableAtRows (λ a. shown_full_row (λ v. v.now) a.0.now) F.FnMut V.eq T.low
            T.high (list_all is_some) f (lists self) }
        ensures { IfOk result (IsMade (IsManyJoined (λ a. shown_full_row (λ v. v.now) a.0.now) F.FnMut V.eq T.low T.high (list_all is_some) W.eq f (lists self))) };

    /// Returns the map with the results of `f` at the keys that have a value in at least one map. It calls `f` once for each of
    /// the longest ranges on which no map changes, ascending. A call gets the row of the values, first map to last, with `None`
    /// for each map without one. Touching ranges with equal results become one entry. With no maps the result is empty, and there
    /// is no call.
    ///
    /// No value is cloned. Allocates O(n + k) besides the result, for n entries in k maps. If an allocation fails, the maps are
    /// unchanged and the results of `f` are dropped. O(n k).
    ///
    /// ```
    /// [&map, &other].full_join(alloc, |row| row.first() == row.last())?; // (10..=14, false), (15..=15, true), (30..=39, false)
    /// ```
    fn full_join<W: Eq + Clone, F: FnMut(&[Option<&V>]) -> W>(
        self,
        alloc: Global,
        f: F,
    ) -> Result<RangeMapBlaze<T, W>, AllocError>
        requires { IsCallableAtRows (λ a. shown_row (λ v. v.now) a.0.now) F.FnMut V.eq T.low T.high
            (list_any is_some) f (lists self) }
        ensures { IfOk result (IsMade (IsManyJoined (λ a. shown_row (λ v. v.now) a.0.now) F.FnMut V.eq T.low T.high (list_any is_some) W.eq f (lists self))) };
}

impl<'a, T: Integer, V: Eq + Clone> MultiwayRangeMapBlazeRef<T, V>
    for Vec<&'a RangeMapBlaze<T, V>> {
    ghost lists = { λ s. map (λ m. m.now.entries) s.items };

    fn union(self, alloc: Global) -> Result<RangeMapBlaze<T, V>, AllocError> {
        borrowed_union(alloc, &self)
    }

    fn intersection(self, alloc: Global) -> Result<RangeMapBlaze<T, V>, AllocError> {
        borrowed_intersection(alloc, &self)
    }

    fn symmetric_difference(self, alloc: Global) -> Result<RangeMapBlaze<T, V>, AllocError> {
        borrowed_symmetric_difference(alloc, &self)
    }

    fn inner_join<W: Eq + Clone, F: FnMut(&[&V]) -> W>(
        self,
        alloc: Global,
        f: F,
    ) -> Result<RangeMapBlaze<T, W>, AllocError> {
        borrowed_inner_join(alloc, &self, f)
    }

    fn full_join<W: Eq + Clone, F: FnMut(&[Option<&V>]) -> W>(
        self,
        alloc: Global,
        f: F,
    ) -> Result<RangeMapBlaze<T, W>, AllocError> {
        borrowed_full_join(alloc, &self, f)
    }
}

impl<T: Integer, V: Eq + Clone, M: MapRef<T, V>, const N: usize> MultiwayRangeMapBlazeRef<T, V>
    for [M; N] {
    ghost lists = { λ s. map M.shown s };

    fn union(self, alloc: Global) -> Result<RangeMapBlaze<T, V>, AllocError> {
        let maps = Vec::from_array(alloc, self)?;
        borrowed_union(alloc, &maps)
    }

    fn intersection(self, alloc: Global) -> Result<RangeMapBlaze<T, V>, AllocError> {
        let maps = Vec::from_array(alloc, self)?;
        borrowed_intersection(alloc, &maps)
    }

    fn symmetric_difference(self, alloc: Global) -> Result<RangeMapBlaze<T, V>, AllocError> {
        let maps = Vec::from_array(alloc, self)?;
        borrowed_symmetric_difference(alloc, &maps)
    }

    fn inner_join<W: Eq + Clone, F: FnMut(&[&V]) -> W>(
        self,
        alloc: Global,
        f: F,
    ) -> Result<RangeMapBlaze<T, W>, AllocError> {
        let maps = Vec::from_array(alloc, self)?;
        borrowed_inner_join(alloc, &maps, f)
    }

    fn full_join<W: Eq + Clone, F: FnMut(&[Option<&V>]) -> W>(
        self,
        alloc: Global,
        f: F,
    ) -> Result<RangeMapBlaze<T, W>, AllocError> {
        let maps = Vec::from_array(alloc, self)?;
        borrowed_full_join(alloc, &maps, f)
    }
}

/// Operations between any number of owned maps: a `Vec` or an array of maps. If an allocation fails, the maps are dropped. The
/// examples of the methods start from these values, where `alloc` is `rt.alloc()`; the comment behind a line is its result:
///
/// ```
/// let map = RangeMapBlaze::from_ranges(alloc, [(10..=14, 'a'), (15..=15, 'b'), (30..=39, 'c')])?;
/// let other = RangeMapBlaze::from_ranges(alloc, [(12..=15, 'b')])?;
/// [map, other].union(alloc)?; // (10..=11, 'a'), (12..=15, 'b'), (30..=39, 'c')
/// ```
pub trait MultiwayRangeMapBlaze<T: Integer, V: Eq + Clone>: Sized {
    // The entries of each map, first to last.
    ghost lists: { Self → List (List (Entry V)) };

    /// Returns the keys that at least one map has, with the value of the last map that has it; the empty map for no maps. Each
    /// entry of the result has a clone of its value, except in the next two cases.
    ///
    /// Allocates. If an allocation fails, the maps are dropped. O(n log k) for n entries in k maps. With two maps it is `|`, with
    /// their own values. A map with at least 16 entries for each entry of all the others is changed in place, and keeps its own
    /// values. If the others cover few of its entries, each of theirs is then only O(log n), and a clone for each gap that it
    /// fills.
    ///
    /// ```
    /// [map, other].union(alloc)?; // (10..=11, 'a'), (12..=15, 'b'), (30..=39, 'c')
    /// ```
    fn union(self, alloc: Global) -> Result<RangeMapBlaze<T, V>, AllocError>
        requires { ClonesAreAlike V.is_clone V.eq }
        ensures { IfOk result (IsMade (IsChosenOfMany V.eq T.low T.high last_value (lists self))) };

    /// Returns the keys that all maps have, with the value of the last map. It requires at least one map. Each entry of the
    /// result has a clone of its value.
    ///
    /// Allocates. If an allocation fails, the maps are dropped. O(n log k) for n entries in k maps. With 3 to 16 maps it begins
    /// with the smallest, and searches the others only for the keys that remain, as `&` does.
    ///
    /// ```
    /// [map, other].intersection(alloc)?; // (12..=15, 'b')
    /// ```
    fn intersection(self, alloc: Global) -> Result<RangeMapBlaze<T, V>, AllocError>
        requires clones { ClonesAreAlike V.is_clone V.eq }
        requires some { 0 < length (lists self) }
        ensures { IfOk result (IsMade (IsChosenOfMany V.eq T.low T.high last_of_all (lists self))) };

    /// Returns the keys that an odd number of maps have, with the value of the last map that has it; the empty map for no maps.
    /// Each entry of the result has a clone of its value, except in the next two cases.
    ///
    /// Allocates. If an allocation fails, the maps are dropped. O(n log k) for n entries in k maps. With two maps it is `^`, with
    /// their own values. A map with at least 16 entries for each entry of all the others is changed in place, and keeps its own
    /// values. If the others cover few of its entries, each of theirs is then only O(log n).
    ///
    /// ```
    /// [map, other].symmetric_difference(alloc)?; // (10..=11, 'a'), (30..=39, 'c')
    /// ```
    fn symmetric_difference(self, alloc: Global) -> Result<RangeMapBlaze<T, V>, AllocError>
        requires { ClonesAreAlike V.is_clone V.eq }
        ensures { IfOk result (IsMade (IsChosenOfMany V.eq T.low T.high last_of_odd (lists self))) };
}

impl<T: Integer, V: Eq + Clone> MultiwayRangeMapBlaze<T, V> for Vec<RangeMapBlaze<T, V>> {
    ghost lists = { λ s. map (λ m. m.entries) s.items };

    fn union(self, alloc: Global) -> Result<RangeMapBlaze<T, V>, AllocError> {
        owned_union(alloc, self)
    }

    fn intersection(self, alloc: Global) -> Result<RangeMapBlaze<T, V>, AllocError> {
        borrowed_intersection(alloc, &self)
    }

    fn symmetric_difference(self, alloc: Global) -> Result<RangeMapBlaze<T, V>, AllocError> {
        owned_symmetric_difference(alloc, self)
    }
}

impl<T: Integer, V: Eq + Clone, const N: usize> MultiwayRangeMapBlaze<T, V>
    for [RangeMapBlaze<T, V>; N] {
    ghost lists = { λ s. map (λ m. m.entries) s };

    fn union(self, alloc: Global) -> Result<RangeMapBlaze<T, V>, AllocError> {
        let maps = Vec::from_array(alloc, self)?;
        owned_union(alloc, maps)
    }

    fn intersection(self, alloc: Global) -> Result<RangeMapBlaze<T, V>, AllocError> {
        let maps = Vec::from_array(alloc, self)?;
        borrowed_intersection(alloc, &maps)
    }

    fn symmetric_difference(self, alloc: Global) -> Result<RangeMapBlaze<T, V>, AllocError> {
        let maps = Vec::from_array(alloc, self)?;
        owned_symmetric_difference(alloc, maps)
    }
}
