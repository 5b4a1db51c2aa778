//! Operations between any number of streams.
ghost use Rattle.std.specs.Prelude.{◌<◌, List, length, map, is_some, IfOk};
ghost use Rattle.std.specs.List.{list_all, list_any};
ghost use Rattle.blaze_entries.specs.Entries.{Entry};
ghost use Rattle.blaze_streams.specs.Sweeps.{IsSweep};
ghost use Rattle.blaze_streams.specs.Many.{last_value, last_of_all, last_of_odd, IsChosenOfMany};
ghost use Rattle.range_map_multi.specs.ManyJoins.{shown_row, shown_full_row, IsCallableAtRows};
ghost use Rattle.range_map_multi.specs.ManyJoins.{IsManyJoined};

use crate::parity::all_with_keys;
use crate::parts::{all_parts_of, borrowed_lists};
use crate::row_answers::{full_answers, inner_answers};
use crate::rows::Shows;
use blaze_int::Integer;
use blaze_streams::{
    Intersection, MultiwayFullJoinMap, MultiwayInnerJoinMap, MultiwayIntersectionMap,
    MultiwaySweep, MultiwaySymmetricDifferenceMap, MultiwayUnionMap, OddKeys, SortedDisjointMap,
    Union, ValueCarrier, intersection_of, merged, sweep_of,
};
use std::alloc::{AllocError, Global};

/// Operations between any number of streams: a `Vec` of streams, which are consumed. A stream with owned values clones a value
/// only for a piece that is not the last of its range. If an allocation fails, the streams are dropped. The examples of the
/// methods start from these values, where `alloc` is `rt.alloc()`; the comment behind a line is its result:
///
/// ```
/// let map = RangeMapBlaze::from_ranges(alloc, [(10..=14, 'a'), (15..=15, 'b'), (30..=39, 'c')])?;
/// let other = RangeMapBlaze::from_ranges(alloc, [(12..=15, 'b')])?;
/// let streams = Vec::from_array(alloc, [map.range_values(), other.range_values()])?;
/// streams.len(); // 2
/// ```
pub trait MultiwaySortedDisjointMap<T: Integer, VC: ValueCarrier>: Sized {
    // What is left of each stream, first to last.
    ghost lists: { Self → List (List (Entry VC.Value)) };

    /// Returns the keys that a stream has, with the value of the last stream that has it; nothing for no streams. Allocates. If
    /// an allocation fails, the streams are dropped. O(n log k) for n ranges in k streams.
    ///
    /// ```
    /// let streams = Vec::from_array(alloc, [map.range_values(), other.range_values()])?;
    /// streams.union(alloc)?.into_range_map_blaze(alloc)?; // (10..=11, 'a'), (12..=15, 'b'), (30..=39, 'c')
    /// ```
    fn union(self, alloc: Global) -> Result<MultiwayUnionMap<T, VC>, AllocError>
        requires { VC.can_carry }
        ensures { IfOk result (λ new. IsChosenOfMany VC.Value.eq T.low T.high last_value
            (lists self) new) };

    /// Returns the keys that all streams have, with the value of the last stream. It requires at least one stream. Allocates. If
    /// an allocation fails, the streams are dropped. O(n log k) for n ranges in k streams.
    ///
    /// ```
    /// let streams = Vec::from_array(alloc, [map.range_values(), other.range_values()])?;
    /// streams.intersection(alloc)?.into_range_map_blaze(alloc)?; // (12..=15, 'b')
    /// ```
    fn intersection(self, alloc: Global) -> Result<MultiwayIntersectionMap<T, VC>, AllocError>
        requires can { VC.can_carry }
        requires some { 0 < length (lists self) }
        ensures { IfOk result (λ new. IsChosenOfMany VC.Value.eq T.low T.high last_of_all
            (lists self) new) };

    /// Returns the keys that an odd number of streams have, with the value of the last stream that has it; nothing for no
    /// streams. Allocates. If an allocation fails, the streams are dropped. O(n log k) for n ranges in k streams.
    ///
    /// ```
    /// let streams = Vec::from_array(alloc, [map.range_values(), other.range_values()])?;
    /// streams.symmetric_difference(alloc)?.into_range_map_blaze(alloc)?; // (10..=11, 'a'), (30..=39, 'c')
    /// ```
    fn symmetric_difference(
        self,
        alloc: Global,
    ) -> Result<MultiwaySymmetricDifferenceMap<T, VC>, AllocError>
        requires { VC.can_carry }
        ensures { IfOk result (λ new. IsChosenOfMany VC.Value.eq T.low T.high last_of_odd
            (lists self) new) };

    /// Returns the results of `f` at the keys that have a value in all streams. It calls `f` once for each of the longest ranges
    /// on which no stream changes, ascending, with the row of the carriers, first stream to last. Touching ranges with equal
    /// results become one. With no streams it calls `f` once, with an empty row, and every key has the result.
    ///
    /// No value is cloned. Allocates O(n + k) besides the result, for n ranges in k streams. If an allocation fails, the streams
    /// and the results of `f` are dropped. O(n k).
    ///
    /// ```
    /// let streams = Vec::from_array(alloc, [map.range_values(), other.range_values()])?;
    /// let joined = streams.inner_join(alloc, |row| row.first() == row.last())?;
    /// joined.into_range_map_blaze(alloc)?; // (12..=14, false), (15..=15, true)
    /// ```
    fn inner_join<W: Eq + Clone, F: FnMut(&[&VC]) -> W>(
        self,
        alloc: Global,
        f: F,
    ) -> Result<MultiwayInnerJoinMap<T, W>, AllocError>
        requires { IsCallableAtRows (λ a. shown_full_row (λ c. VC.shown c.now) a.0.now) F.FnMut
            VC.Value.eq T.low T.high (list_all is_some) f (lists self) }
        ensures { IfOk result
            (λ new. IsManyJoined (λ a. shown_full_row (λ c. VC.shown c.now) a.0.now) F.FnMut
            VC.Value.eq T.low T.high (list_all is_some) W.eq f (lists self) new) };

    /// Returns the results of `f` at the keys that have a value in at least one stream. It calls `f` once for each of the longest
    /// ranges on which no stream changes, ascending. A call gets the row of the carriers, first stream to last, with `None` for
    /// each stream without one. Touching ranges with equal results become one. With no streams the result is empty, and there is
    /// no call.
    ///
    /// No value is cloned. Allocates O(n + k) besides the result, for n ranges in k streams. If an allocation fails, the streams
    /// and the results of `f` are dropped. O(n k).
    ///
    /// ```
    /// let streams = Vec::from_array(alloc, [map.range_values(), other.range_values()])?;
    /// let joined = streams.full_join(alloc, |row| row.first() == row.last())?;
    /// joined.into_range_map_blaze(alloc)?; // (10..=14, false), (15..=15, true), (30..=39, false)
    /// ```
    fn full_join<W: Eq + Clone, F: FnMut(&[Option<&VC>]) -> W>(
        self,
        alloc: Global,
        f: F,
    ) -> Result<MultiwayFullJoinMap<T, W>, AllocError>
        requires { IsCallableAtRows (λ a. shown_row (λ c. VC.shown c.now) a.0.now) F.FnMut
            VC.Value.eq T.low T.high (list_any is_some) f (lists self) }
        ensures { IfOk result (λ new. IsManyJoined (λ a. shown_row (λ c. VC.shown c.now) a.0.now)
            F.FnMut VC.Value.eq T.low T.high (list_any is_some) W.eq f (lists self) new) };

    /// Returns the events of the streams, ascending by time. Each range of a stream gives a start and an end, with the position
    /// of its stream, from 0. A start comes at its first key, and an end after its last key. If r is the rank of the key, a start
    /// has the time 2 r, and an end 2 r + 1.
    ///
    /// Carriers are moved. Allocates. If an allocation fails, the streams are dropped. O(n log k) for n ranges in k streams.
    ///
    /// ```
    /// let streams = Vec::from_array(alloc, [map.range_values(), other.range_values()])?;
    /// let mut events = streams.sweep(alloc)?;
    /// events.next(); // Some(Start { range: 10..=14, input: 0, value: 'a' })
    /// ```
    fn sweep(self, alloc: Global) -> Result<MultiwaySweep<T, VC>, AllocError>
        ensures { IfOk result (λ events. IsSweep (lists self) events) };
}

/// An item of a row is a reference to a carrier, and stands for the value of the carrier.
struct ByCarrier;

impl<'a, VC: ValueCarrier> Shows<&'a VC> for ByCarrier {
    type Value = VC::Value;

    ghost shown = { λ c. VC.shown c.now };
}

impl<T: Integer, VC: ValueCarrier, I: SortedDisjointMap<T, VC>> MultiwaySortedDisjointMap<T, VC>
    for Vec<I> {
    ghost lists = { λ s. map I.left s.items };

    fn union(self, alloc: Global) -> Result<MultiwayUnionMap<T, VC>, AllocError> {
        let list = merged::<T, VC, I, Union>(alloc, self)?;
        list.in_hand();
        Ok(list)
    }

    fn intersection(self, alloc: Global) -> Result<MultiwayIntersectionMap<T, VC>, AllocError> {
        let list = merged::<T, VC, I, Intersection>(alloc, self)?;
        list.in_hand();
        Ok(list)
    }

    fn symmetric_difference(
        self,
        alloc: Global,
    ) -> Result<MultiwaySymmetricDifferenceMap<T, VC>, AllocError> {
        let (lists, keys) = all_with_keys(alloc, self)?;
        let union = merged::<_, _, _, Union>(alloc, lists)?;
        let odd = merged::<_, _, _, OddKeys>(alloc, keys)?;
        let new = intersection_of(alloc, union, odd)?;
        Ok(new)
    }

    fn inner_join<W: Eq + Clone, F: FnMut(&[&VC]) -> W>(
        self,
        alloc: Global,
        f: F,
    ) -> Result<MultiwayInnerJoinMap<T, W>, AllocError> {
        let (mut cursors, carriers) = all_parts_of(alloc, self)?;
        let borrowed = borrowed_lists(alloc, &carriers)?;
        inner_answers::<_, _, ByCarrier, _, _>(alloc, &mut cursors, &borrowed, f)
    }

    fn full_join<W: Eq + Clone, F: FnMut(&[Option<&VC>]) -> W>(
        self,
        alloc: Global,
        f: F,
    ) -> Result<MultiwayFullJoinMap<T, W>, AllocError> {
        let (mut cursors, carriers) = all_parts_of(alloc, self)?;
        let borrowed = borrowed_lists(alloc, &carriers)?;
        full_answers::<_, _, ByCarrier, _, _>(alloc, &mut cursors, &borrowed, f)
    }

    fn sweep(self, alloc: Global) -> Result<MultiwaySweep<T, VC>, AllocError> {
        sweep_of(alloc, self)
    }
}
