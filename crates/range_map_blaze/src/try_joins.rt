//! Joins of two maps, and a map with other values, by closures that may fail to allocate.
ghost use Rattle.std.specs.Prelude.{IfOk};
ghost use Rattle.blaze_streams.specs.Answers.{values, IsCallableAtEachValue, IsTransformed};
ghost use Rattle.blaze_streams.specs.Fallible.{ok_calls};
ghost use Rattle.blaze_streams.specs.JoinAnswers.{either, both, left_or_both, IsCallableAtSegments};
ghost use Rattle.blaze_streams.specs.JoinAnswers.{IsJoined};
ghost use Rattle.blaze_streams.specs.declared.segmenting.joins.JoinKind.TheVariants.{Inner, Left, Full};
ghost use Rattle.range_map_blaze.specs.Made.{IsMade};

use crate::joins::{joined, transformed};
use crate::map::RangeMapBlaze;
use blaze_int::Integer;
use blaze_streams::{Both, Either, Fallible, JoinKind, LeftOrBoth, Whole};
use std::alloc::AllocError;

impl<T: Integer, V: Eq + Clone> RangeMapBlaze<T, V> {
    /// Returns the map with the same keys, each with the result of `f` at its entry's value. `f` may fail to allocate. It is
    /// called once for each entry, ascending. Touching entries with equal results become one entry.
    ///
    /// Allocates. The first `Err` of `f` is returned, and `f` is not called again. On any `Err` the map is unchanged and the
    /// results of `f` are dropped. O(n) for n entries.
    ///
    /// ```
    /// map.try_transform_values(|value| format!(in alloc; "{value}!"))?; // (10..=14, "a!"), (15..=15, "b!"), (30..=39, "c!")
    /// ```
    pub fn try_transform_values<W: Eq + Clone, F: FnMut(&V) -> Result<W, AllocError>>(
        &self,
        f: F,
    ) -> Result<RangeMapBlaze<T, W>, AllocError>
        requires { IsCallableAtEachValue (λ a. a.0.now) (ok_calls F.FnMut) f
            (values self.now.entries) }
        ensures { IfOk result (IsMade (IsTransformed (λ a. a.0.now) (ok_calls F.FnMut) W.eq T.low
            T.high f self.now.entries)) }
    {
        transformed::<T, V, W, F, Fallible<Whole>>(self.allocator(), &self.table, f)
    }

    /// Returns the map with the results of `f` at the keys that have a value in both maps. `f` may fail to allocate. It is called
    /// once for each of the longest ranges on which neither map changes, ascending. Touching ranges with equal results become one
    /// entry.
    ///
    /// Allocates. The first `Err` of `f` is returned, and `f` is not called again. On any `Err` both maps are unchanged and the
    /// results of `f` are dropped. O(n + m) for n and m entries. If one map has k entries, far fewer than the n of the other: O(k
    /// log n), and O(1) for each call of `f`.
    ///
    /// ```
    /// map.try_inner_join(&other, |value, new| format!(in alloc; "{value}{new}"))?; // (12..=14, "ab"), (15..=15, "bb")
    /// ```
    pub fn try_inner_join<
        V2: Eq + Clone,
        W: Eq + Clone,
        F: FnMut(&V, &V2) -> Result<W, AllocError>,
    >(&self, other: &RangeMapBlaze<T, V2>, f: F) -> Result<RangeMapBlaze<T, W>, AllocError>
        requires { IsCallableAtSegments (both (λ v. v.now) (λ v. v.now)) (ok_calls F.FnMut) V.eq
            V2.eq T.low T.high Inner f self.now.entries other.now.entries }
        ensures { IfOk result (IsMade (IsJoined (both (λ v. v.now) (λ v. v.now)) (ok_calls F.FnMut)
            V.eq V2.eq T.low T.high Inner W.eq f self.now.entries other.now.entries)) }
    {
        joined::<T, V, V2, W, F, Fallible<Both>>(
            self.allocator(),
            &self.table,
            &other.table,
            JoinKind::Inner,
            f,
        )
    }

    /// Returns the map with the results of `f` at the keys of this map. `f` gets the value of `other` too, where it has one, and
    /// may fail to allocate. It is called once for each of the longest ranges on which neither map changes, ascending. Touching
    /// ranges with equal results become one entry.
    ///
    /// Allocates. The first `Err` of `f` is returned, and `f` is not called again. On any `Err` both maps are unchanged and the
    /// results of `f` are dropped. O(n + m) for n entries here and m in `other`. If n is far less than m: O(n log m), and O(1)
    /// for each call of `f`.
    ///
    /// ```
    /// map.try_left_join(&other, |value, new| format!(in alloc; "{value}{}", new.is_some()))?; // (10..=11, "afalse"), (12..=14, "atrue"), (15..=15, "btrue"), (30..=39, "cfalse")
    /// ```
    pub fn try_left_join<
        V2: Eq + Clone,
        W: Eq + Clone,
        F: FnMut(&V, Option<&V2>) -> Result<W, AllocError>,
    >(&self, other: &RangeMapBlaze<T, V2>, f: F) -> Result<RangeMapBlaze<T, W>, AllocError>
        requires { IsCallableAtSegments (left_or_both (λ v. v.now) (λ v. v.now)) (ok_calls F.FnMut)
            V.eq V2.eq T.low T.high Left f self.now.entries other.now.entries }
        ensures { IfOk result (IsMade (IsJoined (left_or_both (λ v. v.now) (λ v. v.now))
            (ok_calls F.FnMut) V.eq V2.eq T.low T.high Left W.eq f self.now.entries
            other.now.entries)) }
    {
        joined::<T, V, V2, W, F, Fallible<LeftOrBoth>>(
            self.allocator(),
            &self.table,
            &other.table,
            JoinKind::Left,
            f,
        )
    }

    /// Returns the map with the results of `f` at the keys that have a value in at least one of the maps. `f` gets the value of
    /// each map that has one, and may fail to allocate. It is called once for each of the longest ranges on which neither map
    /// changes, ascending. Touching ranges with equal results become one entry.
    ///
    /// Allocates. The first `Err` of `f` is returned, and `f` is not called again. On any `Err` both maps are unchanged and the
    /// results of `f` are dropped. O(n + m) for n and m entries.
    ///
    /// ```
    /// map.try_full_join(&other, |old, new| Ok(old != new))?; // (10..=14, true), (15..=15, false), (30..=39, true)
    /// ```
    pub fn try_full_join<
        V2: Eq + Clone,
        W: Eq + Clone,
        F: FnMut(Option<&V>, Option<&V2>) -> Result<W, AllocError>,
    >(&self, other: &RangeMapBlaze<T, V2>, f: F) -> Result<RangeMapBlaze<T, W>, AllocError>
        requires { IsCallableAtSegments (either (λ v. v.now) (λ v. v.now)) (ok_calls F.FnMut) V.eq
            V2.eq T.low T.high Full f self.now.entries other.now.entries }
        ensures { IfOk result (IsMade (IsJoined (either (λ v. v.now) (λ v. v.now)) (ok_calls F.FnMut)
            V.eq V2.eq T.low T.high Full W.eq f self.now.entries other.now.entries)) }
    {
        joined::<T, V, V2, W, F, Fallible<Either>>(
            self.allocator(),
            &self.table,
            &other.table,
            JoinKind::Full,
            f,
        )
    }
}
