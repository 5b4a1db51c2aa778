//! Joins of many borrowed maps.
ghost use Rattle.std.specs.Prelude.{map, is_some, IfOk};
ghost use Rattle.std.specs.List.{list_all, list_any};
ghost use Rattle.range_map_multi.specs.ManyJoins.{shown_row, shown_full_row, IsCallableAtRows};
ghost use Rattle.range_map_multi.specs.ManyJoins.{IsManyJoined};
ghost use Rattle.range_map_blaze.specs.Made.{IsMade};

use crate::borrowed_maps::{AsMap, streams_of};
use crate::parts::all_parts_of;
use crate::row_answers::{full_answers, inner_answers};
use crate::rows::Shows;
use blaze_int::Integer;
use range_map_blaze::{RangeMapBlaze, map_of};
use std::alloc::{AllocError, Global};

/// An item of a row is a reference to its value.
struct ByReference;

impl<'a, V: Eq> Shows<&'a V> for ByReference {
    type Value = V;

    ghost shown = { λ v. v.now };
}

/// The results of a closure where all maps have a value.
pub fn borrowed_inner_join<
    'a,
    T: Integer,
    V: Eq + Clone,
    M: AsMap<T, V>,
    W: Eq + Clone,
    F: FnMut(&[&V]) -> W,
>(alloc: Global, maps: &'a [M], f: F) -> Result<RangeMapBlaze<T, W>, AllocError>
    requires { IsCallableAtRows (λ a. shown_full_row (λ v. v.now) a.0.now) F.FnMut V.eq T.low T.high
        (list_all is_some) f (map M.shown maps.now) }
    ensures { IfOk result (IsMade (IsManyJoined (λ a. shown_full_row (λ v. v.now) a.0.now) F.FnMut V.eq T.low T.high (list_all is_some) W.eq f (map M.shown maps.now))) }
{
    let streams = streams_of(alloc, maps)?;
    let (mut cursors, values) = all_parts_of(alloc, streams)?;
    let answers = inner_answers::<_, _, ByReference, _, _>(alloc, &mut cursors, &values, f)?;
    map_of(alloc, answers)
}

/// The results of a closure where at least one map has a value.
pub fn borrowed_full_join<
    'a,
    T: Integer,
    V: Eq + Clone,
    M: AsMap<T, V>,
    W: Eq + Clone,
    F: FnMut(&[Option<&V>]) -> W,
>(alloc: Global, maps: &'a [M], f: F) -> Result<RangeMapBlaze<T, W>, AllocError>
    requires { IsCallableAtRows (λ a. shown_row (λ v. v.now) a.0.now) F.FnMut V.eq T.low T.high
        (list_any is_some) f (map M.shown maps.now) }
    ensures { IfOk result (IsMade (IsManyJoined (λ a. shown_row (λ v. v.now) a.0.now) F.FnMut V.eq T.low T.high (list_any is_some) W.eq f (map M.shown maps.now))) }
{
    let streams = streams_of(alloc, maps)?;
    let (mut cursors, values) = all_parts_of(alloc, streams)?;
    let answers = full_answers::<_, _, ByReference, _, _>(alloc, &mut cursors, &values, f)?;
    map_of(alloc, answers)
}
