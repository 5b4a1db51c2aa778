//! The laws of entries, of bulk changes, of keys taken and put back, of joins and `transform_values`, and of a range changed by a function.
ghost use Rattle.blaze_streams.specs.Carried.{shown_option};
ghost use Rattle.blaze_streams.specs.JoinAnswers.{either, both, left_or_both};
ghost use Rattle.range_map_blaze.specs.MapLaws.{AnswersAreOnItsKeys, EntriesAreRuns, FillingIsUnion, FullJoinIsInnerJoin};
ghost use Rattle.range_map_blaze.specs.MapLaws.{LeftJoinIsOnTheLeftKeys, PaintingInTurnExtends, TakingIsUndone, WalkedEntriesAreRuns};
ghost use Rattle.range_map_blaze.specs.TryLaws.{TryIsPlain};
ghost use Rattle.range_map_blaze.specs.UpdateLaws.{InsertingAbsentIsUpdating, InsertingIsUpdating};
ghost use Rattle.range_map_blaze.specs.UpdateLaws.{PartUpdatingIsByKeys, RemovingIsUpdating, UpdatingIsByKeys};

use blaze_int::Integer;
use std::alloc::AllocError;

/// Each entry of a map's list is a run: its keys have its very value, and the keys next to them have no value that is equal to it.
/// It is one of the list (`Contains`), or a walk over the list comes to it. `in_hand` of a map says that its list is one.
pub fn entries_are_runs<T: Integer, V: Eq>()
    ensures member { EntriesAreRuns V.eq T.low T.high }
    ensures walked { WalkedEntriesAreRuns V.eq T.low T.high }
{}

/// Pairs that are painted one by one, as `extend_from` and `extend_simple` do, leave the content that painting them in order
/// gives. They leave at most two entries more for each pair, and every entry that no pair touches.
pub fn painting_in_turn_extends<T: Integer, V: Eq>()
    ensures { PaintingInTurnExtends V.eq T.low T.high }
{}

/// `a.extend_absent(&b)` leaves the entries of `b | a`: the same ranges, with equal values.
pub fn extend_absent_is_or<T: Integer, V: Eq>()
    ensures { FillingIsUnion V.eq T.low T.high }
{}

/// If `a.ranges_take(..)` returned `b`, then `a.extend_from(b)` leaves the entries that `a` had before: the same ranges, with
/// equal values.
pub fn extend_from_undoes_ranges_take<T: Integer, V: Eq>()
    ensures { TakingIsUndone V.eq T.low T.high }
{}

/// `transform_values` keeps the keys that have a value, and so `len`.
pub fn transform_values_keeps_keys<T: Integer, V: Eq, W: Eq, F: FnMut(&V) -> W>()
    ensures { AnswersAreOnItsKeys (λ a. a.0.now) F.FnMut W.eq T.low T.high }
{}

/// A map that `try_transform_values` returns is one that `transform_values` returns, for a closure `G` that returns what `F`
/// returns in `Ok`.
pub fn try_transform_values_is_transform_values<
    T: Integer,
    V: Eq,
    W: Eq,
    F: FnMut(&V) -> Result<W, AllocError>,
    G: FnMut(&V) -> W,
>()
    ensures { TryIsPlain (λ a. a.0.now) F.FnMut G.FnMut W.eq T.low T.high }
{}

/// `left_join` has the keys of the left map, and so its `len`.
pub fn left_join_has_left_keys<T: Integer, V: Eq, V2: Eq, W: Eq, F: FnMut(&V, Option<&V2>) -> W>()
    ensures { LeftJoinIsOnTheLeftKeys (left_or_both (λ v. v.now) (λ v. v.now)) F.FnMut V.eq V2.eq
        W.eq T.low T.high }
{}

/// For two universal maps, `full_join` and `inner_join` have the same ranges with equal values, if their closures return the
/// same.
pub fn full_join_is_inner_join<
    T: Integer,
    V: Eq,
    V2: Eq,
    W: Eq,
    F: FnMut(Option<&V>, Option<&V2>) -> W,
    G: FnMut(&V, &V2) -> W,
>()
    ensures { FullJoinIsInnerJoin (either (λ v. v.now) (λ v. v.now)) F.FnMut V.eq V2.eq W.eq T.low
        T.high (both (λ v. v.now) (λ v. v.now)) G.FnMut }
{}

/// Let a closure return the results of a plain function. `ranges_update` with it changes key by key: each key of the range has
/// afterwards the result of the function at its old value.
pub fn updating_is_by_keys<
    T: Integer,
    V: Eq,
    F: FnMut(Option<&V>) -> Result<Option<V>, AllocError>,
>()
    ensures { UpdatingIsByKeys (λ a. shown_option (λ v. v.now) a.0) F.FnMut V.eq T.low T.high }
{}

/// Let a closure return the results of a plain function, and an allocation fail between two edits of `ranges_update`. The keys up
/// to the end of a piece have the results of the function, and the others their old values.
pub fn part_updating_is_by_keys<
    T: Integer,
    V: Eq,
    F: FnMut(Option<&V>) -> Result<Option<V>, AllocError>,
>()
    ensures { PartUpdatingIsByKeys (λ a. shown_option (λ v. v.now) a.0) F.FnMut V.eq T.low T.high }
{}

/// `ranges_insert(range, v)` leaves the entries that `ranges_update` leaves with a closure that always returns `Some(v)`.
pub fn inserting_is_updating<
    T: Integer,
    V: Eq,
    F: FnMut(Option<&V>) -> Result<Option<V>, AllocError>,
>()
    ensures { InsertingIsUpdating (λ a. shown_option (λ v. v.now) a.0) F.FnMut V.eq T.low T.high }
{}

/// `ranges_insert_absent(range, v)` leaves the entries that `ranges_update` leaves with a closure that returns the old value, and
/// `Some(v)` where there is none.
pub fn inserting_absent_is_updating<
    T: Integer,
    V: Eq,
    F: FnMut(Option<&V>) -> Result<Option<V>, AllocError>,
>()
    ensures { InsertingAbsentIsUpdating (λ a. shown_option (λ v. v.now) a.0) F.FnMut V.eq T.low T.high }
{}

/// `ranges_remove(range)` leaves the entries that `ranges_update` leaves with a closure that always returns `None`.
pub fn removing_is_updating<
    T: Integer,
    V: Eq,
    F: FnMut(Option<&V>) -> Result<Option<V>, AllocError>,
>()
    ensures { RemovingIsUpdating (λ a. shown_option (λ v. v.now) a.0) F.FnMut V.eq T.low T.high }
{}
