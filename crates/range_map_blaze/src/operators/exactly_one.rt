//! The keys that exactly one of two maps has, with their values.
ghost use Rattle.std.specs.Option.{option_xor};
ghost use Rattle.std.specs.Prelude.{IfOk};
ghost use Rattle.blaze_entries.specs.Chosen.{IsChosen};
ghost use Rattle.blaze_entries.specs.Painted.{ClonesAreAlike};

use crate::map::RangeMapBlaze;
use crate::operators::by_keys::{outside_keys, outside_keys_owned};
use crate::operators::chosen::{borrowed_chosen, owned_chosen};
use crate::operators::few::is_narrow;
use crate::operators::set_of::set_of;
use crate::operators::union::union_owned;
use blaze_int::Integer;
use blaze_iters::{OwnedRangeValuesIter, ranges_of};
use blaze_streams::ExactlyOne;
use std::alloc::AllocError;

/// The keys that exactly one of two borrowed maps has, by a merge of both. If one of them has few entries, removes them from a
/// clone of the other, and adds what that one lacks.
pub fn symmetric_difference<T: Integer, V: Eq + Clone>(
    left: &RangeMapBlaze<T, V>,
    right: &RangeMapBlaze<T, V>,
) -> Result<RangeMapBlaze<T, V>, AllocError>
    requires { ClonesAreAlike V.is_clone V.eq }
    ensures { IfOk result (λ map. IsChosen V.eq T.low T.high option_xor left.now.entries
        right.now.entries map.entries) }
{
    if is_narrow(&left.table, &right.table) || is_narrow(&right.table, &left.table) {
        return alone(left, right);
    }
    let room = left.ranges_len().saturating_add(right.ranges_len());
    borrowed_chosen(
        left,
        left.range_values(),
        right.range_values(),
        &ExactlyOne,
        room,
    )
}

/// The keys that exactly one of two owned maps has, with their own values. If one of the maps has few entries, edits the other in
/// place.
pub fn symmetric_difference_owned<T: Integer, V: Eq + Clone>(
    left: RangeMapBlaze<T, V>,
    right: RangeMapBlaze<T, V>,
) -> Result<RangeMapBlaze<T, V>, AllocError>
    requires { ClonesAreAlike V.is_clone V.eq }
    ensures { IfOk result (λ map. IsChosen V.eq T.low T.high option_xor left.entries
        right.entries map.entries) }
{
    if is_narrow(&right.table, &left.table) {
        return alone_owned(left, right);
    }
    if is_narrow(&left.table, &right.table) {
        return alone_owned(right, left);
    }
    let room = left.ranges_len().saturating_add(right.ranges_len());
    owned_chosen(
        left,
        OwnedRangeValuesIter::new(right.table),
        &ExactlyOne,
        room,
    )
}

/// The keys that exactly one of an owned and a borrowed map has. If the borrowed one has few entries, edits the owned one in
/// place.
pub fn symmetric_difference_with<T: Integer, V: Eq + Clone>(
    left: RangeMapBlaze<T, V>,
    right: &RangeMapBlaze<T, V>,
) -> Result<RangeMapBlaze<T, V>, AllocError>
    requires { ClonesAreAlike V.is_clone V.eq }
    ensures { IfOk result (λ map. IsChosen V.eq T.low T.high option_xor left.entries
        right.now.entries map.entries) }
{
    if is_narrow(&right.table, &left.table) {
        return alone_with(left, right);
    }
    symmetric_difference(&left, right)
}

/// The keys that exactly one of a borrowed and an owned map has, as those of the owned and the borrowed one.
pub fn symmetric_difference_under<T: Integer, V: Eq + Clone>(
    left: &RangeMapBlaze<T, V>,
    right: RangeMapBlaze<T, V>,
) -> Result<RangeMapBlaze<T, V>, AllocError>
    requires { ClonesAreAlike V.is_clone V.eq }
    ensures { IfOk result (λ map. IsChosen V.eq T.low T.high option_xor left.now.entries
        right.entries map.entries) }
{
    symmetric_difference_with(right, left)
}

/// The union of what each of two borrowed maps has outside of the other's keys.
fn alone<T: Integer, V: Eq + Clone>(
    left: &RangeMapBlaze<T, V>,
    right: &RangeMapBlaze<T, V>,
) -> Result<RangeMapBlaze<T, V>, AllocError>
    requires { ClonesAreAlike V.is_clone V.eq }
    ensures { IfOk result (λ map. IsChosen V.eq T.low T.high option_xor left.now.entries
        right.now.entries map.entries) }
{
    let left_alone = outside_keys(left, &right.table)?;
    let right_alone = outside_keys(right, &left.table)?;
    union_owned(left_alone, right_alone)
}

/// The union of what each of two owned maps has outside of the other's keys. It makes the set of the right map's keys first,
/// since the next line consumes that map.
fn alone_owned<T: Integer, V: Eq + Clone>(
    left: RangeMapBlaze<T, V>,
    right: RangeMapBlaze<T, V>,
) -> Result<RangeMapBlaze<T, V>, AllocError>
    requires { ClonesAreAlike V.is_clone V.eq }
    ensures { IfOk result (λ map. IsChosen V.eq T.low T.high option_xor left.entries
        right.entries map.entries) }
{
    let keys = set_of(right.allocator(), ranges_of(&right.table))?;
    let right_alone = outside_keys_owned(right, &left.table)?;
    let left_alone = outside_keys_owned(left, keys.as_table())?;
    union_owned(left_alone, right_alone)
}

/// The union of what an owned and a borrowed map have outside of each other's keys.
fn alone_with<T: Integer, V: Eq + Clone>(
    left: RangeMapBlaze<T, V>,
    right: &RangeMapBlaze<T, V>,
) -> Result<RangeMapBlaze<T, V>, AllocError>
    requires { ClonesAreAlike V.is_clone V.eq }
    ensures { IfOk result (λ map. IsChosen V.eq T.low T.high option_xor left.entries
        right.now.entries map.entries) }
{
    let right_alone = outside_keys(right, &left.table)?;
    let left_alone = outside_keys_owned(left, &right.table)?;
    union_owned(left_alone, right_alone)
}
