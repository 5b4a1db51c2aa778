//! Maps made of one or two others, and a map split in two. An operator takes O(n + m) for n and m entries, or less.
ghost use Rattle.std.specs.Prelude.{◌≡◌, ◌↔◌, pos, IfOk, IsTrue, nat_eq};
ghost use Rattle.std.specs.Option.{option_xor};
ghost use Rattle.blaze_entries.specs.Chosen.{left_with_right, left_alone, IsChosen};
ghost use Rattle.blaze_entries.specs.Complement.{IsComplement};
ghost use Rattle.blaze_entries.specs.Cut.{IsSplit};
ghost use Rattle.blaze_entries.specs.Entries.{at};
ghost use Rattle.blaze_table.specs.Gap.{IsClearFrom};
ghost use Rattle.range_map_blaze.specs.Extended.{AreInside};
ghost use Rattle.range_map_blaze.specs.Relations.{ShareNoKey};
ghost use Rattle.range_map_blaze.specs.Union.{IsUnion};
ghost use Rattle.range_map_c.specs.Handle.{least_key, greatest_key};
ghost use Rattle.range_map_c.specs.Status.{IsStatus, OnDone, OnRefused};

use super::{RangeMap, boxed_map, hand_out, map_or};
use crate::gaps::has_key_from;
use crate::inside::has_entries_of;
use crate::{DONE, NO_MEMORY};
use range_map_blaze::RangeMapBlaze;
use std::alloc::{AllocError, Global};

/// Replaces `out` by the keys of both maps, with the value of `b` where both have one. If an allocation fails, `out` is unchanged.
#[unsafe(no_mangle)]
pub extern "C" fn range_map_union_unchecked(
    alloc: Global,
    a: &mut RangeMap,
    b: &mut RangeMap,
    out: &mut RangeMap,
) -> i32
    ensures status { IsStatus result }
    ensures ok { OnDone result (IsUnion nat_eq least_key greatest_key a.old.entries b.old.entries
        out.new.entries) }
    ensures err { OnRefused result (out.new.entries ≡ out.old.entries) }
    ensures kept_a { a.new.entries ≡ a.old.entries }
    ensures kept_b { b.new.entries ≡ b.old.entries }
    ensures same_a { a.new.at ≡ a.old.at }
    ensures same_b { b.new.at ≡ b.old.at }
{
    let empty = RangeMapBlaze::new(alloc);
    let made = union_with(alloc, map_or(a.as_ref(), &empty), b);
    hand_out(made, out, alloc)
}

/// Replaces `out` by the keys that have a value in both maps, with the value of `b`. If an allocation fails, `out` is unchanged.
#[unsafe(no_mangle)]
pub extern "C" fn range_map_intersection_unchecked(
    alloc: Global,
    a: &mut RangeMap,
    b: &mut RangeMap,
    out: &mut RangeMap,
) -> i32
    ensures status { IsStatus result }
    ensures ok { OnDone result (IsChosen nat_eq least_key greatest_key left_with_right b.old.entries
        a.old.entries out.new.entries) }
    ensures err { OnRefused result (out.new.entries ≡ out.old.entries) }
    ensures kept_a { a.new.entries ≡ a.old.entries }
    ensures kept_b { b.new.entries ≡ b.old.entries }
    ensures same_a { a.new.at ≡ a.old.at }
    ensures same_b { b.new.at ≡ b.old.at }
{
    let empty = RangeMapBlaze::new(alloc);
    let made = intersection_with(alloc, map_or(a.as_ref(), &empty), b);
    hand_out(made, out, alloc)
}

/// Replaces `out` by the keys of `a` that have no value in `b`, with their values. If an allocation fails, `out` is unchanged.
#[unsafe(no_mangle)]
pub extern "C" fn range_map_difference_unchecked(
    alloc: Global,
    a: &mut RangeMap,
    b: &mut RangeMap,
    out: &mut RangeMap,
) -> i32
    ensures status { IsStatus result }
    ensures ok { OnDone result (IsChosen nat_eq least_key greatest_key left_alone a.old.entries
        b.old.entries out.new.entries) }
    ensures err { OnRefused result (out.new.entries ≡ out.old.entries) }
    ensures kept_a { a.new.entries ≡ a.old.entries }
    ensures kept_b { b.new.entries ≡ b.old.entries }
    ensures same_a { a.new.at ≡ a.old.at }
    ensures same_b { b.new.at ≡ b.old.at }
{
    let empty = RangeMapBlaze::new(alloc);
    let made = difference_with(alloc, map_or(a.as_ref(), &empty), b);
    hand_out(made, out, alloc)
}

/// Replaces `out` by the keys that have a value in exactly one of the maps, with that value. If an allocation fails, `out` is
/// unchanged.
#[unsafe(no_mangle)]
pub extern "C" fn range_map_symmetric_difference_unchecked(
    alloc: Global,
    a: &mut RangeMap,
    b: &mut RangeMap,
    out: &mut RangeMap,
) -> i32
    ensures status { IsStatus result }
    ensures ok { OnDone result (IsChosen nat_eq least_key greatest_key option_xor a.old.entries
        b.old.entries out.new.entries) }
    ensures err { OnRefused result (out.new.entries ≡ out.old.entries) }
    ensures kept_a { a.new.entries ≡ a.old.entries }
    ensures kept_b { b.new.entries ≡ b.old.entries }
    ensures same_a { a.new.at ≡ a.old.at }
    ensures same_b { b.new.at ≡ b.old.at }
{
    let empty = RangeMapBlaze::new(alloc);
    let made = symmetric_difference_with(alloc, map_or(a.as_ref(), &empty), b);
    hand_out(made, out, alloc)
}

/// Replaces `out` by every key that has no value in `a`, all with the one value. If an allocation fails, `out` is unchanged. O(n) for n
/// entries.
#[unsafe(no_mangle)]
pub extern "C" fn range_map_complement_unchecked(
    alloc: Global,
    a: &mut RangeMap,
    value: u64,
    out: &mut RangeMap,
) -> i32
    ensures status { IsStatus result }
    ensures ok { OnDone result (IsComplement nat_eq least_key greatest_key value a.old.entries
        out.new.entries) }
    ensures err { OnRefused result (out.new.entries ≡ out.old.entries) }
    ensures kept { a.new.entries ≡ a.old.entries }
    ensures same { a.new.at ≡ a.old.at }
{
    let empty = RangeMapBlaze::new(alloc);
    let made = map_or(a.as_ref(), &empty).complement_with(&value);
    hand_out(made, out, alloc)
}

/// Keeps the keys of `a` that have a value in `b`, with the value of `b`. If an allocation fails, `a` is unchanged. If each entry of
/// `a` is inside an entry of `b` with the same value, nothing changes, and the call does not allocate.
#[unsafe(no_mangle)]
pub extern "C" fn range_map_intersect_unchecked(
    alloc: Global,
    a: &mut RangeMap,
    b: &mut RangeMap,
) -> i32
    ensures status { IsStatus result }
    ensures ok { OnDone result (IsChosen nat_eq least_key greatest_key left_with_right b.old.entries
        a.old.entries a.new.entries) }
    ensures inside { AreInside nat_eq a.old.entries b.old.entries
        → (result ≡ pos 0) × (a.new.entries ≡ a.old.entries) }
    ensures err { OnRefused result (a.new.entries ≡ a.old.entries) }
    ensures kept { b.new.entries ≡ b.old.entries }
    ensures same { b.new.at ≡ b.old.at }
{
    a.in_hand(alloc);
    b.in_hand(alloc);
    let empty = RangeMapBlaze::new(alloc);
    let left = map_or(a.as_ref(), &empty);
    if is_inside_map(alloc, left, b) {
        return DONE;
    }
    let made = intersection_with(alloc, left, b);
    hand_out(made, a, alloc)
}

/// Removes the keys of `b` from `a`. If an allocation fails, `a` is unchanged. If no key has a value in both, nothing changes, and
/// the call does not allocate.
#[unsafe(no_mangle)]
pub extern "C" fn range_map_subtract_unchecked(
    alloc: Global,
    a: &mut RangeMap,
    b: &mut RangeMap,
) -> i32
    ensures status { IsStatus result }
    ensures ok { OnDone result (IsChosen nat_eq least_key greatest_key left_alone a.old.entries
        b.old.entries a.new.entries) }
    ensures apart { ShareNoKey a.old.entries b.old.entries
        → (result ≡ pos 0) × (a.new.entries ≡ a.old.entries) }
    ensures err { OnRefused result (a.new.entries ≡ a.old.entries) }
    ensures kept { b.new.entries ≡ b.old.entries }
    ensures same { b.new.at ≡ b.old.at }
{
    a.in_hand(alloc);
    let empty = RangeMapBlaze::new(alloc);
    let left = map_or(a.as_ref(), &empty);
    if is_disjoint_from(alloc, left, b) {
        return DONE;
    }
    let made = difference_with(alloc, left, b);
    hand_out(made, a, alloc)
}

/// Leaves the keys of `a` below a key, and replaces `out` by the map of the others. If an allocation fails, both are unchanged. If
/// no key from `key` on has a value, `a` is unchanged, and the call does not allocate. O(log n) for n entries, and O(1) for each
/// entry of the smaller part.
#[tactic(auto, unfolding(blaze_entries::specs::Canonical::IsRunStart, blaze_entries::specs::Canonical::IsRunEnd))]
#[unsafe(no_mangle)]
pub extern "C" fn range_map_split_off_unchecked(
    alloc: Global,
    a: &mut RangeMap,
    key: i64,
    out: &mut RangeMap,
) -> i32
    ensures status { IsStatus result }
    ensures ok { OnDone result (IsSplit nat_eq least_key greatest_key key a.old.entries
        a.new.entries out.new.entries) }
    ensures above { IsClearFrom (at a.old.entries) key greatest_key
        → (result ≡ pos 0) × (a.new.entries ≡ a.old.entries) }
    ensures err { OnRefused result (a.new.entries ≡ a.old.entries) }
    ensures err_out { OnRefused result (out.new.entries ≡ out.old.entries) }
{
    match a.as_mut() {
        Some(there) => split_map(alloc, &mut there.map, key, out),
        None => {
            *out = RangeMap::none(alloc);
            DONE
        }
    }
}

// Leaves the keys below a key, and replaces `out` by the map of the others. If an allocation fails, both are unchanged.
fn split_map(alloc: Global, map: &mut RangeMapBlaze<i64, u64>, key: i64, out: &mut RangeMap) -> i32
    ensures status { IsStatus result }
    ensures ok { OnDone result (IsSplit nat_eq least_key greatest_key key map.old.entries
        map.new.entries out.new.entries) }
    ensures above { IsClearFrom (at map.old.entries) key greatest_key
        → (result ≡ pos 0) × (map.new.entries ≡ map.old.entries) }
    ensures err { OnRefused result (map.new.entries ≡ map.old.entries) }
    ensures err_out { OnRefused result (out.new.entries ≡ out.old.entries) }
{
    map.in_hand();
    if !has_key_from(map, key, i64::MAX) {
        *out = RangeMap::none(alloc);
        return DONE;
    }
    let mut room = match boxed_map(RangeMapBlaze::new(alloc), alloc) {
        Ok(room) => room,
        Err(_) => return NO_MEMORY,
    };
    match map.split_off(key) {
        Ok(from) => {
            room.map = from;
            out.set_map(room);
            DONE
        }
        Err(_) => NO_MEMORY,
    }
}

// Returns the union of `left` and `right`. `right` is unchanged.
fn union_with(
    alloc: Global,
    left: &RangeMapBlaze<i64, u64>,
    right: &mut RangeMap,
) -> Result<RangeMapBlaze<i64, u64>, AllocError>
    ensures content { IfOk result (λ made. IsUnion nat_eq least_key greatest_key left.now.entries right.old.entries made.entries) }
    ensures kept { right.new.entries ≡ right.old.entries }
    ensures same { right.new.at ≡ right.old.at }
{
    let empty = RangeMapBlaze::new(alloc);
    left | map_or(right.as_ref(), &empty)
}

// Returns the intersection of `left` and `right`. `right` is unchanged.
fn intersection_with(
    alloc: Global,
    left: &RangeMapBlaze<i64, u64>,
    right: &mut RangeMap,
) -> Result<RangeMapBlaze<i64, u64>, AllocError>
    ensures content { IfOk result (λ made. IsChosen nat_eq least_key greatest_key left_with_right right.old.entries
        left.now.entries made.entries) }
    ensures kept { right.new.entries ≡ right.old.entries }
    ensures same { right.new.at ≡ right.old.at }
{
    let empty = RangeMapBlaze::new(alloc);
    left & map_or(right.as_ref(), &empty)
}

// Returns the difference of `left` and `right`. `right` is unchanged.
fn difference_with(
    alloc: Global,
    left: &RangeMapBlaze<i64, u64>,
    right: &mut RangeMap,
) -> Result<RangeMapBlaze<i64, u64>, AllocError>
    ensures content { IfOk result (λ made. IsChosen nat_eq least_key greatest_key left_alone left.now.entries
        right.old.entries made.entries) }
    ensures kept { right.new.entries ≡ right.old.entries }
    ensures same { right.new.at ≡ right.old.at }
{
    let empty = RangeMapBlaze::new(alloc);
    left - map_or(right.as_ref(), &empty)
}

// Returns whether no key has a value in both `left` and `right`. `right` is unchanged.
fn is_disjoint_from(alloc: Global, left: &RangeMapBlaze<i64, u64>, right: &mut RangeMap) -> bool
    ensures apart { IsTrue result ↔ ShareNoKey left.now.entries right.old.entries }
    ensures kept { right.new.entries ≡ right.old.entries }
    ensures same { right.new.at ≡ right.old.at }
{
    let empty = RangeMapBlaze::new(alloc);
    left.is_disjoint(map_or(right.as_ref(), &empty))
}

// Returns whether each entry of `left` is inside an entry of `right` with the same value. `right` is unchanged.
fn is_inside_map(alloc: Global, left: &RangeMapBlaze<i64, u64>, right: &mut RangeMap) -> bool
    ensures inside { IsTrue result ↔ AreInside nat_eq left.now.entries right.old.entries }
    ensures kept { right.new.entries ≡ right.old.entries }
    ensures same { right.new.at ≡ right.old.at }
{
    let empty = RangeMapBlaze::new(alloc);
    has_entries_of(map_or(right.as_ref(), &empty), left)
}

// Returns the symmetric difference of `left` and `right`. `right` is unchanged.
fn symmetric_difference_with(
    alloc: Global,
    left: &RangeMapBlaze<i64, u64>,
    right: &mut RangeMap,
) -> Result<RangeMapBlaze<i64, u64>, AllocError>
    ensures content { IfOk result (λ made. IsChosen nat_eq least_key greatest_key option_xor left.now.entries
        right.old.entries made.entries) }
    ensures kept { right.new.entries ≡ right.old.entries }
    ensures same { right.new.at ≡ right.old.at }
{
    let empty = RangeMapBlaze::new(alloc);
    left ^ map_or(right.as_ref(), &empty)
}
