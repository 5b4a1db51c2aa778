//! Comparisons of two maps. None allocates.
ghost use Rattle.std.specs.Prelude.{◌≡◌, ◌↔◌, IsTrue, nat_eq};
ghost use Rattle.std.specs.Ordering.{nat_cmp};
ghost use Rattle.blaze_entries.specs.Entries.{SameContent};
ghost use Rattle.range_map_blaze.specs.Order.{pairs_cmp};
ghost use Rattle.range_map_c.specs.Told.{order_number};

use crate::handle::{RangeMap, map_or};
use range_map_blaze::RangeMapBlaze;
use std::alloc::Global;
use std::cmp::Ordering;

/// Returns whether two maps have the same content. O(n) for n entries, and O(1) if the numbers of entries differ.
#[unsafe(no_mangle)]
pub extern "C" fn range_map_equal_unchecked(
    alloc: Global,
    a: &mut RangeMap,
    b: &mut RangeMap,
) -> bool
    ensures content { IsTrue result ↔ SameContent nat_eq a.old.entries b.old.entries }
    ensures kept_a { a.new.entries ≡ a.old.entries }
    ensures kept_b { b.new.entries ≡ b.old.entries }
    ensures same_a { a.new.at ≡ a.old.at }
    ensures same_b { b.new.at ≡ b.old.at }
{
    let empty = RangeMapBlaze::new(alloc);
    is_equal_to(alloc, map_or(a.as_ref(), &empty), b)
}

/// Returns -1, 0 or 1 if a is less than, equal to or greater than b, as lists of (key, value) pairs. Pairs compare by key, then
/// by value, and a list is greater than each of its prefixes. O(n + m) for n and m entries.
#[unsafe(no_mangle)]
pub extern "C" fn range_map_compare_unchecked(
    alloc: Global,
    a: &mut RangeMap,
    b: &mut RangeMap,
) -> i32
    ensures order { result ≡ order_number (pairs_cmp nat_cmp a.old.entries b.old.entries) }
    ensures kept_a { a.new.entries ≡ a.old.entries }
    ensures kept_b { b.new.entries ≡ b.old.entries }
    ensures same_a { a.new.at ≡ a.old.at }
    ensures same_b { b.new.at ≡ b.old.at }
{
    let empty = RangeMapBlaze::new(alloc);
    match compared_with(alloc, map_or(a.as_ref(), &empty), b) {
        Ordering::Less => -1,
        Ordering::Equal => 0,
        Ordering::Greater => 1,
    }
}

// Returns whether `left` and `right` have the same content. `right` is unchanged.
fn is_equal_to(alloc: Global, left: &RangeMapBlaze<i64, u64>, right: &mut RangeMap) -> bool
    ensures content { IsTrue result ↔ SameContent nat_eq left.now.entries right.old.entries }
    ensures kept { right.new.entries ≡ right.old.entries }
    ensures same { right.new.at ≡ right.old.at }
{
    let empty = RangeMapBlaze::new(alloc);
    left.eq(map_or(right.as_ref(), &empty))
}

// Returns how `left` compares with `right`. `right` is unchanged.
fn compared_with(alloc: Global, left: &RangeMapBlaze<i64, u64>, right: &mut RangeMap) -> Ordering
    ensures order { result ≡ pairs_cmp nat_cmp left.now.entries right.old.entries }
    ensures kept { right.new.entries ≡ right.old.entries }
    ensures same { right.new.at ≡ right.old.at }
{
    let empty = RangeMapBlaze::new(alloc);
    left.cmp(map_or(right.as_ref(), &empty))
}
