//! Loops over a map and over a list of rules.
ghost use Rattle.std.specs.Prelude.{◌≡◌, ◌<◌, ◌+◌, ℕ, ℤ, pos, nat_eq, Some, None, OnOk};
ghost use Rattle.range_map_blaze.specs.Words.{ArePaintedInTurn, at, entry, IsPairPainted, keys_in, last_at, shown_list};

use crate::Map;
use range_map_blaze::RangeMapBlaze;
use range_map_blaze::laws::painting_in_turn_extends;
use std::alloc::AllocError;

/// Returns the sum of the lengths of the ranges of a map: the number of its keys.
pub fn sum_of_lengths(map: &RangeMapBlaze<u32, u64>) -> u64
    ensures { pos result ≡ keys_in map.now.entries }
{
    map.in_hand();
    let total = map.len();
    let mut sum: u64 = 0;
    for (range, _) in map.range_values() {
        let (start, end) = range.into_inner();
        sum += u64::from(end - start) + 1;
    }
    sum
}

// Paints one rule.
fn paint_rule(map: &mut Map, lo: u64, hi: u64, value: u64) -> Result<bool, AllocError>
    ensures { OnOk result (IsPairPainted nat_eq (pos 0) (pos u64.MAX) (entry (pos lo) (pos hi) value)
        map.old.entries map.new.entries) }
{
    map.ranges_insert(lo..=hi, value)
}

// Paints rules one by one.
fn paint_in_turn(map: &mut Map, rules: &[(u64, u64, u64)]) -> Result<(), AllocError>
    ensures { OnOk result (ArePaintedInTurn nat_eq (pos 0) (pos u64.MAX) (shown_list (λ n. pos n) rules.now)
        map.old.entries map.new.entries) }
{
    for (lo, hi, value) in rules {
        let _ = paint_rule(map, *lo, *hi, *value)?;
    }
    Ok(())
}

/// Paints a list of rules in order. A key then has the value of the last rule that has it, or else its old value.
pub fn paint_rules(map: &mut Map, rules: &[(u64, u64, u64)]) -> Result<(), AllocError>
    ensures ruled { OnOk result ((k : ℤ) (v : ℕ) → last_at (shown_list (λ n. pos n) rules.now) k ≡ Some v
        → at map.new.entries k ≡ Some v) }
    ensures others { OnOk result ((k : ℤ) → last_at (shown_list (λ n. pos n) rules.now) k ≡ None
        → at map.new.entries k ≡ at map.old.entries k) }
{
    painting_in_turn_extends::<u64, u64>();
    map.in_hand();
    paint_in_turn(map, rules)?;
    Ok(())
}
