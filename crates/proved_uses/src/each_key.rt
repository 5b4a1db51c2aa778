//! What a call leaves at every key: at those of a range, and at the others.
ghost use Rattle.std.specs.Prelude.{◌≡◌, ◌≤◌, ◌<◌, ◌+◌, ◌⊎◌, ℕ, pos, Some, None, IfOk, IfSome, OnOk, OnErr, IsSome};
ghost use Rattle.range_map_blaze.specs.Words.{at, range_inclusive_end, range_inclusive_start};

use crate::Map;
use std::alloc::AllocError;
use std::ops::RangeInclusive;

/// Sets the value of every key from `lo` to `hi`. Every other key keeps its value.
pub fn paint(map: &mut Map, lo: u64, hi: u64, value: u64) -> Result<bool, AllocError>
    ensures inside { OnOk result ((k : ℕ) → lo ≤ k → k ≤ hi
        → at map.new.entries (pos k) ≡ Some value) }
    ensures outside { OnOk result ((k : ℕ) → (k < lo) ⊎ (hi < k)
        → at map.new.entries (pos k) ≡ at map.old.entries (pos k)) }
    ensures err { OnErr result (map.new.entries ≡ map.old.entries) }
{
    map.ranges_insert(lo..=hi, value)
}

/// Paints a range, and then one key. The second paint wins.
pub fn paint_then_mark(
    map: &mut Map,
    lo: u64,
    hi: u64,
    value: u64,
    key: u64,
    mark: u64,
) -> Result<(), AllocError>
    ensures marked { OnOk result (at map.new.entries (pos key) ≡ Some mark) }
    ensures painted { OnOk result ((k : ℕ) → lo ≤ k → k ≤ hi → (k < key) ⊎ (key < k)
        → at map.new.entries (pos k) ≡ Some value) }
{
    let _ = paint(map, lo, hi, value)?;
    let _ = paint(map, key, key, mark)?;
    Ok(())
}

/// Removes every key from `lo` to `hi`. Every other key keeps its value.
pub fn cut(map: &mut Map, lo: u64, hi: u64) -> Result<(), AllocError>
    ensures inside { OnOk result ((k : ℕ) → lo ≤ k → k ≤ hi → at map.new.entries (pos k) ≡ None) }
    ensures outside { OnOk result ((k : ℕ) → (k < lo) ⊎ (hi < k)
        → at map.new.entries (pos k) ≡ at map.old.entries (pos k)) }
    ensures err { OnErr result (map.new.entries ≡ map.old.entries) }
{
    map.ranges_remove(lo..=hi)?;
    Ok(())
}

/// Moves every key from `lo` to `hi` to a new map, which has no other key.
pub fn take(map: &mut Map, lo: u64, hi: u64) -> Result<Map, AllocError>
    ensures taken { IfOk result (λ taken. (k : ℕ) → lo ≤ k → k ≤ hi
        → at taken.entries (pos k) ≡ at map.old.entries (pos k)) }
    ensures no_other { IfOk result (λ taken. (k : ℕ) → (k < lo) ⊎ (hi < k)
        → at taken.entries (pos k) ≡ None) }
    ensures inside { OnOk result ((k : ℕ) → lo ≤ k → k ≤ hi → at map.new.entries (pos k) ≡ None) }
    ensures outside { OnOk result ((k : ℕ) → (k < lo) ⊎ (hi < k)
        → at map.new.entries (pos k) ≡ at map.old.entries (pos k)) }
    ensures err { OnErr result (map.new.entries ≡ map.old.entries) }
{
    let taken = map.ranges_take(lo..=hi)?;
    Ok(taken)
}

/// Sets the value of every key from `lo` to `hi` that has none. Every other key keeps its value.
pub fn fill(map: &mut Map, lo: u64, hi: u64, value: u64) -> Result<bool, AllocError>
    ensures filled { OnOk result ((k : ℕ) → lo ≤ k → k ≤ hi
        → at map.old.entries (pos k) ≡ None → at map.new.entries (pos k) ≡ Some value) }
    ensures kept { OnOk result ((k : ℕ) → IsSome (at map.old.entries (pos k))
        → at map.new.entries (pos k) ≡ at map.old.entries (pos k)) }
    ensures outside { OnOk result ((k : ℕ) → (k < lo) ⊎ (hi < k)
        → at map.new.entries (pos k) ≡ at map.old.entries (pos k)) }
    ensures err { OnErr result (map.new.entries ≡ map.old.entries) }
{
    let grew = map.ranges_insert_absent(lo..=hi, value)?;
    Ok(grew)
}

/// Returns the entry that contains `key`, or `None` if the key has no value. Every key of the entry has its value, and the key above
/// it has not.
pub fn entry_of(map: &Map, key: u64) -> Option<(RangeInclusive<u64>, &u64)>
    ensures holds { IfSome result (λ p. (range_inclusive_start p.0 ≤ key)
        × (key ≤ range_inclusive_end p.0)) }
    ensures run { IfSome result (λ p. (k : ℕ) → range_inclusive_start p.0 ≤ k
        → k ≤ range_inclusive_end p.0 → at map.now.entries (pos k) ≡ Some p.1.now) }
    ensures ends { IfSome result (λ p. at map.now.entries (pos (range_inclusive_end p.0 + 1))
        ≡ Some p.1.now → ⊥) }
    ensures none { result ≡ None → at map.now.entries (pos key) ≡ None }
{
    map.range_at(key)
}

/// Returns the last key of the longest run of keys without a value that starts at `key`, or `None` if `key` has a value.
pub fn gap_from(map: &Map, key: u64) -> Option<u64>
    ensures order { IfSome result (λ end. key ≤ end) }
    ensures free { IfSome result (λ end. (k : ℕ) → key ≤ k → k ≤ end
        → at map.now.entries (pos k) ≡ None) }
    ensures longest { IfSome result (λ end. end < u64.MAX
        → IsSome (at map.now.entries (pos (end + 1)))) }
    ensures none { result ≡ None → IsSome (at map.now.entries (pos key)) }
{
    match map.range_or_gap_at(key) {
        (gap, None) => Some(*gap.end()),
        (_, Some(_)) => None,
    }
}
