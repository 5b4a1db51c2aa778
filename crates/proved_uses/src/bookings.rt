//! Bookings: a range of keys gets a guest only if no key of it has one. Six calls of the map find out whether it is free.
ghost use Rattle.std.specs.Prelude.{◌≡◌, ◌≤◌, ◌<◌, ◌⊎◌, ℕ, pos, false, Some, None, Ok, IfOk, OnErr, IsTrue, IsSome};
ghost use Rattle.range_map_blaze.specs.Words.{at};

use crate::Map;
use crate::each_key::paint;
use std::alloc::AllocError;

/// Books the keys from `lo` to `hi` for a guest, if no key of them is booked. Returns whether it did. The test is the entry or gap at
/// `lo`.
pub fn book(map: &mut Map, lo: u64, hi: u64, guest: u64) -> Result<bool, AllocError>
    ensures free { IfOk result (λ done. IsTrue done → (k : ℕ) → lo ≤ k → k ≤ hi
        → at map.old.entries (pos k) ≡ None) }
    ensures booked { IfOk result (λ done. IsTrue done → (k : ℕ) → lo ≤ k → k ≤ hi
        → at map.new.entries (pos k) ≡ Some guest) }
    ensures kept { (k : ℕ) → IsSome (at map.old.entries (pos k))
        → at map.new.entries (pos k) ≡ at map.old.entries (pos k) }
    ensures others { (k : ℕ) → (k < lo) ⊎ (hi < k)
        → at map.new.entries (pos k) ≡ at map.old.entries (pos k) }
    ensures refused { result ≡ Ok false → map.new ≡ map.old }
    ensures taken { result ≡ Ok false → lo ≤ hi
        → ((k : ℕ) → lo ≤ k → k ≤ hi → at map.old.entries (pos k) ≡ None) → ⊥ }
    ensures err { OnErr result (map.new.entries ≡ map.old.entries) }
{
    if lo <= hi && !is_free(map, lo, hi) {
        return Ok(false);
    }
    let _ = map.ranges_insert(lo..=hi, guest)?;
    Ok(true)
}

/// Returns whether no key from `lo` to `hi` has a value. The range must have a key.
pub fn is_free(map: &Map, lo: u64, hi: u64) -> bool
    requires { lo ≤ hi }
    ensures free { IsTrue result → (k : ℕ) → lo ≤ k → k ≤ hi → at map.now.entries (pos k) ≡ None }
    ensures taken { result ≡ false
        → ((k : ℕ) → lo ≤ k → k ≤ hi → at map.now.entries (pos k) ≡ None) → ⊥ }
{
    let (range, value) = map.range_or_gap_at(lo);
    value.is_none() && hi <= *range.end()
}

/// Books the keys from `lo` to `hi` for a guest, if they are one gap. No booking is changed.
pub fn book_by_gaps(map: &mut Map, lo: u64, hi: u64, guest: u64) -> Result<bool, AllocError>
    ensures booked { IfOk result (λ done. IsTrue done → (k : ℕ) → lo ≤ k → k ≤ hi
        → at map.new.entries (pos k) ≡ Some guest) }
    ensures kept { (k : ℕ) → IsSome (at map.old.entries (pos k))
        → at map.new.entries (pos k) ≡ at map.old.entries (pos k) }
    ensures refused { result ≡ Ok false → map.new ≡ map.old }
{
    if !is_one_gap(map, lo, hi) {
        return Ok(false);
    }
    let _ = map.ranges_insert(lo..=hi, guest)?;
    Ok(true)
}

/// Returns whether the first gap of the keys from `lo` to `hi` is all of them.
pub fn is_one_gap(map: &Map, lo: u64, hi: u64) -> bool
    ensures { IsTrue result → (k : ℕ) → lo ≤ k → k ≤ hi → at map.now.entries (pos k) ≡ None }
{
    match map.gaps(lo..=hi).next() {
        Some(gap) => *gap.start() == lo && *gap.end() == hi,
        None => false,
    }
}

/// Books the keys from `lo` to `hi` for a guest, if no entry shares a key with them. No booking is changed.
pub fn book_by_overlapping(map: &mut Map, lo: u64, hi: u64, guest: u64) -> Result<bool, AllocError>
    ensures booked { IfOk result (λ done. IsTrue done → (k : ℕ) → lo ≤ k → k ≤ hi
        → at map.new.entries (pos k) ≡ Some guest) }
    ensures kept { (k : ℕ) → IsSome (at map.old.entries (pos k))
        → at map.new.entries (pos k) ≡ at map.old.entries (pos k) }
    ensures refused { result ≡ Ok false → map.new ≡ map.old }
{
    if map.overlapping(lo..=hi).next().is_some() {
        return Ok(false);
    }
    let _ = map.ranges_insert(lo..=hi, guest)?;
    Ok(true)
}

/// Books the keys from `lo` to `hi` for a guest, if 0 of them have a value. No booking is changed.
pub fn book_by_count(map: &mut Map, lo: u64, hi: u64, guest: u64) -> Result<bool, AllocError>
    ensures booked { IfOk result (λ done. IsTrue done → (k : ℕ) → lo ≤ k → k ≤ hi
        → at map.new.entries (pos k) ≡ Some guest) }
    ensures kept { (k : ℕ) → IsSome (at map.old.entries (pos k))
        → at map.new.entries (pos k) ≡ at map.old.entries (pos k) }
    ensures refused { result ≡ Ok false → map.new ≡ map.old }
{
    if has_key_within(map, lo, hi) {
        return Ok(false);
    }
    let _ = map.ranges_insert(lo..=hi, guest)?;
    Ok(true)
}

/// Returns whether a key from `lo` to `hi` has a value, by how many have one.
pub fn has_key_within(map: &Map, lo: u64, hi: u64) -> bool
    ensures { result ≡ false → (k : ℕ) → lo ≤ k → k ≤ hi → at map.now.entries (pos k) ≡ None }
{
    map.len_within(lo..=hi) != 0
}

/// Books the keys from `lo` to `hi` for a guest, if the first entry at `lo` or above it starts above `hi`. No booking is changed.
pub fn book_by_next(map: &mut Map, lo: u64, hi: u64, guest: u64) -> Result<bool, AllocError>
    ensures booked { IfOk result (λ done. IsTrue done → (k : ℕ) → lo ≤ k → k ≤ hi
        → at map.new.entries (pos k) ≡ Some guest) }
    ensures kept { (k : ℕ) → IsSome (at map.old.entries (pos k))
        → at map.new.entries (pos k) ≡ at map.old.entries (pos k) }
    ensures refused { result ≡ Ok false → map.new ≡ map.old }
{
    if let Some((range, _)) = map.range_at_or_above(lo) {
        if *range.start() <= hi {
            return Ok(false);
        }
    }
    let _ = paint(map, lo, hi, guest)?;
    Ok(true)
}

/// Adds the bookings of another map, if the two maps share no key. No booking is changed.
pub fn book_all(map: &mut Map, wanted: &Map) -> Result<bool, AllocError>
    ensures booked { IfOk result (λ done. IsTrue done → (k : ℕ)
        → IsSome (at wanted.now.entries (pos k))
        → at map.new.entries (pos k) ≡ at wanted.now.entries (pos k)) }
    ensures kept { IfOk result (λ done. (k : ℕ) → IsSome (at map.old.entries (pos k))
        → at map.new.entries (pos k) ≡ at map.old.entries (pos k)) }
    ensures refused { result ≡ Ok false → map.new ≡ map.old }
{
    if !map.is_disjoint(wanted) {
        return Ok(false);
    }
    map.extend_absent(wanted)?;
    Ok(true)
}
