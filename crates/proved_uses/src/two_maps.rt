//! Two maps: what their operators return at every key, and whether they are the same.
ghost use Rattle.std.specs.Prelude.{◌≡◌, ◌↔◌, ℕ, ℤ, pos, Some, None, IfOk, IsTrue, IsSome};
ghost use Rattle.range_map_blaze.specs.Words.{at, last_at, shown_list};

use crate::Map;
use crate::loops::paint_rules;
use range_map_blaze::RangeMapBlaze;
use std::alloc::{AllocError, Global};

/// Returns the union of two maps. Where both have a value, it has that of `newer`.
pub fn merge(older: &Map, newer: &Map) -> Result<Map, AllocError>
    ensures newer { IfOk result (λ new. (k : ℕ) → IsSome (at newer.now.entries (pos k))
        → at new.entries (pos k) ≡ at newer.now.entries (pos k)) }
    ensures older { IfOk result (λ new. (k : ℕ) → at newer.now.entries (pos k) ≡ None
        → at new.entries (pos k) ≡ at older.now.entries (pos k)) }
{
    older | newer
}

/// Returns the keys of `map` that have a value in `keys` too, with their values in `map`.
pub fn common(keys: &Map, map: &Map) -> Result<Map, AllocError>
    ensures in_both { IfOk result (λ new. (k : ℕ) → IsSome (at keys.now.entries (pos k))
        → at new.entries (pos k) ≡ at map.now.entries (pos k)) }
    ensures no_other { IfOk result (λ new. (k : ℕ) → at keys.now.entries (pos k) ≡ None
        → at new.entries (pos k) ≡ None) }
{
    keys & map
}

/// Returns the keys of `map` that have no value in `keys`, with their values.
pub fn without(map: &Map, keys: &Map) -> Result<Map, AllocError>
    ensures kept { IfOk result (λ new. (k : ℕ) → at keys.now.entries (pos k) ≡ None
        → at new.entries (pos k) ≡ at map.now.entries (pos k)) }
    ensures no_other { IfOk result (λ new. (k : ℕ) → IsSome (at keys.now.entries (pos k))
        → at new.entries (pos k) ≡ None) }
{
    map - keys
}

/// Returns whether two maps have the same value at every key.
pub fn is_same(a: &Map, b: &Map) -> bool
    ensures { IsTrue result ↔ ((k : ℤ) → at a.now.entries k ≡ at b.now.entries k) }
{
    *a == *b
}

/// Returns whether two lists of rules, painted in order, give every key the same value. A rule is a first key, a last key and a value.
pub fn same_rules(
    alloc: Global,
    a: &[(u64, u64, u64)],
    b: &[(u64, u64, u64)],
) -> Result<bool, AllocError>
    ensures { IfOk result (λ same. IsTrue same
        ↔ ((k : ℤ) → last_at (shown_list (λ n. pos n) a.now) k
        ≡ last_at (shown_list (λ n. pos n) b.now) k)) }
{
    let mut one: Map = RangeMapBlaze::new(alloc);
    let mut two: Map = RangeMapBlaze::new(alloc);
    paint_rules(&mut one, a)?;
    paint_rules(&mut two, b)?;
    Ok(is_same(&one, &two))
}
