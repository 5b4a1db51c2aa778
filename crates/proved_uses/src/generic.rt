//! Code over any key type and any values. Clauses name keys by their ranks, and compare values by the type's own `==`. What paints asks
//! that a clone equals its source.
ghost use Rattle.std.specs.Prelude.{◌≡◌, ◌≤ℤ◌, ◌<ℤ◌, ◌⊎◌, ℤ, false, Some, None, Ok, IfOk, OnOk, OnErr, IsTrue, IsSome};
ghost use Rattle.range_map_blaze.specs.Words.{at, ClonesAreAlike, SameOption};

use range_map_blaze::{Integer, RangeMapBlaze};
use std::alloc::AllocError;

/// Sets the value of every key from `lo` to `hi`. Every other key keeps its value.
pub fn paint_any<T: Integer + Drop, V: Clone + Eq + Drop>(
    map: &mut RangeMapBlaze<T, V>,
    lo: T,
    hi: T,
    value: V,
) -> Result<bool, AllocError>
    requires { ClonesAreAlike V.is_clone V.eq }
    ensures inside { OnOk result ((k : ℤ) → T.rank lo ≤ℤ k → k ≤ℤ T.rank hi
        → SameOption V.eq (at map.new.entries k) (Some value)) }
    ensures outside { OnOk result ((k : ℤ) → (k <ℤ T.rank lo) ⊎ (T.rank hi <ℤ k)
        → SameOption V.eq (at map.new.entries k) (at map.old.entries k)) }
    ensures err { OnErr result (map.new.entries ≡ map.old.entries) }
{
    map.ranges_insert(lo..=hi, value)
}

/// Returns whether no key from `lo` to `hi` has a value.
pub fn is_free_any<T: Integer + Drop, V: Eq + Drop>(map: &RangeMapBlaze<T, V>, lo: T, hi: T) -> bool
    ensures { IsTrue result → (k : ℤ) → T.rank lo ≤ℤ k → k ≤ℤ T.rank hi
        → at map.now.entries k ≡ None }
{
    map.overlapping(lo..=hi).next().is_none()
}

/// Books the keys from `lo` to `hi` for a guest, if no key of them is booked. Returns whether it did. No booking is changed.
pub fn book_any<T: Integer + Drop, V: Clone + Eq + Drop>(
    map: &mut RangeMapBlaze<T, V>,
    lo: T,
    hi: T,
    guest: V,
) -> Result<bool, AllocError>
    requires { ClonesAreAlike V.is_clone V.eq }
    ensures booked { IfOk result (λ done. IsTrue done → (k : ℤ) → T.rank lo ≤ℤ k → k ≤ℤ T.rank hi
        → SameOption V.eq (at map.new.entries k) (Some guest)) }
    ensures kept { OnOk result ((k : ℤ) → IsSome (at map.old.entries k)
        → SameOption V.eq (at map.new.entries k) (at map.old.entries k)) }
    ensures refused { result ≡ Ok false → map.new ≡ map.old }
    ensures err { OnErr result (map.new.entries ≡ map.old.entries) }
{
    if !is_free_any(map, lo, hi) {
        return Ok(false);
    }
    paint_any(map, lo, hi, guest)?;
    Ok(true)
}

/// Returns the union of two maps. Where both have a value, it has one that equals that of `newer`.
pub fn merge_any<T: Integer + Drop, V: Clone + Eq + Drop>(
    older: &RangeMapBlaze<T, V>,
    newer: &RangeMapBlaze<T, V>,
) -> Result<RangeMapBlaze<T, V>, AllocError>
    requires { ClonesAreAlike V.is_clone V.eq }
    ensures newer { IfOk result (λ new. (k : ℤ) → IsSome (at newer.now.entries k)
        → SameOption V.eq (at new.entries k) (at newer.now.entries k)) }
    ensures older { IfOk result (λ new. (k : ℤ) → at newer.now.entries k ≡ None
        → SameOption V.eq (at new.entries k) (at older.now.entries k)) }
{
    older | newer
}
