//! Counts: each key has the number of bookings that have it.
ghost use Rattle.std.specs.Prelude.{◌≡◌, ◌≤◌, ◌<◌, ◌⊎◌, ◌+◌, ℕ, pos, Some, None, Ok, OnOk};
ghost use Rattle.range_map_blaze.specs.Words.{at, shown_option};

use crate::Map;
use std::alloc::AllocError;

/// Counts a booking: each key from `lo` to `hi` has one more. A count stays at `u64::MAX`.
pub fn count_booking(map: &mut Map, lo: u64, hi: u64) -> Result<(), AllocError>
    ensures first { OnOk result ((k : ℕ) → lo ≤ k → k ≤ hi → at map.old.entries (pos k) ≡ None
        → at map.new.entries (pos k) ≡ Some 1) }
    ensures more { OnOk result ((k n : ℕ) → lo ≤ k → k ≤ hi → at map.old.entries (pos k) ≡ Some n
        → n < u64.MAX → at map.new.entries (pos k) ≡ Some (n + 1)) }
    ensures outside { OnOk result ((k : ℕ) → (k < lo) ⊎ (hi < k)
        → at map.new.entries (pos k) ≡ at map.old.entries (pos k)) }
{
    map.ranges_update(lo..=hi, |count| Ok(Some(one_more(count))))?;
    Ok(())
}

// Returns the count with one more.
fn one_more(count: Option<&u64>) -> u64
    ensures first { shown_option (λ v. v.now) count.entry ≡ None → result ≡ 1 }
    ensures more { (n : ℕ) → shown_option (λ v. v.now) count.entry ≡ Some n → n < u64.MAX
        → result ≡ n + 1 }
{
    match count {
        Some(count) => count.saturating_add(1),
        None => 1,
    }
}
