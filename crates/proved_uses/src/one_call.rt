//! What one call leaves at one key.
ghost use Rattle.std.specs.Prelude.{◌≡◌, ◌≤◌, Some, IfOk};

use crate::Map;
use std::alloc::AllocError;

/// Sets the value of every key from `lo` to `hi`. Returns what `get` then returns at one of them: this value.
pub fn paint_then_get(
    map: &mut Map,
    lo: u64,
    hi: u64,
    key: u64,
    value: u64,
) -> Result<Option<u64>, AllocError>
    requires from { lo ≤ key }
    requires to { key ≤ hi }
    ensures { IfOk result (λ found. found ≡ Some value) }
{
    let _ = map.ranges_insert(lo..=hi, value)?;
    Ok(map.get(key).copied())
}
