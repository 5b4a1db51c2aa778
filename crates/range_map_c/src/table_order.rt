//! The check that the rows of a table are in order.
ghost use Rattle.std.specs.Prelude.{◌≡◌, ◌↔◌, length, IsTrue};
ghost use Rattle.range_map_c.specs.Ordered.{AreOrdered};
ghost use Rattle.range_map_c.specs.Tables.{rows};

/// Returns whether no range of the table is empty and each range starts above the end of the one before it. The lookups in a table
/// require this: check a table once when you load it. Stops at the first fault. Does not allocate. O(n) for n rows.
///
/// Condition: the arrays are equally long.
#[unsafe(no_mangle)]
pub extern "C" fn range_table_is_ordered_unchecked(lo: &[i64], hi: &[i64], value: &[u64]) -> bool
    requires his { length hi.now ≡ length lo.now }
    requires values { length value.now ≡ length lo.now }
    ensures ordered { IsTrue result ↔ AreOrdered (rows lo.now hi.now value.now) }
{
    for i in 0..lo.len() {
        if hi[i] < lo[i] {
            return false;
        }
        if i > 0 && lo[i] <= hi[i - 1] {
            return false;
        }
    }
    true
}
