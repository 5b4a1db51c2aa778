//! Binary search for the row of a key in a table, and reading a row.
ghost use Rattle.std.specs.Prelude.{◌≡◌, ◌≤ℤ◌, length, slice_get, IsTrue, IsFalse};
ghost use Rattle.range_map_c.specs.Handle.{least_key, greatest_key};
ghost use Rattle.range_map_c.specs.Ordered.{AreApart, IsRank, IsRankBelow, IsSorted};
ghost use Rattle.range_map_c.specs.Tables.{rows};
ghost use Rattle.range_map_c.specs.Told.{told_entry};

/// Returns how many first keys are at most `key`. O(log n) for n rows.
pub fn rank(lo: &[i64], key: i64) -> usize
    requires { IsSorted lo.now }
    ensures { IsRank lo.now key result }
{
    let mut low = 0;
    let mut high = lo.len();
    while low < high {
        let mid = low + (high - low) / 2;
        if lo[mid] <= key {
            low = mid + 1;
        } else {
            high = mid;
        }
    }
    low
}

/// Returns the first row that ends at `key` or above, or the number of rows if there is none. O(log n) for n rows.
pub fn first_ending_from(lo: &[i64], hi: &[i64], key: i64) -> usize
    requires { AreApart lo.now hi.now }
    ensures { IsRankBelow hi.now key result }
{
    let n = rank(lo, key);
    if n > 0 && key <= hi[n - 1] {
        return n - 1;
    }
    n
}

/// Returns whether there is a row `row`, and writes its first key, its last key and its value. O(1).
pub fn read_row(
    lo: &[i64],
    hi: &[i64],
    value: &[u64],
    row: usize,
    start: &mut i64,
    end: &mut i64,
    found: &mut u64,
) -> bool
    requires his { length hi.now ≡ length lo.now }
    requires values { length value.now ≡ length lo.now }
    ensures row { told_entry result start.new end.new found.new
        ≡ slice_get (rows lo.now hi.now value.now) row }
    ensures unwritten { IsFalse result
        → (start.new ≡ start.old) × (end.new ≡ end.old) × (found.new ≡ found.old) }
    ensures keys { IsTrue result → (start.new ≤ℤ greatest_key) × (least_key ≤ℤ end.new) }
{
    if row >= lo.len() {
        return false;
    }
    *start = lo[row];
    *end = hi[row];
    *found = value[row];
    true
}
