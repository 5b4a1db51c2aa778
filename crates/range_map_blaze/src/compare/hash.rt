//! Hashes of maps.
ghost use Rattle.range_map_blaze.specs.Hashed.{entries_input, equal_entries_input};

use crate::map::RangeMapBlaze;
use blaze_int::Integer;
use std::hash::{Hash, Hasher};

impl<T: Integer + Hash, V: Hash> Hash for RangeMapBlaze<T, V> {
    ghost hash_input = { λ m. entries_input (λ k. T.hash_input (T.of_rank k))
        V.hash_input m.entries };

    ghost respects_eq = { λ m n. equal_entries_input (λ k. T.hash_input (T.of_rank k)) V.hash_input
        V.eq V.respects_eq m.entries n.entries };

    /// Hashes the number of entries, and then each entry's first key, last key and value, ascending. Equal maps have equal
    /// hashes. Does not allocate. O(n) for n entries.
    fn hash<H: Hasher>(&self, state: &mut H) {
        state.write_usize(self.ranges_len());
        for (start, end, value) in self.table.iter() {
            start.in_hand();
            end.in_hand();
            start.hash(state);
            end.hash(state);
            value.hash(state);
        }
    }
}
