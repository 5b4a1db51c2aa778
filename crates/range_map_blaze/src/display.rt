//! The text that a map prints.
ghost use Rattle.range_map_blaze.specs.Printed.{map_text};

use crate::map::RangeMapBlaze;
use blaze_int::Integer;
use std::fmt;
use std::fmt::Debug;

/// Writes `(start..=end, value)` for each entry, keys and values in debug form, separated by a comma and a space. The empty map
/// writes nothing. O(n) for n entries.
impl<T: Integer, V: Eq + Debug> fmt::Display for RangeMapBlaze<T, V> {
    ghost output = { λ m. map_text T.debug_output T.of_rank V.debug_output m.entries };

    fn fmt<W: fmt::Write>(&self, f: &mut fmt::Formatter<W>) -> fmt::Result {
        let mut lead = "";
        for (range, value) in self.range_values() {
            let (start, end) = range.into_inner();
            start.in_hand();
            end.in_hand();
            write!(f, "{lead}({start:?}..={end:?}, {value:?})")?;
            lead = ", ";
        }
        Ok(())
    }
}

/// Writes the text of `Display`. O(n) for n entries.
impl<T: Integer, V: Eq + Debug> Debug for RangeMapBlaze<T, V> {
    ghost debug_output = { λ m. map_text T.debug_output T.of_rank V.debug_output m.entries };

    fn fmt<W: fmt::Write>(&self, f: &mut fmt::Formatter<W>) -> fmt::Result {
        fmt::Display::fmt(self, f)
    }
}
