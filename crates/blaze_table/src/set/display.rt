//! The text of a printed set.
ghost use Rattle.blaze_table.specs.Printed.{set_text};

use crate::set::range_set::RangeSetBlaze;
use blaze_int::Integer;
use std::fmt::{self, Debug};

/// Prints the ranges as `start..=end`, separated by `, `, with the keys in debug form. The empty set prints nothing.
impl<T: Integer> fmt::Display for RangeSetBlaze<T> {
    ghost output = { λ s. set_text T.debug_output T.of_rank s };

    fn fmt<W: fmt::Write>(&self, f: &mut fmt::Formatter<W>) -> fmt::Result {
        let mut lead = "";
        for range in self.ranges() {
            let (start, end) = range.into_inner();
            start.in_hand();
            end.in_hand();
            write!(f, "{lead}{start:?}..={end:?}")?;
            lead = ", ";
        }
        Ok(())
    }
}

/// Prints the ranges as `start..=end`, separated by `, `, as `Display` does.
impl<T: Integer> Debug for RangeSetBlaze<T> {
    ghost debug_output = { λ s. set_text T.debug_output T.of_rank s };

    fn fmt<W: fmt::Write>(&self, f: &mut fmt::Formatter<W>) -> fmt::Result {
        fmt::Display::fmt(self, f)
    }
}
