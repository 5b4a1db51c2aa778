//! Lists to which pieces are appended.
ghost use Rattle.std.specs.Prelude.{List, Some, OnOk};
ghost use Rattle.blaze_entries.specs.Entries.{Entry, shown_list};
ghost use Rattle.blaze_streams.specs.Choosing.{PutsAlike};
ghost use Rattle.blaze_streams.specs.RangeLists.{shown_ranges};

use crate::carrier::{HasValue, ValueCarrier};
use crate::merge::push::{push_joined, push_value};
use blaze_int::Integer;
use std::alloc::AllocError;
use std::ops::RangeInclusive;

/// A list of ranges with their values or carriers.
pub trait PieceList<T: Integer, VC: ValueCarrier> {
    // The ranges with their values.
    ghost entries: { Self → List (Entry VC.Value) };

    /// Appends the keys from `start` to `end` with a value that is `==` to the carrier's. The last range is extended
    /// instead if the two touch and have equal values. If an allocation fails, the list is unspecified and the caller
    /// must drop it.
    fn push_piece(&mut self, start: T, end: T, carrier: VC) -> Result<(), AllocError>
        requires { VC.can_carry }
        ensures { OnOk result (PutsAlike VC.Value.eq (T.rank start) (T.rank end)
            (Some (VC.shown carrier)) (entries self.old) (entries self.new)) };
}

/// A list of carriers stores the given carrier.
impl<T: Integer, VC: ValueCarrier> PieceList<T, VC> for Vec<(RangeInclusive<T>, VC)> {
    ghost entries = { λ list. shown_ranges T.rank VC.shown list.items };

    fn push_piece(&mut self, start: T, end: T, carrier: VC) -> Result<(), AllocError> {
        push_joined(self, start, end, carrier)?;
        Ok(())
    }
}

/// A list of (first key, last key, value) stores the carrier's value, except where the last entry is extended.
impl<T: Integer, V: Eq + Clone, VC: HasValue<Value = V>> PieceList<T, VC> for Vec<(T, T, V)> {
    ghost entries = { λ list. shown_list T.rank list.items };

    fn push_piece(&mut self, start: T, end: T, carrier: VC) -> Result<(), AllocError> {
        push_value(self, start, end, carrier)
    }
}
