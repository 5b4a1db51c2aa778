//! The first invalid item of a list.
ghost use Rattle.std.specs.Prelude.{◌≡◌, map, option_map, IfSome, IfNone};
ghost use Rattle.std.specs.Option.{option_copied};
ghost use Rattle.blaze_entries.specs.Entries.{Entry};
ghost use Rattle.blaze_entries.specs.Canonical.{IsRangeMap};
ghost use Rattle.blaze_streams.specs.Violations.{violates, IsFirstViolation};
ghost use Rattle.blaze_entries.specs.RangeSets.{shown_bare_range};
ghost use Rattle.blaze_streams.specs.RangeLists.{IsWithin};
ghost use Rattle.blaze_streams.specs.Ranges.{shown_range};

use crate::carrier::ValueCarrier;
use blaze_int::Integer;
use blaze_int::compare::{is_at_most, is_below, is_next};
use std::ops::RangeInclusive;

/// An item of a stream: a range, with or without a value. Only the start and the end of the range are read.
pub trait Ranged<T: Integer> {
    /// The type of the value, or `()` if the item has none.
    type Value: Eq;

    // The item as an entry.
    ghost entry: { Self → Entry Self.Value };

    /// Returns the first key of the range.
    fn start(&self) -> T
        ensures { T.rank result ≡ (entry self.now).lo };

    /// Returns the last key of the range.
    fn end(&self) -> T
        ensures { T.rank result ≡ (entry self.now).hi };

    /// Returns whether the values of two items are `==`.
    fn same_value(&self, other: &Self) -> bool
        ensures { result ≡ Self.Value.eq (entry self.now).value (entry other.now).value };
}

impl<T: Integer, VC: ValueCarrier> Ranged<T> for (RangeInclusive<T>, VC) {
    type Value = VC::Value;

    ghost entry = { shown_range T.rank VC.shown };

    fn start(&self) -> T {
        *self.0.start()
    }

    fn end(&self) -> T {
        *self.0.end()
    }

    fn same_value(&self, other: &Self) -> bool {
        self.1.value_eq(&other.1)
    }
}

impl<T: Integer> Ranged<T> for RangeInclusive<T> {
    type Value = ();

    ghost entry = { shown_bare_range T.rank };

    fn start(&self) -> T {
        *self.start()
    }

    fn end(&self) -> T {
        *self.end()
    }

    fn same_value(&self, _other: &Self) -> bool {
        true
    }
}

// Returns whether an item is invalid after the previous one.
fn is_violation<T: Integer, I: Ranged<T>>(before: Option<&I>, item: &I) -> bool
    ensures law { result ≡ violates I.Value.eq (option_map I.entry (option_copied before.entry))
        (I.entry item.now) }
    ensures keys { IsWithin T.low T.high (I.entry item.now) }
{
    let start = item.start();
    let end = item.end();
    start.in_hand();
    end.in_hand();
    if is_below(end, start) {
        return true;
    }
    match before {
        Some(before) => {
            let last = before.end();
            is_at_most(start, last) || is_next(last, start) && before.same_value(item)
        }
        None => false,
    }
}

/// Returns the position of the first item that violates the law of a stream. O(n) with n items.
pub fn first_violation<T: Integer, I: Ranged<T>>(items: &[I]) -> Option<usize>
    ensures none { IfNone result (IsRangeMap I.Value.eq T.low T.high (map I.entry items.now)) }
    ensures some { IfSome result (IsFirstViolation I.Value.eq (map I.entry items.now)) }
{
    let mut before = None;
    let mut rest = items;
    let mut place = 0;
    while let Some((item, others)) = rest.split_first() {
        if is_violation(before, item) {
            return Some(place);
        }
        before = Some(item);
        rest = others;
        place += 1;
    }
    None
}
