//! Numbers in the text of lines, and lengths of ranges.
ghost use Rattle.std.specs.Prelude.{◌≡◌, IfSome};
ghost use Rattle.std.specs.Str.Parse.{digits_value, without_leading_plus};

use blaze_int::{Integer, SafeLength, bounds_of};
use std::ops::RangeInclusive;

/// Parses a decimal number without a sign.
pub fn decimal(digits: &str) -> Option<u64>
    ensures { IfSome result (λ number. digits_value 10 (without_leading_plus digits.now) ≡ number) }
{
    if digits.starts_with('+') {
        None
    } else {
        digits.parse::<u64>().ok()
    }
}

/// Parses a hexadecimal number without a sign.
pub fn hexadecimal(digits: &str) -> Option<u64>
    ensures { IfSome result (λ number. digits_value 16 (without_leading_plus digits.now) ≡ number) }
{
    if digits.starts_with('+') {
        None
    } else {
        u64::from_str_radix(digits, 16).ok()
    }
}

/// Returns the number of keys of a range.
pub fn length<T: Integer>(range: &RangeInclusive<T>) -> T::SafeLen {
    match bounds_of(range) {
        Some((first, last)) => T::safe_len(&(first..=last)),
        None => T::SafeLen::zero(),
    }
}
