//! Lengths of ranges of numbers of up to 64 bits, computed in `i128`.
ghost use Rattle.std.specs.Prelude.{◌≡◌, ◌≤ℤ◌, ◌-ℤ◌, ◌+ℤ◌, ◌-◌, ◌^◌, pos, negsuc, FitsSigned};
ghost use Rattle.std.specs.Int.{w128};

use num_traits::{Integral, NumCast, ToPrimitive, cast};

/// Returns the number of keys from `start` to `end`, both included. It requires a non-empty range.
pub fn range_length<K: ToPrimitive + Integral, L: NumCast + Integral>(start: K, end: K) -> L
    requires in_order { K.value start ≤ℤ K.value end }
    requires from { negsuc (2 ^ 63 - 1) ≤ℤ K.value start }
    requires to { K.value end ≤ℤ pos (2 ^ 64 - 1) }
    requires fits { L.fits ((K.value end -ℤ K.value start) +ℤ pos 1) }
    ensures { L.value result ≡ (K.value end -ℤ K.value start) +ℤ pos 1 }
{
    narrow(widen(end) - widen(start) + 1)
}

/// Converts a number to `i128`.
fn widen<K: ToPrimitive + Integral>(number: K) -> i128
    requires { FitsSigned w128 (K.value number) }
    ensures { result ≡ K.value number }
{
    cast(number).unwrap()
}

/// Converts an `i128` to a number of another type, which can represent it.
fn narrow<L: NumCast + Integral>(number: i128) -> L
    requires { L.fits number }
    ensures { L.value result ≡ number }
{
    cast(number).unwrap()
}
