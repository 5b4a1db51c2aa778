//! Prefixes of addresses, such as `10.0.0.0/8`, and their ranges of keys.
ghost use Rattle.std.specs.Prelude.{◌≡◌, ℕ, ◌-◌, ◌^◌, ◌<◌, ◌≤◌, ◌↔◌, pos, ◌+ℤ◌, ◌≤ℤ◌, IsSome, IfSome, MatchOption};
ghost use Rattle.std.specs.Range.{range_inclusive_start, range_inclusive_end};
ghost use Rattle.blaze_int.specs.Unsigned.{nat_of};
ghost use Rattle.demo_keys.specs.Blocks.{BeginsBlock, IsGreatestWithin};

use crate::blocks::{begins_block, greatest_block, last_of_block};
use crate::ipv4::Ipv4;
use crate::ipv6::Ipv6;
use blaze_int::Integer;
use blaze_int::compare::is_below;
use std::ops::RangeInclusive;

/// An address: a key that is the number formed by its bits.
pub trait Address: Integer {
    // The number of bits of an address.
    ghost width: { ℕ };

    /// Returns the number of bits of an address, at most 128.
    fn width() -> u32
        ensures value { result ≡ width }
        ensures bound { result ≤ 128 };

    /// Returns the number that the bits of the address form.
    fn number(self) -> u128
        ensures value { pos result ≡ Self.rank self }
        ensures bound { result < 2 ^ width };

    /// Returns the address whose bits form `number`.
    fn at(number: u128) -> Self
        requires { number < 2 ^ width }
        ensures { Self.rank result ≡ pos number };
}

impl Address for Ipv4 {
    ghost width = { 32 };

    fn width() -> u32 {
        32
    }

    fn number(self) -> u128 {
        u128::from(self.0)
    }

    fn at(number: u128) -> Ipv4 {
        Ipv4(number as u32)
    }
}

impl Address for Ipv6 {
    ghost width = { 128 };

    fn width() -> u32 {
        128
    }

    fn number(self) -> u128 {
        self.0
    }

    fn at(number: u128) -> Ipv6 {
        Ipv6(number)
    }
}

/// Returns the addresses of the prefix `start/bits`, which share their first `bits` bits with `start`. It returns
/// `None` if an address has fewer than `bits` bits, or if `start` has a 1 among its other bits. O(1).
pub fn prefix_range<A: Address>(start: A, bits: u32) -> Option<RangeInclusive<A>>
    ensures accepted { IsSome result
        ↔ ((bits ≤ A.width) × BeginsBlock (nat_of (A.rank start)) (A.width - bits)) }
    ensures first { IfSome result (λ r. range_inclusive_start r ≡ start) }
    ensures last { IfSome result (λ r. A.rank (range_inclusive_end r) +ℤ pos 1
        ≡ A.rank start +ℤ pos (2 ^ (A.width - bits))) }
{
    if A::width() < bits {
        return None;
    }
    let (number, free) = (start.number(), A::width() - bits);
    if begins_block(number, free) {
        Some(start..=A::at(last_of_block(number, free)))
    } else {
        None
    }
}

/// Returns the number of bits of the shortest prefix that begins at `first` and ends at `last` or before. It is the
/// prefix with the most addresses. The loop runs at most 128 times.
pub fn shortest_prefix<A: Address>(first: A, last: A) -> u32
    requires { A.rank first ≤ℤ A.rank last }
    ensures bits { result ≤ A.width }
    ensures greatest { IsGreatestWithin (nat_of (A.rank first)) (nat_of (A.rank last)) (A.width - result) }
{
    A::width() - greatest_block(first.number(), last.number())
}

/// Returns the number of bits of the shortest prefix that begins at `first` and ends at `last` or before. It also
/// returns the address after the prefix, or `None` if the prefix ends at `last`.
///
/// Repeated calls, each from the returned address, split the range into prefixes. Each prefix has the most addresses
/// that it can have. The loop runs at most 128 times.
pub fn take_prefix<A: Address>(first: A, last: A) -> (u32, Option<A>)
    requires { A.rank first ≤ℤ A.rank last }
    ensures bits { result.0 ≤ A.width }
    ensures greatest { IsGreatestWithin (nat_of (A.rank first)) (nat_of (A.rank last)) (A.width - result.0) }
    ensures rest { MatchOption result.1
        (A.rank first +ℤ pos (2 ^ (A.width - result.0)) ≡ A.rank last +ℤ pos 1)
        (λ next. (A.rank next ≡ A.rank first +ℤ pos (2 ^ (A.width - result.0)))
        × (A.rank next ≤ℤ A.rank last)) }
{
    let bits = shortest_prefix(first, last);
    let end = A::at(last_of_block(first.number(), A::width() - bits));
    last.in_hand();
    if is_below(end, last) {
        (bits, Some(end.add_one()))
    } else {
        (bits, None)
    }
}
