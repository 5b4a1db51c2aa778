//! IPv4 addresses as keys.
ghost use Rattle.std.specs.Prelude.{◌-◌, ◌^◌, pos};
ghost use Rattle.std.proofs.Common.{refl, lit≤};
ghost use Rattle.blaze_int.specs.Newtypes.{ranked-along};
ghost use Rattle.blaze_int.specs.Unsigned.{nat_of, unsigned-ranked, unsigned-room};

use blaze_int::Integer;
use std::ops::RangeInclusive;

/// An IPv4 address, by the number that its bits make.
#[derive(Clone, Copy, PartialEq, Eq, PartialOrd, Ord, Debug)]
pub struct Ipv4(pub u32);

impl Integer for Ipv4 {
    type SafeLen = u64;

    ghost rank = { λ k. pos k.0 };

    ghost of_rank = { λ z. record { 0 = nat_of z } };

    ghost low = { pos 0 };

    ghost high = { pos (2 ^ 32 - 1) };

    fn in_hand(self) {
        self.0.in_hand();
    }

    fn min_value() -> Ipv4 {
        Ipv4(u32::MIN)
    }

    fn max_value() -> Ipv4 {
        Ipv4(u32::MAX)
    }

    fn add_one(self) -> Ipv4 {
        Ipv4(self.0.add_one())
    }

    fn sub_one(self) -> Ipv4 {
        Ipv4(self.0.sub_one())
    }

    fn safe_len(r: &RangeInclusive<Ipv4>) -> u64 {
        u32::safe_len(&(r.start().0..=r.end().0))
    }

    ghost ranked = { ranked-along (λ k. k.0) (λ n. record { 0 = n }) (unsigned-ranked (2 ^ 32 - 1))
        (λ _. refl) (λ _ _ _. refl) (λ _ _. refl) (λ _ _. refl) };

    ghost has_room = { unsigned-room (2 ^ 32 - 1) (2 ^ 64 - 1) (lit≤ tt) };
}
