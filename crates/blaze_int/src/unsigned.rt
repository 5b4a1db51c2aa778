//! The unsigned number types as keys. The rank of a number is the number itself.
ghost use Rattle.std.specs.Prelude.{◌-◌, ◌^◌, pos};
ghost use Rattle.std.proofs.Common.{lit≤};
ghost use Rattle.blaze_int.specs.Unsigned.{nat_of, unsigned-ranked, unsigned-room};

use crate::integer::Integer;
use crate::length::SafeLength;
use crate::numbers::range_length;
use crate::uint_plus_one::UIntPlusOne;
use std::ops::RangeInclusive;

impl Integer for u8 {
    type SafeLen = u16;

    ghost rank = { λ x. pos x };

    ghost of_rank = { nat_of };

    ghost low = { pos 0 };

    ghost high = { pos (2 ^ 8 - 1) };

    fn in_hand(self) {}

    fn min_value() -> u8 {
        u8::MIN
    }

    fn max_value() -> u8 {
        u8::MAX
    }

    fn add_one(self) -> u8 {
        self + 1
    }

    fn sub_one(self) -> u8 {
        self - 1
    }

    fn safe_len(r: &RangeInclusive<u8>) -> u16 {
        range_length(*r.start(), *r.end())
    }

    ghost ranked = { unsigned-ranked (2 ^ 8 - 1) };

    ghost has_room = { unsigned-room (2 ^ 8 - 1) (2 ^ 16 - 1) (lit≤ tt) };
}

impl Integer for u16 {
    type SafeLen = u32;

    ghost rank = { λ x. pos x };

    ghost of_rank = { nat_of };

    ghost low = { pos 0 };

    ghost high = { pos (2 ^ 16 - 1) };

    fn in_hand(self) {}

    fn min_value() -> u16 {
        u16::MIN
    }

    fn max_value() -> u16 {
        u16::MAX
    }

    fn add_one(self) -> u16 {
        self + 1
    }

    fn sub_one(self) -> u16 {
        self - 1
    }

    fn safe_len(r: &RangeInclusive<u16>) -> u32 {
        range_length(*r.start(), *r.end())
    }

    ghost ranked = { unsigned-ranked (2 ^ 16 - 1) };

    ghost has_room = { unsigned-room (2 ^ 16 - 1) (2 ^ 32 - 1) (lit≤ tt) };
}

impl Integer for u32 {
    type SafeLen = u64;

    ghost rank = { λ x. pos x };

    ghost of_rank = { nat_of };

    ghost low = { pos 0 };

    ghost high = { pos (2 ^ 32 - 1) };

    fn in_hand(self) {}

    fn min_value() -> u32 {
        u32::MIN
    }

    fn max_value() -> u32 {
        u32::MAX
    }

    fn add_one(self) -> u32 {
        self + 1
    }

    fn sub_one(self) -> u32 {
        self - 1
    }

    fn safe_len(r: &RangeInclusive<u32>) -> u64 {
        range_length(*r.start(), *r.end())
    }

    ghost ranked = { unsigned-ranked (2 ^ 32 - 1) };

    ghost has_room = { unsigned-room (2 ^ 32 - 1) (2 ^ 64 - 1) (lit≤ tt) };
}

impl Integer for u64 {
    type SafeLen = u128;

    ghost rank = { λ x. pos x };

    ghost of_rank = { nat_of };

    ghost low = { pos 0 };

    ghost high = { pos (2 ^ 64 - 1) };

    fn in_hand(self) {}

    fn min_value() -> u64 {
        u64::MIN
    }

    fn max_value() -> u64 {
        u64::MAX
    }

    fn add_one(self) -> u64 {
        self + 1
    }

    fn sub_one(self) -> u64 {
        self - 1
    }

    fn safe_len(r: &RangeInclusive<u64>) -> u128 {
        ((*r.end() - *r.start()) as u128) + 1
    }

    ghost ranked = { unsigned-ranked (2 ^ 64 - 1) };

    ghost has_room = { unsigned-room (2 ^ 64 - 1) (2 ^ 128 - 1) (lit≤ tt) };
}

impl Integer for u128 {
    type SafeLen = UIntPlusOne;

    ghost rank = { λ x. pos x };

    ghost of_rank = { nat_of };

    ghost low = { pos 0 };

    ghost high = { pos (2 ^ 128 - 1) };

    fn in_hand(self) {}

    fn min_value() -> u128 {
        u128::MIN
    }

    fn max_value() -> u128 {
        u128::MAX
    }

    fn add_one(self) -> u128 {
        self + 1
    }

    fn sub_one(self) -> u128 {
        self - 1
    }

    fn safe_len(r: &RangeInclusive<u128>) -> UIntPlusOne {
        UIntPlusOne::UInt(*r.end() - *r.start()).plus(UIntPlusOne::one())
    }

    ghost ranked = { unsigned-ranked (2 ^ 128 - 1) };

    ghost has_room = { unsigned-room (2 ^ 128 - 1) (2 ^ 128) (lit≤ tt) };
}
