//! The signed number types as keys. The rank of a number is the number itself.
ghost use Rattle.std.specs.Prelude.{◌-◌, ◌^◌, pos, negsuc};
ghost use Rattle.std.proofs.Common.{lit≤};
ghost use Rattle.blaze_int.specs.Signed.{signed-ranked, signed-room};

use crate::integer::Integer;
use crate::length::SafeLength;
use crate::numbers::range_length;
use crate::uint_plus_one::UIntPlusOne;
use std::ops::RangeInclusive;

impl Integer for i8 {
    type SafeLen = u16;

    ghost rank = { λ x. x };

    ghost of_rank = { λ z. z };

    ghost low = { negsuc (2 ^ 7 - 1) };

    ghost high = { pos (2 ^ 7 - 1) };

    fn in_hand(self) {}

    fn min_value() -> i8 {
        i8::MIN
    }

    fn max_value() -> i8 {
        i8::MAX
    }

    fn add_one(self) -> i8 {
        self + 1
    }

    fn sub_one(self) -> i8 {
        self - 1
    }

    fn safe_len(r: &RangeInclusive<i8>) -> u16 {
        range_length(*r.start(), *r.end())
    }

    ghost ranked = { signed-ranked (2 ^ 7 - 1) };

    ghost has_room = { signed-room (2 ^ 7 - 1) (2 ^ 16 - 1) (lit≤ tt) };
}

impl Integer for i16 {
    type SafeLen = u32;

    ghost rank = { λ x. x };

    ghost of_rank = { λ z. z };

    ghost low = { negsuc (2 ^ 15 - 1) };

    ghost high = { pos (2 ^ 15 - 1) };

    fn in_hand(self) {}

    fn min_value() -> i16 {
        i16::MIN
    }

    fn max_value() -> i16 {
        i16::MAX
    }

    fn add_one(self) -> i16 {
        self + 1
    }

    fn sub_one(self) -> i16 {
        self - 1
    }

    fn safe_len(r: &RangeInclusive<i16>) -> u32 {
        range_length(*r.start(), *r.end())
    }

    ghost ranked = { signed-ranked (2 ^ 15 - 1) };

    ghost has_room = { signed-room (2 ^ 15 - 1) (2 ^ 32 - 1) (lit≤ tt) };
}

impl Integer for i32 {
    type SafeLen = u64;

    ghost rank = { λ x. x };

    ghost of_rank = { λ z. z };

    ghost low = { negsuc (2 ^ 31 - 1) };

    ghost high = { pos (2 ^ 31 - 1) };

    fn in_hand(self) {}

    fn min_value() -> i32 {
        i32::MIN
    }

    fn max_value() -> i32 {
        i32::MAX
    }

    fn add_one(self) -> i32 {
        self + 1
    }

    fn sub_one(self) -> i32 {
        self - 1
    }

    fn safe_len(r: &RangeInclusive<i32>) -> u64 {
        range_length(*r.start(), *r.end())
    }

    ghost ranked = { signed-ranked (2 ^ 31 - 1) };

    ghost has_room = { signed-room (2 ^ 31 - 1) (2 ^ 64 - 1) (lit≤ tt) };
}

impl Integer for i64 {
    type SafeLen = u128;

    ghost rank = { λ x. x };

    ghost of_rank = { λ z. z };

    ghost low = { negsuc (2 ^ 63 - 1) };

    ghost high = { pos (2 ^ 63 - 1) };

    fn in_hand(self) {}

    fn min_value() -> i64 {
        i64::MIN
    }

    fn max_value() -> i64 {
        i64::MAX
    }

    fn add_one(self) -> i64 {
        self + 1
    }

    fn sub_one(self) -> i64 {
        self - 1
    }

    fn safe_len(r: &RangeInclusive<i64>) -> u128 {
        (r.end().wrapping_sub(*r.start()).cast_unsigned() as u128) + 1
    }

    ghost ranked = { signed-ranked (2 ^ 63 - 1) };

    ghost has_room = { signed-room (2 ^ 63 - 1) (2 ^ 128 - 1) (lit≤ tt) };
}

impl Integer for i128 {
    type SafeLen = UIntPlusOne;

    ghost rank = { λ x. x };

    ghost of_rank = { λ z. z };

    ghost low = { negsuc (2 ^ 127 - 1) };

    ghost high = { pos (2 ^ 127 - 1) };

    fn in_hand(self) {}

    fn min_value() -> i128 {
        i128::MIN
    }

    fn max_value() -> i128 {
        i128::MAX
    }

    fn add_one(self) -> i128 {
        self + 1
    }

    fn sub_one(self) -> i128 {
        self - 1
    }

    fn safe_len(r: &RangeInclusive<i128>) -> UIntPlusOne {
        UIntPlusOne::UInt(r.end().abs_diff(*r.start())).plus(UIntPlusOne::one())
    }

    ghost ranked = { signed-ranked (2 ^ 127 - 1) };

    ghost has_room = { signed-room (2 ^ 127 - 1) (2 ^ 128) (lit≤ tt) };
}
