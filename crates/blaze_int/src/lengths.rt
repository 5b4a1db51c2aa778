//! The unsigned number types as types of lengths.
ghost use Rattle.std.specs.Prelude.{◌-◌, ◌^◌};
ghost use Rattle.blaze_int.specs.Unsigned.{unsigned-counted};

use crate::length::SafeLength;

impl SafeLength for u16 {
    ghost number = { λ x. x };

    ghost most = { 2 ^ 16 - 1 };

    fn zero() -> u16 {
        0
    }

    fn one() -> u16 {
        1
    }

    fn plus(self, other: u16) -> u16 {
        self + other
    }

    fn minus(self, other: u16) -> u16 {
        self - other
    }

    ghost counted = { unsigned-counted (2 ^ 16 - 1) };
}

impl SafeLength for u32 {
    ghost number = { λ x. x };

    ghost most = { 2 ^ 32 - 1 };

    fn zero() -> u32 {
        0
    }

    fn one() -> u32 {
        1
    }

    fn plus(self, other: u32) -> u32 {
        self + other
    }

    fn minus(self, other: u32) -> u32 {
        self - other
    }

    ghost counted = { unsigned-counted (2 ^ 32 - 1) };
}

impl SafeLength for u64 {
    ghost number = { λ x. x };

    ghost most = { 2 ^ 64 - 1 };

    fn zero() -> u64 {
        0
    }

    fn one() -> u64 {
        1
    }

    fn plus(self, other: u64) -> u64 {
        self + other
    }

    fn minus(self, other: u64) -> u64 {
        self - other
    }

    ghost counted = { unsigned-counted (2 ^ 64 - 1) };
}

impl SafeLength for u128 {
    ghost number = { λ x. x };

    ghost most = { 2 ^ 128 - 1 };

    fn zero() -> u128 {
        0
    }

    fn one() -> u128 {
        1
    }

    fn plus(self, other: u128) -> u128 {
        self + other
    }

    fn minus(self, other: u128) -> u128 {
        self - other
    }

    ghost counted = { unsigned-counted (2 ^ 128 - 1) };
}
