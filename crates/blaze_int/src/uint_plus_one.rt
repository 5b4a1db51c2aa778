//! The lengths of ranges of 128-bit keys. The greatest length is one more than the greatest `u128`.
ghost use Rattle.std.specs.Prelude.{◌^◌, Some};
ghost use Rattle.std.specs.Fmt.{decimal};
ghost use Rattle.std.proofs.Common.{refl};

use crate::length::SafeLength;
use std::fmt::{self, Display, Formatter};

/// A whole number from 0 to 2^128. Values compare as numbers: each `UInt` is below `MaxPlusOne`.
#[derive(Clone, Copy, PartialEq, Eq, PartialOrd, Ord, Debug)]
pub enum UIntPlusOne {
    /// A number from 0 to 2^128 - 1.
    UInt(u128),
    /// 2^128, the number of all 128-bit keys.
    MaxPlusOne,
}

impl SafeLength for UIntPlusOne {
    ghost use Rattle.blaze_int.specs.declared.uint_plus_one.UIntPlusOne.TheVariants.{UInt};
    ghost use Rattle.blaze_int.specs.declared.uint_plus_one.UIntPlusOne.TheVariants.{MaxPlusOne};
    ghost use Rattle.blaze_int.specs.UIntPlusOne.{number_of, one_value, has_value, order-UInt};
    ghost use Rattle.blaze_int.specs.UIntPlusOne.{order-below, order-above, equal-UInt};
    ghost use Rattle.blaze_int.specs.UIntPlusOne.{equal-below, equal-above};

    ghost number = { number_of };

    ghost most = { 2 ^ 128 };

    fn zero() -> UIntPlusOne {
        UIntPlusOne::UInt(0)
    }

    fn one() -> UIntPlusOne {
        UIntPlusOne::UInt(1)
    }

    fn plus(self, other: UIntPlusOne) -> UIntPlusOne {
        match (self, other) {
            (UIntPlusOne::UInt(a), UIntPlusOne::UInt(b)) => match a.checked_add(b) {
                Some(sum) => UIntPlusOne::UInt(sum),
                None => UIntPlusOne::MaxPlusOne,
            },
            (UIntPlusOne::MaxPlusOne, _) | (_, UIntPlusOne::MaxPlusOne) => UIntPlusOne::MaxPlusOne,
        }
    }

    fn minus(self, other: UIntPlusOne) -> UIntPlusOne {
        match (self, other) {
            (UIntPlusOne::UInt(a), UIntPlusOne::UInt(b)) => UIntPlusOne::UInt(a - b),
            (UIntPlusOne::MaxPlusOne, UIntPlusOne::MaxPlusOne) => UIntPlusOne::zero(),
            (UIntPlusOne::MaxPlusOne, UIntPlusOne::UInt(b)) => {
                UIntPlusOne::UInt(u128::MAX - b).plus(UIntPlusOne::one())
            }
            (UIntPlusOne::UInt(_), UIntPlusOne::MaxPlusOne) => unreachable!(),
        }
    }

    ghost counted = { record {
      one_value = one_value;
      has_value = has_value;
      order = elim [
        | UInt a ↦ elim [ UInt b ↦ order-UInt a b | MaxPlusOne ↦ λ f _. order-below a f ]
        | MaxPlusOne ↦ elim [ UInt b ↦ λ _ g. order-above b g | MaxPlusOne ↦ λ _ _. refl ]
      ];
      equal = elim [
        | UInt a ↦ elim [ UInt b ↦ equal-UInt a b | MaxPlusOne ↦ λ _ _. equal-below a ]
        | MaxPlusOne ↦ elim [
          | UInt b ↦ λ _ _. equal-above b
          | MaxPlusOne ↦ λ
              _ _. ((λ _. refl), (λ _. refl))
        ]
      ];
    } };
}

/// Prints the number in decimal, also for `MaxPlusOne`.
impl Display for UIntPlusOne {
    ghost use Rattle.blaze_int.specs.UIntPlusOne.{number_of};

    ghost output = { λ length. Some (decimal (number_of length)) };

    fn fmt<W: fmt::Write>(&self, f: &mut Formatter<W>) -> fmt::Result {
        match *self {
            UIntPlusOne::UInt(number) => write!(f, "{number}"),
            UIntPlusOne::MaxPlusOne => f.write_str("340282366920938463463374607431768211456"),
        }
    }
}
