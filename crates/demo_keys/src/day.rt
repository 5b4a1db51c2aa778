//! Days of the calendar as keys.
ghost use Rattle.std.specs.Prelude.{ℤ, ◌-◌, ◌^◌, pos, negsuc};
ghost use Rattle.std.proofs.Common.{rules};
ghost use Rattle.jiff_core.specs.Calendar.{IsEpochDay};
ghost use Rattle.blaze_int.specs.Newtypes.{ranked-within};
ghost use Rattle.blaze_int.specs.Signed.{signed-ranked};

use blaze_int::Integer;
use jiff_core::civil::Date;
use std::marker::Model;
use std::ops::RangeInclusive;

/// A day from -9999-01-01 to 9999-12-31, represented by its number. The day 1970-01-01 has the number 0.
#[derive(Clone, Copy, PartialEq, Eq, PartialOrd, Ord, Debug)]
pub struct Day {
    pub(crate) number: i32,
}

/// Contracts see a day as its number.
impl Model for Day {
    ghost Value = { ℤ };

    ghost view = { λ day. day.number };

    ghost invariant = { λ day. IsEpochDay day.number };

    ghost inverse = { λ z. record { number = z } };
}

impl Integer for Day {
    type SafeLen = u32;

    ghost rank = { λ z. z };

    ghost of_rank = { λ z. z };

    ghost low = { negsuc 4371586 };

    ghost high = { pos 2932896 };

    fn in_hand(self) {
        let _ = self.number;
    }

    fn min_value() -> Day {
        Day::from(Date::MIN)
    }

    fn max_value() -> Day {
        Day::from(Date::MAX)
    }

    fn add_one(self) -> Day {
        Day {
            number: self.number + 1,
        }
    }

    fn sub_one(self) -> Day {
        Day {
            number: self.number - 1,
        }
    }

    fn safe_len(r: &RangeInclusive<Day>) -> u32 {
        (r.end().number - r.start().number) as u32 + 1
    }

    ghost ranked = { ranked-within (negsuc 4371586) (pos 2932896) (signed-ranked (2 ^ 31 - 1)) (Prim.search rules) (Prim.search rules) (Prim.search rules) };

    ghost has_room = { Prim.search rules };
}
