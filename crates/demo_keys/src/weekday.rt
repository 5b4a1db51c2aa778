//! The days of the week as keys.
ghost use Rattle.std.specs.Prelude.{◌≡◌, ◌≤◌, ◌-◌, ◌^◌, pos};
ghost use Rattle.std.proofs.Common.{lit≤};
ghost use Rattle.blaze_int.specs.Newtypes.{ranked-along};
ghost use Rattle.blaze_int.specs.Unsigned.{nat_of, unsigned-ranked, unsigned-room};

use blaze_int::Integer;
use std::ops::RangeInclusive;

/// A day of the week. Monday is the first.
#[derive(Clone, Copy, PartialEq, Eq, PartialOrd, Ord, Debug)]
pub enum Weekday {
    Monday,
    Tuesday,
    Wednesday,
    Thursday,
    Friday,
    Saturday,
    Sunday,
}

impl Weekday {
    ghost use Rattle.demo_keys.specs.Weekday.{days_after_monday, day_at};

    const ALL: [Weekday; 7] = [
        Weekday::Monday,
        Weekday::Tuesday,
        Weekday::Wednesday,
        Weekday::Thursday,
        Weekday::Friday,
        Weekday::Saturday,
        Weekday::Sunday,
    ];

    /// Returns the day that is `number` days after Monday, where `number` is at most 6.
    fn at(number: u16) -> Weekday
        requires { number ≤ 6 }
        ensures { result ≡ day_at number }
    {
        Weekday::ALL[usize::from(number)]
    }

    /// Returns the number of days after Monday.
    fn number(self) -> u16
        ensures { result ≡ days_after_monday self }
    {
        self as u16
    }
}

impl Integer for Weekday {
    ghost use Rattle.demo_keys.specs.Weekday.{days_after_monday, day_at, day_at-days_after_monday, days_after_monday-day_at};
    ghost use Rattle.std.proofs.Common.{rules};

    type SafeLen = u16;

    ghost rank = { λ day. pos (days_after_monday day) };

    ghost of_rank = { λ z. day_at (nat_of z) };

    ghost low = { pos 0 };

    ghost high = { pos 6 };

    fn in_hand(self) {
        let _ = self.number();
    }

    fn min_value() -> Weekday {
        Weekday::Monday
    }

    fn max_value() -> Weekday {
        Weekday::Sunday
    }

    fn add_one(self) -> Weekday {
        Weekday::at(self.number() + 1)
    }

    fn sub_one(self) -> Weekday {
        Weekday::at(self.number() - 1)
    }

    fn safe_len(r: &RangeInclusive<Weekday>) -> u16 {
        r.end().number() - r.start().number() + 1
    }

    ghost ranked = { ranked-along days_after_monday day_at (unsigned-ranked 6) day_at-days_after_monday days_after_monday-day_at (Prim.search rules) (Prim.search rules) };

    ghost has_room = { unsigned-room 6 (2 ^ 16 - 1) (lit≤ tt) };
}
