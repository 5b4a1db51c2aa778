//! Conversions between days and the dates of `jiff_core`, and the texts of days.
ghost use Rattle.std.specs.Prelude.{◌≡◌};
ghost use Rattle.std.specs.Fmt.{WritesOnOk};
ghost use Rattle.jiff_core.specs.Date.{epoch_day};
ghost use Rattle.jiff_core.specs.declared.civil.date.Date.{Date};
ghost use Rattle.demo_keys.specs.Dates.{date_text};

use crate::day::Day;
use jiff_core::civil::Date;
use std::fmt::{self, Display, Formatter};

impl From<Date> for Day {
    ghost from_gives = { λ date day. day ≡ epoch_day date };

    fn from(date: Date) -> Day {
        Day {
            number: date.to_unix_epoch_day(),
        }
    }
}

impl From<Day> for Date {
    ghost from_gives = { λ day date. epoch_day date ≡ day };

    fn from(day: Day) -> Date {
        Date::from_unix_epoch_day(i64::from(day.number)).unwrap()
    }
}

/// Prints the day as `YYYY-MM-DD`, with `-` before a year below 0.
impl Display for Day {
    fn fmt<W: fmt::Write>(&self, f: &mut Formatter<W>) -> fmt::Result
        ensures text { (date : Date) → epoch_day date ≡ self.now
            → WritesOnOk W.write_str_gives f.old result (date_text date) f.new }
    {
        let Date { year, month, day } = Date::from(*self);
        let sign = if year < 0 { "-" } else { "" };
        let year = year.unsigned_abs();
        write!(f, "{sign}{year:04}-{month:02}-{day:02}")
    }
}
