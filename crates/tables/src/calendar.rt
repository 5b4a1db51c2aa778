//! A calendar, read from lines `FROM TO NAME` of dates YYYY-MM-DD. Each line books the free days of its range, and its
//! conflicts with earlier lines are printed. Then the bookings are printed, and for each line `? YEAR` the free spans
//! of that year. An example is tests/tables/calendar.stdin.

use demo_keys::Day;
use demo_lines::{Fault, Table, content, decimal, length};
use jiff_core::civil::Date;
use range_map_blaze::RangeMapBlaze;
use std::alloc::Global;
use std::ops::RangeInclusive;

/// The names of days, and the first and the last day of each year in a query.
#[derive(Drop)]
pub struct Calendar {
    days: RangeMapBlaze<Day, String>,
    years: Vec<(Day, Day)>,
}

/// Returns a day of the years 1 to 9999, given by four digits of its year and two digits of its month and its day.
fn day_of(year: &str, month: &str, day: &str) -> Option<Day> {
    if year == "0000" || year.len() != 4 || month.len() != 2 || day.len() != 2 {
        return None;
    }
    let year = i16::try_from(decimal(year)?).ok()?;
    let month = i8::try_from(decimal(month)?).ok()?;
    let day = i8::try_from(decimal(day)?).ok()?;
    Some(Day::from(Date::new(year, month, day).ok()?))
}

/// Parses a day `YYYY-MM-DD`.
fn read(text: &str) -> Option<Day> {
    let (year, rest) = text.split_once('-')?;
    let (month, day) = rest.split_once('-')?;
    day_of(year, month, day)
}

/// Parses a line `FROM TO NAME`: the first and the last day, and the name.
fn booking(text: &str) -> Option<(Day, Day, &str)> {
    let (from, rest) = text.split_once(' ')?;
    let (to, name) = rest.split_once(' ')?;
    let (first, last) = (read(from)?, read(to)?);
    (first <= last).then_some((first, last, name))
}

/// Prints a range of days.
fn print_span(rt: &HostRuntime, days: RangeInclusive<Day>, name: &str) -> Result<(), Fault> {
    let count = length(&days);
    println!(rt; "{} {} {name}, {count} days", days.start(), days.end())?;
    Ok(())
}

impl Calendar {
    /// Returns an empty table.
    pub fn new(alloc: Global) -> Calendar {
        Calendar {
            days: RangeMapBlaze::new(alloc),
            years: Vec::new(alloc),
        }
    }

    /// Books the free days of a line `FROM TO NAME`, and prints its conflicts with earlier lines.
    fn book(&mut self, rt: &HostRuntime, text: &str) -> Result<(), Fault> {
        let Some((first, last, name)) = booking(text) else {
            return Err(Fault::Line);
        };
        for (days, other) in self.days.overlapping(first..=last) {
            print!(rt; "{name} meets ")?;
            print_span(rt, days, other.as_str())?;
        }
        let name = String::from_str(rt.alloc(), name)?;
        let _ = self.days.ranges_insert_absent(first..=last, name)?;
        Ok(())
    }
}

impl Table for Calendar {
    fn add(&mut self, rt: &HostRuntime, line: &str) -> Result<(), Fault> {
        let Some(text) = content(line) else {
            return Ok(());
        };
        if let Some(year) = text.strip_prefix("? ") {
            let first = day_of(year, "01", "01").ok_or(Fault::Line)?;
            let last = day_of(year, "12", "31").ok_or(Fault::Line)?;
            self.years.push((first, last))?;
            return Ok(());
        }
        self.book(rt, text)
    }

    fn print(&mut self, rt: &HostRuntime) -> Result<(), Fault> {
        for (days, name) in self.days.range_values() {
            print_span(rt, days, name.as_str())?;
        }
        for (first, last) in self.years.iter() {
            for days in self.days.gaps(*first..=*last) {
                print_span(rt, days, "free")?;
            }
        }
        Ok(())
    }
}
