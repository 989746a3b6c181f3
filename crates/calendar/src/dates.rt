// Days of the calendar from 2000-01-01 to 2099-12-31, and their numbers: days counted from 2000-01-01 as 0.
ghost use Rattle.std.specs.Prelude.{◌≡◌, ◌+◌, ◌<◌, ◌≤◌};
ghost use Rattle.calendar.specs.Days.{Within, calendar_days, month_length, days_before_year, days_before_month};

use crate::months::Month;
use std::fmt;
use std::fmt::{Display, Formatter, Write};

// There is no other `Date` than one of these days.
#[derive(Clone, Copy, PartialEq, Eq, PartialOrd, Ord, Debug)]
pub struct Date {
    pub year: u16,
    pub month: u8,
    pub day: u8,
    ghost year_in_range: { Within 2000 2099 year },
    ghost month_in_range: { Within 1 12 month },
    ghost day_in_range: { Within 1 (month_length year month) day },
}

// Days from 2000-01-01 to 2099-12-31.
pub(crate) const CALENDAR_DAYS: u16 = 36_525;

// Every fourth year of the century is a leap year, 2000 the first.
#[tactic(auto, using(crate::proofs::Counts::years_closed), unfolding(crate::specs::Days::days_before_year))]
fn days_before_year(year: u16) -> u16
    requires { Within 2000 2099 year }
    ensures { result ≡ days_before_year year }
{
    let years = year - 2000;
    365 * years + (years + 3) / 4
}

// The month in which the day of a year lies, days of the year counted from 0.
fn month_of_day(year: u16, day_of_year: u16) -> u8
    requires { day_of_year < days_before_month year 13 }
    ensures within { Within 1 12 result }
    ensures begun { days_before_month year result ≤ day_of_year }
    ensures not_over { day_of_year < days_before_month year (result + 1) }
{
    (1..12u8)
        .find(|&month| {
            let next = Month {
                year,
                month: month + 1,
            };
            day_of_year < next.days_before()
        })
        .unwrap_or(12)
}

impl Date {
    ghost use Rattle.std.specs.Prelude.{Some};
    ghost use Rattle.calendar.specs.declared.dates.Date.{Date as Dated};
    ghost use Rattle.calendar.specs.Dates.{day_of, number_of, DateOfDay, DateOfNumber, DateAfter, month_of};
    ghost use Rattle.calendar.specs.Months.{month_index};

    // The date of a year, month and day, or none where there is no such day from 2000 to 2099.
    pub fn of(year: u16, month: u8, day: u8) -> Option<Date>
        ensures { DateOfDay (record { year = year; month = month; day = day }) result }
    {
        if !(2000..=2099).contains(&year) || !(1..=12).contains(&month) {
            return None;
        }
        if !(1..=Month { year, month }.length()).contains(&day) {
            return None;
        }
        Some(Date { year, month, day })
    }

    // Days since 2000-01-01. (`u16::from(date)` would not say what is counted, nor `Date::try_from(n)` that n is a day number.)
    #[tactic(auto, using(crate::proofs::SameDates::number_below), unfolding(crate::specs::Days::day_number))]
    pub fn number(self) -> u16
        ensures value { result ≡ number_of self }
        ensures bound { result < calendar_days }
    {
        days_before_year(self.year) + self.month().days_before() + u16::from(self.day - 1)
    }

    // The date with a number, or none past 2099-12-31.
    #[tactic(auto, using(crate::proofs::Calendars::days_found))]
    pub fn from_number(number: u16) -> Option<Date>
        ensures day { DateOfNumber number result }
        ensures back { (d : Dated) → number_of d ≡ number → result ≡ Some d }
    {
        if number >= CALENDAR_DAYS {
            return None;
        }
        let year = 2000 + (4 * u32::from(number) / 1461) as u16;
        let day_of_year = number - days_before_year(year);
        let month = month_of_day(year, day_of_year);
        let begin = Month { year, month }.days_before();
        let day = (day_of_year - begin) as u8 + 1;
        Date::of(year, month, day)
    }

    // The date after, or none after 2099-12-31.
    #[tactic(auto, using(crate::proofs::SameDates::after_is, std::proofs::lemmas::Bool::Decides::nat_tests))]
    pub fn next(self) -> Option<Date>
        ensures { DateAfter self result }
    {
        if self.day < self.month().length() {
            return Date::of(self.year, self.month, self.day + 1);
        }
        if self.month < 12 {
            return Date::of(self.year, self.month + 1, 1);
        }
        Date::of(self.year + 1, 1, 1)
    }

    // The month in which it lies.
    pub(crate) fn month(self) -> Month
        ensures { result ≡ month_of self }
    {
        Month {
            year: self.year,
            month: self.month,
        }
    }

    // Its month, months counted from January 2000 as 0.
    pub(crate) fn month_index(self) -> usize
        ensures { result ≡ month_index (day_of self) }
    {
        12 * usize::from(self.year - 2000) + usize::from(self.month - 1)
    }
}

// Year, month and day, as 2024-04-01.
impl Display for Date {
    ghost use Rattle.std.specs.Prelude.{Some};
    ghost use Rattle.calendar.specs.Dates.{date_text};

    ghost output = { λ d. Some (date_text d) };

    // Digit by digit: with `{:02}`, and a month that prints itself, a writer of the caller's own gets dates three times as slowly.
    fn fmt<W: Write>(&self, f: &mut Formatter<W>) -> Result<(), fmt::Error> {
        let year = self.year;
        write!(
            f,
            "{year}-{}{}-{}{}",
            self.month / 10,
            self.month % 10,
            self.day / 10,
            self.day % 10
        )
    }
}
