// Months of a year, and where a whole one lies in a term.
ghost use Rattle.std.specs.Prelude.{◌≡◌, Some};
ghost use Rattle.calendar.specs.Days.{Within, leap, month_length, days_before_month};
ghost use Rattle.calendar.specs.Dates.{month_text};

// The call that holds the laws of a term's months is found here too.
pub use crate::held_laws::month_laws;
use std::fmt;
use std::fmt::{Display, Formatter, Write};

// A month of a year: any two numbers, also those of no month.
#[derive(Clone, Copy, PartialEq, Eq, Debug)]
pub struct Month {
    pub year: u16,
    pub month: u8,
}

// A whole month in a term: the day of the term on which it begins, counted from 0, and its days.
#[derive(Clone, Copy, PartialEq, Eq, Debug)]
pub struct MonthSpan {
    pub first_day: usize,
    pub days: usize,
}

// Days before each month of a common year.
const DAYS_BEFORE_MONTH: [u16; 12] = [0, 31, 59, 90, 120, 151, 181, 212, 243, 273, 304, 334];

fn is_leap(year: u16) -> bool
    ensures { result ≡ leap year }
{
    year % 4 == 0 && (year % 100 != 0 || year % 400 == 0)
}

impl Month {
    // How many days it has, where it is one of the months 1 to 12.
    #[tactic(auto, unfolding(crate::specs::Days::month_length))]
    pub(crate) fn length(self) -> u8
        ensures { result ≡ month_length self.year self.month }
    {
        match self.month {
            2 if is_leap(self.year) => 29,
            2 => 28,
            4 | 6 | 9 | 11 => 30,
            _ => 31,
        }
    }

    // Days of the year before the month.
    #[tactic(auto, using(crate::proofs::Counts::leap_days), unfolding(crate::specs::Days::days_before_month, crate::specs::Days::length_of_months))]
    pub(crate) fn days_before(self) -> u16
        requires { Within 1 12 self.month }
        ensures { result ≡ days_before_month self.year self.month }
    {
        let days = DAYS_BEFORE_MONTH[usize::from(self.month) - 1];
        if self.month > 2 && is_leap(self.year) {
            days + 1
        } else {
            days
        }
    }
}

// Year and month, as 2024-04.
impl Display for Month {
    ghost output = { λ m. Some (month_text m) };

    #[tactic(auto, using(crate::proofs::Texts::styled_is_two_digits))]
    fn fmt<W: Write>(&self, f: &mut Formatter<W>) -> Result<(), fmt::Error> {
        let Month { year, month } = *self;
        write!(f, "{year}-{month:02}")
    }
}
