// A term: the days that one book covers, its hours and intervals by place, and its months.
ghost use Rattle.std.specs.Prelude.{◌≡◌, ◌+◌, ◌≤◌};
ghost use Rattle.calendar.specs.Days.{Within, calendar_days, day_at};
ghost use Rattle.calendar.specs.Dates.{day_of, number_of};

use crate::dates::{CALENDAR_DAYS, Date};
use crate::months::{Month, MonthSpan};
use crate::spans::Span;
use std::error::Error;
use std::fmt;
use std::fmt::{Display, Formatter, Write};

// A first day and 1 to 92 days, the last of them not after 2099-12-31.
#[derive(Clone, Copy, PartialEq, Eq, Debug)]
pub struct Term {
    pub first: Date,
    pub days: u8,
    ghost days_in_range: { Within 1 92 days },
    ghost last_in_range: { number_of first + days ≤ calendar_days },
}

// Why a term is refused.
#[derive(Clone, Copy, PartialEq, Eq, Debug)]
pub enum TermFault {
    // Fault 1: the first day is no date from 2000 to 2099, there are not 1 to 92 days, or the last is after 2099-12-31.
    DateOrDays,
}

// Each fault type has its own `match` of numbers: a trait for them would have the same bodies.
impl TermFault {
    ghost use Rattle.calendar.specs.Terms.{fault_number};

    pub fn number(self) -> u8
        ensures { result ≡ fault_number self }
    {
        match self {
            TermFault::DateOrDays => 1,
        }
    }
}

// As `fault 1`. Each fault type has an impl of its own, with the same body.
impl Display for TermFault {
    ghost use Rattle.std.specs.Prelude.{Some};
    ghost use Rattle.calendar.specs.Faults.{fault_text};
    ghost use Rattle.calendar.specs.Terms.{fault_number};

    ghost output = { λ f. Some (fault_text (fault_number f)) };

    fn fmt<W: Write>(&self, f: &mut Formatter<W>) -> Result<(), fmt::Error> {
        write!(f, "fault {}", self.number())
    }
}

impl Error for TermFault {}

impl Term {
    ghost use Rattle.calendar.specs.Terms.{TermOf, places_of, term_day, last_number, DateOfTermDay};
    ghost use Rattle.calendar.specs.Months.{touched_months, touched_month, month_span};

    // The term that begins on a day and has that many days, or fault 1. (Three numbers name the day, as in `Date::of`: a struct
    // of them would make `Term::of(Day { year: 2024, month: 4, day: 1 }, 92)` of `Term::of(2024, 4, 1, 92)`.)
    #[tactic(auto, unfolding(crate::specs::Terms::lawful_term))]
    pub fn of(year: u16, month: u8, day: u8, days: u8) -> Result<Term, TermFault>
        ensures { TermOf (record { first = record { year = year; month = month; day = day }; days = days }) result }
    {
        let first = Date::of(year, month, day).ok_or(TermFault::DateOrDays)?;
        if !(1..=92).contains(&days) || first.number() + u16::from(days) > CALENDAR_DAYS {
            return Err(TermFault::DateOrDays);
        }
        Ok(Term { first, days })
    }

    // How many intervals, or hours, the term has.
    pub fn places(self, span: Span) -> usize
        ensures { result ≡ places_of span self }
    {
        span.places_a_day() * usize::from(self.days)
    }

    // The day of the term in which an interval or an hour lies, or none past the term.
    pub fn day_of(self, span: Span, place: usize) -> Option<usize>
        ensures { result ≡ term_day span self place }
    {
        if place >= self.places(span) {
            return None;
        }
        Some(place / span.places_a_day())
    }

    // The date of a day of the term, days counted from 0, or none past the term.
    pub fn date(self, day: usize) -> Option<Date>
        ensures { DateOfTermDay self day result }
    {
        if day >= usize::from(self.days) {
            return None;
        }
        Date::from_number(self.first.number() + day as u16)
    }

    // The date of the last day.
    pub fn last(self) -> Date
        ensures day { day_of result ≡ day_at (last_number self) }
        ensures number { number_of result ≡ last_number self }
    {
        Date::from_number(self.first.number() + u16::from(self.days - 1)).unwrap()
    }

    // How many calendar months the term touches: one to five.
    #[tactic(auto, using(crate::proofs::MonthsOfTerm::few_in_order), unfolding(crate::specs::Months::touched_months))]
    pub fn touched_months(self) -> usize
        ensures count { result ≡ touched_months self }
        ensures bound { Within 1 5 result }
    {
        self.last().month_index() + 1 - self.first.month_index()
    }

    // The touched month at a place, counted from 0, or none past the last.
    #[tactic(auto, unfolding(crate::specs::Months::touched_month))]
    pub fn touched_month(self, place: usize) -> Option<Month>
        ensures { result ≡ touched_month self place }
    {
        if place >= self.touched_months() {
            return None;
        }
        let index = self.first.month_index() + place;
        let year = 2000 + (index / 12) as u16;
        let month = (index % 12) as u8 + 1;
        Some(Month { year, month })
    }

    // Where a month lies in the term, or none where it is no month from 2000 to 2099 or a day of it is outside the term.
    #[tactic(auto, unfolding(crate::specs::Months::month_span, crate::specs::Months::whole_in_term))]
    pub fn month_span(self, month: Month) -> Option<MonthSpan>
        ensures { result ≡ month_span self month.year month.month }
    {
        let begin = usize::from(Date::of(month.year, month.month, 1)?.number());
        let days = usize::from(month.length());
        let term_begin = usize::from(self.first.number());
        if begin < term_begin || begin + days > term_begin + usize::from(self.days) {
            return None;
        }
        Some(MonthSpan {
            first_day: begin - term_begin,
            days,
        })
    }
}
