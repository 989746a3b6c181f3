// Prints what the calendar part answers over grids of cases. `stdout` has the same, worked by tools/calendar_cases.py.
#![tactic(auto)]

use calendar::{Date, Month, Span, Term, nearest, nearest_signed, round_up};
use std::io;
use std::num::NonZeroU64;

// Every 37th day number, past the last one too: the date, the number again, and the date after.
fn dates(rt: &impl Print) -> io::Result<()> {
    for number in (0..36_630).step_by(37) {
        match Date::from_number(number) {
            Some(date) => one_date(rt, date)?,
            None => println!(rt; "{number} none")?,
        }
    }
    Ok(())
}

fn one_date(rt: &impl Print, date: Date) -> io::Result<()> {
    let number = date.number();
    match date.next() {
        Some(after) => println!(rt; "{number} {date} {after}"),
        None => println!(rt; "{number} {date} none"),
    }
}

// Days around the ends of a month and of the calendar: which are dates.
fn lawful_days(rt: &impl Print) -> io::Result<()> {
    for year in [1999u16, 2000, 2023, 2024, 2099, 2100] {
        for month in 0..14u8 {
            for day in [0u8, 1, 28, 29, 30, 31, 32] {
                if let Some(date) = Date::of(year, month, day) {
                    one_date(rt, date)?;
                }
            }
        }
    }
    Ok(())
}

// Terms from days of 2023 on: last day, counts, and each touched month with its place in the term where it is whole.
fn terms(rt: &impl Print) -> io::Result<()> {
    for (month, day) in [
        (1u8, 31u8),
        (2, 1),
        (2, 29),
        (3, 1),
        (10, 1),
        (11, 30),
        (12, 31),
    ] {
        for year in [2023u16, 2024, 2099] {
            for days in [0u8, 1, 28, 29, 31, 32, 61, 91, 92, 93] {
                one_term(rt, year, month, day, days)?;
            }
        }
    }
    Ok(())
}

fn one_term(rt: &impl Print, year: u16, month: u8, day: u8, days: u8) -> io::Result<()> {
    match Term::of(year, month, day, days) {
        Ok(term) => {
            println!(rt;
                "{} {days} {} {} {}",
                term.first,
                term.last(),
                term.places(Span::Hour),
                term.places(Span::Interval)
            )?;
            months(rt, term)?;
            places(rt, term)
        }
        Err(fault) => println!(rt; "{year} {month} {day} {days} {fault}"),
    }
}

fn months(rt: &impl Print, term: Term) -> io::Result<()> {
    for touched in (0..6).filter_map(|place| term.touched_month(place)) {
        let Month { year, month } = touched;
        match term.month_span(touched) {
            Some(span) => println!(rt; "{year} {month} {} {}", span.first_day, span.days)?,
            None => println!(rt; "{year} {month} none")?,
        }
    }
    Ok(())
}

// The days of the first and last places of the term, and of those past it.
fn places(rt: &impl Print, term: Term) -> io::Result<()> {
    for place in [
        0,
        23,
        24,
        95,
        96,
        term.places(Span::Hour) - 1,
        term.places(Span::Hour),
        term.places(Span::Interval) - 1,
        term.places(Span::Interval),
    ] {
        for span in [Span::Hour, Span::Interval] {
            one_day(rt, term, term.day_of(span, place))?;
        }
    }
    Ok(())
}

fn one_day(rt: &impl Print, term: Term, day: Option<usize>) -> io::Result<()> {
    if let Some(day) = day
        && let Some(date) = term.date(day)
    {
        return println!(rt; "{day} {date}");
    }
    println!(rt; "none")
}

// Rounded quotients: all small ones, and the ends of the integers.
fn quotients(rt: &impl Print) -> io::Result<()> {
    for b in (1..13).filter_map(NonZeroU64::new) {
        for a in 0..40 {
            one_quotient(rt, a, b)?;
        }
    }
    for a in [u64::MAX, u64::MAX / 2, u64::MAX / 2 + 1] {
        for b in [1, 2, 1000, u64::MAX]
            .into_iter()
            .filter_map(NonZeroU64::new)
        {
            one_quotient(rt, a, b)?;
        }
    }
    Ok(())
}

fn one_quotient(rt: &impl Print, a: u64, b: NonZeroU64) -> io::Result<()> {
    let near = nearest(a, b);
    let up = round_up(a, b);
    let below = nearest_signed(-((a / 2) as i64), b);
    println!(rt; "{a} {b} {near} {up} {below}")
}

fn main(rt: HostRuntime) -> io::Result<()> {
    dates(&rt)?;
    lawful_days(&rt)?;
    terms(&rt)?;
    quotients(&rt)
}
