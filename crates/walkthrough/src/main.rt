// Goes through a task of the library from beginning to end, and prints each step in plain sentences.
#![tactic(auto)]

use calendar::{
    Grams, Hectopascals, Kilograms, Month, Span, Term, nearest, nearest_signed, round_up,
};
use std::io;
use std::num::NonZeroU64;

fn show_term(rt: &impl Print, term: Term) -> io::Result<()> {
    println!(rt;
        "It runs from {} to {}. Days: {}. Hours: {}. Intervals of 15 minutes: {}.",
        term.first,
        term.last(),
        term.days,
        term.places(Span::Hour),
        term.places(Span::Interval)
    )?;
    show_months(rt, term)
}

fn show_months(rt: &impl Print, term: Term) -> io::Result<()> {
    let count = term.touched_months();
    println!(rt; "Calendar months that it touches: {count}.")?;
    for month in (0..count).filter_map(|place| term.touched_month(place)) {
        show_month(rt, term, month)?;
    }
    Ok(())
}

fn show_month(rt: &impl Print, term: Term, month: Month) -> io::Result<()> {
    match term.month_span(month) {
        Some(span) => println!(rt;
            "  {month} lies in it whole: its {} days begin on day {} of the term.",
            span.days, span.first_day
        ),
        None => println!(rt; "  {month} lies in it in part."),
    }
}

// The day that is asked for need not be a date, so it is no `Date` that could print itself.
fn ask_for_term(rt: &impl Print, year: u16, month: u8, day: u8, days: u8) -> io::Result<()> {
    println!(rt; "A term is asked for. First day: {year}-{month:02}-{day:02}. Days: {days}.")?;
    match Term::of(year, month, day, days) {
        Ok(term) => show_term(rt, term),
        Err(fault) => println!(rt;
            "Refused with {fault}: the date or the number of days is out of range."
        ),
    }
}

fn show_places(rt: &impl Print, term: Term) -> io::Result<()> {
    for (name, span, place) in [
        ("Interval", Span::Interval, 100),
        ("Hour", Span::Hour, 2207),
    ] {
        if let Some(day) = term.day_of(span, place)
            && let Some(date) = term.date(day)
        {
            println!(rt; "{name} {place} lies in day {day} of the term, {date}.")?;
        }
    }
    Ok(())
}

fn show_rounding(rt: &impl Print) -> io::Result<()> {
    let two = NonZeroU64::new(2).unwrap();
    println!(rt;
        "Half-way cases round up: the mean of -5 and -6 is {}, the mean of 5 and 6 is {}.",
        nearest_signed(-5 - 6, two),
        nearest(5 + 6, two)
    )?;
    let quarter = round_up(70_000_001, NonZeroU64::new(4).unwrap());
    println!(rt; "A quarter of 70000001, rounded up, is {quarter}.")
}

// The sentences name the units, so only numbers are printed.
fn show_units(rt: &impl Print) -> io::Result<()> {
    let sum = Kilograms(8u32).to_grams() + Grams(500);
    println!(rt;
        "8 kilograms and 500 grams are {} grams, to the nearest {} kilograms.",
        sum.0,
        sum.to_nearest_kilograms().0
    )?;
    println!(rt;
        "An air pressure of 1013 hectopascals is {} pascals.",
        Hectopascals(1013).to_pascals().0
    )
}

fn main(rt: HostRuntime) -> io::Result<()> {
    println!(rt; "1. The term of a book")?;
    ask_for_term(&rt, 2024, 4, 1, 1)?;
    ask_for_term(&rt, 2024, 4, 1, 92)?;
    ask_for_term(&rt, 2024, 2, 30, 1)?;
    ask_for_term(&rt, 2099, 12, 1, 32)?;
    println!(rt; "2. Places in the term")?;
    if let Ok(term) = Term::of(2024, 4, 1, 92) {
        show_places(&rt, term)?;
    }
    println!(rt; "3. Rounding")?;
    show_rounding(&rt)?;
    println!(rt; "4. Units")?;
    show_units(&rt)
}
