// A stack hour, from sixty readings to grams, and what is refused.
use calendar::{
    CentimetresPerSecond, Hectopascals, HundredthsPercent, Pascals, Span, TenthsCelsius,
};
use stack::{Means, Quantities, RawReading, StackHour, StackSettings, Steps};
use std::io;

// This value and what is printed of means, steps and intervals stand in `stack_cases` too. There the words are others, and a
// crate for the value alone would be longer than it is.

// A valid minute: 10 % CO2, 10 m/s, 0 °C, 25 Pa above an air pressure of 1013 hPa.
fn sample() -> RawReading {
    RawReading {
        mark: 'V',
        quantities: Quantities {
            co2: HundredthsPercent(1000),
            moisture: HundredthsPercent(0),
            speed: CentimetresPerSecond(1000),
            temperature: TenthsCelsius(0),
            static_pressure: Pascals(25),
            air_pressure: Hectopascals(1013),
        },
    }
}

// Numbers in the units of the readings, which the text does not repeat.
fn show_means(rt: &impl Print, means: &Means) -> io::Result<()> {
    let q = means.quantities;
    println!(rt;
        "  Means: CO2 {}, moisture {}, speed {}, temperature {}, static pressure {}, air pressure {}.",
        q.co2.0, q.moisture.0, q.speed.0, q.temperature.0, q.static_pressure.0, q.air_pressure.0
    )
}

fn show_steps(rt: &impl Print, steps: Steps) -> io::Result<()> {
    println!(rt;
        "  Litres: w1 {}, w2 {}, w3 {}, w4 {}, w5 {}.",
        steps.flow.0, steps.at_zero.0, steps.at_standard.0, steps.on_basis.0, steps.co2.0
    )?;
    println!(rt; "  Figure: {} g of CO2.", steps.grams.0)
}

// The runtime and the settings go together from here on, and stay two parameters: `Printer { rt, settings }.show_interval(..)`
// says no more than `show_interval(rt, settings, ..)`.
fn show_interval(
    rt: &impl Print,
    settings: &StackSettings,
    hour: &StackHour,
    quarter: usize,
) -> io::Result<()> {
    let (_, minutes) = hour.interval_figure(settings, quarter);
    println!(rt; "Interval {quarter} of the hour has {minutes} valid minutes.")?;
    match hour.interval_means(quarter) {
        Some(means) => {
            show_means(rt, &means)?;
            show_steps(rt, Steps::of(Span::Interval, settings, &means))
        }
        None => println!(rt; "  It has no figure: 12 are needed."),
    }
}

fn show_hour(rt: &impl Print, settings: &StackSettings, hour: &StackHour) -> io::Result<()> {
    let (record, minutes) = hour.record(settings);
    println!(rt; "The hour has {minutes} valid minutes.")?;
    match record {
        Some(record) => {
            show_means(rt, &record.means)?;
            show_steps(rt, Steps::of(Span::Hour, settings, &record.means))
        }
        None => println!(rt; "  It has no record: 45 are needed."),
    }
}

// Sends an hour, and shows one of its intervals and the whole.
fn send(
    rt: &impl Print,
    settings: &StackSettings,
    readings: &[RawReading],
    quarter: usize,
) -> io::Result<()> {
    match StackHour::try_from(readings) {
        Ok(hour) => {
            show_interval(rt, settings, &hour, quarter)?;
            show_hour(rt, settings, &hour)
        }
        Err(fault) => println!(rt; "Refused with {fault}."),
    }
}

fn show_hours(rt: &impl Print, settings: &StackSettings) -> io::Result<()> {
    let mut readings = [sample(); 60];
    println!(rt; "An hour of sixty valid readings is sent.")?;
    send(rt, settings, &readings, 0)?;
    println!(rt; "Minutes 16 to 19 are marked C, calibration.")?;
    for reading in &mut readings[16..20] {
        reading.mark = 'C';
    }
    send(rt, settings, &readings, 1)?;
    println!(rt; "Minute 40 reads 60.01 m/s.")?;
    readings[40].quantities.speed = CentimetresPerSecond(6001);
    send(rt, settings, &readings, 0)?;
    println!(rt; "Minute 23 is marked X, which is no mark.")?;
    readings[23].mark = 'X';
    send(rt, settings, &readings, 0)?;
    println!(rt; "The last reading is left out.")?;
    send(rt, settings, &readings[0..59], 0)
}

// Area 10 m², speed factor 1, CO2 measured in wet gas.
pub fn show(rt: &impl Print) -> io::Result<()> {
    println!(rt; "A stack is described: area 1000, speed factor 10000, basis W.")?;
    if let Ok(settings) = StackSettings::of(1000, 10_000, 'W') {
        show_hours(rt, &settings)?;
    }
    println!(rt; "Another with basis X.")?;
    match StackSettings::of(1000, 10_000, 'X') {
        Ok(_) => Ok(()),
        Err(fault) => println!(rt; "Refused with {fault}."),
    }
}
