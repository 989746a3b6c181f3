// Figures of intervals and hours.
use crate::draws::{Draws, Ranges, sample};
use calendar::{
    CentimetresPerSecond, Hectopascals, HundredthsPercent, Pascals, Span, TenthsCelsius,
};
use stack::{Means, Quantities, RawReading, StackHour, StackSettings, Steps};
use std::io;

// What is printed of means, steps, intervals and hours is in numbers alone, without their units; `stack_walkthrough` has words
// for them. The runtime and the settings stay two parameters, as there.
fn show_means(rt: &impl Print, means: &Means) -> io::Result<()> {
    let q = means.quantities;
    println!(rt;
        "  means {} {} {} {} {} {}",
        q.co2.0, q.moisture.0, q.speed.0, q.temperature.0, q.static_pressure.0, q.air_pressure.0
    )
}

fn show_steps(rt: &impl Print, steps: Steps) -> io::Result<()> {
    println!(rt;
        "  steps {} {} {} {} {} {}",
        steps.flow.0,
        steps.at_zero.0,
        steps.at_standard.0,
        steps.on_basis.0,
        steps.co2.0,
        steps.grams.0
    )
}

fn show_interval(
    rt: &impl Print,
    settings: &StackSettings,
    hour: &StackHour,
    quarter: usize,
) -> io::Result<()> {
    let (figure, minutes) = hour.interval_figure(settings, quarter);
    match figure {
        Some(figure) => println!(rt; "interval {quarter} {minutes} {}", figure.0)?,
        None => println!(rt; "interval {quarter} {minutes} none")?,
    }
    if let Some(means) = hour.interval_means(quarter) {
        show_means(rt, &means)?;
        show_steps(rt, Steps::of(Span::Interval, settings, &means))?;
    }
    Ok(())
}

fn show(rt: &impl Print, settings: &StackSettings, readings: &[RawReading]) -> io::Result<()> {
    let Ok(hour) = StackHour::try_from(readings) else {
        return println!(rt; "refused");
    };
    for quarter in 0..5 {
        show_interval(rt, settings, &hour, quarter)?;
    }
    let (record, minutes) = hour.record(settings);
    match record {
        Some(record) => {
            println!(rt; "hour {minutes} {}", record.grams.0)?;
            show_means(rt, &record.means)?;
            show_steps(rt, Steps::of(Span::Hour, settings, &record.means))
        }
        None => println!(rt; "hour {minutes} none"),
    }
}

// The sample hour, wet and dry, then with moisture, then warmer.
pub fn known(rt: &impl Print) -> io::Result<()> {
    let wet = StackSettings::of(1000, 10_000, 'W').unwrap();
    let dry = StackSettings::of(1000, 10_000, 'D').unwrap();
    let mut reading = sample();
    show(rt, &wet, &[reading; 60])?;
    show(rt, &dry, &[reading; 60])?;
    reading.quantities.moisture = HundredthsPercent(1000);
    show(rt, &wet, &[reading; 60])?;
    show(rt, &dry, &[reading; 60])?;
    reading.quantities.moisture = HundredthsPercent(0);
    reading.quantities.temperature = TenthsCelsius(1000);
    show(rt, &wet, &[reading; 60])
}

fn keep_valid(readings: &mut [RawReading], count: usize) {
    for reading in readings.iter_mut().skip(count) {
        reading.mark = 'L';
    }
}

// Hours of which only the first minutes are valid.
pub fn counts(rt: &impl Print) -> io::Result<()> {
    let wet = StackSettings::of(1000, 10_000, 'W').unwrap();
    for count in [0usize, 1, 11, 12, 14, 15, 26, 27, 44, 45, 59, 60] {
        let mut readings = [sample(); 60];
        keep_valid(&mut readings, count);
        show(rt, &wet, &readings)?;
    }
    Ok(())
}

// The highest and the lowest figures, and the smallest stack.
pub fn extremes(rt: &impl Print) -> io::Result<()> {
    let high = Quantities {
        co2: HundredthsPercent(3000),
        moisture: HundredthsPercent(0),
        speed: CentimetresPerSecond(6000),
        temperature: TenthsCelsius(-400),
        static_pressure: Pascals(10_000),
        air_pressure: Hectopascals(1100),
    };
    let low = Quantities {
        co2: HundredthsPercent(1),
        moisture: HundredthsPercent(4000),
        speed: CentimetresPerSecond(1),
        temperature: TenthsCelsius(3000),
        static_pressure: Pascals(-10_000),
        air_pressure: Hectopascals(500),
    };
    for basis in ['W', 'D'] {
        let large = StackSettings::of(20_000, 20_000, basis).unwrap();
        let small = StackSettings::of(1, 1, basis).unwrap();
        for quantities in [high, low] {
            let reading = RawReading {
                mark: 'V',
                quantities,
            };
            show(rt, &large, &[reading; 60])?;
            show(rt, &small, &[reading; 60])?;
        }
    }
    Ok(())
}

fn draw(draws: &mut Draws, readings: &mut [RawReading], valid_of_ten: u64, ranges: &Ranges) {
    for reading in readings.iter_mut() {
        *reading = draws.reading(valid_of_ten, ranges);
    }
}

// Hours whose settings, marks and numbers are drawn.
pub fn drawn(rt: &impl Print) -> io::Result<()> {
    let mut draws = Draws { state: 20_240_401 };
    let wide = Ranges::wide();
    let narrow = Ranges::narrow();
    for turn in 0..60u64 {
        for ranges in [&wide, &narrow] {
            let area = (draws.next() % 20_000) as u16 + 1;
            let factor = (draws.next() % 20_000) as u16 + 1;
            let basis = if draws.next() % 2 == 0 { 'W' } else { 'D' };
            let mut readings = [sample(); 60];
            draw(&mut draws, &mut readings, 6 + turn % 5, ranges);
            println!(rt; "drawn {area} {factor} {basis}")?;
            show(
                rt,
                &StackSettings::of(area, factor, basis).unwrap(),
                &readings,
            )?;
        }
    }
    Ok(())
}
