// What is refused, with its number and minute.
use crate::draws::sample;
use calendar::{CentimetresPerSecond, Hectopascals, HundredthsPercent, Pascals, TenthsCelsius};
use stack::{HourFault, Mark, Quantities, RawReading, Reading, StackHour, StackSettings};
use std::io;

// Every character of ASCII as a mark. (Letters are printed as `mark.letter()`: `{mark}` would not say that it is the letter.)
pub fn marks(rt: &impl Print) -> io::Result<()> {
    for code in 0..128u8 {
        match Mark::try_from(char::from(code)) {
            Ok(mark) => println!(rt; "mark {code} {} {}", mark.letter(), mark.is_valid())?,
            Err(fault) => println!(rt; "mark {code} {fault}")?,
        }
    }
    Ok(())
}

// Settings at the ends of their ranges.
pub fn settings(rt: &impl Print) -> io::Result<()> {
    for area in [0u16, 1, 20_000, 20_001, 65_535] {
        for factor in [0u16, 1, 20_000, 20_001, 65_535] {
            for letter in ['W', 'D', 'w', 'X'] {
                one_stack(rt, area, factor, letter)?;
            }
        }
    }
    Ok(())
}

fn one_stack(rt: &impl Print, area: u16, factor: u16, letter: char) -> io::Result<()> {
    match StackSettings::of(area, factor, letter) {
        Ok(settings) => println!(rt;
            "settings {} {} {}",
            settings.area,
            settings.speed_factor,
            settings.basis.letter()
        ),
        Err(fault) => println!(rt; "settings {area} {factor} {letter} {fault}"),
    }
}

fn judge(rt: &impl Print, raw: RawReading) -> io::Result<()> {
    match Reading::try_from(raw) {
        Ok(reading) => println!(rt; "reading {} kept", reading.mark.letter()),
        Err(fault) => println!(rt; "reading {} {fault}", raw.mark),
    }
}

fn judge_marks(rt: &impl Print, quantities: Quantities) -> io::Result<()> {
    for mark in ['V', 'P', 'v'] {
        judge(rt, RawReading { mark, quantities })?;
    }
    Ok(())
}

// Readings that differ from the sample in one quantity, which takes each of these numbers.
fn judge_each<N: Copy, F: Fn(N) -> Quantities>(
    rt: &impl Print,
    numbers: &[N],
    with: F,
) -> io::Result<()>
    requires { F.IsAlwaysCallable with }
{
    for &number in numbers {
        judge_marks(rt, with(number))?;
    }
    Ok(())
}

// Each quantity at both ends of its range and just past them, the others as in the sample.
pub fn ranges(rt: &impl Print) -> io::Result<()> {
    let sample = sample().quantities;
    judge_each(
        rt,
        &[0, 3000, 3001, 65_535],
        |number| Quantities {
            co2: HundredthsPercent(number),
            ..sample
        },
    )?;
    judge_each(
        rt,
        &[0, 4000, 4001, 65_535],
        |number| Quantities {
            moisture: HundredthsPercent(number),
            ..sample
        },
    )?;
    judge_each(
        rt,
        &[0, 6000, 6001, 65_535],
        |number| Quantities {
            speed: CentimetresPerSecond(number),
            ..sample
        },
    )?;
    judge_each(
        rt,
        &[-32_768, -401, -400, 3000, 3001, 32_767],
        |number| Quantities {
            temperature: TenthsCelsius(number),
            ..sample
        },
    )?;
    judge_each(
        rt,
        &[-32_768, -10_001, -10_000, 10_000, 10_001, 32_767],
        |number| Quantities {
            static_pressure: Pascals(number),
            ..sample
        },
    )?;
    judge_each(
        rt,
        &[0, 499, 500, 1100, 1101, 65_535],
        |number| Quantities {
            air_pressure: Hectopascals(number),
            ..sample
        },
    )
}

fn send(rt: &impl Print, readings: &[RawReading]) -> io::Result<()> {
    match StackHour::try_from(readings) {
        Ok(_) => println!(rt; "hour kept"),
        Err(HourFault::Minute(at)) => println!(rt; "hour {} minute {}", at.fault, at.minute),
        Err(fault) => println!(rt; "hour {fault}"),
    }
}

// What is wrong with a reading that is spoilt: fault 13, both faults, or fault 14.
#[derive(Clone, Copy)]
enum Spoilt {
    Mark,
    Both,
    Number,
}

impl Spoilt {
    fn spoil(self, reading: &mut RawReading) {
        if matches!(self, Spoilt::Mark | Spoilt::Both) {
            reading.mark = 'x';
        }
        if matches!(self, Spoilt::Number | Spoilt::Both) {
            reading.quantities.co2 = HundredthsPercent(3001);
        }
    }
}

const WAYS: [Spoilt; 3] = [Spoilt::Mark, Spoilt::Both, Spoilt::Number];

fn spoil_minute(readings: &mut [RawReading], minute: usize, way: Spoilt) {
    if let Some(reading) = readings.get_mut(minute) {
        way.spoil(reading);
    }
}

// Two faults of every kind at two minutes, and rows of other lengths.
pub fn hours(rt: &impl Print) -> io::Result<()> {
    for (first, second) in [(0, 1), (0, 59), (30, 31), (58, 59), (59, 0)] {
        for way in WAYS {
            for other in WAYS {
                let mut readings = [sample(); 60];
                spoil_minute(&mut readings, first, way);
                spoil_minute(&mut readings, second, other);
                send(rt, &readings)?;
            }
        }
    }
    let mut long = [sample(); 61];
    send(rt, &long[0..0])?;
    send(rt, &long[0..59])?;
    send(rt, &long[0..60])?;
    spoil_minute(&mut long, 3, Spoilt::Mark);
    send(rt, &long)
}
