// Numbers drawn by a linear congruential generator, and readings of them.
use calendar::{CentimetresPerSecond, Hectopascals, HundredthsPercent, Pascals, TenthsCelsius};
use stack::{Quantities, RawReading};
use std::ops::RangeInclusive;

#[derive(Drop)]
pub struct Draws {
    pub state: u64,
}

// The numbers that each quantity may be. All of them fit `i16`, so that `one_of` draws from each.
#[derive(Drop)]
pub struct Ranges {
    co2: RangeInclusive<i16>,
    moisture: RangeInclusive<i16>,
    speed: RangeInclusive<i16>,
    temperature: RangeInclusive<i16>,
    static_pressure: RangeInclusive<i16>,
    air_pressure: RangeInclusive<i16>,
}

impl Ranges {
    // The whole of the ranges of a valid minute.
    pub fn wide() -> Ranges {
        Ranges {
            co2: 0..=3000,
            moisture: 0..=4000,
            speed: 0..=6000,
            temperature: -400..=3000,
            static_pressure: -10_000..=10_000,
            air_pressure: 500..=1100,
        }
    }

    // Numbers that differ by little, some around 0: their means are often halves.
    pub fn narrow() -> Ranges {
        Ranges {
            co2: 1200..=1201,
            moisture: 0..=1,
            speed: 999..=1000,
            temperature: -3..=0,
            static_pressure: -2..=1,
            air_pressure: 1013..=1014,
        }
    }
}

const INVALID_MARKS: [char; 8] = ['B', 'R', 'Q', 'O', 'S', 'P', 'C', 'L'];

impl Draws {
    // The upper 31 bits of the next state.
    pub fn next(&mut self) -> u64 {
        self.state = self
            .state
            .wrapping_mul(6_364_136_223_846_793_005)
            .wrapping_add(1_442_695_040_888_963_407);
        self.state / 8_589_934_592
    }

    // A number that is at most so much.
    fn at_most(&mut self, most: u16) -> u16 {
        (self.next() % (u64::from(most) + 1)) as u16
    }

    fn one_of(&mut self, range: &RangeInclusive<i16>) -> i16 {
        let more = range.end().abs_diff(*range.start());
        range.start().wrapping_add_unsigned(self.at_most(more))
    }

    fn within(&mut self, ranges: &Ranges) -> Quantities {
        Quantities {
            co2: HundredthsPercent(self.one_of(&ranges.co2).cast_unsigned()),
            moisture: HundredthsPercent(self.one_of(&ranges.moisture).cast_unsigned()),
            speed: CentimetresPerSecond(self.one_of(&ranges.speed).cast_unsigned()),
            temperature: TenthsCelsius(self.one_of(&ranges.temperature)),
            static_pressure: Pascals(self.one_of(&ranges.static_pressure)),
            air_pressure: Hectopascals(self.one_of(&ranges.air_pressure).cast_unsigned()),
        }
    }

    // Any 15 bits, with a sign.
    fn any_signed(&mut self) -> i16 {
        let magnitude = (self.next() % 32_768) as i16;
        if self.next() % 2 == 0 {
            magnitude
        } else {
            -magnitude
        }
    }

    // Numbers that are mostly out of range, for the minutes that are not valid.
    fn unchecked(&mut self) -> Quantities {
        Quantities {
            co2: HundredthsPercent(self.at_most(u16::MAX)),
            moisture: HundredthsPercent(self.at_most(u16::MAX)),
            speed: CentimetresPerSecond(self.at_most(u16::MAX)),
            temperature: TenthsCelsius(self.any_signed()),
            static_pressure: Pascals(self.any_signed()),
            air_pressure: Hectopascals(self.at_most(u16::MAX)),
        }
    }

    fn invalid_mark(&mut self) -> char {
        INVALID_MARKS[(self.next() % 8) as usize]
    }

    // A reading that is valid in so many cases of ten.
    pub fn reading(&mut self, valid_of_ten: u64, ranges: &Ranges) -> RawReading {
        if self.next() % 10 < valid_of_ten {
            return RawReading {
                mark: 'V',
                quantities: self.within(ranges),
            };
        }
        let mark = self.invalid_mark();
        let quantities = self.unchecked();
        RawReading { mark, quantities }
    }
}

// As in `stack_walkthrough`. A valid minute: 10 % CO2, 10 m/s, 0 °C, 25 Pa above an air pressure of 1013 hPa.
pub fn sample() -> RawReading {
    RawReading {
        mark: 'V',
        quantities: Quantities {
            co2: HundredthsPercent(1000),
            moisture: HundredthsPercent(0),
            speed: CentimetresPerSecond(1000),
            temperature: TenthsCelsius(0),
            static_pressure: Pascals(25),
            air_pressure: Hectopascals(1013),
        },
    }
}
