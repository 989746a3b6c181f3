// The units of the method, each a type of its own around an integer, however alike, so that none is taken for another.
// Only the conversions named here pass between them. They are no `From`: an `into` would not show the units.
// The integer has the width that records and files have; a conversion or a sum that needs more has a wider one.
ghost use Rattle.std.specs.Prelude.{◌≡◌, ◌+◌, ◌*◌, ◌^◌, ◌<◌, pos};
ghost use Rattle.calendar.specs.Rounding.{nearest_ℕ};

use crate::rounding::nearest;
use std::num::NonZeroU64;
use std::ops::Add;

// Grams of CO2.
#[derive(Clone, Copy, PartialEq, Eq, PartialOrd, Ord, Debug)]
pub struct Grams(pub u64);

// Kilograms: 32 bits as weighed, 64 bits where grams are converted.
#[derive(Clone, Copy, PartialEq, Eq, Debug)]
pub struct Kilograms<Number = u32>(pub Number);

// Pascals: 16 bits and signed for a static pressure as read, 32 bits where an air pressure is converted.
#[derive(Clone, Copy, PartialEq, Eq, Debug)]
pub struct Pascals<Number = i16>(pub Number);

// Hundreds of pascals: an air pressure as read.
#[derive(Clone, Copy, PartialEq, Eq, Debug)]
pub struct Hectopascals(pub u16);

// Tenths of a degree Celsius, signed.
#[derive(Clone, Copy, PartialEq, Eq, Debug)]
pub struct TenthsCelsius(pub i16);

// Hundredths of a percent: the share of CO2 or of water in the gas.
#[derive(Clone, Copy, PartialEq, Eq, Debug)]
pub struct HundredthsPercent(pub u16);

// Centimetres a second: the speed of the gas.
#[derive(Clone, Copy, PartialEq, Eq, Debug)]
pub struct CentimetresPerSecond(pub u16);

// Litres of gas.
#[derive(Clone, Copy, PartialEq, Eq, Debug)]
pub struct Litres(pub u64);

// A sum of grams takes grams only. As for `+` on integers, whoever adds shows that the sum fits.
impl Add<Grams> for Grams {
    type Output = Grams;

    ghost can_add = { λ a b. a.0 + b.0 < 2 ^ 64 };

    ghost add_gives = { λ a b r. r.0 ≡ a.0 + b.0 };

    fn add(self, rhs: Grams) -> Grams {
        Grams(self.0 + rhs.0)
    }
}

impl Kilograms {
    pub fn to_grams(self) -> Grams
        ensures { result.0 ≡ 1000 * self.0 }
    {
        Grams(1000 * u64::from(self.0))
    }
}

impl Grams {
    // The nearest kilograms: 500 g round up.
    pub fn to_nearest_kilograms(self) -> Kilograms<u64>
        ensures { result.0 ≡ nearest_ℕ self.0 1000 }
    {
        Kilograms(nearest(self.0, NonZeroU64::new(1000).unwrap()))
    }
}

impl Hectopascals {
    pub fn to_pascals(self) -> Pascals<i32>
        ensures { result.0 ≡ pos (100 * self.0) }
    {
        Pascals(100 * i32::from(self.0))
    }
}
