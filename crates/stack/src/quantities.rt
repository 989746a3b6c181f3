// The six quantities that the stack instruments give, each in its unit.
ghost use Rattle.std.specs.Prelude.{◌≡◌};
ghost use Rattle.stack.specs.Quantities.{in_range};

use calendar::{CentimetresPerSecond, Hectopascals, HundredthsPercent, Pascals, TenthsCelsius};

// Numbers of any size, as they come; the ranges of a valid minute are those of `in_range`.
#[derive(Clone, Copy)]
pub struct Quantities {
    pub co2: HundredthsPercent,
    pub moisture: HundredthsPercent,
    pub speed: CentimetresPerSecond,
    pub temperature: TenthsCelsius,
    pub static_pressure: Pascals,
    pub air_pressure: Hectopascals,
}

impl Quantities {
    // Whether each number is in the range of a valid minute.
    pub fn in_range(&self) -> bool
        ensures { result ≡ in_range self.now }
    {
        self.co2.0 <= 3000
            && self.moisture.0 <= 4000
            && self.speed.0 <= 6000
            && (-400..=3000).contains(&self.temperature.0)
            && (-10_000..=10_000).contains(&self.static_pressure.0)
            && (500..=1100).contains(&self.air_pressure.0)
    }
}
