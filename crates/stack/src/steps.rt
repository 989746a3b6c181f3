// The steps from means to grams, each rounded to the nearest. Volumes are litres.
ghost use Rattle.std.specs.Prelude.{◌≡◌, ◌-◌, ◌*◌, ◌^◌, ◌<◌, ◌≤◌, pos, ◌+ℤ◌, ◌≤ℤ◌, unsigned_abs};
ghost use Rattle.calendar.specs.Rounding.{nearest_ℕ};
ghost use Rattle.stack.specs.Steps.{hundreds_of_seconds, least_minutes, flow_of, stack_pressure, on_basis_of, steps_of};

use crate::means::Means;
use crate::settings::{Basis, StackSettings};
use calendar::{Grams, Litres, Pascals, Span, nearest};
use std::num::NonZeroU64;

// Each step of a working.
#[derive(Clone, Copy)]
pub struct Steps {
    // Gas through the stack, as it flows.
    pub flow: Litres,
    // The same at 0 °C.
    pub at_zero: Litres,
    // The same at 0 °C and 101325 Pa.
    pub at_standard: Litres,
    // The gas that the CO2 share is measured in: wet, or without its water.
    pub on_basis: Litres,
    pub co2: Litres,
    pub grams: Grams,
}

// 900 s and 3600 s.
fn hundreds_of_seconds(span: Span) -> u64
    ensures value { result ≡ hundreds_of_seconds span }
    ensures bound { result ≤ 36 }
{
    match span {
        Span::Interval => 9,
        Span::Hour => 36,
    }
}

// How many valid minutes a figure needs. A function as the one above, and no method: `Span` is of `calendar`, which knows
// no figures.
pub(crate) fn least_minutes(span: Span) -> usize
    ensures { result ≡ least_minutes span }
{
    match span {
        Span::Interval => 12,
        Span::Hour => 45,
    }
}

// Square decimetres times centimetres a second are tenths of a litre a second.
#[tactic(auto, unfolding(crate::specs::Steps::flow_of))]
fn flow(span: Span, settings: &StackSettings, means: &Means) -> Litres
    ensures { result.0 ≡ flow_of span settings.now means.now.quantities.speed.0 }
{
    let rate = u64::from(settings.area) * u64::from(settings.speed_factor);
    let product = hundreds_of_seconds(span) * rate * u64::from(means.quantities.speed.0);
    Litres(nearest(product, NonZeroU64::new(1000).unwrap()))
}

// Tenths of a kelvin, where 0 °C are 273.0 K.
fn absolute_temperature(means: &Means) -> u64
    ensures { result ≡ unsigned_abs (pos 2730 +ℤ means.now.quantities.temperature.0) }
{
    (2730 + i64::from(means.quantities.temperature.0)) as u64
}

// The pressure in the stack: that of the air outside, and the static pressure on top.
fn stack_pressure(means: &Means) -> Pascals<i32>
    ensures value { result.0 ≡ stack_pressure means.now.quantities }
    ensures positive { pos 0 ≤ℤ result.0 }
{
    let quantities = means.quantities;
    Pascals(quantities.air_pressure.to_pascals().0 + i32::from(quantities.static_pressure.0))
}

// A volume times a fraction, to the nearest whole number.
fn scaled(volume: Litres, numerator: u64, denominator: u64) -> u64
    requires fits { volume.0 * numerator < 2 ^ 64 }
    requires divides { 0 < denominator }
    ensures { result ≡ nearest_ℕ (volume.0 * numerator) denominator }
{
    nearest(volume.0 * numerator, NonZeroU64::new(denominator).unwrap())
}

// The gas that the CO2 share is measured in.
#[tactic(auto, unfolding(crate::specs::Steps::on_basis_of))]
fn on_basis(basis: Basis, gas: Litres, means: &Means) -> Litres
    requires { gas.0 * (10000 - means.now.quantities.moisture.0) < 2 ^ 64 }
    ensures { result.0 ≡ on_basis_of basis gas.0 means.now.quantities.moisture.0 }
{
    match basis {
        Basis::Wet => gas,
        Basis::Dry => Litres(scaled(gas, 10_000 - u64::from(means.quantities.moisture.0), 10_000)),
    }
}

impl Steps {
    // The working from means, step by step. A figure is of these three things; a struct of a span and settings would only spell
    // `Steps::of(span, settings, means)` longer.
    #[tactic(auto, using(crate::proofs::Limits::products_fit), unfolding(crate::specs::Steps::at_zero_of, crate::specs::Steps::at_standard_of, crate::specs::Steps::co2_of, crate::specs::Steps::grams_of))]
    pub fn of(span: Span, settings: &StackSettings, means: &Means) -> Steps
        ensures { result ≡ steps_of span settings.now means.now.quantities }
    {
        let flow = flow(span, settings, means);
        let at_zero = Litres(scaled(flow, 2730, absolute_temperature(means)));
        let at_standard = Litres(scaled(at_zero, stack_pressure(means).0 as u64, 101_325));
        let on_basis = on_basis(settings.basis, at_standard, means);
        let co2 = Litres(scaled(on_basis, u64::from(means.quantities.co2.0), 10_000));
        // A litre of CO2 at 0 °C and 101325 Pa weighs 1.97 g.
        let grams = Grams(scaled(co2, 197, 100));
        Steps {
            flow,
            at_zero,
            at_standard,
            on_basis,
            co2,
            grams,
        }
    }
}
