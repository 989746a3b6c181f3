// Rounding of quotients: to the nearest whole number, where a half goes up, and up.
// A divisor is a number that is not 0 by its type, so nothing is refused.
ghost use Rattle.std.specs.Prelude.{◌≡◌, ℕ, ◌<◌, ℤ, pos, ◌≤ℤ◌, neg_ℤ, refl};
ghost use Rattle.std.specs.NonZero.{non_zero_u64_get};
ghost use Rattle.calendar.specs.Rounding.{nearest_ℕ, nearest_ℤ, nearest_ℕ_is_nearest_ℤ, round_up_ℕ};

use std::num::NonZeroU64;

// A whole number that can be divided: of 64 bits, with or without a sign.
pub trait Dividend: Sized {
    // The same number among all integers.
    ghost integer: { Self → ℤ };

    // The quotient by a divisor, to the nearest.
    ghost nearest: { Self → ℕ → Self };

    fn nearest(self, divisor: NonZeroU64) -> Self
        ensures { result ≡ nearest self (non_zero_u64_get divisor) };

    // Both kinds of dividends are rounded as integers are.
    ghost rounds: { (a : Self) (b : ℕ) → integer (nearest a b) ≡ nearest_ℤ (integer a) b };
}

// The integer nearest to a / b. A dividend of 64 bits, doubled, fits 128.
fn nearest_integer(a: i128, b: NonZeroU64) -> i128
    requires low { neg_ℤ (pos 9223372036854775808) ≤ℤ a }
    requires high { a ≤ℤ pos 18446744073709551615 }
    ensures { result ≡ nearest_ℤ a (non_zero_u64_get b) }
{
    let divisor = i128::from(b.get());
    (2 * a + divisor).div_euclid(2 * divisor)
}

impl Dividend for u64 {
    ghost integer = { pos };

    ghost nearest = { nearest_ℕ };

    ghost rounds = { nearest_ℕ_is_nearest_ℤ };

    #[tactic(auto, using(crate::proofs::Rounds::unsigned_quotients))]
    fn nearest(self, divisor: NonZeroU64) -> u64 {
        nearest_integer(i128::from(self), divisor) as u64
    }
}

impl Dividend for i64 {
    ghost integer = { λ z. z };

    ghost nearest = { nearest_ℤ };

    ghost rounds = { λ _ _. refl };

    #[tactic(auto, using(crate::proofs::Rounds::signed_quotients))]
    fn nearest(self, divisor: NonZeroU64) -> i64 {
        nearest_integer(i128::from(self), divisor) as i64
    }
}

// The whole number nearest to a / b. This call and the next take one type each and are not generic: so `nearest(11, two)` needs
// no type written, and each can be passed where a function is asked for.
pub fn nearest(a: u64, b: NonZeroU64) -> u64
    ensures { result ≡ nearest_ℕ a (non_zero_u64_get b) }
{
    u64::nearest(a, b)
}

// The same where a may lie below zero: the mean of −5 and −6 is −5.
pub fn nearest_signed(a: i64, b: NonZeroU64) -> i64
    ensures { result ≡ nearest_ℤ a (non_zero_u64_get b) }
{
    i64::nearest(a, b)
}

// The smallest whole number not below a / b.
#[tactic(auto, using(crate::proofs::Rounds::ceil_rounds_up))]
pub fn round_up(a: u64, b: NonZeroU64) -> u64
    ensures { result ≡ round_up_ℕ a (non_zero_u64_get b) }
{
    a.div_ceil(b.get())
}
