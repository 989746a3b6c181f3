// The settings of a stack, made from numbers and a letter.
ghost use Rattle.std.specs.Prelude.{◌≡◌};
ghost use Rattle.calendar.specs.Days.{Within};

use std::error::Error;
use std::fmt;
use std::fmt::{Display, Formatter, Write};

// What the CO2 share is measured in: wet gas as it flows, or gas whose water was taken out.
#[derive(Clone, Copy, PartialEq, Eq, Debug)]
pub enum Basis {
    Wet,
    Dry,
}

// Area of the stack's cross section in square decimetres, and the factor, in ten-thousandths, from the speed that the
// instrument reads to the mean speed over the cross section.
#[derive(Clone, Copy)]
pub struct StackSettings {
    pub area: u16,
    pub speed_factor: u16,
    pub basis: Basis,
    ghost area_in_range: { Within 1 20000 area },
    ghost factor_in_range: { Within 1 20000 speed_factor },
}

// Why settings are refused.
#[derive(Clone, Copy, PartialEq, Eq, Debug)]
pub enum SettingsFault {
    // Fault 2: area or speed factor is not 1 to 20000, or the basis letter is neither W nor D.
    AreaFactorOrBasis,
}

// A `match` of its own, as each fault type has.
impl SettingsFault {
    ghost use Rattle.stack.specs.Settings.{fault_number};

    pub fn number(self) -> u8
        ensures { result ≡ fault_number self }
    {
        match self {
            SettingsFault::AreaFactorOrBasis => 2,
        }
    }
}

// As `fault 2`.
impl Display for SettingsFault {
    ghost use Rattle.std.specs.Prelude.{Some};
    ghost use Rattle.calendar.specs.Faults.{fault_text};
    ghost use Rattle.stack.specs.Settings.{fault_number};

    ghost output = { λ f. Some (fault_text (fault_number f)) };

    fn fmt<W: Write>(&self, f: &mut Formatter<W>) -> Result<(), fmt::Error> {
        write!(f, "fault {}", self.number())
    }
}

impl Error for SettingsFault {}

// The basis that a letter stands for: W or D.
impl TryFrom<char> for Basis {
    ghost use Rattle.std.specs.Prelude.{◌≡◌};
    ghost use Rattle.std.specs.Option.{ok_or};
    ghost use Rattle.stack.specs.declared.settings.SettingsFault.TheVariants.{AreaFactorOrBasis};
    ghost use Rattle.stack.specs.Settings.{basis_of};

    type Error = SettingsFault;

    ghost try_from_gives = { λ c r. r ≡ ok_or (basis_of c) AreaFactorOrBasis };

    fn try_from(letter: char) -> Result<Basis, SettingsFault> {
        match letter {
            'W' => Ok(Basis::Wet),
            'D' => Ok(Basis::Dry),
            _ => Err(SettingsFault::AreaFactorOrBasis),
        }
    }
}

impl Basis {
    ghost use Rattle.stack.specs.Settings.{letter_of};

    // Named, as that of a mark: a bare `char` does not say that it is the letter.
    pub fn letter(self) -> char
        ensures { result ≡ letter_of self }
    {
        match self {
            Basis::Wet => 'W',
            Basis::Dry => 'D',
        }
    }
}

impl StackSettings {
    ghost use Rattle.stack.specs.Settings.{SettingsOf};

    // Settings with these values, or fault 2. (They are what the struct is made of: no other holds them before.)
    pub fn of(area: u16, speed_factor: u16, basis: char) -> Result<StackSettings, SettingsFault>
        ensures { SettingsOf (record { area = area; speed_factor = speed_factor; basis = basis }) result }
    {
        let basis = Basis::try_from(basis)?;
        if !(1..=20_000).contains(&area) || !(1..=20_000).contains(&speed_factor) {
            return Err(SettingsFault::AreaFactorOrBasis);
        }
        Ok(StackSettings {
            area,
            speed_factor,
            basis,
        })
    }
}
