// A minute's reading as it comes from outside, and as it is accepted.
ghost use Rattle.std.specs.Prelude.{◌≡◌, true};
ghost use Rattle.stack.specs.Marks.{valid};
ghost use Rattle.stack.specs.Quantities.{in_range};

use crate::marks::{Mark, MarkFault};
use crate::quantities::Quantities;
use std::error::Error;
use std::fmt;
use std::fmt::{Display, Formatter, Write};

// A mark's letter and six numbers, unchecked.
#[derive(Clone, Copy)]
pub struct RawReading {
    pub mark: char,
    pub quantities: Quantities,
}

// A mark and the six numbers as they came. With the mark `Valid` they are in range.
#[derive(Clone, Copy)]
pub struct Reading {
    pub mark: Mark,
    pub quantities: Quantities,
    ghost in_range: { (valid mark ≡ true → in_range quantities ≡ true) },
}

// Why a reading is refused.
#[derive(Clone, Copy, PartialEq, Eq, Debug)]
pub enum ReadingFault {
    // Fault 13.
    Mark(MarkFault),
    // Fault 14: a number of a valid reading is out of its range.
    OutOfRange,
}

// A `match` of its own, as each fault type has.
impl ReadingFault {
    ghost use Rattle.stack.specs.Readings.{fault_number};

    pub fn number(self) -> u8
        ensures { result ≡ fault_number self }
    {
        match self {
            ReadingFault::Mark(fault) => fault.number(),
            ReadingFault::OutOfRange => 14,
        }
    }
}

// As `fault 14`.
impl Display for ReadingFault {
    ghost use Rattle.std.specs.Prelude.{Some};
    ghost use Rattle.calendar.specs.Faults.{fault_text};
    ghost use Rattle.stack.specs.Readings.{fault_number};

    ghost output = { λ f. Some (fault_text (fault_number f)) };

    fn fmt<W: Write>(&self, f: &mut Formatter<W>) -> Result<(), fmt::Error> {
        write!(f, "fault {}", self.number())
    }
}

impl Error for ReadingFault {}

// By hand, as that of `HourFault`: a derived `From` would not promise what it gives.
impl From<MarkFault> for ReadingFault {
    ghost use Rattle.std.specs.Prelude.{◌≡◌};
    ghost use Rattle.stack.specs.declared.readings.ReadingFault.TheVariants.{Mark as UnknownMark};

    ghost from_gives = { λ f r. r ≡ UnknownMark f };

    fn from(unknown: MarkFault) -> ReadingFault {
        ReadingFault::Mark(unknown)
    }
}

// The reading with the mark and the numbers that came, or the first fault: the mark is judged first, then the numbers
// of a valid one.
impl TryFrom<RawReading> for Reading {
    ghost use Rattle.stack.specs.Readings.{ReadingOf};

    type Error = ReadingFault;

    ghost try_from_gives = { ReadingOf };

    fn try_from(raw: RawReading) -> Result<Reading, ReadingFault> {
        let mark = Mark::try_from(raw.mark)?;
        let quantities = raw.quantities;
        if mark.is_valid() && !quantities.in_range() {
            return Err(ReadingFault::OutOfRange);
        }
        Ok(Reading { mark, quantities })
    }
}
