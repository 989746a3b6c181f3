// The mark of a reading or a weighing: valid, or the invalid period that it falls into.
ghost use Rattle.std.specs.Prelude.{◌≡◌, Some};
ghost use Rattle.calendar.specs.Faults.{fault_text};
ghost use Rattle.stack.specs.Marks.{valid, letter_of, mark_of, fault_number};

// The call that holds the laws of marks is found here too.
pub use crate::held_laws::mark_laws;
use std::error::Error;
use std::fmt;
use std::fmt::{Display, Formatter, Write};

// The eight invalid periods are those of clause 7.1.2, in its order.
#[derive(Clone, Copy, PartialEq, Eq, Debug)]
pub enum Mark {
    Valid,
    Breakdown,
    Repair,
    NoQualityControl,
    CalibrationOverdue,
    OutOfSpecification,
    PlannedMaintenance,
    Calibration,
    OutOfControl,
}

// Why a mark is refused.
#[derive(Clone, Copy, PartialEq, Eq, Debug)]
pub enum MarkFault {
    // Fault 13: the letter is none of the nine.
    Unknown,
}

// A `match` of its own, as each fault type has.
impl MarkFault {
    pub fn number(self) -> u8
        ensures { result ≡ fault_number self }
    {
        match self {
            MarkFault::Unknown => 13,
        }
    }
}

// As `fault 13`.
impl Display for MarkFault {
    ghost output = { λ f. Some (fault_text (fault_number f)) };

    fn fmt<W: Write>(&self, f: &mut Formatter<W>) -> Result<(), fmt::Error> {
        write!(f, "fault {}", self.number())
    }
}

impl Error for MarkFault {}

// The mark that a letter stands for. Small letters are none.
impl TryFrom<char> for Mark {
    type Error = MarkFault;

    ghost try_from_gives = { λ c r. r ≡ mark_of c };

    fn try_from(letter: char) -> Result<Mark, MarkFault> {
        match letter {
            'V' => Ok(Mark::Valid),
            'B' => Ok(Mark::Breakdown),
            'R' => Ok(Mark::Repair),
            'Q' => Ok(Mark::NoQualityControl),
            'O' => Ok(Mark::CalibrationOverdue),
            'S' => Ok(Mark::OutOfSpecification),
            'P' => Ok(Mark::PlannedMaintenance),
            'C' => Ok(Mark::Calibration),
            'L' => Ok(Mark::OutOfControl),
            _ => Err(MarkFault::Unknown),
        }
    }
}

impl Mark {
    // Named, and no `From<Mark> for char`: a bare `char` does not say that it is the letter.
    pub fn letter(self) -> char
        ensures { result ≡ letter_of self }
    {
        match self {
            Mark::Valid => 'V',
            Mark::Breakdown => 'B',
            Mark::Repair => 'R',
            Mark::NoQualityControl => 'Q',
            Mark::CalibrationOverdue => 'O',
            Mark::OutOfSpecification => 'S',
            Mark::PlannedMaintenance => 'P',
            Mark::Calibration => 'C',
            Mark::OutOfControl => 'L',
        }
    }

    pub fn is_valid(self) -> bool
        ensures { result ≡ valid self }
    {
        matches!(self, Mark::Valid)
    }
}
