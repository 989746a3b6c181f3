// The calendar part: rounding of quotients, the units of the quantities, dates from 2000 to 2099,
// and the term of a book with its hours, intervals and months.
#![tactic(auto)]

// The modules that declare public types or traits are public too.
pub mod dates;
mod held_laws;
pub mod months;
pub mod rounding;
pub mod spans;
pub mod terms;
pub mod units;

pub use dates::Date;
pub use held_laws::{date_laws, month_laws, rounding_laws, term_laws};
pub use months::{Month, MonthSpan};
pub use rounding::{Dividend, nearest, nearest_signed, round_up};
pub use spans::Span;
pub use terms::{Term, TermFault};
pub use units::{
    CentimetresPerSecond, Grams, Hectopascals, HundredthsPercent, Kilograms, Litres, Pascals,
    TenthsCelsius,
};
