// The stack part: minute readings with their marks, stack hours of sixty readings, the settings of a stack,
// and the working from the valid minutes of an interval or an hour to grams of CO2.
#![tactic(auto)]

// The modules that declare public types or traits are public too.
mod held_laws;
pub mod hours;
pub mod marks;
pub mod means;
pub mod quantities;
pub mod readings;
pub mod settings;
pub mod steps;
mod sums;
pub mod working;

pub use calendar::Span;
pub use held_laws::{hour_laws, mark_laws, reading_laws, settings_laws, working_laws};
pub use hours::{HourFault, MinuteFault, StackHour};
pub use marks::{Mark, MarkFault};
pub use means::Means;
pub use quantities::Quantities;
pub use readings::{RawReading, Reading, ReadingFault};
pub use settings::{Basis, SettingsFault, StackSettings};
pub use steps::Steps;
pub use working::HourRecord;
