// The two lengths of time that records are of.
ghost use Rattle.std.specs.Prelude.{◌≡◌};
ghost use Rattle.calendar.specs.Spans.{places_a_day};

// What a place of a term is, and what a figure covers: an interval of 15 minutes, or an hour.
#[derive(Clone, Copy, PartialEq, Eq, Debug)]
pub enum Span {
    Interval,
    Hour,
}

impl Span {
    // How many of them a day has.
    pub fn places_a_day(self) -> usize
        ensures { result ≡ places_a_day self }
    {
        match self {
            Span::Interval => 96,
            Span::Hour => 24,
        }
    }
}
