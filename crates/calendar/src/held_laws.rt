// The laws of this part. Each function holds some of them: it does nothing, and its contract names what is proved.
ghost use Rattle.calendar.specs.Rounding.{NearestLaws, HalfGoesUp, RoundUpLaws};
ghost use Rattle.calendar.specs.Days.{DayLaws};
ghost use Rattle.calendar.specs.Dates.{DateLaws};
ghost use Rattle.calendar.specs.Terms.{TermLaws};
ghost use Rattle.calendar.specs.Months.{MonthLaws};

// The laws of rounding: what callers rest on, where a half goes, and what rounding up means.
#[tactic(auto, using(crate::proofs::Laws::nearest_laws, crate::proofs::Laws::half_goes_up, crate::proofs::Laws::round_up_laws))]
pub fn rounding_laws()
    ensures nearest { NearestLaws }
    ensures half { HalfGoesUp }
    ensures up { RoundUpLaws }
{}

// The laws of days and dates: numbers and dates match one to one, in order, and the day after has the next number.
#[tactic(auto, using(crate::proofs::Laws::day_laws, crate::proofs::Laws::date_laws))]
pub fn date_laws()
    ensures days { DayLaws }
    ensures dates { DateLaws }
{}

// The laws of a term's places: the places of a day follow one another, and so do the days.
#[tactic(auto, using(crate::proofs::Laws::term_laws))]
pub fn term_laws()
    ensures { TermLaws }
{}

// The laws of a term's months: which are touched, and what a whole month's days are.
#[tactic(auto, using(crate::proofs::Laws::month_laws))]
pub fn month_laws()
    ensures { MonthLaws }
{}
