// The laws of the stack part, each held by the contract of a function that has no code.
ghost use Rattle.stack.specs.Marks.{MarkLaws};
ghost use Rattle.stack.specs.Readings.{ReadingLaws};
ghost use Rattle.stack.specs.Hours.{HourLaws};
ghost use Rattle.stack.specs.Settings.{SettingsLaws};
ghost use Rattle.stack.specs.Working.{WorkingLaws};

// Each mark has a letter of its own, and no other letter stands for one.
#[tactic(auto, using(crate::proofs::Laws::mark_laws))]
pub fn mark_laws()
    ensures { MarkLaws }
{}

// An accepted reading is accepted again, and is the only one that came so.
#[tactic(auto, using(crate::proofs::Laws::reading_laws))]
pub fn reading_laws()
    ensures { ReadingLaws }
{}

// Which minute a fault names, and that an accepted hour is accepted again.
#[tactic(auto, using(crate::proofs::Laws::hour_laws))]
pub fn hour_laws()
    ensures { HourLaws }
{}

// Lawful settings are made again, and are the only ones with their values.
#[tactic(auto, using(crate::proofs::Laws::settings_laws))]
pub fn settings_laws()
    ensures { SettingsLaws }
{}

// Ranges of means, limits of figures, and that wet gas keeps its water.
#[tactic(auto, using(crate::proofs::Laws::working_laws))]
pub fn working_laws()
    ensures { WorkingLaws }
{}
