//! Laws of what C gets: for each input one answer alone is due. Each function does nothing; its
//! contract is the law, over the definitions alone.
ghost use Rattle.stamped_c.specs.Laws.{OneOpening, OneLimits, OneWord, OneDecision, OneKind};

/// A layout has one opening word.
pub fn one_opening()
    ensures { OneOpening }
{}

/// Limits have one error, or none.
pub fn one_limits()
    ensures { OneLimits }
{}

/// A word has one error, or none.
pub fn one_word()
    ensures { OneWord }
{}

/// A call has one decision on a word.
pub fn one_decision()
    ensures { OneDecision }
{}

/// A number has one kind as a stamp.
#[tactic(auto, using(stamp_core::proofs::OneStampKind::one_kind))]
pub fn one_kind()
    ensures { OneKind }
{}
