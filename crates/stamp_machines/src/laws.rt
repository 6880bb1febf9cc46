//! What holds of every schedule. Each function does nothing; its contract is the law, over every
//! sound script and every list of at most 1,000,000 steps. `undisturbed_calls_end` is of any words.
ghost use Rattle.stamp_machines.specs.Interference.{StepsBoundedAlways, UnderWayBoundedAlways};
ghost use Rattle.stamp_machines.specs.Undisturbed.{EndsWithinTwo};
ghost use Rattle.stamp_machines.specs.Laws.{LegalAlways, LinearizedAlways, RepresentedAlways};
ghost use Rattle.stamp_machines.specs.Laws.{StampsValidateAlways, GetsAnswerContentAlways};
ghost use Rattle.stamp_machines.specs.Laws.{ReleasesWinAlways};

/// The finished calls are a legal history of the lock and the record, whoever steps when.
pub fn finished_calls_are_legal()
    ensures { LegalAlways }
{}

/// After every step the lock's word represents the finished calls' events. It does so also in the
/// middle of calls.
pub fn the_word_represents_the_history()
    ensures { RepresentedAlways }
{}

/// The finished calls are linearized, and each one's point is its last step.
pub fn finished_calls_are_linearized()
    ensures { LinearizedAlways }
{}

/// A call of the lock that has a transition ends within two accesses when nobody disturbs it. It
/// has its transition's reply, and the lock's word then represents the longer list of events.
pub fn undisturbed_calls_end()
    ensures { EndsWithinTwo }
{}

/// An issued stamp validates exactly while no call that has finished since acquired write mode.
pub fn issued_stamps_validate()
    ensures { StampsValidateAlways }
{}

/// A get answers the words that the calls finished before it leave in the record.
pub fn gets_answer_the_content()
    ensures { GetsAnswerContentAlways }
{}

/// The exchange by which a call of the record releases its write lock always wins.
pub fn releasing_exchanges_win()
    ensures { ReleasesWinAlways }
{}

/// The steps of a lock call that never waits are bounded by others' changes of the word. They are
/// at most two, and one more for each step of another thread between its first and its last that
/// changes the lock's word. While it is under way it has made fewer.
pub fn steps_are_bounded()
    ensures finished { StepsBoundedAlways }
    ensures under_way { UnderWayBoundedAlways }
{}
