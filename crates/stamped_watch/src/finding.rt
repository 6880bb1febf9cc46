//! What is found of a stream.

ghost use Rattle.std.specs.Prelude.{◌≡◌, ◌≢◌, ◌↔◌, IsTrue, MatchOption, Some, ℕ};
ghost use Rattle.stamp_watch.specs.declared.late_verdict.LateVerdict.TheVariants.{Is};
ghost use Rattle.stamp_watch.specs.declared.verdict.Verdict.TheVariants.{Broken, Explained};
ghost use Rattle.stamped_watch.specs.Finding.{IsLateOfForm, IsOfForm, verdict_of};

use crate::event_bytes::BadEvent;
use crate::header::BadHeader;
use crate::misplaced::Misplaced;
use stamp_watch::{LateVerdict, Verdict, Why};

/// What is found of a stream. Its events are numbered from 0.
#[derive(Clone, Copy, Debug, PartialEq, Eq)]
pub(crate) enum Finding {
    /// It is a header and events, which are explained. So many calls began and were not withdrawn.
    Explained(u64),
    /// It is explained before the event with this number, and not with it.
    Stuck(u64),
    /// It is explained before the event with the first number, and not before that with the second: it is stuck at the
    /// first or between them.
    StuckWithin(u64, u64),
    /// It is explained before the event with this number. For this cause it is not judged further.
    Undecided(u64, Why),
    /// It is explained before the event with this number. A call that was open for long began late, and it isn't shown
    /// that nothing is lost by that.
    Late(u64),
    /// It is explained before the event with this number, which may not come there, for this cause.
    Misplaced(u64, Misplaced),
    /// It is explained before the event with this number, whose bytes are no event, for this cause.
    BadEvent(u64, BadEvent),
    /// It is explained before the event with this number, and ends within that.
    Cut(u64),
    /// It begins with no header, for this cause.
    BadHeader(BadHeader),
    /// It ends within the header.
    NoHeader,
    /// It has more events than can be numbered.
    Full,
}

/// Whether the verdict is that the events are explained.
pub(crate) fn is_explained(verdict: LateVerdict) -> bool
    ensures { IsTrue result ↔ (verdict ≡ Is Explained) }
{
    matches!(verdict, LateVerdict::Is(Verdict::Explained))
}

/// The event that may not come where it comes, if the verdict is that.
pub(crate) fn broken_at(verdict: LateVerdict) -> Option<u64>
    ensures { MatchOption result ((k : ℕ) → verdict ≢ Is (Broken k)) (λ k. verdict ≡ Is (Broken k)) }
{
    match verdict {
        LateVerdict::Is(Verdict::Broken(number)) => Some(number),
        _ => None,
    }
}

/// The verdict on events in form that are not all explained, as what is found, where no call began late.
fn plain_finding_of(verdict: Verdict) -> Finding
    requires { IsOfForm verdict }
    ensures { verdict_of result ≡ Some (Is verdict) }
{
    match verdict {
        Verdict::Stuck(number) => Finding::Stuck(number),
        Verdict::StuckWithin(number, end) => Finding::StuckWithin(number, end),
        Verdict::Undecided(number, why) => Finding::Undecided(number, why),
        Verdict::Explained | Verdict::Broken(_) => unreachable!(),
    }
}

/// The verdict on events in form that are not all explained, as what is found.
pub(crate) fn finding_of(verdict: LateVerdict) -> Finding
    requires { IsLateOfForm verdict }
    ensures { verdict_of result ≡ Some verdict }
{
    match verdict {
        LateVerdict::Is(verdict) => plain_finding_of(verdict),
        LateVerdict::Late(number) => Finding::Late(number),
    }
}
