//! The note of what is found, for standard error: of a stream that is stuck which call ended there, and which replies
//! were possible; and else why it is not judged further.

ghost use Rattle.std.specs.Prelude.{◌≡◌, ℕ, IfOk, List, Some, string_bytes};
ghost use Rattle.stamped_watch.specs.declared.finding.Finding.TheVariants.{Stuck};
ghost use Rattle.stamped_watch.specs.Note.{IsNote, IsStuckNote, end_text, ended_text, late_text, stuck_text, within_text};
ghost use Rattle.stamped_watch.specs.Possible.{items_in};
ghost use Rattle.stamped_watch.specs.StreamJudge.{EndsInStream, KeepsCall, KeepsEndAt, KeepsFed, KeepsFedSome};

use crate::finding::Finding;
use crate::orders::Watching;
use crate::possible::possible_text;
use crate::stream_judge::StreamJudge;
use crate::stuck_end::StuckEnd;
use stamp_core::Reply;
use stamp_watch::EndedCall;
use std::alloc::{AllocError, Global};
use std::fmt;

/// How a call ended.
#[derive(Drop)]
struct EndText(Option<Reply>);

impl fmt::Display for EndText {
    ghost output = { λ text. Some (end_text text.0) };

    fn fmt<W: fmt::Write>(&self, f: &mut fmt::Formatter<W>) -> fmt::Result {
        match self.0 {
            Some(reply) => write!(f, "answered {reply}"),
            None => write!(f, "was withdrawn"),
        }
    }
}

/// Which call ends at the event at which a stream is stuck, and how.
fn ended_text(alloc: Global, event: u64, ended: &EndedCall) -> Result<String, AllocError>
    ensures { IfOk result (λ text. string_bytes text ≡ ended_text event ended.now) }
{
    let lane = ended.lane;
    let call = ended.call;
    let end = EndText(ended.reply);
    format!(in alloc; "stamped_watch: event {event}, lane {lane}: {call} {end}")
}

/// The same, and which replies were possible, as far as is told.
fn stuck_text(
    alloc: Global,
    event: u64,
    ended: &EndedCall,
    replies: &Option<Vec<Reply>>,
) -> Result<String, AllocError>
    ensures { IfOk result (λ text. string_bytes text ≡ stuck_text event ended.now (items_in replies.now)) }
{
    let mut text = ended_text(alloc, event, ended)?;
    if let Some(replies) = replies {
        text.push_str(&possible_text(alloc, replies.as_slice())?)?;
    }
    Ok(text)
}

/// That no order explains the run, where it is undecided at which event it is stuck.
fn within_text(alloc: Global) -> Result<String, AllocError>
    ensures { IfOk result (λ text. string_bytes text ≡ within_text) }
{
    String::from_str(
        alloc,
        "stamped_watch: no order explains the run; from which event on is undecided",
    )
}

/// That a call was open for long, which began late.
fn late_text(alloc: Global, ahead: usize) -> Result<String, AllocError>
    ensures { IfOk result (λ text. string_bytes text ≡ late_text ahead) }
{
    format!(in alloc;
        "stamped_watch: a call was open for nearly {ahead} events; a larger --ahead may tell more"
    )
}

/// The note of a stream that is stuck at the event with this number: which call ends there, and which replies it could
/// have had.
fn stuck_note(alloc: Global, judge: &StreamJudge, number: u64) -> Result<String, AllocError>
    requires keeps { KeepsFedSome judge.now }
    requires end { KeepsEndAt judge.now.judge number }
    ensures { IfOk result (λ text. (most ahead : ℕ) (fed : List ℕ) → KeepsFed most ahead fed judge.now
        → EndsInStream fed judge.now.judge (Stuck number) → IsStuckNote most ahead fed number (string_bytes text)) }
{
    let StuckEnd { ended, replies } = judge.stuck_at(number)?;
    stuck_text(alloc, number, &ended, &replies)
}

/// The note of what was found, if one is due.
pub(crate) fn note_of(
    alloc: Global,
    asked: Watching,
    finding: &Finding,
    judge: &StreamJudge,
) -> Result<Option<String>, AllocError>
    requires keeps { KeepsFedSome judge.now }
    requires end { KeepsCall judge.now.judge finding.now }
    ensures { (fed : List ℕ) → KeepsFed asked.most asked.ahead fed judge.now → EndsInStream fed judge.now.judge finding.now
        → IsNote asked fed finding.now result }
{
    match finding {
        Finding::Stuck(event) => Ok(Some(stuck_note(alloc, judge, *event)?)),
        Finding::StuckWithin(_, _) => Ok(Some(within_text(alloc)?)),
        Finding::Late(_) => Ok(Some(late_text(alloc, asked.ahead)?)),
        _ => Ok(None),
    }
}
