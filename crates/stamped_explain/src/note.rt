//! The note of an observed history: where it is stuck, what the call answered, and what it could have
//! answered; where it is explained, what its calls tried, if that is to be told.

ghost use Rattle.std.specs.Prelude.{◌≡◌, ◌++◌, IfOk, Some, slice_get, string_bytes};
ghost use Rattle.stamp_explain.specs.Observed.{IsObserved, IsReturnAt};
ghost use Rattle.stamped_explain.specs.Finding.{IsFinding};
ghost use Rattle.stamp_observed.specs.Small.{ArePossibleAt};
ghost use Rattle.stamped_explain.specs.Note.{IsNote, IsToldNote, IsStuckNote, answer_text, others_text, entry_text};
ghost use Rattle.stamped_explain.specs.Note.{replies_text, possible_text, stuck_text, unexplained_text};
ghost use Rattle.stamped_explain.specs.inner.Note.{replies_in};

use crate::finding::Finding;
use crate::orders::{Explaining, Told};
use crate::trials::trials_text;
use stamp_core::{Call, Record, Reply};
use stamp_explain::{Observation, Observed};
use stamp_watch::{PossibleError, possible_at};
use std::alloc::{AllocError, Global};
use std::fmt;

/// The replies as texts, each behind a comma.
fn others_text(alloc: Global, replies: &[Reply]) -> Result<String, AllocError>
    ensures { IfOk result (λ text. string_bytes text ≡ others_text replies.now) }
{
    let mut text = String::new(alloc);
    for reply in replies {
        let label = reply.to_string(alloc)?;
        text.push_str(", ")?;
        text.push_str(&label)?;
    }
    Ok(text)
}

/// The replies that were possible, as a text.
fn replies_text(alloc: Global, replies: &[Reply]) -> Result<String, AllocError>
    ensures { IfOk result (λ text. string_bytes text ≡ replies_text replies.now) }
{
    let Some(first) = replies.first() else {
        return format!(in alloc; "; no reply was possible, it would have waited");
    };
    let others = others_text(alloc, &replies[1..])?;
    format!(in alloc; "; possible: {first}{others}")
}

/// What was possible, as a text: these replies, or that it is undecided.
fn possible_text(alloc: Global, replies: &Option<Vec<Reply>>) -> Result<String, AllocError>
    ensures { IfOk result (λ text. string_bytes text ≡ possible_text (replies_in replies.now)) }
{
    match replies {
        None => format!(in alloc; "; what was possible is undecided"),
        Some(replies) => replies_text(alloc, replies.as_slice()),
    }
}

/// Which call it is.
#[derive(Drop)]
struct EntryText(usize, u64);

impl fmt::Display for EntryText {
    ghost output = { λ text. Some (entry_text text.0 text.1) };

    fn fmt<W: fmt::Write>(&self, f: &mut fmt::Formatter<W>) -> fmt::Result {
        write!(f, "stamped_explain: entry {} of thread {}", self.0, self.1)
    }
}

/// What the call answered.
#[derive(Drop)]
struct AnswerText(Call, Reply);

impl fmt::Display for AnswerText {
    ghost output = { λ text. Some (answer_text text.0 text.1) };

    fn fmt<W: fmt::Write>(&self, f: &mut fmt::Formatter<W>) -> fmt::Result {
        write!(f, ": {} answered {}", self.0, self.1)
    }
}

/// What the call answered, and what was possible.
fn stuck_text(
    alloc: Global,
    entry: usize,
    observation: &Observation,
    reply: Reply,
    replies: &Option<Vec<Reply>>,
) -> Result<String, AllocError>
    ensures { IfOk result (λ text. string_bytes text
        ≡ stuck_text entry observation.now reply (replies_in replies.now)) }
{
    let mut text = EntryText(entry, observation.thread).to_string(alloc)?;
    text.push_str(&AnswerText(observation.call, reply).to_string(alloc)?)?;
    text.push_str(&possible_text(alloc, replies)?)?;
    Ok(text)
}

/// The replies that the call of this entry could have had; `None` where that is undecided.
fn replies_at(
    alloc: Global,
    observed: &Observed,
    entry: usize,
    most: u64,
) -> Result<Option<Vec<Reply>>, AllocError>
    requires observed { IsObserved observed.now }
    requires returned { IsReturnAt observed.now.entries entry }
    ensures { IfOk result (λ found. ArePossibleAt observed.now most entry (replies_in found)) }
{
    match possible_at(alloc, observed, entry, most) {
        Ok(replies) => Ok(Some(replies)),
        Err(PossibleError::Undecided) => Ok(None),
        Err(PossibleError::Memory) => Err(AllocError),
    }
}

/// The note of a history that is stuck at the return of this entry.
fn stuck_note(
    alloc: Global,
    observed: &Observed,
    entry: usize,
    most: u64,
) -> Result<String, AllocError>
    requires observed { IsObserved observed.now }
    requires returned { IsReturnAt observed.now.entries entry }
    ensures { IfOk result (λ text. IsStuckNote observed.now most entry (string_bytes text)) }
{
    let observation = &observed.entries()[entry];
    let Some(returned) = &observation.returned else {
        unreachable!();
    };
    let replies = replies_at(alloc, observed, entry, most)?;
    stuck_text(alloc, entry, observation, returned.reply, &replies)
}

/// The note of a history that no order explains, where it is undecided from which return on.
fn unexplained_text(alloc: Global) -> Result<String, AllocError>
    ensures { IfOk result (λ text. string_bytes text ≡ unexplained_text) }
{
    String::from_str(
        alloc,
        "stamped_explain: no order explains the history; from which return on is undecided",
    )
}

/// The note of a history that is explained, by this recorded one: what its calls tried, if that is to be told.
fn told_note(alloc: Global, made: &Record, told: Told) -> Result<Option<String>, AllocError>
    ensures { IsToldNote told made.now result }
{
    match told {
        Told::Nothing => Ok(None),
        Told::Trials => Ok(Some(trials_text(alloc, made.entries())?)),
    }
}

/// The note of what was found, for standard error.
pub(crate) fn note_of(
    alloc: Global,
    observed: &Observed,
    finding: &Finding,
    asked: Explaining,
) -> Result<Option<String>, AllocError>
    requires { IsFinding observed.now asked.most finding.now }
    ensures { IsNote observed.now asked finding.now result }
{
    match finding {
        Finding::Explained(record) => told_note(alloc, record, asked.told),
        Finding::Stuck(entry) => Ok(Some(stuck_note(alloc, observed, *entry, asked.most)?)),
        Finding::StuckWithin(_, _) => Ok(Some(unexplained_text(alloc)?)),
        _ => Ok(None),
    }
}
