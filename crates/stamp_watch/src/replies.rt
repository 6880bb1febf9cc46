//! The replies that a call of an observed history could have had.
ghost use Rattle.std.specs.Prelude.{◌≡◌, ◌<◌, ◌↔◌, ◌++◌, ◌∷◌, [], ℕ, IfOk, OnOk, IsTrue, Err, Some, length, slice_get};
ghost use Rattle.stamp_explain.specs.Observed.{IsObserved, IsReturnAt};
ghost use Rattle.stamp_explain.specs.Possible.{AreAllPossible, ArePossible, IsPossible};
ghost use Rattle.stamp_watch.specs.Names.{AreContents, IsGrown, StaysWide};
ghost use Rattle.stamp_watch.specs.Replies.{IsUndecidedAtAny, IsUndecidedAtReply, IsUndecidedAtSome};
ghost use Rattle.stamp_watch.specs.inner.Trial.{AreFound, IsFoundOrNone, IsTrialAt, IsTrialOf, IsTrialOrNone, words_beside};

use crate::candidates::candidates;
use crate::moments::moments_of;
use crate::named_run::{is_known_reply, names_for, numbered_run, place_of};
use crate::names::Names;
use crate::possible::reply_at;
use crate::trial::Trial;
use stamp_core::Reply;
use stamp_explain::Observed;
use stamp_sets::SmallReply;
use std::alloc::{AllocError, Global};
use std::error::Error;
use std::fmt;

/// Why it isn't told which replies are possible. Nothing is kept after either.
#[derive(Clone, Copy, Debug, PartialEq, Eq)]
pub enum PossibleError {
    /// 1: with a reply that is tried more positions are possible than are kept.
    Undecided,
    /// 2: an allocation was refused.
    Memory,
}

impl fmt::Display for PossibleError {
    ghost use Rattle.std.specs.Prelude.{Some};
    ghost use Rattle.stamp_watch.specs.Replies.{possible_error_text};

    ghost output = { λ e. Some (possible_error_text e) };

    fn fmt<W: fmt::Write>(&self, f: &mut fmt::Formatter<W>) -> fmt::Result {
        match self {
            PossibleError::Undecided => write!(f, "the possible replies are undecided"),
            PossibleError::Memory => write!(f, "out of memory"),
        }
    }
}

impl Error for PossibleError {}

impl From<AllocError> for PossibleError {
    ghost use Rattle.stamp_watch.specs.declared.replies.PossibleError.TheVariants.{Memory};

    ghost from_gives = { λ _ e. e ≡ Memory };

    fn from(_refused: AllocError) -> PossibleError {
        PossibleError::Memory
    }
}

/// The run up to the return of this entry, where replies are tried. Nothing where no reply is possible there: a return
/// before it tells a content that the record can't hold.
fn trial_at(
    alloc: Global,
    names: &mut Names,
    observed: &Observed,
    entry: usize,
    most: u64,
) -> Result<Option<Trial>, AllocError>
    requires observed { IsObserved observed.now }
    requires returned { IsReturnAt observed.now.entries entry }
    requires contents { AreContents (words_beside observed.now.width) names.old }
    ensures trial { IfOk result (IsTrialOrNone observed.now entry most names.new) }
{
    let held = moments_of(alloc, observed)?;
    let moments = held.as_slice();
    let begins = place_of(moments, entry, false);
    let place = place_of(moments, entry, true);
    let lane = observed.entries()[entry].thread as u8;
    let run = numbered_run(alloc, names, observed, &moments[..place])?;
    if run.len() < place {
        return Ok(None);
    }
    let trial = Trial::new(alloc, observed.limits(), run, lane, begins, most)?;
    Ok(Some(trial))
}

/// Whether the call could have had this reply, which is added to the names.
fn is_possible(
    observed: &Observed,
    trial: &Trial,
    names: &mut Names,
    reply: &Reply,
) -> Result<bool, PossibleError>
    requires { IsTrialOf observed.now names.old trial.now }
    ensures possible { IfOk result (λ b. (i most : ℕ) → IsTrialAt observed.now i most names.old trial.now
        → IsTrue b ↔ IsPossible observed.now i reply.now) }
    ensures undecided { result ≡ Err PossibleError.Undecided
        → (i most : ℕ) → IsTrialAt observed.now i most names.old trial.now
        → IsUndecidedAtReply observed.now i most reply.now }
    ensures grows { IsGrown names.old names.new }
    ensures wide { StaysWide names.old names.new }
{
    if !is_known_reply(observed.width(), reply) {
        return Ok(false);
    }
    let Some(small) = names.reply(reply)? else {
        unreachable!();
    };
    match trial.is_possible(small)? {
        Some(answer) => Ok(answer),
        None => Err(PossibleError::Undecided),
    }
}

fn tried_at(replies: &[Reply], place: usize) -> Reply
    requires { place < length replies.now }
    ensures { slice_get replies.now place ≡ Some result }
{
    replies[place]
}

/// One reply more.
fn push(replies: &mut Vec<Reply>, reply: Reply) -> Result<(), AllocError>
    ensures { OnOk result (replies.new.items ≡ replies.old.items ++ reply ∷ []) }
{
    replies.push(reply)?;
    Ok(())
}

/// Which of these replies the call of this entry could have had. With such a one instead of its own, the cut with its
/// return is explained. Replies that are all different are answered once each, in no promised order. Each is tried by
/// judging the history from the call's beginning up to its return. Refuses as 1 `Undecided`, where with one of them more
/// than `most` different positions are possible before some event, or 2 `Memory`, where an allocation was refused.
pub fn possible_among(
    alloc: Global,
    observed: &Observed,
    entry: usize,
    replies: &[Reply],
    most: u64,
) -> Result<Vec<Reply>, PossibleError>
    requires observed { IsObserved observed.now }
    requires returned { IsReturnAt observed.now.entries entry }
    ensures possible { IfOk result (λ found. ArePossible observed.now entry replies.now found.items) }
    ensures undecided { result ≡ Err PossibleError.Undecided
        → IsUndecidedAtSome observed.now entry most replies.now }
{
    let mut found = Vec::new(alloc);
    let mut names = names_for(alloc, observed)?;
    let Some(trial) = trial_at(alloc, &mut names, observed, entry, most)? else {
        return Ok(found);
    };
    for (k, _) in replies.iter().enumerate() {
        let reply = tried_at(replies, k);
        if is_possible(observed, &trial, &mut names, &reply)? {
            push(&mut found, reply)?;
        }
    }
    Ok(found)
}

/// The reply with this number among the names, if there is one that the call could have had.
fn possible_in_words(
    observed: &Observed,
    trial: &Trial,
    names: &Names,
    small: SmallReply,
) -> Result<Option<Reply>, PossibleError>
    requires { IsTrialOf observed.now names.now trial.now }
    ensures found { IfOk result (λ found. (i most : ℕ) → IsTrialAt observed.now i most names.now trial.now
        → IsFoundOrNone observed.now i names.now small found) }
    ensures undecided { result ≡ Err PossibleError.Undecided
        → (i most : ℕ) → IsTrialAt observed.now i most names.now trial.now
        → IsUndecidedAtAny observed.now i most }
{
    let Some(reply) = names.told_as(small) else {
        return Ok(None);
    };
    if !is_known_reply(observed.width(), &reply) {
        return Ok(None);
    }
    match trial.is_possible(small)? {
        Some(true) => Ok(Some(reply)),
        Some(false) => Ok(None),
        None => Err(PossibleError::Undecided),
    }
}

/// The replies with these numbers that the call could have had.
fn possible_tried(
    alloc: Global,
    observed: &Observed,
    trial: &Trial,
    names: &Names,
    tried: &[SmallReply],
) -> Result<Vec<Reply>, PossibleError>
    requires { IsTrialOf observed.now names.now trial.now }
    ensures found { IfOk result (λ found. (i most : ℕ) → IsTrialAt observed.now i most names.now trial.now
        → AreFound observed.now i names.now tried.now found.items) }
    ensures undecided { result ≡ Err PossibleError.Undecided
        → (i most : ℕ) → IsTrialAt observed.now i most names.now trial.now
        → IsUndecidedAtAny observed.now i most }
{
    let mut found = Vec::new(alloc);
    for (k, _) in tried.iter().enumerate() {
        let small = reply_at(tried, k);
        if let Some(reply) = possible_in_words(observed, trial, names, small)? {
            push(&mut found, reply)?;
        }
    }
    Ok(found)
}

/// All replies that the call of this entry could have had, each once, in no promised order. With such a one instead of
/// its own, and with no other, the cut with its return is explained. There is none where it would have waited, or where
/// the cut before its return is not explained. Refuses as `possible_among` does.
pub fn possible_at(
    alloc: Global,
    observed: &Observed,
    entry: usize,
    most: u64,
) -> Result<Vec<Reply>, PossibleError>
    requires observed { IsObserved observed.now }
    requires returned { IsReturnAt observed.now.entries entry }
    ensures possible { IfOk result (λ found. AreAllPossible observed.now entry found.items) }
    ensures undecided { result ≡ Err PossibleError.Undecided → IsUndecidedAtAny observed.now entry most }
{
    let mut names = names_for(alloc, observed)?;
    let Some(trial) = trial_at(alloc, &mut names, observed, entry, most)? else {
        return Ok(Vec::new(alloc));
    };
    let events = trial.events.as_slice();
    let held = candidates(alloc, observed.limits(), events, trial.lane)?;
    possible_tried(alloc, observed, &trial, &names, held.as_slice())
}
