//! A small history that is stuck where a run is: a witness of that.

ghost use Rattle.std.specs.Prelude.{◌≡◌, ◌≢◌, ◌<◌, ◌++◌, ◌∷◌, [], IfOk, None, Some, length, min};
ghost use Rattle.stamped_watch.specs.declared.witness.NoWitness.TheVariants.{Memory};
ghost use Rattle.stamp_observed.specs.ObservedText.{observed_text};
ghost use Rattle.stamp_watch.specs.Course.{KeepsEnd};
ghost use Rattle.stamp_watch.specs.Possible.{KeepsSome};
ghost use Rattle.stamp_watch.specs.Start.{starts_of};
ghost use Rattle.stamped_watch.specs.Calls.{ended_call, return};
ghost use Rattle.stamped_watch.specs.Witness.{IsCallOf, IsTextHere, content_at, lack_of};
ghost use Rattle.stamped_watch.specs.inner.Witness.{IsSearchedFrom, IsSearchedHere, IsStateAt};

use crate::begun::Calls;
use crate::in_words::in_words;
use crate::run_judge::RunJudge;
use stamp_cli::Lack;
use stamp_core::{Reply, Words};
use stamp_explain::{Observation, Observed, Returned};
use stamp_observed::{SearchEnd, Sought, State, small_behind, write_observed};
use stamp_watch::{EndedCall, Judge};
use std::alloc::{AllocError, AllocFailed, Global};

/// So many starts are tried at most.
const MOST_STARTS: usize = 64;

/// Where a witness is sought so many positions are kept at most.
const MOST_SEARCHED: u64 = 16_384;

/// Why there is no witness.
#[derive(Drop)]
pub enum NoWitness {
    /// A call that begins no later than at the event began late.
    BeganLate,
    /// The call that ends there was withdrawn.
    Withdrawn,
    /// None was found, from each of these starts.
    NotFound(Vec<Sought>),
    /// Memory for it was refused.
    Memory,
}

/// What is done for a witness.
#[derive(Clone, Copy)]
pub enum Shown {
    /// Nothing: none is asked for, or the stream isn't stuck.
    NotDue,
    /// One was given to its sink.
    Given,
}

impl From<AllocError> for NoWitness {
    ghost from_gives = { λ _ why. why ≡ Memory };

    fn from(_refused: AllocError) -> NoWitness {
        NoWitness::Memory
    }
}

impl<T: Drop> From<AllocFailed<T>> for NoWitness {
    ghost from_gives = { λ _ why. why ≡ Memory };

    fn from(_refused: AllocFailed<T>) -> NoWitness {
        NoWitness::Memory
    }
}

/// Why there is no witness, if one was due.
pub(crate) fn lack_of(shown: &Result<Shown, NoWitness>) -> Option<Lack>
    ensures { result ≡ lack_of shown.now }
{
    match shown {
        Ok(_) => None,
        Err(NoWitness::BeganLate) => Some(Lack::BeganLate),
        Err(NoWitness::Withdrawn) => Some(Lack::Withdrawn),
        Err(NoWitness::NotFound(_)) => Some(Lack::NotFound),
        Err(NoWitness::Memory) => Some(Lack::Memory),
    }
}

/// The call that ended with this reply, as an observer tells it.
fn observed_call(ended: &EndedCall, reply: Reply, first: u64, last: u64) -> Observation
    requires { ended.now.reply ≡ Some reply }
    ensures call { IsCallOf ended.now result }
    ensures told { result ≡ ended_call ended.now first (return last reply) }
{
    Observation {
        thread: ended.lane,
        call: ended.call,
        first,
        returned: Some(Returned { last, reply }),
    }
}

/// What the record holds at a start, in a stream with data.
fn content_at(run: &RunJudge, judge: &Judge, start: usize) -> Option<Words>
    ensures { result ≡ content_at run.now judge.now start }
{
    match (run.width, judge.content_at(start)) {
        (Some(_), Some(number)) => run.names.words_at(number),
        _ => None,
    }
}

/// What lock and record are in at a start.
fn state_at(run: &RunJudge, judge: &Judge, start: usize) -> State
    requires keeps { KeepsSome judge.now }
    requires start { start < starts_of judge.now.course.base }
    ensures { IsStateAt run.now judge.now start result }
{
    let Some(bits) = judge.word_at(start) else {
        unreachable!();
    };
    let Some(word) = judge.limits().word_from_bits(bits) else {
        unreachable!();
    };
    State {
        word,
        content: content_at(run, judge, start),
    }
}

/// A witness that begins at this start is sought: stuck at the call that ended so at the event with this number, which
/// the judge keeps. The call is told in words.
fn witness_from(
    alloc: Global,
    run: &RunJudge,
    judge: &Judge,
    start: usize,
    number: u64,
    ended: &EndedCall,
    most: u64,
) -> Result<SearchEnd, AllocError>
    requires keeps { KeepsSome judge.now }
    requires start { start < starts_of judge.now.course.base }
    requires end { KeepsEnd judge.now.course number }
    requires reply { ended.now.reply ≢ None }
    ensures { IfOk result (λ end. IsSearchedFrom run.now judge.now number ended.now most start end) }
{
    let Some(reply) = ended.reply else {
        unreachable!();
    };
    let state = state_at(run, judge, start);
    let events = judge.kept_events();
    let place = (number - judge.first_kept()) as usize;
    let before = &events[..place.min(events.len())];
    let mut calls = Calls::at_start(alloc, judge, start)?;
    calls.push_all(before)?;
    let first = calls.take(ended.lane).unwrap_or(0);
    let call = observed_call(ended, reply, first, before.len() as u64 + 1);
    let by_number = calls.observations(alloc)?;
    let others = in_words(alloc, &run.names, by_number.as_slice())?;
    let width = run.width.unwrap_or(0) as u64;
    small_behind(alloc, judge.limits(), width, &state, others, &call, most)
}

/// The first witness that is found from one of the starts.
fn any_witness(
    alloc: Global,
    run: &RunJudge,
    judge: &Judge,
    number: u64,
    ended: &EndedCall,
    most: u64,
) -> Result<Observed, NoWitness>
    requires keeps { KeepsSome judge.now }
    requires end { KeepsEnd judge.now.course number }
    requires reply { ended.now.reply ≢ None }
    ensures { IsSearchedHere run.now judge.now number ended.now most result }
{
    let mut in_vain = Vec::new(alloc);
    for start in 0..judge.starts().min(MOST_STARTS) {
        match witness_from(alloc, run, judge, start, number, ended, most)? {
            SearchEnd::Small(small) => return Ok(small),
            SearchEnd::NotFound(sought) => in_vain.push(sought)?,
        }
    }
    Err(NoWitness::NotFound(in_vain))
}

/// A witness that the run is stuck at the event with this number: a small history that is stuck at the call which ends
/// there. It begins where the events begin that the judge keeps. A run that is stuck there is so from one of the starts.
/// There is none of a call that was withdrawn, and none may be found from the first 64 starts: no more than `most`
/// positions are kept, nor than 16,384.
fn witness_of(
    alloc: Global,
    run: &RunJudge,
    judge: &Judge,
    number: u64,
    ended: &EndedCall,
    most: u64,
) -> Result<Observed, NoWitness>
    requires keeps { KeepsSome judge.now }
    requires end { KeepsEnd judge.now.course number }
    ensures { IsSearchedHere run.now judge.now number ended.now (min most 16384) result }
{
    if ended.reply.is_none() {
        return Err(NoWitness::Withdrawn);
    }
    any_witness(alloc, run, judge, number, ended, most.min(MOST_SEARCHED))
}

/// An observed history as a text of one line, with its line feed.
fn line_of(alloc: Global, small: &Observed) -> Result<Vec<u8>, AllocError>
    ensures { IfOk result (λ text. text.items ≡ observed_text small.now ++ 10 ∷ []) }
{
    let mut text = match write_observed(alloc, small) {
        Ok(text) => text,
        Err(_) => return Err(AllocError),
    };
    text.push(b'\n')?;
    Ok(text)
}

/// Such a witness as a text.
pub(crate) fn witness_text(
    alloc: Global,
    run: &RunJudge,
    judge: &Judge,
    number: u64,
    ended: &EndedCall,
    most: u64,
) -> Result<Vec<u8>, NoWitness>
    requires keeps { KeepsSome judge.now }
    requires end { KeepsEnd judge.now.course number }
    ensures { IsTextHere run.now judge.now number ended.now (min most 16384) result }
{
    let small = witness_of(alloc, run, judge, number, ended, most)?;
    Ok(line_of(alloc, &small)?)
}
