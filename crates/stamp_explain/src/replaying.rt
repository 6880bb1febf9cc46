//! The recorded history in which calls take effect in a given order: lock and record are taken through them, and
//! give the reply of each.
ghost use Rattle.std.specs.Prelude.{◌≡◌, ◌≤◌, ◌<◌, [], IfOk};
ghost use Rattle.stamp_core.specs.Content.{zeros};
ghost use Rattle.stamp_core.specs.Word.{IsAdmitted};
ghost use Rattle.stamp_explain.specs.Explained.{IsOrderIn};
ghost use Rattle.stamp_explain.specs.Observed.{IsObserved};
ghost use Rattle.stamp_explain.specs.Points.{HasPoints};
ghost use Rattle.stamp_explain.specs.inner.Points.{IsLinearizationOf};
ghost use Rattle.stamp_explain.specs.inner.Replaying.{IsStateAfter, RecordAnswers, Takes};

use crate::observed::Observed;
use crate::points::{OrderedCall, recorded_with_points};
use stamp_core::{Call, Limits, Record, Reply, Word, Words, transition};
use std::alloc::{AllocError, Global};

/// What lock and record are in between two calls.
#[derive(Clone, Copy)]
struct State {
    /// The lock's word.
    word: Word,
    /// What the record holds. Without a record it is one zero, which nothing reads.
    content: Words,
}

/// What a record of this width holds at first; one zero where there is no record.
fn first_content(width: u64) -> Words
    requires { width ≤ 16 }
    ensures { 0 < width → result ≡ zeros width }
{
    if width == 0 {
        Words::zeros(1)
    } else {
        Words::zeros(width as usize)
    }
}

/// What a record holds after a call of it, and the reply; nothing where the call is the lock's.
fn record_answer(content: &Words, call: &Call) -> Option<(Words, Reply)>
    ensures { RecordAnswers content.now call.now result }
{
    match *call {
        Call::Get => Some((*content, Reply::Content(*content))),
        Call::Put(words) => Some((words, Reply::Done)),
        Call::PutIf(expected, words) => {
            if content.is_same(&expected) {
                Some((words, Reply::Yes))
            } else {
                Some((*content, Reply::No))
            }
        }
        _ => None,
    }
}

impl State {
    /// Before the first call.
    fn opening(observed: &Observed) -> State
        ensures { IsStateAfter observed.now.limits observed.now.width [] (zeros observed.now.width)
            result }
    {
        State {
            word: Word::opening_in(observed.limits().layout()),
            content: first_content(observed.width()),
        }
    }

    /// Takes a call, and gives its reply; nothing where the call waits.
    fn take(&mut self, limits: Limits, call: &Call) -> Option<Reply>
        requires { IsAdmitted limits self.old.word }
        ensures { Takes limits call.now self.old self.new result }
    {
        if call.is_lock_call() {
            let (word, reply) = transition(limits, self.word, *call)?;
            self.word = word;
            Some(reply)
        } else {
            let (content, reply) = record_answer(&self.content, call)?;
            self.content = content;
            Some(reply)
        }
    }
}

/// The calls of these entries, each with the reply that it is given in this order.
fn replied_in_order(
    alloc: Global,
    observed: &Observed,
    order: &[usize],
) -> Result<Vec<OrderedCall>, AllocError>
    requires observed { IsObserved observed.now }
    requires order { IsOrderIn observed.now order.now }
    ensures { IfOk result (λ calls. IsLinearizationOf observed.now calls.items) }
{
    let entries = observed.entries();
    let mut state = State::opening(observed);
    let mut calls = Vec::with_capacity(alloc, order.len())?;
    for index in order {
        let Some(reply) = state.take(observed.limits(), &entries[*index].call) else {
            unreachable!();
        };
        calls.push(OrderedCall {
            index: *index,
            reply,
        })?;
    }
    Ok(calls)
}

/// The recorded history in which the calls of these entries take effect in this order. The order must explain the
/// observed history: no entry stands in it twice, and those that it leaves out are under way. Entries count from 0.
/// Lock and record, taken through the calls from their opening on, give each its reply, also where it is under way.
/// Position p becomes the positions 64 p to 64 p + 63; a call under way ends with the history. Only want of memory
/// refuses, and then nothing is kept.
pub fn recorded_in_order(
    alloc: Global,
    observed: &Observed,
    order: &[usize],
) -> Result<Record, AllocError>
    requires observed { IsObserved observed.now }
    requires order { IsOrderIn observed.now order.now }
    ensures { IfOk result (λ made. HasPoints observed.now made) }
{
    let calls = replied_in_order(alloc, observed, order)?;
    recorded_with_points(alloc, observed, calls.as_slice())
}
