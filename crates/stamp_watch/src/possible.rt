//! Which replies were possible at a return of a run, as a judge can tell from the events that it keeps.
ghost use Rattle.std.specs.Prelude.{◌≡◌, ◌+◌, ◌<◌, ◌≤◌, ◌∷◌, [], IfOk, List, Some, length, slice_get};
ghost use Rattle.stamp_core.specs.Limits.{Bounds};
ghost use Rattle.stamp_runs.specs.declared.event.Event.{Event};
ghost use Rattle.stamp_sets.specs.declared.small_call.SmallReply.{SmallReply};
ghost use Rattle.stamp_watch.specs.Possible.{IsKept, IsTold, IsToldOf, KeepsSome, counts_below, items_in, plain_replies};
ghost use Rattle.stamp_watch.specs.inner.Possible.{IsKeptReturn, IsOutcomeWith, IsPossibleSo, IsReturnFor, IsReturnHere, KeepsSomeCourse, replies_in};

use crate::course::Course;
use crate::judge::{Outcome, judge_rest};
use crate::online::Judge;
use crate::stream_event::{SmallEvent, StreamEvent};
use stamp_core::{Call, Limits, LockReply, Reply};
use stamp_sets::SmallReply;
use std::alloc::{AllocError, Global};
use std::slice::from_ref;

/// The counts that are at most this.
fn counts_up_to(alloc: Global, most: u64) -> Result<Vec<SmallReply>, AllocError>
    ensures { IfOk result (λ replies. replies.items ≡ counts_below (most + 1)) }
{
    let mut replies = Vec::new(alloc);
    for count in 0..most {
        replies.push(SmallReply::OfLock(LockReply::Count(count)))?;
    }
    replies.push(SmallReply::OfLock(LockReply::Count(most)))?;
    Ok(replies)
}

/// These two.
fn either(alloc: Global, one: LockReply, other: LockReply) -> Result<Vec<SmallReply>, AllocError>
    ensures { IfOk result (λ replies. replies.items ≡ SmallReply.OfLock one ∷ SmallReply.OfLock other ∷ []) }
{
    let replies = Vec::from_array(alloc, [SmallReply::OfLock(one), SmallReply::OfLock(other)])?;
    Ok(replies)
}

/// The replies that a call may be given, if none of them is a stamp or a content.
pub(crate) fn plain_replies(
    alloc: Global,
    limits: Limits,
    call: &Call,
) -> Result<Option<Vec<SmallReply>>, AllocError>
    ensures { IfOk result (λ replies. replies_in replies ≡ plain_replies limits call.now) }
{
    match call {
        Call::Validate(_)
        | Call::TryUnlockWrite
        | Call::TryUnlockRead
        | Call::IsWriteLocked
        | Call::IsReadLocked
        | Call::PutIf(_, _) => Ok(Some(either(alloc, LockReply::Yes, LockReply::No)?)),
        Call::UnlockWrite(_) | Call::UnlockRead(_) | Call::Unlock(_) => {
            Ok(Some(either(alloc, LockReply::Done, LockReply::Mismatch)?))
        }
        Call::ReadCount => Ok(Some(counts_up_to(alloc, limits.readers())?)),
        Call::Put(_) => Ok(Some(Vec::from_array(alloc, [SmallReply::OfLock(LockReply::Done)])?)),
        _ => Ok(None),
    }
}

pub(crate) fn reply_at(replies: &[SmallReply], place: usize) -> SmallReply
    requires { place < length replies.now }
    ensures { slice_get replies.now place ≡ Some result }
{
    replies[place]
}

/// A return among the events that a judge keeps.
#[derive(Clone, Copy)]
pub(crate) struct KeptReturn {
    /// Its place among them.
    place: usize,
    lane: u8,
}

impl Course {
    /// Judges the run up to this place, with this return in place of the one that is there.
    fn judge_with(&self, at: usize, event: &StreamEvent, most: u64) -> Result<Outcome, AllocError>
        requires kept { KeepsSomeCourse self.now }
        requires seen { self.now.seen ≤ at }
        requires is_return { IsReturnFor self.now.events.items at event.now }
        ensures { IfOk result (λ outcome. (limits : Bounds) (run : List Event) → (kept : IsKept limits run self.now)
            → IsOutcomeWith limits self.now at event.now kept.past most outcome) }
    {
        let mut trial = Vec::from_slice(self.alloc, &self.events.as_slice()[..at])?;
        trial.extend_from_slice(from_ref(event))?;
        let start = self.base.copied()?;
        judge_rest(start, self.first, trial.as_slice(), most)
    }
}

impl Judge {
    /// The return with this number, if the event is one that is kept, and the open calls of the base end before it.
    pub(crate) fn return_at(&self, number: u64) -> Option<KeptReturn>
        requires { KeepsSome self.now }
        ensures { IsKeptReturn self.now number result }
    {
        let place = number.checked_sub(self.course.first)? as usize;
        if place < self.course.seen {
            return None;
        }
        match self.course.events.as_slice().get(place)?.small() {
            SmallEvent::Returns(lane, _) => Some(KeptReturn { place, lane }),
            _ => None,
        }
    }

    /// Whether this reply is possible at a return. Nothing where too many positions are.
    fn is_possible(
        &self,
        number: u64,
        kept: KeptReturn,
        reply: SmallReply,
    ) -> Result<Option<bool>, AllocError>
        requires keeps { KeepsSome self.now }
        requires here { IsReturnHere self.now number kept.place kept.lane }
        ensures { IfOk result (λ answer. IsPossibleSo self.now number reply answer) }
    {
        let event = StreamEvent::returns(kept.lane, reply);
        let outcome = self.course.judge_with(kept.place, &event, self.most)?;
        match outcome {
            Outcome::Explained => Ok(Some(true)),
            Outcome::Unexplained(_) => Ok(Some(false)),
            Outcome::TooMany(_) => Ok(None),
        }
    }

    /// Which of these replies the call could have had that returns at the event with this number: with such a one in
    /// place of its own, the run is explained up to the event. Nothing where that can't be told: the event is no
    /// return, or none that is kept, or with some reply too many positions are possible.
    pub fn possible_among(
        &self,
        number: u64,
        replies: &[SmallReply],
    ) -> Result<Option<Vec<Reply>>, AllocError>
        requires { KeepsSome self.now }
        ensures { IfOk result (λ told. IsTold self.now number replies.now (items_in told)) }
    {
        let Some(kept) = self.return_at(number) else {
            return Ok(None);
        };
        let mut found = Vec::new(self.course.alloc);
        for (k, _) in replies.iter().enumerate() {
            let reply = reply_at(replies, k);
            let Some(is_possible) = self.is_possible(number, kept, reply)? else {
                return Ok(None);
            };
            if is_possible {
                found.push(reply.as_reply())?;
            }
        }
        Ok(Some(found))
    }

    /// Which replies the call could have had that returns at the event with this number: of yes and no, of done and
    /// mismatch, or of the counts that the limits allow; a put has done alone. Nothing where that can't be told, as
    /// `possible_among` says, or where such a call is given stamps, or a content.
    pub fn possible_at(&self, number: u64, call: &Call) -> Result<Option<Vec<Reply>>, AllocError>
        requires { KeepsSome self.now }
        ensures { IfOk result (λ told. IsToldOf self.now number call.now (items_in told)) }
    {
        let alloc = self.course.alloc;
        match plain_replies(alloc, self.course.base.limits(), call)? {
            Some(replies) => self.possible_among(number, replies.as_slice()),
            None => Ok(None),
        }
    }
}
