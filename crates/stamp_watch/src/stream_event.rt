//! The events of a run, in few bytes.
ghost use Rattle.std.specs.Prelude.{◌≡◌, ◌≤◌, MatchOption};
ghost use Rattle.stamp_runs.specs.declared.event.Event.{Event};
ghost use Rattle.stamp_sets.specs.SmallCall.{call_of, reply_of};
ghost use Rattle.stamp_watch.specs.Stream.{IsOfStream, event_of};

use stamp_core::{LockCall, LockReply};
use stamp_runs::Event;
use stamp_sets::{SmallCall, SmallReply};
use std::marker::Model;

/// An event's lane, and its call or reply, with a content by its number.
#[derive(Clone, Copy)]
pub enum SmallEvent {
    /// A call begins in the lane.
    Begins(u8, SmallCall),
    /// The call of the lane returns, with this reply.
    Returns(u8, SmallReply),
    /// The call of the lane ends and took no effect.
    Withdraws(u8),
}

/// The same, in one enum: so it takes 24 bytes.
#[derive(Clone, Copy)]
pub(crate) enum FewBytes {
    BeginsOfLock(u8, LockCall),
    BeginsGet(u8),
    BeginsPut(u8, u64),
    BeginsPutIf(u8, u64, u64),
    ReturnsOfLock(u8, LockReply),
    ReturnsContent(u8, u64),
    Withdraws(u8),
}

/// An event of a run, in few bytes: each content has one word, and the lane is one of 256.
#[derive(Clone, Copy)]
pub struct StreamEvent {
    few: FewBytes,
}

impl Model for StreamEvent {
    ghost use Rattle.stamp_runs.specs.declared.event.Event.{Event};

    ghost Value = { Event };

    ghost use Rattle.stamp_watch.specs.Stream.{event_of};
    ghost use Rattle.stamp_watch.specs.inner.Stream.{few_of, few_back};
    ghost use Rattle.stamp_watch.specs.Stream.{small_in};

    ghost view = { λ e. event_of (small_in e.few) };

    ghost inverse = { λ e. record { few = few_of e } };

    ghost inverse_ok = { λ e h i. record { few = few_back e.few i } };
}

/// The lane, if it is one of 256.
pub(crate) fn small_lane(lane: u64) -> Option<u8>
    ensures { MatchOption result (256 ≤ lane) (λ small. small ≡ lane) }
{
    if lane < 256 { Some(lane as u8) } else { None }
}

impl StreamEvent {
    /// A call begins in this lane, which was free.
    #[inline(always)]
    pub fn begins(lane: u8, call: SmallCall) -> StreamEvent
        ensures { result ≡ Event.Begins lane (call_of call) }
    {
        let few = match call {
            SmallCall::OfLock(own) => FewBytes::BeginsOfLock(lane, own),
            SmallCall::Get => FewBytes::BeginsGet(lane),
            SmallCall::Put(number) => FewBytes::BeginsPut(lane, number),
            SmallCall::PutIf(expected, number) => FewBytes::BeginsPutIf(lane, expected, number),
        };
        StreamEvent { few }
    }

    /// The call of this lane returns, with this reply.
    #[inline(always)]
    pub fn returns(lane: u8, reply: SmallReply) -> StreamEvent
        ensures { result ≡ Event.Returns lane (reply_of reply) }
    {
        let few = match reply {
            SmallReply::OfLock(own) => FewBytes::ReturnsOfLock(lane, own),
            SmallReply::Content(number) => FewBytes::ReturnsContent(lane, number),
        };
        StreamEvent { few }
    }

    /// The call of this lane ends and took no effect: it was interrupted, threw, or gave up.
    #[inline(always)]
    pub fn withdraws(lane: u8) -> StreamEvent
        ensures { result ≡ Event.Withdraws lane }
    {
        StreamEvent {
            few: FewBytes::Withdraws(lane),
        }
    }

    /// The same event, if its lane is one of 256, and each content has one word.
    pub fn of(event: &Event) -> Option<StreamEvent>
        ensures { MatchOption result (¬ IsOfStream event.now) (λ found. found ≡ event.now) }
    {
        match event {
            Event::Begins(lane, call) => {
                let lane = small_lane(*lane)?;
                let call = SmallCall::of(call)?;
                Some(StreamEvent::begins(lane, call))
            }
            Event::Returns(lane, reply) => {
                let lane = small_lane(*lane)?;
                let reply = SmallReply::of(reply)?;
                Some(StreamEvent::returns(lane, reply))
            }
            Event::Withdraws(lane) => {
                let lane = small_lane(*lane)?;
                Some(StreamEvent::withdraws(lane))
            }
        }
    }

    /// Its lane, and its call or reply.
    #[inline(always)]
    pub fn small(&self) -> SmallEvent
        ensures { event_of result ≡ self.now }
    {
        match self.few {
            FewBytes::BeginsOfLock(lane, own) => SmallEvent::Begins(lane, SmallCall::OfLock(own)),
            FewBytes::BeginsGet(lane) => SmallEvent::Begins(lane, SmallCall::Get),
            FewBytes::BeginsPut(lane, number) => SmallEvent::Begins(lane, SmallCall::Put(number)),
            FewBytes::BeginsPutIf(lane, expected, number) => {
                SmallEvent::Begins(lane, SmallCall::PutIf(expected, number))
            }
            FewBytes::ReturnsOfLock(lane, own) => {
                SmallEvent::Returns(lane, SmallReply::OfLock(own))
            }
            FewBytes::ReturnsContent(lane, number) => {
                SmallEvent::Returns(lane, SmallReply::Content(number))
            }
            FewBytes::Withdraws(lane) => SmallEvent::Withdraws(lane),
        }
    }

    /// The same event, with room for more words.
    pub fn as_event(&self) -> Event
        ensures { result ≡ self.now }
    {
        match self.small() {
            SmallEvent::Begins(lane, call) => Event::Begins(lane as u64, call.as_call()),
            SmallEvent::Returns(lane, reply) => Event::Returns(lane as u64, reply.as_reply()),
            SmallEvent::Withdraws(lane) => Event::Withdraws(lane as u64),
        }
    }
}
