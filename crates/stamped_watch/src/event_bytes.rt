//! The bytes of an event.

ghost use Rattle.std.specs.Prelude.{◌≡◌, ◌≤◌, ◌*◌, ◌++◌, ◌↔◌, IfErr, IfOk, IsTrue, Some, length};
ghost use Rattle.std.specs.List.{All};
ghost use Rattle.stamp_sets.specs.SmallCall.{call_of, reply_of};
ghost use Rattle.stamped_watch.specs.EventBytes.{call_number, HasBytes, IsNoEvent, number_in, number_of, reply_number, words_in};
ghost use Rattle.stamped_watch.specs.inner.EventBytes.{front_number, IsCallOf, IsEventOf, IsFrontAs, IsReplyOf};
ghost use Rattle.stamped_watch.specs.EventBytes.{IsFrontIn, IsWidth};
ghost use Rattle.stamped_watch.specs.declared.event_bytes.Front.TheVariants.{Longer};

use stamp_core::{Call, LockCall, LockReply, MOST_WORDS, Reply, Words};
use stamp_watch::{Event, SmallCall, SmallEvent, SmallReply, StreamEvent};

/// Why 16 bytes are no event's first ones.
#[derive(Clone, Copy, Debug, PartialEq, Eq)]
pub(crate) enum BadEvent {
    /// No event has their kind.
    Kind,
    /// One of the bytes 2 to 7 is not zero.
    Zeros,
    /// Events of their kind have no number, and they have one.
    Number,
}

/// What the first 16 bytes of an event tell.
#[derive(Clone, Copy)]
pub(crate) enum Front {
    /// The event, which has no words behind them.
    Whole(StreamEvent),
    /// Contents of so many words stand behind them, in so many bytes.
    Longer(usize, usize),
}

/// The number of the last eight bytes.
pub(crate) fn number_in(bytes: &[u8; 16]) -> u64
    ensures { result ≡ number_in bytes.now }
{
    match bytes[8..].first_chunk::<8>() {
        Some(number) => u64::from_le_bytes(*number),
        None => unreachable!(),
    }
}

/// The call whose beginning has this kind, with this number if it has a stamp.
fn call_of(kind: u8, number: u64) -> Option<LockCall>
    ensures { IsCallOf kind number result }
{
    match kind {
        0 => Some(LockCall::TryWrite),
        1 => Some(LockCall::TryRead),
        2 => Some(LockCall::WriteLock),
        3 => Some(LockCall::ReadLock),
        4 => Some(LockCall::Optimistic),
        5 => Some(LockCall::Validate(number)),
        6 => Some(LockCall::UnlockWrite(number)),
        7 => Some(LockCall::UnlockRead(number)),
        8 => Some(LockCall::Unlock(number)),
        9 => Some(LockCall::ToWrite(number)),
        10 => Some(LockCall::ToRead(number)),
        11 => Some(LockCall::ToOptimistic(number)),
        12 => Some(LockCall::TryUnlockWrite),
        13 => Some(LockCall::TryUnlockRead),
        14 => Some(LockCall::IsWriteLocked),
        15 => Some(LockCall::IsReadLocked),
        16 => Some(LockCall::ReadCount),
        _ => None,
    }
}

/// The reply whose return has this kind, with this number if it is a stamp or a count.
fn reply_of(kind: u8, number: u64) -> Option<LockReply>
    ensures { IsReplyOf kind number result }
{
    match kind {
        32 => Some(LockReply::Stamp(number)),
        33 => Some(LockReply::Yes),
        34 => Some(LockReply::No),
        35 => Some(LockReply::Done),
        36 => Some(LockReply::Mismatch),
        37 => Some(LockReply::Count(number)),
        _ => None,
    }
}

/// The event of the lock with this kind in the lane, with this number if it has one; or the withdrawal of a call.
fn event_of(kind: u8, lane: u8, number: u64) -> Option<StreamEvent>
    ensures { IsEventOf kind lane number result }
{
    if let Some(call) = call_of(kind, number) {
        return Some(StreamEvent::begins(lane, SmallCall::OfLock(call)));
    }
    if let Some(reply) = reply_of(kind, number) {
        return Some(StreamEvent::returns(lane, SmallReply::OfLock(reply)));
    }
    if kind == 48 {
        Some(StreamEvent::withdraws(lane))
    } else {
        None
    }
}

/// What an event of this kind in the lane begins with, if there is one. A record of this width has events, too.
fn front_of(width: Option<usize>, kind: u8, lane: u8, number: u64) -> Option<Front>
    requires { IsWidth width }
    ensures { IsFrontAs width kind lane number result }
{
    if let Some(event) = event_of(kind, lane, number) {
        return Some(Front::Whole(event));
    }
    let width = width?;
    match kind {
        17 => Some(Front::Whole(StreamEvent::begins(lane, SmallCall::Get))),
        18 => Some(Front::Longer(width, 8 * width)),
        19 => Some(Front::Longer(width, 16 * width)),
        38 => Some(Front::Longer(width, 8 * width)),
        _ => None,
    }
}

/// The stamp of the call, or 0.
fn stamp_of(call: SmallCall) -> u64
    ensures { result ≡ call_number (call_of call) }
{
    let SmallCall::OfLock(own) = call else {
        return 0;
    };
    match own {
        LockCall::Validate(stamp)
        | LockCall::UnlockWrite(stamp)
        | LockCall::UnlockRead(stamp)
        | LockCall::Unlock(stamp)
        | LockCall::ToWrite(stamp)
        | LockCall::ToRead(stamp)
        | LockCall::ToOptimistic(stamp) => stamp,
        _ => 0,
    }
}

/// The stamp or the count that is returned, or 0.
fn returned_of(reply: SmallReply) -> u64
    ensures { result ≡ reply_number (reply_of reply) }
{
    match reply {
        SmallReply::OfLock(LockReply::Stamp(number) | LockReply::Count(number)) => number,
        _ => 0,
    }
}

/// The number of the event, or 0.
fn number_of(event: &StreamEvent) -> u64
    ensures { result ≡ number_of event.now }
{
    match event.small() {
        SmallEvent::Begins(_, call) => stamp_of(call),
        SmallEvent::Returns(_, reply) => returned_of(reply),
        SmallEvent::Withdraws(_) => 0,
    }
}

/// Whether all these bytes are zero.
pub(crate) fn are_zeros(bytes: &[u8]) -> bool
    ensures { IsTrue result ↔ All (λ byte. byte ≡ 0) bytes.now }
{
    bytes.iter().all(|byte| *byte == 0)
}

/// The number that the event must have.
fn number_behind(front: &Front) -> u64
    ensures { result ≡ front_number front.now }
{
    match front {
        Front::Whole(event) => number_of(event),
        Front::Longer(_, _) => 0,
    }
}

/// What these bytes tell as the first ones of an event, or the first thing that is wrong with them.
pub(crate) fn event_front(width: Option<usize>, bytes: &[u8; 16]) -> Result<Front, BadEvent>
    requires { IsWidth width }
    ensures front { IfOk result (λ front. IsFrontIn width bytes.now front) }
    ensures fault { IfErr result (λ fault. IsNoEvent width fault bytes.now) }
    ensures many { length bytes.now ≡ 16 }
{
    let number = number_in(bytes);
    let Some(front) = front_of(width, bytes[0], bytes[1], number) else {
        return Err(BadEvent::Kind);
    };
    if !are_zeros(&bytes[2..8]) {
        return Err(BadEvent::Zeros);
    }
    if number_behind(&front) != number {
        return Err(BadEvent::Number);
    }
    Ok(front)
}

/// So many words.
fn words_in(bytes: &[u8], len: usize) -> Words
    requires many { length bytes.now ≡ 8 * len }
    requires some { 1 ≤ len }
    requires few { len ≤ 16 }
    ensures { result ≡ words_in len bytes.now }
{
    let mut words = [0; MOST_WORDS];
    let mut rest = bytes;
    for i in 0..len {
        let Some((word, behind)) = rest.split_first_chunk::<8>() else {
            unreachable!();
        };
        words[i] = u64::from_le_bytes(*word);
        rest = behind;
    }
    match Words::new(&words[..len]) {
        Some(words) => words,
        None => unreachable!(),
    }
}

/// The event of a record of this width that has these first bytes, and these words behind them.
pub(crate) fn event_behind(width: usize, front: &[u8; 16], behind: &[u8]) -> Event
    requires some { 1 ≤ width }
    requires few { width ≤ 16 }
    requires front { IsFrontIn (Some width) front.now (Longer width (length behind.now)) }
    ensures { HasBytes (Some width) result (front.now ++ behind.now) }
{
    let lane = front[1] as u64;
    match front[0] {
        18 => Event::Begins(lane, Call::Put(words_in(behind, width))),
        19 => {
            let (expected, words) = behind.split_at(8 * width);
            Event::Begins(
                lane,
                Call::PutIf(words_in(expected, width), words_in(words, width)),
            )
        }
        _ => Event::Returns(lane, Reply::Content(words_in(behind, width))),
    }
}
