//! The replies that an open call may be given next.
ghost use Rattle.std.specs.Prelude.{◌≡◌, ◌≢◌, ◌≤◌, ◌<◌, ◌↔◌, ◌+◌, ◌++◌, ◌∷◌, [], IfOk, IsTrue, List, MatchOption, OnOk, Some, length, map, ℕ};
ghost use Rattle.std.specs.List.{AllPairs, Contains};
ghost use Rattle.stamp_core.specs.Layout.{units_of};
ghost use Rattle.stamp_core.specs.Limits.{units};
ghost use Rattle.stamp_core.specs.Stamp.{optimistic_stamp, read_stamp, write_stamp};
ghost use Rattle.stamp_core.specs.declared.reply.Reply.{Reply};
ghost use Rattle.stamp_runs.specs.BothRun.{AreExplained};
ghost use Rattle.stamp_runs.specs.declared.event.Event.{Event};
ghost use Rattle.stamp_sets.specs.SmallCall.{reply_of};
ghost use Rattle.stamp_runs.specs.Run.{lane_of};
ghost use Rattle.stamp_watch.specs.Ahead.{IsSpared};
ghost use Rattle.stamp_watch.specs.inner.Candidates.{AreAdded, AreAllGiven, AreAllStamps, AreWriting, BeginsWriting, IsGiven, IsAmong, IsKnownPut, IsLeftBy, IsLeftSince, IsNewestTold, IsOpenIn, IsReadable, IsReturnedPut, IsStillLeft, IsWindow, MayBeNow, Tells, as_content, as_stamp, converted, stamps_given};

use crate::issued::version_of;
use crate::places::{lane_of, place_of};
use crate::possible::plain_replies;
use crate::stream_event::{SmallEvent, StreamEvent};
use stamp_core::{Call, Layout, Limits, LockReply, Reply};
use stamp_runs::Event;
use stamp_sets::{SmallCall, SmallReply};
use std::alloc::{AllocError, Global};

/// A call that is open in a lane.
#[derive(Clone, Copy)]
pub(crate) struct BegunCall {
    /// The place of the event by which it began.
    place: usize,
    call: SmallCall,
}

/// Whose stamps a call is given.
#[derive(Clone, Copy)]
pub(crate) enum Issued {
    /// Those of a writer.
    OfWriter,
    /// Those of a reader.
    OfReader,
    /// Those of an optimistic read, which holds nothing.
    OfNone,
}

/// The open call of the lane once the event at this place came, if it was this one before.
fn begun_then(
    last: Option<BegunCall>,
    lane: u8,
    place: usize,
    event: &StreamEvent,
) -> Option<BegunCall>
    ensures { (before : List Event) → place ≡ length before → IsOpenIn before lane last
        → IsOpenIn (before ++ event.now ∷ []) lane result }
{
    match event.small() {
        SmallEvent::Begins(other, call) => {
            if other == lane {
                Some(BegunCall { place, call })
            } else {
                last
            }
        }
        SmallEvent::Returns(other, _) => { if other == lane { None } else { last } }
        SmallEvent::Withdraws(other) => { if other == lane { None } else { last } }
    }
}

/// The call that is open in the lane after these events.
fn begun_call(events: &[StreamEvent], lane: u8) -> Option<BegunCall>
    ensures { IsOpenIn events.now lane result }
{
    let mut last = None;
    for (place, event) in events.iter().enumerate() {
        last = begun_then(last, lane, place, event);
    }
    last
}

/// The version that the event tells, if it returns a stamp.
fn version_told(limits: Limits, event: &StreamEvent) -> Option<u64>
    ensures { MatchOption result ((k : ℕ) → ¬ Tells limits k event.now) (λ k. Tells limits k event.now) }
{
    let Event::Returns(_, Reply::Stamp(stamp)) = event.as_event() else {
        return None;
    };
    version_of(limits.layout(), stamp)
}

/// The newest version of which these events return a stamp; 0 where they return none.
fn newest_told(limits: Limits, events: &[StreamEvent]) -> u64
    ensures { IsNewestTold limits events.now result }
{
    let mut newest = 0;
    for event in events {
        if let Some(version) = version_told(limits, event) {
            newest = version.max(newest);
        }
    }
    newest
}

/// Whose stamps the call is given, if it is given any.
fn stamps_given(call: &Call) -> Option<Issued>
    ensures { result ≡ stamps_given call.now }
{
    match call {
        Call::TryWrite | Call::WriteLock | Call::ToWrite(_) => Some(Issued::OfWriter),
        Call::TryRead | Call::ReadLock | Call::ToRead(_) => Some(Issued::OfReader),
        Call::Optimistic | Call::ToOptimistic(_) => Some(Issued::OfNone),
        _ => None,
    }
}

/// The stamp that the call converts, if it is a conversion.
fn converted(call: &Call) -> Option<u64>
    ensures { result ≡ converted call.now }
{
    match call {
        Call::ToWrite(stamp) | Call::ToRead(stamp) | Call::ToOptimistic(stamp) => Some(*stamp),
        _ => None,
    }
}

/// Whether the event begins a call that may acquire write mode.
fn begins_writing(event: &StreamEvent) -> bool
    ensures { IsTrue result ↔ BeginsWriting event.now }
{
    let Event::Begins(_, call) = event.as_event() else {
        return false;
    };
    matches!(stamps_given(&call), Some(Issued::OfWriter))
}

/// Whether the event begins such a call, and none of those behind it is of its lane.
fn stays_writing(event: &StreamEvent, behind: &[StreamEvent]) -> bool
    ensures { IsTrue result ↔ (BeginsWriting event.now × IsSpared behind.now (lane_of event.now)) }
{
    begins_writing(event) && place_of(behind, lane_of(event)).is_none()
}

/// The lanes whose open calls may acquire write mode.
fn writing_lanes(alloc: Global, events: &[StreamEvent]) -> Result<Vec<u64>, AllocError>
    ensures { IfOk result (λ lanes. AreWriting events.now lanes.items) }
{
    let mut lanes = Vec::new(alloc);
    for (place, event) in events.iter().enumerate() {
        if stays_writing(event, &events[place + 1..]) {
            lanes.push(lane_of(event))?;
        }
    }
    Ok(lanes)
}

/// The least and the greatest of some versions.
#[derive(Clone, Copy)]
pub(crate) struct Window {
    low: u64,
    high: u64,
}

/// The least version of which a call may be given stamps, where this one was told before it began.
fn least_given(kind: Issued, told: u64) -> u64
    ensures { (old version : ℕ) → told ≤ old → MayBeNow kind old version → result ≤ version }
{
    match kind {
        Issued::OfWriter => told.saturating_add(1),
        Issued::OfReader | Issued::OfNone => told,
    }
}

/// The versions of which the call may be given stamps that began at this place.
fn versions_there(
    alloc: Global,
    limits: Limits,
    events: &[StreamEvent],
    place: usize,
    kind: Issued,
) -> Result<Window, AllocError>
    requires { place ≤ length events.now }
    ensures { IfOk result (IsWindow limits events.now place kind) }
{
    let low = least_given(kind, newest_told(limits, &events[..place]));
    let newest = newest_told(limits, events);
    let writing = writing_lanes(alloc, events)?;
    let high = newest.saturating_add(writing.len() as u64);
    Ok(Window {
        low,
        high: high.min(limits.versions()),
    })
}

/// What one write acquisition adds to a number.
fn version_unit(layout: Layout) -> u64
    ensures { result ≡ (units_of layout).version }
{
    2 * layout.writer_unit()
}

/// The stamp of the writer of this version.
fn write_stamp(limits: Limits, version: u64) -> u64
    requires { version ≤ limits.versions }
    ensures { result ≡ write_stamp (units limits) version }
{
    let layout = limits.layout();
    version_unit(layout) * version + layout.writer_unit()
}

/// The stamp of an optimistic read of this version.
fn optimistic_stamp(limits: Limits, version: u64) -> u64
    requires { version ≤ limits.versions }
    ensures { result ≡ optimistic_stamp (units limits) version }
{
    version_unit(limits.layout()) * (version + 1)
}

/// The stamp of a reader of this version, of whom there are so many with it.
fn read_stamp(limits: Limits, version: u64, nth: u64) -> u64
    requires version { version ≤ limits.versions }
    requires few { nth ≤ limits.readers }
    ensures { result ≡ read_stamp (units limits) version nth }
{
    let _ = limits.layout();
    optimistic_stamp(limits, version) + nth
}

/// Adds the stamps of all readers of this version.
fn push_read_stamps(stamps: &mut Vec<u64>, limits: Limits, version: u64) -> Result<(), AllocError>
    requires { version ≤ limits.versions }
    ensures { OnOk result (AreAdded (IsGiven limits Issued.OfReader version) stamps.old.items stamps.new.items) }
{
    for fewer in 0..limits.readers() {
        stamps.push(read_stamp(limits, version, fewer + 1))?;
    }
    Ok(())
}

/// Adds the stamps of this version of the kind.
fn push_stamps(
    stamps: &mut Vec<u64>,
    limits: Limits,
    kind: Issued,
    version: u64,
) -> Result<(), AllocError>
    requires { version ≤ limits.versions }
    ensures { OnOk result (AreAdded (IsGiven limits kind version) stamps.old.items stamps.new.items) }
{
    match kind {
        Issued::OfWriter => stamps.push(write_stamp(limits, version))?,
        Issued::OfReader => push_read_stamps(stamps, limits, version)?,
        Issued::OfNone => stamps.push(optimistic_stamp(limits, version))?,
    }
    Ok(())
}

/// The stamps of these versions of the kind.
fn stamps_within(
    alloc: Global,
    limits: Limits,
    kind: Issued,
    window: Window,
) -> Result<Vec<u64>, AllocError>
    requires { window.high ≤ limits.versions }
    ensures { IfOk result (λ stamps. AreAllGiven limits kind window.low window.high stamps.items) }
{
    let _ = limits.layout();
    let mut stamps = Vec::new(alloc);
    for version in window.low..window.high + 1 {
        push_stamps(&mut stamps, limits, kind, version)?;
    }
    Ok(stamps)
}

/// Leaves each number once.
fn once(numbers: &mut Vec<u64>)
    ensures rises { AllPairs (λ (a b : ℕ). a < b) numbers.new.items }
    ensures keeps { (n : ℕ) → Contains numbers.old.items n → Contains numbers.new.items n }
{
    numbers.sort_unstable();
    numbers.dedup();
}

/// These numbers as stamps that are replied.
fn stamp_replies(alloc: Global, numbers: &[u64]) -> Result<Vec<SmallReply>, AllocError>
    ensures { IfOk result (λ replies. replies.items ≡ map as_stamp numbers.now) }
{
    let mut replies = Vec::new(alloc);
    for number in numbers {
        replies.push(SmallReply::OfLock(LockReply::Stamp(*number)))?;
    }
    Ok(replies)
}

/// These numbers as contents that are replied.
fn content_replies(alloc: Global, numbers: &[u64]) -> Result<Vec<SmallReply>, AllocError>
    ensures { IfOk result (λ replies. replies.items ≡ map as_content numbers.now) }
{
    let mut replies = Vec::new(alloc);
    for number in numbers {
        replies.push(SmallReply::Content(*number))?;
    }
    Ok(replies)
}

/// What a call may be given that began at this place, and is given such stamps.
fn stamps_for(
    alloc: Global,
    limits: Limits,
    events: &[StreamEvent],
    place: usize,
    call: &Call,
    kind: Issued,
) -> Result<Vec<SmallReply>, AllocError>
    requires within { place ≤ length events.now }
    requires given { stamps_given call.now ≡ Some kind }
    ensures whole { IfOk result (λ replies. AreAllStamps limits events.now place call.now replies.items) }
    ensures once { IfOk result (λ replies. AllPairs (λ (a b : Reply). a ≢ b) (map reply_of replies.items)) }
{
    let versions = versions_there(alloc, limits, events, place, kind)?;
    let mut stamps = stamps_within(alloc, limits, kind, versions)?;
    stamps.push(0)?;
    if let Some(stamp) = converted(call) {
        stamps.push(stamp)?;
    }
    once(&mut stamps);
    let replies = stamp_replies(alloc, stamps.as_slice())?;
    Ok(replies)
}

/// The number of the content that is left by the call that the event begins, if it changes the record.
fn left_by(event: &StreamEvent) -> Option<u64>
    ensures { IsLeftBy event.now result }
{
    match event.small() {
        SmallEvent::Begins(_, SmallCall::Put(number))
        | SmallEvent::Begins(_, SmallCall::PutIf(_, number)) => Some(number),
        _ => None,
    }
}

/// The number of that content, if none of the events behind is of the lane.
fn still_left(event: &StreamEvent, behind: &[StreamEvent]) -> Option<u64>
    ensures { IsStillLeft event.now behind.now result }
{
    let Some(number) = left_by(event) else {
        return None;
    };
    match place_of(behind, lane_of(event)) {
        Some(_) => None,
        None => Some(number),
    }
}

/// The numbers of the contents that calls leave which begin among these events, and did not end before this place.
fn numbers_since(alloc: Global, events: &[StreamEvent], from: usize) -> Result<Vec<u64>, AllocError>
    requires { from ≤ length events.now }
    ensures { IfOk result (λ numbers. (content : List ℕ) → IsLeftSince events.now from content
        → IsAmong numbers.items content) }
{
    let mut numbers = Vec::new(alloc);
    for (place, event) in events.iter().enumerate() {
        let end = from.max(place + 1);
        if let Some(number) = still_left(event, &events[place + 1..end]) {
            numbers.push(number)?;
        }
    }
    Ok(numbers)
}

/// Whether a put begins by the event and returns among those behind it.
fn returns_put(event: &StreamEvent, behind: &[StreamEvent]) -> bool
    ensures { IsTrue result → IsReturnedPut event.now behind.now }
{
    let SmallEvent::Begins(lane, SmallCall::Put(_)) = event.small() else {
        return false;
    };
    let Some(place) = place_of(behind, lane as u64) else {
        return false;
    };
    let SmallEvent::Returns(_, _) = behind[place].small() else {
        return false;
    };
    true
}

/// The place of the last put that begins and returns among these events, if one does.
fn last_put(events: &[StreamEvent]) -> Option<usize>
    ensures { IsKnownPut events.now result }
{
    let mut last = None;
    for (place, event) in events.iter().enumerate() {
        if returns_put(event, &events[place + 1..]) {
            last = Some(place);
        }
    }
    last
}

/// The numbers of the contents that a get may be given that began at this place.
fn numbers_for(alloc: Global, events: &[StreamEvent], place: usize) -> Result<Vec<u64>, AllocError>
    requires { place ≤ length events.now }
    ensures { IfOk result (λ numbers. (content : List ℕ) → IsReadable events.now place content
        → IsAmong numbers.items content) }
{
    match last_put(&events[..place]) {
        Some(from) => {
            let numbers = numbers_since(alloc, events, from)?;
            Ok(numbers)
        }
        None => {
            let mut numbers = numbers_since(alloc, events, 0)?;
            numbers.push(0)?;
            Ok(numbers)
        }
    }
}

/// The contents that a get may be given that began at this place.
fn contents_for(
    alloc: Global,
    events: &[StreamEvent],
    place: usize,
) -> Result<Vec<SmallReply>, AllocError>
    requires { place ≤ length events.now }
    ensures whole { IfOk result (λ replies. (content : List ℕ) → IsReadable events.now place content
        → Contains (map reply_of replies.items) (Reply.Content content)) }
    ensures once { IfOk result (λ replies. AllPairs (λ (a b : Reply). a ≢ b) (map reply_of replies.items)) }
{
    let mut numbers = numbers_for(alloc, events, place)?;
    once(&mut numbers);
    let replies = content_replies(alloc, numbers.as_slice())?;
    Ok(replies)
}

/// The replies that the open call of the lane may be given next, each once: if the run is explained with a return of
/// the lane behind these events, the reply is one of them. None are where no call is open there. A call that is given
/// stamps has 0, the stamp that it converts, and those of the versions that the lock may have had; a get has the
/// contents that may be left since the last put that had returned before it began, or 0 and all where none had.
pub fn candidates(
    alloc: Global,
    limits: Limits,
    events: &[StreamEvent],
    lane: u8,
) -> Result<Vec<SmallReply>, AllocError>
    ensures whole { IfOk result (λ replies. (reply : Reply)
        → AreExplained limits (events.now ++ Event.Returns lane reply ∷ [])
        → Contains (map reply_of replies.items) reply) }
    ensures once { IfOk result (λ replies. AllPairs (λ (a b : Reply). a ≢ b) (map reply_of replies.items)) }
{
    let _ = limits.layout();
    let Some(begun) = begun_call(events, lane) else {
        return Ok(Vec::new(alloc));
    };
    let call = begun.call.as_call();
    if let Some(replies) = plain_replies(alloc, limits, &call)? {
        return Ok(replies);
    }
    if let Some(kind) = stamps_given(&call) {
        let stamps = stamps_for(alloc, limits, events, begun.place, &call, kind)?;
        return Ok(stamps);
    }
    let contents = contents_for(alloc, events, begun.place)?;
    Ok(contents)
}
