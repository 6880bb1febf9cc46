//! The events of an observed history, with their contents by number.
ghost use Rattle.std.specs.Prelude.{◌≡◌, ◌<◌, ◌↔◌, IfOk, IsFalse, IsTrue, Some, length, slice_get};
ghost use Rattle.std.specs.List.{All};
ghost use Rattle.stamp_explain.specs.Observed.{IsObserved};
ghost use Rattle.stamp_watch.specs.AsEvents.{IsMomentOf};
ghost use Rattle.stamp_runs.specs.Names.{EachOfReply};
ghost use Rattle.stamp_watch.specs.Names.{AreContents, IsGrown, IsWide, StaysWide};
ghost use Rattle.stamp_watch.specs.ReplyLaws.{IsContentOf};
ghost use Rattle.stamp_watch.specs.inner.Trial.{AreNumberedSoFar, HasPlaceOf, IsForeign, IsPlaceOf};
ghost use Rattle.stamp_watch.specs.inner.Trial.{TellsKnown, words_beside};

use crate::moments::{Moment, event_at};
use crate::names::Names;
use crate::stream_event::StreamEvent;
use stamp_core::Reply;
use stamp_explain::Observed;
use stamp_runs::Event;
use std::alloc::{AllocError, Global};

/// Names for the contents of the history's record. Where there is none they are for contents of one word, of which it
/// tells none.
pub(crate) fn names_for(alloc: Global, observed: &Observed) -> Result<Names, AllocError>
    ensures { IfOk result (λ names. AreContents (words_beside observed.now.width) names) }
{
    let width = observed.width() as usize;
    let words = if width == 0 { 1 } else { width };
    Names::new(alloc, words)
}

/// Whether a record of this width may hold the content that the reply tells. Other replies tell none. A content has a
/// word at least, so where there is no record none is told.
pub(crate) fn is_known_reply(width: u64, reply: &Reply) -> bool
    ensures known { IsTrue result ↔ EachOfReply (IsContentOf width) reply.now }
    ensures foreign { IsFalse result → ¬ EachOfReply (IsWide width) reply.now }
{
    match reply {
        Reply::Content(words) => words.len() as u64 == width,
        _ => true,
    }
}

/// Whether a record of this width may hold the content that a return tells. Other events tell no reply.
fn tells_known(width: u64, event: &Event) -> bool
    ensures known { IsTrue result ↔ TellsKnown width event.now }
    ensures foreign { IsFalse result → IsForeign width event.now }
{
    match event {
        Event::Returns(_, reply) => is_known_reply(width, reply),
        _ => true,
    }
}

fn moment_at(moments: &[Moment], place: usize) -> Moment
    requires { place < length moments.now }
    ensures { slice_get moments.now place ≡ Some result }
{
    moments[place]
}

/// The events at these moments, with their contents by number, up to a return with a content that the record can't
/// hold.
pub(crate) fn numbered_run(
    alloc: Global,
    names: &mut Names,
    observed: &Observed,
    moments: &[Moment],
) -> Result<Vec<StreamEvent>, AllocError>
    requires observed { IsObserved observed.now }
    requires moments { All (IsMomentOf observed.now.entries) moments.now }
    requires contents { AreContents (words_beside observed.now.width) names.old }
    ensures run { IfOk result (λ run. AreNumberedSoFar observed.now moments.now names.new run.items) }
    ensures grows { IsGrown names.old names.new }
    ensures wide { StaysWide names.old names.new }
{
    let mut run = Vec::new(alloc);
    for (k, _) in moments.iter().enumerate() {
        let moment = moment_at(moments, k);
        let event = event_at(observed, &moment);
        if !tells_known(observed.width(), &event) {
            return Ok(run);
        }
        match names.event(&event)? {
            Some(small) => run.push(small)?,
            None => unreachable!(),
        }
    }
    Ok(run)
}

/// The place at which the call of this entry returns, or at which it begins.
pub(crate) fn place_of(moments: &[Moment], entry: usize, is_return: bool) -> usize
    requires { HasPlaceOf moments.now entry is_return }
    ensures { IsPlaceOf moments.now entry is_return result }
{
    for (place, moment) in moments.iter().enumerate() {
        if moment.entry == entry && moment.is_return == is_return {
            return place;
        }
    }
    unreachable!()
}
