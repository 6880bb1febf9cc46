//! Judging a stream while its bytes come.
//!
//! The bytes of the header are taken, by which the judge of the run is made, and then those of event after event. Those
//! of a header or an event that is not whole yet are kept.

ghost use Rattle.std.specs.Prelude.{◌≡◌, ◌+◌, ◌^◌, ◌<◌, ◌++◌, ◌∷◌, [], ⊤, IfOk, IsSome, MatchOption, OnOk, List, None, Some, length, ℕ};
ghost use Rattle.stamped_watch.specs.Finding.{IsFindingOf, IsSoFar};
ghost use Rattle.stamped_watch.specs.Header.{IsShortHeader};
ghost use Rattle.stamped_watch.specs.Note.{IsStuckEnd};
ghost use Rattle.stamped_watch.specs.Progress.{IsSoFarOf};
ghost use Rattle.stamped_watch.specs.StreamJudge.{EndsInStream, HasTaken, IsFed, IsFedSome, KeepsCall, KeepsEndAt, KeepsFed, KeepsFedSome};
ghost use Rattle.stamped_watch.specs.inner.StreamJudge.{ended_in};
ghost use Rattle.stamped_watch.specs.Witness.{IsText};
ghost use Rattle.stamped_watch.specs.declared.event_bytes.Front.TheVariants.{Longer};
ghost use Rattle.stamped_watch.specs.declared.finding.Finding.TheVariants.{Stuck};
ghost use Rattle.stamped_watch.specs.declared.orders.Watching.{Watching};
ghost use Rattle.stamped_watch.specs.EventBytes.{IsWidth};
ghost use Rattle.stamped_watch.specs.inner.StreamJudge.{AreCounted, HasTakenNone, HasTakenOne, HasTakenSome, HasTakenWidth, IsFrontFor, IsOpened, KeepsPart, TakesEvent, TakesNoEvent};
ghost use Rattle.stamped_watch.specs.StreamJudge.{IsSmallEvent};

use crate::event_bytes::{BadEvent, Front, event_front};
use crate::finding::Finding;
use crate::header::{BadHeader, Header, front_in, width_in};
use crate::run_judge::RunJudge;
use crate::so_far::SoFar;
use crate::stuck_end::StuckEnd;
use crate::witness::{NoWitness, witness_text};
use stamp_core::Limits;
use stamp_watch::{EndedCall, SmallEvent, StreamEvent};
use std::alloc::{AllocError, Global};
use std::mem::replace;

/// Judges a stream of a lock's events while its bytes come, in pieces of any length. It judges as a `LateJudge` does:
/// an event waits as long as a call before it hasn't ended, unless that is open for long, and is looked at once it is
/// known how each call ends that began before it.
/// Once something is found of the stream it looks no further. It keeps few events, each content that was told, and fewer
/// bytes than the longest event has. After an `Err` it is of no more use.
#[derive(Drop)]
pub(crate) struct StreamJudge {
    alloc: Global,
    most: u64,
    ahead: usize,
    /// The bytes of a header or an event that is not whole.
    part: Vec<u8>,
    /// The judge of the run, once there is a header.
    judge: Option<RunJudge>,
    /// So many calls began,
    begun: u64,
    /// and so many were withdrawn.
    withdrawn: u64,
    found: Option<Finding>,
}

impl StreamJudge {
    /// The judge of a stream of which nothing has come. More than `most` positions before an event are too many
    /// to go on. A call begins later that is open for all but 64 of `ahead` events.
    pub(crate) fn new(alloc: Global, most: u64, ahead: usize) -> StreamJudge
        ensures fed { IsFed most ahead [] result }
        ensures known { IsFedSome result }
        ensures none { result.found ≡ None }
    {
        StreamJudge {
            alloc,
            most,
            ahead,
            part: Vec::new(alloc),
            judge: None,
            begun: 0,
            withdrawn: 0,
            found: None,
        }
    }

    /// Makes the judge of the run by what the header says.
    fn open(&mut self, header: Header) -> Result<(), AllocError>
        requires width { IsWidth header.width }
        ensures opened { OnOk result (IsOpened header self.old self.new) }
    {
        let judge = RunJudge::new(self.alloc, header, self.most, self.ahead)?;
        self.judge = Some(judge);
        Ok(())
    }

    /// Takes the rest of the header of a stream with data, of a lock with these limits.
    fn begin_with_data<'a>(
        &mut self,
        limits: Limits,
        bytes: &'a [u8],
    ) -> Result<Option<&'a [u8]>, AllocError>
        ensures { IfOk result (λ left. MatchOption left ((length bytes.now < 8) × (self.new ≡ self.old))
            (λ rest. HasTakenWidth limits bytes.now rest.now self.old self.new)) }
    {
        let Some((words, behind)) = bytes.split_first_chunk::<8>() else {
            return Ok(None);
        };
        let Some(width) = width_in(words) else {
            self.found = Some(Finding::BadHeader(BadHeader::Width));
            return Ok(Some(behind));
        };
        self.open(Header {
            limits,
            width: Some(width),
        })?;
        Ok(Some(behind))
    }

    /// Takes the header of which these are the first bytes, unless they end within it.
    fn begin<'a>(
        &mut self,
        front: &[u8; 16],
        behind: &'a [u8],
    ) -> Result<Option<&'a [u8]>, AllocError>
        requires first { HasTakenSome self.old }
        requires none { self.old.found ≡ None }
        requires no_judge { self.old.judge ≡ None }
        ensures taken { IfOk result (λ left. MatchOption left
            (HasTakenNone (front.now ++ behind.now) self.old self.new)
            (λ rest. HasTakenOne (front.now ++ behind.now) rest.now self.old self.new)) }
        ensures part { OnOk result (KeepsPart self.old self.new) }
    {
        let told = match front_in(front) {
            Ok(told) => told,
            Err(fault) => {
                self.found = Some(Finding::BadHeader(fault));
                return Ok(Some(behind));
            }
        };
        if told.has_data {
            return self.begin_with_data(told.limits, behind);
        }
        self.open(Header {
            limits: told.limits,
            width: None,
        })?;
        Ok(Some(behind))
    }

    /// Counts a call that begins or is withdrawn.
    fn count(&mut self, event: &StreamEvent)
        requires begun { self.old.begun + 1 < 2 ^ 64 }
        requires withdrawn { self.old.withdrawn + 1 < 2 ^ 64 }
        ensures { AreCounted event.now self.old self.new }
    {
        match event.small() {
            SmallEvent::Begins(_, _) => self.begun += 1,
            SmallEvent::Returns(_, _) => {}
            SmallEvent::Withdraws(_) => self.withdrawn += 1,
        }
    }

    /// Gives an event of the run to its judge.
    fn give(&mut self, event: &StreamEvent) -> Result<(), AllocError>
        requires some { HasTakenSome self.old }
        requires none { self.old.found ≡ None }
        requires judge { IsSome self.old.judge }
        requires small { IsSmallEvent event.now }
        ensures taken { OnOk result (TakesEvent event.now self.old self.new) }
        ensures part { OnOk result (KeepsPart self.old self.new) }
    {
        let Some(inner) = &mut self.judge else {
            unreachable!();
        };
        self.found = inner.given(event)?;
        if self.found.is_none() {
            self.count(event);
        }
        Ok(())
    }

    /// What is found where the next bytes are no event's.
    fn refuse(&mut self, fault: BadEvent) -> Result<(), AllocError>
        requires some { HasTakenSome self.old }
        requires none { self.old.found ≡ None }
        requires judge { IsSome self.old.judge }
        ensures taken { OnOk result (TakesNoEvent fault self.old self.new) }
        ensures part { OnOk result (KeepsPart self.old self.new) }
    {
        let Some(inner) = &mut self.judge else {
            unreachable!();
        };
        let bad = Finding::BadEvent(inner.count(), fault);
        self.found = Some(inner.found_unless(bad)?);
        Ok(())
    }

    /// Takes an event with words behind its first bytes, unless the bytes end within those.
    fn take_data<'a>(
        &mut self,
        front: &[u8; 16],
        width: usize,
        many: usize,
        behind: &'a [u8],
    ) -> Result<Option<&'a [u8]>, AllocError>
        requires some { HasTakenSome self.old }
        requires none { self.old.found ≡ None }
        requires front { IsFrontFor self.old.judge front.now (Longer width many) }
        ensures taken { IfOk result (λ left. MatchOption left
            (HasTakenNone (front.now ++ behind.now) self.old self.new)
            (λ rest. HasTakenOne (front.now ++ behind.now) rest.now self.old self.new)) }
        ensures part { OnOk result (KeepsPart self.old self.new) }
    {
        let Some((words, rest)) = behind.split_at_checked(many) else {
            return Ok(None);
        };
        let Some(inner) = &mut self.judge else {
            unreachable!();
        };
        let event = inner.event(width, front, words)?;
        self.give(&event)?;
        Ok(Some(rest))
    }

    /// Takes the next event, unless the bytes end within it.
    fn take_event<'a>(
        &mut self,
        front: &[u8; 16],
        told: Front,
        behind: &'a [u8],
    ) -> Result<Option<&'a [u8]>, AllocError>
        requires some { HasTakenSome self.old }
        requires none { self.old.found ≡ None }
        requires front { IsFrontFor self.old.judge front.now told }
        ensures taken { IfOk result (λ left. MatchOption left
            (HasTakenNone (front.now ++ behind.now) self.old self.new)
            (λ rest. HasTakenOne (front.now ++ behind.now) rest.now self.old self.new)) }
        ensures part { OnOk result (KeepsPart self.old self.new) }
    {
        match told {
            Front::Whole(event) => {
                self.give(&event)?;
                Ok(Some(behind))
            }
            Front::Longer(width, many) => self.take_data(front, width, many, behind),
        }
    }

    /// Takes the header or the next event of these bytes, unless they end within it: those behind it.
    fn take<'a>(&mut self, bytes: &'a [u8]) -> Result<Option<&'a [u8]>, AllocError>
        requires some { HasTakenSome self.old }
        requires none { self.old.found ≡ None }
        ensures taken { IfOk result (λ left. MatchOption left (HasTakenNone bytes.now self.old self.new)
            (λ rest. HasTakenOne bytes.now rest.now self.old self.new)) }
        ensures part { OnOk result (KeepsPart self.old self.new) }
    {
        let Some((front, behind)) = bytes.split_first_chunk::<16>() else {
            return Ok(None);
        };
        let Some(inner) = &self.judge else {
            return self.begin(front, behind);
        };
        match event_front(inner.width, front) {
            Ok(told) => self.take_event(front, told, behind),
            Err(fault) => {
                self.refuse(fault)?;
                Ok(Some(behind))
            }
        }
    }

    /// Takes bytes event by event, until something is found, and keeps those that are left.
    fn take_units(&mut self, bytes: &[u8]) -> Result<(), AllocError>
        requires some { HasTakenSome self.old }
        requires empty { self.old.part.items ≡ [] }
        ensures { OnOk result ((most ahead : ℕ) (taken : List ℕ) → HasTaken most ahead taken self.old
            → IsFed most ahead (taken ++ bytes.now) self.new) }
    {
        let mut rest = bytes;
        'units: while self.found.is_none() {
            let Some(behind) = self.take(rest)? else {
                self.part.extend_from_slice(rest)?;
                return Ok(());
            };
            rest = behind;
        }
        Ok(())
    }

    /// Takes the bytes that were kept, and these behind them.
    fn take_with_part(&mut self, bytes: &[u8]) -> Result<(), AllocError>
        requires some { HasTakenSome self.old }
        ensures { OnOk result ((most ahead : ℕ) (taken : List ℕ) → HasTaken most ahead taken self.old
            → IsFed most ahead (taken ++ self.old.part.items ++ bytes.now) self.new) }
    {
        let mut whole = replace(&mut self.part, Vec::new(self.alloc));
        whole.extend_from_slice(bytes)?;
        self.take_units(&whole)
    }

    /// The next bytes of the stream: what is found of it, whatever comes later, if anything is.
    pub(crate) fn feed(&mut self, bytes: &[u8]) -> Result<Option<Finding>, AllocError>
        requires some { IsFedSome self.old }
        ensures found { IfOk result (λ found. (most ahead : ℕ) (fed : List ℕ) → IsFed most ahead fed self.old
            → IsSoFar most ahead (fed ++ bytes.now) found) }
        ensures fed { OnOk result ((most ahead : ℕ) (fed : List ℕ) → IsFed most ahead fed self.old
            → IsFed most ahead (fed ++ bytes.now) self.new) }
        ensures known { OnOk result (IsFedSome self.new) }
        ensures told { IfOk result (λ found. self.new.found ≡ found) }
    {
        if self.found.is_some() {
            return Ok(self.found);
        }
        if self.part.is_empty() {
            self.take_units(bytes)?;
            return Ok(self.found);
        }
        self.take_with_part(bytes)?;
        Ok(self.found)
    }

    /// What is found of the stream if it ends here: a call that has not ended never ends. It takes no more bytes then.
    pub(crate) fn end(&mut self) -> Result<Finding, AllocError>
        requires { IsFedSome self.old }
        ensures found { IfOk result (λ finding. (most ahead : ℕ) (fed : List ℕ) → IsFed most ahead fed self.old
            → IsFindingOf most ahead fed finding) }
        ensures kept { IfOk result (λ _. (most ahead : ℕ) (fed : List ℕ) → IsFed most ahead fed self.old
            → KeepsFed most ahead fed self.new) }
        ensures tells { IfOk result (KeepsCall self.new.judge) }
        ensures there { IfOk result (λ finding. (most ahead : ℕ) (fed : List ℕ) → IsFed most ahead fed self.old
            → EndsInStream fed self.new.judge finding) }
    {
        if let Some(finding) = self.found {
            return Ok(finding);
        }
        let Some(inner) = &mut self.judge else {
            return Ok(Finding::NoHeader);
        };
        if !self.part.is_empty() {
            let number = inner.count();
            return inner.found_unless(Finding::Cut(number));
        }
        let calls = self.begun.saturating_sub(self.withdrawn);
        inner.found_unless(Finding::Explained(calls))
    }

    /// How far the stream is judged, once there is a header.
    pub(crate) fn so_far(&self) -> Option<SoFar>
        requires some { IsFedSome self.now }
        requires none { self.now.found ≡ None }
        ensures { (most ahead : ℕ) (fed : List ℕ) → IsFed most ahead fed self.now
            → MatchOption result (IsShortHeader fed) (λ so_far. IsSoFarOf ahead fed so_far) }
    {
        let judge = &self.judge.as_ref()?.judge;
        Some(SoFar {
            calls: self.begun.saturating_sub(self.withdrawn),
            explained: judge.explained(),
            under_way: judge.open_calls(),
        })
    }

    /// The call that the event with this number ends, at which the stream was found stuck, by the numbers of its
    /// contents.
    fn ended_by_numbers(&self, number: u64) -> EndedCall
        requires { KeepsEndAt self.now.judge number }
        ensures { ended_in self.now.judge number ≡ Some result }
    {
        let Some(inner) = &self.judge else {
            unreachable!();
        };
        match inner.judge.ended_at(number) {
            Some(ended) => ended,
            None => unreachable!(),
        }
    }

    /// The call that the event with this number ends, at which the stream was found stuck, and the replies that it could
    /// have had.
    pub(crate) fn stuck_at(&self, number: u64) -> Result<StuckEnd, AllocError>
        requires keeps { KeepsFedSome self.now }
        requires end { KeepsEndAt self.now.judge number }
        ensures { IfOk result (λ end. (most ahead : ℕ) (fed : List ℕ) → KeepsFed most ahead fed self.now
            → EndsInStream fed self.now.judge (Stuck number) → IsStuckEnd most ahead fed number end) }
    {
        let ended = self.ended_by_numbers(number);
        let Some(inner) = &self.judge else {
            unreachable!();
        };
        let replies = inner.judge.possible_at(number, &ended.call)?;
        Ok(StuckEnd {
            ended: inner.in_words(&ended),
            replies,
        })
    }

    /// The text of a witness that the stream is stuck at the event with this number, or why there is none. Where it is
    /// sought no more than `most` positions are kept.
    pub(crate) fn witness_at(&self, number: u64, most: u64) -> Result<Vec<u8>, NoWitness>
        requires keeps { KeepsFedSome self.now }
        requires end { KeepsEndAt self.now.judge number }
        ensures { (asked : Watching) (fed : List ℕ) → asked.most ≡ most → KeepsFed asked.most asked.ahead fed self.now
            → EndsInStream fed self.now.judge (Stuck number) → IsText asked fed number result }
    {
        let ended = self.ended_by_numbers(number);
        let Some(inner) = &self.judge else {
            unreachable!();
        };
        let ended = inner.in_words(&ended);
        match inner.judge.judge_up_to(number) {
            Some(judge) => witness_text(self.alloc, inner, judge, number, &ended, most),
            None => Err(NoWitness::BeganLate),
        }
    }
}
