//! The judge of a stream's run: its events go by the numbers of their contents.

ghost use Rattle.std.specs.Prelude.{◌≡◌, ◌++◌, ◌∷◌, [], ⊤, IfOk, List, MatchOption, length, ℕ};
ghost use Rattle.stamp_core.specs.Limits.{Bounds};
ghost use Rattle.stamp_runs.specs.declared.event.Event.{Event};
ghost use Rattle.stamp_watch.specs.LateJudge.{HasFoundNothingLater, IsLateJudge, IsLateJudgeOfSome};
ghost use Rattle.stamp_watch.specs.Names.{AreContents};
ghost use Rattle.stamp_watch.specs.declared.ended_call.EndedCall.{EndedCall};
ghost use Rattle.stamped_watch.specs.declared.event_bytes.Front.TheVariants.{Longer};
ghost use Rattle.stamped_watch.specs.Stream.{words_of_record};
ghost use Rattle.stamped_watch.specs.StreamJudge.{KeepsCallOf};
ghost use Rattle.stamped_watch.specs.EventBytes.{IsFrontIn, IsWidth};
ghost use Rattle.stamped_watch.specs.StreamJudge.{EndsInRunOf, IsEndBy, IsFoundUnless, IsGivenOne, IsNewRunJudge, IsSmallEvent, IsToldEvent, KeepsSoFar, KeepsStill};

use crate::event_bytes::event_behind;
use crate::finding::{Finding, broken_at, finding_of, is_explained};
use crate::header::Header;
use crate::misplaced::why_misplaced;
use stamp_watch::{EndedCall, LateJudge, Names, StreamEvent};
use std::alloc::{AllocError, Global};

/// Judges the run of a stream.
#[derive(Drop)]
pub(crate) struct RunJudge {
    pub(crate) judge: LateJudge,
    /// The contents that were told.
    pub(crate) names: Names,
    /// How many words the record has, in a stream with data.
    pub(crate) width: Option<usize>,
}

impl RunJudge {
    /// The judge of a stream with this header, of which no event has come.
    pub(crate) fn new(
        alloc: Global,
        header: Header,
        most: u64,
        ahead: usize,
    ) -> Result<RunJudge, AllocError>
        requires { IsWidth header.width }
        ensures { IfOk result (IsNewRunJudge header most ahead) }
    {
        let judge = LateJudge::new(alloc, header.limits, most, ahead)?;
        let names = Names::new(alloc, header.width.unwrap_or(1))?;
        Ok(RunJudge {
            judge,
            names,
            width: header.width,
        })
    }

    /// The event of these first bytes and the words behind them, by the numbers of its contents.
    pub(crate) fn event(
        &mut self,
        width: usize,
        front: &[u8; 16],
        behind: &[u8],
    ) -> Result<StreamEvent, AllocError>
        requires contents { AreContents (words_of_record self.old.width) self.old.names }
        requires front { IsFrontIn self.old.width front.now (Longer width (length behind.now)) }
        ensures event { IfOk result (IsToldEvent self.old self.new front.now behind.now) }
    {
        let event = event_behind(width, front, behind);
        match self.names.event(&event)? {
            Some(event) => Ok(event),
            None => unreachable!(),
        }
    }

    /// The call that ended, in words.
    pub(crate) fn in_words(&self, ended: &EndedCall) -> EndedCall
        ensures { (told : EndedCall) → IsEndBy self.now.names told ended.now → result ≡ told }
    {
        let reply = match &ended.reply {
            Some(reply) => Some(self.names.reply_in_words(reply)),
            None => None,
        };
        EndedCall {
            lane: ended.lane,
            call: self.names.call_in_words(&ended.call),
            reply,
        }
    }

    /// How many events have come, where nothing is found of them.
    pub(crate) fn count(&self) -> u64
        requires some { IsLateJudgeOfSome self.now.judge }
        requires none { HasFoundNothingLater self.now.judge }
        ensures { (limits : Bounds) (most ahead : ℕ) (run : List Event) → IsLateJudge limits most ahead run self.now.judge
            → result ≡ length run }
    {
        self.judge.count()
    }

    /// Gives one more event to the judge: what is found then.
    pub(crate) fn given(&mut self, event: &StreamEvent) -> Result<Option<Finding>, AllocError>
        requires some { IsLateJudgeOfSome self.old.judge }
        requires none { HasFoundNothingLater self.old.judge }
        requires small { IsSmallEvent event.now }
        ensures found { IfOk result (λ found. (limits : Bounds) (most ahead : ℕ) (run : List Event)
            → IsLateJudge limits most ahead run self.old.judge
            → IsGivenOne limits most ahead run event.now self.new.judge found) }
        ensures tells { IfOk result (λ found. MatchOption found ⊤ (KeepsCallOf self.new.judge)) }
        ensures there { IfOk result (λ found. (limits : Bounds) (most ahead : ℕ) (run : List Event)
            → IsLateJudge limits most ahead run self.old.judge
            → MatchOption found ⊤ (EndsInRunOf (run ++ event.now ∷ []) self.new.judge)) }
        ensures kept { IfOk result (λ _. KeepsSoFar event.now self.old.judge self.new.judge) }
        ensures same { self.new ≡ record self.old { judge = self.new.judge } }
    {
        if self.judge.is_full() {
            return Ok(Some(Finding::Full));
        }
        let found = self.judge.push(event)?;
        let Some(verdict) = found else {
            return Ok(None);
        };
        match broken_at(verdict) {
            Some(number) => Ok(Some(Finding::Misplaced(number, why_misplaced(event)))),
            None => Ok(Some(finding_of(verdict))),
        }
    }

    /// What is found where no more events come: this, if all of them are explained.
    pub(crate) fn found_unless(&mut self, explained: Finding) -> Result<Finding, AllocError>
        requires some { IsLateJudgeOfSome self.old.judge }
        requires none { HasFoundNothingLater self.old.judge }
        ensures found { IfOk result (λ finding. (limits : Bounds) (most ahead : ℕ) (run : List Event)
            → IsLateJudge limits most ahead run self.old.judge
            → IsFoundUnless limits most ahead run explained finding) }
        ensures kept { IfOk result (λ _. KeepsStill self.old.judge self.new.judge) }
        ensures tells { IfOk result (λ finding. KeepsCallOf self.new.judge explained → KeepsCallOf self.new.judge finding) }
        ensures there { IfOk result (λ finding. (limits : Bounds) (most ahead : ℕ) (run : List Event)
            → IsLateJudge limits most ahead run self.old.judge
            → EndsInRunOf run self.new.judge explained → EndsInRunOf run self.new.judge finding) }
        ensures same { self.new ≡ record self.old { judge = self.new.judge } }
    {
        let verdict = self.judge.finish()?;
        if is_explained(verdict) {
            return Ok(explained);
        }
        Ok(finding_of(verdict))
    }
}
