//! The handles of a cell.
ghost use Rattle.std.specs.Prelude.{◌≡◌, ◌≤◌, IfOk, IfErr, OnOk, OnErr, Some};
ghost use Rattle.std.specs.Fn.{FnReturnsAt};
ghost use Rattle.stamp_core.specs.declared.call.Call.TheVariants.{Get, Put};
ghost use Rattle.stamp_core.specs.declared.reply.Reply.TheVariants.{Done, Content};
ghost use Rattle.stamp_threads.specs.PassView.{after_split, split_off};
ghost use Rattle.stamped_lock.specs.InWords.{AreWordsOf};
ghost use Rattle.stamped_lock.specs.RecordCalls.{MadeAtLast, SpentAtLast};
ghost use Rattle.stamped_lock.specs.RecordCalls.{Updated, UpdateSpent, PutIfAtLast, PutNothing, SeenAtLast};
ghost use Rattle.stamped_lock.specs.inner.RecordCalls.{HasWidth};

use crate::cell::WordsOf;
use crate::in_words::InWords;
use crate::record_calls;
use crate::spent::Spent;
use crate::update_error::UpdateError;
use stamp_core::{KnownLayout, LayoutOne};
use stamp_threads::{RecordPass, RuledRecord};
use std::marker::Model;
use std::sync::Wait;

/// One thread's way to the cell. A handle can be moved to another thread, and can't be copied; `split`
/// makes another one. It has no bytes but the cell's reference.
#[derive(Drop)]
pub struct CellHandle<'a, const N: usize, T: InWords<N>, L: KnownLayout = LayoutOne> {
    running: &'a RuledRecord<WordsOf<N, T>, L>,
    pass: RecordPass,
    ghost table: { pass.table ≡ running.now.table },
    ghost width: { (running.now.shape.width ≡ N) × (1 ≤ N) × (N ≤ 16) },
}

impl<'a, const N: usize, T: InWords<N>, L: KnownLayout> Model for CellHandle<'a, N, T, L> {
    ghost use Rattle.std.specs.Prelude.{◌≡◌};
    ghost use Rattle.stamped_lock.specs.RecordCalls.{RecordHandleView};

    ghost Value = { RecordHandleView };

    ghost view = { λ h. record { running = h.running.now; pass = h.pass.view } };
}

impl<'a, const N: usize, T: InWords<N>, L: KnownLayout> CellHandle<'a, N, T, L> {
    /// The handle of a cell's record and a pass of it.
    pub(crate) fn new(
        running: &'a RuledRecord<WordsOf<N, T>, L>,
        pass: RecordPass,
    ) -> CellHandle<'a, N, T, L>
        requires table { pass.table ≡ running.now.table }
        requires width { HasWidth N running.now.shape }
        ensures running { result.running ≡ running.now }
        ensures pass { result.pass ≡ pass.view }
    {
        CellHandle { running, pass }
    }

    /// Gets the value. While somebody puts, it lets other threads run and tries again.
    pub fn get<R: Wait>(&mut self, rt: &R) -> T
        ensures value { T.is_value result }
        ensures made { MadeAtLast Get (Content (T.words result)) self.old self.new }
    {
        let row: [u64; N] = record_calls::get(rt, self.running, &mut self.pass);
        T::from_words(&row)
    }

    /// Puts the value, whatever it was. While somebody else puts, it lets other threads run and tries
    /// again. It fails only where no version is left; nothing was put then.
    pub fn put<R: Wait>(&mut self, rt: &R, value: T) -> Result<(), Spent>
        ensures made { let h = self.old in let w = self.new in
            OnOk result (MadeAtLast (Put (T.words value)) Done h w) }
        ensures spent { let h = self.old in let w = self.new in
            OnErr result (SpentAtLast h w) }
    {
        record_calls::put(rt, self.running, &mut self.pass, &value.to_words())
    }

    /// Puts what the closure answers on the value over it, as one call, and gives the old value. So
    /// no update is lost. The closure runs with nothing held, and again after each loss to another
    /// thread, on a value that the cell held. It fails only where no version is left; nothing was
    /// put then.
    pub fn update<R: Wait, F: Fn(&T) -> T>(&mut self, rt: &R, f: F) -> Result<T, Spent>
        requires { (value : _) (seen : _) → T.is_value value.now
            → SeenAtLast (AreWordsOf T.is_value T.words) (T.words value.now) self.old seen → F.pre f value }
        ensures value { IfOk result (λ old. T.is_value old) }
        ensures made { let h = self.old in let w = self.new in
            IfOk result (λ old. Updated (λ value. FnReturnsAt F.Fn f old value) T.words old h w) }
        ensures spent { let h = self.old in let w = self.new in
            OnErr result (UpdateSpent (AreWordsOf T.is_value T.words) h w) }
    {
        record_calls::update(rt, self.running, &mut self.pass, &f)
    }

    /// As `update`, by a closure that may decline. It fails as `Declined` where the closure answered
    /// none, and gives the value on which it did, which the cell held; and as `Spent` where no version is
    /// left. Nothing was put then.
    pub fn try_update<R: Wait, F: Fn(&T) -> Option<T>>(
        &mut self,
        rt: &R,
        f: F,
    ) -> Result<T, UpdateError<T>>
        requires { (value : _) (seen : _) → T.is_value value.now
            → SeenAtLast (AreWordsOf T.is_value T.words) (T.words value.now) self.old seen → F.pre f value }
        ensures value { IfOk result (λ old. T.is_value old) }
        ensures made { let h = self.old in let w = self.new in
            IfOk result (λ old. Updated (λ value. FnReturnsAt F.Fn f old (Some value)) T.words old h w) }
        ensures err { let h = self.old in let w = self.new in IfErr result (λ error.
            PutNothing (FnReturnsAt F.Fn f) (AreWordsOf T.is_value T.words) T.is_value T.words error h w) }
    {
        record_calls::try_update(rt, self.running, &mut self.pass, &f)
    }

    /// Puts the second value if the cell holds the first, and says whether it did. Values are the
    /// same if their words are. While somebody else puts, it lets other threads run and tries
    /// again. It fails only where the cell held the first value and no version is left; nothing was
    /// put then.
    pub fn put_if<R: Wait>(&mut self, rt: &R, expected: T, value: T) -> Result<bool, Spent>
        ensures made { let h = self.old in let w = self.new in IfOk result (λ yes.
            PutIfAtLast (T.words expected) (T.words value) yes h w) }
        ensures spent { let h = self.old in let w = self.new in
            OnErr result (UpdateSpent (λ row. row ≡ T.words expected) h w) }
    {
        let (running, pass) = (self.running, &mut self.pass);
        record_calls::put_if(rt, running, pass, &expected.to_words(), &value.to_words())
    }

    /// One more handle of the same cell. It knows as much as this one, and has made no call.
    pub fn split(&mut self) -> CellHandle<'a, N, T, L>
        ensures running { (self.new.running ≡ self.old.running)
            × (result.running ≡ self.old.running) }
        ensures given { self.new.pass ≡ after_split self.old.pass }
        ensures new { result.pass ≡ split_off self.old.pass }
    {
        let pass = self.running.split_off(&mut self.pass);
        CellHandle {
            running: self.running,
            pass,
        }
    }
}
