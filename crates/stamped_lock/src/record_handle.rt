//! The handles of a record.
ghost use Rattle.std.specs.Prelude.{◌≡◌, ◌≤◌, ℕ, List, IfOk, IfErr, OnOk, OnErr, Some};
ghost use Rattle.std.specs.Fn.{FnReturnsAt};
ghost use Rattle.stamp_core.specs.declared.call.Call.TheVariants.{Get, Put};
ghost use Rattle.stamp_core.specs.declared.reply.Reply.TheVariants.{Done, Content};
ghost use Rattle.stamp_threads.specs.PassView.{after_split, split_off};
ghost use Rattle.stamped_lock.specs.InWords.{AreWordsOf};
ghost use Rattle.stamped_lock.specs.RecordCalls.{MadeOnRecord, RefusesPut, RefusesGet, MadeAtLast, SpentAtLast};
ghost use Rattle.stamped_lock.specs.RecordCalls.{RefusesUpdate, Updated, UpdateSpent, PutIfAtLast, SeenAtLast};
ghost use Rattle.stamped_lock.specs.RecordCalls.{PutNothing};
ghost use Rattle.stamped_lock.specs.inner.RecordCalls.{HasWidth};

use crate::in_words::InWords;
use crate::record_calls;
use crate::spent::Spent;
use crate::update_error::UpdateError;
use stamp_core::{KnownLayout, LayoutOne};
use stamp_threads::{ContentRule, GetFault, PutFault, RecordPass, RuledRecord};
use std::marker::Model;
use std::sync::Wait;

/// One thread's way to the record. A handle can be moved to another thread, and can't be copied;
/// `split` makes another one. It has no bytes but the record's reference.
#[derive(Drop)]
pub struct RecordHandle<'a, const N: usize, P: ContentRule, L: KnownLayout = LayoutOne> {
    running: &'a RuledRecord<P, L>,
    pass: RecordPass,
    ghost table: { pass.table ≡ running.now.table },
    ghost width: { (running.now.shape.width ≡ N) × (1 ≤ N) × (N ≤ 16) },
}

impl<'a, const N: usize, P: ContentRule, L: KnownLayout> Model for RecordHandle<'a, N, P, L> {
    ghost use Rattle.std.specs.Prelude.{◌≡◌};
    ghost use Rattle.stamped_lock.specs.RecordCalls.{RecordHandleView};

    ghost Value = { RecordHandleView };

    ghost view = { λ h. record { running = h.running.now; pass = h.pass.view } };
}

impl<'a, const N: usize, P: ContentRule, L: KnownLayout> RecordHandle<'a, N, P, L> {
    /// The handle of a record and a pass of it.
    pub(crate) fn new(running: &'a RuledRecord<P, L>, pass: RecordPass) -> RecordHandle<'a, N, P, L>
        requires table { pass.table ≡ running.now.table }
        requires width { HasWidth N running.now.shape }
        ensures running { result.running ≡ running.now }
        ensures pass { result.pass ≡ pass.view }
    {
        RecordHandle { running, pass }
    }

    /// Puts the words if nobody else is putting. It waits for nobody, and where it fails nothing
    /// was put: `Busy` where the first load of the lock word found somebody putting, `Spent` where
    /// it found nobody and no version left, `Lost` where the word changed after it.
    pub fn put_once(&mut self, words: [u64; N]) -> Result<(), PutFault>
        requires { P.holds words }
        ensures ok { let h = self.old in let w = self.new in
            OnOk result (MadeOnRecord (Put words.entry) Done h w) }
        ensures err { let h = self.old in let w = self.new in
            IfErr result (λ fault. RefusesPut fault h w) }
    {
        record_calls::put_once(self.running, &mut self.pass, &words)
    }

    /// Gets the words if nobody is putting. It waits for nobody: it fails as `Busy` where the first load
    /// of the lock word found somebody putting, and as `Lost` where the word changed after it.
    #[inline(always)]
    pub fn get_once(&mut self) -> Result<[u64; N], GetFault>
        ensures rule { IfOk result (λ words. P.holds words) }
        ensures ok { let h = self.old in let w = self.new in
            IfOk result (λ words. MadeOnRecord Get (Content words) h w) }
        ensures err { let h = self.old in let w = self.new in
            IfErr result (λ fault. RefusesGet fault h w) }
    {
        record_calls::get_once(self.running, &mut self.pass)
    }

    /// Gets the words. Where `get_once` fails, as `Busy` or as `Lost`, it lets other threads run and
    /// tries again.
    pub fn get<R: Wait>(&mut self, rt: &R) -> [u64; N]
        ensures rule { P.holds result }
        ensures made { MadeAtLast Get (Content result) self.old self.new }
    {
        record_calls::get(rt, self.running, &mut self.pass)
    }

    /// Puts the words. Where `put_once` fails as `Busy` or as `Lost`, it lets other threads run and
    /// tries again. It fails only where no version is left; nothing was put then.
    pub fn put<R: Wait>(&mut self, rt: &R, words: [u64; N]) -> Result<(), Spent>
        requires { P.holds words }
        ensures made { let h = self.old in let w = self.new in
            OnOk result (MadeAtLast (Put words.entry) Done h w) }
        ensures spent { let h = self.old in let w = self.new in
            OnErr result (SpentAtLast h w) }
    {
        record_calls::put(rt, self.running, &mut self.pass, &words)
    }

    /// Puts what the closure answers on the words over them, as one call, and gives the old words. The
    /// closure runs once at most, with nothing held, on words that stood together; it may rely on the
    /// rule, and has to keep it. It waits for nobody, and where it fails nothing was put: `Busy` where the
    /// first load of the lock word found somebody putting, `Lost` where the word changed after it (the
    /// closure may have run then), `Spent` where no version is left.
    pub fn update_once<T: InWords<N>, F: Fn(&T) -> T>(&mut self, f: F) -> Result<T, PutFault>
        requires spelled { (row : List ℕ) → P.holds row → AreWordsOf T.is_value T.words row }
        requires callable { (value : _) (seen : _) → T.is_value value.now → P.holds (T.words value.now)
            → SeenAtLast P.holds (T.words value.now) self.old seen → F.pre f value }
        requires rule { (old : _) (value : T) → T.is_value old.now → P.holds (T.words old.now)
            → F.post f old value → T.is_value value → P.holds (T.words value) }
        ensures rule { IfOk result (λ old. T.is_value old × P.holds (T.words old)) }
        ensures ok { let h = self.old in let w = self.new in
            IfOk result (λ old. Updated (λ value. FnReturnsAt F.Fn f old value) T.words old h w) }
        ensures err { let h = self.old in let w = self.new in
            IfErr result (λ fault. RefusesUpdate P.holds fault h w) }
    {
        record_calls::update_once(self.running, &mut self.pass, &f)
    }

    /// Puts what the closure answers on the words over them, as one call, and gives the old words.
    /// So no update is lost. The closure runs with nothing held, and again after each loss to
    /// another thread, on words that stood together; it may rely on the rule, and has to keep it.
    /// Where `update_once` fails as `Busy` or as `Lost`, it lets other threads run and tries again.
    /// It fails only where no version is left; nothing was put then.
    pub fn update<T: InWords<N>, R: Wait, F: Fn(&T) -> T>(
        &mut self,
        rt: &R,
        f: F,
    ) -> Result<T, Spent>
        requires spelled { (row : List ℕ) → P.holds row → AreWordsOf T.is_value T.words row }
        requires callable { (value : _) (seen : _) → T.is_value value.now → P.holds (T.words value.now)
            → SeenAtLast P.holds (T.words value.now) self.old seen → F.pre f value }
        requires rule { (old : _) (value : T) → T.is_value old.now → P.holds (T.words old.now)
            → F.post f old value → T.is_value value → P.holds (T.words value) }
        ensures rule { IfOk result (λ old. T.is_value old × P.holds (T.words old)) }
        ensures made { let h = self.old in let w = self.new in
            IfOk result (λ old. Updated (λ value. FnReturnsAt F.Fn f old value) T.words old h w) }
        ensures spent { let h = self.old in let w = self.new in
            OnErr result (UpdateSpent P.holds h w) }
    {
        record_calls::update(rt, self.running, &mut self.pass, &f)
    }

    /// As `update`, by a closure that may decline. It fails as `Declined` where the closure answered
    /// none, and gives the words on which it did, which the record held; and as `Spent` where no version
    /// is left. Nothing was put then.
    pub fn try_update<T: InWords<N>, R: Wait, F: Fn(&T) -> Option<T>>(
        &mut self,
        rt: &R,
        f: F,
    ) -> Result<T, UpdateError<T>>
        requires spelled { (row : List ℕ) → P.holds row → AreWordsOf T.is_value T.words row }
        requires callable { (value : _) (seen : _) → T.is_value value.now → P.holds (T.words value.now)
            → SeenAtLast P.holds (T.words value.now) self.old seen → F.pre f value }
        requires rule { (old : _) (value : T) → T.is_value old.now → P.holds (T.words old.now)
            → F.post f old (Some value) → T.is_value value → P.holds (T.words value) }
        ensures rule { IfOk result (λ old. T.is_value old × P.holds (T.words old)) }
        ensures made { let h = self.old in let w = self.new in
            IfOk result (λ old. Updated (λ value. FnReturnsAt F.Fn f old (Some value)) T.words old h w) }
        ensures err { let h = self.old in let w = self.new in
            IfErr result (λ error. PutNothing (FnReturnsAt F.Fn f) P.holds T.is_value T.words error h w) }
    {
        record_calls::try_update(rt, self.running, &mut self.pass, &f)
    }

    /// Puts the second words if the record holds the first, and says whether it did. Only where the first
    /// keep to the rule need the second do. It waits for nobody, and where it fails nothing was put: `Busy`
    /// where the first load of the lock word found somebody putting, `Lost` where the word changed after
    /// it, `Spent` where the record held the first words and no version is left.
    pub fn put_if_once(&mut self, expected: [u64; N], words: [u64; N]) -> Result<bool, PutFault>
        requires { P.holds expected → P.holds words }
        ensures ok { let h = self.old in let w = self.new in
            IfOk result (λ yes. PutIfAtLast expected.entry words.entry yes h w) }
        ensures err { let h = self.old in let w = self.new in
            IfErr result (λ fault. RefusesUpdate (λ row. row ≡ expected.entry) fault h w) }
    {
        record_calls::put_if_once(self.running, &mut self.pass, &expected, &words)
    }

    /// Puts the second words if the record holds the first, and says whether it did. Where `put_if_once`
    /// fails as `Busy` or as `Lost`, it lets other threads run and tries again. It fails only where the
    /// record held the first words and no version is left; nothing was put then.
    pub fn put_if<R: Wait>(
        &mut self,
        rt: &R,
        expected: [u64; N],
        words: [u64; N],
    ) -> Result<bool, Spent>
        requires { P.holds expected → P.holds words }
        ensures made { let h = self.old in let w = self.new in
            IfOk result (λ yes. PutIfAtLast expected.entry words.entry yes h w) }
        ensures spent { let h = self.old in let w = self.new in
            OnErr result (UpdateSpent (λ row. row ≡ expected.entry) h w) }
    {
        record_calls::put_if(rt, self.running, &mut self.pass, &expected, &words)
    }

    /// One more handle of the same record. It knows as much as this one, and has made no call.
    pub fn split(&mut self) -> RecordHandle<'a, N, P, L>
        ensures running { (self.new.running ≡ self.old.running)
            × (result.running ≡ self.old.running) }
        ensures given { self.new.pass ≡ after_split self.old.pass }
        ensures new { result.pass ≡ split_off self.old.pass }
    {
        let pass = self.running.split_off(&mut self.pass);
        RecordHandle {
            running: self.running,
            pass,
        }
    }
}
