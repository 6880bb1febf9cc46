//! The handles of a record of many words.
ghost use Rattle.std.specs.Prelude.{◌≡◌, ◌≤◌, ℕ, List, OnOk, OnErr, IfErr, length};
ghost use Rattle.stamp_core.specs.declared.call.Call.TheVariants.{Get, Put, PutIf};
ghost use Rattle.stamp_core.specs.declared.reply.Reply.TheVariants.{Done, Content, Yes};
ghost use Rattle.stamp_threads.specs.PassView.{after_split, split_off};
ghost use Rattle.stamped_lock.specs.RecordCalls.{MadeOnRecord, RefusesPut, RefusesGet};
ghost use Rattle.stamped_lock.specs.RecordCalls.{MadeAtLast, SpentAtLast};
ghost use Rattle.stamped_lock.specs.RecordCalls.{RefusesUpdate, UpdateSpent, SeenAtLast};

use crate::spent::Spent;
use stamp_core::{KnownLayout, LayoutOne};
use stamp_threads::{ContentRule, GetFault, PutFault, RecordPass, WideRecord};
use std::marker::Model;
use std::sync::Wait;
use std::thread;

/// One thread's way to a record of many words. A handle can be moved to another thread, and can't be
/// copied; `split` makes another one. It has no bytes but the record's reference.
#[derive(Drop)]
pub struct WideHandle<'a, const N: usize, P: ContentRule, L: KnownLayout = LayoutOne> {
    running: &'a WideRecord<P, L>,
    pass: RecordPass,
    ghost table: { pass.table ≡ running.now.table },
    ghost width: { (running.now.shape.width ≡ N) × (1 ≤ N) × (N ≤ 4096) },
}

impl<'a, const N: usize, P: ContentRule, L: KnownLayout> Model for WideHandle<'a, N, P, L> {
    ghost use Rattle.std.specs.Prelude.{◌≡◌};
    ghost use Rattle.stamped_lock.specs.RecordCalls.{RecordHandleView};

    ghost Value = { RecordHandleView };

    ghost view = { λ h. record { running = h.running.now; pass = h.pass.view } };
}

impl<'a, const N: usize, P: ContentRule, L: KnownLayout> WideHandle<'a, N, P, L> {
    /// The handle of a record and a pass of it.
    pub(crate) fn new(running: &'a WideRecord<P, L>, pass: RecordPass) -> WideHandle<'a, N, P, L>
        requires table { pass.table ≡ running.now.table }
        requires width { (running.now.shape.width ≡ N) × (1 ≤ N) × (N ≤ 4096) }
        ensures running { result.running ≡ running.now }
        ensures pass { result.pass ≡ pass.view }
    {
        WideHandle { running, pass }
    }

    /// Puts the words if nobody else is putting. It waits for nobody, and where it fails nothing
    /// was put: `Busy` where the first load of the lock word found somebody putting, `Spent` where
    /// it found nobody and no version left, `Lost` where the word changed after it.
    pub fn put_from_once(&mut self, words: &[u64]) -> Result<(), PutFault>
        requires long { length words.now ≡ N }
        requires rule { P.holds words.now }
        ensures ok { OnOk result (MadeOnRecord (Put words.now) Done self.old self.new) }
        ensures err { let h = self.old in let w = self.new in
            IfErr result (λ fault. RefusesPut fault h w) }
    {
        self.running.put_from_once(&mut self.pass, words)
    }

    /// Puts the words. Where `put_from_once` fails as `Busy` or as `Lost`, it lets other threads run and
    /// tries again. It fails only where no version is left; nothing was put then.
    pub fn put_from<R: Wait>(&mut self, rt: &R, words: &[u64]) -> Result<(), Spent>
        requires long { length words.now ≡ N }
        requires rule { P.holds words.now }
        ensures made { OnOk result (MadeAtLast (Put words.now) Done self.old self.new) }
        ensures spent { OnErr result (SpentAtLast self.old self.new) }
    {
        for _ in rt.forever() {
            match self.put_from_once(words) {
                Ok(()) => return Ok(()),
                Err(PutFault::Spent(_)) => return Err(Spent),
                Err(PutFault::Busy(_) | PutFault::Lost { .. }) => thread::yield_now(),
            }
        }
        unreachable!()
    }

    /// Gets the words if nobody is putting. It waits for nobody: it fails as `Busy` where the first load
    /// of the lock word found somebody putting, and as `Lost` where the word changed after it; what
    /// stands in `into` may be any words then.
    pub fn get_into_once(&mut self, into: &mut [u64]) -> Result<(), GetFault>
        requires { length into.old ≡ N }
        ensures long { length into.new ≡ N }
        ensures rule { OnOk result (P.holds into.new) }
        ensures ok { OnOk result (MadeOnRecord Get (Content into.new) self.old self.new) }
        ensures err { let h = self.old in let w = self.new in
            IfErr result (λ fault. RefusesGet fault h w) }
    {
        self.running.get_into(&mut self.pass, into)
    }

    /// Gets the words. Where `get_into_once` fails, as `Busy` or as `Lost`, it lets other threads run
    /// and tries again.
    pub fn get_into<R: Wait>(&mut self, rt: &R, into: &mut [u64])
        requires { length into.old ≡ N }
        ensures long { length into.new ≡ N }
        ensures rule { P.holds into.new }
        ensures made { MadeAtLast Get (Content into.new) self.old self.new }
    {
        for _ in rt.forever() {
            if let Ok(()) = self.get_into_once(into) {
                return;
            }
            thread::yield_now();
        }
        unreachable!()
    }

    /// Puts what the closure makes of the words over them, as one call. The old words are left in
    /// `old`, and those that were put in `new`. The closure runs once at most, with nothing held,
    /// on a copy of words that stood together; it may rely on the rule, and has to keep it. It
    /// waits for nobody, and where it fails nothing was put, and both may be any words: `Busy`
    /// where the first load of the lock word found somebody putting, `Lost` where the word changed
    /// after it (the closure may have run then), `Spent` where no version is left.
    pub fn update_in_once<F: Fn(&mut [u64])>(
        &mut self,
        old: &mut [u64],
        new: &mut [u64],
        change: F,
    ) -> Result<(), PutFault>
        requires long { (length old.old ≡ N) × (length new.old ≡ N) }
        requires callable { (words : _) (seen : _) → length words.now ≡ N → P.holds words.now
            → SeenAtLast P.holds words.now self.old seen → F.pre change words }
        requires rule { (words : _) (changed : _) → length words.now ≡ N → P.holds words.now
            → F.post change words tt changed → (length changed.now ≡ N) × P.holds changed.now }
        ensures long { (length old.new ≡ N) × (length new.new ≡ N) }
        ensures rule { OnOk result (P.holds old.new) }
        ensures ran { OnOk result ((words : _) × (changed : _) × F.post change words tt changed
            × (words.now ≡ old.new) × (changed.now ≡ new.new)) }
        ensures ok { OnOk result (MadeAtLast (PutIf old.new new.new) Yes self.old self.new) }
        ensures err { let h = self.old in let w = self.new in
            IfErr result (λ fault. RefusesUpdate P.holds fault h w) }
    {
        self.update_lent(old, new, &change)
    }

    /// `update_in_once`, by a closure that is lent.
    fn update_lent<F: Fn(&mut [u64])>(
        &mut self,
        old: &mut [u64],
        new: &mut [u64],
        change: &F,
    ) -> Result<(), PutFault>
        requires long { (length old.old ≡ N) × (length new.old ≡ N) }
        requires callable { (words : _) (seen : _) → length words.now ≡ N → P.holds words.now
            → SeenAtLast P.holds words.now self.old seen → F.pre change.now words }
        requires rule { (words : _) (changed : _) → length words.now ≡ N → P.holds words.now
            → F.post change.now words tt changed → (length changed.now ≡ N) × P.holds changed.now }
        ensures long { (length old.new ≡ N) × (length new.new ≡ N) }
        ensures rule { OnOk result (P.holds old.new) }
        ensures ran { OnOk result ((words : _) × (changed : _) × F.post change.now words tt changed
            × (words.now ≡ old.new) × (changed.now ≡ new.new)) }
        ensures ok { OnOk result (MadeAtLast (PutIf old.new new.new) Yes self.old self.new) }
        ensures err { let h = self.old in let w = self.new in
            IfErr result (λ fault. RefusesUpdate P.holds fault h w) }
    {
        let word = self.running.see_once(&mut self.pass, old)?;
        new.copy_from_slice(old);
        change(new);
        self.running.replace_from_once(&mut self.pass, word, new)?;
        Ok(())
    }

    /// Puts what the closure makes of the words over them, as one call. The old words are left in
    /// `old`, and those that were put in `new`. So no update is lost. The closure runs with nothing
    /// held, and again after each loss to another thread, on a copy of words that stood together;
    /// it may rely on the rule, and has to keep it. Where `update_in_once` fails as `Busy` or as
    /// `Lost`, it lets other threads run and tries again. It fails only where no version is left;
    /// nothing was put then, and both may be any words.
    pub fn update_in<R: Wait, F: Fn(&mut [u64])>(
        &mut self,
        rt: &R,
        old: &mut [u64],
        new: &mut [u64],
        change: F,
    ) -> Result<(), Spent>
        requires long { (length old.old ≡ N) × (length new.old ≡ N) }
        requires callable { (words : _) (seen : _) → length words.now ≡ N → P.holds words.now
            → SeenAtLast P.holds words.now self.old seen → F.pre change words }
        requires rule { (words : _) (changed : _) → length words.now ≡ N → P.holds words.now
            → F.post change words tt changed → (length changed.now ≡ N) × P.holds changed.now }
        ensures long { (length old.new ≡ N) × (length new.new ≡ N) }
        ensures rule { OnOk result (P.holds old.new) }
        ensures ran { OnOk result ((words : _) × (changed : _) × F.post change words tt changed
            × (words.now ≡ old.new) × (changed.now ≡ new.new)) }
        ensures made { OnOk result (MadeAtLast (PutIf old.new new.new) Yes self.old self.new) }
        ensures spent { OnErr result (UpdateSpent P.holds self.old self.new) }
    {
        for _ in rt.forever() {
            match self.update_lent(old, new, &change) {
                Ok(()) => return Ok(()),
                Err(PutFault::Spent(_)) => return Err(Spent),
                Err(PutFault::Busy(_) | PutFault::Lost { .. }) => thread::yield_now(),
            }
        }
        unreachable!()
    }

    /// One more handle of the same record. It knows as much as this one, and has made no call.
    pub fn split(&mut self) -> WideHandle<'a, N, P, L>
        ensures running { (self.new.running ≡ self.old.running)
            × (result.running ≡ self.old.running) }
        ensures given { self.new.pass ≡ after_split self.old.pass }
        ensures new { result.pass ≡ split_off self.old.pass }
    {
        let pass = self.running.split_off(&mut self.pass);
        WideHandle {
            running: self.running,
            pass,
        }
    }
}
