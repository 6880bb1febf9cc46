//! A value behind the word of a lock, as handles and guards have it.
ghost use Rattle.std.specs.Prelude.{◌≡◌, IsTrue, IfOk, IfErr, true};
ghost use Rattle.stamp_core.specs.Call.{is_lock_call};
ghost use Rattle.stamp_core.specs.Limits.{AreInRange};
ghost use Rattle.stamp_core.specs.Word.{IsAdmitted, word_at};
ghost use Rattle.stamp_core.specs.Decision.{Decides};
ghost use Rattle.stamp_core.specs.CountedDecision.{decision};
ghost use Rattle.stamp_core.specs.LockDecision.{decision_as, reply_as};
ghost use Rattle.stamp_core.specs.declared.call.Call.TheVariants.{UnlockRead};
ghost use Rattle.stamp_core.specs.declared.reply.Reply.TheVariants.{Done};
ghost use Rattle.stamp_machines.specs.declared.machine.Turn.TheVariants as Turn;
ghost use Rattle.stamp_threads.specs.LockPass.{HasEntered};
ghost use Rattle.stamp_threads.specs.MayReply.{MayReply};
ghost use Rattle.stamp_threads.specs.GoesAsMachine.{GoesAsMachine};
ghost use Rattle.stamped_value.specs.Ends.{EndsAs};
ghost use Rattle.stamped_value.specs.inner.Deciding.{IsToDecide, IsUnderWay};
ghost use Rattle.stamped_value.specs.inner.Held.{MayCall};
ghost use Rattle.stamped_value.specs.Stands.{Stands};
ghost use Rattle.stamped_value.specs.ValueMade.{Seen, ValueMade};
ghost use Rattle.stamped_value.specs.Values.{HasValues, Opens};
ghost use Rattle.stamped_value.specs.declared.view.Held.TheVariants.{Free, Reading};

use crate::first::First;
use crate::handle::ValueHandle;
use crate::rule::{ValueKey, VersionRule};
use crate::steps::{self, ValueSeat, exchange, load, rest, take_reader};
use crate::view::ValueView;
use lent_table::{Ended, Table};
use stamp_core::{Call, Layout, Limits, LockDecision, LockReply, Word, decide_lock};
use stamp_threads::{Patience, anew};
use std::alloc::Global;
use std::marker::{Brand, Model};
use std::sync::Wait;

/// A value and its lock, as handles and guards refer to it: nothing tells them that threads may enter,
/// so their calls are proved to make no further handle.
#[derive(Drop)]
pub struct Guarded<T> {
    pub(crate) table: Table<T, ValueView<T>, ValueKey<T>, VersionRule, Global>,
    pub(crate) limits: Limits,
}

impl<T> Model for Guarded<T> {
    ghost use Rattle.std.specs.Prelude.{◌≡◌};
    ghost use Rattle.stamp_core.specs.Limits.{AreInRange};
    ghost use Rattle.stamped_value.specs.ValueLock.{ValueLock};

    ghost Value = { ValueLock T };

    ghost view = { λ l. record {
      table = l.table.shared.table_id;
      limits = l.limits;
      first = l.table.shared.key.first.value;
      enterable = l.table.shared.key.enterable;
    } };

    ghost invariant = { λ l. (l.table.shared.key.limits ≡ l.limits) × AreInRange l.limits };
}

impl<T: Drop> Guarded<T> {
    /// With its first value; threads may enter. The value comes back where memory is wanting.
    pub(crate) fn new(alloc: Global, limits: Limits, value: T) -> Result<Guarded<T>, T>
        ensures ok { IfOk result (λ lock. (lock.limits ≡ limits) × (lock.first ≡ value) × (lock.enterable ≡ true)) }
        ensures err { IfErr result (λ x. x ≡ value) }
    {
        let opening = Word::opening_in(limits.layout()).bits();
        let key = ValueKey {
            limits,
            enterable: true,
            first: First::of(&value),
        };
        match Table::new(alloc, opening, value, &key) {
            Ok((table, seat)) => {
                seat.leave();
                Ok(Guarded { table, limits })
            }
            Err(value) => Err(value),
        }
    }
}

impl<T> Guarded<T> {
    /// Decides the call on this word.
    #[inline(always)]
    pub(crate) fn decide(&self, call: &Call, word: u64) -> LockDecision
        requires lock_call { IsTrue (is_lock_call call.now) }
        requires admitted { IsAdmitted self.now.limits (word_at self.now.limits word) }
        ensures decides { let limits = self.now.limits in
            Decides limits (word_at limits word) call.now (decision_as result) }
        ensures number { decision_as result ≡ decision self.now.limits word call.now }
    {
        let limits = self.limits;
        let word = limits.word(word);
        // In each of the equal arms the compiler knows the layout, so that its masks are constants.
        match limits.layout() {
            Layout::One => decide_lock(limits, word, call),
            Layout::Two => decide_lock(limits, word, call),
        }
    }

    /// Makes the call, and tries again until it is made: `WriteLock` and `ReadLock` where they wait
    /// for others, and every call where its exchange lost. It pauses as `Patience` says, and may go on
    /// for ever. No contract says how it waits. The first try is built in.
    #[inline(always)]
    pub(crate) fn call<R: Wait>(&self, rt: &R, seat: &mut ValueSeat<T>, call: Call) -> LockReply
        requires lock_call { IsTrue (is_lock_call call) }
        requires table { seat.old.table_id ≡ self.now.table }
        requires may { MayCall call seat.old.me.0.held }
        requires stands { Stands self.now.limits seat.old.me }
        ensures in_range { AreInRange self.now.limits }
        ensures table { seat.new.table_id ≡ self.now.table }
        ensures stands { Stands self.now.limits seat.new.me }
        ensures made { ValueMade self.now.limits call (reply_as result) seat.old.me seat.new.me }
        ensures reply { MayReply call (reply_as result) }
        ensures machine { GoesAsMachine self.now.limits call seat.old.me.0.pass seat.new.me.0.pass
            (Turn.Done (reply_as result)) }
    {
        let table = &self.table.shared;
        let word = load::<T, Brand>(table, seat, &call);
        match self.decide(&call, word) {
            LockDecision::Answer(reply) => reply,
            LockDecision::Change(new, reply) => {
                let found = exchange::<T, Brand>(table, seat, &call, word, new.bits());
                if found == word {
                    return reply;
                }
                self.go_on_anew(rt, seat, &call, found, Patience::paused())
            }
            LockDecision::Wait => self.go_on_anew(rt, seat, &call, word, Patience::new()),
        }
    }

    /// Releases the read mode that the seat holds (`unlockRead`), by one step on the word.
    #[inline(always)]
    pub(crate) fn release_read(&self, seat: &mut ValueSeat<T>, stamp: u64)
        requires table { seat.old.table_id ≡ self.now.table }
        requires held { seat.old.me.0.held ≡ Reading stamp }
        requires stands { Stands self.now.limits seat.old.me }
        ensures in_range { AreInRange self.now.limits }
        ensures table { seat.new.table_id ≡ self.now.table }
        ensures stands { Stands self.now.limits seat.new.me }
        ensures made { ValueMade self.now.limits (UnlockRead stamp) Done seat.old.me seat.new.me }
        ensures machine { GoesAsMachine self.now.limits (UnlockRead stamp) seat.old.me.0.pass seat.new.me.0.pass
            (Turn.Done Done) }
    {
        take_reader::<T, Brand>(&self.table.shared, seat, stamp);
    }

    /// Goes on with the call, made anew. It is a function of its own, built in, so that the call is put into
    /// memory only where it isn't made at once.
    #[inline(always)]
    fn go_on_anew<R: Wait>(
        &self,
        rt: &R,
        seat: &mut ValueSeat<T>,
        call: &Call,
        word: u64,
        patience: Patience,
    ) -> LockReply
        requires lock_call { IsTrue (is_lock_call call.now) }
        requires table { seat.old.table_id ≡ self.now.table }
        requires under_way { (v : Seen T) × IsUnderWay self.now.limits call.now v word seat.old.me }
        ensures table { seat.new.table_id ≡ self.now.table }
        ensures made { (v : Seen T) → IsToDecide self.now.limits call.now v word seat.old.me
            → ValueMade self.now.limits call.now (reply_as result) v seat.new.me }
        ensures machine { (v : Seen T) → IsToDecide self.now.limits call.now v word seat.old.me
            → GoesAsMachine self.now.limits call.now v.0.pass seat.new.me.0.pass (Turn.Done (reply_as result)) }
    {
        let again = anew(call);
        self.go_on(rt, seat, again, word, patience)
    }

    /// Goes on with a call that is to decide on this word.
    #[inline(never)]
    fn go_on<R: Wait>(
        &self,
        rt: &R,
        seat: &mut ValueSeat<T>,
        call: Call,
        word: u64,
        mut patience: Patience,
    ) -> LockReply
        requires lock_call { IsTrue (is_lock_call call) }
        requires table { seat.old.table_id ≡ self.now.table }
        requires under_way { (v : Seen T) × IsUnderWay self.now.limits call v word seat.old.me }
        ensures table { seat.new.table_id ≡ self.now.table }
        ensures made { (v : Seen T) → IsToDecide self.now.limits call v word seat.old.me
            → ValueMade self.now.limits call (reply_as result) v seat.new.me }
        ensures machine { (v : Seen T) → IsToDecide self.now.limits call v word seat.old.me
            → GoesAsMachine self.now.limits call v.0.pass seat.new.me.0.pass (Turn.Done (reply_as result)) }
    {
        let table = &self.table.shared;
        let mut found = word;
        for _ in rt.forever() {
            match self.decide(&call, found) {
                LockDecision::Answer(reply) => return reply,
                LockDecision::Change(new, reply) => {
                    let old = found;
                    found = exchange::<T, Brand>(table, seat, &call, old, new.bits());
                    if found == old {
                        return reply;
                    }
                    patience.pause();
                }
                LockDecision::Wait => {
                    rest(rt, table, &mut patience, found);
                    found = load::<T, Brand>(table, seat, &call);
                }
            }
        }
        unreachable!()
    }

    /// A handle, where threads may enter.
    pub(crate) fn enter(&self) -> ValueHandle<'_, T>
        requires enterable { self.now.enterable ≡ true }
        ensures lock { result.lock ≡ self.now }
        ensures entered { HasEntered self.now.limits result.me.0.pass }
        ensures first { Opens self.now.first result.me.0.values }
        ensures values { HasValues self.now.limits result.me.0.pass.known result.me.0.values }
        ensures free { result.me.0.held ≡ Free }
    {
        let seat = steps::enter::<T, Brand>(&self.table.shared);
        ValueHandle { value: self, seat }
    }

    /// The value, once all handles and guards are gone, and that its table ended; an error where a
    /// writer is left.
    pub(crate) fn close(self) -> (Result<T, T>, Ended<ValueView<T>>)
        ensures ends { EndsAs self.limits self.first result.0 result.1.views }
        ensures table { result.1.table_id ≡ self.table }
    {
        let Guarded { table, limits } = self;
        let (word, value, ended) = table.close();
        if limits.word(word).is_writing() {
            (Err(value), ended)
        } else {
            (Ok(value), ended)
        }
    }
}
