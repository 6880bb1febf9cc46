//! The lock that threads share.
ghost use Rattle.std.specs.Prelude.{◌≡◌, ◌<◌, ◌∷◌, [], ℕ, IfOk, IfErr, IfSome, OnOk, IsTrue, true, false};
ghost use Rattle.stamp_core.specs.Call.{is_lock_call};
ghost use Rattle.stamp_core.specs.Word.{IsAdmitted, word_at};
ghost use Rattle.stamp_core.specs.Decision.{Decides};
ghost use Rattle.stamp_core.specs.CountedDecision.{decision};
ghost use Rattle.stamp_core.specs.LockDecision.{decision_as, reply_as};
ghost use Rattle.stamp_core.specs.declared.call.Call.TheVariants.{Optimistic};
ghost use Rattle.stamp_core.specs.declared.reply.Reply.TheVariants.{Stamp};
ghost use Rattle.stamp_machines.specs.declared.machine.Turn.TheVariants as Turn;
ghost use Rattle.stamp_threads.specs.PassView.{HasFound, after_split, split_off};
ghost use Rattle.stamp_threads.specs.LockPass.{HasEntered, IsConsistentWith, IsNew, LockPassView, first_of};
ghost use Rattle.stamp_threads.specs.inner.LockPass.{IsAtSeat};
ghost use Rattle.stamp_threads.specs.Made.{Made, AccessesOnceOrTwice, try_form};
ghost use Rattle.stamp_threads.specs.inner.Made.{MayWait};
ghost use Rattle.stamp_threads.specs.MayReply.{MayReply, stamp_or_zero};
ghost use Rattle.stamp_threads.specs.LostExchange.{LostExchange};
ghost use Rattle.stamp_threads.specs.GoesAsMachine.{GoesAsMachine, turn_once};
ghost use Rattle.stamp_threads.specs.inner.GoesAsMachine.{IsToDecide};
ghost use Rattle.stamp_threads.specs.LockPassesMet.{LockPassesMet};
ghost use Rattle.stamp_threads.specs.Closes.{Closes};

use crate::lock_rule::{LockKey, LockPasses, LockRule};
use crate::lock_steps::{self, LockSeat, exchange, load, rest};
use crate::lost::Lost;
use crate::pass::Pass;
use crate::patience::Patience;
use atomic_table::Table;
use stamp_core::{
    Call, EitherLayout, KnownLayout, Layout, Limits, LockDecision, LockReply, Reply, Word,
    decide_lock,
};
use std::alloc::Global;
use std::error::Error;
use std::fmt;
use std::marker::{Brand, Model};
use std::sync::Wait;

/// Why a lock or a record is not made.
#[derive(Clone, Copy, PartialEq, Eq, Debug, Drop)]
pub enum LockError {
    /// 1: there was no memory for the words. Nothing was made.
    Unmade,
}

impl fmt::Display for LockError {
    fn fmt<W: fmt::Write>(&self, f: &mut fmt::Formatter<W>) -> fmt::Result {
        match self {
            LockError::Unmade => write!(f, "no memory for the words"),
        }
    }
}

impl Error for LockError {}

/// The call that doesn't wait, where there is one that does.
#[inline(always)]
fn try_form(call: &Call) -> Call
    ensures form { result ≡ try_form call.now }
    ensures lock_call { IsTrue (is_lock_call call.now) → IsTrue (is_lock_call result) }
    ensures never { MayWait result → ⊥ }
{
    match call {
        Call::WriteLock => Call::TryWrite,
        Call::ReadLock => Call::TryRead,
        other => *other,
    }
}

/// The same lock call, made anew of its stamp. A crate whose first try of a call is built in gives what goes on
/// with it a call made so: then a compiler puts no call into memory that is made at once.
#[inline(always)]
pub fn anew(call: &Call) -> Call
    requires { IsTrue (is_lock_call call.now) }
    ensures { result ≡ call.now }
{
    match call {
        Call::TryWrite => Call::TryWrite,
        Call::TryRead => Call::TryRead,
        Call::WriteLock => Call::WriteLock,
        Call::ReadLock => Call::ReadLock,
        Call::Optimistic => Call::Optimistic,
        Call::Validate(stamp) => Call::Validate(*stamp),
        Call::UnlockWrite(stamp) => Call::UnlockWrite(*stamp),
        Call::UnlockRead(stamp) => Call::UnlockRead(*stamp),
        Call::Unlock(stamp) => Call::Unlock(*stamp),
        Call::ToWrite(stamp) => Call::ToWrite(*stamp),
        Call::ToRead(stamp) => Call::ToRead(*stamp),
        Call::ToOptimistic(stamp) => Call::ToOptimistic(*stamp),
        Call::TryUnlockWrite => Call::TryUnlockWrite,
        Call::TryUnlockRead => Call::TryUnlockRead,
        Call::IsWriteLocked => Call::IsWriteLocked,
        Call::IsReadLocked => Call::IsReadLocked,
        Call::ReadCount => Call::ReadCount,
        _ => unreachable!(),
    }
}

/// A lock in one word that threads share by reference, each with a pass of its own.
///
/// Whether threads may enter it is settled when it is made. Where they may not, every pass comes
/// from the first one by splits, which each pass counts.
#[derive(Drop)]
pub struct RunningLock {
    pub(crate) table: Table<(), LockPasses, LockKey, LockRule, Global>,
    pub(crate) limits: Limits,
}

impl Model for RunningLock {
    ghost use Rattle.std.specs.Prelude.{◌≡◌};
    ghost use Rattle.stamp_core.specs.Limits.{AreInRange};
    ghost use Rattle.stamp_threads.specs.LockPass.{LockView};

    ghost Value = { LockView };

    ghost view = { λ l. record {
      table = l.table.shared.table_id;
      limits = l.limits;
      enterable = l.table.shared.key.enterable;
    } };

    ghost invariant = { λ l. (l.table.shared.key.limits ≡ l.limits)
        × (l.table.shared.table_id.words ≡ 1) × (l.table.shared.table_id.slots ≡ 0) × AreInRange l.limits };
}

impl RunningLock {
    /// A lock that nobody holds, and its first pass, of which all others are split off. It refuses
    /// only for want of memory. That nobody holds it is tested, not proved.
    pub fn new(alloc: Global, limits: Limits) -> Result<(RunningLock, Pass), LockError>
        ensures { IfOk result (λ r. IsNew limits false r.0 r.1) }
    {
        RunningLock::of_key(
            alloc,
            LockKey {
                limits,
                enterable: false,
            },
        )
    }

    /// As `new`, of a lock that threads may also `enter`. That it makes no call by a further pass
    /// is tested, not proved.
    pub fn new_enterable(alloc: Global, limits: Limits) -> Result<(RunningLock, Pass), LockError>
        ensures { IfOk result (λ r. IsNew limits true r.0 r.1) }
    {
        RunningLock::of_key(
            alloc,
            LockKey {
                limits,
                enterable: true,
            },
        )
    }

    fn of_key(alloc: Global, key: LockKey) -> Result<(RunningLock, Pass), LockError>
        ensures { IfOk result (λ r. IsNew key.limits key.enterable r.0 r.1) }
    {
        let limits = key.limits;
        let opening = Word::opening_in(limits.layout()).bits();
        match Table::of_words(alloc, &[opening], &key) {
            Ok((table, seat)) => Ok((RunningLock { table, limits }, Pass { seat })),
            Err(_) => Err(LockError::Unmade),
        }
    }

    /// Decides the call on this word.
    #[inline(always)]
    fn decide<L: KnownLayout>(&self, call: &Call, word: u64) -> LockDecision
        requires layout { L.seen self.now.limits.layout ≡ self.now.limits.layout }
        requires lock_call { IsTrue (is_lock_call call.now) }
        requires admitted { IsAdmitted self.now.limits (word_at self.now.limits word) }
        ensures decides { let limits = self.now.limits in
            Decides limits (word_at limits word) call.now (decision_as result) }
        ensures number { decision_as result ≡ decision self.now.limits word call.now }
    {
        let limits = self.limits.seen::<L>();
        let word = limits.word(word);
        // In each of the equal arms the compiler knows the layout, so that its masks are constants. Where
        // `L` fixes it, there is but one arm.
        match limits.layout() {
            Layout::One => decide_lock(limits, word, call),
            Layout::Two => decide_lock(limits, word, call),
        }
    }

    /// Makes the call by one load and at most one exchange, and waits for nobody: `WriteLock` and
    /// `ReadLock` are made as `TryWrite` and `TryRead`. A call that is refused as `Lost` has
    /// changed nothing, and can be made again.
    #[inline(always)]
    pub fn once(&self, pass: &mut Pass, call: Call) -> Result<Reply, Lost>
        requires lock_call { IsTrue (is_lock_call call) }
        requires table { pass.old.table ≡ self.now.table }
        ensures table { pass.new.table ≡ self.now.table }
        ensures ok { let v = pass.old.view in let w = pass.new.view in
            IfOk result (λ r. Made self.now.limits (try_form call) r v w) }
        ensures reply { IfOk result (λ r. MayReply (try_form call) r) }
        ensures accesses { OnOk result (AccessesOnceOrTwice self.now.limits pass.old.view pass.new.view) }
        ensures lost { let v = pass.old.view in let w = pass.new.view in
            IfErr result (λ l.
            LostExchange self.now.limits (try_form call) l.loaded l.found v w) }
        ensures machine { GoesAsMachine self.now.limits (try_form call) pass.old.view pass.new.view
            (turn_once self.now.limits (try_form call) result) }
    {
        self.once_in::<EitherLayout>(pass, call)
    }

    /// As `once`, of a lock whose layout `L` stands for. Where `L` fixes it, there is no test of
    /// it.
    #[inline(always)]
    pub fn once_in<L: KnownLayout>(&self, pass: &mut Pass, call: Call) -> Result<Reply, Lost>
        requires layout { L.seen self.now.limits.layout ≡ self.now.limits.layout }
        requires lock_call { IsTrue (is_lock_call call) }
        requires table { pass.old.table ≡ self.now.table }
        ensures table { pass.new.table ≡ self.now.table }
        ensures ok { let v = pass.old.view in let w = pass.new.view in
            IfOk result (λ r. Made self.now.limits (try_form call) r v w) }
        ensures reply { IfOk result (λ r. MayReply (try_form call) r) }
        ensures accesses { OnOk result (AccessesOnceOrTwice self.now.limits pass.old.view pass.new.view) }
        ensures lost { let v = pass.old.view in let w = pass.new.view in
            IfErr result (λ l.
            LostExchange self.now.limits (try_form call) l.loaded l.found v w) }
        ensures machine { GoesAsMachine self.now.limits (try_form call) pass.old.view pass.new.view
            (turn_once self.now.limits (try_form call) result) }
    {
        let call = try_form(&call);
        let table = &self.table.shared;
        // `Brand` stands for what a step's contract speaks of: these limits and this call.
        let loaded = load::<Brand>(table, &mut pass.seat, &call);
        match self.decide::<L>(&call, loaded) {
            LockDecision::Answer(reply) => Ok(reply.as_reply()),
            LockDecision::Change(new, reply) => {
                let found = exchange::<Brand>(table, &mut pass.seat, &call, loaded, new.bits());
                if found == loaded {
                    return Ok(reply.as_reply());
                }
                match self.decide::<L>(&call, found) {
                    LockDecision::Answer(answer) => Ok(answer.as_reply()),
                    LockDecision::Change(_, _) => Err(Lost { loaded, found }),
                    LockDecision::Wait => unreachable!(),
                }
            }
            LockDecision::Wait => unreachable!(),
        }
    }

    /// As `once_in` with `Call::Optimistic`: the stamp, or None while there is a writer. Where there is none the
    /// stamp isn't tested for 0. One load.
    #[inline(always)]
    pub fn optimistic_in<L: KnownLayout>(&self, pass: &mut Pass) -> Option<u64>
        requires layout { L.seen self.now.limits.layout ≡ self.now.limits.layout }
        requires table { pass.old.table ≡ self.now.table }
        ensures table { pass.new.table ≡ self.now.table }
        ensures made { Made self.now.limits Optimistic (Stamp (stamp_or_zero result)) pass.old.view pass.new.view }
        ensures some { IfSome result (λ stamp. 0 < stamp) }
        ensures once { (word : ℕ) × HasFound pass.old.view (word ∷ []) pass.new.view }
        ensures machine { GoesAsMachine self.now.limits Optimistic pass.old.view pass.new.view
            (Turn.Done (Stamp (stamp_or_zero result))) }
    {
        let call = Call::Optimistic;
        let word = load::<Brand>(&self.table.shared, &mut pass.seat, &call);
        let LockDecision::Answer(LockReply::Stamp(stamp)) = self.decide::<L>(&call, word) else {
            unreachable!()
        };
        if self.limits.seen::<L>().word(word).is_writing() {
            None
        } else {
            Some(stamp)
        }
    }

    /// Makes the call, and tries again until it is made: `WriteLock` and `ReadLock` where they wait
    /// for others, and every call where its exchange lost. Before each further try it spins, the
    /// first eight times, each twice as long as before; after that it lets other threads run. From
    /// the seventeenth time on it sleeps where it waits, 100 microseconds at most each time; after
    /// a lost exchange it never does. It may go on for ever. No contract says how it waits.
    pub fn call<R: Wait>(&self, rt: &R, pass: &mut Pass, call: Call) -> Reply
        requires lock_call { IsTrue (is_lock_call call) }
        requires table { pass.old.table ≡ self.now.table }
        ensures table { pass.new.table ≡ self.now.table }
        ensures made { Made self.now.limits call result pass.old.view pass.new.view }
        ensures reply { MayReply call result }
        ensures machine { GoesAsMachine self.now.limits call pass.old.view pass.new.view
            (Turn.Done result) }
    {
        self.call_in::<EitherLayout, R>(rt, pass, call)
    }

    /// As `call`, of a lock whose layout `L` stands for. Where `L` fixes it, the first try has no
    /// test of it. The first try is built in.
    #[inline(always)]
    pub fn call_in<L: KnownLayout, R: Wait>(&self, rt: &R, pass: &mut Pass, call: Call) -> Reply
        requires layout { L.seen self.now.limits.layout ≡ self.now.limits.layout }
        requires lock_call { IsTrue (is_lock_call call) }
        requires table { pass.old.table ≡ self.now.table }
        ensures table { pass.new.table ≡ self.now.table }
        ensures made { Made self.now.limits call result pass.old.view pass.new.view }
        ensures reply { MayReply call result }
        ensures machine { GoesAsMachine self.now.limits call pass.old.view pass.new.view
            (Turn.Done result) }
    {
        let table = &self.table.shared;
        let word = load::<Brand>(table, &mut pass.seat, &call);
        match self.decide::<L>(&call, word) {
            LockDecision::Answer(reply) => reply.as_reply(),
            LockDecision::Change(new, reply) => {
                let found = exchange::<Brand>(table, &mut pass.seat, &call, word, new.bits());
                if found == word {
                    return reply.as_reply();
                }
                let seat = &mut pass.seat;
                let reply = self.go_on_anew(rt, seat, &call, found, Patience::paused());
                reply.as_reply()
            }
            LockDecision::Wait => {
                let seat = &mut pass.seat;
                let reply = self.go_on_anew(rt, seat, &call, word, Patience::new());
                reply.as_reply()
            }
        }
    }

    /// Goes on with the call, made anew. It is a function of its own, built in, so that the call is put into
    /// memory only where it isn't made at once.
    #[inline(always)]
    fn go_on_anew<R: Wait>(
        &self,
        rt: &R,
        seat: &mut LockSeat,
        call: &Call,
        word: u64,
        patience: Patience,
    ) -> LockReply
        requires lock_call { IsTrue (is_lock_call call.now) }
        requires seat { IsAtSeat self.now.table seat.old.table_id seat.old.me }
        requires to_decide { (v : LockPassView)
            × IsToDecide self.now.limits call.now v word (first_of seat.old.me.0) }
        ensures seat { IsAtSeat self.now.table seat.new.table_id seat.new.me }
        ensures made { (v : LockPassView)
            → IsToDecide self.now.limits call.now v word (first_of seat.old.me.0)
            → Made self.now.limits call.now (reply_as result) v (first_of seat.new.me.0) }
        ensures reply { MayReply call.now (reply_as result) }
        ensures machine { (v : LockPassView)
            → IsToDecide self.now.limits call.now v word (first_of seat.old.me.0)
            → GoesAsMachine self.now.limits call.now v (first_of seat.new.me.0) (Turn.Done (reply_as result)) }
    {
        let again = anew(call);
        self.go_on(rt, seat, again, word, patience)
    }

    /// Goes on with a call that is to decide on this word.
    #[inline(never)]
    fn go_on<R: Wait>(
        &self,
        rt: &R,
        seat: &mut LockSeat,
        call: Call,
        word: u64,
        mut patience: Patience,
    ) -> LockReply
        requires lock_call { IsTrue (is_lock_call call) }
        requires seat { IsAtSeat self.now.table seat.old.table_id seat.old.me }
        requires to_decide { (v : LockPassView)
            × IsToDecide self.now.limits call v word (first_of seat.old.me.0) }
        ensures seat { IsAtSeat self.now.table seat.new.table_id seat.new.me }
        ensures made { (v : LockPassView) → IsToDecide self.now.limits call v word (first_of seat.old.me.0)
            → Made self.now.limits call (reply_as result) v (first_of seat.new.me.0) }
        ensures reply { MayReply call (reply_as result) }
        ensures machine { (v : LockPassView)
            → IsToDecide self.now.limits call v word (first_of seat.old.me.0)
            → GoesAsMachine self.now.limits call v (first_of seat.new.me.0) (Turn.Done (reply_as result)) }
    {
        let table = &self.table.shared;
        let mut found = word;
        for _ in rt.forever() {
            match self.decide::<EitherLayout>(&call, found) {
                LockDecision::Answer(reply) => return reply,
                LockDecision::Change(new, reply) => {
                    let old = found;
                    found = exchange::<Brand>(table, seat, &call, old, new.bits());
                    if found == old {
                        return reply;
                    }
                    patience.pause();
                }
                LockDecision::Wait => {
                    rest(rt, table, &mut patience, found);
                    found = load::<Brand>(table, seat, &call);
                }
            }
        }
        unreachable!()
    }

    /// The lock's limits, its layout among them.
    pub fn limits(&self) -> Limits
        ensures { result ≡ self.now.limits }
    {
        self.limits
    }

    /// A pass for a thread that has none, of an enterable lock. It knows a history of the lock, and
    /// has made no call. No contract says that this history is all that happened before: to order
    /// its calls after another pass's, let both `meet` first. It makes one load and takes no
    /// memory. That it makes no call by a further pass is tested, not proved.
    pub fn enter(&self) -> Pass
        requires { self.now.enterable ≡ true }
        ensures table { result.table ≡ self.now.table }
        ensures entered { HasEntered self.now.limits result.view }
    {
        let seat = lock_steps::enter::<Brand>(&self.table.shared);
        Pass { seat }
    }

    /// A new pass, which knows as much as this one and has made no call. It makes one load and takes
    /// no memory.
    pub fn split_off(&self, pass: &mut Pass) -> Pass
        requires { pass.old.table ≡ self.now.table }
        ensures table { (pass.new.table ≡ self.now.table) × (result.table ≡ self.now.table) }
        ensures given { pass.new.view ≡ after_split pass.old.view }
        ensures new { result.view ≡ split_off pass.old.view }
        ensures all_consistent { let limits = self.now.limits in
            IsConsistentWith limits pass.old.view
            → IsConsistentWith limits pass.new.view × IsConsistentWith limits result.view }
    {
        let seat = lock_steps::split(&self.table.shared, &mut pass.seat);
        Pass { seat }
    }

    /// The pass given, and a new one, which knows as much and has made no call. It makes one load and
    /// takes no memory.
    pub fn split(&self, mut pass: Pass) -> (Pass, Pass)
        requires { pass.table ≡ self.now.table }
        ensures table { (result.0.table ≡ self.now.table) × (result.1.table ≡ self.now.table) }
        ensures given { result.0.view ≡ after_split pass.view }
        ensures new { result.1.view ≡ split_off pass.view }
        ensures all_consistent { let limits = self.now.limits in
            IsConsistentWith limits pass.view
            → IsConsistentWith limits result.0.view × IsConsistentWith limits result.1.view }
    {
        let new = self.split_off(&mut pass);
        (pass, new)
    }

    /// Lets two passes share what they know: each then knows what either knew. It makes three
    /// loads. How far they agreed before, `laws::lock_passes_agree` says.
    pub fn meet(&self, mut first: Pass, second: Pass) -> (Pass, Pass)
        requires { (first.table ≡ self.now.table) × (second.table ≡ self.now.table) }
        ensures table { (result.0.table ≡ self.now.table) × (result.1.table ≡ self.now.table) }
        ensures met { LockPassesMet self.now.limits first.view second.view result.0.view result.1.view }
    {
        let Pass { seat } = second;
        let table = &self.table.shared;
        lock_steps::share_seat(table, &mut first.seat, seat);
        lock_steps::load_both::<Brand>(table, &mut first.seat);
        let seat = lock_steps::part_seats(table, &mut first.seat);
        (first, Pass { seat })
    }

    /// Ends the lock, and gives its word. Other passes may still be there; they are of no use then.
    /// Tested, not proved: that the word is what all threads' calls left, and that it makes no call
    /// by the pass.
    pub fn close(self, pass: Pass) -> u64
        requires { pass.table ≡ self.table }
        ensures { Closes self pass.view result }
    {
        let RunningLock { table, limits: _ } = self;
        let Pass { seat } = pass;
        let closed = table.close_with(seat);
        let word = closed.word(0);
        closed.free();
        word
    }
}
