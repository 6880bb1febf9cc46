//! Questions to the lock of a guarded value, each by one load of its word.
ghost use Rattle.std.specs.Prelude.{◌≡◌, ◌↔◌, ℕ, [], ◌∷◌, IsTrue};
ghost use Rattle.stamp_core.specs.Layout.{units_of};
ghost use Rattle.stamp_core.specs.Limits.{AreInRange};
ghost use Rattle.stamp_core.specs.declared.call.Call.TheVariants.{Validate};
ghost use Rattle.stamp_core.specs.declared.reply.Reply.{Reply};
ghost use Rattle.stamp_core.specs.LockDecision.{reply_as};
ghost use Rattle.stamp_machines.specs.declared.machine.Turn.TheVariants as Turn;
ghost use Rattle.stamp_threads.specs.PassView.{HasFound};
ghost use Rattle.stamp_threads.specs.MayReply.{MayReply};
ghost use Rattle.stamp_threads.specs.GoesAsMachine.{GoesAsMachine};
ghost use Rattle.stamped_value.specs.OfStamp.{IsYesButForWriters};
ghost use Rattle.stamped_value.specs.Stands.{Stands};
ghost use Rattle.stamped_value.specs.ValueMade.{ValueMade};
ghost use Rattle.stamped_value.specs.inner.Deciding.{HoldsStill};
ghost use Rattle.stamped_value.specs.inner.Questions.{IsQuestion, IsReadersStamp};

use crate::guarded::Guarded;
use crate::steps::{ValueSeat, load};
use stamp_core::{Call, Layout, LockDecision, LockReply};
use std::marker::Brand;

impl<T> Guarded<T> {
    /// Asks the lock: it makes a call that changes nothing, by one load, and waits for nobody.
    #[inline(always)]
    pub(crate) fn ask(&self, seat: &mut ValueSeat<T>, call: Call) -> LockReply
        requires question { IsQuestion call }
        requires table { seat.old.table_id ≡ self.now.table }
        requires stands { Stands self.now.limits seat.old.me }
        ensures range { AreInRange self.now.limits }
        ensures table { seat.new.table_id ≡ self.now.table }
        ensures stands { Stands self.now.limits seat.new.me }
        ensures still { HoldsStill seat.old.me seat.new.me }
        ensures once { (word : ℕ) × HasFound seat.old.me.0.pass (word ∷ []) seat.new.me.0.pass }
        ensures made { ValueMade self.now.limits call (reply_as result) seat.old.me seat.new.me }
        ensures reply { MayReply call (reply_as result) }
        ensures machine { GoesAsMachine self.now.limits call seat.old.me.0.pass seat.new.me.0.pass
            (Turn.Done (reply_as result)) }
    {
        let found = load::<T, Brand>(&self.table.shared, seat, &call);
        let LockDecision::Answer(reply) = self.decide(&call, found) else {
            unreachable!()
        };
        reply
    }

    /// Asks the lock whether it validates the stamp, and the stamp is no write stamp: one test tells both.
    #[inline(always)]
    pub(crate) fn ask_is_last(&self, seat: &mut ValueSeat<T>, stamp: u64) -> bool
        requires table { seat.old.table_id ≡ self.now.table }
        requires stands { Stands self.now.limits seat.old.me }
        ensures range { AreInRange self.now.limits }
        ensures table { seat.new.table_id ≡ self.now.table }
        ensures stands { Stands self.now.limits seat.new.me }
        ensures still { HoldsStill seat.old.me seat.new.me }
        ensures once { (word : ℕ) × HasFound seat.old.me.0.pass (word ∷ []) seat.new.me.0.pass }
        ensures answer { (reply : Reply) × ValueMade self.now.limits (Validate stamp) reply seat.old.me seat.new.me
            × IsYesButForWriters self.now.limits stamp reply result }
    {
        let call = Call::Validate(stamp);
        let found = load::<T, Brand>(&self.table.shared, seat, &call);
        validates_reader(self.limits.layout(), found, stamp)
    }
}

/// Whether the stamp is a read stamp or the optimistic stamp of the word's version, which has no writer.
#[inline(always)]
fn validates_reader(layout: Layout, word: u64, stamp: u64) -> bool
    ensures { IsTrue result ↔ IsReadersStamp (units_of layout) word stamp }
{
    // In each of the equal arms the compiler knows the layout, so that it divides by a constant.
    match layout {
        Layout::One => shares_version(Layout::One, word, stamp),
        Layout::Two => shares_version(Layout::Two, word, stamp),
    }
}

#[inline(always)]
#[tactic(auto, using(stamp_core::proofs::TwoLayouts::either_layout))]
fn shares_version(layout: Layout, word: u64, stamp: u64) -> bool
    ensures { IsTrue result ↔ IsReadersStamp (units_of layout) word stamp }
{
    let unit = layout.writer_unit();
    !layout.has_writer(word) && word / unit == stamp / unit
}
