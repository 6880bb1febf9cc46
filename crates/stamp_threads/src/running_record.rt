//! The record that threads share.
ghost use Rattle.std.specs.Prelude.{◌≡◌, ◌+◌, ◌≤◌, ◌-◌, [], ◌∷◌, IfOk, IfErr, Some, None, length, take};
ghost use Rattle.std.specs.Prelude.{true, false};
ghost use Rattle.stamp_core.specs.declared.call.Call.TheVariants.{Put, PutIf};
ghost use Rattle.stamp_core.specs.declared.reply.Reply.TheVariants.{Done, Yes};
ghost use Rattle.stamp_threads.specs.RecordLog.{content_in};
ghost use Rattle.stamp_threads.specs.PassView.{after_split, split_off};
ghost use Rattle.stamp_threads.specs.RecordPass.{HasEntered, IsConsistentWith};
ghost use Rattle.stamp_threads.specs.RecordCall.{MadeOnRecord, PutRefused};
ghost use Rattle.stamp_threads.specs.RecordCall.{WasGot, GetRefused, GotOrRefused, RecordPassesMet};
ghost use Rattle.stamp_threads.specs.RecordCall.{HasSeen, StandsAtWord, ReplaceRefused, UpdateRefused, PutIfMade};
ghost use Rattle.stamp_threads.specs.RecordRule.{IsNew, MayBegin};

use crate::faults::{GetFault, PutFault};
use crate::record_pass::RecordPass;
use crate::record_rule::{AnyContent, ContentRule};
use crate::record_see::see_or_deny;
use crate::record_word::opening_word;
use crate::running_lock::LockError;
use crate::wide_record::WideRecord;
use stamp_core::{EitherLayout, KnownLayout, Limits, Words};
use std::alloc::Global;
use std::marker::Model;

/// A record of 1 to 16 words that threads share by reference, each with a pass of its own. The
/// words stand under a lock word of their own, and a get that is Ok gives words that stood
/// together. Tested, not proved: that calls do run into `Busy` and `Lost` beside a writer, and puts
/// into `Spent`, after which gets succeed still.
///
/// `L` says what is known of its layout, as in `WideRecord`.
#[derive(Drop)]
pub struct RuledRecord<P: ContentRule, L: KnownLayout = EitherLayout> {
    wide: WideRecord<P, L>,
}

impl<P: ContentRule, L: KnownLayout> Model for RuledRecord<P, L> {
    ghost use Rattle.std.specs.Prelude.{◌≤◌};
    ghost use Rattle.stamp_threads.specs.RecordPass.{RecordView};

    ghost Value = { RecordView };

    ghost view = { λ r. r.wide };

    ghost invariant = { λ r. (1 ≤ r.wide.shape.width) × (r.wide.shape.width ≤ 16) };
}

impl RuledRecord<AnyContent> {
    /// A record of zeros, and its first pass, of which all others are split off. The width is 1 to
    /// 16 words. Of the limits only the layout and the versions count: each put spends a version,
    /// and where none is left a put is refused as `Spent`. It fails only for want of memory. That
    /// nobody has put yet is tested, not proved.
    pub fn new(
        alloc: Global,
        limits: Limits,
        width: usize,
    ) -> Result<(RunningRecord, RecordPass), LockError>
        requires { (1 ≤ width) × (width ≤ 16) }
        ensures { IfOk result (λ r. IsNew limits width false None r.0 r.1) }
    {
        let mut row = [0u64; 17];
        row[0] = opening_word(limits.layout());
        let (wide, pass) = WideRecord::of_table(alloc, limits, &row[..width + 1], None, false)?;
        Ok((RuledRecord { wide }, pass))
    }
}

impl<P: ContentRule> RuledRecord<P> {
    /// A record that holds these words, and its first pass, as if that had put them. The words keep
    /// to the rule. All other passes are split off the first one. The limits have a version, and it
    /// takes one; of the limits only the layout and the versions count. It refuses only for want of
    /// memory.
    pub fn holding(
        alloc: Global,
        limits: Limits,
        first: Words,
    ) -> Result<(RuledRecord<P>, RecordPass), LockError>
        requires { MayBegin P.holds limits first }
        ensures { IfOk result (λ r. IsNew limits (length first) false (Some first) r.0 r.1) }
    {
        let (wide, pass) = WideRecord::holding(alloc, limits, first.as_slice())?;
        Ok((RuledRecord { wide }, pass))
    }

    /// As `holding`, of a record that threads may also `enter`. That it makes no call by a further
    /// pass is tested, not proved.
    pub fn holding_enterable(
        alloc: Global,
        limits: Limits,
        first: Words,
    ) -> Result<(RuledRecord<P>, RecordPass), LockError>
        requires { MayBegin P.holds limits first }
        ensures { IfOk result (λ r. IsNew limits (length first) true (Some first) r.0 r.1) }
    {
        Self::enterable_in(alloc, limits, first)
    }
}

impl<P: ContentRule, L: KnownLayout> RuledRecord<P, L> {
    /// As `holding_enterable`, of a layout that `L` stands for. Where `L` fixes it, calls have no
    /// test of it.
    pub fn enterable_in(
        alloc: Global,
        limits: Limits,
        first: Words,
    ) -> Result<(RuledRecord<P, L>, RecordPass), LockError>
        requires layout { L.seen limits.layout ≡ limits.layout }
        requires begins { MayBegin P.holds limits first }
        ensures { IfOk result (λ r. IsNew limits (length first) true (Some first) r.0 r.1) }
    {
        let (wide, pass) = WideRecord::enterable_in(alloc, limits, first.as_slice())?;
        Ok((RuledRecord { wide }, pass))
    }

    /// Puts the words by one try, which waits for nobody. They are as many as the record's width,
    /// and keep to the rule. It makes one load, one exchange, a store a word and one exchange that
    /// releases. Refuses in this order: as 1 `Busy` where the load found somebody in write mode, as
    /// 3 `Spent` where it found no version left, and as 2 `Lost` where the exchange found another
    /// word. It got no write mode and changed no word then.
    #[inline(always)]
    pub fn put_once(&self, pass: &mut RecordPass, words: Words) -> Result<(), PutFault>
        requires table { pass.old.table ≡ self.now.table }
        requires width { length words ≡ self.now.shape.width }
        requires rule { P.holds words }
        ensures table { pass.new.table ≡ self.now.table }
        ensures ok { let v = pass.old.view in let w = pass.new.view in
            IfOk result (λ _. MadeOnRecord self.now.shape (Put words) Done v w) }
        ensures err { let v = pass.old.view in let w = pass.new.view in
            IfErr result (λ fault. PutRefused self.now.shape v fault w) }
    {
        self.wide.put_from_once(pass, words.as_slice())
    }

    /// Gets the words, which stood together: by one load, a load a word and one load. It waits for
    /// nobody. Refuses as 1 `Busy` where the first load found somebody in write mode, and as 2 `Lost`
    /// where the last one found another word; beside writers it may be refused each time.
    #[inline(always)]
    pub fn get_once(&self, pass: &mut RecordPass) -> Result<Words, GetFault>
        requires { pass.old.table ≡ self.now.table }
        ensures table { pass.new.table ≡ self.now.table }
        ensures got { GotOrRefused P.holds self.now.shape result pass.old.view pass.new.view }
    {
        match self.wide.width() {
            1 => self.get_fixed::<1>(pass),
            2 => self.get_fixed::<2>(pass),
            16 => self.get_fixed::<16>(pass),
            _ => self.get_any(pass),
        }
    }

    /// `get_once` of a width that is fixed where it is compiled: words that the caller uses one by
    /// one aren't stored anywhere.
    #[inline(always)]
    fn get_fixed<const N: usize>(&self, pass: &mut RecordPass) -> Result<Words, GetFault>
        requires table { pass.old.table ≡ self.now.table }
        requires width { (N ≡ self.now.shape.width) × (1 ≤ N) × (N ≤ 16) }
        ensures table { pass.new.table ≡ self.now.table }
        ensures got { GotOrRefused P.holds self.now.shape result pass.old.view pass.new.view }
    {
        let mut row = [0u64; N];
        self.get_into(pass, &mut row)?;
        match Words::new(&row) {
            Some(words) => Ok(words),
            None => unreachable!(),
        }
    }

    /// `get_once` of any width. It has code of its own, so that a get of a fixed width makes no room
    /// for 16 words.
    fn get_any(&self, pass: &mut RecordPass) -> Result<Words, GetFault>
        requires { pass.old.table ≡ self.now.table }
        ensures table { pass.new.table ≡ self.now.table }
        ensures got { GotOrRefused P.holds self.now.shape result pass.old.view pass.new.view }
    {
        let width = self.wide.width();
        let mut row = [0u64; 16];
        self.get_into(pass, &mut row[..width])?;
        Ok(Words::of_row(row, width))
    }

    /// As `get_once`, into words of the caller's that have the width. It refuses as `get_once` does;
    /// they may be any words then.
    #[inline(always)]
    pub fn get_into(&self, pass: &mut RecordPass, into: &mut [u64]) -> Result<(), GetFault>
        requires table { pass.old.table ≡ self.now.table }
        requires width { length into.old ≡ self.now.shape.width }
        ensures table { pass.new.table ≡ self.now.table }
        ensures width { length into.new ≡ length into.old }
        ensures ok { let v = pass.old.view in let w = pass.new.view in
            IfOk result (λ _. WasGot P.holds self.now.shape into.new v w) }
        ensures err { let v = pass.old.view in let w = pass.new.view in
            IfErr result (λ fault. GetRefused self.now.shape v fault w) }
    {
        self.wide.get_into(pass, into)
    }

    /// Gets the words as `get_into` does, but makes no call: it is for `replace_once`. It gives the
    /// lock word at which the words stood. It refuses as `get_once` does; the words may be any
    /// then.
    #[inline(always)]
    pub fn see_once(&self, pass: &mut RecordPass, into: &mut [u64]) -> Result<u64, GetFault>
        requires table { pass.old.table ≡ self.now.table }
        requires width { length into.old ≡ self.now.shape.width }
        ensures table { pass.new.table ≡ self.now.table }
        ensures width { length into.new ≡ length into.old }
        ensures ok { let v = pass.old.view in let w = pass.new.view in
            IfOk result (λ word. HasSeen P.holds self.now.shape word into.new v w) }
        ensures err { let v = pass.old.view in let w = pass.new.view in
            IfErr result (λ fault. GetRefused self.now.shape v fault w) }
    {
        self.wide.see_once(pass, into)
    }

    /// Puts the words over those that `see_once` gave, if nothing was put since. The pass knows a
    /// history that left this lock word and isn't locked, as after `see_once`. It is the call
    /// `PutIf(old, words)` with `Yes`, by one exchange, a store a word and one exchange that
    /// releases. It waits for nobody. Refuses as 3 `Spent` where no version is left, by no access,
    /// and else as 2 `Lost` where the exchange found another lock word; it got no write mode and
    /// changed no word then.
    #[inline(always)]
    pub fn replace_once(
        &self,
        pass: &mut RecordPass,
        word: u64,
        words: Words,
    ) -> Result<(), PutFault>
        requires table { pass.old.table ≡ self.now.table }
        requires width { length words ≡ self.now.shape.width }
        requires rule { P.holds words }
        requires stands { StandsAtWord self.now.shape word pass.old.view }
        ensures table { pass.new.table ≡ self.now.table }
        ensures ok { let shape = self.now.shape in let v = pass.old.view in let w = pass.new.view in
            IfOk result (λ _. MadeOnRecord shape (PutIf (content_in shape.width v.known) words) Yes v w) }
        ensures err { let v = pass.old.view in let w = pass.new.view in
            IfErr result (λ fault. ReplaceRefused self.now.shape word v fault w) }
    {
        self.wide.replace_from_once(pass, word, words.as_slice())
    }

    /// Puts the second words if the record holds the first, and says whether it did. It is the call
    /// `PutIf(expected, words)`, with `Yes` or `No`; for `No` it needs no version. Only where the
    /// first keep to the rule need the second do. It looks as `see_once` does, and puts as
    /// `replace_once` does. It waits for nobody. Refuses as 1 `Busy` where the first load found
    /// somebody in write mode, as 2 `Lost` where a later access found another word, and as
    /// 3 `Spent` where it found the expected words and no version left; it changed no word then.
    pub fn put_if_once(
        &self,
        pass: &mut RecordPass,
        expected: Words,
        words: Words,
    ) -> Result<bool, PutFault>
        requires table { pass.old.table ≡ self.now.table }
        requires width { (length expected ≡ self.now.shape.width) × (length words ≡ self.now.shape.width) }
        requires rule { P.holds expected → P.holds words }
        ensures table { pass.new.table ≡ self.now.table }
        ensures ok { let v = pass.old.view in let w = pass.new.view in
            IfOk result (λ yes. PutIfMade P.holds self.now.shape expected words yes v w) }
        ensures err { let v = pass.old.view in let w = pass.new.view in
            IfErr result (λ fault. UpdateRefused (λ row. row ≡ expected) self.now.shape v fault w) }
    {
        let width = self.wide.width();
        let mut row = [0u64; 16];
        let seen = see_or_deny(
            &self.wide.table.shared,
            self.wide.shape.seen::<L>(),
            &mut pass.seat,
            expected.as_slice(),
            words.as_slice(),
            &mut row[..width],
        )?;
        let Some(word) = seen else {
            return Ok(false);
        };
        self.replace_once(pass, word, words)?;
        Ok(true)
    }

    /// A pass for a thread that has none, of an enterable record. It knows a history, and has made
    /// no call. No contract says that this history is all that happened before: to order its calls
    /// after another pass's, let both `meet` first. It makes one load and takes no memory. That it
    /// makes no call by a further pass is tested, not proved.
    pub fn enter(&self) -> RecordPass
        requires { self.now.enterable ≡ true }
        ensures table { result.table ≡ self.now.table }
        ensures entered { HasEntered self.now.shape result.view }
    {
        self.wide.enter()
    }

    /// A new pass, which knows as much as this one and has made no call. It makes one load and takes
    /// no memory.
    pub fn split_off(&self, pass: &mut RecordPass) -> RecordPass
        requires { pass.old.table ≡ self.now.table }
        ensures table { (pass.new.table ≡ self.now.table) × (result.table ≡ self.now.table) }
        ensures given { pass.new.view ≡ after_split pass.old.view }
        ensures new { result.view ≡ split_off pass.old.view }
        ensures all_consistent { let width = self.now.shape.width in
            IsConsistentWith width pass.new.view × IsConsistentWith width result.view }
    {
        self.wide.split_off(pass)
    }

    /// The pass given, and a new one, which knows as much and has made no call. It makes one load and
    /// takes no memory.
    pub fn split(&self, pass: RecordPass) -> (RecordPass, RecordPass)
        requires { pass.table ≡ self.now.table }
        ensures table { (result.0.table ≡ self.now.table) × (result.1.table ≡ self.now.table) }
        ensures given { result.0.view ≡ after_split pass.view }
        ensures new { result.1.view ≡ split_off pass.view }
        ensures all_consistent { let width = self.now.shape.width in
            IsConsistentWith width result.0.view × IsConsistentWith width result.1.view }
    {
        self.wide.split(pass)
    }

    /// Lets two passes share what they know: each then knows what either knew. It makes three
    /// loads. How far they agreed before, `laws::record_passes_agree` says.
    pub fn meet(&self, first: RecordPass, second: RecordPass) -> (RecordPass, RecordPass)
        requires { (first.table ≡ self.now.table) × (second.table ≡ self.now.table) }
        ensures table { (result.0.table ≡ self.now.table) × (result.1.table ≡ self.now.table) }
        ensures met { let width = self.now.shape.width in
            RecordPassesMet width first.view second.view result.0.view result.1.view }
    {
        self.wide.meet(first, second)
    }
}

/// A record whose content may be any.
pub type RunningRecord = RuledRecord<AnyContent>;
