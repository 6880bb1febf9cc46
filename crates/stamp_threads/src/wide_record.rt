//! A record of many words that threads share.
ghost use Rattle.std.specs.Prelude.{◌≡◌, ◌≤◌, ◌-◌, ◌∷◌, [], IfOk, IfErr, Some, length, true, false};
ghost use Rattle.stamp_core.specs.declared.call.Call.TheVariants.{Put, PutIf};
ghost use Rattle.stamp_core.specs.declared.reply.Reply.TheVariants.{Done, Yes};
ghost use Rattle.stamp_threads.specs.RecordLog.{content_in};
ghost use Rattle.stamp_threads.specs.PassView.{after_split, split_off};
ghost use Rattle.stamp_threads.specs.RecordPass.{HasEntered, IsConsistentWith};
ghost use Rattle.stamp_threads.specs.RecordCall.{MadeOnRecord, PutRefused};
ghost use Rattle.stamp_threads.specs.RecordCall.{WasGot, GetRefused, RecordPassesMet};
ghost use Rattle.stamp_threads.specs.RecordCall.{HasSeen, StandsAtWord, ReplaceRefused};
ghost use Rattle.stamp_threads.specs.RecordRule.{opening_pass, IsNew, MayBegin};
ghost use Rattle.stamp_threads.specs.inner.RecordRule.{first_put, IsKept};
ghost use Rattle.atomic_table.specs.Table.{opening};

use crate::faults::{GetFault, PutFault};
use crate::record_get::get_words;
use crate::record_pass::RecordPass;
use crate::record_rule::{ContentRule, RecordRule};
use crate::record_see::see_words;
use crate::record_steps::{self, acquire, load_for_put, release, release_over, store_all};
use crate::record_view::{RecordKey, RecordPasses, RecordShape};
use crate::record_word::word_after_one_put;
use crate::running_lock::LockError;
use atomic_table::Table;
use stamp_core::{EitherLayout, KnownLayout, Layout, Limits};
use std::alloc::{AllocError, Global};
use std::marker::{Brand, Model, PhantomData};
use std::snapshot::Snapshot;

/// A record of 1 to 4,096 words that threads share by reference, each with a pass of its own. Its
/// calls take slices. The words stand under a lock word of their own, and a get that is Ok gives
/// words that stood together. The more words, the longer a call takes and the oftener it loses to a
/// put: a record of few words is a `RuledRecord`. A history with more than 16 words has no text.
///
/// `L` says what is known of its layout: nothing, where it isn't written. A call on a record whose layout
/// is known has no test of it.
#[derive(Drop)]
pub struct WideRecord<P: ContentRule, L: KnownLayout = EitherLayout> {
    pub(crate) table: Table<(), RecordPasses, RecordKey, RecordRule<P>, Global>,
    pub(crate) shape: RecordShape,
    known: PhantomData<L>,
}

impl<P: ContentRule, L: KnownLayout> Model for WideRecord<P, L> {
    ghost use Rattle.std.specs.Prelude.{◌≡◌, ◌+◌, ◌≤◌};
    ghost use Rattle.stamp_threads.specs.RecordPass.{RecordView};

    ghost Value = { RecordView };

    ghost view = { λ r. record {
      table = r.table.shared.table_id;
      shape = r.shape;
      enterable = r.table.shared.key.enterable;
    } };

    ghost invariant = { λ r. (r.table.shared.key.shape ≡ r.shape)
        × (r.table.shared.table_id.words ≡ r.shape.width + 1)
        × (1 ≤ r.shape.width) × (r.shape.width ≤ 4096)
        × (L.seen r.shape.limits.layout ≡ r.shape.limits.layout) };
}

fn key_of(
    limits: Limits,
    width: usize,
    first: Option<Snapshot<Vec<u64>>>,
    enterable: bool,
) -> RecordKey
    ensures { result ≡ record {
      shape = record { limits = limits; width = width };
      first = first;
      enterable = enterable;
    } }
{
    RecordKey {
        shape: RecordShape { limits, width },
        first,
        enterable,
    }
}

/// The words of a table: the lock word, and these.
fn row_of(alloc: Global, lock_word: u64, words: &[u64]) -> Result<Vec<u64>, AllocError>
    ensures { IfOk result (λ row. row.items ≡ lock_word ∷ words.now) }
{
    let mut row = Vec::new(alloc);
    row.push(lock_word)?;
    row.extend_from_slice(words)?;
    Ok(row)
}

impl<P: ContentRule> WideRecord<P> {
    /// A record that holds these words, and its first pass, as if that had put them. The words keep
    /// to the rule. All other passes are split off the first one. The limits have a version, and it
    /// takes one; of the limits only the layout and the versions count. It refuses only for want of
    /// memory.
    pub fn holding(
        alloc: Global,
        limits: Limits,
        first: &[u64],
    ) -> Result<(WideRecord<P>, RecordPass), LockError>
        requires width { (1 ≤ length first.now) × (length first.now ≤ 4096) }
        requires begins { MayBegin P.holds limits first.now }
        ensures { IfOk result (λ r. IsNew limits (length first.now) false (Some first.now) r.0 r.1) }
    {
        Self::of_put(alloc, limits, first, false)
    }

    /// As `holding`, of a record that threads may also `enter`. That it makes no call by a further
    /// pass is tested, not proved.
    pub fn holding_enterable(
        alloc: Global,
        limits: Limits,
        first: &[u64],
    ) -> Result<(WideRecord<P>, RecordPass), LockError>
        requires width { (1 ≤ length first.now) × (length first.now ≤ 4096) }
        requires begins { MayBegin P.holds limits first.now }
        ensures { IfOk result (λ r. IsNew limits (length first.now) true (Some first.now) r.0 r.1) }
    {
        Self::enterable_in(alloc, limits, first)
    }
}

impl<P: ContentRule, L: KnownLayout> WideRecord<P, L> {
    /// As `holding_enterable`, of a layout that `L` stands for. Where `L` fixes it, calls have no
    /// test of it.
    pub fn enterable_in(
        alloc: Global,
        limits: Limits,
        first: &[u64],
    ) -> Result<(WideRecord<P, L>, RecordPass), LockError>
        requires layout { L.seen limits.layout ≡ limits.layout }
        requires width { (1 ≤ length first.now) × (length first.now ≤ 4096) }
        requires begins { MayBegin P.holds limits first.now }
        ensures { IfOk result (λ r. IsNew limits (length first.now) true (Some first.now) r.0 r.1) }
    {
        Self::of_put(alloc, limits, first, true)
    }

    /// A record of which these words were put.
    pub(crate) fn of_put(
        alloc: Global,
        limits: Limits,
        first: &[u64],
        enterable: bool,
    ) -> Result<(WideRecord<P, L>, RecordPass), LockError>
        requires layout { L.seen limits.layout ≡ limits.layout }
        requires width { (1 ≤ length first.now) × (length first.now ≤ 4096) }
        requires begins { MayBegin P.holds limits first.now }
        ensures { IfOk result (λ r. IsNew limits (length first.now) enterable (Some first.now) r.0 r.1) }
    {
        match row_of(alloc, word_after_one_put(limits.layout()), first) {
            Ok(row) => {
                let put = Snapshot::of(&row);
                Self::of_table(alloc, limits, row.as_slice(), Some(put), enterable)
            }
            Err(_) => Err(LockError::Unmade),
        }
    }

    /// A record of a table of these words: the lock word, and the record's.
    pub(crate) fn of_table(
        alloc: Global,
        limits: Limits,
        words: &[u64],
        first: Option<Snapshot<Vec<u64>>>,
        enterable: bool,
    ) -> Result<(WideRecord<P, L>, RecordPass), LockError>
        requires layout { L.seen limits.layout ≡ limits.layout }
        requires width { (2 ≤ length words.now) × (length words.now ≤ 4097) }
        requires kept { IsKept enterable P.holds
            (record { limits = limits; width = length words.now - 1 })
            (opening words.now [] (opening_pass (first_put first) ∷ [])) }
        requires consistent { IsConsistentWith (length words.now - 1) (opening_pass (first_put first)) }
        ensures { IfOk result (λ r. IsNew limits (length words.now - 1) enterable (first_put first) r.0 r.1) }
    {
        let key = key_of(limits, words.len() - 1, first, enterable);
        match Table::of_words(alloc, words, &key) {
            Ok((table, seat)) => {
                let shape = RecordShape {
                    limits,
                    width: words.len() - 1,
                };
                let record = WideRecord {
                    table,
                    shape,
                    known: PhantomData,
                };
                Ok((record, RecordPass { seat }))
            }
            Err(_) => Err(LockError::Unmade),
        }
    }

    /// How many words it has.
    #[inline(always)]
    pub fn width(&self) -> usize
        ensures { result ≡ self.now.shape.width }
    {
        self.shape.width
    }

    /// Puts the words by one try, which waits for nobody. They are as many as the record's width,
    /// and keep to the rule. It makes one load, one exchange, a store a word and one exchange that
    /// releases. Refuses in this order: as 1 `Busy` where the load found somebody in write mode, as
    /// 3 `Spent` where it found no version left, and as 2 `Lost` where the exchange found another
    /// word. It got no write mode and changed no word then.
    #[inline(always)]
    pub fn put_from_once(&self, pass: &mut RecordPass, words: &[u64]) -> Result<(), PutFault>
        requires table { pass.old.table ≡ self.now.table }
        requires width { length words.now ≡ self.now.shape.width }
        requires rule { P.holds words.now }
        ensures table { pass.new.table ≡ self.now.table }
        ensures ok { let v = pass.old.view in let w = pass.new.view in
            IfOk result (λ _. MadeOnRecord self.now.shape (Put words.now) Done v w) }
        ensures err { let v = pass.old.view in let w = pass.new.view in
            IfErr result (λ fault. PutRefused self.now.shape v fault w) }
    {
        let table = &self.table.shared;
        let layout = L::layout(self.shape.limits);
        // `Brand` stands for what a step's contract speaks of: this shape and these words.
        let loaded = load_for_put::<Brand, P>(table, &mut pass.seat);
        if layout.has_writer(loaded) {
            return Err(PutFault::Busy(loaded));
        }
        if layout.writes_of(loaded) >= self.shape.limits.versions() {
            return Err(PutFault::Spent(loaded));
        }
        let held = loaded + layout.writer_unit();
        let found = acquire::<Brand, P>(table, &mut pass.seat, words, loaded, held);
        if found != loaded {
            return Err(PutFault::Lost { loaded, found });
        }
        store_all(table, &mut pass.seat, words);
        let free = layout.released(held);
        release::<Brand, P>(table, &mut pass.seat, words, held, free);
        Ok(())
    }

    /// Gets the words, which stood together, into words of the caller's that have the width. It
    /// makes one load, a load a word and one load, and waits for nobody. Refuses as 1 `Busy` where
    /// the first load found somebody in write mode, and as 2 `Lost` where the last one found
    /// another word; the caller's words may be any then. Beside writers it may be refused each
    /// time.
    #[inline(always)]
    pub fn get_into(&self, pass: &mut RecordPass, into: &mut [u64]) -> Result<(), GetFault>
        requires table { pass.old.table ≡ self.now.table }
        requires width { length into.old ≡ self.now.shape.width }
        ensures table { pass.new.table ≡ self.now.table }
        ensures width { length into.new ≡ length into.old }
        ensures ok { let v = pass.old.view in let w = pass.new.view in
            IfOk result (λ _. WasGot P.holds self.now.shape into.new v w) }
        ensures err { let v = pass.old.view in let w = pass.new.view in
            IfErr result (λ fault. GetRefused self.now.shape v fault w) }
    {
        let shape = self.shape.seen::<L>();
        // In each of the equal arms the compiler knows the layout, so that its masks are constants.
        match shape.limits.layout() {
            Layout::One => get_words(&self.table.shared, shape, &mut pass.seat, into),
            Layout::Two => get_words(&self.table.shared, shape, &mut pass.seat, into),
        }
    }

    /// Gets the words as `get_into` does, but makes no call: it is for `replace_from_once`. It
    /// gives the lock word at which the words stood. It refuses as `get_into` does; the words may
    /// be any then.
    #[inline(always)]
    pub fn see_once(&self, pass: &mut RecordPass, into: &mut [u64]) -> Result<u64, GetFault>
        requires table { pass.old.table ≡ self.now.table }
        requires width { length into.old ≡ self.now.shape.width }
        ensures table { pass.new.table ≡ self.now.table }
        ensures width { length into.new ≡ length into.old }
        ensures ok { let v = pass.old.view in let w = pass.new.view in
            IfOk result (λ word. HasSeen P.holds self.now.shape word into.new v w) }
        ensures err { let v = pass.old.view in let w = pass.new.view in
            IfErr result (λ fault. GetRefused self.now.shape v fault w) }
    {
        let shape = self.shape.seen::<L>();
        see_words(&self.table.shared, shape, &mut pass.seat, into)
    }

    /// Puts the words over those that `see_once` gave, if nothing was put since. The pass knows a
    /// history that left this lock word and isn't locked, as after `see_once`. It is the call
    /// `PutIf(old, words)` with `Yes`, by one exchange, a store a word and one exchange that
    /// releases. It waits for nobody. Refuses as 3 `Spent` where no version is left, by no access,
    /// and else as 2 `Lost` where the exchange found another lock word; it got no write mode and
    /// changed no word then.
    #[inline(always)]
    pub fn replace_from_once(
        &self,
        pass: &mut RecordPass,
        word: u64,
        words: &[u64],
    ) -> Result<(), PutFault>
        requires table { pass.old.table ≡ self.now.table }
        requires width { length words.now ≡ self.now.shape.width }
        requires rule { P.holds words.now }
        requires stands { StandsAtWord self.now.shape word pass.old.view }
        ensures table { pass.new.table ≡ self.now.table }
        ensures ok { let shape = self.now.shape in let v = pass.old.view in let w = pass.new.view in
            IfOk result (λ _. MadeOnRecord shape (PutIf (content_in shape.width v.known) words.now) Yes v w) }
        ensures err { let v = pass.old.view in let w = pass.new.view in
            IfErr result (λ fault. ReplaceRefused self.now.shape word v fault w) }
    {
        let table = &self.table.shared;
        let layout = L::layout(self.shape.limits);
        if layout.writes_of(word) >= self.shape.limits.versions() {
            return Err(PutFault::Spent(word));
        }
        let held = word + layout.writer_unit();
        let found = acquire::<Brand, P>(table, &mut pass.seat, words, word, held);
        if found != word {
            return Err(PutFault::Lost {
                loaded: word,
                found,
            });
        }
        store_all(table, &mut pass.seat, words);
        let free = layout.released(held);
        release_over::<Brand, P>(table, &mut pass.seat, words, held, free);
        Ok(())
    }

    /// A pass for a thread that has none, of an enterable record. It knows a history, and has made
    /// no call. No contract says that this history is all that happened before: to order its calls
    /// after another pass's, let both `meet` first. It makes one load and takes no memory. That it
    /// makes no call by a further pass is tested, not proved.
    pub fn enter(&self) -> RecordPass
        requires { self.now.enterable ≡ true }
        ensures table { result.table ≡ self.now.table }
        ensures entered { HasEntered self.now.shape result.view }
    {
        RecordPass {
            seat: record_steps::enter::<Brand, P>(&self.table.shared),
        }
    }

    /// A new pass, which knows as much as this one and has made no call. It makes one load and takes
    /// no memory.
    pub fn split_off(&self, pass: &mut RecordPass) -> RecordPass
        requires { pass.old.table ≡ self.now.table }
        ensures table { (pass.new.table ≡ self.now.table) × (result.table ≡ self.now.table) }
        ensures given { pass.new.view ≡ after_split pass.old.view }
        ensures new { result.view ≡ split_off pass.old.view }
        ensures all_consistent { let width = self.now.shape.width in
            IsConsistentWith width pass.new.view × IsConsistentWith width result.view }
    {
        let seat = record_steps::split(&self.table.shared, &mut pass.seat);
        RecordPass { seat }
    }

    /// The pass given, and a new one, which knows as much and has made no call. It makes one load and
    /// takes no memory.
    pub fn split(&self, mut pass: RecordPass) -> (RecordPass, RecordPass)
        requires { pass.table ≡ self.now.table }
        ensures table { (result.0.table ≡ self.now.table) × (result.1.table ≡ self.now.table) }
        ensures given { result.0.view ≡ after_split pass.view }
        ensures new { result.1.view ≡ split_off pass.view }
        ensures all_consistent { let width = self.now.shape.width in
            IsConsistentWith width result.0.view × IsConsistentWith width result.1.view }
    {
        let new = self.split_off(&mut pass);
        (pass, new)
    }

    /// Lets two passes share what they know: each then knows what either knew. It makes three
    /// loads. How far they agreed before, `laws::record_passes_agree` says.
    pub fn meet(&self, mut first: RecordPass, second: RecordPass) -> (RecordPass, RecordPass)
        requires { (first.table ≡ self.now.table) × (second.table ≡ self.now.table) }
        ensures table { (result.0.table ≡ self.now.table) × (result.1.table ≡ self.now.table) }
        ensures met { let width = self.now.shape.width in
            RecordPassesMet width first.view second.view result.0.view result.1.view }
    {
        let RecordPass { seat } = second;
        let table = &self.table.shared;
        record_steps::share_seat(table, &mut first.seat, seat);
        record_steps::load_both::<Brand, P>(table, &mut first.seat);
        let seat = record_steps::part_seats(table, &mut first.seat);
        (first, RecordPass { seat })
    }
}
