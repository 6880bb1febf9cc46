//! The steps on a record's words, by the seats of their table.
ghost use Rattle.std.specs.Prelude.{◌≡◌, ◌≢◌, ◌+◌, ◌<◌, ◌≤◌, ◌==◌, MatchBool, true, false, length};
ghost use Rattle.std.specs.Prelude.{slice_index, ℕ, List, []};
ghost use Rattle.stamp_threads.specs.declared.record_view.RecordPhase.TheVariants.{Idle, Writing};
ghost use Rattle.stamp_threads.specs.declared.record_view.RecordPhase.TheVariants.{Loading};
ghost use Rattle.stamp_threads.specs.PassView.{after_split, split_off};
ghost use Rattle.stamp_threads.specs.Seats.{alone};
ghost use Rattle.stamp_threads.specs.inner.Seats.{both, StandsAlone};
ghost use Rattle.stamp_core.specs.declared.call.Call.TheVariants.{Get, Put, PutIf};
ghost use Rattle.stamp_core.specs.declared.reply.Reply.TheVariants.{Done, Content, Yes, No};
ghost use Rattle.stamp_threads.specs.RecordLog.{content_in, puts};
ghost use Rattle.stamp_threads.specs.RecordWord.{word_with, writer_unit};
ghost use Rattle.stamp_threads.specs.RecordPass.{first_of, HasEntered};
ghost use Rattle.stamp_threads.specs.inner.RecordPass.{second_of, IsAtSeat, AreAtSeat, AreIdle};
ghost use Rattle.stamp_threads.specs.inner.RecordRule.{LoadedForPut, Acquired, Released, stored_one, LoadedForGet};
ghost use Rattle.stamp_threads.specs.inner.RecordRule.{loaded_one, Confirmed, Saw, Overtaken, word_to_confirm, Met};
ghost use Rattle.stamp_threads.specs.inner.RecordRule.{with_phase};

use crate::lock_rule::{PartSeatsStep, ShareSeatStep, SplitStep};
use crate::record_rule::{
    AcquireStep, ConfirmStep, ContentRule, DenyStep, DenyingStep, EnterRecordStep, LoadForGetStep,
    LoadForPutStep, LoadWordStep, MeetRecordStep, RecordRule, ReleaseOverStep, ReleaseStep,
    SeeStep, StoreWordStep, WordsStep,
};
use crate::record_view::{RecordKey, RecordPasses};
use atomic_table::{Seat, Shared as SharedTable};

/// The table of a running record: its lock word, and its words.
pub type RecordTable<P> = SharedTable<(), RecordPasses, RecordKey, RecordRule<P>>;

/// A seat of it, which a pass has.
pub type RecordSeat = Seat<(), RecordPasses>;

/// The load that a put begins with: of the lock word.
#[inline(always)]
pub fn load_for_put<C: WordsStep, P: ContentRule>(
    table: &RecordTable<P>,
    seat: &mut RecordSeat,
) -> u64
    requires step { C.shape ≡ table.now.key.shape }
    requires seat { IsAtSeat table.now.table_id table.now.key.shape seat.old.table_id seat.old.me }
    requires idle { (first_of seat.old.me.0).phase ≡ Idle }
    ensures table { seat.new.table_id ≡ seat.old.table_id }
    ensures learned { LoadedForPut table.now.key.shape (first_of seat.old.me.0) result seat.new.me }
{
    table.load::<LoadForPutStep<C>>(seat, 0)
}

/// Gets write mode by an exchange, to put these words. By one that finds another word, a pass learns
/// what it would by a load.
#[inline(always)]
pub fn acquire<C: WordsStep, P: ContentRule>(
    table: &RecordTable<P>,
    seat: &mut RecordSeat,
    words: &[u64],
    free: u64,
    held: u64,
) -> u64
    requires step { (C.shape ≡ table.now.key.shape) × (C.words ≡ words.now) }
    requires long { length words.now ≡ table.now.key.shape.width }
    requires rule { P.holds words.now }
    requires seat { IsAtSeat table.now.table_id table.now.key.shape seat.old.table_id seat.old.me }
    requires idle { (first_of seat.old.me.0).phase ≡ Idle }
    requires free { let limits = table.now.key.shape.limits in
        (n : ℕ) × (free ≡ word_with limits.layout n false)
        × (held ≡ free + writer_unit limits.layout) × (n < limits.versions) }
    ensures table { seat.new.table_id ≡ seat.old.table_id }
    ensures learned { let key = table.now.key.shape in let v = first_of seat.old.me.0 in
        MatchBool (result == free) (Acquired key v result seat.new.me words.now)
        (LoadedForPut key v result seat.new.me) }
{
    // The words stand in the contract alone.
    let _ = words;
    table.compare_exchange::<AcquireStep<C>>(seat, 0, free, held)
}

/// Stores the word of this index.
#[inline(always)]
pub fn store_word<P: ContentRule>(
    table: &RecordTable<P>,
    seat: &mut RecordSeat,
    index: usize,
    word: u64,
)
    requires seat { IsAtSeat table.now.table_id table.now.key.shape seat.old.table_id seat.old.me }
    requires inside { (index < table.now.key.shape.width) × (table.now.key.shape.width ≤ 4096) }
    requires writing { (puts_before : ℕ) × (words : List ℕ)
        × ((first_of seat.old.me.0).phase ≡ Writing puts_before words index)
        × (word ≡ slice_index words index) }
    ensures table { seat.new.table_id ≡ seat.old.table_id }
    ensures learned { seat.new.me ≡ alone (stored_one (first_of seat.old.me.0)) }
{
    table.store::<StoreWordStep>(seat, index + 1, word);
}

/// Stores each of the words.
#[inline(always)]
pub fn store_all<P: ContentRule>(table: &RecordTable<P>, seat: &mut RecordSeat, words: &[u64])
    requires seat { IsAtSeat table.now.table_id table.now.key.shape seat.old.table_id seat.old.me }
    requires long { (length words.now ≡ table.now.key.shape.width) × (table.now.key.shape.width ≤ 4096) }
    requires writing { (puts_before : ℕ)
        × ((first_of seat.old.me.0).phase ≡ Writing puts_before words.now 0) }
    ensures table { seat.new.table_id ≡ seat.old.table_id }
    ensures learned { let v = first_of seat.old.me.0 in
        (puts_before : ℕ) → v.phase ≡ Writing puts_before words.now 0
        → seat.new.me ≡ alone (with_phase v (Writing puts_before words.now table.now.key.shape.width)) }
{
    for i in 0..words.len() {
        store_word(table, seat, i, words[i]);
    }
}

/// Releases write mode, by an exchange.
#[inline(always)]
pub fn release<C: WordsStep, P: ContentRule>(
    table: &RecordTable<P>,
    seat: &mut RecordSeat,
    words: &[u64],
    held: u64,
    free: u64,
)
    requires step { (C.shape ≡ table.now.key.shape) × (C.words ≡ words.now) }
    requires seat { IsAtSeat table.now.table_id table.now.key.shape seat.old.table_id seat.old.me }
    requires writing { let key = table.now.key.shape in
        (puts_before : ℕ) × ((first_of seat.old.me.0).phase ≡ Writing puts_before words.now key.width)
        × (held ≡ word_with key.limits.layout puts_before true)
        × (free ≡ held + writer_unit key.limits.layout) }
    ensures table { seat.new.table_id ≡ seat.old.table_id }
    ensures learned { let v = first_of seat.old.me.0 in
        Released table.now.key.shape v held seat.new.me (Put words.now) Done }
{
    // The words stand in the contract alone.
    let _ = words;
    table.compare_exchange::<ReleaseStep<C>>(seat, 0, held, free);
}

/// Releases write mode, by an exchange, where the words were put over those of the history that the
/// pass knows.
#[inline(always)]
pub fn release_over<C: WordsStep, P: ContentRule>(
    table: &RecordTable<P>,
    seat: &mut RecordSeat,
    words: &[u64],
    held: u64,
    free: u64,
)
    requires step { (C.shape ≡ table.now.key.shape) × (C.words ≡ words.now) }
    requires seat { IsAtSeat table.now.table_id table.now.key.shape seat.old.table_id seat.old.me }
    requires writing { let key = table.now.key.shape in let v = first_of seat.old.me.0 in
        (puts_before : ℕ) × (v.phase ≡ Writing puts_before words.now key.width)
        × (held ≡ word_with key.limits.layout puts_before true)
        × (free ≡ held + writer_unit key.limits.layout) × (puts v.known ≡ puts_before) }
    ensures table { seat.new.table_id ≡ seat.old.table_id }
    ensures learned { let v = first_of seat.old.me.0 in let key = table.now.key.shape in
        Released key v held seat.new.me (PutIf (content_in key.width v.known) words.now) Yes }
{
    // The words stand in the contract alone.
    let _ = words;
    table.compare_exchange::<ReleaseOverStep<C>>(seat, 0, held, free);
}

/// The load that a get begins with: of the lock word. Where nobody has write mode, the pass begins
/// to load the words.
#[inline(always)]
pub fn load_for_get<C: WordsStep, P: ContentRule>(
    table: &RecordTable<P>,
    seat: &mut RecordSeat,
) -> u64
    requires step { C.shape ≡ table.now.key.shape }
    requires seat { IsAtSeat table.now.table_id table.now.key.shape seat.old.table_id seat.old.me }
    requires idle { (first_of seat.old.me.0).phase ≡ Idle }
    ensures table { seat.new.table_id ≡ seat.old.table_id }
    ensures learned { LoadedForGet table.now.key.shape (first_of seat.old.me.0) result seat.new.me }
{
    table.load::<LoadForGetStep<C>>(seat, 0)
}

/// Loads the word of this index.
#[inline(always)]
pub fn load_word<P: ContentRule>(table: &RecordTable<P>, seat: &mut RecordSeat, index: usize) -> u64
    requires seat { IsAtSeat table.now.table_id table.now.key.shape seat.old.table_id seat.old.me }
    requires inside { (index < table.now.key.shape.width) × (table.now.key.shape.width ≤ 4096) }
    requires loading { (puts_before : ℕ) × (words : List ℕ)
        × ((first_of seat.old.me.0).phase ≡ Loading puts_before words) × (length words ≡ index) }
    ensures table { seat.new.table_id ≡ seat.old.table_id }
    ensures learned { seat.new.me ≡ alone (loaded_one (first_of seat.old.me.0) result) }
{
    table.load::<LoadWordStep>(seat, index + 1)
}

/// Loads each of the words.
#[inline(always)]
pub fn load_all<P: ContentRule>(table: &RecordTable<P>, seat: &mut RecordSeat, into: &mut [u64])
    requires seat { IsAtSeat table.now.table_id table.now.key.shape seat.old.table_id seat.old.me }
    requires long { (length into.old ≡ table.now.key.shape.width) × (table.now.key.shape.width ≤ 4096) }
    requires loading { (puts_before : ℕ) × ((first_of seat.old.me.0).phase ≡ Loading puts_before []) }
    ensures table { seat.new.table_id ≡ seat.old.table_id }
    ensures long { length into.new ≡ length into.old }
    ensures learned { let v = first_of seat.old.me.0 in
        (puts_before : ℕ) → v.phase ≡ Loading puts_before []
        → seat.new.me ≡ alone (with_phase v (Loading puts_before into.new)) }
{
    for i in 0..into.len() {
        into[i] = load_word(table, seat, i);
    }
}

/// Loads the lock word again. Where it is the word of the first load, these words stood together.
#[inline(always)]
pub fn confirm<C: WordsStep, P: ContentRule>(
    table: &RecordTable<P>,
    seat: &mut RecordSeat,
    words: &[u64],
) -> u64
    requires step { (C.shape ≡ table.now.key.shape) × (C.words ≡ words.now) }
    requires seat { IsAtSeat table.now.table_id table.now.key.shape seat.old.table_id seat.old.me }
    requires loading { (puts_before : ℕ)
        × ((first_of seat.old.me.0).phase ≡ Loading puts_before words.now)
        × (length words.now ≡ table.now.key.shape.width) }
    ensures table { seat.new.table_id ≡ seat.old.table_id }
    ensures learned { let key = table.now.key.shape in let v = first_of seat.old.me.0 in
        MatchBool (result == word_to_confirm key.limits.layout v.phase)
        (Confirmed key v result seat.new.me P.holds words.now Get (Content words.now))
        (Overtaken key v result seat.new.me) }
{
    // The words stand in the contract alone.
    let _ = words;
    table.load::<ConfirmStep<C, P>>(seat, 0)
}

/// As `confirm`, but no call is made by it.
#[inline(always)]
pub fn see<C: WordsStep, P: ContentRule>(
    table: &RecordTable<P>,
    seat: &mut RecordSeat,
    words: &[u64],
) -> u64
    requires step { (C.shape ≡ table.now.key.shape) × (C.words ≡ words.now) }
    requires seat { IsAtSeat table.now.table_id table.now.key.shape seat.old.table_id seat.old.me }
    requires loading { (puts_before : ℕ)
        × ((first_of seat.old.me.0).phase ≡ Loading puts_before words.now)
        × (length words.now ≡ table.now.key.shape.width) }
    ensures table { seat.new.table_id ≡ seat.old.table_id }
    ensures learned { let key = table.now.key.shape in let v = first_of seat.old.me.0 in
        MatchBool (result == word_to_confirm key.limits.layout v.phase)
        (Saw key v result seat.new.me P.holds words.now) (Overtaken key v result seat.new.me) }
{
    // The words stand in the contract alone.
    let _ = words;
    table.load::<SeeStep<C, P>>(seat, 0)
}

/// As `confirm`, for a put_if: these words are not those that it expects.
#[inline(always)]
pub fn deny<C: DenyingStep, P: ContentRule>(
    table: &RecordTable<P>,
    seat: &mut RecordSeat,
    loaded: &[u64],
    expected: &[u64],
    words: &[u64],
) -> u64
    requires step { (C.shape ≡ table.now.key.shape) × (C.loaded ≡ loaded.now)
        × (C.expected ≡ expected.now) × (C.words ≡ words.now) }
    requires seat { IsAtSeat table.now.table_id table.now.key.shape seat.old.table_id seat.old.me }
    requires loading { (puts_before : ℕ)
        × ((first_of seat.old.me.0).phase ≡ Loading puts_before loaded.now)
        × (length loaded.now ≡ table.now.key.shape.width) }
    requires other { loaded.now ≢ expected.now }
    ensures table { seat.new.table_id ≡ seat.old.table_id }
    ensures learned { let key = table.now.key.shape in let v = first_of seat.old.me.0 in
        MatchBool (result == word_to_confirm key.limits.layout v.phase)
        (Confirmed key v result seat.new.me P.holds loaded.now (PutIf expected.now words.now) No)
        (Overtaken key v result seat.new.me) }
{
    // The words stand in the contract alone.
    let _ = loaded;
    let _ = expected;
    let _ = words;
    table.load::<DenyStep<C, P>>(seat, 0)
}

/// A new seat, made by a load: its pass has the next root.
pub fn enter<C: WordsStep, P: ContentRule>(table: &RecordTable<P>) -> RecordSeat
    requires step { C.shape ≡ table.now.key.shape }
    requires enterable { table.now.key.enterable ≡ true }
    requires table { table.now.table_id.words ≡ table.now.key.shape.width + 1 }
    ensures seat { IsAtSeat table.now.table_id table.now.key.shape result.table_id result.me }
    ensures entered { HasEntered table.now.key.shape (first_of result.me.0) }
{
    let (_, seat) = table.load_new_seat::<EnterRecordStep<C>>(0);
    seat
}

/// A new seat, whose pass has a name that the first one gives.
pub fn split<P: ContentRule>(table: &RecordTable<P>, seat: &mut RecordSeat) -> RecordSeat
    requires seat { IsAtSeat table.now.table_id table.now.key.shape seat.old.table_id seat.old.me }
    requires idle { (first_of seat.old.me.0).phase ≡ Idle }
    ensures given { StandsAlone seat.old.table_id seat.new (after_split (first_of seat.old.me.0)) }
    ensures new { StandsAlone seat.old.table_id result (split_off (first_of seat.old.me.0)) }
{
    table.split_seat::<SplitStep>(seat)
}

/// Puts both passes on one seat.
pub fn share_seat<P: ContentRule>(table: &RecordTable<P>, seat: &mut RecordSeat, other: RecordSeat)
    requires seat { IsAtSeat table.now.table_id table.now.key.shape seat.old.table_id seat.old.me }
    requires other { IsAtSeat table.now.table_id table.now.key.shape other.table_id other.me }
    requires idle { ((first_of seat.old.me.0).phase ≡ Idle)
        × ((first_of other.me.0).phase ≡ Idle) }
    ensures table { seat.new.table_id ≡ seat.old.table_id }
    ensures both { seat.new.me ≡ both (first_of seat.old.me.0) (first_of other.me.0) }
{
    table.join_seat::<ShareSeatStep>(seat, other);
}

/// A load by a seat that holds two passes: it shows that both knew beginnings of one history.
pub fn load_both<C: WordsStep, P: ContentRule>(table: &RecordTable<P>, seat: &mut RecordSeat)
    requires step { C.shape ≡ table.now.key.shape }
    requires seat { AreAtSeat table.now.table_id table.now.key.shape seat.old.table_id seat.old.me }
    requires idle { AreIdle seat.old.me.0 }
    ensures table { seat.new.table_id ≡ seat.old.table_id }
    ensures met { let old = seat.old.me.0 in
        Met table.now.key.shape (first_of old) (second_of old) seat.new.me }
{
    table.load::<MeetRecordStep<C>>(seat, 0);
}

/// Puts the two passes of a seat on two seats.
pub fn part_seats<P: ContentRule>(table: &RecordTable<P>, seat: &mut RecordSeat) -> RecordSeat
    requires seat { AreAtSeat table.now.table_id table.now.key.shape seat.old.table_id seat.old.me }
    requires idle { AreIdle seat.old.me.0 }
    ensures first { StandsAlone seat.old.table_id seat.new (first_of seat.old.me.0) }
    ensures second { StandsAlone seat.old.table_id result (second_of seat.old.me.0) }
{
    table.split_seat::<PartSeatsStep>(seat)
}
