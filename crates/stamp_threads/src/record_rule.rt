//! The rule of a record's words, and what each step on them tells. These types are for proofs
//! alone.
use crate::lock_rule::{PartSeatsStep, ShareSeatStep, SplitStep};
use crate::record_view::{RecordKey, RecordPasses};
use atomic_table::{Join, Play, Split, TableRule};
use std::marker::{Brand, PhantomData};

/// A rule on what a record holds. A user's type implements it, and stands for the rule in the record's
/// type: `holds` says it of the words. Each content that is put keeps to it, so each one that is got
/// does.
pub trait ContentRule {
    ghost use Rattle.std.specs.Prelude.{ℕ, List};

    ghost holds: { List ℕ → Type 0 };
}

/// The rule that all words keep to.
pub struct AnyContent;

impl ContentRule for AnyContent {
    ghost holds = { λ _. Unit {0} };
}

/// The rule: one legal log, whose content the words hold and keep to `P`, and passes that know parts
/// of it.
pub struct RecordRule<P> {
    of: PhantomData<P>,
}

impl<P: ContentRule> TableRule<(), RecordPasses, RecordKey> for RecordRule<P> {
    ghost use Rattle.std.specs.Prelude.{[], ◌∷◌};
    ghost use Rattle.stamp_threads.specs.RecordRule.{opening_pass};
    ghost use Rattle.stamp_threads.specs.inner.RecordRule.{IsKept, first_put};

    ghost holds = { λ key. IsKept key.enterable P.holds key.shape };

    ghost first = { λ key. opening_pass (first_put key.first) ∷ [] };
}

/// The shape of the record, and the words that a step puts or has loaded: what the step's contract
/// speaks of. Code that makes a step passes `Brand` for it, and its proof picks both.
pub trait WordsStep {
    ghost use Rattle.std.specs.Prelude.{ℕ, List};
    ghost use Rattle.stamp_threads.specs.declared.record_view.RecordShape.{RecordShape};

    ghost shape: { RecordShape };

    ghost words: { List ℕ };
}

// No step keeps these values: the proof of each picks its own.
impl WordsStep for Brand {
    ghost use Rattle.std.specs.Prelude.{[]};
    ghost use Rattle.stamp_core.specs.Limits.{bounds};
    ghost use Rattle.stamp_core.specs.declared.layout.Layout.TheVariants.{One};

    ghost shape = { record { limits = bounds One 1 0; width = 0 } };

    ghost words = { [] };
}

/// The shape of the record, the words that a put_if has loaded, and what it is asked: the words that it
/// expects, and those that it would put.
pub trait DenyingStep {
    ghost use Rattle.std.specs.Prelude.{ℕ, List};
    ghost use Rattle.stamp_threads.specs.declared.record_view.RecordShape.{RecordShape};

    ghost shape: { RecordShape };

    ghost loaded: { List ℕ };

    ghost expected: { List ℕ };

    ghost words: { List ℕ };
}

impl DenyingStep for Brand {
    ghost use Rattle.std.specs.Prelude.{[]};
    ghost use Rattle.stamp_core.specs.Limits.{bounds};
    ghost use Rattle.stamp_core.specs.declared.layout.Layout.TheVariants.{One};

    ghost shape = { record { limits = bounds One 1 0; width = 0 } };

    ghost loaded = { [] };

    ghost expected = { [] };

    ghost words = { [] };
}

/// The load that a put begins with.
pub struct LoadForPutStep<C> {
    of: PhantomData<C>,
}

impl<C: WordsStep> Play<(), RecordPasses> for LoadForPutStep<C> {
    ghost use Rattle.stamp_threads.specs.inner.RecordRule.{LoadForPutTells};

    ghost then = { LoadForPutTells C.shape };
}

/// The exchange that gets write mode.
pub struct AcquireStep<C> {
    of: PhantomData<C>,
}

impl<C: WordsStep> Play<(), RecordPasses> for AcquireStep<C> {
    ghost use Rattle.stamp_threads.specs.inner.RecordRule.{AcquireTells};

    ghost then = { AcquireTells C.shape C.words };
}

/// A store of a word of the record.
pub struct StoreWordStep;

impl Play<(), RecordPasses> for StoreWordStep {
    ghost use Rattle.stamp_threads.specs.inner.RecordRule.{StoreWordTells};

    ghost then = { StoreWordTells };
}

/// The exchange that releases write mode.
pub struct ReleaseStep<C> {
    of: PhantomData<C>,
}

impl<C: WordsStep> Play<(), RecordPasses> for ReleaseStep<C> {
    ghost use Rattle.stamp_threads.specs.inner.RecordRule.{ReleaseTells};

    ghost then = { ReleaseTells C.shape C.words };
}

/// The exchange that releases write mode, of words that were put over those that the pass had seen.
pub struct ReleaseOverStep<C> {
    of: PhantomData<C>,
}

impl<C: WordsStep> Play<(), RecordPasses> for ReleaseOverStep<C> {
    ghost use Rattle.stamp_threads.specs.inner.RecordRule.{ReleaseOverTells};

    ghost then = { ReleaseOverTells C.shape C.words };
}

/// The first load of a get.
pub struct LoadForGetStep<C> {
    of: PhantomData<C>,
}

impl<C: WordsStep> Play<(), RecordPasses> for LoadForGetStep<C> {
    ghost use Rattle.stamp_threads.specs.inner.RecordRule.{LoadForGetTells};

    ghost then = { LoadForGetTells C.shape };
}

/// A load of a word of the record.
pub struct LoadWordStep;

impl Play<(), RecordPasses> for LoadWordStep {
    ghost use Rattle.stamp_threads.specs.inner.RecordRule.{LoadWordTells};

    ghost then = { LoadWordTells };
}

/// The load by which a get sees whether the words that it loaded stood together.
pub struct ConfirmStep<C, P> {
    of: PhantomData<(C, P)>,
}

impl<C: WordsStep, P: ContentRule> Play<(), RecordPasses> for ConfirmStep<C, P> {
    ghost use Rattle.stamp_threads.specs.inner.RecordRule.{ConfirmTells};

    ghost then = { ConfirmTells P.holds C.shape C.words };
}

/// As `ConfirmStep`, where no call is made by it.
pub struct SeeStep<C, P> {
    of: PhantomData<(C, P)>,
}

impl<C: WordsStep, P: ContentRule> Play<(), RecordPasses> for SeeStep<C, P> {
    ghost use Rattle.stamp_threads.specs.inner.RecordRule.{SeeTells};

    ghost then = { SeeTells P.holds C.shape C.words };
}

/// As `ConfirmStep`, for a put_if that expects other words.
pub struct DenyStep<C, P> {
    of: PhantomData<(C, P)>,
}

impl<C: DenyingStep, P: ContentRule> Play<(), RecordPasses> for DenyStep<C, P> {
    ghost use Rattle.stamp_threads.specs.inner.RecordRule.{DenyTells};

    ghost then = { DenyTells P.holds C.shape C.loaded C.expected C.words };
}

/// A load that makes a seat.
pub struct EnterRecordStep<C> {
    of: PhantomData<C>,
}

impl<C: WordsStep> Play<(), RecordPasses> for EnterRecordStep<C> {
    ghost use Rattle.stamp_threads.specs.inner.RecordRule.{EnterTells};

    ghost then = { EnterTells C.shape };
}

/// A load by a seat that holds two passes.
pub struct MeetRecordStep<C> {
    of: PhantomData<C>,
}

impl<C: WordsStep> Play<(), RecordPasses> for MeetRecordStep<C> {
    ghost use Rattle.stamp_threads.specs.inner.RecordRule.{MeetTells};

    ghost then = { MeetTells C.shape };
}

impl Split<RecordPasses> for SplitStep {
    ghost use Rattle.std.specs.Prelude.{map};
    ghost use Rattle.stamp_threads.specs.PassView.{after_split, split_off};

    ghost left = { map after_split };

    ghost right = { map split_off };
}

impl Join<RecordPasses> for ShareSeatStep {
    ghost use Rattle.std.specs.Prelude.{[], ◌++◌};

    ghost both = { λ vs ws. vs ++ ws };

    ghost spent = { [] };
}

impl Split<RecordPasses> for PartSeatsStep {
    ghost use Rattle.std.specs.Prelude.{take, drop};

    ghost left = { take 1 };

    ghost right = { drop 1 };
}
