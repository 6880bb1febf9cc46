//! The rule of the running word, and what each step of it tells. These types are for proofs alone.
use crate::pass_view::PassView;
use atomic_table::{Join, Play, Split, TableRule};
use stamp_core::{Call, Limits, Reply};
use std::collections::LinkedList;
use std::marker::{Brand, PhantomData};

/// The passes that a seat of the table holds: one, and two while they meet.
pub type LockPasses = LinkedList<PassView<(Call, Reply), ()>>;

/// What the rule of a lock reads: its limits, and whether passes may enter.
#[derive(Clone, Copy)]
pub struct LockKey {
    /// The limits of the lock.
    pub limits: Limits,
    /// Whether passes may enter by a shared reference.
    pub enterable: bool,
}

/// The rule: one legal history, whose events the word represents, and passes that know parts of it.
pub struct LockRule;

impl TableRule<(), LockPasses, LockKey> for LockRule {
    ghost use Rattle.std.specs.Prelude.{[], ◌∷◌};
    ghost use Rattle.stamp_threads.specs.LockPass.{first_pass};
    ghost use Rattle.stamp_threads.specs.inner.LockRule.{IsKept};

    ghost holds = { λ key. IsKept key.enterable key.limits };

    ghost first = { λ _. first_pass ∷ [] };
}

/// The limits of the lock, and the call that a step is made for: what the step's contract speaks of.
/// Code that makes a step passes `Brand` for it, and its proof picks both.
pub trait CallStep {
    ghost use Rattle.stamp_core.specs.Limits.{Bounds};
    ghost use Rattle.stamp_core.specs.declared.call.Call.{Call};

    ghost limits: { Bounds };

    ghost call: { Call };
}

// No step keeps these values: the proof of each picks its own.
impl CallStep for Brand {
    ghost use Rattle.stamp_core.specs.Limits.{bounds};
    ghost use Rattle.stamp_core.specs.declared.layout.Layout.TheVariants.{One};
    ghost use Rattle.stamp_core.specs.declared.call.Call.TheVariants.{IsWriteLocked};

    ghost limits = { bounds One 1 0 };

    ghost call = { IsWriteLocked };
}

/// A load of the word, by which a call may be made.
pub struct LoadStep<C> {
    of: PhantomData<C>,
}

impl<C: CallStep> Play<(), LockPasses> for LoadStep<C> {
    ghost use Rattle.stamp_threads.specs.inner.LockRule.{LoadTells};

    ghost then = { LoadTells C.limits C.call };
}

/// An exchange of the word, by which a call may be made.
pub struct ExchangeStep<C> {
    of: PhantomData<C>,
}

impl<C: CallStep> Play<(), LockPasses> for ExchangeStep<C> {
    ghost use Rattle.stamp_threads.specs.inner.LockRule.{ExchangeTells};

    ghost then = { ExchangeTells C.limits C.call };
}

/// A load by a seat that holds two passes.
pub struct MeetLockStep<C> {
    of: PhantomData<C>,
}

impl<C: CallStep> Play<(), LockPasses> for MeetLockStep<C> {
    ghost use Rattle.stamp_threads.specs.inner.LockRule.{MeetTells};

    ghost then = { MeetTells C.limits };
}

/// A load that makes a seat.
pub struct EnterLockStep<C> {
    of: PhantomData<C>,
}

impl<C: CallStep> Play<(), LockPasses> for EnterLockStep<C> {
    ghost use Rattle.stamp_threads.specs.inner.LockRule.{EnterTells};

    ghost then = { EnterTells C.limits };
}

/// A pass splits a new one off.
pub struct SplitStep;

impl Split<LockPasses> for SplitStep {
    ghost use Rattle.std.specs.Prelude.{map};
    ghost use Rattle.stamp_threads.specs.PassView.{after_split, split_off};

    ghost left = { map after_split };

    ghost right = { map split_off };
}

/// Two passes go on one seat.
pub struct ShareSeatStep;

impl Join<LockPasses> for ShareSeatStep {
    ghost use Rattle.std.specs.Prelude.{[], ◌++◌};

    ghost both = { λ vs ws. vs ++ ws };

    ghost spent = { [] };
}

/// Two passes that share a seat go each on one of its own again.
pub struct PartSeatsStep;

impl Split<LockPasses> for PartSeatsStep {
    ghost use Rattle.std.specs.Prelude.{take, drop};

    ghost left = { take 1 };

    ghost right = { drop 1 };
}
