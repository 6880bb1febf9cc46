//! The rule of a guarded value, and what each step on its word tells. These types are for proofs alone.
use crate::first::First;
use crate::view::ValueView;
use lent_table::{Play, TableRule};
use stamp_core::{Call, Limits};
use std::marker::{Brand, PhantomData};

/// What the rule reads: the limits of the lock, whether seats may enter, and the first value.
#[derive(Drop)]
pub struct ValueKey<T> {
    /// The limits.
    pub limits: Limits,
    /// Whether seats may enter. No code can ask it, so each call is proved for both.
    pub enterable: bool,
    /// The first value.
    pub first: First<T>,
}

/// The rule: one legal history, and a value for each of its versions.
pub struct VersionRule;

impl<T> TableRule<T, ValueView<T>, ValueKey<T>> for VersionRule {
    ghost use Rattle.stamp_threads.specs.LockPass.{first_pass};
    ghost use Rattle.std.specs.Prelude.{[]};
    ghost use Rattle.stamped_value.specs.declared.view.Held.TheVariants.{Free};
    ghost use Rattle.stamped_value.specs.inner.VersionRule.{IsKept};

    ghost holds = { λ key. IsKept key.enterable key.limits key.first.value };

    // a seat that is yet to enter
    ghost first = { λ _. record { pass = first_pass; values = []; held = Free } };
}

/// The limits of the lock, and the call that a step is made for: what the step's contract speaks of.
/// Code that makes a step passes `Brand` for it, and its proof picks both.
pub trait CallStep {
    ghost use Rattle.stamp_core.specs.Limits.{Bounds};
    ghost use Rattle.stamp_core.specs.declared.call.Call.{Call};

    ghost limits: { Bounds };

    ghost call: { Call };
}

// No step keeps these values: the proof of each picks its own.
impl CallStep for Brand {
    ghost use Rattle.stamp_core.specs.Limits.{bounds};
    ghost use Rattle.stamp_core.specs.declared.layout.Layout.TheVariants.{One};
    ghost use Rattle.stamp_core.specs.declared.call.Call.TheVariants.{IsWriteLocked};

    ghost limits = { bounds One 1 0 };

    ghost call = { IsWriteLocked };
}

/// The limits of the lock, and its first value, which the contract of a step speaks of that makes a seat.
pub trait OpenStep<T> {
    ghost use Rattle.std.specs.Prelude.{Option};
    ghost use Rattle.stamp_core.specs.Limits.{Bounds};

    ghost limits: { Bounds };

    ghost first: { Option T };
}

impl<T> OpenStep<T> for Brand {
    ghost use Rattle.std.specs.Prelude.{None};
    ghost use Rattle.stamp_core.specs.Limits.{bounds};
    ghost use Rattle.stamp_core.specs.declared.layout.Layout.TheVariants.{One};

    ghost limits = { bounds One 1 0 };

    ghost first = { None };
}

/// The limits of the lock, and what another seat knows, which the contract of a step speaks of that a seat makes
/// beside it.
pub trait BesideStep<T> {
    ghost use Rattle.stamp_core.specs.Limits.{Bounds};
    ghost use Rattle.stamped_value.specs.declared.view.ValueView.{ValueView};

    ghost limits: { Bounds };

    ghost other: { ValueView T };
}

impl<T> BesideStep<T> for Brand {
    ghost use Rattle.std.specs.Prelude.{[]};
    ghost use Rattle.stamp_core.specs.Limits.{bounds};
    ghost use Rattle.stamp_core.specs.declared.layout.Layout.TheVariants.{One};
    ghost use Rattle.stamp_threads.specs.LockPass.{first_pass};
    ghost use Rattle.stamped_value.specs.declared.view.Held.TheVariants.{Free};

    ghost limits = { bounds One 1 0 };

    ghost other = { record { pass = first_pass; values = []; held = Free } };
}

/// A load of the word, by which a call may be made.
pub struct LoadStep<C> {
    of: PhantomData<C>,
}

impl<T, C: CallStep> Play<T, ValueView<T>> for LoadStep<C> {
    ghost use Rattle.stamped_value.specs.inner.VersionRule.{LoadTells};

    ghost then = { λ _. LoadTells C.limits C.call };
}

/// An exchange of the word, by which a call may be made.
pub struct ExchangeStep<C> {
    of: PhantomData<C>,
}

impl<T, C: CallStep> Play<T, ValueView<T>> for ExchangeStep<C> {
    ghost use Rattle.stamped_value.specs.inner.VersionRule.{ExchangeTells};

    ghost then = { ExchangeTells C.limits C.call };
}

/// One taken from the word, by which a reader's release is made.
pub struct TakeStep<C> {
    of: PhantomData<C>,
}

impl<T, C: CallStep> Play<T, ValueView<T>> for TakeStep<C> {
    ghost use Rattle.stamped_value.specs.inner.VersionRule.{TakenTells};

    ghost then = { λ _. TakenTells C.limits C.call };
}

/// A load that makes a seat.
pub struct EnterStep<C> {
    of: PhantomData<C>,
}

impl<T, C: OpenStep<T>> Play<T, ValueView<T>> for EnterStep<C> {
    ghost use Rattle.stamped_value.specs.inner.VersionRule.{EnterTells};

    ghost then = { λ _ _ _ w. EnterTells C.limits C.first w };
}

/// A load beside another seat, by which a seat comes to know all.
pub struct MeetStep<C> {
    of: PhantomData<C>,
}

impl<T, C: BesideStep<T>> Play<T, ValueView<T>> for MeetStep<C> {
    ghost use Rattle.stamped_value.specs.inner.VersionRule.{MeetTells};

    ghost then = { λ _ v _ w. MeetTells C.limits C.other v w };
}

/// A load beside another seat, by which a seat comes to know what the other knows.
pub struct FollowStep<C> {
    of: PhantomData<C>,
}

impl<T, C: BesideStep<T>> Play<T, ValueView<T>> for FollowStep<C> {
    ghost use Rattle.stamped_value.specs.inner.VersionRule.{FollowTells};

    ghost then = { λ _ v _ w. FollowTells C.other v w };
}
