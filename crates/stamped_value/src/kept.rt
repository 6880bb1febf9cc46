//! A value that keeps to a rule, and the rule.
ghost use Rattle.std.specs.Prelude.{◌≡◌};
ghost use Rattle.std.specs.Fn.{FnOnceReturnsAtMut};

use std::marker::{Model, PhantomData};

/// A rule for a value: a fact that it keeps whenever nobody writes it. Each section leaves a value
/// that keeps it, and whoever reads may rely on it.
pub trait ValueRule<T> {
    /// The fact.
    ghost holds: { T → Type 0 };
}

/// A value that keeps to the rule. It is seen as the value.
#[derive(Drop)]
pub struct Kept<T, K: ValueRule<T>> {
    value: T,
    rule: PhantomData<K>,
}

impl<T, K: ValueRule<T>> Model for Kept<T, K> {
    ghost Value = { T };

    ghost view = { λ k. k.value };

    ghost invariant = { λ k. K.holds k.value };
}

impl<T, K: ValueRule<T>> Kept<T, K> {
    /// A value that keeps to the rule.
    pub fn new(value: T) -> Kept<T, K>
        requires { K.holds value }
        ensures { result ≡ value }
    {
        Kept {
            value,
            rule: PhantomData,
        }
    }

    /// The value.
    pub fn get(&self) -> &T
        ensures value { result.now ≡ self.now }
        ensures rule { K.holds self.now }
    {
        &self.value
    }

    /// Runs the closure on the value. It leaves one that keeps to the rule.
    pub fn change<A, F: FnOnce(&mut T) -> A>(&mut self, f: F) -> A
        requires may { (x : _) → x.now ≡ self.old → K.holds x.now → F.pre f x }
        requires keeps { (x : _) (a : A) (y : _) → x.now ≡ self.old → K.holds x.now → F.post f x a y → K.holds y.now }
        ensures rule { K.holds self.old × K.holds self.new }
        ensures changed { FnOnceReturnsAtMut F.FnOnce f self.old result self.new }
    {
        f(&mut self.value)
    }

    /// Gives the value back.
    pub fn into_value(self) -> T
        ensures value { result ≡ self }
        ensures rule { K.holds self }
    {
        let Kept { value, rule: _ } = self;
        value
    }
}
