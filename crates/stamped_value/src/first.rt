//! What the rule of a lock is told of its first value.
ghost use Rattle.std.specs.Prelude.{◌≡◌};
ghost use Rattle.std.specs.Borrow.{ftrue};

use std::marker::{Model, PhantomData};

/// The value that a lock begins with, as proofs speak of it. It has no bytes.
#[derive(Drop)]
pub struct First<T> {
    marker: PhantomData<T>,
    pub ghost value: { T },
}

impl<T> Model for First<T> {
    ghost also_owns = { λ _. ftrue };
}

impl<T> First<T> {
    /// Tells of this value.
    pub fn of(value: &T) -> First<T>
        ensures { result.value ≡ value.now }
    {
        let _ = value;
        First {
            marker: PhantomData,
        }
    }
}
