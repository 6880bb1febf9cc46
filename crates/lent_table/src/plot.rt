//! A box as the value that a pointer owns, and the right to have the box back.
ghost use Rattle.std.specs.Prelude.{◌≡◌};
ghost use Rattle.lent_table.specs.Lending.{deed_owns};
ghost use Rattle.lent_table.specs.inner.Lending.{plot_owns};

use std::alloc::Allocator;
use std::marker::Model;

/// A value on the heap, which this pointer owns.
pub(crate) struct Plot<X> {
    pub(crate) at: *mut X,
    pub(crate) ghost value: { X },
}

impl<X> Model for Plot<X> {
    ghost also_owns = { λ p. plot_owns X.row p.at p.value };
}

/// The right to free the memory of a plot, with its allocator.
pub(crate) struct Deed<X, A: Allocator> {
    pub(crate) at: *mut X,
    pub(crate) alloc: A,
}

impl<X, A: Allocator> Model for Deed<X, A> {
    ghost also_owns = { λ d. deed_owns (A.dealloc_token d.alloc) X.row d.at };
}

pub(crate) fn unbox<X: Drop, A: Allocator>(whole: Box<X, A>) -> (Plot<X>, Deed<X, A>)
    ensures { (result.0.value ≡ whole.value) × (result.1.at ≡ result.0.at) }
{
    let (at, alloc) = Box::into_raw_with_allocator(whole);
    (Plot { at }, Deed { at, alloc })
}

pub(crate) fn rebox<X, A: Allocator>(plot: Plot<X>, deed: Deed<X, A>) -> Box<X, A>
    requires { deed.at ≡ plot.at }
    ensures { result.value ≡ plot.value }
{
    let Plot { at } = plot;
    let Deed { at: _, alloc } = deed;
    unsafe { Box::from_raw(alloc, at) }
}

unsafe impl<X: Send, A: Allocator + Send> Send for Deed<X, A> {}

unsafe impl<X: Send, A: Allocator + Send> Sync for Deed<X, A> {}
