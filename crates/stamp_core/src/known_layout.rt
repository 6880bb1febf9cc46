//! What a caller knows of a lock's layout when it is compiled.
use crate::layout::Layout;
use crate::limits::Limits;

/// A type that stands for one layout of limits, or for either. Where it fixes the layout, the
/// compiler sees a constant, and calls on a lock of these limits have no test of it.
pub trait KnownLayout {
    ghost use Rattle.std.specs.Prelude.{◌≡◌};
    ghost use Rattle.stamp_core.specs.declared.layout.Layout.{Layout};

    /// The layout that is seen in place of one: the same, for each layout that the type stands for.
    ghost seen: { Layout → Layout };

    /// The layout of the limits, which is one that the type stands for.
    fn layout(limits: Limits) -> Layout
        requires { seen limits.layout ≡ limits.layout }
        ensures layout { result ≡ limits.layout };
}

/// Stands for layout 1.
#[derive(Drop)]
pub struct LayoutOne;

impl KnownLayout for LayoutOne {
    ghost use Rattle.stamp_core.specs.declared.layout.Layout.TheVariants.{One};

    ghost seen = { λ _. One };

    #[inline(always)]
    fn layout(_limits: Limits) -> Layout {
        Layout::One
    }
}

/// Stands for layout 2.
#[derive(Drop)]
pub struct LayoutTwo;

impl KnownLayout for LayoutTwo {
    ghost use Rattle.stamp_core.specs.declared.layout.Layout.TheVariants.{Two};

    ghost seen = { λ _. Two };

    #[inline(always)]
    fn layout(_limits: Limits) -> Layout {
        Layout::Two
    }
}

/// Stands for either layout: that of the limits, which is looked at whenever a call is made.
#[derive(Drop)]
pub struct EitherLayout;

impl KnownLayout for EitherLayout {
    ghost seen = { λ layout. layout };

    #[inline(always)]
    fn layout(limits: Limits) -> Layout {
        limits.layout()
    }
}
