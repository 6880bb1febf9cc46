//! The numbers by which C names layouts.
ghost use Rattle.std.specs.Prelude.{◌≡◌};
ghost use Rattle.stamped_c.specs.Codes.{layout_by_code};

use stamp_core::Layout;

/// The layout that a number names.
pub(crate) fn layout_by_code(number: u32) -> Option<Layout>
    ensures { result ≡ layout_by_code number }
{
    match number {
        1 => Some(Layout::One),
        2 => Some(Layout::Two),
        _ => None,
    }
}
