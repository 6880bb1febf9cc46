//! What a number is as a stamp, as a text.

ghost use Rattle.std.specs.Prelude.{◌≡◌, Some, IfOk, OnErr};
ghost use Rattle.stamp_core.specs.Layout.{units_of};
ghost use Rattle.stamp_core.specs.StampKind.{HasKind};
ghost use Rattle.stamp_cli.specs.StampText.{kind_text, IsStampText};

use stamp_core::{Layout, StampKind, stamp_kind_in};
use std::alloc::{AllocError, Global};
use std::fmt;

#[derive(Drop)]
struct KindText(StampKind);

impl fmt::Display for KindText {
    ghost output = { λ text. Some (kind_text text.0) };

    fn fmt<W: fmt::Write>(&self, f: &mut fmt::Formatter<W>) -> fmt::Result {
        match self.0 {
            StampKind::Write(version) => write!(f, "write {version}"),
            StampKind::Read(version, reader) => write!(f, "read {version} {reader}"),
            StampKind::Optimistic(version) => write!(f, "optimistic {version}"),
            StampKind::Neither => write!(f, "none"),
        }
    }
}

/// What a number is as a stamp of the layout, as a text.
pub(crate) fn text_of_stamp(
    alloc: Global,
    layout: Layout,
    stamp: u64,
) -> Result<Vec<u8>, AllocError>
    ensures { IfOk result (λ line. IsStampText layout stamp line.items) }
{
    let kind = stamp_kind_in(layout, stamp);
    Ok(KindText(kind).to_string(alloc)?.into_bytes())
}
