//! What a text is read as.

ghost use Rattle.std.specs.Prelude.{◌≡◌};
ghost use Rattle.stamp_history.specs.LimitFields.{mistake};

use crate::field::Field;
use crate::read_error::ReadError;

/// What a text is read as, which names the fault of a field of another kind.
#[derive(Clone, Copy)]
pub enum TextKind {
    /// A replay. Its faults are a script's: `NotScript`.
    Replay,
    /// A script: `NotScript`.
    Script,
    /// A history, also an observed one: `NotHistory`.
    History,
}

impl TextKind {
    /// The fault of a field that isn't what a text of this kind has there.
    pub(crate) fn mistake(self, field: Field) -> ReadError
        ensures { result ≡ mistake self field }
    {
        match self {
            TextKind::Replay | TextKind::Script => ReadError::NotScript(field),
            TextKind::History => ReadError::NotHistory(field),
        }
    }
}
