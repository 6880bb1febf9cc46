//! What handles and guards of a guarded value answer: themselves.
use crate::recorder::Answer;
use stamp_core::Reply;
use stamped_value::{ReadGuard, ValueHandle, WriteGuard};
use std::sync::Wait;

/// Of a call that acquired read mode.
impl<T, R: Wait> Answer for ReadGuard<'_, T, R> {
    ghost use Rattle.std.specs.Prelude.{Some};
    ghost use Rattle.stamp_core.specs.declared.reply.Reply.TheVariants as reply;
    ghost use Rattle.stamped_value.specs.Held.{stamp_held};

    ghost replied = { λ g. Some (reply.Stamp (stamp_held g.me.0.held)) };

    fn reply(&self) -> Option<Reply> {
        Some(Reply::Stamp(self.stamp()))
    }
}

/// Of a call that acquired write mode.
impl<T, R: Wait> Answer for WriteGuard<'_, T, R> {
    ghost use Rattle.std.specs.Prelude.{Some};
    ghost use Rattle.stamp_core.specs.declared.reply.Reply.TheVariants as reply;
    ghost use Rattle.stamped_value.specs.Held.{stamp_held};

    ghost replied = { λ g. Some (reply.Stamp (stamp_held g.me.0.held)) };

    fn reply(&self) -> Option<Reply> {
        Some(Reply::Stamp(self.stamp()))
    }
}

/// Of a release.
impl<T> Answer for ValueHandle<'_, T> {
    ghost use Rattle.std.specs.Prelude.{Some};
    ghost use Rattle.stamp_core.specs.declared.reply.Reply.TheVariants.{Done};

    ghost replied = { λ _. Some Done };

    fn reply(&self) -> Option<Reply> {
        Some(Reply::Done)
    }
}

/// Of a call that acquires a mode, or gives the handle back.
impl<T, G: Answer> Answer for Result<G, ValueHandle<'_, T>> {
    ghost use Rattle.observed_handles.specs.Recorder.{reply_or_zero};

    ghost replied = { reply_or_zero G.replied };

    fn reply(&self) -> Option<Reply> {
        match self {
            Ok(guard) => guard.reply(),
            Err(_) => Some(Reply::Stamp(0)),
        }
    }
}

/// Of an upgrade, which may give the reader's guard back.
impl<T, R: Wait, G: Answer> Answer for Result<G, ReadGuard<'_, T, R>> {
    ghost use Rattle.observed_handles.specs.Recorder.{reply_or_zero};

    ghost replied = { reply_or_zero G.replied };

    fn reply(&self) -> Option<Reply> {
        match self {
            Ok(guard) => guard.reply(),
            Err(_) => Some(Reply::Stamp(0)),
        }
    }
}
