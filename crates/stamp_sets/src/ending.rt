//! What is told ahead of the end of a call.
ghost use Rattle.std.specs.Prelude.{◌≡◌, ◌↔◌, IsTrue};
ghost use Rattle.stamp_sets.specs.SmallCall.{reply_of};
ghost use Rattle.stamp_sets.specs.Told.{MayGet};
ghost use Rattle.stamp_sets.specs.inner.Ended.{IsReturn};

use crate::small_call::SmallReply;

/// How a call ends, as a watch is told when the call begins.
#[derive(Clone, Copy, Debug, PartialEq, Eq)]
pub enum Ending {
    /// It returns with this reply. The number is the place of its return among all returns: any numbers that rise
    /// from one return to the next, as those of the events in their stream.
    Returns(SmallReply, u64),
    /// It is withdrawn: it took no effect.
    Withdraws,
    /// It does not end in this run. Whether it takes effect is open, and so is its reply.
    Never,
}

/// Whether both are one reply.
pub(crate) fn is_same_reply(reply: SmallReply, other: SmallReply) -> bool
    ensures { IsTrue result ↔ (reply ≡ other) }
{
    reply == other
}

impl Ending {
    /// Whether it is a return with this reply.
    pub(crate) fn is_return(self, reply: SmallReply) -> bool
        ensures { IsTrue result ↔ IsReturn self reply }
    {
        match self {
            Ending::Returns(told, _) => is_same_reply(told, reply),
            _ => false,
        }
    }

    /// Whether a call that ends so may be given this reply.
    pub(crate) fn may_get(self, reply: SmallReply) -> bool
        ensures { IsTrue result ↔ MayGet self (reply_of reply) }
    {
        match self {
            Ending::Returns(told, _) => is_same_reply(told, reply),
            Ending::Withdraws => false,
            Ending::Never => true,
        }
    }
}
