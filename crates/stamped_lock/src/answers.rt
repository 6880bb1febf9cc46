//! The typed answer in a reply.
ghost use Rattle.std.specs.Prelude.{◌≡◌, Some};
ghost use Rattle.stamp_core.specs.declared.reply.Reply.TheVariants.{Count};
ghost use Rattle.stamp_threads.specs.MayReply.{IsStampReply, IsSomeStamp, IsTest, IsRelease};
ghost use Rattle.stamp_threads.specs.MayReply.{IsCount};
ghost use Rattle.stamped_lock.specs.Replies.{stamped, tested, released};

use crate::mismatch::Mismatch;
use crate::stamp::Stamp;
use stamp_core::Reply;

/// The stamp, where it is not 0.
#[inline(always)]
pub fn stamp_unless_zero(reply: Reply) -> Option<Stamp>
    requires { IsStampReply reply }
    ensures { stamped result ≡ reply }
{
    match reply {
        Reply::Stamp(number) => Stamp::new(number),
        _ => unreachable!(),
    }
}

/// The stamp, which is not 0.
#[inline(always)]
pub fn some_stamp_in(reply: Reply) -> Stamp
    requires { IsSomeStamp reply }
    ensures { stamped (Some result) ≡ reply }
{
    match reply {
        Reply::Stamp(number) => Stamp::new(number).unwrap(),
        _ => unreachable!(),
    }
}

/// True for yes.
#[inline(always)]
pub fn test_in(reply: Reply) -> bool
    requires { IsTest reply }
    ensures { tested result ≡ reply }
{
    match reply {
        Reply::Yes => true,
        Reply::No => false,
        _ => unreachable!(),
    }
}

/// Whether the reply of a release says that it was made.
#[inline(always)]
pub fn was_released(reply: Reply) -> Result<(), Mismatch>
    requires { IsRelease reply }
    ensures { released result ≡ reply }
{
    match reply {
        Reply::Done => Ok(()),
        Reply::Mismatch => Err(Mismatch),
        _ => unreachable!(),
    }
}

/// The number.
#[inline(always)]
pub fn count_in(reply: Reply) -> u64
    requires { IsCount reply }
    ensures { Count result ≡ reply }
{
    match reply {
        Reply::Count(count) => count,
        _ => unreachable!(),
    }
}
