//! What the threads do.
ghost use Rattle.std.specs.Prelude.{◌<◌};

use stamp_core::{Call, Reply};
use stamp_threads::{BookError, Shared};
use std::sync::Wait;
use std::thread::yield_now;

/// How often each thread writes, reads and looks.
const ROUNDS: u64 = 1_000;

/// Acquires write mode, lets other threads run, and releases it.
fn write<R: Wait>(rt: &R, shared: &Shared, thread: u64) -> Result<(), BookError>
    requires { thread < 64 }
{
    if let Reply::Stamp(stamp) = shared.call(rt, thread, Call::WriteLock)? {
        yield_now();
        shared.call(rt, thread, Call::UnlockWrite(stamp))?;
    }
    Ok(())
}

/// Acquires read mode, lets other threads run, and releases it.
fn read<R: Wait>(rt: &R, shared: &Shared, thread: u64) -> Result<(), BookError>
    requires { thread < 64 }
{
    if let Reply::Stamp(stamp) = shared.call(rt, thread, Call::ReadLock)? {
        yield_now();
        shared.call(rt, thread, Call::UnlockRead(stamp))?;
    }
    Ok(())
}

/// Asks for an optimistic stamp, and validates it.
fn look<R: Wait>(rt: &R, shared: &Shared, thread: u64) -> Result<(), BookError>
    requires { thread < 64 }
{
    if let Reply::Stamp(stamp) = shared.call(rt, thread, Call::Optimistic)? {
        shared.call(rt, thread, Call::Validate(stamp))?;
    }
    Ok(())
}

/// Makes six calls a round under this number, which stands in their entries.
pub fn work<R: Wait>(rt: &R, shared: &Shared, thread: u64) -> Result<(), BookError>
    requires { thread < 64 }
{
    for _ in 0..ROUNDS {
        write(rt, shared, thread)?;
        read(rt, shared, thread)?;
        look(rt, shared, thread)?;
    }
    Ok(())
}
