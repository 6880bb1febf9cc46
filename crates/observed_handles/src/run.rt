//! What the threads do: all calls that handles of the lock and of the record have, or those of a guarded value's
//! handles and guards, at random.
use crate::record_run::{RowHandle, use_record};
use crate::recorder::{Recorder, Row};
use crate::value_run::use_value;
use stamp_core::Call;
use stamped_lock::{LockHandle, Stamp};
use stamped_value::StampedValue;
use std::alloc::AllocError;
use std::sync::Wait;
use std::thread::yield_now;

/// Acquires write mode, and releases it; its stamp is mostly still valid then.
fn write<R: Wait>(
    rt: &R,
    recorder: &mut Recorder<'_>,
    lock: &mut LockHandle<'_>,
) -> Result<(), AllocError> {
    let begun = recorder.begin();
    let stamp = lock.write(rt);
    let Some(stamp) = recorder.end(begun, Call::WriteLock, stamp)? else {
        return Ok(());
    };
    yield_now();
    let begun = recorder.begin();
    let released = lock.unlock_write(stamp);
    let _ = recorder.end(begun, Call::UnlockWrite(stamp.number()), released)?;
    validate(recorder, lock, stamp)
}

fn validate(
    recorder: &mut Recorder<'_>,
    lock: &mut LockHandle<'_>,
    stamp: Stamp,
) -> Result<(), AllocError> {
    let begun = recorder.begin();
    let valid = lock.validate(stamp);
    recorder.end(begun, Call::Validate(stamp.number()), valid)?;
    Ok(())
}

/// Releases the mode that the stamp matches.
fn release<R: Wait>(
    rt: &R,
    recorder: &mut Recorder<'_>,
    lock: &mut LockHandle<'_>,
    stamp: Stamp,
) -> Result<(), AllocError> {
    let begun = recorder.begin();
    let released = lock.unlock(rt, stamp);
    let _ = recorder.end(begun, Call::Unlock(stamp.number()), released)?;
    Ok(())
}

/// Acquires read mode, and releases it twice; the second release is mostly a mismatch.
fn read<R: Wait>(
    rt: &R,
    recorder: &mut Recorder<'_>,
    lock: &mut LockHandle<'_>,
) -> Result<(), AllocError> {
    let begun = recorder.begin();
    let stamp = lock.read(rt);
    let stamp = recorder.end(begun, Call::ReadLock, stamp)?;
    yield_now();
    let begun = recorder.begin();
    let released = lock.unlock_read(rt, stamp);
    let _ = recorder.end(begun, Call::UnlockRead(stamp.number()), released)?;
    release(rt, recorder, lock, stamp)
}

/// Reads if nobody writes, and goes on in write mode if nobody else reads.
fn upgrade<R: Wait>(
    rt: &R,
    recorder: &mut Recorder<'_>,
    lock: &mut LockHandle<'_>,
) -> Result<(), AllocError> {
    let begun = recorder.begin();
    let reading = lock.try_read(rt);
    let Some(reading) = recorder.end(begun, Call::TryRead, reading)? else {
        return Ok(());
    };
    yield_now();
    let begun = recorder.begin();
    let writing = lock.try_convert_to_write(rt, reading);
    let writing = recorder.end(begun, Call::ToWrite(reading.number()), writing)?;
    release(rt, recorder, lock, writing.unwrap_or(reading))
}

/// Goes on in read mode, and then holds nothing.
fn downgrade<R: Wait>(
    rt: &R,
    recorder: &mut Recorder<'_>,
    lock: &mut LockHandle<'_>,
    stamp: Stamp,
) -> Result<(), AllocError> {
    let begun = recorder.begin();
    let reading = lock.try_convert_to_read(rt, stamp);
    let Some(reading) = recorder.end(begun, Call::ToRead(stamp.number()), reading)? else {
        return Ok(());
    };
    yield_now();
    let begun = recorder.begin();
    let looking = lock.try_convert_to_optimistic(rt, reading);
    recorder.end(begun, Call::ToOptimistic(reading.number()), looking)?;
    Ok(())
}

/// Writes if nobody holds the lock, and goes on as a reader.
fn step_down<R: Wait>(
    rt: &R,
    recorder: &mut Recorder<'_>,
    lock: &mut LockHandle<'_>,
) -> Result<(), AllocError> {
    let begun = recorder.begin();
    let writing = lock.try_write(rt);
    match recorder.end(begun, Call::TryWrite, writing)? {
        Some(writing) => downgrade(rt, recorder, lock, writing),
        None => Ok(()),
    }
}

/// Looks optimistically, and reads if nobody wrote since.
fn look<R: Wait>(
    rt: &R,
    recorder: &mut Recorder<'_>,
    lock: &mut LockHandle<'_>,
) -> Result<(), AllocError> {
    let begun = recorder.begin();
    let looking = lock.try_optimistic_read();
    let Some(looking) = recorder.end(begun, Call::Optimistic, looking)? else {
        return Ok(());
    };
    yield_now();
    validate(recorder, lock, looking)?;
    downgrade(rt, recorder, lock, looking)
}

/// Asks who holds the lock.
fn ask(recorder: &mut Recorder<'_>, lock: &mut LockHandle<'_>) -> Result<(), AllocError> {
    let begun = recorder.begin();
    let writing = lock.is_write_locked();
    recorder.end(begun, Call::IsWriteLocked, writing)?;
    let begun = recorder.begin();
    let reading = lock.is_read_locked();
    recorder.end(begun, Call::IsReadLocked, reading)?;
    let begun = recorder.begin();
    let readers = lock.read_count();
    recorder.end(begun, Call::ReadCount, readers)?;
    Ok(())
}

/// Releases a mode without a stamp, whoever holds it.
fn recover<R: Wait>(
    rt: &R,
    recorder: &mut Recorder<'_>,
    lock: &mut LockHandle<'_>,
) -> Result<(), AllocError> {
    let begun = recorder.begin();
    let released = lock.try_unlock_read(rt);
    recorder.end(begun, Call::TryUnlockRead, released)?;
    let begun = recorder.begin();
    let released = lock.try_unlock_write(rt);
    recorder.end(begun, Call::TryUnlockWrite, released)?;
    Ok(())
}

/// Tries a call once. Where it loses, it was not made, and is not kept.
fn once<R: Wait>(
    rt: &R,
    recorder: &mut Recorder<'_>,
    lock: &mut LockHandle<'_>,
) -> Result<(), AllocError> {
    let begun = recorder.begin();
    let reading = lock.try_read_once();
    if let Ok(Some(stamp)) = recorder.end(begun, Call::TryRead, reading)? {
        release(rt, recorder, lock, stamp)?;
    }
    Ok(())
}

/// Makes calls of the lock; which ones, the number decides.
fn use_lock<R: Wait>(
    rt: &R,
    recorder: &mut Recorder<'_>,
    lock: &mut LockHandle<'_>,
    number: u64,
) -> Result<(), AllocError> {
    match number % 8 {
        0 => write(rt, recorder, lock),
        1 => read(rt, recorder, lock),
        2 => upgrade(rt, recorder, lock),
        3 => step_down(rt, recorder, lock),
        4 => look(rt, recorder, lock),
        5 => ask(recorder, lock),
        6 => recover(rt, recorder, lock),
        _ => once(rt, recorder, lock),
    }
}

/// What a thread calls.
#[derive(Drop)]
pub enum Subject<'a> {
    /// A lock, and a record that it doesn't guard.
    Apart {
        lock: LockHandle<'a>,
        record: RowHandle<'a>,
    },
    /// A lock and the words that it guards.
    Guarded(&'a StampedValue<Row>),
}

fn use_one<R: Wait>(
    rt: &R,
    recorder: &mut Recorder<'_>,
    subject: &mut Subject<'_>,
    number: u64,
) -> Result<(), AllocError> {
    match subject {
        Subject::Guarded(value) => use_value(rt, recorder, value, number),
        Subject::Apart { lock, record: _ } if number % 2 == 0 => {
            use_lock(rt, recorder, lock, number / 2)
        }
        Subject::Apart { lock: _, record } => use_record(rt, recorder, record, number / 2),
    }
}

/// Makes calls for so many rounds; which ones, the number decides.
pub fn work<R: Wait>(
    rt: &R,
    recorder: &mut Recorder<'_>,
    subject: &mut Subject<'_>,
    rounds: u64,
    seed: u64,
) -> Result<(), AllocError> {
    let mut number = seed;
    for _ in 0..rounds {
        number = number
            .wrapping_mul(6_364_136_223_846_793_005)
            .wrapping_add(1_442_695_040_888_963_407);
        use_one(rt, recorder, subject, number >> 33)?;
    }
    Ok(())
}
