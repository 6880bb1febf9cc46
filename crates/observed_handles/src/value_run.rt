//! What the threads do with a guarded value: calls of its handles and guards, at random. What a thread reads in a
//! mode is kept as a get, and what it writes as a put. Their tickets are taken in the mode, so no get meets a put, and
//! each must have the words of the last put before it.
ghost use Rattle.std.specs.Prelude.{ℕ, Some, IfOk};
ghost use Rattle.stamp_core.specs.declared.call.Call.TheVariants as call;
ghost use Rattle.stamp_core.specs.declared.reply.Reply.TheVariants.{Content, Done};
ghost use Rattle.observed_handles.specs.Recorder.{WasKept};

use crate::recorder::{Recorder, Row, WIDTH, words_of};
use stamp_core::{Call, Reply};
use stamped_lock::Stamp;
use stamped_value::{ReadGuard, StampedValue, ValueHandle, WriteGuard};
use std::alloc::AllocError;
use std::sync::Wait;
use std::thread::yield_now;

/// Keeps the words that a guard reads as a get.
fn get(recorder: &mut Recorder<'_>, row: &Row) -> Result<(), AllocError>
    ensures { IfOk result (λ _. (first : ℕ) × WasKept recorder.old.thread first call.Get
        (Some (Content row.now)) recorder.old.tape.items recorder.new.tape.items) }
{
    let begun = recorder.begin();
    let found = *row;
    recorder.end(begun, Call::Get, found)?;
    Ok(())
}

/// Writes a number that no other put has, and keeps it as a put.
fn put(recorder: &mut Recorder<'_>, row: &mut Row) -> Result<(), AllocError>
    ensures { IfOk result (λ _. (first : ℕ) × WasKept recorder.old.thread first (call.Put row.new)
        (Some Done) recorder.old.tape.items recorder.new.tape.items) }
{
    let begun = recorder.begin();
    *row = [begun; WIDTH];
    recorder.end(begun, Call::Put(words_of(*row)), ())?;
    Ok(())
}

/// Asks whether the stamp's value is the last one.
fn ask(
    recorder: &mut Recorder<'_>,
    handle: &mut ValueHandle<'_, Row>,
    stamp: u64,
) -> Result<(), AllocError> {
    let begun = recorder.begin();
    let is_last = handle.is_last(stamp);
    recorder.end(begun, Call::Validate(stamp), is_last)?;
    Ok(())
}

/// Gets the words, and releases read mode; its stamp is mostly still that of the last value then.
fn end_read<R: Wait>(
    recorder: &mut Recorder<'_>,
    reader: ReadGuard<'_, Row, R>,
) -> Result<(), AllocError> {
    yield_now();
    get(recorder, &reader)?;
    let stamp = reader.stamp();
    let begun = recorder.begin();
    let handle = reader.release();
    let mut handle = recorder.end(begun, Call::UnlockRead(stamp), handle)?;
    ask(recorder, &mut handle, stamp)
}

/// Gets and puts the words, and releases write mode.
fn end_write<R: Wait>(
    recorder: &mut Recorder<'_>,
    mut writer: WriteGuard<'_, Row, R>,
) -> Result<(), AllocError> {
    get(recorder, &writer)?;
    yield_now();
    put(recorder, &mut writer)?;
    let stamp = writer.stamp();
    let begun = recorder.begin();
    let handle = writer.release();
    recorder.end(begun, Call::UnlockWrite(stamp), handle)?;
    Ok(())
}

/// Waits for read mode.
fn read<R: Wait>(
    rt: &R,
    recorder: &mut Recorder<'_>,
    handle: ValueHandle<'_, Row>,
) -> Result<(), AllocError> {
    let begun = recorder.begin();
    let reader = handle.read(rt);
    let reader = recorder.end(begun, Call::ReadLock, reader)?;
    end_read(recorder, reader)
}

/// Waits for write mode.
fn write<R: Wait>(
    rt: &R,
    recorder: &mut Recorder<'_>,
    handle: ValueHandle<'_, Row>,
) -> Result<(), AllocError> {
    let begun = recorder.begin();
    let writer = handle.write(rt);
    match recorder.end(begun, Call::WriteLock, writer)? {
        Ok(writer) => end_write(recorder, writer),
        Err(_) => Ok(()),
    }
}

/// Reads if nobody writes, and goes on as the writer if nobody else reads.
fn upgrade<R: Wait>(
    rt: &R,
    recorder: &mut Recorder<'_>,
    handle: ValueHandle<'_, Row>,
) -> Result<(), AllocError> {
    let begun = recorder.begin();
    let reader = handle.try_read(rt);
    let Ok(reader) = recorder.end(begun, Call::TryRead, reader)? else {
        return Ok(());
    };
    get(recorder, &reader)?;
    yield_now();
    let stamp = reader.stamp();
    let begun = recorder.begin();
    let writer = reader.upgrade();
    match recorder.end(begun, Call::ToWrite(stamp), writer)? {
        Ok(writer) => end_write(recorder, writer),
        Err(reader) => end_read(recorder, reader),
    }
}

/// Writes if nobody holds the lock, and goes on as a reader.
fn step_down<R: Wait>(
    rt: &R,
    recorder: &mut Recorder<'_>,
    handle: ValueHandle<'_, Row>,
) -> Result<(), AllocError> {
    let begun = recorder.begin();
    let writer = handle.try_write(rt);
    let Ok(mut writer) = recorder.end(begun, Call::TryWrite, writer)? else {
        return Ok(());
    };
    put(recorder, &mut writer)?;
    let stamp = writer.stamp();
    let begun = recorder.begin();
    let reader = writer.downgrade();
    let reader = recorder.end(begun, Call::ToRead(stamp), reader)?;
    end_read(recorder, reader)
}

/// Looks without a mode whether a writer comes.
fn look(recorder: &mut Recorder<'_>, mut handle: ValueHandle<'_, Row>) -> Result<(), AllocError> {
    let begun = recorder.begin();
    let stamp = handle.optimistic();
    recorder.end(begun, Call::Optimistic, Stamp::new(stamp))?;
    yield_now();
    ask(recorder, &mut handle, stamp)
}

/// Reads in a section. Its closure takes the tickets that end its first call and begin its last one.
fn read_section<R: Wait>(
    rt: &R,
    recorder: &mut Recorder<'_>,
    mut handle: ValueHandle<'_, Row>,
) -> Result<(), AllocError> {
    let begun = recorder.begin();
    let ((acquired, getting, row, got, releasing), stamp) = handle.read_stamped(
        rt,
        |row: &Row| -> (u64, u64, Row, u64, u64) {
            let (acquired, getting) = (recorder.begin(), recorder.begin());
            let row = *row;
            (acquired, getting, row, recorder.begin(), recorder.begin())
        },
    );
    let released = recorder.begin();
    recorder.keep(begun, acquired, Call::ReadLock, Reply::Stamp(stamp))?;
    recorder.keep(getting, got, Call::Get, Reply::Content(words_of(row)))?;
    recorder.keep(releasing, released, Call::UnlockRead(stamp), Reply::Done)?;
    ask(recorder, &mut handle, stamp)
}

/// Makes calls of a handle of the value, and of its guards; which ones, the number decides.
pub fn use_value<R: Wait>(
    rt: &R,
    recorder: &mut Recorder<'_>,
    value: &StampedValue<Row>,
    number: u64,
) -> Result<(), AllocError> {
    let handle = value.enter();
    match number % 6 {
        0 => read(rt, recorder, handle),
        1 => write(rt, recorder, handle),
        2 => upgrade(rt, recorder, handle),
        3 => step_down(rt, recorder, handle),
        4 => look(recorder, handle),
        _ => read_section(rt, recorder, handle),
    }
}
