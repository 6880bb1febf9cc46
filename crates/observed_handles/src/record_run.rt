//! What the threads do with the record: all calls that its handle has, at random.
use crate::recorder::{Recorder, Row, WIDTH, words_of};
use stamp_core::Call;
use stamped_lock::{AnyContent, RecordHandle};
use std::alloc::AllocError;
use std::sync::Wait;
use std::thread::yield_now;

/// A thread's handle of the record.
pub type RowHandle<'a> = RecordHandle<'a, WIDTH, AnyContent>;

/// The words of which each is one more.
fn one_more(row: Row) -> Row {
    row.map(|word| word.wrapping_add(1))
}

/// Gets the words, and puts a number that no other put has.
fn put<R: Wait>(
    rt: &R,
    recorder: &mut Recorder<'_>,
    record: &mut RowHandle<'_>,
) -> Result<(), AllocError> {
    let begun = recorder.begin();
    let row = record.get(rt);
    recorder.end(begun, Call::Get, row)?;
    let begun = recorder.begin();
    let row = [begun; WIDTH];
    let done = record.put(rt, row);
    let _ = recorder.end(begun, Call::Put(words_of(row)), done)?;
    Ok(())
}

/// As `put`, by calls that are tried once.
fn put_once(recorder: &mut Recorder<'_>, record: &mut RowHandle<'_>) -> Result<(), AllocError> {
    let begun = recorder.begin();
    let row = record.get_once();
    let _ = recorder.end(begun, Call::Get, row)?;
    let begun = recorder.begin();
    let row = [begun; WIDTH];
    let done = record.put_once(row);
    let _ = recorder.end(begun, Call::Put(words_of(row)), done)?;
    Ok(())
}

/// Gets the words, and puts one more of each if the record still holds them.
fn put_if<R: Wait>(
    rt: &R,
    recorder: &mut Recorder<'_>,
    record: &mut RowHandle<'_>,
) -> Result<(), AllocError> {
    let begun = recorder.begin();
    let old = record.get(rt);
    let old = recorder.end(begun, Call::Get, old)?;
    yield_now();
    let new = one_more(old);
    let begun = recorder.begin();
    let done = record.put_if(rt, old, new);
    let _ = recorder.end(begun, Call::PutIf(words_of(old), words_of(new)), done)?;
    Ok(())
}

/// As `put_if`, by calls that are tried once.
fn put_if_once(recorder: &mut Recorder<'_>, record: &mut RowHandle<'_>) -> Result<(), AllocError> {
    let begun = recorder.begin();
    let old = record.get_once();
    let Ok(old) = recorder.end(begun, Call::Get, old)? else {
        return Ok(());
    };
    let new = one_more(old);
    let begun = recorder.begin();
    let done = record.put_if_once(old, new);
    let _ = recorder.end(begun, Call::PutIf(words_of(old), words_of(new)), done)?;
    Ok(())
}

/// Keeps an update that gave these old words, if it was made. It is a put_if of them, which put the new ones.
fn end_update(
    recorder: &mut Recorder<'_>,
    begun: u64,
    updated: Option<Row>,
) -> Result<(), AllocError> {
    if let Some(old) = updated {
        let call = Call::PutIf(words_of(old), words_of(one_more(old)));
        recorder.end(begun, call, true)?;
    }
    Ok(())
}

/// Adds one to each word. Others may put while the closure runs, and then it runs again.
fn update<R: Wait>(
    rt: &R,
    recorder: &mut Recorder<'_>,
    record: &mut RowHandle<'_>,
) -> Result<(), AllocError> {
    let begun = recorder.begin();
    let updated = record.update(rt, |row: &Row| -> Row {
        yield_now();
        one_more(*row)
    });
    end_update(recorder, begun, updated.ok())
}

/// As `update`, by a call that is tried once.
fn update_once(recorder: &mut Recorder<'_>, record: &mut RowHandle<'_>) -> Result<(), AllocError> {
    let begun = recorder.begin();
    let updated = record.update_once(|row: &Row| -> Row { one_more(*row) });
    end_update(recorder, begun, updated.ok())
}

/// Adds one to each word, unless the first is even: such an update makes no call.
fn try_update<R: Wait>(
    rt: &R,
    recorder: &mut Recorder<'_>,
    record: &mut RowHandle<'_>,
) -> Result<(), AllocError> {
    let begun = recorder.begin();
    let updated = record.try_update(rt, |row: &Row| -> Option<Row> {
        (row[0] % 2 == 1).then(|| one_more(*row))
    });
    end_update(recorder, begun, updated.ok())
}

/// Makes calls of the record; which ones, the number decides.
pub fn use_record<R: Wait>(
    rt: &R,
    recorder: &mut Recorder<'_>,
    record: &mut RowHandle<'_>,
    number: u64,
) -> Result<(), AllocError> {
    match number % 7 {
        0 => put(rt, recorder, record),
        1 => put_once(recorder, record),
        2 => put_if(rt, recorder, record),
        3 => put_if_once(recorder, record),
        4 => update(rt, recorder, record),
        5 => update_once(recorder, record),
        _ => try_update(rt, recorder, record),
    }
}
