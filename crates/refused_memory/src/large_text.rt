//! The text of the script.
ghost use Rattle.std.specs.Prelude.{◌<◌};

use itoa::Buffer;
use std::alloc::{AllocError, Global};

const THREADS: u64 = 64;

const CALLS: u64 = 10_000;

const STEPS: u64 = 1_000_000;

/// A thread makes this many steps before the next one makes its own.
const STRETCH: u64 = 100;

const WIDTH: u64 = 16;

fn push(text: &mut Vec<u8>, piece: &str) -> Result<(), AllocError> {
    text.extend_from_slice(piece.as_bytes())
}

fn push_number(text: &mut Vec<u8>, number: u64) -> Result<(), AllocError> {
    let mut digits = Buffer::new();
    push(text, digits.format(number))
}

/// The comma before an item that is not the first.
fn push_comma(text: &mut Vec<u8>, index: u64) -> Result<(), AllocError> {
    if index > 0 { push(text, ",") } else { Ok(()) }
}

/// The list of this word, as many times as the record has words.
fn push_words(text: &mut Vec<u8>, word: u64) -> Result<(), AllocError> {
    push(text, "[")?;
    for index in 0..WIDTH {
        push_comma(text, index)?;
        push_number(text, word)?;
    }
    push(text, "]")
}

/// A call that is given the stamp of the thread's call this many calls before.
fn push_stamped(
    text: &mut Vec<u8>,
    name: &str,
    thread: u64,
    index: u64,
    calls: u64,
) -> Result<(), AllocError> {
    push(text, "[\"")?;
    push(text, name)?;
    push(text, "\",[")?;
    push_number(text, thread)?;
    push(text, ",")?;
    push_number(text, index.saturating_sub(calls))?;
    push(text, "]]")
}

/// Of eight calls of the record one is a put and one a conditional put.
fn push_record_call(text: &mut Vec<u8>, thread: u64, round: u64) -> Result<(), AllocError> {
    match round % 8 {
        0 => {
            push(text, "[\"put\",")?;
            push_words(text, thread % 4)?;
        }
        4 => {
            push(text, "[\"put_if\",")?;
            push_words(text, round % 4)?;
            push(text, ",")?;
            push_words(text, thread % 4)?;
        }
        _ => push(text, "[\"get\"")?,
    }
    push(text, "]")
}

/// Seven calls of the lock, and one of the record.
fn push_call(text: &mut Vec<u8>, thread: u64, index: u64) -> Result<(), AllocError> {
    match index % 8 {
        0 => push(text, "[\"try_write\"]"),
        1 => push_stamped(text, "validate", thread, index, 1),
        2 => push_stamped(text, "unlock_write", thread, index, 2),
        3 => push(text, "[\"try_read\"]"),
        4 => push_stamped(text, "to_write", thread, index, 1),
        5 => push_stamped(text, "unlock", thread, index, 1),
        6 => push_stamped(text, "unlock", thread, index, 3),
        _ => push_record_call(text, thread, index / 8),
    }
}

fn push_calls(text: &mut Vec<u8>, thread: u64) -> Result<(), AllocError> {
    push(text, "[")?;
    for index in 0..CALLS {
        push_comma(text, index)?;
        push_call(text, thread, index)?;
    }
    push(text, "]")
}

/// The thread that makes the steps of this stretch.
fn thread_of(stretch: u64) -> u64
    requires { stretch < 1_000_000 }
{
    (stretch * 2_654_435_761) % 4_294_967_296 / 67_108_864
}

fn push_steps(text: &mut Vec<u8>) -> Result<(), AllocError> {
    for position in 0..STEPS {
        push_comma(text, position)?;
        push_number(text, thread_of(position / STRETCH))?;
    }
    Ok(())
}

fn push_threads(text: &mut Vec<u8>) -> Result<(), AllocError> {
    for thread in 0..THREADS {
        push_comma(text, thread)?;
        push_calls(text, thread)?;
    }
    Ok(())
}

/// The text of the script, as `stamped run` reads it.
pub(crate) fn script_text(alloc: Global) -> Result<Vec<u8>, AllocError> {
    let mut text = Vec::new(alloc);
    push(&mut text, "{\"readers\":127,\"steps\":[")?;
    push_steps(&mut text)?;
    push(&mut text, "],\"threads\":[")?;
    push_threads(&mut text)?;
    push(&mut text, "],\"versions\":36028797018963966,\"width\":16}")?;
    Ok(text)
}
