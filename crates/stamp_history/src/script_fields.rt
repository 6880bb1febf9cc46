//! The fields of a script beside its limits, each over one JSON value.

ghost use Rattle.std.specs.Prelude.{◌≡◌, map};
ghost use Rattle.std.specs.Result.{result_map_both};
ghost use Rattle.serde_json.specs.View.{view, items_view};
ghost use Rattle.stamp_machines.specs.ScriptFault.{thread_calls};
ghost use Rattle.stamp_history.specs.Gives.{Gives};
ghost use Rattle.stamp_history.specs.JsonReading.{each};
ghost use Rattle.stamp_history.specs.ScriptValue as field;

use crate::field::Field;
use crate::json_values::{as_list, has_keys, list_under, take_list, whole_under};
use crate::read_error::ReadError;
use crate::script_calls::script_call_of;
use serde_json::Value;
use stamp_machines::{MOST_CALLS, ScriptCall};
use std::alloc::Global;

/// Tests which keys the object has.
pub(crate) fn check_top(value: &Value) -> Result<(), ReadError>
    ensures { result ≡ field.top (view value.now) }
{
    if has_keys(value, &["readers", "steps", "threads", "versions", "width"])
        || has_keys(
            value,
            &["layout", "readers", "steps", "threads", "versions", "width"],
        )
    {
        Ok(())
    } else {
        Err(ReadError::NotScript(Field::Top))
    }
}

/// The words of the record, 0 where there is none. Their range is tested by `Script::new`.
pub(crate) fn read_width(value: &Value) -> Result<u64, ReadError>
    ensures { result ≡ field.width (view value.now) }
{
    whole_under(value, "width").ok_or(ReadError::NotScript(Field::Width))
}

fn are_lists(list: &[Value]) -> bool
    ensures { result ≡ field.are_lists (items_view list.now) }
{
    for value in list {
        if value.as_array().is_none() {
            return false;
        }
    }
    true
}

fn listed_threads(value: Value) -> Result<Vec<Value>, ReadError>
    ensures { result_map_both (λ list. items_view list.items) (λ e. e) result
        ≡ field.listed_threads (view value) }
{
    match take_list(value, "threads") {
        Some(list) if are_lists(&list) => Ok(list),
        _ => Err(ReadError::NotScript(Field::Threads)),
    }
}

fn call_at(thread: u64, index: u64, value: &Value) -> Result<ScriptCall, ReadError>
    ensures { result ≡ field.call_at thread index (view value.now) }
{
    script_call_of(value).ok_or(ReadError::NotScript(Field::ThreadCall(thread, index)))
}

/// The calls of one thread. Room is made at once for as many as a thread may have.
fn calls_of_thread(
    alloc: Global,
    thread: u64,
    list: Vec<Value>,
) -> Result<Vec<ScriptCall>, ReadError>
    ensures { Gives ReadError.Memory thread_calls result
        (each (field.call_at thread) 0 (items_view list.items)) }
{
    let mut calls = Vec::with_capacity(alloc, list.len().min(MOST_CALLS))?;
    for value in list {
        calls.push(call_at(thread, calls.len() as u64, &value)?)?;
    }
    Ok(calls)
}

fn thread_at(alloc: Global, thread: u64, value: Value) -> Result<Vec<ScriptCall>, ReadError>
    ensures { Gives ReadError.Memory thread_calls result (field.thread_at thread (view value)) }
{
    match as_list(value) {
        Some(list) => calls_of_thread(alloc, thread, list),
        None => Err(ReadError::NotScript(Field::Threads)),
    }
}

/// The calls of each thread. Each value is dropped once it is read, so that its memory can serve the
/// next thread's calls.
fn threads_in(alloc: Global, list: Vec<Value>) -> Result<Vec<Vec<ScriptCall>>, ReadError>
    ensures { Gives ReadError.Memory (λ threads. map thread_calls threads.items) result
        (each field.thread_at 0 (items_view list.items)) }
{
    let mut threads = Vec::with_capacity(alloc, list.len())?;
    for value in list {
        threads.push(thread_at(alloc, threads.len() as u64, value)?)?;
    }
    Ok(threads)
}

/// The calls of each thread. Every thread is found to be a list before any call is read.
#[tactic(auto, unfolding(crate::specs::ScriptValue::threads))]
pub(crate) fn read_threads(alloc: Global, value: Value) -> Result<Vec<Vec<ScriptCall>>, ReadError>
    ensures { Gives ReadError.Memory (λ threads. map thread_calls threads.items) result
        (field.threads (view value)) }
{
    threads_in(alloc, listed_threads(value)?)
}

fn listed_steps(value: &Value) -> Result<&[Value], ReadError>
    ensures { result_map_both (λ list. items_view list.now) (λ e. e) result
        ≡ field.listed_steps (view value.now) }
{
    match list_under(value, "steps") {
        None => Err(ReadError::NotScript(Field::Steps)),
        Some(list) => Ok(list.as_slice()),
    }
}

fn step_at(index: u64, value: &Value) -> Result<u64, ReadError>
    ensures { result ≡ field.step_at index (view value.now) }
{
    value
        .as_u64()
        .ok_or(ReadError::NotScript(Field::Step(index)))
}

fn steps_in(alloc: Global, list: &[Value]) -> Result<Vec<u64>, ReadError>
    ensures { Gives ReadError.Memory (λ steps. steps.items) result
        (each field.step_at 0 (items_view list.now)) }
{
    let mut steps = Vec::with_capacity(alloc, list.len())?;
    for (index, value) in list.iter().enumerate() {
        steps.push(step_at(index as u64, value)?)?;
    }
    Ok(steps)
}

/// The thread of each step.
#[tactic(auto, unfolding(crate::specs::ScriptValue::steps))]
pub(crate) fn read_steps(alloc: Global, value: &Value) -> Result<Vec<u64>, ReadError>
    ensures { Gives ReadError.Memory (λ steps. steps.items) result
        (field.steps (view value.now)) }
{
    steps_in(alloc, listed_steps(value)?)
}
