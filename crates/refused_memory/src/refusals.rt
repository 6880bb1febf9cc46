//! Calls that are refused for another cause than want of memory, each under a word.
use crate::booking::book_waits_outcome;
use crate::orders::{READ_FAULT, REFUSED, TOO_LONG, WRITE_FAULT, orders_outcome};
use crate::outcome::Outcome;
use crate::refused_records::{is_long_refused, records_outcome};
use crate::refused_scripts::{SHAPES, WIDTHS, is_step_refused, shapes_outcome};
use crate::replays::replay_waits_outcome;
use crate::running::running_record_outcome;
use crate::texts::{ANSWERS, HISTORIES, REPLAYS, Reader, SCRIPTS, texts_outcome};
use stamp_core::Limits;
use std::alloc::Global;

/// The outcome of the refusals that the word names; no other word is right.
pub(crate) fn refusal_outcome(alloc: Global, limits: Limits, word: &str) -> Outcome {
    match word {
        "record" => records_outcome(alloc, limits),
        "long_record" => Outcome::of(is_long_refused(alloc, limits)),
        "script" => shapes_outcome(alloc, limits, &SHAPES),
        "script_width" => shapes_outcome(alloc, limits, &WIDTHS),
        "step" => Outcome::of(is_step_refused(alloc)),
        "replay" => replay_waits_outcome(alloc, limits),
        "book" => book_waits_outcome(alloc, limits),
        "put" => running_record_outcome(alloc, limits),
        "read_replay" => texts_outcome(alloc, Reader::Replay, &REPLAYS),
        "read_script" => texts_outcome(alloc, Reader::Script, &SCRIPTS),
        "read_history" => texts_outcome(alloc, Reader::History, &HISTORIES),
        "replay_text" => texts_outcome(alloc, Reader::Answer, &ANSWERS),
        "serve" => orders_outcome(alloc, &REFUSED),
        "read_fault" => orders_outcome(alloc, &READ_FAULT),
        "write_fault" => orders_outcome(alloc, &WRITE_FAULT),
        "too_long" => orders_outcome(alloc, &TOO_LONG),
        _ => Outcome::Wrong,
    }
}
