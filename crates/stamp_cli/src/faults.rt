//! Why a command was not answered, and the line that says so.

ghost use Rattle.std.specs.Prelude.{◌≡◌, Some, IfOk, IsOkUnless, string_bytes};
ghost use Rattle.stamp_cli.specs.declared.faults.ServeFault.TheVariants.{Memory};
ghost use Rattle.stamp_cli.specs.Refusal.{refusal, unanswered};
ghost use Rattle.stamp_cli.specs.FaultText.{script_error_text, read_error_text, cause_text};
ghost use Rattle.stamp_cli.specs.FaultText.{named_fault_text, fault_text};

use stamp_history::{AnswerError, ReadError};
use stamp_machines::ScriptError;
use std::alloc::{AllocError, AllocFailed, Global};
use std::fmt;
use thiserror::Error;

/// Why `serve` wrote no line.
#[derive(Clone, Copy, Debug, PartialEq, Eq, Error)]
pub enum ServeFault {
    /// 1: a read answered an error.
    #[error("a read failed")]
    ReadFault,
    /// 2: more than 16,777,216 bytes came in.
    #[error("the input is too long")]
    TooLong,
    /// 3: the input is refused; never for want of memory.
    #[error("the input is refused: {0}")]
    Refused(ReadError),
    /// 4: this call of the replay, counted from 0, would wait.
    #[error("call {0} waits")]
    Waits(u64),
    /// 5: an allocation was refused.
    #[error("out of memory")]
    Memory,
    /// 6: a write answered an error or took no byte. A front of the line may have gone out.
    #[error("a write failed")]
    WriteFault,
    /// 7: this entry of the history, counted from 0, is the first that was answered a number other
    /// than 0 that is no stamp which layout 2 can spell.
    #[error("bad reply at entry {0}")]
    BadReply(u64),
}

impl From<AllocError> for ServeFault {
    ghost from_gives = { λ _ e. e ≡ Memory };

    fn from(_refused: AllocError) -> ServeFault {
        ServeFault::Memory
    }
}

impl<T: Drop> From<AllocFailed<T>> for ServeFault {
    ghost from_gives = { λ _ e. e ≡ Memory };

    fn from(_refused: AllocFailed<T>) -> ServeFault {
        ServeFault::Memory
    }
}

impl From<ReadError> for ServeFault {
    ghost from_gives = { λ error e. e ≡ refusal error };

    fn from(error: ReadError) -> ServeFault {
        match error {
            ReadError::Memory => ServeFault::Memory,
            error => ServeFault::Refused(error),
        }
    }
}

impl From<AnswerError> for ServeFault {
    ghost from_gives = { λ error e. e ≡ unanswered error };

    fn from(error: AnswerError) -> ServeFault {
        match error {
            AnswerError::Refused(error) => ServeFault::from(error),
            AnswerError::Waits(call) => ServeFault::Waits(call),
        }
    }
}

/// What is wrong with a script, as the end of a line.
#[derive(Drop)]
struct ScriptErrorText(ScriptError);

impl fmt::Display for ScriptErrorText {
    ghost output = { λ text. Some (script_error_text text.0) };

    fn fmt<W: fmt::Write>(&self, f: &mut fmt::Formatter<W>) -> fmt::Result {
        match self.0 {
            ScriptError::TooManyThreads => write!(f, "too many threads"),
            ScriptError::TooManyCalls => write!(f, "too many calls"),
            ScriptError::TooManySteps => write!(f, "too many steps"),
            ScriptError::NoSuchThread(step) => write!(f, "no thread at step {step}"),
            ScriptError::RecordWidth => write!(f, "record width"),
        }
    }
}

/// Why an input is refused.
#[derive(Drop)]
struct ReadErrorText(ReadError);

impl fmt::Display for ReadErrorText {
    ghost output = { λ text. Some (read_error_text text.0) };

    fn fmt<W: fmt::Write>(&self, f: &mut fmt::Formatter<W>) -> fmt::Result {
        match self.0 {
            ReadError::NotJson => write!(f, "not json"),
            ReadError::NotHistory(field) => write!(f, "not a history: {field}"),
            ReadError::Limit(field) => write!(f, "over a limit: {field}"),
            ReadError::Memory => write!(f, "memory"),
            ReadError::NotScript(field) => write!(f, "not a script: {field}"),
            ReadError::BadScript(error) => {
                write!(f, "script refused: {}", ScriptErrorText(error))
            }
        }
    }
}

/// What a fault is, as the end of its line.
#[derive(Drop)]
struct CauseText(ServeFault);

impl fmt::Display for CauseText {
    ghost output = { λ text. Some (cause_text text.0) };

    fn fmt<W: fmt::Write>(&self, f: &mut fmt::Formatter<W>) -> fmt::Result {
        match self.0 {
            ServeFault::ReadFault => write!(f, "read fault"),
            ServeFault::TooLong => write!(f, "input over 16777216 bytes"),
            ServeFault::Refused(error) => write!(f, "{}", ReadErrorText(error)),
            ServeFault::Waits(call) => write!(f, "call {call} waits"),
            ServeFault::Memory => write!(f, "memory"),
            ServeFault::WriteFault => write!(f, "write fault"),
            ServeFault::BadReply(entry) => write!(f, "bad reply at entry {entry}"),
        }
    }
}

/// The fault's line for standard error, as the program of this name writes it, without its line feed.
/// It refuses only for want of memory.
pub fn named_fault_line(alloc: Global, name: &str, fault: &ServeFault) -> Result<String, ServeFault>
    ensures text { IfOk result (λ line. string_bytes line ≡ named_fault_text name.now fault.now) }
    ensures refused { IsOkUnless result ServeFault.Memory }
{
    let cause = CauseText(*fault);
    Ok(format!(in alloc; "{name}: {cause}")?)
}

/// The fault's line for standard error, without its line feed. It refuses only for want of memory.
pub fn fault_line(alloc: Global, fault: &ServeFault) -> Result<String, ServeFault>
    ensures text { IfOk result (λ line. string_bytes line ≡ fault_text fault.now) }
    ensures refused { IsOkUnless result ServeFault.Memory }
{
    named_fault_line(alloc, "stamped", fault)
}
