//! A recorder: it keeps a thread's calls, each with a ticket taken before it and one after it.
ghost use Rattle.std.specs.Prelude.{◌≡◌, [], ◌∷◌, ◌++◌, IfOk, OnErr};
ghost use Rattle.observed_handles.specs.Recorder.{WasKept, observed};

use stamp_core::{Call, Reply, Words};
use stamp_explain::{Observation, Returned};
use stamped_lock::{GetFault, Lost, Mismatch, PutFault, Spent, Stamp};
use std::alloc::{AllocError, Global};
use std::sync::atomic::{AtomicU64, Ordering};

/// How many words the record has.
pub const WIDTH: usize = 3;

/// The words of the record.
pub type Row = [u64; WIDTH];

/// The words of a row, as a call or a reply has them.
pub fn words_of(row: Row) -> Words
    ensures { result ≡ row }
{
    let Some(words) = Words::new(&row) else {
        unreachable!()
    };
    words
}

/// What a method of a handle or of a guard answers.
pub trait Answer: Drop {
    ghost use Rattle.std.specs.Prelude.{◌≡◌, Option};
    ghost use Rattle.stamp_core.specs.declared.reply.Reply.{Reply};

    // The reply of the call that this answers.
    ghost replied: { Self → Option Reply };

    /// The reply that the sequential call has. None where the call failed, and was not made.
    fn reply(&self) -> Option<Reply>
        ensures { result ≡ replied self.now };
}

impl Answer for Option<Stamp> {
    ghost use Rattle.std.specs.Prelude.{Some};
    ghost use Rattle.stamped_lock.specs.Replies.{stamped};

    ghost replied = { λ s. Some (stamped s) };

    fn reply(&self) -> Option<Reply> {
        Some(Reply::Stamp(self.map_or(0, |stamp| stamp.number())))
    }
}

impl Answer for Stamp {
    ghost use Rattle.std.specs.Prelude.{Some};
    ghost use Rattle.stamp_core.specs.declared.reply.Reply.TheVariants as reply;

    ghost replied = { λ s. Some (reply.Stamp s) };

    fn reply(&self) -> Option<Reply> {
        Some(Reply::Stamp(self.number()))
    }
}

impl Answer for bool {
    ghost use Rattle.std.specs.Prelude.{Some};
    ghost use Rattle.stamped_lock.specs.Replies.{tested};

    ghost replied = { λ b. Some (tested b) };

    fn reply(&self) -> Option<Reply> {
        Some(if *self { Reply::Yes } else { Reply::No })
    }
}

impl Answer for Result<(), Mismatch> {
    ghost use Rattle.std.specs.Prelude.{Some};
    ghost use Rattle.stamped_lock.specs.Replies.{released};

    ghost replied = { λ r. Some (released r) };

    fn reply(&self) -> Option<Reply> {
        Some(if self.is_ok() {
            Reply::Done
        } else {
            Reply::Mismatch
        })
    }
}

impl Answer for u64 {
    ghost use Rattle.std.specs.Prelude.{Some};
    ghost use Rattle.stamp_core.specs.declared.reply.Reply.TheVariants.{Count};

    ghost replied = { λ n. Some (Count n) };

    fn reply(&self) -> Option<Reply> {
        Some(Reply::Count(*self))
    }
}

/// Of a put.
impl Answer for () {
    ghost use Rattle.std.specs.Prelude.{Some};
    ghost use Rattle.stamp_core.specs.declared.reply.Reply.TheVariants.{Done};

    ghost replied = { λ _. Some Done };

    fn reply(&self) -> Option<Reply> {
        Some(Reply::Done)
    }
}

/// Of a get.
impl Answer for Row {
    ghost use Rattle.std.specs.Prelude.{Some};
    ghost use Rattle.stamp_core.specs.declared.reply.Reply.TheVariants.{Content};

    ghost replied = { λ row. Some (Content row) };

    fn reply(&self) -> Option<Reply> {
        Some(Reply::Content(words_of(*self)))
    }
}

/// Of a lock's call that is tried once: where it lost, it was not made.
impl<T: Answer> Answer for Result<T, Lost> {
    ghost use Rattle.observed_handles.specs.Recorder.{reply_if_made};

    ghost replied = { reply_if_made T.replied };

    fn reply(&self) -> Option<Reply> {
        self.as_ref().ok()?.reply()
    }
}

/// Of a get that is tried once.
impl<T: Answer> Answer for Result<T, GetFault> {
    ghost use Rattle.observed_handles.specs.Recorder.{reply_if_made};

    ghost replied = { reply_if_made T.replied };

    fn reply(&self) -> Option<Reply> {
        self.as_ref().ok()?.reply()
    }
}

/// Of a put or a put_if that is tried once.
impl<T: Answer> Answer for Result<T, PutFault> {
    ghost use Rattle.observed_handles.specs.Recorder.{reply_if_made};

    ghost replied = { reply_if_made T.replied };

    fn reply(&self) -> Option<Reply> {
        self.as_ref().ok()?.reply()
    }
}

/// Of a put or a put_if: where no version was left, it was not made.
impl<T: Answer> Answer for Result<T, Spent> {
    ghost use Rattle.observed_handles.specs.Recorder.{reply_if_made};

    ghost replied = { reply_if_made T.replied };

    fn reply(&self) -> Option<Reply> {
        self.as_ref().ok()?.reply()
    }
}

/// The calls that one thread made by its handles and guards, and the tickets that all threads share.
#[derive(Drop)]
pub struct Recorder<'a> {
    tickets: &'a AtomicU64,
    thread: u64,
    tape: Vec<Observation>,
}

impl<'a> Recorder<'a> {
    /// A recorder for one thread, which has a number of its own, below 64.
    pub fn new(alloc: Global, tickets: &'a AtomicU64, thread: u64) -> Recorder<'a>
        ensures tickets { result.tickets ≡ tickets.entry }
        ensures thread { result.thread ≡ thread }
        ensures tape { result.tape.items ≡ [] }
    {
        Recorder {
            tickets,
            thread,
            tape: Vec::new(alloc),
        }
    }

    fn ticket(&self) -> u64 {
        self.tickets.fetch_add(1, Ordering::SeqCst)
    }

    /// Takes the ticket before a call.
    pub fn begin(&self) -> u64 {
        self.ticket()
    }

    /// Takes the ticket after a call, and keeps the call; one that was not made is not kept. It gives the
    /// answer back. Without memory the call is not kept, and the answer is dropped.
    pub fn end<T: Answer>(&mut self, first: u64, call: Call, answer: T) -> Result<T, AllocError>
        ensures answer { IfOk result (λ a. a ≡ answer) }
        ensures kept { IfOk result (λ a.
            WasKept self.old.thread first call (T.replied answer) self.old.tape.items self.new.tape.items) }
        ensures refused { OnErr result (self.new.tape.items ≡ self.old.tape.items) }
        ensures thread { self.new.thread ≡ self.old.thread }
        ensures tickets { self.new.tickets ≡ self.old.tickets }
    {
        let last = self.ticket();
        if let Some(reply) = answer.reply() {
            self.keep(first, last, call, reply)?;
        }
        Ok(answer)
    }

    /// Keeps a call that was made between these two tickets, as `end` does: the two of a section, which is one
    /// call of a handle.
    pub fn keep(
        &mut self,
        first: u64,
        last: u64,
        call: Call,
        reply: Reply,
    ) -> Result<(), AllocError>
        ensures kept { IfOk result (λ _.
            self.new.tape.items ≡ self.old.tape.items ++ observed self.old.thread first last call reply ∷ []) }
        ensures refused { OnErr result (self.new.tape.items ≡ self.old.tape.items) }
        ensures thread { self.new.thread ≡ self.old.thread }
        ensures tickets { self.new.tickets ≡ self.old.tickets }
    {
        self.tape.push(Observation {
            thread: self.thread,
            call,
            first,
            returned: Some(Returned { last, reply }),
        })?;
        Ok(())
    }

    /// The calls, in their order.
    pub fn tape(self) -> Vec<Observation>
        ensures { result ≡ self.entry.tape }
    {
        self.tape
    }
}
