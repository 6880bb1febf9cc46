//! The contents of a record, each with its number.
ghost use Rattle.std.specs.Prelude.{ℕ, List, ◌≡◌, ◌≤◌, ◌==◌, ◌∷◌, [], IfOk, IfSome, OnErr, is_some, length, position, slice_get};
ghost use Rattle.stamp_core.specs.Content.{same_words, zeros};
ghost use Rattle.stamp_core.specs.declared.call.Call.{Call};
ghost use Rattle.stamp_core.specs.declared.reply.Reply.{Reply};
ghost use Rattle.stamp_runs.specs.Names.{EachOfCall, EachOfReply, call_by, reply_by};
ghost use Rattle.stamp_watch.specs.Names.{AreContents, IsByNumber, IsGrown, IsNamed, StaysWide, name_in, width_of, words_in};
ghost use Rattle.stamp_watch.specs.inner.Names.{IsSmallCall, IsSmallReply, IsToldAs};
ghost use Rattle.stamp_watch.specs.Names.{IsNumberOf};

use crate::stream_event::{StreamEvent, small_lane};
use indexmap::IndexSet;
use stamp_core::{Call, LockCall, LockReply, Reply, Words};
use stamp_runs::Event;
use stamp_sets::{SmallCall, SmallReply};
use std::alloc::{AllocError, Global};
use std::marker::Model;

/// The contents that were told of a record, in the order of their numbers. All are of one width; that at first has the
/// number 0.
#[derive(Drop)]
pub struct Names {
    alloc: Global,
    contents: IndexSet<Vec<u64>>,
    width: usize,
}

impl Model for Names {
    ghost use Rattle.std.specs.Prelude.{List, ℕ};

    ghost Value = { List (List ℕ) };

    ghost use Rattle.stamp_watch.specs.Names.{AreContents};
    ghost use Rattle.stamp_watch.specs.Names.{rows};

    ghost view = { λ n. rows n.contents.keys };

    ghost invariant = { λ n. AreContents n.width (rows n.contents.keys) };
}

impl Names {
    /// The content at first alone, of so many zeros.
    pub fn new(alloc: Global, width: usize) -> Result<Names, AllocError>
        requires some { 1 ≤ width }
        requires few { width ≤ 16 }
        ensures { IfOk result (λ names. names ≡ zeros width ∷ []) }
    {
        let first = Vec::from_slice(alloc, Words::zeros(width).as_slice())?;
        let mut contents = IndexSet::new(alloc);
        contents.insert(first)?;
        Ok(Names {
            alloc,
            contents,
            width,
        })
    }

    /// How many words each of them has.
    pub fn width(&self) -> usize
        ensures width { result ≡ width_of self.now }
        ensures known { AreContents result self.now }
    {
        self.width
    }

    /// The number of these words, if they are among them.
    fn find(&self, words: &[u64]) -> Option<u64>
        ensures { result ≡ position (same_words words.now) self.now }
    {
        match self.contents.get_index_of(words) {
            Some(number) => Some(number as u64),
            None => None,
        }
    }

    /// The number of this content, which is added if it is new; nothing for one of another width.
    pub fn number_of(&mut self, words: &Words) -> Result<Option<u64>, AllocError>
        ensures some { IfOk result (λ found. is_some found ≡ (length words.now == width_of self.old)) }
        ensures number { IfOk result (λ found. IfSome found (IsNumberOf self.new words.now)) }
        ensures grows { IsGrown self.old self.new }
        ensures wide { StaysWide self.old self.new }
        ensures width { width_of self.new ≡ width_of self.old }
        ensures err { OnErr result (self.new ≡ self.old) }
    {
        if words.len() != self.width {
            return Ok(None);
        }
        if let Some(number) = self.find(words.as_slice()) {
            return Ok(Some(number));
        }
        let content = Vec::from_slice(self.alloc, words.as_slice())?;
        let number = self.contents.len() as u64;
        self.contents.insert(content)?;
        Ok(Some(number))
    }

    /// The content of this number.
    pub fn words_at(&self, number: u64) -> Option<Words>
        ensures { result ≡ slice_get self.now number }
    {
        let content = self.contents.get_index(number as usize)?;
        Words::new(content.as_slice())
    }

    /// The call with its contents by number, which are added if they are new; nothing if one has another width.
    fn call(&mut self, call: &Call) -> Result<Option<SmallCall>, AllocError>
        ensures call { IfOk result (IsSmallCall self.old self.new call.now) }
        ensures grows { IsGrown self.old self.new }
        ensures wide { StaysWide self.old self.new }
    {
        if let Some(own) = LockCall::of(call) {
            return Ok(Some(SmallCall::OfLock(own)));
        }
        match call {
            Call::Put(words) => match self.number_of(words)? {
                Some(number) => Ok(Some(SmallCall::Put(number))),
                None => Ok(None),
            },
            Call::PutIf(expected, words) => {
                let Some(first) = self.number_of(expected)? else {
                    return Ok(None);
                };
                match self.number_of(words)? {
                    Some(number) => Ok(Some(SmallCall::PutIf(first, number))),
                    None => Ok(None),
                }
            }
            _ => Ok(Some(SmallCall::Get)),
        }
    }

    /// The reply with its content by number, which is added if it is new; nothing if it has another width.
    pub(crate) fn reply(&mut self, reply: &Reply) -> Result<Option<SmallReply>, AllocError>
        ensures reply { IfOk result (IsSmallReply self.old self.new reply.now) }
        ensures grows { IsGrown self.old self.new }
        ensures wide { StaysWide self.old self.new }
    {
        let own = match reply {
            Reply::Stamp(stamp) => LockReply::Stamp(*stamp),
            Reply::Yes => LockReply::Yes,
            Reply::No => LockReply::No,
            Reply::Done => LockReply::Done,
            Reply::Mismatch => LockReply::Mismatch,
            Reply::Count(count) => LockReply::Count(*count),
            Reply::Content(words) => {
                return match self.number_of(words)? {
                    Some(number) => Ok(Some(SmallReply::Content(number))),
                    None => Ok(None),
                };
            }
        };
        Ok(Some(SmallReply::OfLock(own)))
    }

    /// The event with its contents by number, which are added if they are new; nothing if its lane is none of 256, or a
    /// content has another width.
    pub fn event(&mut self, event: &Event) -> Result<Option<StreamEvent>, AllocError>
        ensures event { IfOk result (IsByNumber self.old self.new event.now) }
        ensures grows { IsGrown self.old self.new }
        ensures wide { StaysWide self.old self.new }
    {
        let small = match event {
            Event::Begins(lane, call) => match (small_lane(*lane), self.call(call)?) {
                (Some(lane), Some(call)) => Some(StreamEvent::begins(lane, call)),
                _ => None,
            },
            Event::Returns(lane, reply) => match (small_lane(*lane), self.reply(reply)?) {
                (Some(lane), Some(reply)) => Some(StreamEvent::returns(lane, reply)),
                _ => None,
            },
            Event::Withdraws(lane) => match small_lane(*lane) {
                Some(lane) => Some(StreamEvent::withdraws(lane)),
                None => None,
            },
        };
        Ok(small)
    }

    /// The content whose name these words are, if they are the number of one, and else they themselves.
    fn named(&self, name: &Words) -> Words
        ensures named { (words : List ℕ) → IsNamed self.now words → name_in self.now words ≡ name.now → result ≡ words }
        ensures words { result ≡ words_in self.now name.now }
    {
        if name.len() != 1 {
            return *name;
        }
        match self.words_at(name.as_slice()[0]) {
            Some(words) => words,
            None => *name,
        }
    }

    /// The reply in words that has this number, if one has.
    pub(crate) fn told_as(&self, reply: SmallReply) -> Option<Reply>
        ensures { IsToldAs self.now reply result }
    {
        match reply {
            SmallReply::OfLock(own) => Some(own.as_reply()),
            SmallReply::Content(number) => {
                let words = self.words_at(number)?;
                match self.find(words.as_slice()) {
                    Some(found) if found == number => Some(Reply::Content(words)),
                    _ => None,
                }
            }
        }
    }

    /// The call in words: each content that is a number of one becomes that one.
    pub fn call_in_words(&self, call: &Call) -> Call
        ensures told { (told : Call) → EachOfCall (IsNamed self.now) told → call_by (name_in self.now) told ≡ call.now → result ≡ told }
        ensures words { result ≡ call_by (words_in self.now) call.now }
    {
        match call {
            Call::Put(words) => Call::Put(self.named(words)),
            Call::PutIf(expected, words) => Call::PutIf(self.named(expected), self.named(words)),
            other => *other,
        }
    }

    /// The reply in words: a content that is a number of one becomes that one.
    pub fn reply_in_words(&self, reply: &Reply) -> Reply
        ensures told { (told : Reply) → EachOfReply (IsNamed self.now) told → reply_by (name_in self.now) told ≡ reply.now → result ≡ told }
        ensures words { result ≡ reply_by (words_in self.now) reply.now }
    {
        match reply {
            Reply::Content(words) => Reply::Content(self.named(words)),
            other => *other,
        }
    }
}
