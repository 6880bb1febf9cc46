//! Lock and record, taken through the entries of a history.
ghost use Rattle.std.specs.Prelude.{◌≡◌, ◌≤◌, [], ◌++◌, ◌∷◌, List, ℕ, IsTrue, ◌==◌, if◌then◌else◌, Some, None};
ghost use Rattle.stamp_core.specs.Content.{content_next, RecordReplies};
ghost use Rattle.stamp_core.specs.Call.{is_lock_call, call_suits};
ghost use Rattle.stamp_core.specs.Word.{IsAdmitted};
ghost use Rattle.stamp_core.specs.declared.entry.Entry.{Entry};
ghost use Rattle.stamp_picture.specs.Moment.{state_after};
ghost use Rattle.stamp_picture.specs.inner.Moment.{mode_in};
ghost use Rattle.stamp_picture.specs.Due.{IsReplyDue};
ghost use Rattle.stamp_picture.specs.inner.Due.{ContentAnswers};
ghost use Rattle.stamp_picture.specs.inner.Track.{IsTrack, TracksOneMore, Shows, TellsDue};

use crate::state::{Mode, State};
use stamp_check::first_content;
use stamp_core::{Call, Entry, Limits, Reply, Word, Words, transition};

/// The lock and the record after some entries.
#[derive(Clone, Copy)]
pub(crate) struct Track {
    /// The lock's word.
    pub(crate) word: Word,
    /// What the record holds. Without a record it is one zero, which nothing reads.
    pub(crate) content: Words,
}

fn next_content(content: &Words, entry: &Entry) -> Words
    ensures { result ≡ content_next content.now entry.now.call entry.now.reply }
{
    match entry.call {
        Call::Put(words) => words,
        Call::PutIf(_, words) => match entry.reply {
            Reply::Yes => words,
            _ => *content,
        },
        _ => *content,
    }
}

/// What a record that holds this content answers.
fn content_answer(content: &Words, call: &Call) -> Option<Reply>
    ensures { ContentAnswers content.now call.now result }
{
    match *call {
        Call::Get => Some(Reply::Content(*content)),
        Call::Put(_) => Some(Reply::Done),
        Call::PutIf(expected, _) => Some(if content.is_same(&expected) {
            Reply::Yes
        } else {
            Reply::No
        }),
        _ => None,
    }
}

/// The content, if there is a record.
fn content_shown(content: &Words, width: u64) -> Option<Words>
    ensures { result ≡ (if width == 0 then None else Some content.now) }
{
    if width == 0 { None } else { Some(*content) }
}

fn mode_in(limits: Limits, word: Word) -> Mode
    ensures { mode_in limits word result }
{
    if word.is_writing() {
        return Mode::Writing;
    }
    match word.readers() {
        0 => Mode::Free,
        readers => Mode::Reading(readers),
    }
}

impl Track {
    /// Before the first entry.
    pub(crate) fn start(limits: Limits, width: u64) -> Track
        ensures { width ≤ 16 → IsTrack limits width [] result }
    {
        Track {
            word: Word::opening_in(limits.layout()),
            content: first_content(width),
        }
    }

    /// One entry more.
    pub(crate) fn advance(&mut self, limits: Limits, entry: &Entry)
        requires { IsAdmitted limits self.old.word }
        ensures { TracksOneMore limits entry.now self.old self.new }
    {
        self.content = next_content(&self.content, entry);
        if entry.call.is_lock_call() {
            if let Some((next, _)) = transition(limits, self.word, entry.call) {
                self.word = next;
            }
        }
    }

    /// What a picture shows of them.
    pub(crate) fn state(&self, limits: Limits, width: u64) -> State
        requires { IsAdmitted limits self.now.word }
        ensures { Shows limits width self.now result }
    {
        State {
            mode: mode_in(limits, self.word),
            version: self.word.writes(),
            content: content_shown(&self.content, width),
        }
    }

    /// What lock or record would answer; nothing where the call would wait.
    pub(crate) fn answer(&self, limits: Limits, call: &Call) -> Option<Reply>
        requires { IsAdmitted limits self.now.word }
        ensures { TellsDue limits self.now call.now result }
    {
        if !call.is_lock_call() {
            return content_answer(&self.content, call);
        }
        let (_, reply) = transition(limits, self.word, *call)?;
        Some(reply)
    }
}
