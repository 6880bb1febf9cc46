//! The labels of a picture: states and verdicts as texts.
ghost use Rattle.std.specs.Prelude.{Some};
ghost use Rattle.stamp_picture.specs.Labels.{answered_text, mode_text};
ghost use Rattle.stamp_picture.specs.Labels.{short_mode_text, content_text, state_text};
ghost use Rattle.stamp_picture.specs.Labels.{brief_text, callee_text, reason_text, due_text, verdict_text};

use crate::bar::Bar;
use crate::picture::Fault;
use crate::state::{Mode, State};
use stamp_check::Why;
use stamp_core::{Call, Reply, Words};
use std::fmt;

/// A call and its reply.
#[derive(Drop)]
pub(crate) struct AnsweredLabel(pub(crate) Bar);

impl fmt::Display for AnsweredLabel {
    ghost output = { λ label. Some (answered_text label.0) };

    fn fmt<W: fmt::Write>(&self, f: &mut fmt::Formatter<W>) -> fmt::Result {
        write!(f, "{} = {}", self.0.call, self.0.reply)
    }
}

/// Who holds the lock.
#[derive(Drop)]
struct ModeLabel(Mode);

impl fmt::Display for ModeLabel {
    ghost output = { λ label. Some (mode_text label.0) };

    fn fmt<W: fmt::Write>(&self, f: &mut fmt::Formatter<W>) -> fmt::Result {
        match self.0 {
            Mode::Free => write!(f, "free"),
            Mode::Reading(1) => write!(f, "1 reader"),
            Mode::Reading(readers) => write!(f, "{readers} readers"),
            Mode::Writing => write!(f, "writing"),
        }
    }
}

/// The same in a narrow box.
#[derive(Drop)]
pub(crate) struct ShortModeLabel(pub(crate) Mode);

impl fmt::Display for ShortModeLabel {
    ghost output = { λ label. Some (short_mode_text label.0) };

    fn fmt<W: fmt::Write>(&self, f: &mut fmt::Formatter<W>) -> fmt::Result {
        match self.0 {
            Mode::Free => write!(f, "free"),
            Mode::Reading(readers) => write!(f, "{readers} rd"),
            Mode::Writing => write!(f, "write"),
        }
    }
}

/// What the record holds; nothing where there is no record.
#[derive(Drop)]
pub(crate) struct ContentLabel(pub(crate) Option<Words>);

impl fmt::Display for ContentLabel {
    ghost output = { λ label. Some (content_text label.0) };

    fn fmt<W: fmt::Write>(&self, f: &mut fmt::Formatter<W>) -> fmt::Result {
        match self.0 {
            None => Ok(()),
            Some(words) => write!(f, "{}", words),
        }
    }
}

/// What lock and record are.
#[derive(Drop)]
pub(crate) struct StateLabel(pub(crate) State);

impl fmt::Display for StateLabel {
    ghost output = { λ label. Some (state_text label.0) };

    fn fmt<W: fmt::Write>(&self, f: &mut fmt::Formatter<W>) -> fmt::Result {
        let (mode, version) = (ModeLabel(self.0.mode), self.0.version);
        match self.0.content {
            None => write!(f, "{mode}, version {version}"),
            Some(words) => write!(f, "{mode}, version {version}, record {}", words),
        }
    }
}

/// The same in few characters.
#[derive(Drop)]
pub(crate) struct BriefLabel(pub(crate) State);

impl fmt::Display for BriefLabel {
    ghost output = { λ label. Some (brief_text label.0) };

    fn fmt<W: fmt::Write>(&self, f: &mut fmt::Formatter<W>) -> fmt::Result {
        let (mode, version) = (ShortModeLabel(self.0.mode), self.0.version);
        match self.0.content {
            None => write!(f, "{mode} v {version}"),
            Some(words) => write!(f, "{mode} v {version} {}", words),
        }
    }
}

/// What was due instead of a wrong reply.
#[derive(Drop)]
struct DueLabel(Option<Reply>);

impl fmt::Display for DueLabel {
    ghost output = { λ label. Some (due_text label.0) };

    fn fmt<W: fmt::Write>(&self, f: &mut fmt::Formatter<W>) -> fmt::Result {
        match self.0 {
            None => write!(f, "it would wait here"),
            Some(reply) => write!(f, "due here: {}", reply),
        }
    }
}

/// Whose call it is.
#[derive(Drop)]
struct CalleeLabel(Call);

impl fmt::Display for CalleeLabel {
    ghost output = { λ label. Some (callee_text label.0) };

    fn fmt<W: fmt::Write>(&self, f: &mut fmt::Formatter<W>) -> fmt::Result {
        if self.0.is_lock_call() {
            write!(f, "the lock")
        } else {
            write!(f, "the record")
        }
    }
}

/// What an entry breaks, and of a wrong reply what was due.
#[derive(Drop)]
struct ReasonLabel(Fault);

impl fmt::Display for ReasonLabel {
    ghost output = { λ label. Some (reason_text label.0.call label.0.due label.0.bad.why) };

    fn fmt<W: fmt::Write>(&self, f: &mut fmt::Formatter<W>) -> fmt::Result {
        match self.0.bad.why {
            Why::Interval => write!(f, "its point is not between its first and last"),
            Why::Order => write!(f, "its point is not above the one before"),
            Why::Overlap => write!(f, "it began before its thread's last call ended"),
            Why::Reply => {
                let (callee, due) = (CalleeLabel(self.0.call), DueLabel(self.0.due));
                write!(f, "{callee} would have answered otherwise ({due})")
            }
        }
    }
}

/// The verdict; of a bad history its first fault.
#[derive(Drop)]
pub(crate) struct VerdictLabel(pub(crate) Result<u64, Fault>);

impl fmt::Display for VerdictLabel {
    ghost output = { λ label. Some (verdict_text label.0) };

    fn fmt<W: fmt::Write>(&self, f: &mut fmt::Formatter<W>) -> fmt::Result {
        match self.0 {
            Ok(count) => write!(f, "{count} entries, in order"),
            Err(fault) => {
                let (entry, reason) = (fault.bad.entry, ReasonLabel(fault));
                write!(f, "entry {entry}: {reason}")
            }
        }
    }
}
