//! What is found, as a line.

ghost use Rattle.std.specs.Prelude.{◌≡◌, Some, IfOk, IfErr};
ghost use Rattle.stamped_watch.specs.FindingText.{finding_text, finding_verdict, header_text, kind_text, place_text};

use crate::event_bytes::BadEvent;
use crate::finding::Finding;
use crate::header::BadHeader;
use crate::misplaced::Misplaced;
use stamp_cli::{Line, ServeFault, accepted, rejected};
use std::alloc::Global;
use std::fmt;

#[derive(Drop)]
struct PlaceText(Misplaced);

impl fmt::Display for PlaceText {
    ghost output = { λ text. Some (place_text text.0) };

    fn fmt<W: fmt::Write>(&self, f: &mut fmt::Formatter<W>) -> fmt::Result {
        match self.0 {
            Misplaced::Lane => write!(f, "lane"),
            Misplaced::Open => write!(f, "open"),
            Misplaced::Idle => write!(f, "idle"),
        }
    }
}

#[derive(Drop)]
struct KindText(BadEvent);

impl fmt::Display for KindText {
    ghost output = { λ text. Some (kind_text text.0) };

    fn fmt<W: fmt::Write>(&self, f: &mut fmt::Formatter<W>) -> fmt::Result {
        match self.0 {
            BadEvent::Kind => write!(f, "kind"),
            BadEvent::Zeros => write!(f, "zeros"),
            BadEvent::Number => write!(f, "number"),
        }
    }
}

#[derive(Drop)]
struct HeaderText(BadHeader);

impl fmt::Display for HeaderText {
    ghost output = { λ text. Some (header_text text.0) };

    fn fmt<W: fmt::Write>(&self, f: &mut fmt::Formatter<W>) -> fmt::Result {
        match self.0 {
            BadHeader::Letters => write!(f, "letters"),
            BadHeader::Form => write!(f, "form"),
            BadHeader::Layout => write!(f, "layout"),
            BadHeader::Limits => write!(f, "limits"),
            BadHeader::Width => write!(f, "width"),
        }
    }
}

#[derive(Drop)]
struct FindingText(Finding);

impl fmt::Display for FindingText {
    ghost output = { λ text. Some (finding_text text.0) };

    fn fmt<W: fmt::Write>(&self, f: &mut fmt::Formatter<W>) -> fmt::Result {
        match self.0 {
            Finding::Explained(calls) => write!(f, "ok {calls}"),
            Finding::Stuck(event) => write!(f, "stuck {event}"),
            Finding::StuckWithin(event, _) | Finding::Undecided(event, _) | Finding::Late(event) =>
                write!(f, "undecided {event}"),
            Finding::Misplaced(event, why) => write!(f, "bad {event} {}", PlaceText(why)),
            Finding::BadEvent(event, why) => write!(f, "bad {event} {}", KindText(why)),
            Finding::Cut(event) => write!(f, "bad {event} cut"),
            Finding::BadHeader(why) => write!(f, "bad header {}", HeaderText(why)),
            Finding::NoHeader => write!(f, "bad header cut"),
            Finding::Full => write!(f, "undecided {}", u64::MAX),
        }
    }
}

/// The line of what was found.
pub(crate) fn line_of_finding(alloc: Global, finding: &Finding) -> Result<Line, ServeFault>
    ensures text { IfOk result (λ line. line.text.items ≡ finding_text finding.now) }
    ensures verdict { IfOk result (λ line. line.verdict ≡ finding_verdict finding.now) }
    ensures memory { IfErr result (λ e. e ≡ ServeFault.Memory) }
{
    let text = FindingText(*finding).to_string(alloc)?.into_bytes();
    match finding {
        Finding::Explained(_) => Ok(accepted(text)),
        _ => Ok(rejected(text)),
    }
}
