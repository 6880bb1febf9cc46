//! Telling how far a stream is judged while it comes.

ghost use Rattle.std.specs.Prelude.{◌≡◌, ◌≤◌, ◌++◌, IfOk, OnErr, OnOk, List, Option, ℕ, length};
ghost use Rattle.stamp_cli.specs.Results.{Results};
ghost use Rattle.stamped_watch.specs.declared.orders.Watching.{Watching};
ghost use Rattle.stamped_watch.specs.Finding.{IsSoFar};
ghost use Rattle.stamped_watch.specs.StreamJudge.{IsFed, IsFedSome};
ghost use Rattle.stamped_watch.specs.Progress.{HasToldSoFar, HasToldThen, IsBeforeMark, IsNewTelling};
ghost use Rattle.stamped_watch.specs.inner.Progress.{IsBehindHeader, IsOneLineMore, IsSameButWhole, WritesLine};

use crate::finding::Finding;
use crate::so_far::progress_line;
use crate::stream_judge::StreamJudge;
use stamp_cli::{Sink, write_text};
use std::alloc::{AllocError, Global};

/// The bytes of a header.
const HEADER: u64 = 16;

/// The bytes from one line to the next: those of 2^24 events.
const BYTES_A_LINE: u64 = 268_435_456;

/// Tells how far a stream is judged while it is fed to its judge, if that is asked for: by a line at each mark, which
/// is behind the header and each 2^24 events. Once a write has failed it writes no more.
#[derive(Drop)]
pub(crate) struct Telling {
    alloc: Global,
    asked: bool,
    /// So many bytes come before the next mark.
    missing: u64,
    /// Whether each line was written whole.
    is_whole: bool,
}

impl Telling {
    /// That of a stream of which nothing has come.
    pub(crate) fn new(alloc: Global, asked: bool) -> Telling
        ensures { IsNewTelling asked result }
    {
        Telling {
            alloc,
            asked,
            missing: HEADER + BYTES_A_LINE,
            is_whole: true,
        }
    }

    /// Writes a line, if those before it were written whole.
    fn write<T: Sink>(&mut self, line: &str, told: &mut T)
        ensures once { WritesLine line.now (T.sent told.old) (T.sent told.new) (T.writes told.old)
            (T.writes told.new) self.old.is_whole self.new.is_whole }
        ensures same { IsSameButWhole self.old self.new }
    {
        if self.is_whole {
            self.is_whole = write_text(told, line.as_bytes()).is_ok();
        }
    }

    /// Tells how far the stream is judged, at a mark.
    fn tell<T: Sink>(&mut self, judge: &StreamJudge, told: &mut T) -> Result<(), AllocError>
        requires { IsBehindHeader judge.now }
        ensures told { OnOk result ((most ahead : ℕ) (fed : List ℕ) → IsFed most ahead fed judge.now
            → IsOneLineMore ahead fed (T.sent told.old) (T.sent told.new) (T.writes told.old) (T.writes told.new)
            self.old.is_whole self.new.is_whole) }
        ensures same { IsSameButWhole self.old self.new }
        ensures err { OnErr result (told.new ≡ told.old) }
    {
        let Some(so_far) = judge.so_far() else {
            unreachable!();
        };
        let line = progress_line(self.alloc, so_far)?;
        self.write(&line, told);
        Ok(())
    }

    /// The next bytes of the stream for its judge, and the line, if they come to a mark: what is found of the stream,
    /// whatever comes later, if anything is.
    pub(crate) fn feed<T: Sink>(
        &mut self,
        judge: &mut StreamJudge,
        bytes: &[u8],
        told: &mut T,
    ) -> Result<Option<Finding>, AllocError>
        requires before { IsBeforeMark judge.old self.old }
        requires few { length bytes.now ≤ 65536 }
        ensures found { IfOk result (λ found. (most ahead : ℕ) (fed : List ℕ) → IsFed most ahead fed judge.old
            → IsSoFar most ahead (fed ++ bytes.now) found) }
        ensures fed { OnOk result ((most ahead : ℕ) (fed : List ℕ) → IsFed most ahead fed judge.old
            → IsFed most ahead (fed ++ bytes.now) judge.new) }
        ensures known { OnOk result (IsFedSome judge.new) }
        ensures state { IfOk result (λ found. judge.new.found ≡ found) }
        ensures told { (asked : Watching) (fed : List ℕ) (sent : Option (List ℕ)) (writes : Results)
            → IsFed asked.most asked.ahead fed judge.old
            → HasToldSoFar asked fed self.old sent (T.sent told.old) writes (T.writes told.old)
            → HasToldThen asked (fed ++ bytes.now) self.new sent (T.sent told.new) writes (T.writes told.new) result }
    {
        if !self.asked {
            return judge.feed(bytes);
        }
        let Some((front, rest)) = bytes.split_at_checked(self.missing as usize) else {
            self.missing -= bytes.len() as u64;
            return judge.feed(bytes);
        };
        let found = judge.feed(front)?;
        if found.is_some() {
            return Ok(found);
        }
        self.tell(judge, told)?;
        self.missing = BYTES_A_LINE - rest.len() as u64;
        judge.feed(rest)
    }
}
