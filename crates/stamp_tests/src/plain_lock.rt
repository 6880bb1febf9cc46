//! The lock and its record once more, as plain numbers of layout 1: what each call does when the
//! calls are made one after the other.
use stamp_core::{Call, Reply, Words};

/// How often write mode was acquired, who holds the lock, and what the record holds.
#[derive(Drop)]
pub(crate) struct PlainLock {
    most_readers: u64,
    most_writes: u64,
    writes: u64,
    readers: u64,
    is_writing: bool,
    content: Words,
}

fn yes_if(holds: bool) -> Reply {
    if holds { Reply::Yes } else { Reply::No }
}

fn done_if(holds: bool) -> Reply {
    if holds { Reply::Done } else { Reply::Mismatch }
}

impl PlainLock {
    pub(crate) fn new(most_readers: u64, most_writes: u64, content: Words) -> PlainLock {
        PlainLock {
            most_readers,
            most_writes,
            writes: 0,
            readers: 0,
            is_writing: false,
            content,
        }
    }

    pub(crate) fn word(&self) -> u64 {
        if self.is_writing {
            self.write_stamp()
        } else {
            self.observation().wrapping_add(self.readers)
        }
    }

    /// What a call is answered after all calls before it; `None` where it waits.
    pub(crate) fn answer(&mut self, call: &Call) -> Option<Reply> {
        match call {
            Call::WriteLock if self.writes < self.most_writes && self.is_held() => None,
            Call::ReadLock if !self.has_room() => None,
            Call::TryWrite | Call::WriteLock => Some(self.write()),
            Call::TryRead | Call::ReadLock => Some(self.read()),
            Call::Optimistic => Some(self.observe()),
            Call::Validate(stamp) => Some(yes_if(self.is_valid(*stamp))),
            Call::UnlockWrite(stamp) => Some(done_if(self.end_write(*stamp))),
            Call::UnlockRead(stamp) => Some(done_if(self.end_read(*stamp))),
            Call::Unlock(stamp) => Some(done_if(self.end(*stamp))),
            Call::ToWrite(stamp) => Some(self.to_write(*stamp)),
            Call::ToRead(stamp) => Some(self.to_read(*stamp)),
            Call::ToOptimistic(stamp) => Some(self.to_optimistic(*stamp)),
            Call::TryUnlockWrite => Some(yes_if(self.end_write(self.write_stamp()))),
            Call::TryUnlockRead => Some(yes_if(self.end_read(self.observation().wrapping_add(1)))),
            Call::IsWriteLocked => Some(yes_if(self.is_writing)),
            Call::IsReadLocked => Some(yes_if(self.readers > 0)),
            Call::ReadCount => Some(Reply::Count(self.readers)),
            Call::Get => Some(Reply::Content(self.content)),
            Call::Put(words) => Some(self.put(words)),
            Call::PutIf(expected, words) => Some(self.put_if(expected, words)),
        }
    }

    fn write_stamp(&self) -> u64 {
        self.writes.wrapping_mul(256).wrapping_add(128)
    }

    fn observation(&self) -> u64 {
        self.writes.wrapping_mul(256).wrapping_add(256)
    }

    fn is_held(&self) -> bool {
        self.is_writing || self.readers > 0
    }

    fn has_room(&self) -> bool {
        !self.is_writing && self.readers < self.most_readers
    }

    fn is_read_stamp(&self, stamp: u64) -> bool {
        self.observation() < stamp && stamp <= self.observation().wrapping_add(127)
    }

    fn is_valid(&self, stamp: u64) -> bool {
        if self.writes > 0 && stamp == self.write_stamp() {
            return true;
        }
        !self.is_writing && (stamp == self.observation() || self.is_read_stamp(stamp))
    }

    fn write(&mut self) -> Reply {
        if self.is_held() || self.writes >= self.most_writes {
            return Reply::Stamp(0);
        }
        self.writes = self.writes.wrapping_add(1);
        self.is_writing = true;
        Reply::Stamp(self.write_stamp())
    }

    fn read(&mut self) -> Reply {
        if !self.has_room() {
            return Reply::Stamp(0);
        }
        self.readers = self.readers.wrapping_add(1);
        Reply::Stamp(self.word())
    }

    fn observe(&self) -> Reply {
        Reply::Stamp(if self.is_writing {
            0
        } else {
            self.observation()
        })
    }

    /// Releases write mode if the stamp matches it, and says whether it did.
    fn end_write(&mut self, stamp: u64) -> bool {
        let is_ended = self.is_writing && stamp == self.write_stamp();
        if is_ended {
            self.is_writing = false;
        }
        is_ended
    }

    /// Releases one hold of read mode if the stamp matches it, and says whether it did.
    fn end_read(&mut self, stamp: u64) -> bool {
        let is_ended = self.readers > 0 && self.is_read_stamp(stamp);
        if is_ended {
            self.readers = self.readers.wrapping_sub(1);
        }
        is_ended
    }

    fn end(&mut self, stamp: u64) -> bool {
        self.end_write(stamp) || self.end_read(stamp)
    }

    fn to_write(&mut self, stamp: u64) -> Reply {
        if self.is_writing && stamp == self.write_stamp() {
            return Reply::Stamp(stamp);
        }
        let is_last = self.readers == 1 && self.is_read_stamp(stamp);
        if is_last && self.writes < self.most_writes {
            self.readers = 0;
            return self.write();
        }
        if stamp == self.observation() {
            self.write()
        } else {
            Reply::Stamp(0)
        }
    }

    fn to_read(&mut self, stamp: u64) -> Reply {
        if self.readers > 0 && self.is_read_stamp(stamp) {
            return Reply::Stamp(stamp);
        }
        if self.end_write(stamp) || stamp == self.observation() {
            self.read()
        } else {
            Reply::Stamp(0)
        }
    }

    fn to_optimistic(&mut self, stamp: u64) -> Reply {
        if self.end(stamp) || stamp == self.observation() {
            self.observe()
        } else {
            Reply::Stamp(0)
        }
    }

    fn put(&mut self, words: &Words) -> Reply {
        self.content = *words;
        Reply::Done
    }

    fn put_if(&mut self, expected: &Words, words: &Words) -> Reply {
        let holds = self.content.is_same(expected);
        if holds {
            self.content = *words;
        }
        yes_if(holds)
    }
}
