//! What a `ReadSource` does with its reader and a `WriteSink` with its writer: one call for each of theirs.

use stamp_cli::{Order, ReadSource, ServeFault, Sink, Source, Verdict, WriteSink, serve};
use stamp_history::ReadError;
use std::cell::Cell;
use std::io;
use std::io::{Read, Write};

/// Observing 256 and validating it, and what that is answered.
const INPUT: &[u8] =
    br#"{"calls":[["optimistic"],["validate",256]],"readers":127,"versions":1000}"#;

const LINE: &[u8] = b"{\"replies\":[256,\"yes\"],\"word\":256}\n";

/// What a read gives, or that it fails.
#[derive(Clone, Copy)]
enum Played<'a> {
    Gives(&'a [u8]),
    Fails,
}

/// Answers each read by the next of these, and counts the reads.
#[derive(Drop)]
struct Player<'a> {
    played: &'a [Played<'a>],
    calls: &'a Cell<usize>,
}

impl Read for Player<'_> {
    fn read(&mut self, buf: &mut [u8]) -> io::Result<usize> {
        let call = self.calls.get();
        self.calls.set(call.saturating_add(1));
        match self.played.get(call) {
            Some(Played::Gives(bytes)) => {
                let count = bytes.len().min(buf.len());
                buf[..count].copy_from_slice(&bytes[..count]);
                Ok(count)
            }
            Some(Played::Fails) => Err(io::Error::from(io::ErrorKind::Interrupted)),
            None => Ok(0),
        }
    }
}

#[test]
fn a_read_of_a_source_is_one_read_of_its_reader(rt: HostRuntime) {
    let played = [
        Played::Gives(b"abc"),
        Played::Fails,
        Played::Fails,
        Played::Gives(b"de"),
        Played::Gives(b""),
        Played::Gives(b""),
        Played::Gives(b"f"),
        Played::Fails,
        Played::Gives(b""),
        Played::Gives(b"gh"),
    ];
    let calls = Cell::new(0);
    let mut source = ReadSource::new(Player {
        played: &played,
        calls: &calls,
    });
    assert!(rt; calls.get() == 0);
    for (index, one) in played.iter().enumerate() {
        let mut buffer = [b' '; 8];
        let result = source.read(&mut buffer);
        assert!(rt; calls.get() == index + 1);
        match (one, result) {
            (Played::Gives(bytes), Ok(count)) => assert!(rt; buffer.get(..count) == Some(*bytes)),
            (Played::Fails, Err(error)) => {
                assert!(rt; error.kind() == io::ErrorKind::Interrupted);
            }
            _ => assert!(rt; false, "another result at read {index}"),
        }
    }
}

/// How many bytes a write takes, or that it fails.
#[derive(Clone, Copy)]
enum Room {
    Takes(usize),
    Full,
}

/// Answers each write by the next room, and counts the writes, the flushes and the bytes it was handed.
#[derive(Drop)]
struct Basin<'a> {
    rooms: &'a [Room],
    calls: &'a Cell<usize>,
    handed: &'a Cell<usize>,
}

impl Write for Basin<'_> {
    fn write(&mut self, buf: &[u8]) -> io::Result<usize> {
        let call = self.calls.get();
        self.calls.set(call.saturating_add(1));
        self.handed.set(buf.len());
        match self.rooms.get(call) {
            Some(Room::Takes(most)) => Ok(buf.len().min(*most)),
            _ => Err(io::Error::from(io::ErrorKind::Interrupted)),
        }
    }

    fn flush(&mut self) -> io::Result<()> {
        self.calls.set(self.calls.get().saturating_add(1));
        Ok(())
    }
}

#[test]
fn a_write_of_a_sink_is_one_write_of_its_writer(rt: HostRuntime) {
    let rooms = [
        Room::Takes(3),
        Room::Full,
        Room::Full,
        Room::Takes(8),
        Room::Takes(0),
        Room::Takes(0),
        Room::Takes(1),
        Room::Full,
        Room::Takes(0),
        Room::Takes(7),
    ];
    let calls = Cell::new(0);
    let handed = Cell::new(0);
    let mut sink = WriteSink::new(Basin {
        rooms: &rooms,
        calls: &calls,
        handed: &handed,
    });
    assert!(rt; calls.get() == 0);
    for (index, room) in rooms.iter().enumerate() {
        let result = sink.write(b"abcdefgh");
        assert!(rt; calls.get() == index + 1);
        assert!(rt; handed.get() == 8);
        match (room, result) {
            (Room::Takes(most), Ok(count)) => assert!(rt; count == *most),
            (Room::Full, Err(error)) => {
                assert!(rt; error.kind() == io::ErrorKind::Interrupted);
            }
            _ => assert!(rt; false, "another result at write {index}"),
        }
    }
    let basin = sink.into_inner();
    assert!(rt; basin.calls.get() == 10);
}

#[test]
fn a_source_is_served_again(rt: HostRuntime) {
    let played = [
        Played::Gives(INPUT),
        Played::Gives(b""),
        Played::Gives(b""),
        Played::Gives(INPUT),
        Played::Fails,
        Played::Gives(INPUT),
        Played::Gives(b""),
    ];
    let calls = Cell::new(0);
    let mut source = ReadSource::new(Player {
        played: &played,
        calls: &calls,
    });
    let not_json = Err(ServeFault::Refused(ReadError::NotJson));
    let table = [
        (Order::Replay, Ok(Verdict::Accepted), LINE, 2),
        // The reader has nothing more: an input of no byte.
        (Order::Replay, not_json, b"", 3),
        (Order::Replay, Err(ServeFault::ReadFault), b"", 5),
        (Order::Stamp(384), Ok(Verdict::Accepted), b"write 1\n", 5),
        (Order::Replay, Ok(Verdict::Accepted), LINE, 7),
    ];
    for (order, want, line, reads) in table {
        let taken: Vec<u8> = Vec::new(rt.alloc());
        let mut sink = WriteSink::new(taken);
        let result = serve(rt.alloc(), order, &mut source, &mut sink);
        assert!(rt; result == want, "{reads}");
        assert!(rt; sink.into_inner().as_slice() == line, "{reads}");
        assert!(rt; calls.get() == reads);
    }
}

#[test]
fn a_sink_is_served_again(rt: HostRuntime) {
    let rooms = [
        Room::Takes(20),
        Room::Takes(64),
        Room::Takes(30),
        Room::Full,
        Room::Takes(0),
        Room::Takes(64),
    ];
    let calls = Cell::new(0);
    let handed = Cell::new(0);
    let mut sink = WriteSink::new(Basin {
        rooms: &rooms,
        calls: &calls,
        handed: &handed,
    });
    let table = [
        (Ok(Verdict::Accepted), 2, 15),
        (Err(ServeFault::WriteFault), 4, 5),
        (Err(ServeFault::WriteFault), 5, 35),
        (Ok(Verdict::Accepted), 6, 35),
    ];
    for (want, writes, last) in table {
        let mut source = ReadSource::new(INPUT);
        let result = serve(rt.alloc(), Order::Replay, &mut source, &mut sink);
        assert!(rt; result == want, "{writes}");
        assert!(rt; calls.get() == writes);
        assert!(rt; handed.get() == last);
    }
}

/// Gives one byte a read, and fails after so many reads.
#[derive(Drop)]
struct NarrowReader<'a> {
    bytes: &'a [u8],
    reads: usize,
}

impl Read for NarrowReader<'_> {
    fn read(&mut self, buf: &mut [u8]) -> io::Result<usize> {
        if self.reads == 0 {
            return Err(io::Error::from(io::ErrorKind::Interrupted));
        }
        self.reads -= 1;
        if let (Some((first, others)), false) = (self.bytes.split_first(), buf.is_empty()) {
            buf[0] = *first;
            self.bytes = others;
            return Ok(1);
        }
        Ok(0)
    }
}

/// Takes one byte a write, and fails after so many.
#[derive(Drop)]
struct NarrowWriter {
    bytes: [u8; 64],
    len: usize,
    most: usize,
}

impl NarrowWriter {
    fn new(most: usize) -> NarrowWriter {
        NarrowWriter {
            bytes: [0; 64],
            len: 0,
            most,
        }
    }

    fn written(&self) -> &[u8] {
        &self.bytes[..self.len.min(64)]
    }
}

impl Write for NarrowWriter {
    fn write(&mut self, buf: &[u8]) -> io::Result<usize> {
        if self.len >= self.most.min(64) {
            return Err(io::Error::from(io::ErrorKind::Interrupted));
        }
        let Some(byte) = buf.first() else {
            return Ok(0);
        };
        self.bytes[self.len] = *byte;
        self.len += 1;
        Ok(1)
    }

    fn flush(&mut self) -> io::Result<()> {
        Ok(())
    }
}

#[test]
fn a_reader_that_fails_at_any_read_is_told_and_nothing_is_written(rt: HostRuntime) {
    for reads in 0..=INPUT.len() {
        let bytes = INPUT;
        let mut source = ReadSource::new(NarrowReader { bytes, reads });
        let mut sink = WriteSink::new(NarrowWriter::new(64));
        let result = serve(rt.alloc(), Order::Replay, &mut source, &mut sink);
        assert!(rt; result == Err(ServeFault::ReadFault), "{reads}");
        assert!(rt; sink.into_inner().written().is_empty(), "{reads}");
    }
}

#[test]
fn a_writer_that_fails_at_any_write_is_told_and_the_bytes_before_went_out(rt: HostRuntime) {
    for most in 0..=LINE.len() {
        let (bytes, reads) = (INPUT, usize::MAX);
        let mut source = ReadSource::new(NarrowReader { bytes, reads });
        let mut sink = WriteSink::new(NarrowWriter::new(most));
        let result = serve(rt.alloc(), Order::Replay, &mut source, &mut sink);
        let is_whole = most == LINE.len();
        assert!(rt; (result == Ok(Verdict::Accepted)) == is_whole, "{most}");
        assert!(rt;
            (result == Err(ServeFault::WriteFault)) != is_whole,
            "{most}"
        );
        assert!(rt; sink.into_inner().written() == &LINE[..most], "{most}");
    }
}
