ghost use Rattle.std.specs.Prelude.{◌≡◌, ◌+◌, ◌≤◌, ◌<◌, List, [], ◌∷◌, ◌++◌, length, take, drop, Some, None, IfOk, OnOk};
ghost use Rattle.std.specs.Io.KnownBytes.{Appends};
ghost use Rattle.st_base.specs.Outlets.{SentAll};

use crate::file_reader::PlacedBytes;
use crate::memory::copy_at;
use crate::{
    Call, Clock, Failed, FileReader, MachineClock, MemClock, MemReader, MemSink, MemSource, Octets,
    Outlet, Plain, Reader, Record, Sink, SliceReader, Source, StreamSink, StreamSource, SureSink,
    SureSource, put, read_whole,
};
use std::fs::File;
use std::io::{self, ErrorKind, Read, Write};
use std::test::Fail;

#[test]
fn a_source_gives_its_bytes_in_pieces_and_fails_when_made_to(rt: HostRuntime) -> Result<(), Fail> {
    let mut source = MemSource::over(rt.alloc(), b"abcde", 2, &[1])?;
    let mut out = [0; 4];
    assert_eq!(rt; source.read(&mut out), Ok(2));
    assert_eq!(rt; source.read(&mut out), Err(Failed));
    assert_eq!(rt; source.read(&mut out), Ok(2));
    assert_eq!(rt; out.as_slice(), b"cd\0\0".as_slice());
    let mut sure = SureSource::over(rt.alloc(), b"abcde")?;
    assert_eq!(rt; sure.read(&mut out), Ok(4));
    assert_eq!(rt; sure.read(&mut out), Ok(1));
    assert_eq!(rt; sure.read(&mut out), Ok(0));
    let mut stream = StreamSource::over(b"xy".as_slice());
    assert_eq!(rt; stream.read(&mut out), Ok(2));
    assert_eq!(rt; out.as_slice(), b"xycd".as_slice());
    Ok(())
}

#[test]
fn put_writes_all_or_says_that_it_failed(rt: HostRuntime) -> Result<(), Fail> {
    let mut sink = MemSink::new(rt.alloc(), &[2])?;
    assert_eq!(rt; put(&mut sink, b"one "), Ok(()));
    assert_eq!(rt; sink.write(b"two"), Ok(3));
    assert_eq!(rt; put(&mut sink, b" three"), Err(Failed));
    assert_eq!(rt; put(&mut sink, b"."), Ok(()));
    assert_eq!(rt; sink.bytes(), b"one two.".as_slice());
    let mut sure = SureSink::new();
    assert_eq!(rt; put(&mut sure, b"four"), Ok(()));
    assert_eq!(rt;
        (sure.write(b""), sure.write(b"seven"), sure.count()),
        (Ok(0), Ok(5), 9)
    );
    let mut stream = StreamSink::over(Vec::<u8>::new(rt.alloc()));
    assert_eq!(rt; put(&mut stream, b"all of it"), Ok(()));
    assert_eq!(rt; stream.flush(), Ok(()));
    Ok(())
}

// Sends a head and a body, neither of them empty.
fn send<O: Outlet>(outlet: &mut O, head: &[u8], body: &[u8]) -> Result<(), Failed>
    requires head { 0 < length head.now }
    requires body { 0 < length body.now }
    ensures sends { OnOk result (SentAll O.after (O.state outlet.old) (O.state outlet.new)
        (head.now ∷ (body.now ∷ []))) }
    ensures rest { O.beside outlet.new ≡ O.beside outlet.old }
{
    match outlet.piece(head) {
        Ok(()) => outlet.piece(body),
        Err(error) => Err(error),
    }
}

// Sends them to a sink as they are: what the outlet did is known of the sink when it is let go.
fn send_plain<S: Sink>(sink: &mut S, head: &[u8], body: &[u8]) -> Result<(), Failed>
    requires head { 0 < length head.now }
    requires body { 0 < length body.now }
    ensures { OnOk result (SentAll (λ s more. s ++ more) (S.written sink.old) (S.written sink.new)
        (head.now ∷ (body.now ∷ []))) }
{
    let mut plain = Plain::over(sink);
    send(&mut plain, head, body)
}

#[test]
fn a_plain_outlet_puts_each_piece(rt: HostRuntime) -> Result<(), Fail> {
    let mut sink = MemSink::new(rt.alloc(), &[1])?;
    assert_eq!(rt; send_plain(&mut sink, b"head, ", b"lost"), Err(Failed));
    assert_eq!(rt; send_plain(&mut sink, b"head", b" and body"), Ok(()));
    assert_eq!(rt; sink.bytes(), b"head, head and body".as_slice());
    Ok(())
}

// What a stream of the machine answers to a call.
#[derive(Clone, Copy)]
enum Turn {
    BrokenOff,
    Takes(usize),
    Fails,
}

// A stream that answers these in turn, and then fails.
#[derive(Drop)]
struct Turns<'a> {
    turns: &'a [Turn],
}

impl Turns<'_> {
    // The next answer to a call with this much room.
    fn turn(&mut self, room: usize) -> io::Result<usize>
        ensures { IfOk result (λ n. n ≤ room) }
    {
        let [first, rest @ ..] = self.turns else {
            return Err(io::Error::from(ErrorKind::Other));
        };
        self.turns = rest;
        match *first {
            Turn::BrokenOff => Err(io::Error::from(ErrorKind::Interrupted)),
            Turn::Takes(count) => Ok(count.min(room)),
            Turn::Fails => Err(io::Error::from(ErrorKind::StorageFull)),
        }
    }
}

impl Read for Turns<'_> {
    fn read(&mut self, out: &mut [u8]) -> io::Result<usize> {
        self.turn(out.len())
    }
}

impl Write for Turns<'_> {
    fn write(&mut self, bytes: &[u8]) -> io::Result<usize> {
        self.turn(bytes.len())
    }

    fn flush(&mut self) -> io::Result<()> {
        match self.turn(0) {
            Ok(_) => Ok(()),
            Err(error) => Err(error),
        }
    }
}

#[test]
fn a_stream_tries_again_after_a_signal_and_counts_each_failure_once(
    rt: HostRuntime,
) -> Result<(), Fail> {
    let turns = [
        Turn::BrokenOff,
        Turn::BrokenOff,
        Turn::Takes(3),
        Turn::Fails,
        Turn::Takes(0),
        Turn::Takes(1),
    ];
    let mut out = [0; 4];
    let mut source = StreamSource::over(Turns { turns: &turns });
    assert_eq!(rt; source.read(&mut out), Ok(3));
    assert_eq!(rt; source.read(&mut out), Err(Failed));
    assert_eq!(rt; source.read(&mut out), Ok(0));
    // A write that takes nothing is a fault at once, so the next one takes a byte.
    let mut sink = StreamSink::over(Turns { turns: &turns });
    assert_eq!(rt; sink.write(b"four"), Ok(3));
    assert_eq!(rt; sink.write(b"four"), Err(Failed));
    assert_eq!(rt; sink.write(b"four"), Err(Failed));
    assert_eq!(rt; sink.write(b"four"), Ok(1));
    let mut flushed = StreamSink::over(Turns { turns: &turns });
    assert_eq!(rt; flushed.flush(), Ok(()));
    assert_eq!(rt; flushed.flush(), Err(Failed));
    assert_eq!(rt; flushed.flush(), Ok(()));
    // Each keeps the first failure.
    let kept = [source.failure(), sink.failure(), flushed.failure()];
    for (kept, call) in kept.into_iter().zip([Call::Read, Call::Write, Call::Flush]) {
        let kept = kept.map(|kept| (kept.call, kept.error.kind()));
        assert_eq!(rt; kept, Some((call, ErrorKind::StorageFull)));
    }
    Ok(())
}

// A file of these bytes.
#[derive(Drop)]
struct Held<'a> {
    bytes: &'a [u8],
}

impl PlacedBytes for Held<'_> {
    ghost content = { λ h. Some h.bytes.now };

    ghost fails = { λ h. None };

    fn fill_at(&self, place: u64, out: &mut [u8]) -> io::Result<()> {
        if copy_at(self.bytes, place, out) < out.len() {
            return Err(io::Error::from(ErrorKind::UnexpectedEof));
        }
        Ok(())
    }
}

#[test]
fn a_file_is_read_at_places(rt: HostRuntime) -> Result<(), Fail> {
    let mut file = MemReader::over(rt.alloc(), b"0123456789", &[2])?;
    let mut out = [0; 4];
    assert_eq!(rt; file.size(), 10);
    assert_eq!(rt; read_whole(&mut file, 3, &mut out), Ok(()));
    assert_eq!(rt; out.as_slice(), b"3456".as_slice());
    assert_eq!(rt; file.read_at(8, &mut out), Ok(2));
    assert_eq!(rt; out.as_slice(), b"8956".as_slice());
    assert_eq!(rt; file.read_at(8, &mut out), Err(Failed));
    let mut slice = SliceReader::over(b"abc");
    assert_eq!(rt; (slice.size(), slice.read_at(1, &mut out)), (3, Ok(2)));
    assert_eq!(rt; out.as_slice(), b"bc56".as_slice());
    // A file that is shorter than its reader was told fails past its end.
    let mut short = FileReader::over(
        Held {
            bytes: b"0123456789",
        },
        12,
    );
    assert_eq!(rt; short.read_at(6, &mut out), Ok(4));
    assert_eq!(rt; out.as_slice(), b"6789".as_slice());
    assert!(rt; short.failure().is_none());
    assert_eq!(rt; short.read_at(7, &mut out), Err(Failed));
    let kept = short.failure().map(|kept| (kept.call, kept.error.kind()));
    assert_eq!(rt; kept, Some((Call::Read, ErrorKind::UnexpectedEof)));
    // Each program of the machine begins with the same four bytes.
    let mut shell = FileReader::over(File::open(&rt, "/bin/sh")?, 4);
    assert_eq!(rt; shell.read_at(1, out.split_at_mut(3).0), Ok(3));
    assert_eq!(rt; out.as_slice(), b"ELF9".as_slice());
    assert_eq!(rt; shell.read_at(u64::MAX, &mut out), Ok(0));
    Ok(())
}

#[test]
fn clocks_and_records_tell_what_they_have(rt: HostRuntime) -> Result<(), Fail> {
    let mut clock = MemClock::over(rt.alloc(), &[5, 7])?;
    assert_eq!(rt; (clock.micros(), clock.micros(), clock.micros()), (5, 7, 7));
    assert_eq!(rt; MemClock::over(rt.alloc(), &[])?.micros(), 0);
    // From 2020-01-01T00:00:00Z to 2200-01-01T00:00:00Z
    let now = MachineClock::of(&rt).micros();
    assert!(rt; now > 1_577_836_800_000_000 && now < 7_258_118_400_000_000);
    let packet = Record {
        sec: 1,
        nsec: 2,
        orig: 3,
        body: Octets::copy_of(rt.alloc(), b"body")?,
    };
    assert_eq!(rt; packet.lend().body, b"body".as_slice());
    let mut bytes = Vec::new(rt.alloc());
    bytes.extend_from_slice(b"owned")?;
    assert_eq!(rt; Octets::of(bytes).bytes(), b"owned".as_slice());
    assert_eq!(rt; packet.body.into_bytes().as_slice(), b"body".as_slice());
    Ok(())
}
