//! Runs over streams in memory. The frames and what is wanted of them were written down by hand,
//! from the standards of their headers and of the pcap format.

use crate::runner::run;
use crate::status::{Status, code};
use st_base::{MemClock, MemSink, MemSource};
use st_shelf::MemShelf;
use std::alloc::Global;
use std::process::Abort;
use std::test::Fail;

// The file head that is written, in microseconds.
const HEAD: &[u8] = &[
    0xd4, 0xc3, 0xb2, 0xa1, 2, 0, 4, 0, 0, 0, 0, 0, 0, 0, 0, 0, 0, 0, 4, 0, 1, 0, 0, 0,
];

// A record's head: 1000000000 s and 123456 us, 46 bytes.
const DNS_HEAD: &[u8] = &[
    0x00, 0xca, 0x9a, 0x3b, 0x40, 0xe2, 0x01, 0x00, 46, 0, 0, 0, 46, 0, 0, 0,
];

// UDP from 10.0.0.1 port 12345 to 10.0.0.2 port 53.
const DNS: &[u8] = &[
    2, 0, 0, 0, 0, 2, 2, 0, 0, 0, 0, 1, 8, 0, 0x45, 0, 0, 0x20, 0, 0, 0, 0, 0x40, 0x11, 0, 0, 10,
    0, 0, 1, 10, 0, 0, 2, 0x30, 0x39, 0, 0x35, 0, 0x0c, 0, 0, 0x64, 0x6e, 0x73, 0x21,
];

// The head of a nanosecond file in the other byte order, and of a record in it.
const BIG_NANO: &[u8] = &[
    0xa1, 0xb2, 0x3c, 0x4d, 0, 2, 0, 4, 0, 0, 0, 0, 0, 0, 0, 0, 0, 0, 0xff, 0xff, 0, 0, 0, 1, 0x3b,
    0x9a, 0xca, 0x00, 0x07, 0x5b, 0xcd, 0x15, 0, 0, 0, 46, 0, 0, 0, 46,
];

// A later fragment of UDP, with its record's head; its first bytes would read as ports 53.
const LATER: &[u8] = &[
    0x00, 0xca, 0x9a, 0x3b, 0x40, 0xe2, 0x01, 0x00, 42, 0, 0, 0, 42, 0, 0, 0, 2, 0, 0, 0, 0, 2, 2,
    0, 0, 0, 0, 1, 8, 0, 0x45, 0, 0, 0x1c, 0, 0, 0, 0xb9, 0x40, 0x11, 0, 0, 10, 0, 0, 1, 10, 0, 0,
    2, 0, 0x35, 0, 0x35, 0, 8, 0, 0,
];

const USAGE: &[u8] = b"steno: usage: steno COMMAND [ARGUMENTS] [OPTIONS]\n";

#[derive(Drop)]
struct Outcome {
    status: Status,
    output: Vec<u8>,
    message: Vec<u8>,
    shelf: MemShelf,
}

// The numbers of the calls that fail, counted from 0: reads of the input, writes of the output, and
// writes of the message.
#[derive(Clone, Copy)]
struct Fails<'a> {
    reads: &'a [u32],
    writes: &'a [u32],
    messages: &'a [u32],
}

const NONE: Fails<'static> = Fails {
    reads: &[],
    writes: &[],
    messages: &[],
};

// A run of these arguments over this input.
fn tried(
    alloc: Global,
    words: Vec<String>,
    input: &[u8],
    fails: &Fails<'_>,
) -> Result<Outcome, Fail> {
    tried_over(alloc, words, MemShelf::empty(alloc), input, fails)
}

// A run of these arguments over this shelf and input.
fn tried_over(
    alloc: Global,
    words: Vec<String>,
    shelf: MemShelf,
    input: &[u8],
    fails: &Fails<'_>,
) -> Result<Outcome, Fail> {
    let mut source = MemSource::over(alloc, input, 4_096, fails.reads)?;
    let mut out = MemSink::new(alloc, fails.writes)?;
    let mut err = MemSink::new(alloc, fails.messages)?;
    let mut clock = MemClock::over(alloc, &[])?;
    let words = words.as_slice();
    let ended = run(
        alloc,
        words,
        shelf,
        &mut source,
        &mut out,
        &mut err,
        &mut clock,
    );
    Ok(Outcome {
        status: ended.status,
        output: out.bytes().to_vec(alloc)?,
        message: err.bytes().to_vec(alloc)?,
        shelf: ended.shelf,
    })
}

fn words_of(alloc: Global, words: &[&str]) -> Result<Vec<String>, Fail> {
    let mut owned = Vec::new(alloc);
    for word in words {
        owned.push(String::from_str(alloc, word)?)?;
    }
    Ok(owned)
}

fn once(alloc: Global, query: &str) -> Result<Vec<String>, Fail> {
    words_of(alloc, &["once", query])
}

fn joined(alloc: Global, pieces: &[&[u8]]) -> Result<Vec<u8>, Fail> {
    let mut bytes = Vec::new(alloc);
    for piece in pieces {
        bytes.extend_from_slice(piece)?;
    }
    Ok(bytes)
}

fn expect(
    rt: &(impl Abort + AllocGlobal),
    query: &str,
    input: &[u8],
    output: &[u8],
    message: &str,
    status: u8,
) -> Result<(), Fail> {
    let alloc = rt.alloc();
    let got = tried(alloc, once(alloc, query)?, input, &NONE)?;
    assert_eq!(rt; got.output.as_slice(), output, "the output of {query}");
    assert_eq!(rt;
        got.message.as_slice(),
        message.as_bytes(),
        "the message of {query}"
    );
    assert_eq!(rt; code(got.status), status, "the status of {query}");
    Ok(())
}

#[test]
fn a_query_is_answered_over_each_input(rt: HostRuntime) -> Result<(), Fail> {
    let alloc = rt.alloc();
    let whole = joined(alloc, &[HEAD, DNS_HEAD, DNS])?;
    let whole = whole.as_slice();
    let big = joined(alloc, &[BIG_NANO, DNS])?;
    let later = joined(alloc, &[HEAD, LATER])?;
    let cut = joined(alloc, &[HEAD, DNS_HEAD, DNS, &DNS_HEAD[..10]])?;
    expect(&rt, "port 80", HEAD, HEAD, "", 0)?;
    expect(&rt, "port 53", whole, whole, "", 0)?;
    expect(&rt, " port\t53\n", big.as_slice(), whole, "", 0)?;
    expect(&rt, "port 53", later.as_slice(), HEAD, "", 0)?;
    expect(
        &rt,
        "port 53",
        cut.as_slice(),
        whole,
        "steno: record 2: 10 of 16 bytes\n",
        3,
    )?;
    let zeros = "steno: input is not a pcap file, it begins with 0x00000000\n";
    expect(&rt, "port 53", &[0; 24], &[], zeros, 3)?;
    expect(&rt, "port x", whole, &[], "steno: query: number at 5\n", 4)
}

#[test]
fn other_words_are_a_usage(rt: HostRuntime) -> Result<(), Fail> {
    let alloc = rt.alloc();
    let mut alone = once(alloc, "port 53")?;
    alone.truncate(1);
    let mut more = once(alloc, "a")?;
    more.push(String::from_str(alloc, "b")?)?;
    for words in [Vec::new(alloc), alone, more] {
        let got = tried(alloc, words, HEAD, &NONE)?;
        assert_eq!(rt; got.status, Status::Usage);
        assert_eq!(rt; got.message.as_slice(), USAGE);
        assert!(rt; got.output.is_empty());
    }
    Ok(())
}

// The records of one time keep their order, and those of others are sorted.
#[test]
fn the_answer_is_by_time_and_then_by_place(rt: HostRuntime) -> Result<(), Fail> {
    let alloc = rt.alloc();
    let early = [5, 0, 0, 0, 9, 0, 0, 0, 46, 0, 0, 0, 46, 0, 0, 0];
    let late = [5, 0, 0, 0, 10, 0, 0, 0, 46, 0, 0, 0, 46, 0, 0, 0];
    let later = [5, 0, 0, 0, 10, 0, 0, 0, 46, 0, 0, 0, 99, 0, 0, 0];
    let input = joined(alloc, &[HEAD, &later, DNS, &late, DNS, &early, DNS])?;
    let wanted = joined(alloc, &[HEAD, &early, DNS, &later, DNS, &late, DNS])?;
    let got = tried(alloc, once(alloc, "port 53")?, input.as_slice(), &NONE)?;
    assert_eq!(rt; got.output.as_slice(), wanted.as_slice());
    assert_eq!(rt; got.status, Status::Done);
    Ok(())
}

// There are four reads: of the file head, of a record's head and its body, and of the end; and two
// writes: of the file head, and of the packet.
#[test]
fn a_fault_ends_the_run(rt: HostRuntime) -> Result<(), Fail> {
    let alloc = rt.alloc();
    let whole = joined(alloc, &[HEAD, DNS_HEAD, DNS])?;
    let whole = whole.as_slice();
    for call in 0..4u32 {
        let fails = Fails {
            reads: &[call],
            ..NONE
        };
        let got = tried(alloc, once(alloc, "port 53")?, whole, &fails)?;
        assert_eq!(rt; got.status, Status::ReadFault, "at read {call}");
        assert!(rt; got.output.is_empty(), "at read {call}");
        assert_eq!(rt;
            got.message.as_slice(),
            b"steno: reading the input failed\n".as_slice()
        );
    }
    for call in 0..2u32 {
        let fails = Fails {
            writes: &[call],
            ..NONE
        };
        let got = tried(alloc, once(alloc, "port 53")?, whole, &fails)?;
        assert_eq!(rt; got.status, Status::WriteFault, "at write {call}");
        assert!(rt; whole.starts_with(got.output.as_slice()), "at write {call}");
        assert_eq!(rt;
            got.message.as_slice(),
            b"steno: writing the output failed\n".as_slice()
        );
    }
    Ok(())
}

// A message goes out by one write: if that fails nothing of it is there, and a second one, which
// would fail, isn't made. The status stays in either case.
#[test]
fn a_message_is_one_write(rt: HostRuntime) -> Result<(), Fail> {
    let alloc = rt.alloc();
    for call in 0..2u32 {
        let fails = Fails {
            messages: &[call],
            ..NONE
        };
        let got = tried(alloc, Vec::new(alloc), HEAD, &fails)?;
        let wanted: &[u8] = if call == 0 { &[] } else { USAGE };
        assert_eq!(rt; got.status, Status::Usage, "at write {call}");
        assert_eq!(rt; got.message.as_slice(), wanted, "at write {call}");
    }
    Ok(())
}

// Packets that are in order already go out by one write, after the file head's: a third write,
// which would fail, isn't made.
#[test]
fn packets_in_order_are_one_write(rt: HostRuntime) -> Result<(), Fail> {
    let alloc = rt.alloc();
    let input = joined(alloc, &[HEAD, DNS_HEAD, DNS, DNS_HEAD, DNS, DNS_HEAD, DNS])?;
    let fails = Fails {
        writes: &[2],
        ..NONE
    };
    let got = tried(alloc, once(alloc, "port 53")?, input.as_slice(), &fails)?;
    assert_eq!(rt; got.status, Status::Done);
    assert_eq!(rt; got.output.as_slice(), input.as_slice());
    Ok(())
}

// The record of a packet that was captured in this second.
fn add_at(text: &mut Vec<u8>, sec: u32) -> Result<(), Fail> {
    text.extend_from_slice(&sec.to_le_bytes())?;
    text.extend_from_slice(&DNS_HEAD[4..])?;
    text.extend_from_slice(DNS)?;
    Ok(())
}

// 1,000 packets from the last to the first: the buffer grows many times, and all are sorted.
#[test]
fn many_packets_are_kept_and_sorted(rt: HostRuntime) -> Result<(), Fail> {
    let alloc = rt.alloc();
    let mut input = joined(alloc, &[HEAD])?;
    let mut wanted = joined(alloc, &[HEAD])?;
    for k in 0..1_000u32 {
        add_at(&mut input, 999 - k)?;
        add_at(&mut wanted, k)?;
    }
    let got = tried(alloc, once(alloc, "port 53")?, input.as_slice(), &NONE)?;
    assert_eq!(rt; got.status, Status::Done);
    assert_eq!(rt; got.output.as_slice(), wanted.as_slice());
    Ok(())
}

// A body of 262,144 bytes, the longest that is read.
#[test]
fn the_longest_body_is_answered_whole(rt: HostRuntime) -> Result<(), Fail> {
    let alloc = rt.alloc();
    let head = [0, 0, 0, 0, 0, 0, 0, 0, 0, 0, 4, 0, 0, 0, 4, 0];
    let rest = vec![in alloc; 0xa5; 262_144 - 46]?;
    let input = joined(alloc, &[HEAD, &head, DNS, rest.as_slice()])?;
    let got = tried(alloc, once(alloc, "port 53")?, input.as_slice(), &NONE)?;
    assert_eq!(rt; got.status, Status::Done);
    assert_eq!(rt; got.output.as_slice(), input.as_slice());
    Ok(())
}

#[test]
fn many_words_are_read(rt: HostRuntime) -> Result<(), Fail> {
    let alloc = rt.alloc();
    let mut words = once(alloc, "port 53")?;
    for _ in 0..1_000u32 {
        words.push(String::from_str(alloc, "port 53")?)?;
    }
    let got = tried(alloc, words, HEAD, &NONE)?;
    assert_eq!(rt; got.status, Status::Usage);
    Ok(())
}

// A spool without pairs has no lines, and the answer over it is empty.
#[test]
fn a_spool_without_pairs_is_empty(rt: HostRuntime) -> Result<(), Fail> {
    let alloc = rt.alloc();
    let cases: [(&[&str], &[u8]); 3] = [
        (&["list", "S"], &[]),
        (&["check", "S"], &[]),
        (&["query", "S", "port 80"], HEAD),
    ];
    for (words, output) in cases {
        let got = tried(alloc, words_of(alloc, words)?, &[], &NONE)?;
        assert_eq!(rt; got.status, Status::Done);
        assert_eq!(rt; got.output.as_slice(), output);
        assert!(rt; got.message.is_empty());
    }
    Ok(())
}

// A shelf of which every call fails ends each command that asks it, but not one whose query is
// refused, nor one without a plan.
#[test]
fn a_shelf_that_fails_ends_the_run(rt: HostRuntime) -> Result<(), Fail> {
    let alloc = rt.alloc();
    let failed = "steno: the spool failed\n";
    let refused = "steno: query: number at 5\n";
    let usage = "steno: usage: steno COMMAND [ARGUMENTS] [OPTIONS]\n";
    let cases: [(&[&str], u8, &str); 6] = [
        (&["list", "S"], 7, failed),
        (&["check", "S"], 7, failed),
        (&["drill", "S", "1"], 7, failed),
        (&["query", "S", "port 80"], 7, failed),
        (&["query", "S", "port x"], 4, refused),
        (&["list", "S", "--ns"], 2, usage),
    ];
    for (words, status, message) in cases {
        let shelf = MemShelf::with(alloc, &[], Some(0))?;
        let got = tried_over(alloc, words_of(alloc, words)?, shelf, &[], &NONE)?;
        assert_eq!(rt; code(got.status), status);
        assert!(rt; got.output.is_empty());
        assert_eq!(rt; got.message.as_slice(), message.as_bytes());
    }
    Ok(())
}

// A packet is loaded under the first stamp, and a query over the spool finds it again.
#[test]
fn what_is_loaded_is_found(rt: HostRuntime) -> Result<(), Fail> {
    let alloc = rt.alloc();
    let whole = joined(alloc, &[HEAD, DNS_HEAD, DNS])?;
    let load = words_of(alloc, &["load", "S"])?;
    let loaded = tried(alloc, load, whole.as_slice(), &NONE)?;
    assert_eq!(rt; loaded.status, Status::Done);
    assert_eq!(rt; loaded.output.as_slice(), b"1 1\n".as_slice());
    assert!(rt; loaded.message.is_empty());
    let query = words_of(alloc, &["query", "S", "port 53"])?;
    let got = tried_over(alloc, query, loaded.shelf, &[], &NONE)?;
    assert_eq!(rt; got.status, Status::Done);
    assert_eq!(rt; got.output.as_slice(), whole.as_slice());
    Ok(())
}
