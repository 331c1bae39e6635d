use crate::{
    PcapErr, PcapReader, Unit, append_record, file_head, put_header, put_record, record_head,
};
use st_base::{MemSink, MemSource, RecordRef, Source};
use std::alloc::Global;
use std::test::Fail;

// The heads of the files that tcpdump writes, in micro- and nanoseconds, with snaplen 262144.
const MICRO: &str = "d4c3b2a1 02000400 00000000 00000000 00000400 01000000";

const NANO: &str = "4d3cb2a1 02000400 00000000 00000000 00000400 01000000";

// The second 1000000000 and 123456 microseconds, 3 bytes captured of 46.
const RECORD: &str = "00ca9a3b 40e20100 03000000 2e000000 070809";

// The bytes that a text of hexadecimal digits gives.
fn bytes_of(alloc: Global, parts: &[&str]) -> Result<Vec<u8>, Fail> {
    let mut bytes = Vec::new(alloc);
    let mut half: Option<u8> = None;
    for part in parts {
        for digit in part.chars() {
            if let Some(value) = digit.to_digit(16) {
                let value = u8::try_from(value).unwrap_or(0);
                match half.take() {
                    None => half = Some(value),
                    Some(high) => bytes.push(high.wrapping_mul(16) | value)?,
                }
            }
        }
    }
    Ok(bytes)
}

// How many records a reader gives of these bytes, and what it answers then, twice.
fn ending(alloc: Global, bytes: &[u8], piece: usize) -> Result<(u32, Option<PcapErr>), Fail> {
    let mut source = MemSource::over(alloc, bytes, piece.max(1), &[])?;
    let mut reader = PcapReader::new();
    for number in 0..9 {
        match reader.next(alloc, &mut source) {
            Ok(Some(_)) => (),
            Ok(None) => return Ok((number, None)),
            Err(error) => {
                let again = reader.next(alloc, &mut source).err();
                return Ok((number, again.filter(|other| *other == error)));
            }
        }
    }
    Err(Fail::from("too many records"))
}

// A nanosecond file of a big-endian machine, with a snaplen of its own.
#[test]
fn a_big_endian_file_is_read_and_written_little(rt: HostRuntime) -> Result<(), Fail> {
    let alloc = rt.alloc();
    let text = "a1b23c4d 00020004 00000000 00000000 0000ffff 00000001
        3b9aca00 075bcd15 00000003 0000002e 070809";
    let input = bytes_of(alloc, &[text])?;
    let mut source = MemSource::over(alloc, &input, 100, &[])?;
    let mut reader = PcapReader::new();
    let packet = reader.next(alloc, &mut source)?.ok_or("no record")?;
    assert_eq!(rt; packet.nsec, 123_456_789);
    assert_eq!(rt; packet.orig, 46);
    let room = Vec::new(alloc);
    assert!(rt; reader.next_into(&mut source, room)?.is_none());
    assert_eq!(rt; reader.taken(), 43);
    let mut sink = MemSink::new(alloc, &[])?;
    put_header(&mut sink, Unit::Micro)?;
    put_record(&mut sink, Unit::Micro, packet.lend())?;
    let wanted = bytes_of(alloc, &[MICRO, RECORD])?;
    assert_eq!(rt; sink.bytes(), wanted.as_slice());
    Ok(())
}

// The heads that the calls give are those that other programs write.
#[test]
fn heads_are_written_as_by_tcpdump(rt: HostRuntime) -> Result<(), Fail> {
    let alloc = rt.alloc();
    let micro = bytes_of(alloc, &[MICRO])?;
    let nano = bytes_of(alloc, &[NANO])?;
    assert_eq!(rt; file_head(Unit::Micro).as_slice(), micro.as_slice());
    assert_eq!(rt; file_head(Unit::Nano).as_slice(), nano.as_slice());
    let packet = RecordRef {
        sec: 1_000_000_000,
        nsec: 123_456_999,
        orig: 46,
        body: &[7, 8, 9],
    };
    let head = bytes_of(alloc, &["00ca9a3b e7cd5b07 03000000 2e000000"])?;
    assert_eq!(rt; record_head(Unit::Nano, packet).as_slice(), head.as_slice());
    assert!(rt; PcapErr::NotPcap { found: 0 }.is_of_file_head());
    Ok(())
}

// Two records of 19 bytes after a head of 24. The place of the cut tells by hand how many records
// stand before it and how many bytes of the next one.
#[test]
fn a_file_that_is_cut_ends_at_the_cut(rt: HostRuntime) -> Result<(), Fail> {
    let alloc = rt.alloc();
    let file = bytes_of(alloc, &[MICRO, RECORD, RECORD])?;
    for cut in 0..=62u32 {
        let number = cut.saturating_sub(24) / 19;
        let have = if cut < 24 { cut } else { (cut - 24) % 19 };
        let (number, want) = if cut < 24 {
            (0, 24)
        } else {
            (number + 1, if have < 16 { 16 } else { 19 })
        };
        let cause = PcapErr::Truncated {
            number: u64::from(number),
            have: u64::from(have),
            want,
        };
        let wanted = if cut >= 24 && have == 0 {
            None
        } else {
            Some(cause)
        };
        for piece in [1, 5, 100] {
            let front = file.get(..cut as usize).ok_or("a short file")?;
            let (records, end) = ending(alloc, front, piece)?;
            assert_eq!(rt; records, number.saturating_sub(1), "cut at {cut}");
            assert_eq!(rt; end, wanted, "cut at {cut}");
        }
    }
    Ok(())
}

// Each check in turn, the earlier one first where two would fail; the last but one is in range, and
// so is the file head without a record.
static REFUSALS: [(&str, Option<PcapErr>); 12] = [
    (
        "",
        Some(PcapErr::Truncated {
            number: 0,
            have: 0,
            want: 24,
        }),
    ),
    (
        "0a0d0d",
        Some(PcapErr::Truncated {
            number: 0,
            have: 3,
            want: 24,
        }),
    ),
    ("0a0d0d0a", Some(PcapErr::NotPcap { found: 0x0a0d_0d0a })),
    (
        "00000000 00000000 00000000 00000000 00000000 00000000",
        Some(PcapErr::NotPcap { found: 0 }),
    ),
    (
        "d4c3b2a1 03000400",
        Some(PcapErr::Truncated {
            number: 0,
            have: 8,
            want: 24,
        }),
    ),
    (
        "d4c3b2a1 02000300 00000000 00000000 00000400 02000000",
        Some(PcapErr::Version { major: 2, minor: 3 }),
    ),
    (
        "a1b2c3d4 00020004 00000000 00000000 00000400 12340071",
        Some(PcapErr::LinkType { found: 0x71 }),
    ),
    (
        "d4c3b2a1 02000400 01020304 05060708 00000000 0100ff00",
        None,
    ),
    (
        "d4c3b2a1 02000400 00000000 00000000 00000400 01000000
            00000000 40420f00 01000400 00000000",
        Some(PcapErr::BadFraction {
            number: 1,
            found: 1_000_000,
        }),
    ),
    (
        "4d3cb2a1 02000400 00000000 00000000 00000400 01000000
            00000000 40420f00 01000400 00000000",
        Some(PcapErr::TooLong {
            number: 1,
            len: 262_145,
        }),
    ),
    (
        "4d3cb2a1 02000400 00000000 00000000 00000400 01000000
            00000000 00ca9a3b 00000000 00000000",
        Some(PcapErr::BadFraction {
            number: 1,
            found: 1_000_000_000,
        }),
    ),
    (
        "4d3cb2a1 02000400 00000000 00000000 00000400 01000000
            00000000 ffc99a3b 00000400 00000000",
        Some(PcapErr::Truncated {
            number: 1,
            have: 16,
            want: 262_160,
        }),
    ),
];

#[test]
fn refusals_come_in_their_order(rt: HostRuntime) -> Result<(), Fail> {
    let alloc = rt.alloc();
    for (text, wanted) in &REFUSALS {
        let input = bytes_of(alloc, &[*text])?;
        let (records, end) = ending(alloc, &input, 100)?;
        assert_eq!(rt; records, 0, "{text}");
        assert_eq!(rt; end, *wanted, "{text}");
    }
    Ok(())
}

// The second read fails: between the file head and the first record.
#[test]
fn a_read_fault_is_answered_again(rt: HostRuntime) -> Result<(), Fail> {
    let alloc = rt.alloc();
    let input = bytes_of(alloc, &[MICRO, RECORD])?;
    let mut source = MemSource::over(alloc, &input, 100, &[1])?;
    let mut reader = PcapReader::new();
    for _ in 0..3 {
        let answer = reader.next(alloc, &mut source).err();
        assert_eq!(rt; answer, Some(PcapErr::ReadFault));
        assert_eq!(rt; reader.taken(), 24);
    }
    Ok(())
}

// What a reader took when it refused this input, and the byte of its source that comes next.
fn taken_at_refusal(alloc: Global, parts: &[&str]) -> Result<(u64, u8), Fail> {
    let input = bytes_of(alloc, parts)?;
    let mut source = MemSource::over(alloc, &input, 100, &[])?;
    let mut reader = PcapReader::new();
    for _ in 0..2 {
        if reader.next(alloc, &mut source).is_err() {
            let mut next = [0; 1];
            source.read(&mut next)?;
            return Ok((reader.taken(), next[0]));
        }
    }
    Err(Fail::from("no refusal"))
}

#[test]
fn a_refusal_takes_no_more_than_it_looked_at(rt: HostRuntime) -> Result<(), Fail> {
    let alloc = rt.alloc();
    let fraction = "00000000 40420f00 03000000 03000000 070809";
    let long = "00000000 00000000 01000400 01000400 070809";
    assert_eq!(rt; taken_at_refusal(alloc, &[MICRO, fraction])?, (40, 7));
    assert_eq!(rt; taken_at_refusal(alloc, &[MICRO, RECORD, long])?, (59, 7));
    let version = "d4c3b2a1 02000500 00000000 00000000 00000400 01000000 070809";
    assert_eq!(rt; taken_at_refusal(alloc, &[version])?, (24, 7));
    Ok(())
}

// A record with the longest body that is read: 262,144 bytes after 16.
fn longest(alloc: Global) -> Result<Vec<u8>, Fail> {
    let mut text = bytes_of(alloc, &["00ca9a3b 15cd5b07 00000400 00000400 0102"])?;
    text.resize(262_159, 3)?;
    text.push(4)?;
    Ok(text)
}

// Memory is ample, so no call may say that it is out.
#[test]
fn the_longest_body_is_read_and_written(rt: HostRuntime) -> Result<(), Fail> {
    let alloc = rt.alloc();
    let text = longest(alloc)?;
    let mut input = bytes_of(alloc, &[NANO])?;
    input.extend_from_slice(&text)?;
    let mut source = MemSource::over(alloc, &input, 65_536, &[])?;
    let mut reader = PcapReader::new();
    let packet = reader.next(alloc, &mut source)?.ok_or("no record")?;
    assert_eq!(rt; packet.body.bytes().len(), 262_144);
    assert!(rt; reader.next(alloc, &mut source)?.is_none());
    let mut written = Vec::new(alloc);
    append_record(&mut written, Unit::Nano, &packet.lend())?;
    assert!(rt; written.as_slice() == text.as_slice());
    let mut sink = MemSink::new(alloc, &[])?;
    put_record(&mut sink, Unit::Nano, packet.lend())?;
    assert!(rt; sink.bytes() == text.as_slice());
    Ok(())
}
