//! The index of one packet, byte for byte, and blocks that break a check.

use super::*;
use st_base::Damage;
use std::alloc::Global;
use std::test::Fail;

/// The rows of the index of one UDP packet, as docs/FORMAT.md, "Table file", has them.
const ROWS: [(&[u8], &[u8]); 7] = [
    (
        b"\x00",
        b"\x00\x00\x00\x01\x00\x00\x00\x01\x3b\x9a\xca\x00\x07\x5b\xca\x00\x3b\x9a\xca\x00\x07\x5b\xca\x00",
    ),
    (b"\x01\x11", b"\x00\x00\x00\x30"),
    (b"\x02\x00\x35", b"\x00\x00\x00\x30"),
    (b"\x02\x30\x39", b"\x00\x00\x00\x30"),
    (b"\x04\x0a\x00\x00\x01", b"\x00\x00\x00\x30"),
    (b"\x04\x0a\x00\x00\x02", b"\x00\x00\x00\x30"),
    (b"\x07\x3b\x9a\xca\x00", b"\x00\x00\x00\x30"),
];

/// Their block, from the same page.
const BLOCK: &[u8] =
    b"\x00\x01\x18\x00\x00\x00\x00\x01\x00\x00\x00\x01\x3b\x9a\xca\x00\x07\x5b\xca\x00\x3b\x9a\xca\x00\x07\x5b\xca\x00\
\x00\x02\x04\x01\x11\x00\x00\x00\x30\x00\x03\x04\x02\x00\x35\x00\x00\x00\x30\x01\x02\x04\x30\x39\x00\x00\x00\x30\
\x00\x05\x04\x04\x0a\x00\x00\x01\x00\x00\x00\x30\x04\x01\x04\x02\x00\x00\x00\x30\
\x00\x05\x04\x07\x3b\x9a\xca\x00\x00\x00\x00\x30\x00\x00\x00\x00\x01\x00\x00\x00";

/// Reads a block to its end or to the check that fails.
fn damage_of(alloc: Global, bytes: &[u8]) -> Result<Option<Damage>, CursorErr> {
    if bytes.len() > 1000 {
        return Ok(None);
    }
    let mut cursor = match EntryCursor::new(bytes, 100) {
        Ok(cursor) => cursor,
        Err(damage) => return Ok(Some(damage)),
    };
    'entries: loop {
        match cursor.step(alloc) {
            Ok(Some(_)) => {}
            Ok(None) => return Ok(None),
            Err(CursorErr::Damaged(damage)) => return Ok(Some(damage)),
            Err(CursorErr::NoMemory) => return Err(CursorErr::NoMemory),
        }
    }
}

#[test]
fn a_block_is_written_as_the_format_has_it(rt: HostRuntime) -> Result<(), Fail> {
    let mut block = EntryBlock::new(rt.alloc(), 16)?;
    for (key, value) in ROWS {
        assert!(rt; block.takes(key) && block.size() < 4096);
        assert!(rt; key.len() < 100 && value.len() < 100);
        block.add(key, value)?;
    }
    assert_eq!(rt; block.size(), 96);
    assert_eq!(rt; block.finish()?, BLOCK);
    block.clear();
    assert_eq!(rt;
        block.finish()?,
        b"\x00\x00\x00\x00\x01\x00\x00\x00".as_slice()
    );
    Ok(())
}

#[test]
fn a_block_is_read_as_the_format_has_it(rt: HostRuntime) -> Result<(), Fail> {
    let mut cursor = EntryCursor::new(BLOCK, 0).ok().ok_or("damaged")?;
    for (key, value) in ROWS {
        let Ok(Some(row)) = cursor.next(rt.alloc()) else {
            return Err("no row")?;
        };
        assert_eq!(rt; row.0.bytes(), key);
        assert_eq!(rt; cursor.key(), key);
        assert_eq!(rt; row.1.bytes(), value);
    }
    assert_eq!(rt; cursor.offset(), 88);
    assert!(rt; matches!(cursor.next(rt.alloc()), Ok(None)));
    Ok(())
}

#[test]
fn a_key_is_found_in_a_block(rt: HostRuntime) -> Result<(), Fail> {
    for (key, value) in ROWS {
        assert_eq!(rt; find(BLOCK, key), Some(value));
    }
    // Before the first row, between two, after the last; prefixes of keys, and keys that go on.
    let others: [&[u8]; 10] = [
        b"",
        b"\x00\x00",
        b"\x01",
        b"\x01\x12",
        b"\x02\x00\x36",
        b"\x03",
        b"\x04\x0a\x00\x00",
        b"\x04\x0a\x00\x00\x01\x00",
        b"\x07\x3b\x9a\xca\x00\x00",
        b"\xff",
    ];
    for key in others {
        assert_eq!(rt; find(BLOCK, key), None);
    }
    Ok(())
}

#[test]
fn a_key_is_found_after_any_restart(rt: HostRuntime) -> Result<(), Fail> {
    let mut block = EntryBlock::new(rt.alloc(), 4)?;
    for number in 0..40u8 {
        let key = [number / 16, 7, number % 16 * 2];
        assert!(rt; block.takes(&key) && block.size() < 4096);
        block.add(&key, &[number])?;
    }
    let bytes = block.finish()?;
    for number in 0..40u8 {
        let (high, low) = (number / 16, number % 16 * 2);
        assert_eq!(rt; find(bytes, &[high, 7, low]), Some([number].as_slice()));
        assert_eq!(rt; find(bytes, &[high, 7, low + 1]), None);
        assert_eq!(rt; find(bytes, &[high, 7]), None);
        assert_eq!(rt; find(bytes, &[high, 8]), None);
    }
    Ok(())
}

/// The second key shares one byte by its entry, though it has two in common with the first.
#[test]
fn a_key_is_found_where_less_is_shared_than_could_be(rt: HostRuntime) -> Result<(), Fail> {
    let bytes = b"\x00\x03\x01abcX\x01\x02\x01bdY\x00\x00\x00\x00\x01\x00\x00\x00";
    assert_eq!(rt; find(bytes, b"abc"), Some(b"X".as_slice()));
    assert_eq!(rt; find(bytes, b"abd"), Some(b"Y".as_slice()));
    assert_eq!(rt; find(bytes, b"abcd"), None);
    assert_eq!(rt; find(b"", b"abc"), None);
    Ok(())
}

/// Each block breaks one check; the place is in a file where it is at 100.
#[test]
fn a_block_that_breaks_a_check_is_damaged(rt: HostRuntime) -> Result<(), Fail> {
    let cases: [(&[u8], u64, &str); 8] = [
        (b"\x01\x00\x00", 100, "no room for a number of restarts"),
        (b"\x00\x00\x00\x00", 100, "no restarts"),
        (
            b"\x01\x00\x00\x00\x01\x00\x00\x00",
            100,
            "begins with another restart than 0",
        ),
        (
            b"\x00\x00\x00\x00\x00\x00\x00\x00\x02\x00\x00\x00",
            100,
            "restarts that don't rise",
        ),
        (
            b"\x80\x80\x80\x80\x80\x00\x00\x00\x00\x00\x00\x00\x01\x00\x00\x00",
            100,
            "a length of six bytes",
        ),
        (
            b"\x00\x01\x00a\x00\x02\x00b\x00\x00\x00\x00\x01\x00\x00\x00",
            104,
            "an entry that doesn't fit",
        ),
        (
            b"\x00\x01\x00b\x00\x01\x00a\x00\x00\x00\x00\x01\x00\x00\x00",
            104,
            "a falling key",
        ),
        (
            b"\x00\x01\x00a\x01\x01\x00b\x00\x00\x00\x00\x04\x00\x00\x00\x02\x00\x00\x00",
            100,
            "a restart that shares",
        ),
    ];
    for (bytes, place, name) in cases {
        let Ok(Some(damage)) = damage_of(rt.alloc(), bytes) else {
            return Err(name)?;
        };
        assert_eq!(rt;
            (damage.place, damage.found, damage.want),
            (place, 0, 1),
            "{name}"
        );
    }
    Ok(())
}

#[test]
fn handles_and_footers_go_both_ways(rt: HostRuntime) -> Result<(), Fail> {
    assert_eq!(rt; put_varint(300).as_slice(), [0xac, 2].as_slice());
    assert_eq!(rt; get_varint(b"\xac\x02\x07"), Some((300, 2)));
    assert_eq!(rt; get_varint32(b"\xff\x7f\x80"), Some((16_383, 2)));
    assert_eq!(rt; get_varint32(b"\x80\x80\x80\x80\x80\x00"), None);
    assert_eq!(rt;
        get_varint(b"\xff\xff\xff\xff\xff\xff\xff\xff\xff\x02"),
        None
    );
    let meta = Handle {
        offset: 101,
        size: 8,
    };
    let index = Handle {
        offset: 114,
        size: 18,
    };
    assert_eq!(rt; put_handle(index).as_slice(), [0x72, 0x12].as_slice());
    let bytes = footer(meta, index);
    assert_eq!(rt; bytes.split_at(4).0, b"\x65\x08\x72\x12".as_slice());
    assert_eq!(rt;
        bytes.split_at(40).1,
        b"\x57\xfb\x80\x8b\x24\x75\x47\xdb".as_slice()
    );
    assert_eq!(rt; read_footer(&bytes).ok(), Some((meta, index)));
    let Err(damage) = read_footer(&[0; 48]) else {
        return Err("accepted")?;
    };
    assert_eq!(rt;
        (damage.place, damage.found, damage.want),
        (40, 0, 0xdb47_7524_8b80_fb57)
    );
    Ok(())
}
