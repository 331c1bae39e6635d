//! The block of one packet, byte for byte, a block of several, and bytes that break a check.

ghost use Rattle.std.specs.Prelude.{◌≤◌, OnOk};

use super::*;
use st_base::{MemReader, RecordRef, SliceReader};
use std::alloc::Global;
use std::test::Fail;

/// A packet as a test has it: seconds, nanoseconds, original length, body.
type Packet = (u32, u32, u32, &'static [u8]);

/// A UDP packet of 46 bytes, as docs/FORMAT.md, "Block file", has it.
const UDP: &[u8] = b"\x02\x00\x00\x00\x00\x02\x02\x00\x00\x00\x00\x01\x08\x00\x45\x00\
\x00\x20\x00\x00\x00\x00\x40\x11\x00\x00\x0a\x00\x00\x01\x0a\x00\
\x00\x02\x30\x39\x00\x35\x00\x0c\x00\x00\x64\x6e\x73\x21";

/// The used bytes of its block of 4,096 bytes, from the same page.
const BLOCK: &[u8] = b"\x01\x00\x00\x00\x00\x10\x00\x00\x01\x00\x00\x00\x01\x00\x00\x00\
\x30\x00\x00\x00\x90\x00\x00\x00\x00\x00\x00\x00\x00\x00\x00\x00\
\x00\xca\x9a\x3b\x00\xca\x5b\x07\x00\xca\x9a\x3b\x00\xca\x5b\x07\
\x00\x00\x00\x00\x00\xca\x9a\x3b\x00\xca\x5b\x07\x2e\x00\x00\x00\
\x2e\x00\x00\x00\x00\x00\x00\x00\x30\x00\x30\x00\x00\x00\x00\x00\
\x00\x00\x00\x00\x00\x00\x00\x00\x00\x00\x00\x00\x00\x00\x00\x00\
\x02\x00\x00\x00\x00\x02\x02\x00\x00\x00\x00\x01\x08\x00\x45\x00\
\x00\x20\x00\x00\x00\x00\x40\x11\x00\x00\x0a\x00\x00\x01\x0a\x00\
\x00\x02\x30\x39\x00\x35\x00\x0c\x00\x00\x64\x6e\x73\x21\x00\x00";

/// Four packets: that one, one without a body, one of 17 bytes, one of 16.
const PACKETS: [Packet; 4] = [
    (1_000_000_000, 123_456_000, 46, UDP),
    (1_000_000_001, 0, 1500, b""),
    (
        999_999_999,
        999_999_999,
        3,
        b"\x01\x02\x03\x04\x05\x06\x07\x08\x09\x0a\x0b\x0c\x0d\x0e\x0f\x10\x11",
    ),
    (
        u32::MAX,
        7,
        u32::MAX,
        b"\xff\xff\xff\xff\xff\xff\xff\xff\xff\xff\xff\xff\xff\xff\xff\xff",
    ),
];

/// The used bytes of their block of 8,192 bytes with the number 4,094, which a program in Python
/// wrote from the tables of docs/FORMAT.md alone.
const BLOCK_OF_FOUR: &[u8] = b"\x01\x00\x00\x00\x00\x20\x00\x00\x01\x00\x00\x00\x04\x00\x00\x00\
\x30\x00\x00\x00\x50\x01\x00\x00\xfe\x0f\x00\x00\x00\x00\x00\x00\
\x00\xca\x9a\x3b\x00\xca\x5b\x07\xff\xff\xff\xff\x07\x00\x00\x00\
\x60\x00\x00\x00\x00\xca\x9a\x3b\x00\xca\x5b\x07\x2e\x00\x00\x00\
\x2e\x00\x00\x00\x00\x00\x00\x00\x30\x00\x30\x00\x00\x00\x00\x00\
\x00\x00\x00\x00\x00\x00\x00\x00\x00\x00\x00\x00\x00\x00\x00\x00\
\x02\x00\x00\x00\x00\x02\x02\x00\x00\x00\x00\x01\x08\x00\x45\x00\
\x00\x20\x00\x00\x00\x00\x40\x11\x00\x00\x0a\x00\x00\x01\x0a\x00\
\x00\x02\x30\x39\x00\x35\x00\x0c\x00\x00\x64\x6e\x73\x21\x00\x00\
\x30\x00\x00\x00\x01\xca\x9a\x3b\x00\x00\x00\x00\x00\x00\x00\x00\
\xdc\x05\x00\x00\x00\x00\x00\x00\x30\x00\x30\x00\x00\x00\x00\x00\
\x00\x00\x00\x00\x00\x00\x00\x00\x00\x00\x00\x00\x00\x00\x00\x00\
\x50\x00\x00\x00\xff\xc9\x9a\x3b\xff\xc9\x9a\x3b\x11\x00\x00\x00\
\x03\x00\x00\x00\x00\x00\x00\x00\x30\x00\x30\x00\x00\x00\x00\x00\
\x00\x00\x00\x00\x00\x00\x00\x00\x00\x00\x00\x00\x00\x00\x00\x00\
\x01\x02\x03\x04\x05\x06\x07\x08\x09\x0a\x0b\x0c\x0d\x0e\x0f\x10\
\x11\x00\x00\x00\x00\x00\x00\x00\x00\x00\x00\x00\x00\x00\x00\x00\
\x00\x00\x00\x00\xff\xff\xff\xff\x07\x00\x00\x00\x10\x00\x00\x00\
\xff\xff\xff\xff\x00\x00\x00\x00\x30\x00\x30\x00\x00\x00\x00\x00\
\x00\x00\x00\x00\x00\x00\x00\x00\x00\x00\x00\x00\x00\x00\x00\x00\
\xff\xff\xff\xff\xff\xff\xff\xff\xff\xff\xff\xff\xff\xff\xff\xff";

/// Where it put their heads.
const OFFSETS: [u32; 4] = [48, 144, 192, 272];

/// Adds a packet where it fits.
fn put(block: &mut BlockBuilder, packet: &Packet) -> Result<u32, Fail>
    ensures { OnOk result (1 ≤ block.new.count) }
{
    let (sec, nsec, orig, body) = *packet;
    if body.len() > 1000 || nsec > 999_999_999 || !block.fits(body.len() as u32) {
        return Err("no room")?;
    }
    Ok(block.add(RecordRef {
        sec,
        nsec,
        orig,
        body,
    }))
}

/// A file of these bytes and zeros after them, `size` bytes in all.
fn file_of(alloc: Global, bytes: &[u8], size: usize) -> Result<Vec<u8>, Fail> {
    let mut file = bytes.to_vec(alloc)?;
    file.resize(size, 0)?;
    Ok(file)
}

/// The file of one packet with one byte changed.
fn changed(alloc: Global, place: usize, byte: u8) -> Result<Vec<u8>, Fail> {
    let mut bytes = file_of(alloc, BLOCK, 4096)?;
    if place < bytes.len() {
        bytes[place] = byte;
    }
    Ok(bytes)
}

#[test]
fn blocks_are_written_as_the_format_has_them(rt: HostRuntime) -> Result<(), Fail> {
    let alloc = rt.alloc();
    let mut block = BlockBuilder::new(alloc, 4096)?;
    // 4,096 less two heads of 48 bytes
    assert!(rt; block.fits(4000));
    assert!(rt; !block.fits(4001));
    assert_eq!(rt; put(&mut block, &PACKETS[0])?, 48);
    assert_eq!(rt; block.finish(0), file_of(alloc, BLOCK, 4096)?.as_slice());
    let mut block = BlockBuilder::new(alloc, 8192)?;
    put(&mut block, &PACKETS[3])?;
    block.clear();
    assert_eq!(rt; put(&mut block, &PACKETS[0])?, OFFSETS[0]);
    assert_eq!(rt; put(&mut block, &PACKETS[1])?, OFFSETS[1]);
    assert_eq!(rt; put(&mut block, &PACKETS[2])?, OFFSETS[2]);
    assert_eq!(rt; put(&mut block, &PACKETS[3])?, OFFSETS[3]);
    let of_four = file_of(alloc, BLOCK_OF_FOUR, 8192)?;
    assert_eq!(rt; block.finish(4094), of_four.as_slice());
    assert_eq!(rt; position_in(8192, 4094, OFFSETS[1]), 33_538_192);
    Ok(())
}

#[test]
fn records_come_back_from_their_positions(rt: HostRuntime) -> Result<(), Fail> {
    let alloc = rt.alloc();
    let bytes = file_of(alloc, BLOCK_OF_FOUR, 8192)?;
    let mut file = MemReader::over(alloc, bytes.as_slice(), &[5, 7])?;
    let mut heads = [Head {
        sec: 0,
        nsec: 0,
        len: 0,
        orig: 0,
    }; 4];
    'packets: for i in 0..4 {
        heads[i] = record_head_at(&mut file, OFFSETS[i]).ok().ok_or("no head")?;
        let (sec, nsec, orig, body) = PACKETS[i];
        let len = body.len() as u32;
        assert_eq!(rt;
            heads[i],
            Head {
                sec,
                nsec,
                len,
                orig
            }
        );
    }
    // The next reads are 4, 5, 6 and 7, of which 5 and 7 fail; a body without bytes isn't read.
    'bodies: for (i, fails) in [(0, false), (1, false), (2, true), (3, false)] {
        match record_body_at(alloc, &mut file, OFFSETS[i], &heads[i]) {
            Ok(body) => assert_eq!(rt; body.bytes(), PACKETS[i].3),
            Err(error) => assert!(rt; fails && matches!(error, BlockErr::ReadFault)),
        }
    }
    assert_eq!(rt;
        record_head_at(&mut file, OFFSETS[0]),
        Err(HeadErr::ReadFault)
    );
    // One buffer takes all bodies, longer ones after shorter ones too.
    let mut file = SliceReader::over(bytes.as_slice());
    let mut body = Vec::new(alloc);
    'again: for i in [1, 3, 0, 2] {
        assert!(rt; record_body_into(&mut file, OFFSETS[i], &heads[i], &mut body).is_ok());
        assert_eq!(rt; body.as_slice(), PACKETS[i].3);
    }
    Ok(())
}

#[test]
fn bytes_that_break_the_layout_are_named(rt: HostRuntime) -> Result<(), Fail> {
    let alloc = rt.alloc();
    // a byte that is changed, a position, and the place, the number found and the one wanted there
    let cases = [
        (0, 1, 4049, (4049, 4096, 4097)),
        (0, 1, 4048, (4072, 0, 48)),
        (68, 1, 48, (68, 1, 0)),
        (72, 49, 48, (72, 49, 48)),
        (74, 0, 48, (74, 0, 48)),
        (59, 0x3c, 48, (56, 1_012_648_448, 999_999_999)),
        (62, 1, 48, (60, 65_582, 4000)),
    ];
    'cases: for (place, byte, position, wanted) in cases {
        let bytes = changed(alloc, place, byte)?;
        let mut file = MemReader::over(alloc, bytes.as_slice(), &[])?;
        let Err(HeadErr::Damaged(damage)) = record_head_at(&mut file, position) else {
            return Err("no damage")?;
        };
        assert_eq!(rt; (damage.place, damage.found, damage.want), wanted);
    }
    let mut file = MemReader::over(alloc, file_of(alloc, BLOCK, 4096)?.as_slice(), &[])?;
    let mut head = Head {
        sec: 0,
        nsec: 0,
        len: 4001,
        orig: 0,
    };
    let Err(BlockErr::Damaged(damage)) = record_body_at(alloc, &mut file, 48, &head) else {
        return Err("no damage")?;
    };
    assert_eq!(rt; (damage.place, damage.found, damage.want), (60, 4001, 4000));
    head.len = 4000;
    assert!(rt; record_body_at(alloc, &mut file, 48, &head).is_ok());
    Ok(())
}
