//! Each check of a pair fails once. The pair of docs/FORMAT.md is damaged by hand; sums of damaged
//! blocks were taken bit by bit by a script, places and numbers are worked out by hand.

use super::*;
use st_base::{MemReader, MemSink, SliceReader};
use st_table::TableBuilder;
use std::alloc::AllocError;
use std::test::Fail;

/// The block file of docs/FORMAT.md without the zeros after its packet.
const FILLED: &[u8] = b"\x01\x00\x00\x00\x00\x10\x00\x00\x01\x00\x00\x00\x01\x00\x00\x00\
\x30\x00\x00\x00\x90\x00\x00\x00\x00\x00\x00\x00\x00\x00\x00\x00\x00\xca\x9a\x3b\x00\xca\x5b\x07\
\x00\xca\x9a\x3b\x00\xca\x5b\x07\x00\x00\x00\x00\x00\xca\x9a\x3b\x00\xca\x5b\x07\x2e\x00\x00\x00\
\x2e\x00\x00\x00\x00\x00\x00\x00\x30\x00\x30\x00\x00\x00\x00\x00\x00\x00\x00\x00\x00\x00\x00\x00\
\x00\x00\x00\x00\x00\x00\x00\x00\x02\x00\x00\x00\x00\x02\x02\x00\x00\x00\x00\x01\x08\x00\x45\x00\
\x00\x20\x00\x00\x00\x00\x40\x11\x00\x00\x0a\x00\x00\x01\x0a\x00\x00\x02\x30\x39\x00\x35\x00\x0c\
\x00\x00\x64\x6e\x73\x21";

/// The value of a row whose one position is that of the packet.
const FIRST: &[u8] = b"\x00\x00\x00\x30";

/// The rows of its index.
const ROWS: [(&[u8], &[u8]); 7] = [
    (
        b"\x00",
        b"\x00\x00\x00\x01\x00\x00\x00\x01\x3b\x9a\xca\x00\x07\x5b\xca\x00\
\x3b\x9a\xca\x00\x07\x5b\xca\x00",
    ),
    (b"\x01\x11", FIRST),
    (b"\x02\x00\x35", FIRST),
    (b"\x02\x30\x39", FIRST),
    (b"\x04\x0a\x00\x00\x01", FIRST),
    (b"\x04\x0a\x00\x00\x02", FIRST),
    (b"\x07\x3b\x9a\xca\x00", FIRST),
];

/// The index of docs/FORMAT.md.
const INDEX: &[u8] =
    b"\x00\x01\x18\x00\x00\x00\x00\x01\x00\x00\x00\x01\x3b\x9a\xca\x00\x07\x5b\xca\x00\
\x3b\x9a\xca\x00\x07\x5b\xca\x00\x00\x02\x04\x01\x11\x00\x00\x00\x30\x00\x03\x04\x02\x00\x35\x00\
\x00\x00\x30\x01\x02\x04\x30\x39\x00\x00\x00\x30\x00\x05\x04\x04\x0a\x00\x00\x01\x00\x00\x00\x30\
\x04\x01\x04\x02\x00\x00\x00\x30\x00\x05\x04\x07\x3b\x9a\xca\x00\x00\x00\x00\x30\x00\x00\x00\x00\
\x01\x00\x00\x00\x00\xfe\xe7\xa8\xd6\x00\x00\x00\x00\x01\x00\x00\x00\x00\xc0\xf2\xa1\xb0\x00\x05\
\x02\x07\x3b\x9a\xca\x00\x00\x60\x00\x00\x00\x00\x01\x00\x00\x00\x00\x76\xe4\xa2\xef\x65\x08\x72\
\x12\x00\x00\x00\x00\x00\x00\x00\x00\x00\x00\x00\x00\x00\x00\x00\x00\x00\x00\x00\x00\x00\x00\x00\
\x00\x00\x00\x00\x00\x00\x00\x00\x00\x00\x00\x00\x00\x57\xfb\x80\x8b\x24\x75\x47\xdb";

/// The same rows with a second restart, which names the fourth entry: that one shares a byte.
const UNSHARED: &[u8] = b"\x00\x01\x18\x00\x00\x00\x00\x01\x00\x00\x00\x01\x3b\x9a\xca\x00\x07\x5b\
\xca\x00\x3b\x9a\xca\x00\x07\x5b\xca\x00\x00\x02\x04\x01\x11\x00\x00\x00\x30\x00\x03\x04\x02\x00\
\x35\x00\x00\x00\x30\x01\x02\x04\x30\x39\x00\x00\x00\x30\x00\x05\x04\x04\x0a\x00\x00\x01\x00\x00\
\x00\x30\x04\x01\x04\x02\x00\x00\x00\x30\x00\x05\x04\x07\x3b\x9a\xca\x00\x00\x00\x00\x30\x00\x00\
\x00\x00\x2f\x00\x00\x00\x02\x00\x00\x00\x00\x07\x39\xd6\xf5\x00\x00\x00\x00\x01\x00\x00\x00\x00\
\xc0\xf2\xa1\xb0\x00\x05\x02\x07\x3b\x9a\xca\x00\x00\x64\x00\x00\x00\x00\x01\x00\x00\x00\x00\x1c\
\xaa\x94\x48\x69\x08\x76\x12\x00\x00\x00\x00\x00\x00\x00\x00\x00\x00\x00\x00\x00\x00\x00\x00\x00\
\x00\x00\x00\x00\x00\x00\x00\x00\x00\x00\x00\x00\x00\x00\x00\x00\x00\x00\x00\x57\xfb\x80\x8b\x24\
\x75\x47\xdb";

/// `file` with the bytes from `at` on replaced by `part`.
fn patched(alloc: Global, file: &[u8], at: usize, part: &[u8]) -> Result<Vec<u8>, AllocError> {
    let (before, rest) = file.split_at(at.min(file.len()));
    let back = rest.split_at(part.len().min(rest.len())).1;
    let mut bytes = before.to_vec(alloc)?;
    bytes.extend_from_slice(part)?;
    bytes.extend_from_slice(back)?;
    Ok(bytes)
}

/// The block file.
fn block_file(alloc: Global) -> Result<Vec<u8>, AllocError> {
    let mut bytes = FILLED.to_vec(alloc)?;
    bytes.resize(4096, 0)?;
    Ok(bytes)
}

/// The table of the rows, those from one number to another replaced by others.
fn table_of(
    alloc: Global,
    from: usize,
    to: usize,
    put: &[(&[u8], &[u8])],
) -> Result<MemSink, Fail> {
    let mut sink = MemSink::new(alloc, &[])?;
    let mut builder = TableBuilder::new(alloc)?;
    add_rows(&mut builder, &mut sink, ROWS.split_at(from.min(7)).0)?;
    add_rows(&mut builder, &mut sink, put)?;
    add_rows(&mut builder, &mut sink, ROWS.split_at(to.min(7)).1)?;
    builder.finish(&mut sink)?;
    Ok(sink)
}

fn add_rows(
    builder: &mut TableBuilder,
    sink: &mut MemSink,
    rows: &[(&[u8], &[u8])],
) -> Result<(), Fail> {
    for (key, value) in rows {
        if !builder.takes(key, value) {
            return Err("no next row")?;
        }
        builder.add(key, value, sink)?;
    }
    Ok(())
}

/// The verdict on these bytes.
fn judged(alloc: Global, block: &[u8], index: &[u8]) -> Result<Verdict, Fail> {
    let mut block = SliceReader::over(block);
    let mut index = SliceReader::over(index);
    match check(alloc, &mut block, &mut index) {
        Ok(verdict) => Ok(verdict),
        Err(_) => Err("no verdict")?,
    }
}

/// Checks a pair of which this check is the first that fails.
fn fails(
    alloc: Global,
    block: &[u8],
    index: &[u8],
    wanted: Part,
    place: u64,
    found: u64,
    want: u64,
) -> Result<(), Fail> {
    let Verdict::Differs { part, damage } = judged(alloc, block, index)? else {
        return Err("whole")?;
    };
    if part != wanted || damage.place != place || damage.found != found || damage.want != want {
        return Err(format!(in alloc;
            "{part:?} {damage:?} for {wanted:?} {place} {found} {want}"
        )?)?;
    }
    Ok(())
}

/// The block file with a part replaced fails this check.
fn block_fails(
    alloc: Global,
    at: usize,
    part: &[u8],
    place: u64,
    found: u64,
    want: u64,
) -> Result<(), Fail> {
    let block = patched(alloc, block_file(alloc)?.as_slice(), at, part)?;
    fails(
        alloc,
        block.as_slice(),
        INDEX,
        Part::Block,
        place,
        found,
        want,
    )
}

/// The index with a part replaced, and its sum with it, fails this check.
fn index_fails(
    alloc: Global,
    at: usize,
    part: &[u8],
    sum_at: usize,
    sum: &[u8],
    place: u64,
    found: u64,
    want: u64,
) -> Result<(), Fail> {
    let index = patched(alloc, INDEX, at, part)?;
    let index = patched(alloc, index.as_slice(), sum_at, sum)?;
    fails(
        alloc,
        block_file(alloc)?.as_slice(),
        index.as_slice(),
        Part::Index,
        place,
        found,
        want,
    )
}

#[test]
fn the_pair_of_the_format_is_whole(rt: HostRuntime) -> Result<(), Fail> {
    let verdict = judged(rt.alloc(), block_file(rt.alloc())?.as_slice(), INDEX)?;
    assert_eq!(rt; verdict, Verdict::Whole { packets: 1 });
    Ok(())
}

#[test]
fn a_damaged_block_file_is_named(rt: HostRuntime) -> Result<(), Fail> {
    let alloc = rt.alloc();
    fails(
        alloc,
        b"\x01\x00\x00\x00\x00\x10\x00",
        INDEX,
        Part::Block,
        0,
        7,
        4096,
    )?;
    fails(alloc, FILLED, INDEX, Part::Block, 0, 142, 4096)?;
    block_fails(alloc, 0, b"\x02", 0, 2, 1)?;
    block_fails(alloc, 4, b"\x88\x13", 4, 5000, 4096)?;
    block_fails(alloc, 4096, b"\x00", 0, 4097, 4096)?;
    block_fails(alloc, 12, b"\x00", 12, 0, 1)?;
    // 82 records of no bytes fit after the packet, each of 48 bytes
    block_fails(alloc, 12, b"\x64", 12, 100, 83)?;
    block_fails(alloc, 60, b"\xa1\x0f", 60, 4001, 4000)?;
    block_fails(alloc, 8, b"\x03", 8, 3, 1)?;
    block_fails(alloc, 16, b"\x40", 16, 64, 48)?;
    block_fails(alloc, 20, b"\x91", 20, 145, 144)?;
    block_fails(alloc, 24, b"\x01", 24, 1, 0)?;
    block_fails(alloc, 32, b"\x01", 32, 1_000_000_001, 1_000_000_000)?;
    block_fails(alloc, 48, b"\x60", 48, 96, 0)?;
    block_fails(alloc, 68, b"\x01", 68, 1, 0)?;
    block_fails(alloc, 74, b"\x31", 74, 49, 48)?;
    block_fails(alloc, 95, b"\x07", 95, 7, 0)?;
    block_fails(alloc, 143, b"\x07", 143, 7, 0)?;
    block_fails(alloc, 4095, b"\x07", 4095, 7, 0)
}

/// The first record of the second block has room after the 144 bytes of the first one, and so has
/// each of fewer than 4096 - 47 - 144 bytes.
#[test]
fn a_block_that_isnt_filled_is_named(rt: HostRuntime) -> Result<(), Fail> {
    let alloc = rt.alloc();
    let first = block_file(alloc)?;
    let second = patched(alloc, first.as_slice(), 24, b"\x01")?;
    let both = patched(alloc, first.as_slice(), 4096, second.as_slice())?;
    fails(alloc, both.as_slice(), INDEX, Part::Block, 4156, 46, 3905)
}

#[test]
fn a_damaged_table_is_named(rt: HostRuntime) -> Result<(), Fail> {
    let alloc = rt.alloc();
    let block = block_file(alloc)?;
    let (short, _) = INDEX.split_at(47);
    fails(alloc, block.as_slice(), short, Part::Index, 0, 47, 48)?;
    let (found, magic) = (0xda47_7524_8b80_fb57, 0xdb47_7524_8b80_fb57);
    index_fails(alloc, 184, b"\xda", 185, b"", 177, found, magic)?;
    let endless = b"\xff\xff\xff\xff\xff\xff\xff\xff\xff\xff";
    index_fails(alloc, 137, endless, 185, b"", 137, 0, 1)?;
    index_fails(alloc, 140, b"\x13", 185, b"", 114, 138, 137)?;
    index_fails(alloc, 132, b"\x02", 185, b"", 132, 2, 0)?;
    index_fails(alloc, 132, b"\x01", 185, b"", 132, 1, 0)?;
    index_fails(alloc, 133, b"\x77", 185, b"", 133, 0xefa2_e477, 0xefa2_e476)?;
    // of the index block: its restarts, its entry's lengths, and a value that is no handle
    index_fails(alloc, 128, b"\x02", 133, b"\xd1\x54\x7a\xcf", 114, 0, 1)?;
    index_fails(alloc, 114, b"\x01", 133, b"\xc0\x76\x53\x77", 114, 0, 1)?;
    index_fails(alloc, 122, b"\x80", 133, b"\xfc\x21\xcd\xe2", 114, 0, 1)?;
    // of the data block: its end, its type byte, its sum, its restarts
    index_fails(alloc, 122, b"\x60", 133, b"\x59\x53\x93\x60", 96, 197, 137)?;
    index_fails(alloc, 96, b"\x01", 185, b"", 96, 1, 0)?;
    index_fails(alloc, 97, b"\xff", 185, b"", 97, 0xd6a8_e7ff, 0xd6a8_e7fe)?;
    index_fails(alloc, 88, b"\x01", 97, b"\x33\x00\x37\x3b", 0, 0, 1)?;
    // an entry's lengths, a key that falls, a key above the index key, a restart that shares a byte
    index_fails(alloc, 28, b"\x05", 97, b"\xa5\xde\x50\x68", 28, 0, 1)?;
    index_fails(alloc, 40, b"\x01", 97, b"\xa9\xd6\xf9\xdd", 37, 0, 1)?;
    index_fails(alloc, 117, b"\x06", 133, b"\x5e\x08\x65\xf9", 76, 0, 1)?;
    fails(alloc, block.as_slice(), UNSHARED, Part::Index, 0, 0, 1)
}

/// The table of other rows in place of those from one number to another fails this check.
fn rows_fail(
    alloc: Global,
    from: usize,
    to: usize,
    put: &[(&[u8], &[u8])],
    part: Part,
    place: u64,
    found: u64,
    want: u64,
) -> Result<(), Fail> {
    let sink = table_of(alloc, from, to, put)?;
    fails(
        alloc,
        block_file(alloc)?.as_slice(),
        sink.bytes(),
        part,
        place,
        found,
        want,
    )
}

#[test]
fn what_a_damaged_row_says_is_named(rt: HostRuntime) -> Result<(), Fail> {
    let alloc = rt.alloc();
    rows_fail(alloc, 0, 1, &[], Part::Index, 0, 0, 1)?;
    rows_fail(
        alloc,
        0,
        1,
        &[(b"\x00", b"\x00\x00\x00\x01")],
        Part::Index,
        0,
        4,
        24,
    )?;
    index_fails(alloc, 7, b"\x02", 97, b"\x56\x99\x3d\x80", 0, 2, 1)?;
    rows_fail(
        alloc,
        1,
        2,
        &[(b"\x01\x11", b"\x00\x00\x00\x30\x00")],
        Part::Index,
        0,
        1,
        0,
    )?;
    let twice = b"\x00\x00\x00\x30\x00\x00\x00\x30";
    rows_fail(alloc, 1, 2, &[(b"\x01\x11", twice)], Part::Index, 0, 0, 1)?;
    // the summary row before the positions, and these before the rows
    rows_fail(
        alloc,
        0,
        2,
        &[(b"\x00", b""), (b"\x01\x11", twice)],
        Part::Index,
        0,
        0,
        24,
    )?;
    rows_fail(
        alloc,
        1,
        3,
        &[(b"\x02\x00\x35", twice)],
        Part::Index,
        0,
        0,
        1,
    )
}

#[test]
fn a_row_that_differs_is_named(rt: HostRuntime) -> Result<(), Fail> {
    let alloc = rt.alloc();
    // a row too many, in the midst, at the end, and before the summary row
    rows_fail(
        alloc,
        3,
        3,
        &[(b"\x02\x00\x50", FIRST)],
        Part::Rows,
        3,
        0,
        48,
    )?;
    rows_fail(alloc, 7, 7, &[(b"\x08", FIRST)], Part::Rows, 7, 0, 256)?;
    rows_fail(alloc, 0, 0, &[(b"", FIRST)], Part::Rows, 0, 0, 1)?;
    // a row too few, in the midst and at the end
    rows_fail(alloc, 3, 4, &[], Part::Rows, 3, 5, 3)?;
    rows_fail(alloc, 6, 7, &[], Part::Rows, 6, 256, 0)?;
    // a position missing, another one, and one too many
    rows_fail(alloc, 1, 2, &[(b"\x01\x11", b"")], Part::Rows, 1, 256, 0)?;
    rows_fail(
        alloc,
        1,
        2,
        &[(b"\x01\x11", b"\x00\x00\x00\x31")],
        Part::Rows,
        1,
        49,
        48,
    )?;
    let more = b"\x00\x00\x00\x30\x00\x00\x00\x60";
    rows_fail(alloc, 1, 2, &[(b"\x01\x11", more)], Part::Rows, 1, 0, 256)?;
    // a summary of two packets, and one with a wrong least time
    let two = b"\x00\x00\x00\x01\x00\x00\x00\x02\x3b\x9a\xca\x00\x07\x5b\xca\x00\
\x3b\x9a\xca\x00\x07\x5b\xca\x00";
    rows_fail(alloc, 0, 1, &[(b"\x00", two)], Part::Rows, 0, 2, 1)?;
    let early = b"\x00\x00\x00\x01\x00\x00\x00\x01\x3b\x9a\xc9\x00\x07\x5b\xca\x00\
\x3b\x9a\xca\x00\x07\x5b\xca\x00";
    rows_fail(alloc, 0, 1, &[(b"\x00", early)], Part::Rows, 0, 201, 202)
}

/// A damaged block file comes before a damaged index.
#[test]
fn the_block_file_is_checked_first(rt: HostRuntime) -> Result<(), Fail> {
    let block = patched(rt.alloc(), block_file(rt.alloc())?.as_slice(), 0, b"\x02")?;
    fails(rt.alloc(), block.as_slice(), b"", Part::Block, 0, 2, 1)
}

/// The verdict where these reads fail: the block file is read twice, the index three times.
fn failing(alloc: Global, block: &[u32], index: &[u32]) -> Result<Result<Verdict, CheckErr>, Fail> {
    let mut block = MemReader::over(alloc, block_file(alloc)?.as_slice(), block)?;
    let mut index = MemReader::over(alloc, INDEX, index)?;
    Ok(check(alloc, &mut block, &mut index))
}

#[test]
fn a_read_that_fails_is_no_damage(rt: HostRuntime) -> Result<(), Fail> {
    let alloc = rt.alloc();
    assert_eq!(rt; failing(alloc, &[0], &[])?, Err(CheckErr::ReadFault));
    assert_eq!(rt; failing(alloc, &[1], &[])?, Err(CheckErr::ReadFault));
    assert_eq!(rt; failing(alloc, &[], &[0])?, Err(CheckErr::ReadFault));
    assert_eq!(rt; failing(alloc, &[], &[1])?, Err(CheckErr::ReadFault));
    assert_eq!(rt; failing(alloc, &[], &[2])?, Err(CheckErr::ReadFault));
    assert_eq!(rt;
        failing(alloc, &[2], &[3])?,
        Ok(Verdict::Whole { packets: 1 })
    );
    Ok(())
}
