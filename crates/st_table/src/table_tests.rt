//! Tables that another program wrote, read whole and with one byte changed.
//!
//! That program is a writer of LevelDB's format in Python, with a bitwise CRC-32C.

use super::*;
use crate::sample_tables::{LAST, ROWS, SHORT, TABLE, patched};
use st_base::{MemReader, NoMemory, Octets, Reader};
use std::alloc::Global;
use std::test::Fail;

/// A key, or its end, in a table's bytes.
type Bytes = &'static [u8];

/// What entering a table and then a lookup of `key` answer.
fn looked_up(
    alloc: Global,
    bytes: &[u8],
    fails: &[u32],
    key: &[u8],
) -> Result<Option<Octets>, TableErr> {
    let mut file = match MemReader::over(alloc, bytes, fails) {
        Ok(file) => file,
        Err(NoMemory) => return Err(TableErr::NoMemory),
    };
    let mut table = Table::over(alloc, &mut file);
    match table.enter(alloc) {
        Ok(()) => table.get(alloc, key),
        Err(error) => Err(error),
    }
}

/// The next rows of a table that was entered, until the end.
fn steps<R: Reader>(
    alloc: Global,
    table: &mut Table<'_, R>,
    cursor: &mut Cursor,
) -> Result<Vec<Row>, TableErr> {
    let mut rows = Vec::new(alloc);
    for _ in 0..100 {
        match table.step(alloc, cursor) {
            Ok(Some(row)) => match rows.push(row) {
                Ok(()) => {}
                Err(_) => return Err(TableErr::NoMemory),
            },
            Ok(None) => break,
            Err(error) => return Err(error),
        }
    }
    Ok(rows)
}

/// The rows of a table from `low` to `high`, or to its last key.
fn rows_between(
    alloc: Global,
    bytes: &[u8],
    low: &[u8],
    high: Option<&[u8]>,
) -> Result<Vec<Row>, TableErr> {
    let mut file = match MemReader::over(alloc, bytes, &[]) {
        Ok(file) => file,
        Err(NoMemory) => return Err(TableErr::NoMemory),
    };
    let mut table = Table::over(alloc, &mut file);
    match table.enter(alloc) {
        Ok(()) => {}
        Err(error) => return Err(error),
    }
    match table.range(alloc, low, high.unwrap_or(table.last_key())) {
        Ok(mut cursor) => steps(alloc, &mut table, &mut cursor),
        Err(NoMemory) => Err(TableErr::NoMemory),
    }
}

/// Whether these are rows of the index, from its row of number `first` on.
fn are_rows(rows: &[Row], first: usize) -> bool {
    for (i, row) in rows.iter().enumerate() {
        let Some((key, value)) = ROWS.get(first.saturating_add(i)) else {
            return false;
        };
        if row.key.bytes() != *key || row.value.bytes() != *value {
            return false;
        }
    }
    true
}

/// Looks keys up in a table of the index's rows, and reads them in order.
fn is_read(alloc: Global, bytes: &[u8]) -> Result<(), Fail> {
    let found = looked_up(alloc, bytes, &[], b"\x02\x00\x35")?.ok_or("no row")?;
    if found.bytes() != b"\x00\x00\x00\x30".as_slice() {
        return Err("another value")?;
    }
    if looked_up(alloc, bytes, &[], b"\x02\x00\x36")?.is_some() {
        return Err("a row between two keys")?;
    }
    if looked_up(alloc, bytes, &[], b"\x09")?.is_some() {
        return Err("a row after the last key")?;
    }
    let all = rows_between(alloc, bytes, b"", None)?;
    if all.len() != 7 || !are_rows(all.as_slice(), 0) {
        return Err("other rows")?;
    }
    let high = b"\x04\x0a\x00\x00\x01".as_slice();
    let some = rows_between(alloc, bytes, b"\x02\x30\x39", Some(high))?;
    if some.len() != 2 || !are_rows(some.as_slice(), 3) {
        return Err("other rows between two keys")?;
    }
    Ok(())
}

#[test]
fn tables_of_another_writer_are_read(rt: HostRuntime) -> Result<(), Fail> {
    is_read(rt.alloc(), TABLE)?;
    is_read(rt.alloc(), SHORT)
}

/// Changes a file at one place, or at two where the sum is wanted right, and expects that its last
/// key is refused by a check with this place, number found and number wanted.
fn breaks(
    alloc: Global,
    file: &[u8],
    change: (usize, Bytes),
    sum: (usize, Bytes),
    expected: (u64, u64, u64),
) -> Result<(), Fail> {
    let bytes = patched(alloc, file, change.0, change.1)?;
    let bytes = patched(alloc, bytes.as_slice(), sum.0, sum.1)?;
    match looked_up(alloc, bytes.as_slice(), &[], LAST) {
        Err(TableErr::Damaged(damage)) => {
            if (damage.place, damage.found, damage.want) != expected {
                return Err("another damage")?;
            }
            Ok(())
        }
        _ => Err("read")?,
    }
}

/// No second change.
const NONE: (usize, Bytes) = (0, b"");

#[test]
fn a_broken_footer_is_damaged(rt: HostRuntime) -> Result<(), Fail> {
    // another magic number
    breaks(
        rt.alloc(),
        TABLE,
        (184, b"\xda"),
        NONE,
        (177, 15728669023434505047, 15800726617472432983),
    )?;
    // no handles
    breaks(
        rt.alloc(),
        TABLE,
        (137, b"\xff\xff\xff\xff\xff\xff\xff\xff\xff\xff"),
        NONE,
        (137, 0, 1),
    )?;
    // an index block past the footer
    breaks(rt.alloc(), TABLE, (140, b"\x13"), NONE, (114, 138, 137))?;
    // an index block past all files
    breaks(
        rt.alloc(),
        TABLE,
        (
            139,
            b"\xff\xff\xff\xff\xff\xff\xff\xff\xff\x01\xff\xff\xff\xff\xff\xff\xff\xff\xff\x01",
        ),
        NONE,
        (18446744073709551615, 18446744073709551615, 137),
    )?;
    Ok(())
}

#[test]
fn a_broken_index_block_is_damaged(rt: HostRuntime) -> Result<(), Fail> {
    // an index block of another type
    breaks(rt.alloc(), TABLE, (132, b"\x02"), NONE, (132, 2, 0))?;
    // another sum of the index block
    breaks(
        rt.alloc(),
        TABLE,
        (133, b"\x77"),
        NONE,
        (133, 4020429943, 4020429942),
    )?;
    // no restarts in the index block
    breaks(
        rt.alloc(),
        TABLE,
        (128, b"\x00"),
        (133, b"\x94\x74\xca\x34"),
        (114, 0, 1),
    )?;
    // an index entry that doesn't fit
    breaks(
        rt.alloc(),
        TABLE,
        (116, b"\x7f"),
        (133, b"\xde\x2e\x80\xae"),
        (114, 0, 1),
    )?;
    // an index value that is no handle
    breaks(
        rt.alloc(),
        TABLE,
        (123, b"\x80"),
        (133, b"\x88\x35\x64\xe8"),
        (114, 0, 1),
    )?;
    Ok(())
}

#[test]
fn a_broken_data_block_is_damaged(rt: HostRuntime) -> Result<(), Fail> {
    // a data block of another type
    breaks(rt.alloc(), TABLE, (96, b"\x03"), NONE, (96, 3, 0))?;
    // another sum of the data block
    breaks(
        rt.alloc(),
        TABLE,
        (97, b"\xff"),
        NONE,
        (97, 3601393663, 3601393662),
    )?;
    // a first restart that isn't 0
    breaks(
        rt.alloc(),
        TABLE,
        (88, b"\x01"),
        (97, b"\x33\x00\x37\x3b"),
        (0, 0, 1),
    )?;
    // a key that shares too much
    breaks(
        rt.alloc(),
        TABLE,
        (37, b"\x03"),
        (97, b"\x97\xab\x81\x90"),
        (37, 0, 1),
    )?;
    // a falling key
    breaks(
        rt.alloc(),
        TABLE,
        (40, b"\x00"),
        (97, b"\x5b\x04\x3b\x64"),
        (37, 0, 1),
    )?;
    // a key above its index key
    breaks(
        rt.alloc(),
        TABLE,
        (79, b"\x09"),
        (97, b"\x32\x38\xe4\xb1"),
        (76, 0, 1),
    )?;
    // a key at most the index key before
    breaks(
        rt.alloc(),
        SHORT,
        (96, b"\x04"),
        (114, b"\xe7\xd8\x14\x18"),
        (93, 0, 1),
    )?;
    Ok(())
}

#[test]
fn what_is_no_damage_has_a_name_of_its_own(rt: HostRuntime) -> Result<(), Fail> {
    let data = patched(rt.alloc(), TABLE, 96, b"\x01")?;
    let error = looked_up(rt.alloc(), data.as_slice(), &[], LAST)
        .err()
        .ok_or("read")?;
    assert_eq!(rt; error, TableErr::Compressed { place: 96 });
    assert_eq!(rt;
        format!(in rt.alloc(); "{error}")?.as_str(),
        "compressed block: its type byte at 96 is 1"
    );
    let index = patched(rt.alloc(), TABLE, 132, b"\x01")?;
    let error = looked_up(rt.alloc(), index.as_slice(), &[], LAST).err();
    assert_eq!(rt; error, Some(TableErr::Compressed { place: 132 }));
    for read in [0, 1, 2] {
        let error = looked_up(rt.alloc(), TABLE, &[read], LAST).err();
        assert_eq!(rt; error, Some(TableErr::ReadFault), "read {read}");
    }
    let Err(error) = looked_up(rt.alloc(), TABLE.split_at(47).0, &[], LAST) else {
        return Err("a file without a footer")?;
    };
    assert_eq!(rt;
        format!(in rt.alloc(); "{error}")?.as_str(),
        "damaged at 0: 47 for 48"
    );
    Ok(())
}
