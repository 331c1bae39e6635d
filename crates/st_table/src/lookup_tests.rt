//! Keys that are looked up more than once in one table.

use super::*;
use crate::sample_tables::{
    LAST, ROWS, SHORT, bytes_of, key_of, patched, value_of, write_thousand,
};
use st_base::{MemReader, MemSink, Reader};
use std::alloc::Global;
use std::test::Fail;

/// Looks up the key of the packet's row of this number.
fn has_row<R: Reader>(alloc: Global, table: &mut Table<'_, R>, number: usize) -> Result<(), Fail> {
    let (key, value) = ROWS.get(number).ok_or("no such row")?;
    let found = table.get(alloc, key)?.ok_or("no row")?;
    if found.bytes() != *value {
        return Err("another value")?;
    }
    Ok(())
}

/// Looks up a key that no row has.
fn has_none<R: Reader>(alloc: Global, table: &mut Table<'_, R>, key: &[u8]) -> Result<(), Fail> {
    if table.get(alloc, key)?.is_some() {
        return Err("a row of another key")?;
    }
    Ok(())
}

/// Two reads enter the table, and then seventeen lookups read once each: so it is the next one that
/// fails.
#[test]
fn keys_are_found_again_by_one_read_each(rt: HostRuntime) -> Result<(), Fail> {
    let mut file = MemReader::over(rt.alloc(), SHORT, &[2 + 17])?;
    let mut table = Table::over(rt.alloc(), &mut file);
    table.enter(rt.alloc())?;
    for number in 0..7 {
        has_row(rt.alloc(), &mut table, number)?;
    }
    for number in 0..7 {
        has_row(rt.alloc(), &mut table, 6 - number)?;
    }
    has_none(rt.alloc(), &mut table, b"\x02\x00\x36")?;
    has_none(rt.alloc(), &mut table, b"\x04\x0a\x00\x00\x03")?;
    has_none(rt.alloc(), &mut table, b"")?;
    let error = table.get(rt.alloc(), LAST).err();
    assert_eq!(rt; error, Some(TableErr::ReadFault));
    has_row(rt.alloc(), &mut table, 6)
}

/// Looks up the last key, whose block is damaged.
fn is_refused<R: Reader>(alloc: Global, table: &mut Table<'_, R>) -> Result<(), Fail> {
    match table.get(alloc, LAST) {
        Err(TableErr::Damaged(damage)) => {
            if (damage.place, damage.found, damage.want) != (93, 0, 1) {
                return Err("another damage")?;
            }
            Ok(())
        }
        _ => Err("read")?,
    }
}

/// The key of the second block's row is at most the index key before.
#[test]
fn a_damaged_block_is_refused_at_each_lookup(rt: HostRuntime) -> Result<(), Fail> {
    let bytes = patched(rt.alloc(), SHORT, 96, b"\x04")?;
    let bytes = patched(rt.alloc(), bytes.as_slice(), 114, b"\xe7\xd8\x14\x18")?;
    let mut file = MemReader::over(rt.alloc(), bytes.as_slice(), &[])?;
    let mut table = Table::over(rt.alloc(), &mut file);
    table.enter(rt.alloc())?;
    for number in 0..6 {
        is_refused(rt.alloc(), &mut table)?;
        has_row(rt.alloc(), &mut table, number)?;
    }
    is_refused(rt.alloc(), &mut table)
}

/// Looks up the key of this number's row, of the thousand, and a key after it.
fn has_numbered<R: Reader>(
    alloc: Global,
    table: &mut Table<'_, R>,
    number: u32,
) -> Result<(), Fail> {
    let (key, bytes) = (key_of(number), bytes_of(number));
    let found = table.get(alloc, &key)?.ok_or("no row")?;
    if found.bytes() != value_of(&bytes, number) {
        return Err("another value")?;
    }
    has_none(alloc, table, &[7, 0, 0, key[3], key[4], 0])
}

#[test]
fn each_key_of_six_blocks_is_found_again(rt: HostRuntime) -> Result<(), Fail> {
    let mut sink = MemSink::new(rt.alloc(), &[])?;
    write_thousand(rt.alloc(), &mut sink)?;
    let mut file = MemReader::over(rt.alloc(), sink.bytes(), &[])?;
    let mut table = Table::over(rt.alloc(), &mut file);
    table.enter(rt.alloc())?;
    for number in 0..1000 {
        has_numbered(rt.alloc(), &mut table, number)?;
    }
    for number in 0..1000 {
        has_numbered(rt.alloc(), &mut table, 999 - number)?;
    }
    Ok(())
}
