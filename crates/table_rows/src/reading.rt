//! The rows of a table as lines.

use crate::BUFFER;
use crate::hexes::{decode, next_line, put};
use anyhow::{Context, Result};
use st_base::{FileReader, Reader};
use st_table::{Cursor, Table};
use std::alloc::Global;
use std::fs::File;
use std::io::{self, BufReader, BufWriter, Write};

/// The file of this path, as a reader.
fn open(rt: &HostRuntime, path: &str) -> Result<FileReader> {
    let file = File::open(rt, path).context("the file can't be opened")?;
    let size = file.metadata()?.len();
    Ok(FileReader::over(file, size))
}

/// Prints a line for each row that is still to come.
///
/// It ends over any file: each row that the table gives leaves fewer to come.
fn print_rows<R: Reader, W: Write>(
    alloc: Global,
    table: &mut Table<'_, R>,
    cursor: &mut Cursor,
    out: &mut W,
) -> Result<()> {
    let mut text = Vec::new(alloc);
    'rows: while let Some(row) = table.step(alloc, cursor)? {
        put(out, row.key.bytes(), &mut text)?;
        out.write_all(b" ".as_slice())?;
        put(out, row.value.bytes(), &mut text)?;
        out.write_all(b"\n".as_slice())?;
    }
    Ok(())
}

/// Prints a line for each row of the table of this path.
pub fn print(rt: &HostRuntime, path: &str) -> Result<()> {
    let alloc = rt.alloc();
    let mut file = open(rt, path)?;
    let mut table = Table::over(alloc, &mut file);
    table.enter(alloc)?;
    let mut cursor = table
        .range(alloc, &[], table.last_key())
        .ok()
        .context("out of memory")?;
    let mut out = BufWriter::with_capacity(alloc, BUFFER, io::writer(rt))?;
    print_rows(alloc, &mut table, &mut cursor, &mut out)?;
    out.flush()?;
    Ok(())
}

/// Reads keys on standard input and prints the value of each in the table of this path, or `-`.
pub fn find(rt: &HostRuntime, path: &str) -> Result<()> {
    let alloc = rt.alloc();
    let mut file = open(rt, path)?;
    let mut table = Table::over(alloc, &mut file);
    table.enter(alloc)?;
    let mut reader = BufReader::with_capacity(alloc, BUFFER, rt.reader())?;
    let mut out = BufWriter::with_capacity(alloc, BUFFER, io::writer(rt))?;
    let (mut line, mut key, mut text) = (Vec::new(alloc), Vec::new(alloc), Vec::new(alloc));
    for _ in 0..u64::MAX {
        if !next_line(&mut reader, &mut line)? {
            break;
        }
        decode(line.as_slice(), &mut key)?;
        match table.get(alloc, key.as_slice())? {
            Some(value) => put(&mut out, value.bytes(), &mut text)?,
            None => out.write_all(b"-".as_slice())?,
        }
        out.write_all(b"\n".as_slice())?;
    }
    out.flush()?;
    Ok(())
}
