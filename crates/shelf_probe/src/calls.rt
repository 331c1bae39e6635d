// The calls, each with what it prints.
use crate::words::{kind_of, line_of, name_of};
use st_base::{Failed, Reader, put};
use st_disk::published_name;
use st_folder::{RealFile, RealShelf};
use st_shelf::{Draft, End, Kind, ListErr, Name, Shelf};
use std::alloc::{AllocError, Global};

// What the call of a line answers, with its line feed.
pub(crate) fn answer(
    alloc: Global,
    shelf: &mut RealShelf,
    line: &str,
) -> Result<String, AllocError> {
    let words: Vec<&str> = line.split_whitespace().collect(alloc)?;
    match words.as_slice() {
        ["put", kind, stamp, length] => put_words(alloc, shelf, kind, stamp, length),
        ["flush", kind] => match kind_of(kind) {
            Some(kind) => said(alloc, shelf.flush(kind)),
            None => unknown(alloc),
        },
        ["hide", stamp] => match stamp.parse() {
            Ok(stamp) => said(alloc, shelf.hide(stamp)),
            Err(_) => unknown(alloc),
        },
        ["remove", name @ ..] => match name_of(name) {
            Some(name) => said(alloc, shelf.remove(name)),
            None => unknown(alloc),
        },
        ["read", name @ ..] => match name_of(name) {
            Some(name) => read(alloc, shelf, name),
            None => unknown(alloc),
        },
        ["show", place, length, name @ ..] => show_words(alloc, shelf, place, length, name),
        ["age", stamp] => match stamp.parse() {
            Ok(stamp) => age(alloc, shelf, stamp),
            Err(_) => unknown(alloc),
        },
        ["list"] => list(alloc, shelf),
        ["faults"] => {
            let faults = shelf.fault_count();
            format!(in alloc; "{faults}\n")
        }
        _ => unknown(alloc),
    }
}

fn unknown(alloc: Global) -> Result<String, AllocError> {
    String::from_str(alloc, "?\n")
}

fn said(alloc: Global, done: Result<(), Failed>) -> Result<String, AllocError> {
    match done {
        Ok(()) => String::from_str(alloc, "ok\n"),
        Err(Failed) => String::from_str(alloc, "failed\n"),
    }
}

fn put_words(
    alloc: Global,
    shelf: &mut RealShelf,
    kind: &str,
    stamp: &str,
    length: &str,
) -> Result<String, AllocError> {
    let (Some(kind), Ok(stamp), Ok(length)) = (kind_of(kind), stamp.parse(), length.parse::<u32>())
    else {
        return unknown(alloc);
    };
    let bytes = vec![in alloc; b'x'; length as usize]?;
    match put_file(shelf, kind, stamp, &bytes) {
        Ok(()) => String::from_str(alloc, "ok\n"),
        Err(call) => format!(in alloc; "failed: {call}\n"),
    }
}

// Puts a file under its name, or answers which call failed.
fn put_file(
    shelf: &mut RealShelf,
    kind: Kind,
    stamp: u64,
    bytes: &[u8],
) -> Result<(), &'static str> {
    let Ok(mut draft) = shelf.create(kind) else {
        return Err("create");
    };
    if put(&mut draft, bytes).is_err() {
        shelf.abandon(End::Unsealed(draft));
        return Err("write");
    }
    let sealed = match draft.seal() {
        Ok(sealed) => sealed,
        Err(draft) => {
            shelf.abandon(End::Unsealed(draft));
            return Err("seal");
        }
    };
    match shelf.settle(sealed, published_name(kind, stamp)) {
        Ok(()) => Ok(()),
        Err(sealed) => {
            shelf.abandon(End::Sealed(sealed));
            Err("settle")
        }
    }
}

fn list(alloc: Global, shelf: &mut RealShelf) -> Result<String, AllocError> {
    let mut lines = String::new(alloc);
    match shelf.list(alloc) {
        Ok(names) => {
            for name in names.items() {
                lines.push_str(line_of(alloc, *name)?.as_str())?;
            }
            lines.push_str("ok\n")?;
        }
        Err(ListErr::DiskFault) => lines.push_str("failed\n")?,
        Err(ListErr::NoMemory) => lines.push_str("failed: no memory\n")?,
    }
    Ok(lines)
}

fn read(alloc: Global, shelf: &mut RealShelf, name: Name) -> Result<String, AllocError> {
    let Ok(mut file) = shelf.reader(name) else {
        return String::from_str(alloc, "failed\n");
    };
    let read = read_all(&mut file);
    shelf.close(file);
    match read {
        Ok(length) => format!(in alloc; "{length} bytes\n"),
        Err(Failed) => String::from_str(alloc, "failed: read\n"),
    }
}

fn show_words(
    alloc: Global,
    shelf: &mut RealShelf,
    place: &str,
    length: &str,
    name: &[&str],
) -> Result<String, AllocError> {
    let (Ok(place), Ok(length), Some(name)) = (place.parse(), length.parse::<u32>(), name_of(name))
    else {
        return unknown(alloc);
    };
    let mut part = vec![in alloc; 0; length as usize]?;
    match read_part(shelf, name, place, &mut part) {
        Ok(taken) => match str::from_utf8(part.as_slice().get(..taken).unwrap_or(b"")) {
            Ok(text) => format!(in alloc; "{text}\n"),
            Err(_) => String::from_str(alloc, "no text\n"),
        },
        Err(Failed) => String::from_str(alloc, "failed\n"),
    }
}

// Reads from a place of a file by one read, and answers how many bytes came.
fn read_part(
    shelf: &mut RealShelf,
    name: Name,
    place: u64,
    part: &mut [u8],
) -> Result<usize, Failed> {
    let mut file = shelf.reader(name)?;
    let taken = file.read_at(place, part);
    shelf.close(file);
    taken
}

// Lets an index leave the file set and the disk while it is lent, and reads it after that.
fn age(alloc: Global, shelf: &mut RealShelf, stamp: u64) -> Result<String, AllocError> {
    let Ok(mut file) = shelf.reader(Name::Index(stamp)) else {
        return String::from_str(alloc, "failed\n");
    };
    let hidden = shelf.hide(stamp);
    let removed = shelf.remove(Name::Parked(stamp));
    let read = read_all(&mut file);
    shelf.close(file);
    match (hidden, removed, read) {
        (Ok(()), Ok(()), Ok(length)) => format!(in alloc; "{length} bytes\n"),
        _ => String::from_str(alloc, "failed\n"),
    }
}

const PIECE: u64 = 4096;

// Reads a file in pieces, and answers how many bytes came.
fn read_all(file: &mut RealFile) -> Result<u64, Failed> {
    let mut part = [0; PIECE as usize];
    let mut place = 0u64;
    for _ in 0..=file.size() / PIECE {
        let taken = file.read_at(place, &mut part)?;
        place = place.saturating_add(taken as u64);
    }
    Ok(place)
}
