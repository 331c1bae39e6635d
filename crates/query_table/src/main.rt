//! Reads texts from standard input, one a line, and prints of each the printed form of the query
//! that it spells, or its refusal.
//!
//! In a line `\t`, `\n`, `\r` and `\\` stand for a tab, a line feed, a carriage return and a
//! backslash, and `\x` with two hexadecimal digits for that byte. `stdin` and `stdout` are a table
//! of texts at the edges of the language, whose answers were worked out by hand from its rules.
#![tactic(auto)]

mod escapes;

use escapes::unescaped;
use st_query::{parse, print};
use std::alloc::Global;
use std::io::{self, Write};

fn answer<W: Write>(alloc: Global, text: &[u8], out: &mut W) -> io::Result<()> {
    match parse(alloc, text) {
        Ok(query) => match print(alloc, &query) {
            Ok(printed) => out.write_all(printed.bytes())?,
            Err(_) => out.write_all(b"out of memory".as_slice())?,
        },
        Err(error) => write!(out, "{error}")?,
    }
    out.write_all(b"\n".as_slice())
}

fn main(rt: HostRuntime) -> io::Result<()> {
    let alloc = rt.alloc();
    let mut out = io::writer(&rt);
    for line in rt.lines(alloc) {
        let text = unescaped(alloc, line?.as_bytes())?;
        answer(alloc, &text, &mut out)?;
    }
    Ok(())
}
