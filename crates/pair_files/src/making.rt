//! A block file from a pcap, and an index from a block file.

ghost use Rattle.std.specs.Prelude.{◌≡◌, ◌≤◌, IfOk};
ghost use Rattle.st_block.specs.BlockText.{IsBlockSize};

use crate::BUFFER;
use anyhow::{Context, Result, bail};
use st_base::{FileReader, Record, Sink, Source, StreamSink, StreamSource, put};
use st_block::{BlockBuilder, BlockErr, MAX_BLOCKS, is_block_size};
use st_index::{IndexMaker, make_index};
use st_pcap::PcapReader;
use st_table::BuildErr;
use std::alloc::Global;
use std::fs::File;
use std::io::{self, BufReader, BufWriter};

/// The file of this path, as a reader.
pub fn open(rt: &HostRuntime, path: &str) -> Result<FileReader> {
    let file = File::open(rt, path).context("a file can't be opened")?;
    let size = file.metadata()?.len();
    Ok(FileReader::over(file, size))
}

/// The next packet of a pcap.
fn next<S: Source>(
    alloc: Global,
    reader: &mut PcapReader,
    source: &mut S,
) -> Result<Option<Record>> {
    match reader.next(alloc, source) {
        Ok(packet) => Ok(packet),
        Err(error) => bail!("the input: {error}"),
    }
}

/// Fills a block: with this packet, and those after it, up to one that has no room, which it gives.
fn fill<S: Source>(
    alloc: Global,
    block: &mut BlockBuilder,
    first: Record,
    reader: &mut PcapReader,
    source: &mut S,
) -> Result<Option<Record>>
    ensures some { IfOk result (λ _. 1 ≤ block.new.count) }
    ensures size { block.new.size ≡ block.old.size }
{
    if !block.fits(first.body.bytes().len() as u32) {
        bail!("a packet has no room in a block");
    }
    block.add(first.lend());
    'packets: for _ in 0..u64::MAX {
        let Some(packet) = next(alloc, reader, source)? else {
            return Ok(None);
        };
        if !block.fits(packet.body.bytes().len() as u32) {
            return Ok(Some(packet));
        }
        block.add(packet.lend());
    }
    Ok(None)
}

/// Puts the blocks of the packets of a pcap.
fn put_blocks<S: Source, O: Sink>(
    alloc: Global,
    size: u32,
    source: &mut S,
    sink: &mut O,
) -> Result<()>
    requires { IsBlockSize size }
{
    let mut reader = PcapReader::new();
    let mut block = BlockBuilder::new(alloc, size)
        .ok()
        .context("out of memory")?;
    let mut first = next(alloc, &mut reader, source)?;
    'blocks: for number in 0..MAX_BLOCKS {
        let Some(packet) = first else {
            return Ok(());
        };
        first = fill(alloc, &mut block, packet, &mut reader, source)?;
        put(sink, block.finish(number))
            .ok()
            .context("writing failed")?;
        block.clear();
    }
    match first {
        Some(_) => bail!("the packets fill more than {MAX_BLOCKS} blocks"),
        None => Ok(()),
    }
}

/// Reads a pcap on standard input and writes its block file on standard output.
pub fn pack(rt: &HostRuntime, size: &str) -> Result<()> {
    let alloc = rt.alloc();
    let size: u32 = size.parse().ok().context("SIZE is no number")?;
    if !is_block_size(size) {
        bail!("SIZE is no power of two from 4096 to 1048576");
    }
    let mut source = StreamSource::over(BufReader::with_capacity(alloc, BUFFER, rt.reader())?);
    let mut sink = StreamSink::over(BufWriter::with_capacity(alloc, BUFFER, io::writer(rt))?);
    put_blocks(alloc, size, &mut source, &mut sink)?;
    sink.flush().ok().context("writing failed")
}

/// Writes the index of the block file of this path on standard output.
pub fn index(rt: &HostRuntime, path: &str) -> Result<()> {
    let alloc = rt.alloc();
    let mut blocks = open(rt, path)?;
    let mut maker = IndexMaker::new(alloc);
    match make_index(alloc, &mut blocks, &mut maker) {
        Ok(()) => {}
        Err(BlockErr::ReadFault) => bail!("reading the block file failed"),
        Err(BlockErr::NoMemory) => bail!("out of memory"),
        Err(BlockErr::Damaged(damage)) => bail!(
            "the block file is damaged at {}: {} for {}",
            damage.place,
            damage.found,
            damage.want
        ),
    }
    if maker.is_empty() {
        bail!("the block file has no packets");
    }
    let mut sink = StreamSink::over(BufWriter::with_capacity(alloc, BUFFER, io::writer(rt))?);
    match maker.write(alloc, &mut sink) {
        Ok(_) => {}
        Err(BuildErr::WriteFault) => bail!("writing failed"),
        Err(BuildErr::NoMemory) => bail!("out of memory"),
    }
    sink.flush().ok().context("writing failed")
}
