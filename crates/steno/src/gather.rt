//! The records of an input that match a query.

ghost use Rattle.std.specs.Prelude.{◌≡◌, ℕ, List, Some, OnOk};
ghost use Rattle.st_pcap.specs.Reading.{HasFaultCause};
ghost use Rattle.st_query.specs.Meaning.{Matches};
ghost use Rattle.steno.specs.Gathering.{IsGathered, KeepsMatch, ReadsUpTo};

use crate::packets::Packets;
use st_base::{NoMemory, Record, Source};
use st_pcap::{PcapErr, PcapReader, Unit};
use st_query::{Query, matches};
use std::alloc::Global;

/// The records of an input that match, in its order, and how reading it ended: Ok if the input
/// ended after a whole record, or after the file head.
#[derive(Drop)]
pub struct Gathered {
    pub packets: Packets,
    pub end: Result<(), PcapErr>,
}

/// Reads the pcap to its end, and keeps the records that match `query` with the clock at `now`, in
/// microseconds since 1970, to be written in `unit`.
///
/// All records are read into the same memory, one after the other. Nothing is read after a refusal.
/// The end is `ReadFault` only if the input's `faults` rose, and `NoMemory` if there was no memory
/// for a record; every other error is the input's refusal.
/// Source: docs/FORMAT.md, "How an input is read".
pub fn gather<I: Source>(
    alloc: Global,
    query: &Query,
    now: u64,
    unit: Unit,
    input: &mut I,
) -> Gathered
    // What was kept of an input whose bytes are known, and what is left of it.
    ensures kept { (bytes : List ℕ) → I.left input.old ≡ Some bytes
        → IsGathered query.now now bytes result.packets.records result.end }
    ensures unit { result.packets.unit ≡ unit }
    ensures ended { (bytes : List ℕ) → I.left input.old ≡ Some bytes
        → ReadsUpTo bytes result.end (I.left input.new) }

    // What the input's faults say, and what else of it stays.
    ensures cause { HasFaultCause (I.faults input.old) (I.faults input.new) result.end }
    ensures rest { I.beside input.new ≡ I.beside input.old }
{
    let mut reader = PcapReader::new();
    let mut packets = Packets::new(alloc, unit);
    let mut spare = Vec::new(alloc);
    'records: loop {
        match reader.next_into(input, spare) {
            Ok(Some(packet)) => match keep(query, now, packet, &mut packets) {
                Ok(body) => spare = body,
                Err(NoMemory) => {
                    return Gathered {
                        packets,
                        end: Err(PcapErr::NoMemory),
                    };
                }
            },
            Ok(None) => {
                return Gathered {
                    packets,
                    end: Ok(()),
                };
            }
            Err(error) => {
                return Gathered {
                    packets,
                    end: Err(error),
                };
            }
        }
    }
}

// Adds a copy of the packet to those that are kept, if it matches, and gives the memory of its body
// back.
fn keep(query: &Query, now: u64, packet: Record, packets: &mut Packets) -> Result<Vec<u8>, NoMemory>
    ensures kept { OnOk result
        (KeepsMatch (Matches query.now now) packet packets.old.records packets.new.records) }
    ensures unit { packets.new.unit ≡ packets.old.unit }
{
    if !matches(query, now, packet.lend()) {
        return Ok(packet.body.into_bytes());
    }
    match packets.push(&packet) {
        Ok(()) => Ok(packet.body.into_bytes()),
        Err(error) => Err(error),
    }
}
