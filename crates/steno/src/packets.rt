//! The packets of an answer, kept as the bytes in which they are written.

ghost use Rattle.std.specs.Prelude.{◌≡◌, ◌≤◌, ◌+◌, List, ℕ, length, take, map, IsTrue, OnOk, vec_len, vec_capacity};
ghost use Rattle.std.specs.List.{All, flat_map};
ghost use Rattle.std.specs.List.Sorted.{IsPermutation, IsSortedBy, IsStableBy};
ghost use Rattle.st_base.specs.Faults.{HasCause};
ghost use Rattle.st_base.specs.Pieces.{Puts};
ghost use Rattle.st_pcap.specs.declared.forms.Unit as unit;
ghost use Rattle.st_answer.specs.Limited.{Limited};
ghost use Rattle.steno.specs.Packets.{record_of, text_of, Lies, AllLie, AllWithin, is_earlier, Appends};

use st_base::{Failed, Limits, NoMemory, Record, Sink, put};
use st_pcap::{RECORD_HEAD_SIZE, Unit, append_record, put_header};
use std::alloc::Global;
use std::marker::Model;

/// What a packet is sorted and cut by, and where its text begins.
#[derive(Clone, Copy)]
pub struct Packet {
    /// Seconds since 1970.
    pub sec: u32,
    /// Nanoseconds, below 10^9.
    pub nsec: u32,
    /// The original length, in bytes.
    pub orig: u32,
    /// The captured length, in bytes.
    pub len: u32,
    /// The offset of the packet's text in the buffer, in bytes.
    pub start: usize,
}

/// Packets in some order, whose texts lie in one buffer.
///
/// Contracts see the unit of the texts' times, and the records in their order.
#[derive(Drop)]
pub struct Packets {
    unit: Unit,
    order: Vec<Packet>,
    text: Vec<u8>,
}

impl Model for Packets {
    ghost use Rattle.std.specs.Prelude.{map};
    ghost use Rattle.std.specs.List.{All};
    ghost use Rattle.steno.specs.PacketsView.{PacketsView};

    ghost Value = { PacketsView };

    ghost use Rattle.steno.specs.Packets.{record_of, Lies};

    ghost view = { λ a. record {
      unit = a.unit;
      records = map (record_of a.text.items) a.order.items;
    } };

    ghost invariant = { λ a. All (Lies a.unit a.text.items) a.order.items };
}

impl Packets {
    ghost use Rattle.std.specs.Prelude.{◌≡◌, [], ◌∷◌, ◌++◌, ℕ, List, MatchResult, OnOk};
    ghost use Rattle.st_base.specs.Faults.{HasCause};
    ghost use Rattle.st_base.specs.Pieces.{Puts};
    ghost use Rattle.st_base.specs.Records.{Rec};
    ghost use Rattle.st_pcap.specs.Text.{PcapText};
    ghost use Rattle.st_query.specs.declared.nodes.Node.{Node};
    ghost use Rattle.st_query.specs.Answer.{AnswerOf};
    ghost use Rattle.st_query.specs.Meaning.{Matches};
    ghost use Rattle.st_answer.specs.Limited.{Limited};
    ghost use Rattle.steno.specs.Gathering.{Selects};

    /// No packets yet, and the unit of their texts' times. It takes no memory.
    pub fn new(alloc: Global, unit: Unit) -> Packets
        ensures { result ≡ record { unit = unit; records = [] } }
    {
        Packets {
            unit,
            order: Vec::new(alloc),
            text: Vec::new(alloc),
        }
    }

    /// Adds a copy of `packet` at the end. `NoMemory` leaves the packets as they were.
    pub fn push(&mut self, packet: &Record) -> Result<(), NoMemory>
        ensures { MatchResult result
            (λ _. self.new ≡ record self.old { records = self.old.records ++ packet.now ∷ [] })
            (λ _. self.new ≡ self.old) }
    {
        append(&mut self.order, &mut self.text, self.unit, packet)
    }

    /// Sorts matching packets by second and nanosecond; those of one time keep their order.
    ///
    /// It takes memory only if they are not in that order already. `NoMemory` may leave them in
    /// another order.
    pub fn sort_by_time(&mut self) -> Result<(), NoMemory>
        ensures answer { (q : Node) (now : ℕ) (rs : List Rec)
            → Selects (Matches q now) rs self.old.records
            → OnOk result (AnswerOf q now rs self.new.records) }
        ensures unit { self.new.unit ≡ self.old.unit }
    {
        sort(&mut self.order)
    }

    /// Keeps the longest prefix of the packets that is within the limits, on their number and on
    /// their captured bytes.
    pub fn cut(&mut self, limits: Limits)
        ensures limited { Limited limits self.old.records self.new.records }
        ensures unit { self.new.unit ≡ self.old.unit }
    {
        let count = limited_len(self.order.as_slice(), limits);
        self.order.truncate(count);
    }

    /// Writes the pcap file of the packets: its head by one `put`, and by one more each run of
    /// packets whose texts follow each other in the buffer. It takes no memory.
    ///
    /// `Failed` comes only if the sink's `faults` rose; a prefix of the file is then written.
    /// Source: docs/FORMAT.md, "What is written".
    pub fn write<O: Sink>(&self, out: &mut O) -> Result<(), Failed>
        ensures bytes { Puts (O.written out.old) (O.written out.new)
            (PcapText self.now.records self.now.unit) result }
        ensures cause { HasCause (O.faults out.old) (O.faults out.new) result }
        ensures rest { O.beside out.new ≡ O.beside out.old }
    {
        match put_header(out, self.unit) {
            Ok(()) => put_texts(out, self.order.as_slice(), self.text.as_slice()),
            Err(error) => Err(error),
        }
    }
}

// Adds a packet's text to the buffer, and the packet to the order.
fn append(
    order: &mut Vec<Packet>,
    text: &mut Vec<u8>,
    unit: Unit,
    packet: &Record,
) -> Result<(), NoMemory>
    ensures { Appends unit packet.now
        text.old.items order.old.items text.new.items order.new.items result }
{
    let body = packet.body.bytes();
    match make_room(text, RECORD_HEAD_SIZE + body.len()) {
        Ok(()) => {}
        Err(error) => return Err(error),
    }
    match make_room(order, 1) {
        Ok(()) => {}
        Err(error) => return Err(error),
    }
    let start = text.len();
    match append_record(text, unit, &packet.lend()) {
        Ok(()) => {}
        Err(error) => return Err(error),
    }
    order.push_reserved(Packet {
        sec: packet.sec,
        nsec: packet.nsec,
        orig: packet.orig,
        len: body.len() as u32,
        start,
    });
    Ok(())
}

// Makes room for this many elements more: for twice as many as there was room for, so that a list
// grows seldom, or only for these if memory is short.
fn make_room<T>(items: &mut Vec<T>, more: usize) -> Result<(), NoMemory>
    ensures same { items.new.items ≡ items.old.items }
    ensures room { OnOk result (vec_len items.new + more ≤ vec_capacity items.new) }
{
    if items.reserve(more).is_ok() {
        return Ok(());
    }
    match items.reserve_exact(more) {
        Ok(()) => Ok(()),
        Err(_) => Err(NoMemory),
    }
}

// Sorts packets by time; those of one time keep their order.
fn sort(order: &mut Vec<Packet>) -> Result<(), NoMemory>
    ensures same { IsPermutation order.old.items order.new.items }
    ensures sorted { OnOk result (IsSortedBy is_earlier order.new.items) }
    ensures stable { OnOk result (IsStableBy is_earlier order.old.items order.new.items) }
{
    if is_sorted(order.as_slice()) {
        return Ok(());
    }
    match order.sort_by_key(|packet| (packet.sec, packet.nsec)) {
        Ok(()) => Ok(()),
        Err(_) => Err(NoMemory),
    }
}

// Whether the packets are in the order of their times.
fn is_sorted(order: &[Packet]) -> bool
    ensures { IsTrue result → IsSortedBy is_earlier order.now }
{
    'packets: for next in 1..order.len() {
        if is_earlier(&order[next], &order[next - 1]) {
            return false;
        }
    }
    true
}

// Whether one packet was captured at an earlier time than the other.
fn is_earlier(one: &Packet, other: &Packet) -> bool
    ensures { result ≡ is_earlier one.now other.now }
{
    one.sec < other.sec || one.sec == other.sec && one.nsec < other.nsec
}

// How many packets, from the first on, are together within the limits.
fn limited_len(order: &[Packet], limits: Limits) -> usize
    ensures { (u : unit.Unit) (text : List ℕ) → AllLie u text order.now
        → Limited limits (map (record_of text) order.now)
        (map (record_of text) (take result order.now)) }
{
    let mut room = limits.bytes;
    let mut count = 0usize;
    'packets: for packet in order {
        let len = u64::from(packet.len);
        if count as u64 >= limits.packets {
            return count;
        }
        if len > room {
            return count;
        }
        room -= len;
        count += 1;
    }
    count
}

// Writes the packets' texts in their order, by one `put` for each run of texts that follow each
// other in the buffer.
fn put_texts<O: Sink>(out: &mut O, order: &[Packet], text: &[u8]) -> Result<(), Failed>
    requires { AllWithin text.now order.now }
    ensures bytes { Puts (O.written out.old) (O.written out.new)
        (flat_map (text_of text.now) order.now) result }
    ensures cause { HasCause (O.faults out.old) (O.faults out.new) result }
    ensures rest { O.beside out.new ≡ O.beside out.old }
{
    let mut from = 0usize;
    let mut to = 0usize;
    'packets: for packet in order {
        if packet.start != to {
            match put(out, &text[from..to]) {
                Ok(()) => from = packet.start,
                Err(error) => return Err(error),
            }
        }
        to = packet.start + RECORD_HEAD_SIZE + packet.len as usize;
    }
    put(out, &text[from..to])
}
