//! The packets of a drill as the bytes of a pcap, which are made as they are read.
ghost use Rattle.std.specs.Prelude.{◌≡◌, ◌-◌, ◌<◌, ◌≤◌, ◌+◌, ◌++◌, Some, length, take, drop, List};
ghost use Rattle.std.specs.Io.{ReadsAtMost};
ghost use Rattle.std.specs.Io.KnownBytes.{ReadConsumes};
ghost use Rattle.st_base.specs.Faults.{HasCause};
ghost use Rattle.st_pcap.specs.Text.{record_text};
ghost use Rattle.st_pcap.specs.declared.forms.Unit.TheVariants.{Nano};
ghost use Rattle.st_drill.specs.Packets.{packet, input};
ghost use Rattle.st_drill.specs.Source.{to_come, IsSoundMaker};

use crate::frame::frame_of;
use crate::numbers::{FIRST_SECOND, FRAME_SIZE, NANOS_APART, RECORD_SIZE, SECOND_PACKETS};
use st_base::{Failed, RecordRef, Source};
use st_pcap::{FILE_HEAD_SIZE, RECORD_HEAD_SIZE, Unit, file_head, record_head};
use st_plan::MAX_PACKETS;
use std::marker::Model;

// The bytes of a record: its head, and then its body, a packet.
fn joined(head: &[u8], frame: &[u8]) -> [u8; RECORD_SIZE]
    requires head { length head.now ≡ RECORD_HEAD_SIZE }
    requires frame { length frame.now ≡ FRAME_SIZE }
    ensures { result ≡ head.now ++ frame.now }
{
    let mut bytes = [0; RECORD_SIZE];
    put_at(&mut bytes, 0, head);
    put_at(&mut bytes, RECORD_HEAD_SIZE, frame);
    bytes
}

// Writes `part` over as many of the bytes, from the offset `at` on.
fn put_at(bytes: &mut [u8], at: usize, part: &[u8])
    requires { at + length part.now ≤ length bytes.old }
    ensures { bytes.new ≡ take at bytes.old ++ (part.now ++ drop (at + length part.now) bytes.old) }
{
    bytes[at..at + part.len()].copy_from_slice(part);
}

// The bytes of packet `k` in the pcap: the head of its record, and the packet.
fn record_of(k: u32) -> [u8; RECORD_SIZE]
    requires { k < MAX_PACKETS }
    ensures { result ≡ record_text Nano (packet k) }
{
    let frame = frame_of(k);
    let head = record_head(
        Unit::Nano,
        RecordRef {
            sec: FIRST_SECOND + k / SECOND_PACKETS,
            nsec: k % SECOND_PACKETS * NANOS_APART,
            orig: FRAME_SIZE as u32,
            body: &frame,
        },
    );
    joined(&head, &frame)
}

// Makes the bytes of a drill's input, a record at a time.
#[derive(Drop)]
struct Maker {
    // The bytes at hand: those of a record, or the file head at their end.
    bytes: [u8; RECORD_SIZE],
    // How many of them were read.
    at: usize,
    // The number of the next packet to be made.
    next: u32,
    // How many packets are still to be made.
    left: u32,
}

impl Maker {
    // A maker of the input with this many packets, of which nothing was read.
    fn new(packets: u32) -> Maker
        requires { packets ≤ MAX_PACKETS }
        ensures sound { IsSoundMaker result }
        ensures input { to_come result ≡ input packets }
    {
        let at = RECORD_SIZE - FILE_HEAD_SIZE;
        let mut bytes = [0; RECORD_SIZE];
        put_at(&mut bytes, at, &file_head(Unit::Nano));
        Maker {
            bytes,
            at,
            next: 0,
            left: packets,
        }
    }

    // Makes the next packet's record, if none of the bytes at hand is left.
    fn refill(&mut self)
        requires { IsSoundMaker self.old }
        ensures sound { IsSoundMaker self.new }
        ensures same { to_come self.new ≡ to_come self.old }
        ensures some { self.new.at ≡ RECORD_SIZE → self.new.left ≡ 0 }
    {
        if self.at < RECORD_SIZE || self.left == 0 {
            return;
        }
        self.bytes = record_of(self.next);
        self.at = 0;
        self.next += 1;
        self.left -= 1;
    }
}

/// The input of a drill: a pcap whose packets are made from their numbers as they are read. It
/// takes no memory and never fails.
///
/// Contracts see it as the bytes that are still to be read.
#[derive(Drop)]
pub struct DrillSource {
    maker: Maker,
}

impl Model for DrillSource {
    ghost use Rattle.std.specs.Prelude.{List, ℕ};
    ghost use Rattle.st_drill.specs.Source.{to_come, IsSoundMaker};

    ghost Value = { List ℕ };

    ghost view = { λ a. to_come a.maker };

    ghost invariant = { λ a. IsSoundMaker a.maker };
}

impl DrillSource {
    /// The input of this many packets, at most 1,000,000.
    ///
    /// Source: docs/FORMAT.md, "Drill".
    pub fn new(packets: u32) -> DrillSource
        requires { packets ≤ MAX_PACKETS }
        ensures { result ≡ input packets }
    {
        DrillSource {
            maker: Maker::new(packets),
        }
    }
}

impl Source for DrillSource {
    ghost Beside = { Unit {0} };

    ghost left = { λ s. Some s };

    ghost faults = { λ s. 0 };

    ghost beside = { λ s. tt };

    fn read(&mut self, out: &mut [u8]) -> Result<usize, Failed> {
        self.maker.refill();
        let rest = self.maker.bytes.split_at(self.maker.at).1;
        let taken = rest.len().min(out.len());
        out.split_at_mut(taken)
            .0
            .copy_from_slice(rest.split_at(taken).0);
        self.maker.at += taken;
        Ok(taken)
    }
}
