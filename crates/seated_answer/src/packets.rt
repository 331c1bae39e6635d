//! The packets of a pair: each carries the number of its pair, and its own.

ghost use Rattle.std.specs.Prelude.{◌<◌};

/// How many makers of pairs there are, numbered from 0.
pub const MAKERS: usize = 2;

/// How many packets a pair has.
pub const PACKETS: u8 = 4;

/// How many of them, the first ones, go to port 53. The others go to port 80.
pub const ASKED: u8 = 3;

/// How many bytes a packet has.
pub const SIZE: usize = 48;

// the second of the pair of number 0
const FIRST_SECOND: u32 = 1_000_000_000;

// Ethernet; IPv4 from 10.0.0.1 to 10.0.0.2, with 34 bytes in all; UDP from port 12345, with 14.
const HEADS: &[u8; 42] = b"\x02\x00\x00\x00\x00\x02\x02\x00\x00\x00\x00\x01\x08\x00\x45\x00\
\x00\x22\x00\x00\x00\x00\x40\x11\x00\x00\x0a\x00\x00\x01\x0a\x00\
\x00\x02\x30\x39\x00\x35\x00\x0e\x00\x00";

/// What a packet carries: who made its pair, the number of that pair among those of its maker, and
/// the packet's own number in the pair, both from 0 on.
#[derive(Clone, Copy)]
pub struct Label {
    pub maker: u8,
    pub pair: u32,
    pub number: u8,
}

/// The bytes of the packet with this label.
pub fn packet(label: Label) -> [u8; SIZE] {
    let mut bytes = [0u8; SIZE];
    bytes[..42].copy_from_slice(HEADS);
    bytes[37] = if label.number < ASKED { 53 } else { 80 };
    bytes[42] = label.maker;
    bytes[43..47].copy_from_slice(&label.pair.to_be_bytes());
    bytes[47] = label.number;
    bytes
}

/// The time of that packet: seconds since 1970, and nanoseconds. It rises with the pair's number,
/// and in it with the packet's own.
pub fn time_of(label: Label) -> (u32, u32)
    ensures { result.1 < 1_000_000_000 }
{
    let sec = FIRST_SECOND.wrapping_add(label.pair);
    (sec, label.number as u32 * 1_000)
}

/// The label of a packet of these bytes, if they are as many as a packet has.
pub fn label_of(bytes: &[u8]) -> Option<Label> {
    if bytes.len() != SIZE {
        return None;
    }
    Some(Label {
        maker: bytes[42],
        pair: u32::from_be_bytes([bytes[43], bytes[44], bytes[45], bytes[46]]),
        number: bytes[47],
    })
}
