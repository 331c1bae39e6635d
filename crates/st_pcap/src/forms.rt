ghost use Rattle.std.specs.Prelude.{◌≡◌, ◌+◌, ◌<◌, ◌≤◌, length};
ghost use Rattle.st_pcap.specs.Forms.{number_at, short_at, fractions, fraction_of, nanoseconds};

use crate::numbers::{MICROS, NANOS, NANOS_IN_MICRO, NUMBER_SIZE, SHORT_SIZE};
use byteorder::{BigEndian, ByteOrder, LittleEndian};

/// The order of the bytes of each number of a file, as its first four bytes tell it.
#[derive(Clone, Copy, Debug, PartialEq, Eq)]
pub enum Order {
    Little,
    Big,
}

/// The unit of the fractions of seconds in a file.
///
/// Source: libpcap's savefile format, "File Header"; docs/FORMAT.md, "pcap".
#[derive(Clone, Copy, Debug, PartialEq, Eq)]
pub enum Unit {
    /// Microseconds, below 10^6.
    Micro,
    /// Nanoseconds, below 10^9.
    Nano,
}

/// How the numbers of a file are to be read.
#[derive(Clone, Copy, Debug, PartialEq, Eq)]
pub struct Form {
    pub order: Order,
    pub unit: Unit,
}

/// The number of four bytes from offset `at` on.
pub fn number_at(order: Order, at: usize, bytes: &[u8]) -> u32
    requires { at + NUMBER_SIZE ≤ length bytes.now }
    ensures { result ≡ number_at order at bytes.now }
{
    let bytes = bytes.split_at(at).1;
    match order {
        Order::Little => LittleEndian::read_u32(bytes),
        Order::Big => BigEndian::read_u32(bytes),
    }
}

/// The number of two bytes from offset `at` on.
pub fn short_at(order: Order, at: usize, bytes: &[u8]) -> u16
    requires { at + SHORT_SIZE ≤ length bytes.now }
    ensures { result ≡ short_at order at bytes.now }
{
    let bytes = bytes.split_at(at).1;
    match order {
        Order::Little => LittleEndian::read_u16(bytes),
        Order::Big => BigEndian::read_u16(bytes),
    }
}

/// How many fractions a second has.
pub fn fractions(unit: Unit) -> u32
    ensures { result ≡ fractions unit }
{
    match unit {
        Unit::Micro => MICROS,
        Unit::Nano => NANOS,
    }
}

/// A fraction of a second in nanoseconds.
pub fn nanoseconds(unit: Unit, fraction: u32) -> u32
    requires { fraction < fractions unit }
    ensures value { result ≡ nanoseconds unit fraction }
    ensures below { result < NANOS }
{
    match unit {
        Unit::Micro => fraction * NANOS_IN_MICRO,
        Unit::Nano => fraction,
    }
}

/// The fraction that this many nanoseconds are, cut off.
pub fn fraction_of(unit: Unit, nanos: u32) -> u32
    ensures { result ≡ fraction_of unit nanos }
{
    match unit {
        Unit::Micro => nanos / NANOS_IN_MICRO,
        Unit::Nano => nanos,
    }
}
