ghost use Rattle.std.specs.Prelude.{◌≡◌};

use crate::bytes::Octets;
use std::marker::Model;

/// A captured packet that owns its bytes.
///
/// `sec` is in seconds since 1970 and `nsec` in nanoseconds, below 10^9. `orig` is the packet's
/// original length in bytes, `body` the bytes that were captured, fewer than 2^32. A body may be
/// longer than `orig`.
/// Source: libpcap's savefile format, "Packet Record".
#[derive(Drop)]
pub struct Record {
    pub sec: u32,
    pub nsec: u32,
    pub orig: u32,
    pub body: Octets,
}

impl Model for Record {
    ghost use Rattle.st_base.specs.Records.{Rec, InRange};

    ghost Value = { Rec };

    ghost view = { λ a. record { sec = a.sec; nsec = a.nsec; orig = a.orig; body = a.body } };

    ghost invariant = { λ a. InRange (record {
      sec = a.sec;
      nsec = a.nsec;
      orig = a.orig;
      body = a.body;
    }) };
}

impl Record {
    ghost use Rattle.st_base.specs.Records.{InRange};

    /// This record over its own bytes. It takes no memory.
    pub fn lend(&self) -> RecordRef<'_>
        ensures same { result ≡ self.now }
        ensures range { InRange self.now }
    {
        RecordRef {
            sec: self.sec,
            nsec: self.nsec,
            orig: self.orig,
            body: self.body.bytes(),
        }
    }
}

/// A captured packet over bytes that are somebody else's, with the fields of [`Record`].
#[derive(Drop)]
pub struct RecordRef<'a> {
    pub sec: u32,
    pub nsec: u32,
    pub orig: u32,
    pub body: &'a [u8],
}

impl<'a> Model for RecordRef<'a> {
    ghost use Rattle.st_base.specs.Records.{Rec, InRange};

    ghost Value = { Rec };

    ghost view = { λ a. record { sec = a.sec; nsec = a.nsec; orig = a.orig; body = a.body.now } };

    ghost invariant = { λ a. InRange (record {
      sec = a.sec;
      nsec = a.nsec;
      orig = a.orig;
      body = a.body.now;
    }) };
}
