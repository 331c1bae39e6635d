ghost use Rattle.std.specs.Prelude.{◌≡◌, List, ℕ, IfOk};

use crate::failures::NoMemory;
use std::alloc::Global;
use std::marker::Model;

/// Bytes that are owned, seen by contracts as their list.
#[derive(Drop)]
pub struct Octets {
    bytes: Vec<u8>,
}

impl Model for Octets {
    ghost Value = { List ℕ };

    ghost view = { λ a. a.bytes.items };
}

impl Octets {
    /// A copy of `bytes`, in one allocation.
    pub fn copy_of(alloc: Global, bytes: &[u8]) -> Result<Octets, NoMemory>
        ensures { IfOk result (λ a. a ≡ bytes.now) }
    {
        let mut copy = match Vec::with_capacity(alloc, bytes.len()) {
            Ok(copy) => copy,
            Err(_) => return Err(NoMemory),
        };
        match copy.extend_from_slice(bytes) {
            Ok(()) => Ok(Octets { bytes: copy }),
            Err(_) => Err(NoMemory),
        }
    }

    /// The bytes of a vector, without a copy.
    pub fn of(bytes: Vec<u8>) -> Octets
        ensures { result ≡ bytes.items }
    {
        Octets { bytes }
    }

    /// The vector of the bytes, without a copy.
    pub fn into_bytes(self) -> Vec<u8>
        ensures { result.items ≡ self }
    {
        let Octets { bytes } = self;
        bytes
    }

    /// All the bytes.
    pub fn bytes(&self) -> &[u8]
        ensures { result.now ≡ self.now }
    {
        self.bytes.as_slice()
    }
}
