ghost use Rattle.std.specs.Prelude.{◌≡◌, Some};

use crate::memory::schedule::Schedule;
use crate::shelves::Draft;
use st_base::{Failed, Octets, Sink};
use st_disk::Kind;

/// A draft of a shelf in memory. Its bytes are known.
pub struct MemDraft {
    pub(crate) kind: Kind,
    pub(crate) number: u64,
    pub(crate) bytes: Vec<u8>,
    pub(crate) faults: u64,
    pub(crate) schedule: Schedule,
}

/// A sealed file of a shelf in memory. Its bytes are known.
pub struct MemSealed {
    pub(crate) kind: Kind,
    pub(crate) number: u64,
    pub(crate) bytes: Octets,
    pub(crate) faults: u64,
    pub(crate) schedule: Schedule,
}

impl Sink for MemDraft {
    ghost use Rattle.st_shelf.specs.Origins.{DraftOrigin};

    ghost Beside = { DraftOrigin };

    ghost written = { λ d. Some d.bytes.items };

    ghost faults = { λ d. d.faults };

    ghost beside = { λ d. record { kind = d.kind; number = d.number; home = 0 } };

    fn write(&mut self, bytes: &[u8]) -> Result<usize, Failed> {
        if self.schedule.fails() || self.bytes.extend_from_slice(bytes).is_err() {
            self.faults = self.faults.saturating_add(1);
            return Err(Failed);
        }
        Ok(bytes.len())
    }
}

impl Draft for MemDraft {
    type Sealed = MemSealed;

    ghost origin = { λ d. record { kind = d.kind; number = d.number; home = 0 } };

    ghost sealed_origin = { λ s. record { kind = s.kind; number = s.number; home = 0 } };

    ghost sealed_bytes = { λ s. Some s.bytes };

    ghost sealed_faults = { λ s. s.faults };

    ghost keeps = { λ a b same. same };

    fn seal(mut self) -> Result<MemSealed, MemDraft> {
        if self.schedule.fails() {
            self.faults = self.faults.saturating_add(1);
            return Err(self);
        }
        let MemDraft {
            kind,
            number,
            bytes,
            faults,
            schedule,
        } = self;
        Ok(MemSealed {
            kind,
            number,
            bytes: Octets::of(bytes),
            faults,
            schedule,
        })
    }
}
