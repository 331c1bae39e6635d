ghost use Rattle.std.specs.Prelude.{◌≡◌, None};

use st_base::{Call, CallFailure, Failed, Sink, StreamSink};
use st_shelf::{Draft, Kind};
use std::fs::File;

/// A draft in a file system: a hidden file that is open for writing. Its bytes are not known.
pub struct RealDraft {
    pub(crate) kind: Kind,
    pub(crate) number: u64,
    pub(crate) sink: StreamSink<File>,
}

/// A sealed file in a file system: its bytes are on the disk, its name is still a draft's.
pub struct RealSealed {
    pub(crate) kind: Kind,
    pub(crate) number: u64,
    pub(crate) own: OwnFaults,
}

/// How many calls of the system failed for a draft, and the first of them.
#[derive(Clone, Copy)]
pub(crate) struct OwnFaults {
    pub(crate) count: u64,
    pub(crate) first: Option<CallFailure>,
}

impl Sink for RealDraft {
    ghost use Rattle.st_shelf.specs.Origins.{DraftOrigin};

    ghost Beside = { DraftOrigin };

    ghost written = { λ d. None };

    ghost faults = { λ d. d.sink.faults };

    ghost beside = { λ d. record { kind = d.kind; number = d.number; home = 0 } };

    fn write(&mut self, bytes: &[u8]) -> Result<usize, Failed> {
        self.sink.write(bytes)
    }
}

impl Draft for RealDraft {
    type Sealed = RealSealed;

    ghost origin = { λ d. record { kind = d.kind; number = d.number; home = 0 } };

    ghost sealed_origin = { λ s. record { kind = s.kind; number = s.number; home = 0 } };

    ghost sealed_bytes = { λ s. None };

    ghost sealed_faults = { λ s. s.own.count };

    ghost keeps = { λ a b same. same };

    fn seal(mut self) -> Result<RealSealed, RealDraft> {
        if let Err(error) = self.sink.writer().sync_data() {
            self.sink.fail(Call::Sync, error);
            return Err(self);
        }
        let RealDraft { kind, number, sink } = self;
        let own = own_faults(&sink);
        Ok(RealSealed { kind, number, own })
    }
}

// What a draft's sink counted and kept.
pub(crate) fn own_faults(sink: &StreamSink<File>) -> OwnFaults
    ensures { result.count ≡ sink.now.faults }
{
    OwnFaults {
        count: sink.fault_count(),
        first: sink.failure(),
    }
}
