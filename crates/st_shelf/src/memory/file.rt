ghost use Rattle.std.specs.Prelude.{◌≡◌, Some, length, drop};

use crate::memory::schedule::Schedule;
use st_base::{Failed, Octets, Reader};

/// The content of a file that a shelf in memory has lent, which is known.
#[derive(Drop)]
pub struct MemFile {
    pub(crate) content: Octets,
    pub(crate) reads: u64,
    pub(crate) asked: u64,
    pub(crate) faults: u64,
    pub(crate) schedule: Schedule,
}

impl Reader for MemFile {
    ghost use Rattle.std.specs.Prelude.{Some, length};
    ghost use Rattle.std.proofs.Common.{rules};

    ghost Beside = { Unit {0} };

    ghost content = { λ f. Some f.content };

    ghost extent = { λ f. length f.content };

    ghost faults = { λ f. f.faults };

    ghost reads = { λ f. f.reads };

    ghost asked = { λ f. f.asked };

    ghost beside = { λ f. tt };

    ghost sized = { λ f bytes same. Prim.search rules };

    fn size(&self) -> u64 {
        self.content.bytes().len() as u64
    }

    fn read_at(&mut self, place: u64, out: &mut [u8]) -> Result<usize, Failed> {
        self.reads = self.reads.saturating_add(1);
        self.asked = self.asked.saturating_add(out.len() as u64);
        if self.schedule.fails() {
            self.faults = self.faults.saturating_add(1);
            return Err(Failed);
        }
        let rest = rest_from(self.content.bytes(), place);
        let taken = rest.len().min(out.len());
        out.split_at_mut(taken)
            .0
            .copy_from_slice(rest.split_at(taken).0);
        Ok(taken)
    }
}

// The bytes from `place` on: none if it is past the end.
fn rest_from(bytes: &[u8], place: u64) -> &[u8]
    ensures { result.now ≡ drop place bytes.now }
{
    let at = (place as u128).min(bytes.len() as u128) as usize;
    bytes.split_at(at).1
}
