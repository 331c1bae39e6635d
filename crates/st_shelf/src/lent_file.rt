ghost use Rattle.std.specs.Prelude.{◌≡◌};

use st_base::{Failed, Reader};
use st_disk::Kind;

/// A file that a shelf has lent: a reader, and the kind that it was lent under. It must be spent,
/// by `close` of its shelf.
///
/// It counts its reads, the bytes that they asked for and its faults by itself, from 0 on.
pub struct LentFile<R> {
    kind: Kind,
    file: R,
    reads: u64,
    asked: u64,
    faults: u64,
}

/// What a shelf counts of a file that came back: its kind, how often it was read, for how many
/// bytes, and its faults.
#[derive(Clone, Copy, Debug, PartialEq, Eq)]
pub struct CameBack {
    pub kind: Kind,
    pub reads: u64,
    pub asked: u64,
    pub faults: u64,
}

impl<R> LentFile<R> {
    /// Lends `file` as one of this kind, read by nobody yet.
    pub fn lend(kind: Kind, file: R) -> LentFile<R>
        ensures kind { result.kind ≡ kind }
        ensures file { result.file ≡ file }
        ensures counts { (result.reads ≡ 0) × (result.asked ≡ 0) × (result.faults ≡ 0) }
    {
        LentFile {
            kind,
            file,
            reads: 0,
            asked: 0,
            faults: 0,
        }
    }

    /// The reader.
    pub fn file(&self) -> &R
        ensures { result.now ≡ self.now.file }
    {
        &self.file
    }
}

impl<R: Drop> LentFile<R> {
    /// What its shelf counts of the file, which is closed.
    pub fn come_back(self) -> CameBack
        ensures kind { result.kind ≡ self.kind }
        ensures counts { (result.reads ≡ self.reads) × (result.asked ≡ self.asked)
            × (result.faults ≡ self.faults) }
    {
        let LentFile {
            kind,
            file: _file,
            reads,
            asked,
            faults,
        } = self;
        CameBack {
            kind,
            reads,
            asked,
            faults,
        }
    }
}

impl<R: Reader> Reader for LentFile<R> {
    ghost use Rattle.st_shelf.specs.Origins.{FileOrigin};

    ghost Beside = { FileOrigin };

    ghost content = { λ f. R.content f.file };

    ghost extent = { λ f. R.extent f.file };

    ghost faults = { λ f. f.faults };

    ghost reads = { λ f. f.reads };

    ghost asked = { λ f. f.asked };

    ghost beside = { λ f. record { kind = f.kind; home = 0 } };

    ghost sized = { λ f bytes same. R.sized f.file bytes same };

    fn size(&self) -> u64 {
        self.file.size()
    }

    fn read_at(&mut self, place: u64, out: &mut [u8]) -> Result<usize, Failed> {
        self.reads = self.reads.saturating_add(1);
        self.asked = self.asked.saturating_add(out.len() as u64);
        match self.file.read_at(place, out) {
            Ok(taken) => Ok(taken),
            Err(error) => {
                self.faults = self.faults.saturating_add(1);
                Err(error)
            }
        }
    }
}
