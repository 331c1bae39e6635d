// A file of a shelf that is open for reading, with its name.
ghost use Rattle.std.specs.Prelude.{Option, None};

use st_base::PlacedBytes;
use st_shelf::Name;
use std::fs::File;
use std::io;
use std::os::unix::fs::FileExt;

/// A file in a file system, open for reading, and the name under which it was opened. Its bytes
/// are not known.
#[derive(Drop)]
pub struct NamedFile {
    pub(crate) name: Name,
    pub(crate) file: File,
}

impl PlacedBytes for NamedFile {
    ghost content = { λ f. None };

    ghost fails = { λ f. None };

    fn fill_at(&self, place: u64, out: &mut [u8]) -> io::Result<()> {
        self.file.read_exact_at(out, place)
    }
}
