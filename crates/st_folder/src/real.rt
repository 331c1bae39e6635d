// The shelf in a folder of the machine's file system.
mod digits;
mod draft;
mod failures;
mod folders;
mod lines;
mod named_file;
mod names;
mod retries;
mod shelf;

pub use draft::{RealDraft, RealSealed};
pub use failures::{Failure, Place};
pub use lines::failure_line;
pub use named_file::NamedFile;
pub use shelf::{RealFile, RealShelf};
