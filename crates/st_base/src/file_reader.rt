ghost use Rattle.std.specs.Prelude.{Option, Bool, ◌≡◌, ◌+◌, ◌-◌, ◌^◌, ◌≤◌, ◌<◌, ℕ, min, List, length, take, None, OnOk};
ghost use Rattle.st_base.specs.Faults.{HasCause, CountsOne, CountsOn};
ghost use Rattle.st_base.specs.PlacedReads.{HasPart, ReadsAt, FailsAsKnown};
ghost use Rattle.st_base.specs.KnownLength.{of_length};

use crate::failures::{Call, CallFailure, Failed};
use crate::readers::Reader;
use std::fs::File;
use std::io;
use std::os::unix::fs::FileExt;

/// A file whose bytes are read at places, without a position of its own.
///
/// `content` is its bytes, if they are known, and `fails` says at which place it fails to give how
/// many bytes, if that is known. Of a file of the machine neither is.
pub trait PlacedBytes {
    ghost content: { Self → Option (List ℕ) };

    ghost fails: { Self → Option (ℕ → ℕ → Bool) };

    /// Fills `out` with the bytes from `place`, an offset in bytes. A read that a signal broke off
    /// is made again.
    fn fill_at(&self, place: u64, out: &mut [u8]) -> io::Result<()>
        ensures bytes { OnOk result (HasPart (content self.now) place out.new) }
        ensures fails { FailsAsKnown (fails self.now) place (length out.old) result };
}

impl PlacedBytes for File {
    ghost content = { λ f. None };

    ghost fails = { λ f. None };

    fn fill_at(&self, place: u64, out: &mut [u8]) -> io::Result<()> {
        self.read_exact_at(out, place)
    }
}

/// A file of the machine that is read at places, each read by one system call and nothing ahead.
/// It keeps its first failure.
///
/// Its size is the one that it was handed in with, and a file that turns out shorter fails. Its
/// content is known if the file's is and has that size, which is never so for a file of the
/// machine.
#[derive(Drop)]
pub struct FileReader<F = File> {
    file: F,
    size: u64,
    reads: u64,
    asked: u64,
    faults: u64,
    failure: Option<CallFailure>,
}

impl<F> FileReader<F> {
    /// A reader over an open file of `size` bytes.
    pub fn over(file: F, size: u64) -> FileReader<F>
        ensures file { result.file ≡ file }
        ensures size { result.size ≡ size }
        ensures counts { (result.reads ≡ 0) × (result.asked ≡ 0) × (result.faults ≡ 0) }
    {
        FileReader {
            file,
            size,
            reads: 0,
            asked: 0,
            faults: 0,
            failure: None,
        }
    }

    /// The file.
    pub fn file(&self) -> &F
        ensures { result.now ≡ self.now.file }
    {
        &self.file
    }

    /// The first failure of the file that was counted.
    pub fn failure(&self) -> Option<CallFailure> {
        self.failure
    }
}

impl<F: PlacedBytes> Reader for FileReader<F> {
    ghost use Rattle.st_base.specs.KnownLength.{sized_of_length};

    ghost Beside = { Unit {0} };

    ghost content = { λ r. of_length r.size (F.content r.file) };

    ghost extent = { λ r. r.size };

    ghost faults = { λ r. r.faults };

    ghost reads = { λ r. r.reads };

    ghost asked = { λ r. r.asked };

    ghost beside = { λ r. tt };

    ghost sized = { λ r bytes same. sized_of_length r.size (F.content r.file) bytes same };

    fn size(&self) -> u64 {
        self.size
    }

    fn read_at(&mut self, place: u64, out: &mut [u8]) -> Result<usize, Failed>
        // What every reader gives.
        ensures bytes { ReadsAt (of_length self.old.size (F.content self.old.file))
            self.old.size place result out.new }
        ensures cause { HasCause self.old.faults self.new.faults result }
        ensures reads { CountsOn self.old.reads self.new.reads 1 }
        ensures asked { CountsOn self.old.asked self.new.asked (length out.old) }

        // It fails if and only if the file does, and counts one fault then.
        ensures same { (self.new.file ≡ self.old.file) × (self.new.size ≡ self.old.size) }
        ensures fails { FailsAsKnown (F.fails self.old.file) place
            (min (length out.old) (self.old.size - place)) result }
        ensures fault { CountsOne self.old.faults self.new.faults result }
    {
        self.reads = self.reads.saturating_add(1);
        self.asked = self.asked.saturating_add(out.len() as u64);
        let left = self.size.saturating_sub(place);
        let wanted = (out.len() as u64).min(left) as usize;
        match self.file.fill_at(place, out.split_at_mut(wanted).0) {
            Ok(()) => Ok(wanted),
            Err(error) => {
                let call = Call::Read;
                self.faults = self.faults.saturating_add(1);
                self.failure = self.failure.or(Some(CallFailure { call, error }));
                Err(Failed)
            }
        }
    }
}
