ghost use Rattle.std.specs.Prelude.{◌≡◌, ◌≤◌, ◌*◌, List, ℕ, Some, IfOk, IfErr, IfSome, OnErr};
ghost use Rattle.st_base.specs.Faults.{CountsOn, HasCauseOf};
ghost use Rattle.st_base.specs.PlacedReads.{IsSameFile};
ghost use Rattle.st_block.specs.ScanView.{IsNotDamage, ReadsOnce};
ghost use Rattle.st_block.specs.Scan.{PositionedRecord, IsFile, HasGiven, GivesNext, Follows, StaysStopped, start_reads, Enters};

mod block;
mod block_fields;
mod layout;
mod start;
mod state;
#[cfg(test)]
mod tests;

use crate::errors::{BlockErr, HeadErr};
use crate::format::{MIN_BLOCK, START};
use crate::scan::start::enter;
use crate::scan::state::ScanState;
use st_base::{Reader, Record};
use std::alloc::Global;

/// What a scan keeps of how far it has come; `end` is how many bytes its file has at least.
pub trait Reaching {
    ghost end: { Self → ℕ };
}

impl Reaching for ScanState {
    ghost end = { λ p. p.size * p.blocks };
}

/// A scan of a block file: gives its records in their order, each with its position, and finds the
/// first check that fails.
///
/// It holds the file, and one block of it at a time. Contracts see how far it has come, its
/// `state`, as a `ScanView`; which records of which bytes it has given is said by `HasGiven` of
/// `specs/Scan.antt`. The type of the state is a parameter, which is always `ScanState`: so the
/// drop can say that the file stays, which it can't of a struct whose own fields hold memory.
/// Source: docs/FORMAT.md, "Block file", "What a scan of the whole file checks".
pub struct Scan<'a, R: Reader, C: Reaching = ScanState> {
    file: &'a mut R,
    state: C,
    ghost inside: { C.end state ≤ R.extent file.now },
}

impl<R: Reader, C: Reaching + Drop> Drop for Scan<'_, R, C> {
    fn drop(self)
        ensures { self.exit.0.now ≡ self.entry.file.now }
    {
        let Scan {
            file: _file,
            state: _state,
        } = self;
    }
}

impl<'a, R: Reader> Scan<'a, R> {
    /// A scan over `file`, which gives nothing before it is entered. It reads nothing and takes no
    /// memory.
    pub fn over(file: &'a mut R) -> Scan<'a, R>
        ensures same_reference { result.file.ghost_name ≡ file.entry.ghost_name }
        ensures same { result.file.now ≡ file.old }
    {
        Scan {
            file,
            state: ScanState::new(MIN_BLOCK, 0),
        }
    }

    /// Enters the file: checks its layout version, its block size and its length, by one read of
    /// eight bytes, and goes to its first record. It takes no memory.
    ///
    /// `Damaged` comes if and only if one of these checks fails, and is the first of them that
    /// does. `ReadFault` comes only if the file's `faults` rose in this call. After either the scan
    /// is unchanged.
    pub fn enter(&mut self) -> Result<(), HeadErr>
        // what comes, where the file's bytes are known, and where the scan then is
        ensures enters { (bytes : List ℕ) → R.content self.old.file.now ≡ Some bytes
            → Enters bytes self.new.state result }
        ensures whole { (bytes : List ℕ) (rs : List PositionedRecord)
            → R.content self.old.file.now ≡ Some bytes
            → IsFile bytes rs → IfErr result (λ e. e ≡ HeadErr.ReadFault) }
        ensures err { OnErr result (self.new.state ≡ self.old.state) }
        // what the file was asked
        ensures reads { CountsOn (R.reads self.old.file.now) (R.reads self.new.file.now)
            (start_reads (R.extent self.old.file.now)) }
        ensures asked { CountsOn (R.asked self.old.file.now) (R.asked self.new.file.now)
            (START * start_reads (R.extent self.old.file.now)) }
        // what becomes of the file
        ensures same_reference { self.new.file.ghost_name ≡ self.old.file.ghost_name }
        ensures cause { HasCauseOf HeadErr.ReadFault
            (R.faults self.old.file.now) (R.faults self.new.file.now) result }
        ensures same { IsSameFile (R.content self.old.file.now) (R.content self.new.file.now)
            (R.extent self.old.file.now) (R.extent self.new.file.now)
            (R.beside self.old.file.now) (R.beside self.new.file.now) }
    {
        match enter(self.file) {
            Ok(state) => {
                self.state = state;
                Ok(())
            }
            Err(error) => Err(error),
        }
    }

    /// The next record with its position, or `None` at the file's end. A record is given only of a
    /// block that was checked whole.
    ///
    /// It keeps the memory of one block; each record's body is one allocation. A call reads one
    /// block at most, and over the whole scan each block is read once, unless a read of it fails.
    /// Of a scan that was entered, `None` comes only if the file is the text of the records given.
    /// `Damaged` is the first check of the file that fails; every later call answers it again, and
    /// reads nothing. `ReadFault` comes only if the file's `faults` rose in
    /// this call, `NoMemory` may come if the scan runs out of memory; after either the scan is
    /// where it was, and the next call tries again.
    pub fn next(&mut self, alloc: Global) -> Result<Option<(u32, Record)>, BlockErr>
        // what comes, where the file's bytes are known, and how far the scan has come then
        ensures gives { (bytes : List ℕ) (given : List PositionedRecord)
            → R.content self.old.file.now ≡ Some bytes
            → HasGiven self.old.state bytes given → GivesNext bytes given self.new.state result }
        ensures whole { (bytes : List ℕ) (given rs : List PositionedRecord)
            → R.content self.old.file.now ≡ Some bytes → IsFile bytes rs
            → HasGiven self.old.state bytes given → IfErr result IsNotDamage }
        ensures stopped { StaysStopped self.old.state self.new.state
            self.old.file.now self.new.file.now result }
        // how far it goes, by which a caller's loop ends
        ensures follows { IfOk result (λ o. IfSome o (Follows self.old.state self.new.state)) }
        // what the file was asked
        ensures reads { ReadsOnce self.old.state self.new.state result
            (R.reads self.old.file.now) (R.reads self.new.file.now)
            (R.asked self.old.file.now) (R.asked self.new.file.now) }
        // what becomes of the file
        ensures same_reference { self.new.file.ghost_name ≡ self.old.file.ghost_name }
        ensures cause { HasCauseOf BlockErr.ReadFault
            (R.faults self.old.file.now) (R.faults self.new.file.now) result }
        ensures same { IsSameFile (R.content self.old.file.now) (R.content self.new.file.now)
            (R.extent self.old.file.now) (R.extent self.new.file.now)
            (R.beside self.old.file.now) (R.beside self.new.file.now) }
    {
        self.state.next_in(alloc, self.file)
    }
}
