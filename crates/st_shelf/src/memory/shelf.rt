ghost use Rattle.std.specs.Prelude.{Option, ◌≡◌, ◌≤◌, ◌+◌, ◌⊎◌, ◌<◌, ℕ, List, [], None, Some, IfOk, OnOk, OnErr, IfErr};
ghost use Rattle.st_base.specs.Faults.{Rose, HasCause};
ghost use Rattle.st_disk.specs.declared.changes.Call.TheVariants as call;
ghost use Rattle.st_disk.specs.declared.changes.Change.TheVariants as change;
ghost use Rattle.st_disk.specs.declared.naming.Name.TheVariants as name;
ghost use Rattle.st_disk.specs.Names.{published};
ghost use Rattle.st_disk.specs.Disks.{Log, moment as moments, reads, log_of};
ghost use Rattle.st_disk.specs.Crashes.{IsCrash};
ghost use Rattle.st_disk.specs.LoggedCalls.{Looks, Adds, Does, Abandons, removal};
ghost use Rattle.st_shelf.specs.Loans.{no_loans};
ghost use Rattle.st_shelf.specs.Origins.{draft_name};
ghost use Rattle.st_shelf.specs.Ends.{end_origin, end_faults, TakesFaults};

use crate::lent_file::{CameBack, LentFile};
use crate::loans::Loans;
use crate::memory::draft::{MemDraft, MemSealed};
use crate::memory::file::MemFile;
use crate::memory::schedule::Schedule;
use crate::shelves::{Draft, End, ListErr, Shelf};
use st_base::{Failed, NoMemory, Octets};
use st_disk::{Book, Full, Kind, Name, Names, kind_of_name, number_of_name};
use std::alloc::Global;

/// A shelf in memory. Its log is known and kept whole, so that a crash at any moment can be tried.
///
/// A call that runs out of memory fails like one that the disk fails. So does one that would be a
/// moment more than a u64 numbers.
#[derive(Drop)]
pub struct MemShelf {
    alloc: Global,
    pub(crate) book: Book,
    schedule: Schedule,
    faults: u64,
    loans: Loans,
}

impl MemShelf {
    /// An empty shelf on which a call fails only if memory runs out.
    pub fn empty(alloc: Global) -> MemShelf
        ensures log { ⟦<MemShelf as Shelf>⟧.log result ≡ Some (log_of [] [] []) }
        ensures counts { (⟦<MemShelf as Shelf>⟧.faults result ≡ 0)
            × (⟦<MemShelf as Shelf>⟧.loans result ≡ no_loans) }
    {
        MemShelf::over(alloc, Book::empty(alloc), Schedule::none())
    }

    /// An empty shelf that fails at the calls that it is given. Each call of the shelf, of its
    /// drafts and of its files has a number, the first of them 0; those in `fails` fail, and all
    /// from `stop` on.
    pub fn with(alloc: Global, fails: &[u64], stop: Option<u64>) -> Result<MemShelf, NoMemory>
        ensures log { IfOk result (λ s. ⟦<MemShelf as Shelf>⟧.log s ≡ Some (log_of [] [] [])) }
        ensures counts { IfOk result (λ s. (⟦<MemShelf as Shelf>⟧.faults s ≡ 0)
            × (⟦<MemShelf as Shelf>⟧.loans s ≡ no_loans)) }
    {
        match Schedule::of(alloc, fails, stop) {
            Ok(schedule) => Ok(MemShelf::over(alloc, Book::empty(alloc), schedule)),
            Err(error) => Err(error),
        }
    }

    /// The shelf that a crash after the first `moment` of this shelf's own calls may leave, with
    /// no call made yet and all of it flushed.
    ///
    /// The changes that were not flushed by then are numbered from 0, those of the block folder
    /// first; change i is made if and only if bit i of `choice` is set.
    pub fn crash(&self, alloc: Global, moment: u64, choice: u64) -> Result<MemShelf, NoMemory>
        requires { (log : Log) → ⟦<MemShelf as Shelf>⟧.log self.now ≡ Some log
            → moment ≤ moments log }
        ensures image { (log : Log) → ⟦<MemShelf as Shelf>⟧.log self.now ≡ Some log
            → IfOk result (λ s. (new : Log) × (⟦<MemShelf as Shelf>⟧.log s ≡ Some new)
            × IsCrash log moment choice new) }
        ensures counts { IfOk result (λ s. (⟦<MemShelf as Shelf>⟧.faults s ≡ 0)
            × (⟦<MemShelf as Shelf>⟧.loans s ≡ no_loans)) }
    {
        match self.book.crash(alloc, moment, choice) {
            Ok(book) => Ok(MemShelf::over(alloc, book, Schedule::none())),
            Err(error) => Err(error),
        }
    }

    /// How many of the shelf's own calls were made, failed ones and `close` too.
    pub fn moments(&self) -> u64
        ensures { (log : Log) → ⟦<MemShelf as Shelf>⟧.log self.now ≡ Some log
            → result ≡ moments log }
    {
        self.book.moments()
    }

    /// The greatest number of files that were out at once.
    pub fn peak_lent(&self) -> u64
        ensures { result ≡ (⟦<MemShelf as Shelf>⟧.loans self.now).peak }
    {
        self.loans.peak()
    }

    /// How many calls of the shelf, its drafts and its files were made; 0 for a shelf of `empty`.
    pub fn calls(&self) -> u64 {
        self.schedule.calls()
    }

    fn over(alloc: Global, book: Book, schedule: Schedule) -> MemShelf
        ensures book { result.book ≡ book }
        ensures counts { (result.faults ≡ 0) × (result.loans ≡ no_loans) }
    {
        MemShelf {
            alloc,
            book,
            schedule,
            faults: 0,
            loans: Loans::none(),
        }
    }

    // A call that failed, which is one moment more.
    fn fail(&mut self) -> Failed
        ensures log { Looks (Some self.old.book) (Some self.new.book) }
        ensures rose { (self.old.faults ≤ self.new.faults) × Rose self.old.faults self.new.faults }
        ensures loans { self.new.loans ≡ self.old.loans }
    {
        let _ = self.book.look();
        self.faults = self.faults.saturating_add(1);
        Failed
    }
}

impl Shelf for MemShelf {
    type Draft = MemDraft;

    type File = LentFile<MemFile>;

    ghost use Rattle.st_shelf.specs.Origins.{FileOrigin};
    ghost use Rattle.std.proofs.Common.{refl};

    ghost id = { λ s. 0 };

    ghost log = { λ s. Some s.book };

    ghost faults = { λ s. s.faults };

    ghost loans = { λ s. s.loans };

    ghost file_origin = { λ f. record { kind = f.kind; home = 0 } };

    ghost drafts_known = { λ shelf l d known. refl };

    ghost sealed_known = { λ shelf l s known. refl };

    ghost files_known = { λ shelf l f known. refl };

    ghost keeps = { λ a b same. same };

    fn create(&mut self, kind: Kind) -> Result<MemDraft, Failed> {
        if self.schedule.fails() {
            return Err(self.fail());
        }
        let Ok(schedule) = self.schedule.share() else {
            return Err(self.fail());
        };
        match self.book.make(self.alloc, kind) {
            Ok(number) => Ok(MemDraft {
                kind,
                number,
                bytes: Vec::new(self.alloc),
                faults: 0,
                schedule,
            }),
            Err(_) => Err(self.fail()),
        }
    }

    fn settle(&mut self, sealed: MemSealed, name: Name) -> Result<(), MemSealed> {
        let MemSealed {
            kind,
            number: draft,
            bytes,
            faults,
            schedule,
        } = sealed;
        let stamp = number_of_name(name);
        let bytes = match self.put_under(kind, draft, stamp, bytes) {
            Ok(()) => return Ok(()),
            Err(bytes) => bytes,
        };
        Err(MemSealed {
            kind,
            number: draft,
            bytes,
            faults,
            schedule,
        })
    }

    fn hide(&mut self, stamp: u64) -> Result<(), Failed> {
        if self.schedule.fails() {
            return Err(self.fail());
        }
        match self.book.hide(self.alloc, stamp) {
            Ok(()) => Ok(()),
            Err(_) => Err(self.fail()),
        }
    }

    fn remove(&mut self, name: Name) -> Result<(), Failed> {
        if self.schedule.fails() {
            return Err(self.fail());
        }
        match self.book.remove(self.alloc, name) {
            Ok(()) => Ok(()),
            Err(_) => Err(self.fail()),
        }
    }

    fn flush(&mut self, kind: Kind) -> Result<(), Failed> {
        if self.schedule.fails() {
            return Err(self.fail());
        }
        match self.book.flush(kind) {
            Ok(()) => Ok(()),
            Err(_) => Err(self.fail()),
        }
    }

    fn list(&mut self, alloc: Global) -> Result<Names, ListErr> {
        if self.schedule.fails() {
            self.fail();
            return Err(ListErr::DiskFault);
        }
        let Ok(names) = self.book.list(alloc) else {
            let _ = self.book.look();
            return Err(ListErr::NoMemory);
        };
        match self.book.look() {
            Ok(()) => Ok(names),
            Err(Full) => {
                self.fail();
                Err(ListErr::DiskFault)
            }
        }
    }

    fn reader(&mut self, name: Name) -> Result<LentFile<MemFile>, Failed> {
        if self.schedule.fails() {
            return Err(self.fail());
        }
        let Ok(schedule) = self.schedule.share() else {
            return Err(self.fail());
        };
        let Ok(content) = self.book.copy_of(self.alloc, name) else {
            return Err(self.fail());
        };
        if let Err(Full) = self.book.look() {
            return Err(self.fail());
        }
        let file = MemFile {
            content,
            reads: 0,
            asked: 0,
            faults: 0,
            schedule,
        };
        self.loans.lend();
        Ok(LentFile::lend(kind_of_name(name), file))
    }

    fn close(&mut self, file: LentFile<MemFile>) {
        let failed = self.schedule.fails();
        let _ = self.book.look();
        let CameBack {
            kind,
            reads,
            asked,
            faults,
        } = file.come_back();
        if failed || faults > 0 {
            self.faults = self.faults.saturating_add(1);
        }
        self.loans.take_back(kind, reads, asked);
    }

    fn abandon(&mut self, end: End<MemDraft>)
        requires { (end_origin (λ d. record { kind = d.kind; number = d.number; home = 0 })
            (λ s. record { kind = s.kind; number = s.number; home = 0 }) end).home ≡ 0 }
        ensures log { Abandons (Some self.old.book) (Some self.new.book)
            (draft_name (end_origin (λ d. record { kind = d.kind; number = d.number; home = 0 })
            (λ s. record { kind = s.kind; number = s.number; home = 0 }) end))
            (end_faults (λ d. d.faults) (λ s. s.faults) end) self.old.faults self.new.faults }
        ensures cause { TakesFaults (end_faults (λ d. d.faults) (λ s. s.faults) end)
            self.old.faults self.new.faults }
        ensures loans { self.new.loans ≡ self.old.loans }
    {
        match end {
            End::Unsealed(
                MemDraft {
                    kind,
                    number,
                    bytes: _bytes,
                    faults,
                    schedule: _schedule,
                },
            ) => self.give_up(kind, number, faults),
            End::Sealed(
                MemSealed {
                    kind,
                    number,
                    bytes: _bytes,
                    faults,
                    schedule: _schedule,
                },
            ) => self.give_up(kind, number, faults),
        }
    }

    fn fault_count(&self) -> u64 {
        self.faults
    }
}

impl MemShelf {
    // Renames a draft to its name, or gives its bytes back.
    fn put_under(&mut self, kind: Kind, draft: u64, stamp: u64, bytes: Octets) -> Result<(), Octets>
        // the log
        ensures log { Does (Some self.old.book) (Some self.new.book) result
            (λ _. call.Did (change.Settle kind draft stamp bytes)) }
        ensures there { OnOk result (reads self.new.book (published kind stamp) ≡ Some bytes) }
        // the bytes
        ensures back { IfErr result (λ b. b ≡ bytes) }
        // the counts
        ensures cause { HasCause self.old.faults self.new.faults result }
        ensures loans { self.new.loans ≡ self.old.loans }
    {
        if self.schedule.fails() {
            self.fail();
            return Err(bytes);
        }
        match self.book.settle(self.alloc, kind, draft, stamp, bytes) {
            Ok(()) => Ok(()),
            Err(bytes) => {
                self.fail();
                Err(bytes)
            }
        }
    }

    // Takes a draft back that had so many faults.
    fn give_up(&mut self, kind: Kind, number: u64, faults: u64)
        ensures log { Abandons (Some self.old.book) (Some self.new.book) (name.Draft kind number)
            faults self.old.faults self.new.faults }
        ensures cause { TakesFaults faults self.old.faults self.new.faults }
        ensures loans { self.new.loans ≡ self.old.loans }
    {
        if faults > 0 {
            self.faults = self.faults.saturating_add(1);
        }
        let _ = self.remove(Name::Draft { kind, number });
    }
}
