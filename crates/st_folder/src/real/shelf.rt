ghost use Rattle.std.specs.Prelude.{Option, ◌≡◌, ◌≤◌, ◌+◌, ◌-◌, ◌^◌, ◌⊎◌, ◌<◌, ◌↔◌, ℕ, List, None, Some, Ok, min, IsErr, IsSome, IfOk, MatchOption, MatchResult, string_bytes};
ghost use Rattle.st_base.specs.Faults.{Rose, HasCause, CountsOne, next_count};
ghost use Rattle.st_disk.specs.LoggedCalls.{Abandons};
ghost use Rattle.st_shelf.specs.Loans.{no_loans};
ghost use Rattle.st_shelf.specs.Origins.{draft_name};
ghost use Rattle.st_shelf.specs.Ends.{end_origin, end_faults, TakesFaults};
ghost use Rattle.st_folder.specs.Counting.{IsLeftAlone, SettlesUp};
ghost use Rattle.st_folder.specs.Failures.{add_fault};
ghost use Rattle.st_folder.specs.FailureLines.{IsLineOf};

use crate::real::draft::{OwnFaults, RealDraft, RealSealed, own_faults};
use crate::real::failures::{Failure, Faults, Place, at};
use crate::real::folders::{RealFolders, create_file, read_names};
use crate::real::lines::{failure_line, path_of_place};
use crate::real::named_file::NamedFile;
use crate::real::names::path_of;
use crate::real::retries::again;
use st_base::{Call, CallFailure, Failed, FileReader, NoMemory, Reader, StreamSink};
use st_disk::{kind_of_name, sorted_names};
use st_shelf::{CameBack, Draft, End, Kind, LentFile, ListErr, Loans, Name, Names, Shelf};
use std::alloc::{AllocError, Global};
use std::fs::File;
use std::io::ErrorKind;
use std::rt::HostRuntime;
use std::{fs, io};

/// A file that a shelf in a file system has lent. Its bytes are not known.
pub type RealFile = LentFile<FileReader<NamedFile>>;

/// A shelf in a folder of the machine's file system. Its content is not known.
///
/// Its first call makes the folders that aren't there and takes an exclusive advisory lock on the
/// spool folder, which the shelf keeps to its end; until that succeeds each call is a fault. A call
/// that runs out of memory for a path is a fault too.
/// Source: docs/FORMAT.md, "Folders and names".
#[derive(Drop)]
pub struct RealShelf {
    rt: HostRuntime,
    alloc: Global,
    root: String,
    folders: Option<RealFolders>,
    faults: Faults,
    loans: Loans,
}

impl RealShelf {
    /// A shelf in the folder `path`, which is not touched before the first call.
    pub fn at(rt: &HostRuntime, alloc: Global, path: &str) -> Result<RealShelf, NoMemory>
        ensures faults { IfOk result (λ s. ⟦<RealShelf as Shelf>⟧.faults s ≡ 0) }
        ensures loans { IfOk result (λ s. ⟦<RealShelf as Shelf>⟧.loans s ≡ no_loans) }
    {
        match String::from_str(alloc, path) {
            Ok(root) => Ok(RealShelf {
                rt: *rt,
                alloc,
                root,
                folders: None,
                faults: Faults::none(),
                loans: Loans::none(),
            }),
            Err(_) => Err(NoMemory),
        }
    }

    /// The failure of the first fault that was counted: there is one if and only if the count of
    /// faults is not 0.
    pub fn failure(&self) -> Option<Failure>
        ensures { IsSome result ↔ (0 < ⟦<RealShelf as Shelf>⟧.faults self.now) }
    {
        self.faults.first()
    }

    /// The line that names the first failure's call, its path and the system's words for it.
    pub fn failure_line(&self, alloc: Global) -> Result<Option<String>, AllocError>
        ensures { IfOk result (λ line. MatchOption line (self.now.faults.first ≡ None)
            (λ text. IsLineOf (string_bytes self.now.root) self.now.faults.first
            (string_bytes text))) }
    {
        let Some(failure) = self.faults.first() else {
            return Ok(None);
        };
        let path = path_of_place(alloc, self.root.as_str(), failure.place)?;
        let line = failure_line(alloc, path.as_str(), failure.failed)?;
        Ok(Some(line))
    }

    // The spool folder itself.
    fn way(&self) -> Place {
        Place::Way(self.root.len())
    }

    // Counts one fault, and keeps its failure if it is the first.
    fn count_fault(&mut self, failure: Failure)
        ensures faults { self.new.faults ≡ add_fault self.old.faults failure }
        ensures rose { (self.old.faults.count ≤ self.new.faults.count)
            × Rose self.old.faults.count self.new.faults.count }
        ensures loans { self.new.loans ≡ self.old.loans }
    {
        self.faults.add(failure);
    }

    // Counts one fault if a call of the system failed.
    fn counted<T: Drop>(&mut self, done: Result<T, Failure>) -> Result<T, Failed>
        ensures done { IfOk result (λ value. done ≡ Ok value) }
        ensures failed { IsErr result ↔ IsErr done }
        // It counts one with its failure, and so the count says what failed.
        ensures kept { MatchResult done (λ _. self.new.faults ≡ self.old.faults)
            (λ failure. self.new.faults ≡ add_fault self.old.faults failure) }
        ensures cause { HasCause self.old.faults.count self.new.faults.count result }
        ensures loans { self.new.loans ≡ self.old.loans }
    {
        match done {
            Ok(value) => Ok(value),
            Err(failure) => {
                self.count_fault(failure);
                Err(Failed)
            }
        }
    }

    // Counts one fault if a draft that came back had faults of its own, or was not removed.
    fn settle_up(&mut self, removed: Result<(), Failure>, own: OwnFaults, draft: Place)
        ensures counts { SettlesUp removed own.count self.old.faults.count self.new.faults.count }
        ensures log { (own.count ≡ 0 → self.new.faults.count ≡ self.old.faults.count)
            ⊎ Rose self.old.faults.count self.new.faults.count }
        ensures cause { TakesFaults own.count self.old.faults.count self.new.faults.count }
        ensures loans { self.new.loans ≡ self.old.loans }
    {
        if own.count > 0 {
            self.count_fault(failure_of(Call::Write, draft, own.first));
            return;
        }
        if let Err(failure) = removed {
            self.count_fault(failure);
        }
    }

    // Removes a draft that came back with faults of its own, or with none.
    fn give_up(&mut self, kind: Kind, number: u64, own: OwnFaults)
        ensures log { (own.count ≡ 0 → self.new.faults.count ≡ self.old.faults.count)
            ⊎ Rose self.old.faults.count self.new.faults.count }
        ensures cause { TakesFaults own.count self.old.faults.count self.new.faults.count }
        ensures loans { self.new.loans ≡ self.old.loans }
    {
        let name = Name::Draft { kind, number };
        let removed = self.delete(name);
        self.settle_up(removed, own, Place::File(name));
    }

    // Opens the folders, unless an earlier call did.
    fn open(&mut self) -> Result<(), Failure>
        ensures { IsLeftAlone self.old.faults self.new.faults self.old.loans self.new.loans }
    {
        if self.folders.is_none() {
            let folders = RealFolders::open(&self.rt, self.alloc, self.root.as_str())?;
            self.folders = Some(folders);
        }
        Ok(())
    }

    // A new file under a draft's name. A number whose draft is there already is passed over.
    fn make_draft(&mut self, kind: Kind) -> Result<RealDraft, Failure>
        ensures rest { IsLeftAlone self.old.faults self.new.faults self.old.loans self.new.loans }
        ensures made { IfOk result (λ draft. (draft.kind ≡ kind) × (draft.sink.faults ≡ 0)) }
    {
        self.open()?;
        'numbers: for _ in 0..u64::MAX {
            let number = self.take_number()?;
            let name = Name::Draft { kind, number };
            match self.create_file(name) {
                Ok(file) => {
                    return Ok(RealDraft {
                        kind,
                        number,
                        sink: StreamSink::over(file),
                    });
                }
                Err(error) => {
                    if error.kind() != ErrorKind::AlreadyExists {
                        return at(Call::Create, Place::File(name), Err(error));
                    }
                }
            }
        }
        let error = io::Error::from(ErrorKind::QuotaExceeded);
        at(Call::Create, Place::Folder(kind), Err(error))
    }

    fn create_file(&self, name: Name) -> io::Result<File> {
        let path = path_of(self.alloc, self.root.as_str(), name)?;
        create_file(&self.rt, path.as_str())
    }

    // The number of the next draft.
    fn take_number(&mut self) -> Result<u64, Failure>
        ensures { IsLeftAlone self.old.faults self.new.faults self.old.loans self.new.loans }
    {
        match &mut self.folders {
            Some(folders) => Ok(folders.take_number()),
            None => at(
                Call::Open,
                self.way(),
                Err(io::Error::from(ErrorKind::NotConnected)),
            ),
        }
    }

    fn rename(&mut self, from: Name, to: Name) -> Result<(), Failure>
        ensures { IsLeftAlone self.old.faults self.new.faults self.old.loans self.new.loans }
    {
        self.open()?;
        at(Call::Rename, Place::File(from), self.rename_file(from, to))
    }

    fn rename_file(&self, from: Name, to: Name) -> io::Result<()> {
        let from = path_of(self.alloc, self.root.as_str(), from)?;
        let to = path_of(self.alloc, self.root.as_str(), to)?;
        again(|| fs::rename(&self.rt, from.as_str(), to.as_str()))
    }

    fn delete(&mut self, name: Name) -> Result<(), Failure>
        ensures { IsLeftAlone self.old.faults self.new.faults self.old.loans self.new.loans }
    {
        self.open()?;
        match self.delete_file(name) {
            Err(error) if error.kind() == ErrorKind::NotFound => Ok(()),
            done => at(Call::Remove, Place::File(name), done),
        }
    }

    fn delete_file(&self, name: Name) -> io::Result<()> {
        let path = path_of(self.alloc, self.root.as_str(), name)?;
        again(|| fs::remove_file(&self.rt, path.as_str()))
    }

    fn sync(&mut self, kind: Kind) -> Result<(), Failure>
        ensures { IsLeftAlone self.old.faults self.new.faults self.old.loans self.new.loans }
    {
        self.open()?;
        let done = match &self.folders {
            Some(folders) => folders.sync(kind),
            None => Err(io::Error::from(ErrorKind::NotConnected)),
        };
        at(Call::Sync, Place::Folder(kind), done)
    }

    fn gather(&mut self, alloc: Global) -> Result<Vec<Name>, Failure>
        ensures { IsLeftAlone self.old.faults self.new.faults self.old.loans self.new.loans }
    {
        self.open()?;
        let mut names = Vec::new(alloc);
        let root = self.root.as_str();
        for kind in [Kind::Block, Kind::Index] {
            let read = read_names(&self.rt, alloc, root, kind, &mut names);
            at(Call::List, Place::Folder(kind), read)?;
        }
        Ok(names)
    }

    fn open_file(&mut self, name: Name) -> Result<FileReader<NamedFile>, Failure>
        ensures { IsLeftAlone self.old.faults self.new.faults self.old.loans self.new.loans }
    {
        self.open()?;
        at(Call::Open, Place::File(name), self.reader_of(name))
    }

    fn reader_of(&self, name: Name) -> io::Result<FileReader<NamedFile>> {
        let path = path_of(self.alloc, self.root.as_str(), name)?;
        let file = File::open(&self.rt, path.as_str())?;
        let size = again(|| file.metadata())?.len();
        Ok(FileReader::over(NamedFile { name, file }, size))
    }
}

// The failure that a file of the shelf kept, whose call is this one if it kept none.
fn failure_of(call: Call, place: Place, kept: Option<CallFailure>) -> Failure {
    let error = io::Error::from(ErrorKind::Other);
    Failure {
        place,
        failed: kept.unwrap_or(CallFailure { call, error }),
    }
}

impl Shelf for RealShelf {
    type Draft = RealDraft;

    type File = RealFile;

    ghost id = { λ s. 0 };

    ghost log = { λ s. None };

    ghost faults = { λ s. s.faults.count };

    ghost loans = { λ s. s.loans };

    ghost file_origin = { λ f. ⟦<RealFile as Reader>⟧.beside f };

    ghost drafts_known = { λ shelf l d known. Prim.cc };

    ghost sealed_known = { λ shelf l s known. Prim.cc };

    ghost files_known = { λ shelf l f known. Prim.cc };

    ghost keeps = { λ a b same. same };

    fn create(&mut self, kind: Kind) -> Result<RealDraft, Failed> {
        match self.make_draft(kind) {
            Ok(draft) => Ok(draft),
            Err(failure) => {
                self.count_fault(failure);
                Err(Failed)
            }
        }
    }

    fn settle(&mut self, sealed: RealSealed, name: Name) -> Result<(), RealSealed> {
        let RealSealed { kind, number, own } = sealed;
        match self.rename(Name::Draft { kind, number }, name) {
            Ok(()) => Ok(()),
            Err(failure) => {
                self.count_fault(failure);
                Err(RealSealed { kind, number, own })
            }
        }
    }

    fn hide(&mut self, stamp: u64) -> Result<(), Failed> {
        let done = self.rename(Name::Index(stamp), Name::Parked(stamp));
        self.counted(done)
    }

    fn remove(&mut self, name: Name) -> Result<(), Failed> {
        let done = self.delete(name);
        self.counted(done)
    }

    fn flush(&mut self, kind: Kind) -> Result<(), Failed> {
        let done = self.sync(kind);
        self.counted(done)
    }

    fn list(&mut self, alloc: Global) -> Result<Names, ListErr> {
        match self.gather(alloc) {
            Ok(names) => match sorted_names(alloc, names) {
                Ok(names) => Ok(names),
                Err(_) => Err(ListErr::NoMemory),
            },
            Err(failure) => {
                if failure.failed.error.kind() == ErrorKind::OutOfMemory {
                    return Err(ListErr::NoMemory);
                }
                self.count_fault(failure);
                Err(ListErr::DiskFault)
            }
        }
    }

    fn reader(&mut self, name: Name) -> Result<RealFile, Failed> {
        match self.open_file(name) {
            Ok(file) => {
                self.loans.lend();
                Ok(LentFile::lend(kind_of_name(name), file))
            }
            Err(failure) => {
                self.count_fault(failure);
                Err(Failed)
            }
        }
    }

    fn close(&mut self, file: RealFile) {
        let reader = file.file();
        let (kept, place) = (reader.failure(), Place::File(reader.file().name));
        let CameBack {
            kind,
            reads,
            asked,
            faults,
        } = file.come_back();
        if faults > 0 {
            self.count_fault(failure_of(Call::Read, place, kept));
        }
        self.loans.take_back(kind, reads, asked);
    }

    fn abandon(&mut self, end: End<RealDraft>)
        ensures log { Abandons None None
            (draft_name (end_origin (λ d. record { kind = d.kind; number = d.number; home = 0 })
            (λ s. record { kind = s.kind; number = s.number; home = 0 }) end))
            (end_faults (λ d. d.sink.faults) (λ s. s.own.count) end)
            self.old.faults.count self.new.faults.count }
        ensures cause { TakesFaults (end_faults (λ d. d.sink.faults) (λ s. s.own.count) end)
            self.old.faults.count self.new.faults.count }
        ensures loans { self.new.loans ≡ self.old.loans }
    {
        match end {
            End::Unsealed(RealDraft { kind, number, sink }) => {
                let own = own_faults(&sink);
                self.give_up(kind, number, own)
            }
            End::Sealed(RealSealed { kind, number, own }) => self.give_up(kind, number, own),
        }
    }

    fn fault_count(&self) -> u64 {
        self.faults.count()
    }
}
