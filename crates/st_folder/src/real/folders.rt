// A shelf's folders in a file system, as its first call makes and opens them.
ghost use Rattle.std.specs.Prelude.{◌≡◌, ◌+◌, ◌<◌, ◌⊎◌, ◌≤◌, ℕ, MatchOption, IfOk, OnOk, All};
ghost use Rattle.st_folder.specs.FileNames.{AreIn, AddsNames};
ghost use Rattle.st_folder.specs.Numbers.{IsLastDraft, IsBelow, HasLastDraft, IsFirstNumber};

use crate::real::failures::{Failure, Place, at};
use crate::real::names::{name_of, path_of_folder};
use crate::real::retries::again;
use st_base::{Call, CallFailure};
use st_shelf::{Kind, Name};
use std::alloc::Global;
use std::fs::{DirBuilder, DirEntry, File, OpenOptions, TryLockError};
use std::io::ErrorKind;
use std::os::unix::fs::{DirBuilderExt, OpenOptionsExt};
use std::rt::HostRuntime;
use std::{fs, io};

// What stays open from the first call to the shelf's end: the spool folder, whose lock keeps other
// programs out, both folders, and the number of the next draft.
#[derive(Drop)]
pub(crate) struct RealFolders {
    pub(crate) _lock: File,
    pub(crate) blocks: File,
    pub(crate) indexes: File,
    pub(crate) next: u64,
}

impl RealFolders {
    pub(crate) fn open(
        rt: &HostRuntime,
        alloc: Global,
        root: &str,
    ) -> Result<RealFolders, Failure> {
        make_folders(rt, root)?;
        let lock = take_lock(rt, root)?;
        let blocks = open_folder(rt, alloc, root, Kind::Block)?;
        let indexes = open_folder(rt, alloc, root, Kind::Index)?;
        let mut names = Vec::new(alloc);
        for kind in [Kind::Block, Kind::Index] {
            let read = read_names(rt, alloc, root, kind, &mut names);
            at(Call::List, Place::Folder(kind), read)?;
        }
        let next = first_number(names.as_slice(), &blocks, &indexes)?;
        Ok(RealFolders {
            _lock: lock,
            blocks,
            indexes,
            next,
        })
    }

    // The number of the next draft. After the greatest one it begins again at 0.
    pub(crate) fn take_number(&mut self) -> u64
        ensures number { result ≡ self.old.next }
        ensures next { result < self.new.next ⊎ self.new.next ≡ 0 }
    {
        let number = self.next;
        self.next = number.wrapping_add(1);
        number
    }

    // Has the disk keep all changes of a folder.
    pub(crate) fn sync(&self, kind: Kind) -> io::Result<()> {
        match kind {
            Kind::Block => self.blocks.sync_all(),
            Kind::Index => self.indexes.sync_all(),
        }
    }
}

// Adds the names of a folder.
pub(crate) fn read_names(
    rt: &HostRuntime,
    alloc: Global,
    root: &str,
    kind: Kind,
    names: &mut Vec<Name>,
) -> io::Result<()>
    ensures { OnOk result (AddsNames kind names.old.items names.new.items) }
{
    let path = path_of_folder(alloc, root, kind)?;
    let found = again(|| names_in(rt, alloc, path.as_str(), kind))?;
    names.extend_from_slice(found.as_slice())?;
    Ok(())
}

// The names of a folder; files of other names, and what is no file, are passed over.
fn names_in(rt: &HostRuntime, alloc: Global, path: &str, kind: Kind) -> io::Result<Vec<Name>>
    ensures { IfOk result (λ names. AreIn kind names.items) }
{
    let mut names = Vec::new(alloc);
    'entries: for entry in fs::read_dir(rt, path)? {
        match entry {
            Ok(entry) => add_entry(kind, &entry, &mut names)?,
            // A name that is no text is none of a shelf's.
            Err(error) => {
                if error.kind() != ErrorKind::InvalidFilename {
                    return Err(error);
                }
            }
        }
    }
    Ok(names)
}

fn add_entry(kind: Kind, entry: &DirEntry, names: &mut Vec<Name>) -> io::Result<()>
    ensures { AreIn kind names.old.items → AreIn kind names.new.items }
{
    let Some(name) = name_of(kind, entry.file_name()) else {
        return Ok(());
    };
    if again(|| entry.file_type())?.is_file() {
        names.push(name)?;
    }
    Ok(())
}

// The number of the first draft: above those of all that were found, or 0 if one of these has the
// greatest number. A lower one is free once no crash can bring back a draft that was removed.
fn first_number(names: &[Name], blocks: &File, indexes: &File) -> Result<u64, Failure>
    ensures { IfOk result (IsFirstNumber names.now) }
{
    match number_above(names) {
        Some(next) => Ok(next),
        None => {
            at(Call::Sync, Place::Folder(Kind::Block), blocks.sync_all())?;
            at(Call::Sync, Place::Folder(Kind::Index), indexes.sync_all())?;
            Ok(0)
        }
    }
}

// A number above those of all drafts, unless one of them has the greatest number.
fn number_above(names: &[Name]) -> Option<u64>
    ensures { MatchOption result (HasLastDraft names.now) (λ next. All (IsBelow next) names.now) }
{
    let mut next = 0;
    'names: for name in names {
        match number_after(next, name) {
            Some(higher) => next = higher,
            None => return None,
        }
    }
    Some(next)
}

// At least `next`, and above the number of this name if it is a draft's, unless that is the
// greatest.
fn number_after(next: u64, name: &Name) -> Option<u64>
    ensures { MatchOption result (IsLastDraft name.now)
        (λ higher. (next ≤ higher) × IsBelow higher name.now) }
{
    match name {
        Name::Draft { number, .. } => {
            if *number == u64::MAX {
                return None;
            }
            Some(next.max(*number + 1))
        }
        _ => Some(next),
    }
}

// Makes a file that isn't there, open for writing and its owner's alone.
pub(crate) fn create_file(rt: &HostRuntime, path: &str) -> io::Result<File> {
    let mut options = OpenOptions::new();
    options.write(true).create_new(true).mode(0o600);
    options.open(rt, path)
}

// Opens the spool folder and takes its lock, unless another program has it.
fn take_lock(rt: &HostRuntime, root: &str) -> Result<File, Failure> {
    let place = Place::Way(root.len());
    let lock = at(Call::Open, place, File::open(rt, root))?;
    let taken = match lock.try_lock() {
        Ok(()) => Ok(()),
        Err(TryLockError::WouldBlock) => Err(io::Error::from(ErrorKind::WouldBlock)),
        Err(TryLockError::Error(error)) => Err(error),
    };
    at(Call::Lock, place, taken)?;
    Ok(lock)
}

fn open_folder(rt: &HostRuntime, alloc: Global, root: &str, kind: Kind) -> Result<File, Failure> {
    let place = Place::Folder(kind);
    let path = match path_of_folder(alloc, root, kind) {
        Ok(path) => path,
        Err(error) => return at(Call::MakeFolder, place, Err(io::Error::from(error))),
    };
    make_folder(rt, path.as_str(), place, Place::Way(root.len()))?;
    at(Call::Open, place, File::open(rt, path.as_str()))
}

// Makes the folder, and those that it lies in, where they aren't there.
fn make_folders(rt: &HostRuntime, root: &str) -> Result<(), Failure> {
    match make_way(rt, root) {
        Err(failure) if failure.failed.error.kind() == ErrorKind::NotFound => {}
        other => return other,
    }
    for end in 1..root.len() {
        if let Some((folder, rest)) = root.split_at_checked(end) {
            if rest.starts_with('/') {
                make_way(rt, folder)?;
            }
        }
    }
    make_way(rt, root)
}

// Makes the spool folder, or one on the way to it.
fn make_way(rt: &HostRuntime, folder: &str) -> Result<(), Failure> {
    let above = Place::Way(way_above(folder));
    make_folder(rt, folder, Place::Way(folder.len()), above)
}

// A new folder is its owner's alone, and is on the disk before anything stands in it. One that is
// there may have been made by a program that was killed before it came so far.
fn make_folder(rt: &HostRuntime, path: &str, place: Place, above: Place) -> Result<(), Failure> {
    let mut builder = DirBuilder::new();
    builder.mode(0o700);
    match again(|| builder.create(rt, path)) {
        Ok(()) => sync_parent(rt, path, above),
        Err(error) if error.kind() == ErrorKind::AlreadyExists => {
            match sync_parent(rt, path, above) {
                Err(failure) if is_veiled(&failure) => Ok(()),
                done => done,
            }
        }
        Err(error) => at(Call::MakeFolder, place, Err(error)),
    }
}

fn sync_parent(rt: &HostRuntime, path: &str, above: Place) -> Result<(), Failure> {
    let parent = at(Call::Open, above, File::open(rt, parent_of(path)))?;
    at(Call::Sync, above, parent.sync_all())
}

// Who may not look into the folder above did not make the one below.
fn is_veiled(failure: &Failure) -> bool {
    let CallFailure { call, error } = failure.failed;
    call == Call::Open && error.kind() == ErrorKind::PermissionDenied
}

fn parent_of(path: &str) -> &str {
    match path.trim_end_matches('/').rsplit_once('/') {
        Some((parent, _)) if parent.is_empty() => "/",
        Some((parent, _)) => parent,
        None => ".",
    }
}

// How many of a path's first bytes are the path of the folder above; none where that is the working
// folder.
fn way_above(path: &str) -> usize {
    match path.trim_end_matches('/').rsplit_once('/') {
        Some((parent, _)) => parent.len().max(1),
        None => 0,
    }
}
