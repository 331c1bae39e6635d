use super::*;
use st_base::{Failed, Reader, put};
use st_disk::published_name;
use st_shelf::{Draft, End, Kind, ListErr, Name, Shelf};
use std::fs;
use std::os::unix::fs::MetadataExt;
use std::test::Fail;

// Puts a file of three bytes under a free name.
fn put_file(shelf: &mut RealShelf, kind: Kind, stamp: u64) -> Result<(), Failed> {
    let mut draft = shelf.create(kind)?;
    if put(&mut draft, b"abc").is_err() {
        shelf.abandon(End::Unsealed(draft));
        return Err(Failed);
    }
    let sealed = match draft.seal() {
        Ok(sealed) => sealed,
        Err(draft) => {
            shelf.abandon(End::Unsealed(draft));
            return Err(Failed);
        }
    };
    match shelf.settle(sealed, published_name(kind, stamp)) {
        Ok(()) => Ok(()),
        Err(sealed) => {
            shelf.abandon(End::Sealed(sealed));
            Err(Failed)
        }
    }
}

const FOLDER: &str = "st_folder_test";

#[test]
fn a_shelf_in_a_folder_keeps_its_files_and_its_lock(rt: HostRuntime) -> Result<(), Fail> {
    let alloc = rt.alloc();
    let _ = fs::remove_dir_all(&rt, FOLDER);
    let mut shelf = RealShelf::at(&rt, alloc, FOLDER)?;
    put_file(&mut shelf, Kind::Index, 10)?;
    put_file(&mut shelf, Kind::Block, 10)?;
    shelf.flush(Kind::Block)?;
    let mut second = RealShelf::at(&rt, alloc, FOLDER)?;
    assert!(rt; second.flush(Kind::Block).is_err(), "the folder is locked");
    let line = second.failure_line(alloc)?.unwrap_or(String::new(alloc));
    let wanted = "steno: lock st_folder_test: another program has the folder\n";
    assert_eq!(rt; line.as_str(), wanted);
    assert!(rt; shelf.failure().is_none());
    let mut file = shelf.reader(Name::Block(10))?;
    let mut part = [0; 2];
    let read = file.read_at(1, &mut part);
    shelf.close(file);
    assert_eq!(rt; (read, part), (Ok(2), *b"bc"));
    shelf.hide(10)?;
    let names = [Name::Block(10), Name::Parked(10)];
    assert_eq!(rt; shelf.list(alloc)?.items(), names.as_slice());
    shelf.remove(Name::Parked(10))?;
    assert_eq!(rt; (shelf.fault_count(), second.fault_count()), (0, 1));
    drop(shelf);
    assert_eq!(rt; second.list(alloc)?.items(), [Name::Block(10)].as_slice());
    for (path, mode) in [
        ("st_folder_test", 0o700),
        ("st_folder_test/PKT0", 0o700),
        ("st_folder_test/IDX0", 0o700),
        ("st_folder_test/PKT0/000000000000000a", 0o600),
    ] {
        assert_eq!(rt; fs::metadata(&rt, path)?.mode() % 0o1000, mode, "{path}");
    }
    fs::remove_dir_all(&rt, FOLDER)?;
    Ok(())
}

const STRANGE: &str = "st_folder_strange";

// Names that are none of a shelf's, and a folder in a file's place, are passed over.
#[test]
fn a_list_has_the_files_of_a_shelf_alone(rt: HostRuntime) -> Result<(), Fail> {
    let alloc = rt.alloc();
    let _ = fs::remove_dir_all(&rt, STRANGE);
    fs::create_dir_all(&rt, "st_folder_strange/PKT0/0000000000000002")?;
    fs::create_dir_all(&rt, "st_folder_strange/IDX0")?;
    for path in [
        "PKT0/0000000000000001",
        "PKT0/000000000000000A",
        "PKT0/.draft-7",
        "PKT0/.draft-08",
        "PKT0/.draft-+9",
        "PKT0/.parked-0000000000000001",
        "IDX0/.parked-0000000000000003",
        "IDX0/00000000000000004",
        "IDX0/.draft-18446744073709551616",
        "IDX0/.draft-2",
        "IDX0/notes",
    ] {
        let path = format!(in alloc; "{STRANGE}/{path}")?;
        fs::write(&rt, path.as_str(), b"abc".as_slice())?;
    }
    let mut shelf = RealShelf::at(&rt, alloc, STRANGE)?;
    let draft = shelf.create(Kind::Index)?;
    let drafts = [(Kind::Block, 7), (Kind::Index, 2), (Kind::Index, 8)];
    let [old, older, new] = drafts.map(|(kind, number)| Name::Draft { kind, number });
    let names = [Name::Block(1), Name::Parked(3), old, older, new];
    let listed = shelf.list(alloc);
    shelf.abandon(End::Unsealed(draft));
    assert_eq!(rt; listed?.items(), names.as_slice());
    shelf.remove(Name::Index(1))?;
    let left = shelf.list(alloc)?.items().len();
    assert_eq!(rt; (left, shelf.fault_count()), (4, 0));
    fs::remove_dir_all(&rt, STRANGE)?;
    Ok(())
}

const TAKEN: &str = "st_folder_taken";

// A file stands where the spool folder, one that it lies in, or one that lies in it should.
#[test]
fn a_shelf_fails_where_a_file_stands_in_its_way(rt: HostRuntime) -> Result<(), Fail> {
    let alloc = rt.alloc();
    let _ = fs::remove_dir_all(&rt, TAKEN);
    fs::create_dir_all(&rt, "st_folder_taken/spool")?;
    fs::write(&rt, "st_folder_taken/file", b"".as_slice())?;
    fs::write(&rt, "st_folder_taken/spool/IDX0", b"".as_slice())?;
    for (path, call, failed, words) in [
        ("file", "make folder", "file/PKT0", "Not a directory"),
        ("file/spool", "make folder", "file/spool", "Not a directory"),
        ("spool", "list", "spool/IDX0", "Not a directory"),
    ] {
        let place = format!(in alloc; "{TAKEN}/{path}")?;
        let mut shelf = RealShelf::at(&rt, alloc, place.as_str())?;
        assert!(rt;
            put_file(&mut shelf, Kind::Block, 1).is_err(),
            "create in {path}"
        );
        assert!(rt; shelf.flush(Kind::Block).is_err(), "flush in {path}");
        assert!(rt; shelf.hide(1).is_err(), "hide in {path}");
        assert!(rt; shelf.remove(Name::Block(1)).is_err(), "remove in {path}");
        let listed = shelf.list(alloc).err();
        assert_eq!(rt; listed, Some(ListErr::DiskFault), "list in {path}");
        assert_eq!(rt; shelf.fault_count(), 5, "faults in {path}");
        let line = shelf.failure_line(alloc)?.unwrap_or(String::new(alloc));
        let wanted = format!(in alloc; "steno: {call} st_folder_taken/{failed}: {words}\n")?;
        assert_eq!(rt; line, wanted);
    }
    fs::remove_dir_all(&rt, TAKEN)?;
    Ok(())
}
