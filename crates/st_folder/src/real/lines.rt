// The line that says which call of the system failed.
ghost use Rattle.std.specs.Prelude.{◌≡◌, ◌++◌, IfOk, codes, string_bytes};
ghost use Rattle.st_folder.specs.FailureLines.{IsFailureLine, IsPathOf, IsTaken, call_name};

use crate::real::failures::Place;
use crate::real::names::{path_of, path_of_folder};
use st_base::{Call, CallFailure};
use std::alloc::{AllocError, Global};
use std::io::ErrorKind;

/// The line `steno: CALL PATH: WORDS`, with its line feed, for a call of the system that failed on
/// `path`, which is a file's path or a stream's name.
///
/// WORDS are the system's, as `Permission denied`; for a lock that another program has they are
/// `another program has the folder`.
pub fn failure_line(alloc: Global, path: &str, failed: CallFailure) -> Result<String, AllocError>
    ensures { IfOk result (λ line. IsFailureLine path.now failed (string_bytes line)) }
{
    let words = words_of(alloc, failed)?;
    line_with(alloc, path, failed, words.as_str())
}

fn line_with(
    alloc: Global,
    path: &str,
    failed: CallFailure,
    words: &str,
) -> Result<String, AllocError>
    ensures { IfOk result (λ line. string_bytes line ≡ codes "steno: "
        ++ (call_name failed.call ++ (codes " " ++ (path.now ++ (codes ": "
        ++ (words.now ++ codes "\n")))))) }
{
    let call = name_of_call(failed.call);
    format!(in alloc; "steno: {call} {path}: {words}\n")
}

// The system's words for an error, without its number.
fn words_of(alloc: Global, failed: CallFailure) -> Result<String, AllocError>
    ensures { IfOk result (λ words. IsTaken failed
        → string_bytes words ≡ codes "another program has the folder") }
{
    if failed.call == Call::Lock && failed.error.kind() == ErrorKind::WouldBlock {
        return String::from_str(alloc, "another program has the folder");
    }
    let words = format!(in alloc; "{}", failed.error)?;
    String::from_str(alloc, plain_words(words.as_str()))
}

fn plain_words(words: &str) -> &str {
    match words.split_once(" (os error ") {
        Some((plain, _)) => plain,
        None => words,
    }
}

fn name_of_call(call: Call) -> &'static str
    ensures { result.now ≡ call_name call }
{
    match call {
        Call::Read => "read",
        Call::Write => "write",
        Call::Flush => "flush",
        Call::Sync => "sync",
        Call::Create => "create",
        Call::Open => "open",
        Call::Lock => "lock",
        Call::List => "list",
        Call::Rename => "rename",
        Call::Remove => "remove",
        Call::MakeFolder => "make folder",
    }
}

// The path of a place of the shelf in the folder `root`.
pub(crate) fn path_of_place(alloc: Global, root: &str, place: Place) -> Result<String, AllocError>
    ensures { IfOk result (λ path. IsPathOf root.now place (string_bytes path)) }
{
    match place {
        Place::Way(0) => String::from_str(alloc, "."),
        Place::Way(count) => match root.split_at_checked(count) {
            Some((way, _)) => String::from_str(alloc, way),
            None => String::from_str(alloc, root),
        },
        Place::Folder(kind) => path_of_folder(alloc, root, kind),
        Place::File(name) => path_of(alloc, root, name),
    }
}
