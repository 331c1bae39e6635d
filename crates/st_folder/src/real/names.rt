// The names of a shelf's files in a file system: docs/FORMAT.md, "Folders and names".
ghost use Rattle.std.specs.Prelude.{◌≡◌, ◌≢◌, ◌↔◌, ◌++◌, ◌<◌, ◌^◌, ℕ, List, Some, IfOk, OnOk, MatchOption, codes, string_bytes};
ghost use Rattle.st_disk.specs.declared.naming.Kind.TheVariants as kind;
ghost use Rattle.st_disk.specs.Names.{kind_of, number_of};
ghost use Rattle.st_disk.specs.declared.naming.Name.{Name};
ghost use Rattle.st_folder.specs.FileNames.{IsNameIn, file_name, folder_name, folder_path, file_path};

use crate::real::digits::{after, number_of, put_stamp, stamp_of};
use st_disk::kind_of_name;
use st_shelf::{Kind, Name};
use std::alloc::{AllocError, Global};

// The path of the folder of this kind.
pub(crate) fn path_of_folder(alloc: Global, root: &str, kind: Kind) -> Result<String, AllocError>
    ensures { IfOk result (λ path. string_bytes path ≡ folder_path root.now kind) }
{
    let mut path = String::from_str(alloc, root)?;
    path.push_str("/")?;
    path.push_str(name_of_folder(kind))?;
    Ok(path)
}

// The path of the file of this name.
pub(crate) fn path_of(alloc: Global, root: &str, name: Name) -> Result<String, AllocError>
    ensures { IfOk result (λ path. string_bytes path ≡ file_path root.now name) }
{
    let mut path = path_of_folder(alloc, root, kind_of_name(name))?;
    path.push_str("/")?;
    put_name(alloc, &mut path, name)?;
    Ok(path)
}

fn name_of_folder(kind: Kind) -> &'static str
    ensures { result.now ≡ folder_name kind }
{
    match kind {
        Kind::Block => "PKT0",
        Kind::Index => "IDX0",
    }
}

fn put_name(alloc: Global, text: &mut String, name: Name) -> Result<(), AllocError>
    ensures { OnOk result (string_bytes text.new ≡ string_bytes text.old ++ file_name name) }
{
    match name {
        Name::Block(stamp) => put_stamp(text, stamp),
        Name::Index(stamp) => put_stamp(text, stamp),
        Name::Parked(stamp) => {
            text.push_str(".parked-")?;
            put_stamp(text, stamp)
        }
        Name::Draft { number, .. } => {
            text.push_str(".draft-")?;
            let digits = format!(in alloc; "{number}")?;
            text.push_str(digits.as_str())
        }
    }
}

// The name that a file of this folder has, if it is one of a shelf's.
pub(crate) fn name_of(kind: Kind, text: &str) -> Option<Name>
    ensures { (name : Name) → number_of name < 2 ^ 64
        → (result ≡ Some name) ↔ IsNameIn kind name text.now }
{
    name_in(kind, text)
}

// The name of this text, whose number is one of 64 bits.
fn name_in(kind: Kind, text: &str) -> Option<Name>
    ensures { MatchOption result
        ((name : Name) → number_of name < 2 ^ 64 → IsNameIn kind name text.now → ⊥)
        (λ name. (number_of name < 2 ^ 64) × IsNameIn kind name text.now) }
{
    if let Some(number) = after(".draft-", text) {
        return match number_of(number) {
            Some(number) => Some(Name::Draft { kind, number }),
            None => None,
        };
    }
    match kind {
        Kind::Block => match stamp_of(text) {
            Some(stamp) => Some(Name::Block(stamp)),
            None => None,
        },
        Kind::Index => index_name(text),
    }
}

// The name of an index, or of a parked one, in a text that is no draft's.
fn index_name(text: &str) -> Option<Name>
    requires { (rest : List ℕ) → text.now ≢ codes ".draft-" ++ rest }
    ensures { MatchOption result
        ((name : Name) → number_of name < 2 ^ 64 → IsNameIn kind.Index name text.now → ⊥)
        (λ name. (number_of name < 2 ^ 64) × IsNameIn kind.Index name text.now) }
{
    if let Some(stamp) = after(".parked-", text) {
        return match stamp_of(stamp) {
            Some(stamp) => Some(Name::Parked(stamp)),
            None => None,
        };
    }
    match stamp_of(text) {
        Some(stamp) => Some(Name::Index(stamp)),
        None => None,
    }
}
