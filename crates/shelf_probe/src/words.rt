// The words of a call.
use st_shelf::{Kind, Name};
use std::alloc::{AllocError, Global};

// The kind that a word names.
pub(crate) fn kind_of(word: &str) -> Option<Kind> {
    match word {
        "block" => Some(Kind::Block),
        "index" => Some(Kind::Index),
        _ => None,
    }
}

// The name that words name.
pub(crate) fn name_of(words: &[&str]) -> Option<Name> {
    match words {
        ["block", stamp] => Some(Name::Block(stamp.parse().ok()?)),
        ["index", stamp] => Some(Name::Index(stamp.parse().ok()?)),
        ["parked", stamp] => Some(Name::Parked(stamp.parse().ok()?)),
        ["draft", kind, number] => Some(Name::Draft {
            kind: kind_of(kind)?,
            number: number.parse().ok()?,
        }),
        _ => None,
    }
}

fn word_of(kind: Kind) -> &'static str {
    match kind {
        Kind::Block => "block",
        Kind::Index => "index",
    }
}

// A line with the words of a name.
pub(crate) fn line_of(alloc: Global, name: Name) -> Result<String, AllocError> {
    match name {
        Name::Block(stamp) => format!(in alloc; "block {stamp}\n"),
        Name::Index(stamp) => format!(in alloc; "index {stamp}\n"),
        Name::Parked(stamp) => format!(in alloc; "parked {stamp}\n"),
        Name::Draft { kind, number } => {
            let word = word_of(kind);
            format!(in alloc; "draft {word} {number}\n")
        }
    }
}
