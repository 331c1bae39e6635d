ghost use Rattle.std.specs.Prelude.{◌≡◌};

use std::marker::Model;

/// What a file is for, and so the folder that it lies in.
#[derive(Clone, Copy, Debug, PartialEq, Eq)]
pub enum Kind {
    /// The file has packets.
    Block,
    /// The file is the table by which the packets of a block file are found.
    Index,
}

/// The name of a file on a shelf. Source: docs/FORMAT.md, "Folders and names".
#[derive(Clone, Copy, Debug, PartialEq, Eq)]
pub enum Name {
    /// The block file of the pair with this stamp.
    Block(u64),
    /// The index file of the pair with this stamp.
    Index(u64),
    /// The index file of a pair that has left the file set, but is still held.
    Parked(u64),
    /// A file that is being written, of this kind and number.
    Draft { kind: Kind, number: u64 },
}

/// Names in a list, seen by contracts as the list.
#[derive(Drop)]
pub struct Names {
    pub(crate) items: Vec<Name>,
}

impl Model for Names {
    ghost use Rattle.std.specs.Prelude.{List};
    ghost use Rattle.st_disk.specs.declared.naming.Name.{Name};

    ghost Value = { List Name };

    ghost view = { λ a. a.items.items };
}

impl Names {
    /// The names.
    pub fn items(&self) -> &[Name]
        ensures { result.now ≡ self.now }
    {
        self.items.as_slice()
    }
}
