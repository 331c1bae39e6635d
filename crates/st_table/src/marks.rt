//! Marks of a table's index entries: those whose data blocks were checked to their end.

ghost use Rattle.std.specs.Prelude.{◌≡◌, IfOk, replicate, slice_index_or, slice_set, true, false};

use st_base::NoMemory;
use std::alloc::Global;

/// Marks for this many index entries, none of them set.
pub fn unmarked(alloc: Global, count: usize) -> Result<Vec<bool>, NoMemory>
    ensures { IfOk result (λ v. v.items ≡ replicate count false) }
{
    let mut marks = Vec::new(alloc);
    match marks.resize(count, false) {
        Ok(()) => Ok(marks),
        Err(_) => Err(NoMemory),
    }
}

/// Whether the index entry of this number is marked.
pub fn is_checked(marks: &[bool], i: usize) -> bool
    ensures { result ≡ slice_index_or marks.now i false }
{
    i < marks.len() && marks[i]
}

/// Marks the index entry of this number, where there is a mark for it.
pub fn mark(marks: &mut [bool], i: usize)
    ensures { marks.new ≡ slice_set marks.old i true }
{
    if i < marks.len() {
        marks[i] = true;
    }
}
