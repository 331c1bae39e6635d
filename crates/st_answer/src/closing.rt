//! The files that an answer lent are closed.

ghost use Rattle.std.specs.Prelude.{◌≡◌, ◌≤◌, length, All, sum_by};
ghost use Rattle.st_shelf.specs.Ends.{TakesFaults};
ghost use Rattle.st_answer.specs.Stores.{IsSameStore};
ghost use Rattle.st_answer.specs.Lending.{TakesBack};

use crate::store::Store;

/// Closes all these files, which this store lent. The store's count of faults rises if that of one
/// of them had.
pub fn close_all<S: Store>(store: &mut S, files: Vec<S::File>)
    requires home { All (λ f. (S.origin f).home ≡ S.id store.old) files.items }
    requires lent { length files.items ≤ (S.loans store.old).lent }
    // the counts
    ensures loans { TakesBack (length files.items)
        (sum_by S.File.reads files.items) (sum_by S.File.asked files.items)
        (S.loans store.old) (S.loans store.new) }
    ensures faults { TakesFaults (sum_by S.File.faults files.items)
        (S.faults store.old) (S.faults store.new) }
    // what stays
    ensures stays { IsSameStore (S.becomes store.old store.new) (S.id store.old) (S.id store.new)
        (S.holds store.old) (S.holds store.new) (S.times_held store.old) (S.times_held store.new)
        (S.size store.old) (S.size store.new) (S.set store.old) (S.set store.new) }
{
    let mut files = files;
    'files: while let Some(file) = files.pop() {
        store.close_file(file);
    }
    files.destroy_empty();
}
