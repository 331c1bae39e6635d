ghost use Rattle.st_disk.specs.Pairs.{OneFileSet};

/// A folder has one file set at most. This does nothing: its contract is the law.
pub fn one_file_set()
    ensures { OneFileSet }
{}
