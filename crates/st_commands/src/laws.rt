//! Laws of what a command writes. These functions do nothing; what they ensure is what counts.

ghost use Rattle.st_commands.specs.Laws.{DamagedIsHurt, DoneIsWhole};

/// If a check ends `Done`, each pair that was found is whole.
pub fn done_is_whole()
    ensures { DoneIsWhole }
{}

/// If a command ends `Damaged`, it names a pair that was found and isn't whole.
pub fn damaged_is_hurt()
    ensures { DamagedIsHurt }
{}
