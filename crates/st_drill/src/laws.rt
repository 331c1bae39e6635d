//! Laws of the definitions. These functions do nothing; what they ensure is what counts.

ghost use Rattle.st_drill.specs.Laws.{IsWholeInput, HasCount, AreNumbered, AreFrames};

/// The input of a drill is a whole input of its packets.
pub fn is_whole_input()
    ensures { IsWholeInput }
{}

/// A drill has as many packets as were asked for.
pub fn has_count()
    ensures { HasCount }
{}

/// The packets of a drill come in the order of their numbers.
pub fn are_numbered()
    ensures { AreNumbered }
{}

/// Each packet of a drill has a time that a record can have, and 64 bytes.
pub fn are_frames()
    ensures { AreFrames }
{}
