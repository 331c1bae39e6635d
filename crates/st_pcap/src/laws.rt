//! Laws of the definitions. These functions do nothing; what they ensure is what counts.

ghost use Rattle.st_pcap.specs.Laws.{HeadsApart, IsWholeInput, OneReading, PiecesJoin, ReadsBack, SomeReading};

/// All bytes are an input of some records with some end.
pub fn some_reading()
    ensures { SomeReading }
{}

/// No bytes are an input of two lists of records, or with two ends.
pub fn one_reading()
    ensures { OneReading }
{}

/// An input is refused for a cause of the file head if and only if its file head is refused.
pub fn heads_apart()
    ensures { HeadsApart }
{}

/// The text of records in range, with bodies of at most 262,144 bytes, is a pcap of the same
/// records, their times cut to the unit.
pub fn reads_back()
    ensures { ReadsBack }
{}

/// The text of records in range, with bodies of at most 262,144 bytes, is a whole input of them,
/// their times cut to the unit, if it has fewer than 2^40 bytes.
pub fn is_whole_input()
    ensures { IsWholeInput }
{}

/// The pieces in which records are written, joined, are their text.
pub fn pieces_join()
    ensures { PiecesJoin }
{}
