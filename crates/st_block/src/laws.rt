//! Laws of the definitions. These functions do nothing; what they ensure is what counts.

ghost use Rattle.st_block.specs.Laws.{FileLength, FileUnhurt, GivenRecords, OneBlock, OneFile, OneGiven, PositionsFit, PositionsRise, PositionsStay, RecordBytes};

/// A file has as many bytes as its blocks have.
pub fn file_length()
    ensures { FileLength }
{}

/// Positions strictly rise, in the order of the records.
pub fn positions_rise()
    ensures { PositionsRise }
{}

/// A position is below 2^32.
pub fn positions_fit()
    ensures { PositionsFit }
{}

/// A record keeps its position where more records follow.
pub fn positions_stay()
    ensures { PositionsStay }
{}

/// The bytes of a file are those of one block size and one list of records only.
pub fn one_file()
    ensures { OneFile }
{}

/// No check fails of a file that is the text of records.
pub fn file_unhurt()
    ensures { FileUnhurt }
{}

/// The bytes of a file are the text of one list of records only, at one list of positions.
pub fn one_given()
    ensures { OneGiven }
{}

/// The records that a scan gives of a whole file are each at its position.
pub fn given_records()
    ensures { GivenRecords }
{}

/// At the position of a record of a file lie the bytes of its head and of its body.
pub fn record_bytes()
    ensures { RecordBytes }
{}

/// A builder holds one list of records in range only.
pub fn one_block()
    ensures { OneBlock }
{}
