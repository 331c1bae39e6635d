//! Laws of the definitions. These functions do nothing; what they ensure is what counts.

ghost use Rattle.st_rows.specs.KeyOrder.{DerivedOrder, TextOrder, TextsLie};
ghost use Rattle.st_rows.specs.Laws.{FewPackets, FilePackets, LookupIsRange, OneKeyRow, OneListOfRows, OnePacketAt, OneRisingList, OneSummary, PacketKeysFit, RowsSayPositions, SummaryFirst, ValuesSayPositions};

/// The texts of keys are in the order of the keys: by kind, and then by number.
pub fn text_order()
    ensures { TextOrder }
{}

/// The derived order of `Key` is that by kind, and then by number.
pub fn derived_order()
    ensures { DerivedOrder }
{}

/// A key's text lies between two keys' texts if and only if the key lies between these keys.
pub fn texts_lie()
    ensures { TextsLie }
{}

/// The value of a row that was made of positions below 2^32 says these positions.
pub fn values_say_positions()
    ensures { ValuesSayPositions }
{}

/// Rising lists of the same positions are equal.
pub fn one_rising_list()
    ensures { OneRisingList }
{}

/// In a block file the packets' positions rise and are below 2^32, and the packets fit their
/// fields.
pub fn file_packets()
    ensures { FilePackets }
{}

/// A block file has fewer than 2^32 packets.
pub fn few_packets()
    ensures { FewPackets }
{}

/// Where positions rise, one packet at most is at a position.
pub fn one_packet_at()
    ensures { OnePacketAt }
{}

/// Each key of a packet that fits its fields fits the type of its kind.
pub fn packet_keys_fit()
    ensures { PacketKeysFit }
{}

/// The summary row's key is before every key's text.
pub fn summary_first()
    ensures { SummaryFirst }
{}

/// Packets have one summary at most.
pub fn one_summary()
    ensures { OneSummary }
{}

/// The value of a key's row says the positions of exactly the packets that have the key.
pub fn rows_say_positions()
    ensures { RowsSayPositions }
{}

/// A key has one row at most.
pub fn one_key_row()
    ensures { OneKeyRow }
{}

/// Packets have one list of rows at most.
pub fn one_list_of_rows()
    ensures { OneListOfRows }
{}

/// Where keys rise, the rows from a key to itself are the one that a lookup of it finds, if any.
pub fn lookup_is_range()
    ensures { LookupIsRange }
{}
