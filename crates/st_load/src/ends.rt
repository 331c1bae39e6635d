//! How a load ends.

use st_pcap::PcapErr;

/// How a load ends. At each end the pairs that were published are in the spool, but for the oldest,
/// which the limit removed.
#[derive(Clone, Copy, Debug, PartialEq, Eq)]
pub enum LoadEnd {
    /// The input was read to its end, and all its packets are in the spool.
    Done,
    /// The input is refused: at its file head, or at a record. The packets before it are in the
    /// spool. The cause is neither `ReadFault` nor `NoMemory`.
    BadInput(PcapErr),
    /// The packet of the record with this number, counted from 1, has `len` captured bytes, more
    /// than a block holds. The packets before it are in the spool.
    TooLong { number: u64, len: u32 },
    /// Reading the input failed: its count of faults rose. The packets that no pair had by then
    /// are given up.
    ReadFault,
    /// Writing the line of a pair that was published failed: the output's count of faults rose.
    WriteFault,
    /// The shelf failed: its count of faults rose. The last publication or removal may be in doubt.
    DiskFault,
    /// A pair was not published, since no stamp follows `last`, the greatest that there is.
    StampsSpent { last: u64 },
    /// Out of memory.
    NoMemory,
}
