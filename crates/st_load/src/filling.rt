//! A lane takes the records of an input, until it is full or the input ends.

ghost use Rattle.std.specs.Prelude.{◌≡◌, ◌≤◌, ◌+◌, ◌*◌, ◌++◌, ◌∷◌, [], ℕ, List, false};
ghost use Rattle.st_base.specs.Faults.{Rose};
ghost use Rattle.st_base.specs.Records.{Rec};
ghost use Rattle.st_lane.specs.Lane.{Represents, IsSameLane};
ghost use Rattle.st_load.specs.Causes.{RoseJustIf};
ghost use Rattle.st_load.specs.Filling.{HasReadTo, HasCounted, HasCome, ComesTo, Fills, Leaves, EndsReading};
ghost use Rattle.st_pcap.specs.Reading.{IsGoing};

use crate::ends::LoadEnd;
use st_base::{Record, Source};
use st_lane::{Lane, LaneErr, Pushed};
use st_pcap::{PcapErr, PcapReader};
use st_shelf::Draft;

/// Why a lane takes no more records.
pub(crate) enum Filled {
    /// The lane is full. This record begins the next one.
    Ready(Record),
    /// The input ended so. The lane's records are to be published.
    Ended(LoadEnd),
    /// A fault, or out of memory: the lane is to be given up.
    Failed(LoadEnd),
}

/// How filling a lane ends when the reader fails: the lane is to be published if the input is
/// refused, and to be given up after a fault or without memory.
fn stopped(error: PcapErr) -> Filled
    ensures { EndsReading error result }
{
    match error {
        PcapErr::ReadFault => Filled::Failed(LoadEnd::ReadFault),
        PcapErr::NoMemory => Filled::Failed(LoadEnd::NoMemory),
        _ => Filled::Ended(LoadEnd::BadInput(error)),
    }
}

/// Adds records to a lane that has none: `first`, which the reader gave last and whose number in
/// the input, counted from 1, is `number`; and then those that the reader gives.
///
/// All records are read into the memory of the first one.
pub(crate) fn fill<T: Draft, S: Source>(
    lane: &mut Lane<T>,
    first: Record,
    number: u64,
    reader: &mut PcapReader,
    source: &mut S,
) -> Filled
    requires lane { (lane.old.broken ≡ false) × (lane.old.filling.records ≡ 0) }
    requires reader { IsGoing reader.old.phase × HasCounted number reader.old }
    // what the lane takes, and how far it comes
    ensures fills { Represents T.written lane.old [] → Fills T.written
        (λ bytes given. HasReadTo reader.old bytes (given ++ first ∷ []) (S.left source.old))
        first number lane.new reader.new (S.left source.new) result }
    ensures input { (bytes : List ℕ)
        → HasCome lane.old.filling.size number bytes first reader.old (S.left source.old)
        → ComesTo lane.old.filling.size (number + lane.new.filling.records) bytes reader.new
        (S.left source.new) result }
    ensures leaves { Leaves number lane.new reader.old reader.new result }
    // the faults, and what stays
    ensures disk { result ≡ Filled.Failed LoadEnd.DiskFault
        → Rose (T.faults lane.old.block) (T.faults lane.new.block) }
    ensures read { RoseJustIf (result ≡ Filled.Failed LoadEnd.ReadFault)
        (S.faults source.old) (S.faults source.new) }
    ensures rest { IsSameLane T.origin lane.old lane.new
        × (S.beside source.new ≡ S.beside source.old) }
{
    let mut packet = first;
    'records: loop {
        match lane.push(packet.lend()) {
            Ok(Pushed::Kept) => {}
            Ok(Pushed::Ready) => return Filled::Ready(packet),
            Err(LaneErr::TooLong { len }) => {
                let number = number + lane.records();
                return Filled::Ended(LoadEnd::TooLong { number, len });
            }
            Err(LaneErr::DiskFault { .. }) => return Filled::Failed(LoadEnd::DiskFault),
            Err(LaneErr::NoMemory) => return Filled::Failed(LoadEnd::NoMemory),
        }
        match reader.next_into(source, packet.body.into_bytes()) {
            Ok(Some(next)) => packet = next,
            Ok(None) => return Filled::Ended(LoadEnd::Done),
            Err(error) => return stopped(error),
        }
    }
}
