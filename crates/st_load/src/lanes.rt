//! A lane is made of two drafts of a spool's shelf, and sealed or given up.

ghost use Rattle.std.specs.Prelude.{◌≡◌, ◌<◌, ◌≤◌, ◌≢◌, [], List, Some, false, IfOk, IfErr, MatchResult, Err};
ghost use Rattle.st_base.specs.Faults.{Rose};
ghost use Rattle.st_base.specs.Records.{Rec};
ghost use Rattle.st_block.specs.BlockText.{IsBlockSize};
ghost use Rattle.st_block.specs.declared.format.TheConstants.{MAX_BLOCKS};
ghost use Rattle.st_disk.specs.Disks.{Log};
ghost use Rattle.st_disk.specs.Events.{Event};
ghost use Rattle.st_disk.specs.Pairs.{Files};
ghost use Rattle.st_lane.specs.Lane.{Represents};
ghost use Rattle.st_lane.specs.Sealing.{AreWhole};
ghost use Rattle.st_load.specs.Causes.{IsFailure, RoseIf};
ghost use Rattle.st_load.specs.Lanes.{IsNewLane, IsLaneOf, KeepsSpool};
ghost use Rattle.st_pairs.specs.Pairs.{IsWholePair};
ghost use Rattle.st_spool.specs.Publishing.{Keeps, IsPairOf};
ghost use Rattle.st_spool.specs.Standing.{StandsFor};

use crate::ends::LoadEnd;
use st_lane::{Lane, LaneRefused, SealErr};
use st_pairs::Indexed;
use st_plan::LanePlan;
use st_shelf::{End, Kind, SealedPair, Shelf};
use st_spool::Spool;
use std::alloc::Global;

/// Makes a lane of two new drafts of the spool's shelf.
///
/// `DiskFault` comes only if the shelf's count of faults rose, `NoMemory` if there is no memory for
/// the lane; after both the drafts that were made have gone back to the shelf.
pub(crate) fn open_lane<D: Shelf>(
    alloc: Global,
    spool: &mut Spool<D, Indexed>,
    layout: LanePlan,
) -> Result<Lane<D::Draft>, LoadEnd>
    requires layout { IsBlockSize layout.size × (1 ≤ layout.blocks)
        × (layout.blocks ≤ MAX_BLOCKS) }
    // the spool
    ensures keeps { KeepsSpool D.log spool.old spool.new }
    ensures rest { (D.id spool.new.shelf ≡ D.id spool.old.shelf)
        × (D.loans spool.new.shelf ≡ D.loans spool.old.shelf) }
    // the lane
    ensures new { IfOk result (IsNewLane D.Draft.origin D.Draft.faults
        (D.id spool.old.shelf) layout) }
    ensures empty { (log : Log) → D.log spool.new.shelf ≡ Some log
        → IfOk result (λ l. Represents D.Draft.written l []) }
    // an error
    ensures failed { IfErr result IsFailure }
    ensures cause { RoseIf (result ≡ Err LoadEnd.DiskFault) (D.faults spool.old.shelf)
        (D.faults spool.new.shelf) }
{
    let block = match spool.create(Kind::Block) {
        Ok(block) => block,
        Err(_) => return Err(LoadEnd::DiskFault),
    };
    let index = match spool.create(Kind::Index) {
        Ok(index) => index,
        Err(_) => {
            spool.abandon(End::Unsealed(block));
            return Err(LoadEnd::DiskFault);
        }
    };
    match Lane::new(alloc, block, index, layout.size, layout.blocks) {
        Ok(lane) => Ok(lane),
        Err(LaneRefused { block, index }) => {
            spool.abandon(End::Unsealed(block));
            spool.abandon(End::Unsealed(index));
            Err(LoadEnd::NoMemory)
        }
    }
}

/// Gives both drafts of a lane back to the shelf, whose count of faults rises if the draft of the
/// block file has failed.
pub(crate) fn give_up<D: Shelf>(spool: &mut Spool<D, Indexed>, lane: Lane<D::Draft>)
    requires { IsLaneOf D.Draft.origin (D.id spool.old.shelf) lane }
    ensures keeps { KeepsSpool D.log spool.old spool.new }
    ensures cause { RoseIf (0 < D.Draft.faults lane.block) (D.faults spool.old.shelf)
        (D.faults spool.new.shelf) }
    ensures rest { (D.id spool.new.shelf ≡ D.id spool.old.shelf)
        × (D.loans spool.new.shelf ≡ D.loans spool.old.shelf) }
{
    let (block, index) = lane.give_up();
    spool.abandon(End::Unsealed(block));
    spool.abandon(End::Unsealed(index));
}

/// Seals a lane that has records. After an error both files have gone back to the shelf.
///
/// `DiskFault` comes only if the shelf's count of faults rose; the other error is `NoMemory`.
pub(crate) fn seal<D: Shelf>(
    spool: &mut Spool<D, Indexed>,
    lane: Lane<D::Draft>,
) -> Result<SealedPair<D::Draft>, LoadEnd>
    requires lane { (lane.broken ≡ false) × (1 ≤ lane.filling.records) }
    requires home { IsLaneOf D.Draft.origin (D.id spool.old.shelf) lane }
    // the pair
    ensures pair { (rs : List Rec) → Represents D.Draft.written lane rs
        → IfOk result (λ p. AreWhole lane.filling.size rs
        (D.Draft.sealed_bytes p.block) (D.Draft.sealed_bytes p.index)) }
    ensures home { IfOk result (λ p. IsPairOf (D.id spool.old.shelf)
        (D.Draft.sealed_origin p.block) (D.Draft.sealed_origin p.index)) }
    // the spool
    ensures spool { MatchResult result (λ _. spool.new ≡ spool.old)
        (λ _. KeepsSpool D.log spool.old spool.new) }
    ensures rest { (D.id spool.new.shelf ≡ D.id spool.old.shelf)
        × (D.loans spool.new.shelf ≡ D.loans spool.old.shelf) }
    // an error
    ensures failed { IfErr result IsFailure }
    ensures cause { RoseIf (result ≡ Err LoadEnd.DiskFault) (D.faults spool.old.shelf)
        (D.faults spool.new.shelf) }
{
    match lane.seal() {
        Ok(pair) => Ok(pair),
        Err(SealErr::NoMemory { lane }) => {
            give_up(spool, lane);
            Err(LoadEnd::NoMemory)
        }
        Err(
            SealErr::DiskFault {
                lost: _lost,
                block,
                index,
            },
        ) => {
            spool.abandon(block);
            spool.abandon(index);
            Err(LoadEnd::DiskFault)
        }
    }
}
