//! Pairs of small captures, filled and published in turns.

ghost use Rattle.std.specs.Prelude.{◌≡◌, ◌≤◌, IsTrue, IfSome, false};
ghost use Rattle.st_turn.specs.Passes.{IsOf, IsSame};
ghost use Rattle.st_lane.specs.Lane.{IsSameLane};
ghost use Rattle.st_spool.specs.Publishing.{IsPairOf};
ghost use Rattle.seated_answer.specs.Lanes.{IsLaneOf, IsFresh};

use crate::packets::{Label, PACKETS, SIZE, packet, time_of};
use st_base::RecordRef;
use st_lane::{Lane, LaneRefused, Pushed, SealErr};
use st_shelf::{Draft, End, Kind, SealedPair, Shelf};
use std::alloc::Global;
use std::sync::Wait;
use turn_trials::{SharedSpool, SpoolPass, publish_pair};

// A block file of one block, in bytes, holds a pair.
const BLOCK_SIZE: u32 = 4_096;

// A lane without records, over two drafts.
fn open_lane<D: Shelf, R: Wait>(
    rt: &R,
    alloc: Global,
    shared: &SharedSpool<D>,
    pass: &mut SpoolPass<D>,
) -> Option<Lane<D::Draft>>
    requires { IsOf shared.now pass.old }
    ensures lane { IfSome result (λ l. IsFresh l
        × IsLaneOf D.Draft.origin (D.id shared.now.base.shelf) l) }
    ensures same { IsSame pass.old pass.new }
    ensures holds { pass.new.state.held ≡ pass.old.state.held }
{
    let Ok(block) = shared.create(rt, pass, Kind::Block) else {
        return None;
    };
    let Ok(index) = shared.create(rt, pass, Kind::Index) else {
        shared.abandon(rt, pass, End::Unsealed(block));
        return None;
    };
    match Lane::new(alloc, block, index, BLOCK_SIZE, 1) {
        Ok(lane) => Some(lane),
        Err(LaneRefused { block, index }) => {
            shared.abandon(rt, pass, End::Unsealed(block));
            shared.abandon(rt, pass, End::Unsealed(index));
            None
        }
    }
}

// Pushes the packets of a pair to a lane that has none, and answers whether it took them.
fn fill<T: Draft>(lane: &mut Lane<T>, maker: u8, pair: u32) -> bool
    requires { IsFresh lane.old }
    ensures same { IsSameLane T.origin lane.old lane.new }
    ensures filled { IsTrue result → (lane.new.broken ≡ false) × (1 ≤ lane.new.filling.records) }
{
    for number in 0..PACKETS {
        let label = Label {
            maker,
            pair,
            number,
        };
        let (sec, nsec) = time_of(label);
        let body = packet(label);
        let record = RecordRef {
            sec,
            nsec,
            orig: SIZE as u32,
            body: body.as_slice(),
        };
        match lane.push(record) {
            Ok(Pushed::Kept) => {}
            _ => return false,
        }
    }
    true
}

// Gives the drafts of a lane up.
fn give_up_lane<D: Shelf, R: Wait>(
    rt: &R,
    shared: &SharedSpool<D>,
    pass: &mut SpoolPass<D>,
    lane: Lane<D::Draft>,
)
    requires of { IsOf shared.now pass.old }
    requires lane { IsLaneOf D.Draft.origin (D.id shared.now.base.shelf) lane }
    ensures same { IsSame pass.old pass.new }
    ensures holds { pass.new.state.held ≡ pass.old.state.held }
{
    let (block, index) = lane.give_up();
    shared.abandon(rt, pass, End::Unsealed(block));
    shared.abandon(rt, pass, End::Unsealed(index));
}

// The sealed files of a lane that has records.
fn sealed<D: Shelf, R: Wait>(
    rt: &R,
    shared: &SharedSpool<D>,
    pass: &mut SpoolPass<D>,
    lane: Lane<D::Draft>,
) -> Option<SealedPair<D::Draft>>
    requires of { IsOf shared.now pass.old }
    requires lane { IsLaneOf D.Draft.origin (D.id shared.now.base.shelf) lane }
    requires filled { (lane.broken ≡ false) × (1 ≤ lane.filling.records) }
    // the files, and the pass
    ensures pair { IfSome result (λ p. IsPairOf (D.id shared.now.base.shelf)
        (D.Draft.sealed_origin p.block) (D.Draft.sealed_origin p.index)) }
    ensures same { IsSame pass.old pass.new }
    ensures holds { pass.new.state.held ≡ pass.old.state.held }
{
    match lane.seal() {
        Ok(pair) => Some(pair),
        Err(SealErr::NoMemory { lane }) => {
            give_up_lane(rt, shared, pass, lane);
            None
        }
        Err(
            SealErr::DiskFault {
                lost: _lost,
                block,
                index,
            },
        ) => {
            shared.abandon(rt, pass, block);
            shared.abandon(rt, pass, index);
            None
        }
    }
}

/// Publishes the pair of this maker and number, and answers its stamp; None if it failed.
pub fn publish<D: Shelf, R: Wait>(
    rt: &R,
    alloc: Global,
    shared: &SharedSpool<D>,
    pass: &mut SpoolPass<D>,
    maker: u8,
    pair: u32,
) -> Option<u64>
    requires { IsOf shared.now pass.old }
    ensures same { IsSame pass.old pass.new }
    ensures holds { pass.new.state.held ≡ pass.old.state.held }
{
    let Some(mut lane) = open_lane(rt, alloc, shared, pass) else {
        return None;
    };
    if !fill(&mut lane, maker, pair) {
        give_up_lane(rt, shared, pass, lane);
        return None;
    }
    let Some(files) = sealed(rt, shared, pass, lane) else {
        return None;
    };
    publish_pair(rt, shared, pass, files)
}
