// Calls of the spool, each kept in the model.
ghost use Rattle.std.specs.Prelude.{◌≡◌, ◌<◌, IfSome, Contains, ⊤};
ghost use Rattle.st_spool.specs.Holding.{size_of};
ghost use Rattle.st_spool.specs.Publishing.{IsPairOf};

use crate::model::{Doubt, Model, Pair, Stretch};
use st_base::{Reader, put};
use st_shelf::{Draft, End, Kind, SealedPair, Shelf};
use st_spool::{AgeErr, Hold, PairRule, PublishErr, Spool};

/// Each pair is whole.
pub(crate) struct AnyPair;

impl PairRule for AnyPair {
    ghost is_whole = { λ block index. ⊤ };
}

// A sealed file of one byte.
fn sealed<D: Shelf>(
    spool: &mut Spool<D, AnyPair>,
    kind: Kind,
    byte: u8,
) -> Option<<D::Draft as Draft>::Sealed>
    ensures origin { IfSome result (λ s. ((D.Draft.sealed_origin s).kind ≡ kind)
        × ((D.Draft.sealed_origin s).home ≡ D.id spool.old.shelf)) }
    ensures rest { (spool.new.state ≡ spool.old.state)
        × (D.id spool.new.shelf ≡ D.id spool.old.shelf) }
{
    let Ok(mut draft) = spool.create(kind) else {
        return None;
    };
    if let Err(_) = put(&mut draft, &[byte]) {
        spool.abandon(End::Unsealed(draft));
        return None;
    }
    match draft.seal() {
        Ok(sealed) => Some(sealed),
        Err(draft) => {
            spool.abandon(End::Unsealed(draft));
            None
        }
    }
}

// Both files of a pair, sealed, where there is room for its publication.
fn pair_of<D: Shelf>(spool: &mut Spool<D, AnyPair>, byte: u8) -> Option<SealedPair<D::Draft>>
    ensures pair { IfSome result (λ p. IsPairOf (D.id spool.new.shelf)
        (D.Draft.sealed_origin p.block) (D.Draft.sealed_origin p.index)) }
    ensures spare { IfSome result (λ _. 0 < spool.new.spare) }
    ensures rest { spool.new.state ≡ spool.old.state }
{
    let block = sealed(spool, Kind::Block, byte)?;
    let Some(index) = sealed(spool, Kind::Index, byte.wrapping_add(1)) else {
        spool.abandon(End::Sealed(block));
        return None;
    };
    if let Err(_) = spool.reserve() {
        spool.abandon(End::Sealed(block));
        spool.abandon(End::Sealed(index));
        return None;
    }
    Some(SealedPair { block, index })
}

fn give_up<D: Shelf>(spool: &mut Spool<D, AnyPair>, pair: SealedPair<D::Draft>)
    requires { IsPairOf (D.id spool.old.shelf)
        (D.Draft.sealed_origin pair.block) (D.Draft.sealed_origin pair.index) }
    ensures { spool.new.state ≡ spool.old.state }
{
    let SealedPair { block, index } = pair;
    spool.abandon(End::Sealed(block));
    spool.abandon(End::Sealed(index));
}

/// Publishes a pair, unless the spool has stopped or its files can't be made.
pub(crate) fn publish<D: Shelf>(spool: &mut Spool<D, AnyPair>, model: &mut Model)
    ensures { spool.new.state.holds ≡ spool.old.state.holds }
{
    let byte = model.next_byte();
    let Some(pair) = pair_of(spool, byte) else {
        model.failed();
        return;
    };
    match spool.publish(pair, 0) {
        Ok(stamp) => model.publishes(Pair { stamp, byte }),
        Err(PublishErr::DiskFault) => model.doubts(Doubt::Published(byte)),
        Err(PublishErr::Halted { since: _, pair }) => give_up(spool, pair),
        Err(PublishErr::StampsSpent { last: _, pair }) => {
            give_up(spool, pair);
            model.is_wrong();
        }
    }
}

/// Removes the oldest pair where more than the limit are published.
pub(crate) fn age<D: Shelf>(spool: &mut Spool<D, AnyPair>, limit: u32, model: &mut Model)
    ensures { spool.new.state.holds ≡ spool.old.state.holds }
{
    match spool.age() {
        Ok(removed) => model.ages(limit, removed),
        Err(AgeErr::DiskFault) => model.doubts(Doubt::Removed),
        Err(AgeErr::Halted { since: _ }) => {}
    }
}

// The first byte of a file that was lent, which is taken back.
fn first_byte<D: Shelf>(spool: &mut Spool<D, AnyPair>, file: D::File) -> Option<u8>
    requires { (D.file_origin file).home ≡ D.id spool.old.shelf }
    ensures { (spool.new.state ≡ spool.old.state)
        × (D.id spool.new.shelf ≡ D.id spool.old.shelf) }
{
    let mut file = file;
    let mut part = [0];
    let read = file.read_at(0, &mut part);
    spool.close_file(file);
    match read {
        Ok(1) => Some(part[0]),
        _ => None,
    }
}

// The first bytes of both files of a pair of a hold, if no call failed.
fn bytes_of<D: Shelf>(spool: &mut Spool<D, AnyPair>, hold: &Hold, i: usize) -> Option<(u8, u8)>
    requires held { Contains spool.old.state.holds hold.now }
    requires within { i < size_of hold.now }
    ensures { spool.new.state ≡ spool.old.state }
{
    let Ok(file) = spool.block_of(hold, i) else {
        return None;
    };
    let block = first_byte(spool, file)?;
    let Ok(file) = spool.index_of(hold, i) else {
        return None;
    };
    let index = first_byte(spool, file)?;
    Some((block, index))
}

/// Reads each pair of a hold, which has to have this stretch of the pairs.
pub(crate) fn read_hold<D: Shelf>(
    spool: &mut Spool<D, AnyPair>,
    hold: &Hold,
    stretch: Stretch,
    model: &mut Model,
)
    requires { Contains spool.old.state.holds hold.now }
    ensures { spool.new.state ≡ spool.old.state }
{
    let count = spool.count(hold);
    if count != stretch.to.saturating_sub(stretch.from) {
        model.is_wrong();
    }
    'pairs: for i in 0..count {
        let stamp = spool.stamp_of(hold, i);
        let Some((block, index)) = bytes_of(spool, hold, i) else {
            model.failed();
            continue;
        };
        let byte = block;
        if index != block.wrapping_add(1) || model.pair(stretch, i) != Some(Pair { stamp, byte }) {
            model.is_wrong();
        }
        model.reads();
    }
}
