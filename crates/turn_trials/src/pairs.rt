ghost use Rattle.std.specs.Prelude.{◌≡◌, ◌<◌, ◌∷◌, IfSome, Contains};
ghost use Rattle.st_spool.specs.Holding.{size_of};
ghost use Rattle.st_spool.specs.Publishing.{IsPairOf};
ghost use Rattle.st_turn.specs.Passes.{IsOf, IsSame};

use crate::spools::{SharedSpool, SpoolPass};
use st_base::{Reader, put};
use st_shelf::{Draft, End, Kind, SealedPair, Shelf};
use st_spool::Hold;
use st_turn::SharedPublishErr;
use std::sync::Wait;

// Makes a sealed file of these bytes. None if a call failed.
fn sealed<D: Shelf, R: Wait>(
    rt: &R,
    shared: &SharedSpool<D>,
    pass: &mut SpoolPass<D>,
    kind: Kind,
    bytes: &[u8],
) -> Option<<D::Draft as Draft>::Sealed>
    requires { IsOf shared.now pass.old }
    ensures origin { IfSome result (λ s. ((D.Draft.sealed_origin s).kind ≡ kind)
        × ((D.Draft.sealed_origin s).home ≡ D.id shared.now.base.shelf)) }
    ensures same { IsSame pass.old pass.new }
    ensures holds { pass.new.state.held ≡ pass.old.state.held }
{
    let Ok(mut draft) = shared.create(rt, pass, kind) else {
        return None;
    };
    if let Err(_) = put(&mut draft, bytes) {
        shared.abandon(rt, pass, End::Unsealed(draft));
        return None;
    }
    match draft.seal() {
        Ok(sealed) => Some(sealed),
        Err(draft) => {
            shared.abandon(rt, pass, End::Unsealed(draft));
            None
        }
    }
}

// Gives up both files of a pair.
fn give_up<D: Shelf, R: Wait>(
    rt: &R,
    shared: &SharedSpool<D>,
    pass: &mut SpoolPass<D>,
    pair: SealedPair<D::Draft>,
)
    // whose pass and pair they are
    requires of { IsOf shared.now pass.old }
    requires block { (D.Draft.sealed_origin pair.block).home ≡ D.id shared.now.base.shelf }
    requires index { (D.Draft.sealed_origin pair.index).home ≡ D.id shared.now.base.shelf }
    // the pass
    ensures same { IsSame pass.old pass.new }
    ensures holds { pass.new.state.held ≡ pass.old.state.held }
{
    let SealedPair { block, index } = pair;
    shared.abandon(rt, pass, End::Sealed(block));
    shared.abandon(rt, pass, End::Sealed(index));
}

/// Publishes a pair of sealed files of the shared spool's shelf, and answers its stamp. None if it
/// failed or was refused; a pair that a refusal hands back is given up.
pub fn publish_pair<D: Shelf, R: Wait>(
    rt: &R,
    shared: &SharedSpool<D>,
    pass: &mut SpoolPass<D>,
    pair: SealedPair<D::Draft>,
) -> Option<u64>
    requires of { IsOf shared.now pass.old }
    requires pair { IsPairOf (D.id shared.now.base.shelf)
        (D.Draft.sealed_origin pair.block) (D.Draft.sealed_origin pair.index) }
    ensures same { IsSame pass.old pass.new }
    ensures holds { pass.new.state.held ≡ pass.old.state.held }
{
    match shared.publish(rt, pass, pair, 0) {
        Ok(stamp) => Some(stamp),
        Err(SharedPublishErr::DiskFault) => None,
        Err(SharedPublishErr::Halted { since: _, pair }) => {
            give_up(rt, shared, pass, pair);
            None
        }
        Err(SharedPublishErr::StampsSpent { last: _, pair }) => {
            give_up(rt, shared, pass, pair);
            None
        }
        Err(SharedPublishErr::NoMemory { pair }) => {
            give_up(rt, shared, pass, pair);
            None
        }
    }
}

/// Publishes a pair whose files have these bytes, as `publish_pair` does. None, too, if a file
/// could not be made.
pub fn publish<D: Shelf, R: Wait>(
    rt: &R,
    shared: &SharedSpool<D>,
    pass: &mut SpoolPass<D>,
    block: &[u8],
    index: &[u8],
) -> Option<u64>
    requires { IsOf shared.now pass.old }
    ensures same { IsSame pass.old pass.new }
    ensures holds { pass.new.state.held ≡ pass.old.state.held }
{
    let block = sealed(rt, shared, pass, Kind::Block, block)?;
    let Some(index) = sealed(rt, shared, pass, Kind::Index, index) else {
        shared.abandon(rt, pass, End::Sealed(block));
        return None;
    };
    publish_pair(rt, shared, pass, SealedPair { block, index })
}

/// Removes the oldest pair if there are more than the limit, and answers whether it did. None if
/// the call failed.
pub fn age<D: Shelf, R: Wait>(
    rt: &R,
    shared: &SharedSpool<D>,
    pass: &mut SpoolPass<D>,
) -> Option<bool>
    requires { IsOf shared.now pass.old }
    ensures same { IsSame pass.old pass.new }
    ensures holds { pass.new.state.held ≡ pass.old.state.held }
{
    match shared.age(rt, pass) {
        Ok(removed) => Some(removed),
        Err(_) => None,
    }
}

// Reads the first byte of a file that was lent, and gives the file back.
fn first_byte<D: Shelf, R: Wait>(
    rt: &R,
    shared: &SharedSpool<D>,
    pass: &mut SpoolPass<D>,
    file: D::File,
) -> Option<u8>
    // whose pass and file they are
    requires of { IsOf shared.now pass.old }
    requires home { (D.file_origin file).home ≡ D.id shared.now.base.shelf }
    requires lent { 0 < pass.old.loans.lent }
    // the pass
    ensures same { IsSame pass.old pass.new }
    ensures holds { pass.new.state.held ≡ pass.old.state.held }
{
    let mut file = file;
    let mut bytes = [0];
    let read = file.read_at(0, &mut bytes);
    shared.close_file(rt, pass, file);
    match read {
        Ok(1) => Some(bytes[0]),
        _ => None,
    }
}

/// Reads the first byte of the block file of the `i`-th pair of a hold of this pass, counted from 0
/// in the order of stamps. None if a call failed or the file is empty.
pub fn block_byte<D: Shelf, R: Wait>(
    rt: &R,
    shared: &SharedSpool<D>,
    pass: &mut SpoolPass<D>,
    hold: &Hold,
    i: usize,
) -> Option<u8>
    // whose pass it is, and which pair
    requires of { IsOf shared.now pass.old }
    requires held { Contains pass.old.state.held hold.now }
    requires within { i < size_of hold.now }
    // the pass
    ensures same { IsSame pass.old pass.new }
    ensures holds { pass.new.state.held ≡ pass.old.state.held }
{
    match shared.block_of(rt, pass, hold, i) {
        Ok(file) => first_byte(rt, shared, pass, file),
        Err(_) => None,
    }
}

/// Reads the first byte of the index of the `i`-th pair of a hold of this pass, counted from 0 in
/// the order of stamps. None if a call failed or the file is empty.
pub fn index_byte<D: Shelf, R: Wait>(
    rt: &R,
    shared: &SharedSpool<D>,
    pass: &mut SpoolPass<D>,
    hold: &Hold,
    i: usize,
) -> Option<u8>
    // whose pass it is, and which pair
    requires of { IsOf shared.now pass.old }
    requires held { Contains pass.old.state.held hold.now }
    requires within { i < size_of hold.now }
    // the pass
    ensures same { IsSame pass.old pass.new }
    ensures holds { pass.new.state.held ≡ pass.old.state.held }
{
    match shared.index_of(rt, pass, hold, i) {
        Ok(file) => first_byte(rt, shared, pass, file),
        Err(_) => None,
    }
}
