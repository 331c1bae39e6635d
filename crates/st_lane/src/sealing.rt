ghost use Rattle.std.specs.Prelude.{◌≡◌, ◌≤◌, List, OnOk, OnErr, IfOk, IfErr};
ghost use Rattle.std.specs.Io.KnownBytes.{Appends};
ghost use Rattle.st_base.specs.Records.{Rec};
ghost use Rattle.st_block.specs.BlockText.{blocks, block_text};
ghost use Rattle.st_lane.specs.Filling.{last_block, Fills};
ghost use Rattle.st_lane.specs.Sealing.{OneFailed, CameBack};

use crate::filling::Filling;
use st_base::{Failed, put};
use st_shelf::{Draft, End, SealedPair};

/// Puts the last block to the draft of the block file and the index to the other one.
///
/// `Failed` comes only if the count of faults of one of the drafts rose in this call.
pub(crate) fn put_pair<T: Draft>(
    filling: Filling,
    table: &[u8],
    block: &mut T,
    index: &mut T,
) -> Result<(), Failed>
    requires { 1 ≤ filling.records }
    // what is written
    ensures block { (rs : List Rec) → Fills filling rs
        → OnOk result (Appends (T.written block.old) (T.written block.new)
        (block_text filling.size filling.done (last_block (blocks filling.size rs)))) }
    ensures index { OnOk result (Appends (T.written index.old) (T.written index.new) table.now) }
    // the drafts
    ensures still { OnOk result ((T.faults block.new ≡ T.faults block.old)
        × (T.faults index.new ≡ T.faults index.old)) }
    ensures failed { OnErr result (OneFailed (T.faults block.old) (T.faults block.new)
        (T.faults index.old) (T.faults index.new)) }
    ensures origins { (T.origin block.new ≡ T.origin block.old)
        × (T.origin index.new ≡ T.origin index.old) }
{
    match filling.put_last(block) {
        Ok(()) => put(index, table),
        Err(error) => Err(error),
    }
}

/// Seals both drafts. If one fails, both come back, sealed or not.
pub(crate) fn seal_both<T: Draft>(block: T, index: T) -> Result<SealedPair<T>, (End<T>, End<T>)>
    // the files
    ensures bytes { IfOk result (λ p. (T.sealed_bytes p.block ≡ T.written block)
        × (T.sealed_bytes p.index ≡ T.written index)) }
    ensures origins { IfOk result (λ p. (T.sealed_origin p.block ≡ T.origin block)
        × (T.sealed_origin p.index ≡ T.origin index)) }
    ensures still { IfOk result (λ p. (T.sealed_faults p.block ≡ T.faults block)
        × (T.sealed_faults p.index ≡ T.faults index)) }
    // the drafts
    ensures failed { IfErr result (λ e.
        CameBack T.origin T.sealed_origin T.faults T.sealed_faults block index e.0 e.1) }
{
    match block.seal() {
        Ok(block) => match index.seal() {
            Ok(index) => Ok(SealedPair { block, index }),
            Err(index) => Err((End::Sealed(block), End::Unsealed(index))),
        },
        Err(block) => Err((End::Unsealed(block), End::Unsealed(index))),
    }
}
