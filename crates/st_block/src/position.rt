ghost use Rattle.std.specs.Prelude.{◌≡◌, ◌<◌, ◌+◌, ◌*◌, ◌∷◌, ◌++◌, [], List, length};
ghost use Rattle.st_base.specs.Records.{Rec};
ghost use Rattle.st_block.specs.BlockText.{IsBlockSize};
ghost use Rattle.st_block.specs.Position.{PositionOf, IsLastAt};

use crate::format::MAX_BLOCKS;

/// The position of a record, in bytes: where its head stands in a file of blocks of `size` bytes,
/// from the number of its block, counted from 0, and the offset of its head in the block.
///
/// Source: docs/FORMAT.md, "Block file".
pub fn position_in(size: u32, number: u32, offset: u32) -> u32
    // the block's size and number, and the offset in it
    requires size { IsBlockSize size }
    requires number { number < MAX_BLOCKS }
    requires offset { offset < size }
    // the position
    ensures value { result ≡ size * number + offset }
    ensures last { (rs : List Rec) (r : Rec) → IsLastAt size number offset rs r
        → result ≡ PositionOf size (rs ++ r ∷ []) (length rs) }
{
    size * number + offset
}
