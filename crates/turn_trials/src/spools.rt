ghost use Rattle.std.specs.Prelude.{◌≡◌, ◌≤◌, [], IfSome};

use st_shelf::{Name, Shelf};
use st_spool::{NotEntered, PairRule, Spool};
use st_turn::{Pass, Shared};
use std::alloc::Global;

/// Each pair may be published.
pub struct AnyPair;

impl PairRule for AnyPair {
    ghost use Rattle.std.specs.Prelude.{⊤};

    ghost is_whole = { λ block index. ⊤ };
}

/// A spool that the callers of a program share.
pub type SharedSpool<D> = Shared<Spool<D, AnyPair>>;

/// The pass of one of them.
pub type SpoolPass<D> = Pass<Spool<D, AnyPair>>;

/// A spool over this shelf that keeps `limit` pairs, 1 or more. None if it can't be opened.
pub fn opened<D: Shelf + Drop>(alloc: Global, shelf: D, limit: u32) -> Option<Spool<D, AnyPair>>
    requires { 1 ≤ limit }
    ensures { IfSome result (λ s. s.state.holds ≡ []) }
{
    match Spool::enter(alloc, shelf, limit) {
        Ok(spool) => Some(spool),
        Err(
            NotEntered {
                cause: _cause,
                shelf: _shelf,
            },
        ) => None,
    }
}

/// What is on a spool's shelf at the end.
#[derive(Clone, Copy, Debug, PartialEq, Eq)]
pub struct Left {
    /// How many pairs the spool has.
    pub pairs: usize,
    /// How many names of parked indexes there are.
    pub parked: usize,
}

// How many pairs a spool has, and 0 where memory ran out.
fn pair_count<D: Shelf>(spool: &mut Spool<D, AnyPair>) -> usize
    requires { spool.old.state.holds ≡ [] }
    ensures { spool.new.state.holds ≡ [] }
{
    let Ok(hold) = spool.hold() else {
        return 0;
    };
    let count = spool.count(&hold);
    spool.release(hold);
    count
}

// How many names of parked indexes a shelf has, if it can say.
fn parked<D: Shelf>(alloc: Global, shelf: &mut D) -> Option<usize> {
    let Ok(names) = shelf.list(alloc) else {
        return None;
    };
    let mut count: usize = 0;
    for name in names.items() {
        if let Name::Parked(_) = name {
            count = count.saturating_add(1);
        }
    }
    Some(count)
}

/// Closes a spool, and says what is left on its shelf. None if that can't be listed.
pub fn closed<D: Shelf + Drop>(alloc: Global, spool: Spool<D, AnyPair>) -> Option<Left>
    requires { spool.state.holds ≡ [] }
{
    let mut spool = spool;
    let pairs = pair_count(&mut spool);
    let mut shelf = spool.close();
    let parked = parked(alloc, &mut shelf)?;
    Some(Left { pairs, parked })
}
