ghost use Rattle.std.specs.Prelude.{◌≡◌, ◌≤◌, [], None, Some, IfOk, MatchResult};
ghost use Rattle.st_base.specs.Faults.{Rose};
ghost use Rattle.st_disk.specs.Disks.{Log};
ghost use Rattle.st_spool.specs.Entering.{opened, Enters, FailsToEnter};
ghost use Rattle.st_spool.specs.Standing.{Stands};

mod aging;
mod counting;
mod holding;
mod publishing;

use crate::opening::{EnterErr, Opening, open};
use crate::pair_rule::PairRule;
use crate::refusals::NotEntered;
use crate::state::{Doubt, Span};
use st_shelf::Shelf;
use std::alloc::Global;
use std::marker::{Model, PhantomData};

/// A spool: the pairs of block files and indexes on a shelf, which are published and removed one at
/// a time, so that every crash leaves each of them whole or not at all.
///
/// It keeps the stamps of all pairs that it found or published, in order: the first `found` of them
/// were there at the opening, the first `removed` are published no more, and of these the first
/// `swept` have no file left. `last` is the greatest stamp of any file so far. `holds` are the held
/// sets, each as places in the list of stamps; `asks` counts them, and `asked` is the last one.
/// After a publication or an ageing that failed `doubt` is what it may have left, `halted` the
/// shelf's count of faults then, and `halts` counts the calls that failed so.
///
/// Contracts see it as `SpoolView`: its shelf, what it keeps, and for how many publications it has
/// room. It represents a history (`specs/Standing.antt`), a function of what it keeps and of its
/// shelf's log (`specs/Recalling.antt`). It must be spent, by `close`.
pub struct Spool<D: Shelf, W: PairRule> {
    shelf: D,
    limit: u32,
    stamps: Vec<u64>,
    found: usize,
    removed: usize,
    swept: usize,
    last: u64,
    holds: Vec<Span>,
    doubt: Doubt,
    halted: Option<u64>,
    halts: u64,
    asks: u64,
    asked: Span,
    rule: PhantomData<W>,
}

impl<D: Shelf, W: PairRule> Model for Spool<D, W> {
    ghost use Rattle.std.specs.Prelude.{vec_len, vec_capacity, ◌-◌};
    ghost use Rattle.st_spool.specs.States.{SpoolView, state_by};
    ghost use Rattle.st_spool.specs.Standing.{Stands};

    ghost Value = { SpoolView D };

    ghost view = { λ a. record {
      shelf = a.shelf;
      state = state_by a.limit a.stamps.items a.found a.removed a.swept a.last a.holds.items
          a.doubt a.halted a.halts a.asks a.asked;
      spare = vec_capacity a.stamps - vec_len a.stamps;
    } };

    ghost invariant = { λ a. Stands W.is_whole (D.log a.shelf)
        (state_by a.limit a.stamps.items a.found a.removed a.swept a.last a.holds.items
        a.doubt a.halted a.halts a.asks a.asked) };
}

impl<D: Shelf, W: PairRule> Spool<D, W> {
    /// Opens a spool over a shelf. It takes the pairs that are there and reads no file. What is no
    /// part of a pair is removed: drafts, parked indexes, a block or an index alone. `limit` is the
    /// number of pairs, at least 1, above which `age` removes the oldest.
    ///
    /// `NoMemory` comes if memory runs out, `DiskFault` only if the shelf's count of faults rose.
    /// Both hand the shelf back; a crash then leaves pairs that one might have left before the
    /// call.
    pub fn enter(alloc: Global, shelf: D, limit: u32) -> Result<Spool<D, W>, NotEntered<D>>
        requires { 1 ≤ limit }
        ensures entered { (log : Log) → D.log shelf ≡ Some log → MatchResult result
            (λ s. Enters W.is_whole log (D.log s.shelf) s.state)
            (λ n. FailsToEnter log (D.log n.shelf)) }
        ensures state { IfOk result
            (λ s. s.state ≡ opened limit s.state.stamps s.state.last) }
        // the counts
        ensures cause { MatchResult result (λ s. D.faults s.shelf ≡ D.faults shelf)
            (λ n. (D.faults shelf ≤ D.faults n.shelf) × (n.cause ≡ EnterErr.DiskFault
            → Rose (D.faults shelf) (D.faults n.shelf))) }
        ensures rest { MatchResult result
            (λ s. (D.id s.shelf ≡ D.id shelf) × (D.loans s.shelf ≡ D.loans shelf))
            (λ n. (D.id n.shelf ≡ D.id shelf) × (D.loans n.shelf ≡ D.loans shelf)) }
    {
        let mut shelf = shelf;
        match open(alloc, &mut shelf) {
            Ok(Opening { stamps, last }) => {
                let found = stamps.len();
                let asked = Span { from: 0, to: found };
                Ok(Spool {
                    shelf,
                    limit,
                    stamps,
                    found,
                    removed: 0,
                    swept: 0,
                    last,
                    holds: Vec::new(alloc),
                    doubt: Doubt::Nothing,
                    halted: None,
                    halts: 0,
                    asks: 0,
                    asked,
                    rule: PhantomData,
                })
            }
            Err(cause) => Err(NotEntered { cause, shelf }),
        }
    }

    /// Does nothing. Its contract says that the spool represents a history.
    pub fn recall(&self)
        ensures { Stands W.is_whole (D.log self.now.shelf) self.now.state }
    {
        let _ = &self.limit;
    }

    /// Gives the shelf back. No hold may be out.
    pub fn close(self) -> D
        requires { self.state.holds ≡ [] }
        ensures { result ≡ self.shelf }
    {
        let Spool {
            shelf,
            limit: _limit,
            stamps: _stamps,
            found: _found,
            removed: _removed,
            swept: _swept,
            last: _last,
            holds: _holds,
            doubt: _doubt,
            halted: _halted,
            halts: _halts,
            asks: _asks,
            asked: _asked,
            rule: _rule,
        } = self;
        shelf
    }
}
