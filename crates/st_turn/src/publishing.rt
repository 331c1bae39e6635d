//! The turn that publishes a pair.
ghost use Rattle.std.specs.Prelude.{◌≡◌, ℕ, Some};
ghost use Rattle.st_disk.specs.Disks.{Log};
ghost use Rattle.st_disk.specs.Folders.{given};
ghost use Rattle.st_spool.specs.Publishing.{IsPairOf};
ghost use Rattle.st_spool.specs.States.{SpoolView};
ghost use Rattle.st_turn.specs.Passes.{IsOf, IsSame};
ghost use Rattle.st_turn.specs.Spools.{facts_of};
ghost use Rattle.st_turn.specs.Calls.{IsTurn};
ghost use Rattle.st_turn.specs.SpoolCalls.{told, IsAtHome, SharedPublishes};
ghost use Rattle.st_turn.specs.Refusing.{has_failed, PublishRefuses};

use crate::desk::{end, take};
use crate::home::Home;
use crate::pass::Pass;
use crate::refusals::SharedPublishErr;
use crate::sharing::Shared;
use st_shelf::{Draft, SealedPair, Shelf};
use st_spool::{PairRule, PublishErr, Spool};
use std::sync::Wait;

// Whether the spool's publication failed, which stops the spool.
fn is_stopped<T: Draft>(answer: &Result<u64, SharedPublishErr<T>>) -> bool
    ensures { result ≡ has_failed answer.now }
{
    match answer {
        Ok(_) => false,
        Err(SharedPublishErr::DiskFault) => true,
        Err(SharedPublishErr::Halted { .. }) => false,
        Err(SharedPublishErr::StampsSpent { .. }) => false,
        Err(SharedPublishErr::NoMemory { .. }) => false,
    }
}

// The spool's answer, as a shared one.
fn shared_answer<T: Draft>(answer: Result<u64, PublishErr<T>>) -> Result<u64, SharedPublishErr<T>>
    ensures { result ≡ told answer }
{
    match answer {
        Ok(stamp) => Ok(stamp),
        Err(PublishErr::DiskFault) => Err(SharedPublishErr::DiskFault),
        Err(PublishErr::Halted { since, pair }) => Err(SharedPublishErr::Halted { since, pair }),
        Err(PublishErr::StampsSpent { last, pair }) => {
            Err(SharedPublishErr::StampsSpent { last, pair })
        }
    }
}

// Makes room for a publication and publishes, as the spool does.
fn publish_with_room<D: Shelf, W: PairRule>(
    spool: &mut Spool<D, W>,
    pair: SealedPair<D::Draft>,
    floor: u64,
) -> Result<u64, SharedPublishErr<D::Draft>>
    requires pair { IsPairOf (D.id spool.old.shelf)
        (D.Draft.sealed_origin pair.block) (D.Draft.sealed_origin pair.index) }
    requires whole { (log : Log) → D.log spool.old.shelf ≡ Some log
        → W.is_whole (given (D.Draft.sealed_bytes pair.block))
        (given (D.Draft.sealed_bytes pair.index)) }
    ensures { (room : ℕ) × SharedPublishes W.is_whole D.log D.faults D.id D.loans
        (record spool.old { spare = room }) spool.new D.Draft.sealed_bytes pair floor result }
{
    if let Err(_) = spool.reserve() {
        return Err(SharedPublishErr::NoMemory { pair });
    }
    let answer = spool.publish(pair, floor);
    shared_answer(answer)
}

impl<D: Shelf, W: PairRule> Shared<Spool<D, W>> {
    /// Publishes a pair of sealed files of the shared spool's shelf, as the spool's `publish` does,
    /// in one turn, which makes room for it first.
    ///
    /// The answer is the pair's stamp, which is `floor` or greater. `DiskFault` comes only if the
    /// pass's `failed` rose, and raises its `stops`. Every other error hands the pair back:
    /// `Halted` comes if an earlier publication or ageing of the spool failed, `StampsSpent` if no
    /// stamp is left, `NoMemory` before anything was done.
    pub fn publish<R: Wait>(
        &self,
        rt: &R,
        pass: &mut Pass<Spool<D, W>>,
        pair: SealedPair<D::Draft>,
        floor: u64,
    ) -> Result<u64, SharedPublishErr<D::Draft>>
        requires of { IsOf self.now pass.old }
        requires pair { IsPairOf (D.id self.now.base.shelf)
            (D.Draft.sealed_origin pair.block) (D.Draft.sealed_origin pair.index) }
        requires whole { (log : Log) → D.log self.now.base.shelf ≡ Some log
            → W.is_whole (given (D.Draft.sealed_bytes pair.block))
            (given (D.Draft.sealed_bytes pair.index)) }
        // the pass
        ensures same { IsSame pass.old pass.new }
        ensures holds { pass.new.state.held ≡ pass.old.state.held }
        ensures loans { pass.new.loans ≡ pass.old.loans }
        // the turn: `v` is the spool as it was found, `w` as it was left
        ensures turn { (v : SpoolView D) × (w : SpoolView D)
            × IsAtHome W.is_whole D.log D.faults D.id self.now.base v
            × IsTurn (facts_of D.log D.faults D.id) v w pass.old.state pass.new.state
            × SharedPublishes W.is_whole D.log D.faults D.id D.loans v w
            D.Draft.sealed_bytes pair floor result
            × PublishRefuses D.log self.now.base.state.last v
            pass.old.state.card pass.new.state.card result }
    {
        let desk = &self.table.shared;
        let Home { mut spool, lines } = take(rt, desk, &mut pass.place);
        spool.recall();
        let before = spool.fault_count();
        let answer = publish_with_room(&mut spool, pair, floor);
        let stop = is_stopped(&answer);
        end(
            desk,
            &mut pass.place,
            pass.number,
            (spool, lines),
            before,
            stop,
        );
        answer
    }
}
