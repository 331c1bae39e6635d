// Publishing a pair: its drafts, the room for it, and the publication.
ghost use Rattle.std.specs.Prelude.{◌≡◌, ◌<◌, ◌+◌, [], List, Some, IfOk, OnOk, MatchResult};
ghost use Rattle.st_base.specs.Faults.{HasCause, HasCauseOf};
ghost use Rattle.st_disk.specs.declared.naming.Kind.TheVariants as kind;
ghost use Rattle.st_shelf.specs.Ends.{end_origin, end_faults, TakesFaults};
ghost use Rattle.st_disk.specs.Disks.{Log};
ghost use Rattle.st_disk.specs.Folders.{given};
ghost use Rattle.st_disk.specs.Pairs.{Files};
ghost use Rattle.st_disk.specs.Events.{Event};
ghost use Rattle.st_spool.specs.Refusing.{RefusesPair};
ghost use Rattle.st_spool.specs.Settling.{files, entry};
ghost use Rattle.st_spool.specs.Standing.{StandsFor};
ghost use Rattle.st_spool.specs.Publishing.{next_stamp, MayPublish, published, FailsToPublish, Publishes, Fails, Keeps, IsPairOf};

use crate::pair_rule::PairRule;
use crate::refusals::{DiskFault, PublishErr};
use crate::settling::{Stopped, settle_pair};
use crate::spool::Spool;
use crate::state::Doubt;
use st_base::NoMemory;
use st_shelf::{End, Kind, SealedPair, Shelf};

impl<D: Shelf, W: PairRule> Spool<D, W> {
    /// Makes an empty draft of this kind, as the shelf's `create` does.
    ///
    /// `DiskFault` comes only if the shelf's count of faults rose.
    pub fn create(&mut self, kind: Kind) -> Result<D::Draft, DiskFault>
        // the spool
        ensures keeps { (earlier h : List Event) (f : Files)
            → StandsFor W.is_whole (D.log self.old.shelf) self.old.state earlier h f
            → Keeps W.is_whole (D.log self.old.shelf) (D.log self.new.shelf)
            self.new.state earlier h f }
        ensures state { self.new ≡ record self.old { shelf = self.new.shelf } }
        // the draft
        ensures origin { IfOk result (λ d. ((D.Draft.origin d).kind ≡ kind)
            × ((D.Draft.origin d).home ≡ D.id self.old.shelf)) }
        ensures empty { IfOk result
            (λ d. (given (D.Draft.written d) ≡ []) × (D.Draft.faults d ≡ 0)) }
        // the counts
        ensures cause { HasCause (D.faults self.old.shelf) (D.faults self.new.shelf) result }
        ensures rest { (D.id self.new.shelf ≡ D.id self.old.shelf)
            × (D.loans self.new.shelf ≡ D.loans self.old.shelf) }
    {
        match self.shelf.create(kind) {
            Ok(draft) => Ok(draft),
            Err(_) => Err(DiskFault),
        }
    }

    /// Takes a draft or a sealed file of this spool's shelf back and tries to remove it. The
    /// shelf's count of faults rises if that fails, or if the file's own count had risen.
    pub fn abandon(&mut self, end: End<D::Draft>)
        requires { (end_origin D.Draft.origin D.Draft.sealed_origin end).home
            ≡ D.id self.old.shelf }
        // the spool
        ensures keeps { (earlier h : List Event) (f : Files)
            → StandsFor W.is_whole (D.log self.old.shelf) self.old.state earlier h f
            → Keeps W.is_whole (D.log self.old.shelf) (D.log self.new.shelf)
            self.new.state earlier h f }
        ensures state { self.new ≡ record self.old { shelf = self.new.shelf } }
        // the counts
        ensures cause { TakesFaults (end_faults D.Draft.faults D.Draft.sealed_faults end)
            (D.faults self.old.shelf) (D.faults self.new.shelf) }
        ensures rest { (D.id self.new.shelf ≡ D.id self.old.shelf)
            × (D.loans self.new.shelf ≡ D.loans self.old.shelf) }
    {
        self.shelf.abandon(end);
    }

    /// Makes room for a publication, which `publish` needs. `NoMemory` comes if memory runs out,
    /// and leaves what the spool keeps.
    pub fn reserve(&mut self) -> Result<(), NoMemory>
        ensures spare { OnOk result (0 < self.new.spare) }
        ensures state { self.new ≡ record self.old { spare = self.new.spare } }
    {
        match self.stamps.reserve(1) {
            Ok(()) => Ok(()),
            Err(_) => Err(NoMemory),
        }
    }

    /// Publishes a pair of sealed files of this spool's shelf, and returns its stamp: the greater
    /// of `floor` and the one after the last. After Ok each crash leaves the pair, until `age`
    /// removes it.
    ///
    /// `DiskFault` comes only if the shelf's count of faults rose: each file that was not settled
    /// is abandoned, the publication is in doubt if the block was settled, and the spool refuses
    /// from then on. `Halted` comes only if an earlier call failed, and `StampsSpent` only if no
    /// stamp is left; both change nothing and hand the pair back.
    pub fn publish(
        &mut self,
        pair: SealedPair<D::Draft>,
        floor: u64,
    ) -> Result<u64, PublishErr<D::Draft>>
        requires spare { 0 < self.old.spare }
        requires pair { IsPairOf (D.id self.old.shelf)
            (D.Draft.sealed_origin pair.block) (D.Draft.sealed_origin pair.index) }
        requires whole { (log : Log) → D.log self.old.shelf ≡ Some log
            → W.is_whole (given (D.Draft.sealed_bytes pair.block))
            (given (D.Draft.sealed_bytes pair.index)) }
        // what it does, if it is not refused
        ensures published { (earlier h : List Event) (f : Files) → MayPublish self.old.state
            → StandsFor W.is_whole (D.log self.old.shelf) self.old.state earlier h f
            → let p = files (given (D.Draft.sealed_bytes pair.block))
            (given (D.Draft.sealed_bytes pair.index)) in MatchResult result
            (λ s. Publishes W.is_whole (D.log self.old.shelf) (D.log self.new.shelf)
            self.new.state earlier h (entry s p) f)
            (λ _. Fails W.is_whole (D.log self.old.shelf) (D.log self.new.shelf)
            self.new.state earlier h p) }
        ensures state { MayPublish self.old.state → MatchResult result
            (λ s. (s ≡ next_stamp self.old.state.last floor)
            × (self.new.state ≡ published self.old.state s))
            (λ e. (e ≡ PublishErr.DiskFault) × FailsToPublish self.old.state self.new.state
            (next_stamp self.old.state.last floor) (D.faults self.new.shelf)) }
        // which answer it gives
        ensures refused { MatchResult result (λ _. MayPublish self.old.state)
            (λ e. RefusesPair self.old self.new pair e) }
        // the counts
        ensures cause { HasCauseOf PublishErr.DiskFault (D.faults self.old.shelf)
            (D.faults self.new.shelf) result }
        ensures rest { (D.id self.new.shelf ≡ D.id self.old.shelf)
            × (D.loans self.new.shelf ≡ D.loans self.old.shelf)
            × (self.new.state.holds ≡ self.old.state.holds) }
    {
        if let Some(since) = self.halted {
            return Err(PublishErr::Halted { since, pair });
        }
        if self.last == u64::MAX {
            return Err(PublishErr::StampsSpent {
                last: self.last,
                pair,
            });
        }
        let stamp = floor.max(self.last + 1);
        match settle_pair(&mut self.shelf, pair, stamp) {
            Ok(()) => {
                self.last = stamp;
                let _ = self.stamps.push(stamp);
                Ok(stamp)
            }
            Err(Stopped::Before) => {
                self.halted = Some(self.shelf.fault_count());
                self.halts = self.halts.saturating_add(1);
                self.doubt = Doubt::Unsettled(stamp);
                Err(PublishErr::DiskFault)
            }
            Err(Stopped::After) => {
                self.halted = Some(self.shelf.fault_count());
                self.halts = self.halts.saturating_add(1);
                self.doubt = Doubt::Settled(stamp);
                Err(PublishErr::DiskFault)
            }
        }
    }
}
