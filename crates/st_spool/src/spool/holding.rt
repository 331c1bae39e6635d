// Holds: the file sets that stay readable while pairs are published and removed.
ghost use Rattle.std.specs.Prelude.{◌≡◌, ◌≤◌, ◌<◌, ◌+◌, ◌-◌, ◌∷◌, List, Some, IfOk, MatchResult, Contains, length, drop};
ghost use Rattle.st_base.specs.Faults.{HasCause};
ghost use Rattle.st_disk.specs.declared.naming.Kind.TheVariants as kind;
ghost use Rattle.st_shelf.specs.Ends.{TakesFaults};
ghost use Rattle.st_shelf.specs.Loans.{take_back};
ghost use Rattle.st_disk.specs.Disks.{Log};
ghost use Rattle.st_disk.specs.Pairs.{Entry, Files};
ghost use Rattle.st_disk.specs.Events.{Event};
ghost use Rattle.st_spool.specs.History.{set_of};
ghost use Rattle.st_spool.specs.States.{held};
ghost use Rattle.st_spool.specs.Holding.{size_of, whole_set, with_hold, IsWithout, Sweeps};
ghost use Rattle.st_spool.specs.Lending.{IsLent};
ghost use Rattle.st_spool.specs.Standing.{StandsFor};
ghost use Rattle.st_spool.specs.Publishing.{Keeps};

use crate::held::Hold;
use crate::pair_rule::PairRule;
use crate::refusals::DiskFault;
use crate::settling::index_file;
use crate::spool::Spool;
use crate::state::Span;
use crate::sweeping::{sweep, take_out};
use st_base::NoMemory;
use st_shelf::{Name, Shelf};

impl<D: Shelf, W: PairRule> Spool<D, W> {
    /// Holds the set of all pairs that are published at this call. The hold must be spent, by
    /// `release`. `NoMemory` comes if memory runs out, and changes nothing.
    pub fn hold(&mut self) -> Result<Hold, NoMemory>
        ensures stands { (earlier h : List Event) (f : Files)
            → StandsFor W.is_whole (D.log self.old.shelf) self.old.state earlier h f
            → StandsFor W.is_whole (D.log self.new.shelf) self.new.state earlier h f }
        ensures held { (earlier h : List Event) (f : Files)
            → StandsFor W.is_whole (D.log self.old.shelf) self.old.state earlier h f
            → IfOk result (λ k. held k h ≡ set_of h) }
        ensures state { MatchResult result (λ k. (k ≡ whole_set self.old.state)
            × (self.new ≡ record self.old { state = with_hold self.old.state }))
            (λ _. self.new ≡ self.old) }
    {
        let span = Span {
            from: self.removed,
            to: self.stamps.len(),
        };
        if let Err(_) = self.holds.push(span) {
            return Err(NoMemory);
        }
        self.asks = self.asks.saturating_add(1);
        self.asked = span;
        Ok(Hold { span })
    }

    /// How many pairs a hold of this spool has.
    pub fn count(&self, hold: &Hold) -> usize
        requires { Contains self.now.state.holds hold.now }
        ensures count { result ≡ size_of hold.now }
        ensures held { (earlier h : List Event) (f : Files)
            → StandsFor W.is_whole (D.log self.now.shelf) self.now.state earlier h f
            → result ≡ length (held hold.now h) }
    {
        hold.span.to - hold.span.from
    }

    /// The stamp of the pair at the place `i` of a hold of this spool, from 0 on, in the order of
    /// stamps.
    pub fn stamp_of(&self, hold: &Hold, i: usize) -> u64
        requires held { Contains self.now.state.holds hold.now }
        requires within { i < size_of hold.now }
        ensures { (earlier h : List Event) (f : Files) (e : Entry) (after : List Entry)
            → StandsFor W.is_whole (D.log self.now.shelf) self.now.state earlier h f
            → drop i (held hold.now h) ≡ e ∷ after → result ≡ e.stamp }
    {
        self.stamps[hold.span.from + i]
    }

    /// Lends the block file of the pair at the place `i` of a hold of this spool, from 0 on, in the
    /// order of stamps. It must be spent, by `close_file`.
    ///
    /// `DiskFault` comes only if the shelf's count of faults rose.
    pub fn block_of(&mut self, hold: &Hold, i: usize) -> Result<D::File, DiskFault>
        requires held { Contains self.old.state.holds hold.now }
        requires within { i < size_of hold.now }
        // the spool
        ensures keeps { (earlier h : List Event) (f : Files)
            → StandsFor W.is_whole (D.log self.old.shelf) self.old.state earlier h f
            → Keeps W.is_whole (D.log self.old.shelf) (D.log self.new.shelf)
            self.new.state earlier h f }
        ensures state { self.new ≡ record self.old { shelf = self.new.shelf } }
        // the file
        ensures content { (log : Log) (earlier h : List Event) (f : Files) (e : Entry)
            (after : List Entry) → D.log self.old.shelf ≡ Some log
            → StandsFor W.is_whole (D.log self.old.shelf) self.old.state earlier h f
            → drop i (held hold.now h) ≡ e ∷ after
            → IfOk result (λ file. D.File.content file ≡ Some e.block) }
        ensures lent { IsLent kind.Block D.file_origin D.File.reads D.File.asked D.File.faults
            (D.id self.old.shelf) (D.loans self.old.shelf) (D.loans self.new.shelf) result }
        // the counts
        ensures cause { HasCause (D.faults self.old.shelf) (D.faults self.new.shelf) result }
        ensures id { D.id self.new.shelf ≡ D.id self.old.shelf }
    {
        let stamp = self.stamps[hold.span.from + i];
        let Ok(file) = self.shelf.reader(Name::Block(stamp)) else {
            return Err(DiskFault);
        };
        Ok(file)
    }

    /// Lends the index of the pair at the place `i` of a hold of this spool, from 0 on, in the
    /// order of stamps. It must be spent, by `close_file`.
    ///
    /// `DiskFault` comes only if the shelf's count of faults rose.
    pub fn index_of(&mut self, hold: &Hold, i: usize) -> Result<D::File, DiskFault>
        requires held { Contains self.old.state.holds hold.now }
        requires within { i < size_of hold.now }
        // the spool
        ensures keeps { (earlier h : List Event) (f : Files)
            → StandsFor W.is_whole (D.log self.old.shelf) self.old.state earlier h f
            → Keeps W.is_whole (D.log self.old.shelf) (D.log self.new.shelf)
            self.new.state earlier h f }
        ensures state { self.new ≡ record self.old { shelf = self.new.shelf } }
        // the file
        ensures content { (log : Log) (earlier h : List Event) (f : Files) (e : Entry)
            (after : List Entry) → D.log self.old.shelf ≡ Some log
            → StandsFor W.is_whole (D.log self.old.shelf) self.old.state earlier h f
            → drop i (held hold.now h) ≡ e ∷ after
            → IfOk result (λ file. D.File.content file ≡ Some e.index) }
        ensures lent { IsLent kind.Index D.file_origin D.File.reads D.File.asked D.File.faults
            (D.id self.old.shelf) (D.loans self.old.shelf) (D.loans self.new.shelf) result }
        // the counts
        ensures cause { HasCause (D.faults self.old.shelf) (D.faults self.new.shelf) result }
        ensures id { D.id self.new.shelf ≡ D.id self.old.shelf }
    {
        let doubt = self.doubt;
        let place = hold.span.from + i;
        let stamp = self.stamps[place];
        let name = index_file(doubt, self.removed, place, stamp);
        let Ok(file) = self.shelf.reader(name) else {
            return Err(DiskFault);
        };
        Ok(file)
    }

    /// Takes a file back that this spool's shelf lent. If the file's count of faults had risen, the
    /// shelf's rises.
    pub fn close_file(&mut self, file: D::File)
        requires { (D.file_origin file).home ≡ D.id self.old.shelf }
        // the spool
        ensures keeps { (earlier h : List Event) (f : Files)
            → StandsFor W.is_whole (D.log self.old.shelf) self.old.state earlier h f
            → Keeps W.is_whole (D.log self.old.shelf) (D.log self.new.shelf)
            self.new.state earlier h f }
        ensures state { self.new ≡ record self.old { shelf = self.new.shelf } }
        // the counts
        ensures cause { TakesFaults (D.File.faults file)
            (D.faults self.old.shelf) (D.faults self.new.shelf) }
        ensures id { D.id self.new.shelf ≡ D.id self.old.shelf }
        ensures loans { D.loans self.new.shelf ≡ take_back (D.file_origin file).kind
            (D.File.reads file) (D.File.asked file) (D.loans self.old.shelf) }
    {
        self.shelf.close(file);
    }

    /// Ends a hold of this spool, and removes the files of removed pairs that no hold has any more,
    /// but those of a removal in doubt.
    ///
    /// A removal of a file that fails raises the shelf's count of faults, and is tried again by
    /// each later `release` and `age`.
    pub fn release(&mut self, hold: Hold)
        requires { Contains self.old.state.holds hold }
        // the spool
        ensures keeps { (earlier h : List Event) (f : Files)
            → StandsFor W.is_whole (D.log self.old.shelf) self.old.state earlier h f
            → Keeps W.is_whole (D.log self.old.shelf) (D.log self.new.shelf)
            self.new.state earlier h f }
        ensures without { IsWithout hold self.old.state.holds self.new.state.holds }
        ensures state { self.new ≡ record self.old {
          shelf = self.new.shelf;
          state = record self.old.state {
            holds = self.new.state.holds;
            swept = self.new.state.swept;
          };
        } }
        // the files
        ensures sweeps { Sweeps (D.log self.new.shelf) self.old.state.stamps
            self.new.state.holds self.old.state.swept self.new.state.swept
            self.old.state.removed (D.faults self.old.shelf) (D.faults self.new.shelf) }
        // the counts
        ensures cause { D.faults self.old.shelf ≤ D.faults self.new.shelf }
        ensures rest { (D.id self.new.shelf ≡ D.id self.old.shelf)
            × (D.loans self.new.shelf ≡ D.loans self.old.shelf) }
    {
        let Hold { span } = hold;
        take_out(&mut self.holds, span);
        self.swept = sweep(
            &mut self.shelf,
            self.stamps.as_slice(),
            self.swept,
            self.removed,
            self.holds.as_slice(),
        );
    }
}
