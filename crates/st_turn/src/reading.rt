//! Turns that read a hold: counts, stamps and lent files.
ghost use Rattle.std.specs.Prelude.{◌≡◌, ◌<◌, ◌++◌, ◌∷◌, [], true, Contains, MatchResult};
ghost use Rattle.st_disk.specs.declared.naming.Kind.TheVariants as kind;
ghost use Rattle.st_disk.specs.Names.{by_kind};
ghost use Rattle.st_shelf.specs.Loans.{lend, take_back};
ghost use Rattle.st_spool.specs.Holding.{size_of};
ghost use Rattle.st_spool.specs.States.{SpoolView};
ghost use Rattle.st_turn.specs.Passes.{IsOf, IsSame};
ghost use Rattle.st_turn.specs.Spools.{facts_of};
ghost use Rattle.st_turn.specs.Calls.{IsTurn};
ghost use Rattle.st_turn.specs.SpoolCalls.{IsAtHome};
ghost use Rattle.st_turn.specs.ReadingCalls.{TellsCount, TellsStamp, Lends, TakesFile};

use crate::desk::{end, take};
use crate::home::Home;
use crate::pass::Pass;
use crate::sharing::Shared;
use crate::trail::Trail;
use st_shelf::{Kind, Shelf};
use st_spool::{DiskFault, Hold, PairRule, Spool};
use std::sync::Wait;

// Notes a file that was lent, if one was.
fn note_lent<F, E>(files: &mut Trail<F, bool>, answer: &Result<F, E>)
    ensures { MatchResult answer.now (λ f. files.new.items ≡ files.old.items ++ (f, true) ∷ [])
        (λ _. files.new.items ≡ files.old.items) }
{
    if let Ok(file) = answer {
        *files = files.and(file, &true);
    }
}

// Lends the file of this kind of the `i`-th pair of a hold, counted from 0 in the order of stamps.
fn file_of<D: Shelf, W: PairRule>(
    spool: &mut Spool<D, W>,
    kind: Kind,
    hold: &Hold,
    i: usize,
) -> Result<D::File, DiskFault>
    requires held { Contains spool.old.state.holds hold.now }
    requires within { i < size_of hold.now }
    ensures { Lends W.is_whole D.log D.faults D.id D.loans spool.old spool.new kind
        (λ e. by_kind kind e.block e.index) D.File.content D.file_origin D.File.reads
        D.File.asked D.File.faults hold.now i result }
{
    match kind {
        Kind::Block => spool.block_of(hold, i),
        Kind::Index => spool.index_of(hold, i),
    }
}

impl<D: Shelf, W: PairRule> Shared<Spool<D, W>> {
    /// Counts the pairs of a hold of this pass, as the spool's `count` does, in one turn.
    pub fn count<R: Wait>(&self, rt: &R, pass: &mut Pass<Spool<D, W>>, hold: &Hold) -> usize
        requires of { IsOf self.now pass.old }
        requires held { Contains pass.old.state.held hold.now }
        // the pass
        ensures same { IsSame pass.old pass.new }
        ensures holds { pass.new.state.held ≡ pass.old.state.held }
        ensures loans { pass.new.loans ≡ pass.old.loans }
        // the turn: `v` is the spool as it was found, `w` as it was left
        ensures turn { (v : SpoolView D) × (w : SpoolView D)
            × IsAtHome W.is_whole D.log D.faults D.id self.now.base v
            × IsTurn (facts_of D.log D.faults D.id) v w pass.old.state pass.new.state
            × TellsCount W.is_whole D.log D.faults D.id D.loans v w hold.now result }
    {
        let desk = &self.table.shared;
        let Home { spool, lines } = take(rt, desk, &mut pass.place);
        spool.recall();
        let before = spool.fault_count();
        let answer = spool.count(hold);
        end(
            desk,
            &mut pass.place,
            pass.number,
            (spool, lines),
            before,
            false,
        );
        answer
    }

    /// Tells the stamp of the `i`-th pair of a hold of this pass, counted from 0 in the order of
    /// stamps, as the spool's `stamp_of` does, in one turn.
    pub fn stamp_of<R: Wait>(
        &self,
        rt: &R,
        pass: &mut Pass<Spool<D, W>>,
        hold: &Hold,
        i: usize,
    ) -> u64
        requires of { IsOf self.now pass.old }
        requires held { Contains pass.old.state.held hold.now }
        requires within { i < size_of hold.now }
        // the pass
        ensures same { IsSame pass.old pass.new }
        ensures holds { pass.new.state.held ≡ pass.old.state.held }
        ensures loans { pass.new.loans ≡ pass.old.loans }
        // the turn: `v` is the spool as it was found, `w` as it was left
        ensures turn { (v : SpoolView D) × (w : SpoolView D)
            × IsAtHome W.is_whole D.log D.faults D.id self.now.base v
            × IsTurn (facts_of D.log D.faults D.id) v w pass.old.state pass.new.state
            × TellsStamp W.is_whole D.log D.faults D.id D.loans v w hold.now i result }
    {
        let desk = &self.table.shared;
        let Home { spool, lines } = take(rt, desk, &mut pass.place);
        spool.recall();
        let before = spool.fault_count();
        let answer = spool.stamp_of(hold, i);
        end(
            desk,
            &mut pass.place,
            pass.number,
            (spool, lines),
            before,
            false,
        );
        answer
    }

    // Lends the file of this kind of the `i`-th pair of a hold of this pass, counted from 0 in the
    // order of stamps, in one turn.
    fn lend_by<R: Wait>(
        &self,
        rt: &R,
        pass: &mut Pass<Spool<D, W>>,
        hold: &Hold,
        i: usize,
        kind: Kind,
    ) -> Result<D::File, DiskFault>
        requires of { IsOf self.now pass.old }
        requires held { Contains pass.old.state.held hold.now }
        requires within { i < size_of hold.now }
        // the pass
        ensures same { IsSame pass.old pass.new }
        ensures holds { pass.new.state.held ≡ pass.old.state.held }
        ensures loans { MatchResult result (λ _. pass.new.loans ≡ lend pass.old.loans)
            (λ _. pass.new.loans ≡ pass.old.loans) }
        // the turn: `v` is the spool as it was found, `w` as it was left
        ensures turn { (v : SpoolView D) × (w : SpoolView D)
            × IsAtHome W.is_whole D.log D.faults D.id self.now.base v
            × IsTurn (facts_of D.log D.faults D.id) v w pass.old.state pass.new.state
            × Lends W.is_whole D.log D.faults D.id D.loans v w kind
            (λ e. by_kind kind e.block e.index) D.File.content D.file_origin D.File.reads
            D.File.asked D.File.faults hold.now i result }
    {
        let desk = &self.table.shared;
        let Home { mut spool, lines } = take(rt, desk, &mut pass.place);
        spool.recall();
        let before = spool.fault_count();
        let answer = file_of(&mut spool, kind, hold, i);
        end(
            desk,
            &mut pass.place,
            pass.number,
            (spool, lines),
            before,
            false,
        );
        note_lent(&mut pass.files, &answer);
        answer
    }

    /// Lends the block file of the `i`-th pair of a hold of this pass, counted from 0 in the order
    /// of stamps, as the spool's `block_of` does, in one turn. The file must be spent, by
    /// `close_file`.
    ///
    /// `DiskFault` comes only if the pass's `failed` rose.
    pub fn block_of<R: Wait>(
        &self,
        rt: &R,
        pass: &mut Pass<Spool<D, W>>,
        hold: &Hold,
        i: usize,
    ) -> Result<D::File, DiskFault>
        requires of { IsOf self.now pass.old }
        requires held { Contains pass.old.state.held hold.now }
        requires within { i < size_of hold.now }
        // the pass
        ensures same { IsSame pass.old pass.new }
        ensures holds { pass.new.state.held ≡ pass.old.state.held }
        ensures loans { MatchResult result (λ _. pass.new.loans ≡ lend pass.old.loans)
            (λ _. pass.new.loans ≡ pass.old.loans) }
        // the turn: `v` is the spool as it was found, `w` as it was left
        ensures turn { (v : SpoolView D) × (w : SpoolView D)
            × IsAtHome W.is_whole D.log D.faults D.id self.now.base v
            × IsTurn (facts_of D.log D.faults D.id) v w pass.old.state pass.new.state
            × Lends W.is_whole D.log D.faults D.id D.loans v w kind.Block (λ e. e.block)
            D.File.content D.file_origin D.File.reads D.File.asked D.File.faults hold.now i result }
    {
        self.lend_by(rt, pass, hold, i, Kind::Block)
    }

    /// Lends the index of the `i`-th pair of a hold of this pass, counted from 0 in the order of
    /// stamps, as the spool's `index_of` does, in one turn. The file must be spent, by
    /// `close_file`.
    ///
    /// `DiskFault` comes only if the pass's `failed` rose.
    pub fn index_of<R: Wait>(
        &self,
        rt: &R,
        pass: &mut Pass<Spool<D, W>>,
        hold: &Hold,
        i: usize,
    ) -> Result<D::File, DiskFault>
        requires of { IsOf self.now pass.old }
        requires held { Contains pass.old.state.held hold.now }
        requires within { i < size_of hold.now }
        // the pass
        ensures same { IsSame pass.old pass.new }
        ensures holds { pass.new.state.held ≡ pass.old.state.held }
        ensures loans { MatchResult result (λ _. pass.new.loans ≡ lend pass.old.loans)
            (λ _. pass.new.loans ≡ pass.old.loans) }
        // the turn: `v` is the spool as it was found, `w` as it was left
        ensures turn { (v : SpoolView D) × (w : SpoolView D)
            × IsAtHome W.is_whole D.log D.faults D.id self.now.base v
            × IsTurn (facts_of D.log D.faults D.id) v w pass.old.state pass.new.state
            × Lends W.is_whole D.log D.faults D.id D.loans v w kind.Index (λ e. e.index)
            D.File.content D.file_origin D.File.reads D.File.asked D.File.faults hold.now i result }
    {
        self.lend_by(rt, pass, hold, i, Kind::Index)
    }

    /// Takes back a file that the shared spool's shelf lent, as the spool's `close_file` does, in
    /// one turn. The pass has a file out, by its own count.
    pub fn close_file<R: Wait>(&self, rt: &R, pass: &mut Pass<Spool<D, W>>, file: D::File)
        requires of { IsOf self.now pass.old }
        requires home { (D.file_origin file).home ≡ D.id self.now.base.shelf }
        requires lent { 0 < pass.old.loans.lent }
        // the pass
        ensures same { IsSame pass.old pass.new }
        ensures holds { pass.new.state.held ≡ pass.old.state.held }
        ensures loans { pass.new.loans ≡ take_back (D.file_origin file).kind
            (D.File.reads file) (D.File.asked file) pass.old.loans }
        // the turn: `v` is the spool as it was found, `w` as it was left
        ensures turn { (v : SpoolView D) × (w : SpoolView D)
            × IsAtHome W.is_whole D.log D.faults D.id self.now.base v
            × IsTurn (facts_of D.log D.faults D.id) v w pass.old.state pass.new.state
            × TakesFile W.is_whole D.log D.faults D.id D.loans v w
            D.file_origin D.File.reads D.File.asked D.File.faults file }
    {
        pass.files = pass.files.and(&file, &false);
        let desk = &self.table.shared;
        let Home { mut spool, lines } = take(rt, desk, &mut pass.place);
        spool.recall();
        let before = spool.fault_count();
        spool.close_file(file);
        end(
            desk,
            &mut pass.place,
            pass.number,
            (spool, lines),
            before,
            false,
        );
    }
}
